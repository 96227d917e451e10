//! The loop over an input's lines, which writes the answer to each.
ghost use Rattle.std.specs.Prelude.{◌≡◌, ◌≢◌, ◌<◌, length, OnOk, IfErr, IfSome};
ghost use Rattle.std.specs.Io.KnownBytes.{IsAtEnd};
ghost use Rattle.relay_script.specs.Lines.{lines_of};
ghost use Rattle.relay_script.specs.Respond.{AnswersAll, AnswersSome, HasLongLine};
ghost use Rattle.relay_script.specs.declared.input.TheConstants.{MAX_LINE};
ghost use Rattle.relay_script.specs.declared.run.TheConstants.{MAX_LINES};

use crate::fault::ScriptFault;
use crate::input::{LineReader, next_line};
use crate::output::write_whole;
use crate::respond::Respond;
use std::alloc::Global;
use std::io::{Read, Write};

/// The maximum number of lines of an input.
pub const MAX_LINES: u32 = 65_536;

/// Answers every line of the input, in order. The lines before a fault were carried out and their
/// answers written: at `TooManyLines` the first 65,536, whatever the next one is, and at
/// `LineTooLong` those before the first line that is too long. After `Output` the last answer may
/// be cut.
///
/// ```
/// let mut script = Script::new(alloc, Hub::new(alloc, 1, FIRST_SESSION, 64, 32).ok()?);
/// let mut input = "\nann open board\nann jump\n".as_bytes();
/// let mut output = Vec::new(alloc);
/// run_lines(alloc, &mut script, &mut input, &mut output).ok()?;
/// // The third line has no known form.
/// assert!(rt; output.as_slice() == "ann opened 1\n? 3\n".as_bytes());
/// ```
pub fn run_lines<S: Respond, R: Read, W: Write>(
    alloc: Global,
    state: &mut S,
    reader: &mut R,
    writer: &mut W,
) -> Result<(), ScriptFault>
    ensures done { OnOk result (AnswersAll S.answers state.old (R.remaining reader.old)
        (W.contents writer.old) (W.contents writer.new)) }
    ensures read { OnOk result (IsAtEnd (R.remaining reader.new)) }
    ensures stopped { IfErr result (λ fault.
        AnswersSome S.answers fault state.old (R.remaining reader.old) (W.contents writer.old)
        (W.contents writer.new)) }
    ensures limits { IfErr result (λ fault. fault ≢ ScriptFault.BadLimit) }
    ensures too_long { IfErr result (λ fault. fault ≡ ScriptFault.LineTooLong
        → IfSome (R.remaining reader.old) (λ bytes. HasLongLine MAX_LINE (lines_of bytes))) }
    ensures too_many { IfErr result (λ fault. fault ≡ ScriptFault.TooManyLines
        → IfSome (R.remaining reader.old) (λ bytes. MAX_LINES < length (lines_of bytes))) }
{
    let mut lines = LineReader::new();
    let mut line = Vec::new(alloc);
    for before in 0..MAX_LINES {
        if !next_line(reader, &mut lines, &mut line)? {
            return Ok(());
        }
        let answer = state.respond(alloc, before + 1, line.as_slice())?;
        write_whole(writer, answer.as_bytes())?;
    }
    if lines.has_more(reader)? {
        return Err(ScriptFault::TooManyLines);
    }
    Ok(())
}
