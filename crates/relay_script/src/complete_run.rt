//! Complete runs: a script, or a follower, from the first line of an input to the last.
ghost use Rattle.std.specs.Prelude.{◌≡◌, ◌≢◌, ◌<◌, ◌↔◌, length, OnOk, IfErr, IfSome, IsErrOf, None};
ghost use Rattle.std.specs.Io.KnownBytes.{IsAtEnd};
ghost use Rattle.relay_hub.specs.Queries.{BadLimits};
ghost use Rattle.relay_script.specs.Follow as follow;
ghost use Rattle.relay_script.specs.Lines.{lines_of};
ghost use Rattle.relay_script.specs.Respond.{AnswersAll, AnswersSome, HasLongLine};
ghost use Rattle.relay_script.specs.Script.{HubAnswers, new_stage};
ghost use Rattle.relay_script.specs.declared.input.TheConstants.{MAX_LINE};
ghost use Rattle.relay_script.specs.declared.run.TheConstants.{MAX_LINES};

use crate::fault::ScriptFault;
use crate::follow::Following;
use crate::run::run_lines;
use crate::script::Script;
use relay_hub::{Hub, HubConfig};
use std::alloc::Global;
use std::io::{Read, Write};

/// Carries out the lines of a script over a new hub, and writes their answers. At `BadLimit`
/// nothing was read or written. The lines before any other fault were carried out and their answers
/// written: at `TooManyLines` the first 65,536, and at `LineTooLong` those before the first line
/// that is too long. After `Output` the last answer may be cut.
///
/// ```
/// let mut input = "ann open board\nann draw\n".as_bytes();
/// let mut output = Vec::new(alloc);
/// run_script(alloc, &mut input, &mut output, HubConfig::new(1, 1, 64, 32)).ok()?;
/// let wanted = "ann opened 1\nann {\"epoch\":1,\"kind\":\"welcome\",\"rev\":0,\"session\":1}\n";
/// assert!(rt; output.as_slice() == wanted.as_bytes());
/// ```
pub fn run_script<R: Read, W: Write>(
    alloc: Global,
    reader: &mut R,
    writer: &mut W,
    config: HubConfig,
) -> Result<(), ScriptFault>
    ensures done { OnOk result (AnswersAll HubAnswers (new_stage config) (R.remaining reader.old)
        (W.contents writer.old) (W.contents writer.new)) }
    ensures read { OnOk result (IsAtEnd (R.remaining reader.new)) }
    ensures bad_limit { IsErrOf result ScriptFault.BadLimit ↔ BadLimits config }
    ensures untouched { IfErr result (λ fault. fault ≡ ScriptFault.BadLimit
        → (reader.new ≡ reader.old) × (writer.new ≡ writer.old)) }
    ensures stopped { IfErr result (λ fault. fault ≢ ScriptFault.BadLimit
        → AnswersSome HubAnswers fault (new_stage config) (R.remaining reader.old)
        (W.contents writer.old) (W.contents writer.new)) }
    ensures too_long { IfErr result (λ fault. fault ≡ ScriptFault.LineTooLong
        → IfSome (R.remaining reader.old) (λ bytes. HasLongLine MAX_LINE (lines_of bytes))) }
    ensures too_many { IfErr result (λ fault. fault ≡ ScriptFault.TooManyLines
        → IfSome (R.remaining reader.old) (λ bytes. MAX_LINES < length (lines_of bytes))) }
{
    let hub = Hub::with_config(alloc, config)?;
    run_lines(alloc, &mut Script::new(alloc, hub), reader, writer)
}

/// Applies the texts of an input, one per line, to a follower, and writes what it holds after each.
/// Limits and faults are those of [`run_script`], but `BadLimit` never comes.
///
/// ```
/// let mut input = "{\"kind\":\"snapshot\",\"rev\":1,\"view\":[[7]]}\n# no message\n".as_bytes();
/// let mut output = Vec::new(alloc);
/// run_follow(alloc, &mut input, &mut output).ok()?;
/// assert!(rt; output.as_slice() == "held 1 [[7]]\noff not-message\n".as_bytes());
/// ```
pub fn run_follow<R: Read, W: Write>(
    alloc: Global,
    reader: &mut R,
    writer: &mut W,
) -> Result<(), ScriptFault>
    ensures done { OnOk result (AnswersAll follow.Answers None (R.remaining reader.old)
        (W.contents writer.old) (W.contents writer.new)) }
    ensures read { OnOk result (IsAtEnd (R.remaining reader.new)) }
    ensures limits { IfErr result (λ fault. fault ≢ ScriptFault.BadLimit) }
    ensures stopped { IfErr result (λ fault.
        AnswersSome follow.Answers fault None (R.remaining reader.old) (W.contents writer.old)
        (W.contents writer.new)) }
    ensures too_long { IfErr result (λ fault. fault ≡ ScriptFault.LineTooLong
        → IfSome (R.remaining reader.old) (λ bytes. HasLongLine MAX_LINE (lines_of bytes))) }
    ensures too_many { IfErr result (λ fault. fault ≡ ScriptFault.TooManyLines
        → IfSome (R.remaining reader.old) (λ bytes. MAX_LINES < length (lines_of bytes))) }
{
    run_lines(alloc, &mut Following::new(), reader, writer)
}
