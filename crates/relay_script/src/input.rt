//! A reader of lines, over a reader of bytes.
ghost use Rattle.std.specs.Prelude.{◌≡◌, ◌↔◌, ℕ, ◌+◌, ◌-◌, ◌<◌, ◌≤◌, ◌==◌, if◌then◌else◌, List, []};
ghost use Rattle.std.specs.Prelude.{◌++◌, take, drop, length, position, IfOk, IfErr, OnErr, IsTrue};
ghost use Rattle.std.specs.Prelude.{vec_len, OnOk, Ok, Err, ◌⊎◌, ◌≢◌, false};
ghost use Rattle.std.specs.Io.KnownBytes.{Keeps, Consumes, IsAtEnd, prepend_known};
ghost use Rattle.relay_script.specs.Lines.{HasNoBreak, TakesPart, TakesLine, BeginsTooLong};
ghost use Rattle.relay_script.specs.declared.input.TheConstants.{MAX_LINE, MAX_READ};

use crate::fault::ScriptFault;
use std::io::{ErrorKind, Read};
use std::marker::Model;

/// The maximum length of a line in bytes, without its line feed.
pub const MAX_LINE: usize = 1_056_768;

/// The size of one read, in bytes.
const MAX_READ: usize = 4_096;

/// The maximum number of attempts at a read or a write that is interrupted.
pub const MAX_INTERRUPTIONS: u32 = 1_000;

const LINE_END: u8 = b'\n';

/// Reads once. An interrupted read is retried, with at most 1,000 attempts in all.
pub fn read_some<R: Read>(reader: &mut R, buf: &mut [u8]) -> Result<usize, ScriptFault>
    ensures within { IfOk result (λ n. n ≤ length buf.new) }
    ensures ok { IfOk result (λ n.
        Consumes (R.remaining reader.old) (R.remaining reader.new) (take n buf.new)) }
    ensures end { IfOk result (λ n. n ≡ 0 → 0 < length buf.old → IsAtEnd (R.remaining reader.new)) }
    ensures err { OnErr result (Keeps (R.remaining reader.old) (R.remaining reader.new)) }
    ensures fault { IfErr result (λ fault. fault ≡ ScriptFault.Input) }
{
    for _ in 0..MAX_INTERRUPTIONS {
        match reader.read(buf) {
            Ok(n) => return Ok(n),
            Err(error) => {
                if error.kind() != ErrorKind::Interrupted {
                    return Err(ScriptFault::Input);
                }
            }
        }
    }
    Err(ScriptFault::Input)
}

/// A buffer of the bytes that were read and not yet consumed. Contracts see those bytes.
#[derive(Drop)]
pub struct LineReader {
    bytes: [u8; MAX_READ],
    start: usize,
    end: usize,
}

impl Model for LineReader {
    ghost Value = { List ℕ };

    ghost view = { λ s. take (s.end - s.start) (drop s.start s.bytes) };

    ghost invariant = { λ s. (s.start ≤ s.end) × (s.end ≤ MAX_READ) };
}

impl LineReader {
    pub fn new() -> Self
        ensures { result ≡ [] }
    {
        LineReader {
            bytes: [0; MAX_READ],
            start: 0,
            end: 0,
        }
    }

    fn unread(&self) -> &[u8]
        ensures { result.now ≡ self.now }
    {
        &self.bytes[self.start..self.end]
    }

    /// Consumes the first `count` bytes.
    fn advance(&mut self, count: usize)
        requires { count ≤ length self.old }
        ensures { self.new ≡ drop count self.old }
    {
        self.start += count;
    }

    /// Returns true if another byte follows. If the buffer is empty, reads more.
    pub fn has_more<R: Read>(&mut self, reader: &mut R) -> Result<bool, ScriptFault>
        ensures same { OnOk result (Keeps (prepend_known self.old (R.remaining reader.old))
            (prepend_known self.new (R.remaining reader.new))) }
        ensures more { IfOk result (λ more. IsTrue more ↔ (0 < length self.new)) }
        ensures end { IfOk result (λ more. more ≡ false
            → (self.new ≡ []) × IsAtEnd (R.remaining reader.new)) }
        ensures fault { IfErr result (λ fault. fault ≡ ScriptFault.Input) }
    {
        if self.start == self.end {
            self.end = read_some(reader, &mut self.bytes)?;
            self.start = 0;
        }
        Ok(self.start < self.end)
    }

    /// Appends the rest of the current line, as far as it is buffered, to `line`. Returns whether
    /// the line ended.
    fn take_part(&mut self, line: &mut Vec<u8>) -> Result<bool, ScriptFault>
        requires { vec_len line.old ≤ MAX_LINE }
        ensures ok { IfOk result (λ ended. (part : List ℕ) × TakesPart self.old self.new part ended
            × (line.new.items ≡ line.old.items ++ part)) }
        ensures fits { OnOk result (vec_len line.new ≤ MAX_LINE) }
        ensures too_long { IfErr result (λ fault. fault ≡ ScriptFault.LineTooLong
            → (part : List ℕ) × (rest : List ℕ) × HasNoBreak part × (self.old ≡ part ++ rest)
            × (MAX_LINE < vec_len line.old + length part)) }
        ensures fault { IfErr result (λ fault. (fault ≡ ScriptFault.LineTooLong)
            ⊎ (fault ≡ ScriptFault.NoMemory)) }
    {
        let (count, ended) = line_part(self.unread());
        let part = &self.unread()[..count];
        if part.len() > MAX_LINE - line.len() {
            return Err(ScriptFault::LineTooLong);
        }
        if line.extend_from_slice(part).is_err() {
            return Err(ScriptFault::NoMemory);
        }
        self.advance(count + usize::from(ended));
        Ok(ended)
    }
}

/// Reads the next line into `line`, without its line feed. Returns whether there was one.
pub fn next_line<R: Read>(
    reader: &mut R,
    lines: &mut LineReader,
    line: &mut Vec<u8>,
) -> Result<bool, ScriptFault>
    ensures line { IfOk result (λ found.
        TakesLine (prepend_known lines.old (R.remaining reader.old))
        (prepend_known lines.new (R.remaining reader.new)) found line.new.items) }
    ensures end { OnOk result (result ≡ Ok false
        → (lines.new ≡ []) × IsAtEnd (R.remaining reader.new)) }
    ensures fits { OnOk result (vec_len line.new ≤ MAX_LINE) }
    ensures too_long { IfErr result (λ fault. fault ≡ ScriptFault.LineTooLong
        → BeginsTooLong MAX_LINE (prepend_known lines.old (R.remaining reader.old))) }
    ensures fault { IfErr result (λ fault. (fault ≡ ScriptFault.Input)
        ⊎ (fault ≡ ScriptFault.LineTooLong) ⊎ (fault ≡ ScriptFault.NoMemory)) }
{
    line.clear();
    'parts: loop {
        if !lines.has_more(reader)? {
            return Ok(!line.is_empty());
        }
        if lines.take_part(line)? {
            return Ok(true);
        }
    }
}

/// The number of bytes before the first line feed, or of all bytes if there is none, and whether
/// there is one.
fn line_part(bytes: &[u8]) -> (usize, bool)
    ensures within { result.0 + (if result.1 then 1 else 0) ≤ length bytes.now }
    ensures part { TakesPart bytes.now (drop (result.0 + (if result.1 then 1 else 0)) bytes.now)
        (take result.0 bytes.now) result.1 }
{
    match bytes.iter().position(|b| *b == LINE_END) {
        Some(at) => (at, true),
        None => (bytes.len(), false),
    }
}
