//! Complete writes to a writer of bytes.
ghost use Rattle.std.specs.Prelude.{◌≡◌, ℕ, ◌+◌, ◌-◌, ◌<◌, ◌≤◌, List, [], ◌++◌, take, drop, length};
ghost use Rattle.std.specs.Prelude.{IfOk, IfErr, OnOk, OnErr};
ghost use Rattle.std.specs.Io.KnownBytes.{Keeps, Appends};
ghost use Rattle.relay_script.specs.Lines.{AppendsPart};

use crate::fault::ScriptFault;
use crate::input::MAX_INTERRUPTIONS;
use std::io::{ErrorKind, Write};

/// Writes once, at least one byte. An interrupted write is retried, with at most 1,000 attempts in
/// all.
pub fn write_some<W: Write>(writer: &mut W, bytes: &[u8]) -> Result<usize, ScriptFault>
    ensures within { IfOk result (λ n. n ≤ length bytes.now) }
    ensures some { IfOk result (λ n. 0 < n) }
    ensures ok { IfOk result (λ n.
        Appends (W.contents writer.old) (W.contents writer.new) (take n bytes.now)) }
    ensures err { OnErr result (Keeps (W.contents writer.old) (W.contents writer.new)) }
    ensures fault { IfErr result (λ fault. fault ≡ ScriptFault.Output) }
{
    for _ in 0..MAX_INTERRUPTIONS {
        match writer.write(bytes) {
            Ok(0) => return Err(ScriptFault::Output),
            Ok(n) => return Ok(n),
            Err(error) => {
                if error.kind() != ErrorKind::Interrupted {
                    return Err(ScriptFault::Output);
                }
            }
        }
    }
    Err(ScriptFault::Output)
}

/// Writes all the bytes. After an error a prefix of them was written.
///
/// ```
/// let mut output = Vec::new(alloc);
/// write_whole(&mut output, "ann opened 1\n".as_bytes()).ok()?;
/// assert!(rt; output.as_slice() == "ann opened 1\n".as_bytes());
/// ```
pub fn write_whole<W: Write>(writer: &mut W, bytes: &[u8]) -> Result<(), ScriptFault>
    ensures ok { OnOk result (Appends (W.contents writer.old) (W.contents writer.new) bytes.now) }
    ensures err { OnErr result (AppendsPart (W.contents writer.old) (W.contents writer.new)
        bytes.now) }
    ensures fault { IfErr result (λ fault. fault ≡ ScriptFault.Output) }
{
    let mut at = 0;
    while at < bytes.len() {
        at += write_some(writer, &bytes[at..])?;
    }
    Ok(())
}
