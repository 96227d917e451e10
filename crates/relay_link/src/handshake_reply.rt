//! The reply to a handshake, while it is being written.
use std::io::{Error, ErrorKind, Result, Write};

/// The outcome that the reply reports.
#[derive(Clone, Copy, Debug, PartialEq, Eq)]
pub(crate) enum Verdict {
    /// The handshake opened this session.
    Entered(u64),
    /// The handshake was refused with this status.
    Refused(u16),
}

/// A reply, with its bytes that are still to be written.
#[derive(Drop)]
pub(crate) struct HandshakeReply {
    pub rest: Vec<u8>,
    pub verdict: Verdict,
}

impl HandshakeReply {
    ghost use Rattle.std.specs.Prelude.{◌≡◌, ◌++◌, ℕ, List, [], OnOk};
    ghost use Rattle.std.specs.Io.KnownBytes.{Appends};

    /// Writes the rest of the reply, and flushes. After an error `rest` is what was not written
    /// yet.
    pub(crate) fn send<W: Write>(&mut self, stream: &mut W) -> Result<()>
        ensures verdict { self.new.verdict ≡ self.old.verdict }
        ensures sent { (sent : List ℕ) × (self.old.rest.items ≡ sent ++ self.new.rest.items)
            × Appends (W.contents stream.old) (W.contents stream.new) sent }
        ensures all { OnOk result (self.new.rest.items ≡ []) }
    {
        while !self.rest.is_empty() {
            let len = stream.write(self.rest.as_slice())?;
            if len == 0 {
                return Err(Error::from(ErrorKind::WriteZero));
            }
            self.rest.drain(..len);
        }
        stream.flush()
    }
}
