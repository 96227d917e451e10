//! The state of a link, by stage.
ghost use Rattle.std.specs.Prelude.{◌≡◌};
ghost use Rattle.relay_link.specs.Stage.{stage_of, session_of, has_corked_output, is_idle};

use crate::corked_writer::CorkedWriter;
use crate::handshake_reply::{HandshakeReply, Verdict};
use crate::socket::Socket;
use crate::stage::Stage;
use std::io::Write;

#[derive(Drop)]
pub(crate) enum State<S: Write + Drop> {
    /// The bytes received so far are an incomplete head.
    Head {
        stream: CorkedWriter<S>,
        bytes: Vec<u8>,
    },
    /// The reply to the head is being written.
    Replying {
        stream: CorkedWriter<S>,
        reply: HandshakeReply,
    },
    Open {
        socket: Socket<S>,
        session: u64,
    },
    /// The other side may answer in the next `turns` turns.
    Closing {
        socket: Socket<S>,
        turns: u64,
    },
    Gone,
}

impl<S: Write + Drop> State<S> {
    pub(crate) fn stage(&self) -> Stage
        ensures { result ≡ stage_of self.now }
    {
        match self {
            State::Head { .. } | State::Replying { .. } => Stage::Head,
            State::Open { .. } => Stage::Open,
            State::Closing { .. } => Stage::Closing,
            State::Gone => Stage::Gone,
        }
    }

    pub(crate) fn session(&self) -> Option<u64>
        ensures { result ≡ session_of self.now }
    {
        match self {
            State::Open { session, .. } => Some(*session),
            State::Replying { reply, .. } => match reply.verdict {
                Verdict::Entered(session) => Some(session),
                Verdict::Refused(_) => None,
            },
            State::Head { .. } | State::Closing { .. } | State::Gone => None,
        }
    }

    /// True if an open link has corked output.
    pub(crate) fn has_corked_output(&self) -> bool
        ensures { result ≡ has_corked_output self.now }
    {
        match self {
            State::Open { socket, .. } => socket.get_ref().has_corked_output(),
            _ => false,
        }
    }

    pub(crate) fn is_idle(&self) -> bool
        ensures { result ≡ is_idle self.now }
    {
        match self {
            State::Head { stream, .. } => stream.is_idle(),
            State::Replying { stream, .. } => stream.is_idle(),
            State::Open { socket, .. } => socket.get_ref().is_idle(),
            State::Closing { socket, .. } => socket.get_ref().is_idle(),
            State::Gone => true,
        }
    }
}
