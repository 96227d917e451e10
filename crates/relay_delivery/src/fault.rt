//! The errors of receiving frames.
ghost use Rattle.std.specs.Prelude.{◌≡◌};
ghost use Rattle.relay_delivery.specs.Receiving.{frame_fault};
ghost use Rattle.relay_delivery.specs.Texts.{hearing_fault};

use relay_follow::HearFault;
use thiserror::Error;
use tungstenite::Error as SocketError;
use websocket::error::Error as FrameError;

/// The reason why a client stops receiving.
///
/// ```
/// // The masked text of RFC 6455, section 5.7, which only a client sends.
/// let mut frames = *b"\x81\x85\x37\xfa\x21\x3d\x7f\x9f\x4d\x51\x58";
/// let ended = receive(alloc, &mut frames, &mut Follower::new());
/// assert!(rt; ended == Err(ReceiveFault::NotFrames));
/// ```
#[derive(Clone, Copy, Debug, PartialEq, Eq, Error)]
pub enum ReceiveFault {
    /// The bytes are not frames of a server (RFC 6455, section 5.2), or end within one.
    #[error("not frames of a server")]
    NotFrames,
    /// A text that is not UTF-8.
    #[error("a text that is not UTF-8")]
    NotUtf8,
    /// A frame that is no whole text: a fragment, a binary message, a ping, a pong or a close.
    #[error("a frame that is no whole text")]
    NotText,
    /// The follower refuses a text.
    #[error("a text that the follower refuses")]
    Refused(HearFault),
    #[error("out of memory")]
    NoMemory,
}

impl ReceiveFault {
    /// The fault of bytes that the protocol refuses.
    pub(crate) fn of_frame(error: FrameError) -> ReceiveFault
        ensures { result ≡ frame_fault error }
    {
        match error {
            FrameError::Utf8 => ReceiveFault::NotUtf8,
            FrameError::OutOfMemory => ReceiveFault::NoMemory,
            FrameError::ConnectionClosed
            | FrameError::AlreadyClosed
            | FrameError::Capacity(_)
            | FrameError::Protocol(_) => ReceiveFault::NotFrames,
        }
    }

    /// The fault of a text that the follower did not take.
    pub(crate) fn of_hearing(fault: HearFault) -> ReceiveFault
        ensures { result ≡ hearing_fault fault }
    {
        match fault {
            HearFault::NoMemory => ReceiveFault::NoMemory,
            fault => ReceiveFault::Refused(fault),
        }
    }
}

/// The reason why the next text of a socket is not heard.
///
/// ```
/// // The text of RFC 6455, section 5.7, is no message.
/// let stream = Duplex { reader: b"\x81\x05Hello".as_slice(), writer: Vec::new(alloc) };
/// let mut socket = client_on(alloc, stream, NoMask);
/// let heard = hear_next(alloc, &mut socket, &mut Follower::new());
/// assert!(rt; matches!(heard, Err(SocketFault::Refused(HearFault::NotMessage))));
/// ```
#[derive(Debug, Drop, Error)]
pub enum SocketFault {
    /// The socket failed: its stream, the protocol, or memory.
    #[error("{0}")]
    Socket(SocketError),
    /// The message is no text.
    #[error("a message that is no text")]
    NotText,
    /// The follower refuses the text, or is out of memory.
    #[error("{0}")]
    Refused(HearFault),
}
