//! Causes for which a link leaves a stage.
use tungstenite::Error;
use websocket::error::ProtocolError;

/// The cause for which a link failed to open, is no longer open, or is gone.
///
/// ```
/// let wire = Wire::new(alloc);
/// let mut hub = Hub::new(alloc, 1, 1, 64, 32).ok()?;
/// let mut link = Link::new(alloc, End { wire: &wire }).ok()?;
/// wire.try_borrow_mut().ok()?.perform(alloc, "asks 13 /rooms/a").ok()?;
/// link.turn(alloc, &mut hub, MAX_DRAWS).ok()?;
/// // A binary message, masked and empty.
/// wire.try_borrow_mut().ok()?.perform(alloc, "hex 82 80 00 00 00 00").ok()?;
/// assert!(rt; link.turn(alloc, &mut hub, MAX_DRAWS).ok()?.cause == Some(EndCause::Binary));
/// ```
#[derive(Clone, Copy, Debug, PartialEq, Eq)]
pub enum EndCause {
    /// The other side closed the connection, or its bytes ended.
    Peer,
    /// A binary message was received; the relay accepts only texts.
    Binary,
    /// Frames violate RFC 6455, a text is not UTF-8, or a message is too large.
    Broken,
    /// A call on the stream failed, or a write to it accepted no byte.
    Stream,
    /// Out of memory in the link or its socket, or for an incoming text.
    Memory,
    /// The server's links held too much output, and this one was ended to free some. (A full output
    /// buffer of the socket has this cause too; that does not occur.)
    Full,
    /// The other side took its output too slowly. (A server's rounds end such links.)
    Slow,
    /// The other side did not answer a close frame.
    Silent,
    /// The link was ended from this side.
    Ended,
    /// The handshake was refused with this status.
    Refused(u16),
}

impl EndCause {
    ghost use Rattle.std.specs.Prelude.{◌≡◌};
    ghost use Rattle.relay_link.specs.SocketError.{IsOfSocket};
    ghost use Rattle.relay_link.specs.Ends.{socket_cause, IsNotSilent};

    /// The cause for an error of a socket whose handshake is done.
    pub(crate) fn of(error: &Error) -> EndCause
        requires { IsOfSocket error.now }
        ensures cause { result ≡ socket_cause error.now }
        ensures not_silent { IsNotSilent result }
    {
        match error {
            Error::ConnectionClosed
            | Error::AlreadyClosed
            | Error::Protocol(ProtocolError::ResetWithoutClosingHandshake) => EndCause::Peer,
            Error::Protocol(_) | Error::Capacity(_) | Error::Utf8 => EndCause::Broken,
            Error::Io(_) => EndCause::Stream,
            Error::OutOfMemory => EndCause::Memory,
            Error::WriteBufferFull => EndCause::Full,
            Error::AttackAttempt
            | Error::Handshake(_)
            | Error::HandshakeIncomplete
            | Error::JunkAfterRequest
            | Error::CustomResponseSuccessful
            | Error::Url
            | Error::Http(_)
            | Error::Refused(_) => unreachable!(),
        }
    }
}
