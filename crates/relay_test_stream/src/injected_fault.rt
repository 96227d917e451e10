//! The faults that a test can inject into a stream.

/// The act of a stream at a call, in place of the request.
#[derive(Clone, Copy, Debug, PartialEq, Eq)]
pub enum InjectedFault {
    /// The call fails, with `ErrorKind::ConnectionReset`.
    Fail,
    /// The stream is not ready: `ErrorKind::WouldBlock`.
    Nothing,
    /// The call is interrupted: `ErrorKind::Interrupted`.
    Interrupt,
    /// The call moves one byte, if there is one.
    OneByte,
    /// A read returns no byte, as at the end; a write accepts none.
    End,
}
