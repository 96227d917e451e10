//! The answer to the bytes of a request.
use crate::admin_fault::AdminFault;
use crate::request::AdminRequest;
use crate::room::{EditRequest, PartRequest};

/// The answer to the bytes received so far.
///
/// ```
/// let start = "POST /stop HTTP/1.1\r\nHost: localhost\r\n";
/// assert!(rt; matches!(ask(alloc, start.as_bytes()), Ok(Ask::More)));
/// let head = "POST /stop HTTP/1.1\r\nHost: localhost\r\n\r\n";
/// assert!(rt; matches!(ask(alloc, head.as_bytes()), Ok(Ask::Request(AdminRequest::Stop))));
/// ```
#[derive(Debug, Drop)]
pub enum Ask {
    /// The head is not complete: more bytes are needed.
    More,
    /// An accepted request.
    Request(AdminRequest),
    /// An accepted `DELETE /rooms/NAME`: that the room of this name is forgotten. The name may be
    /// anything. Its response is [`crate::Response::Forgotten`] or
    /// [`crate::Response::NotForgotten`].
    Forget(String),
    /// An accepted `PUT /open/NAME`: that clients may enter the room of this name from now on. The
    /// name may be anything. Its response is [`crate::Response::Admitted`],
    /// [`crate::Response::NoRoom`] or [`crate::Response::Unavailable`].
    Admit(String),
    /// An accepted `DELETE /open/NAME`: that nobody may enter the room of this name from now on,
    /// and who is in it leaves. The name may be anything. Its response is
    /// [`crate::Response::Excluded`] or [`crate::Response::Open`].
    Exclude(String),
    /// An accepted `GET /rooms/NAME`: for a part of that room's document. What is said to a hub
    /// for it is [`crate::watch_text`].
    Read(PartRequest),
    /// An accepted `PATCH /rooms/NAME`, of which the body is still to be received. What is said to
    /// a hub for it is [`crate::edit_text`].
    Edit(EditRequest),
    /// A refused one. Its response is [`crate::Response::Refused`].
    Refused(AdminFault),
}
