//! Causes for which a room is not forgotten.
ghost use Rattle.std.specs.Prelude.{◌≡◌};
ghost use Rattle.relay_admin.specs.AdminFaults.{kept_status, kept_why};

use http::StatusCode;

/// The cause for which a room is not forgotten: it stays as it is.
///
/// ```
/// let text = response_text(alloc, &Response::NotForgotten(NotForgotten::NoRoom)).ok()?;
/// assert!(rt; text.as_str().starts_with("HTTP/1.1 404 Not Found\r\n"));
/// ```
#[derive(Clone, Copy, Debug, PartialEq, Eq)]
pub enum NotForgotten {
    /// 404: no room has this name.
    NoRoom,
    /// 409: a session is in the room.
    Occupied,
    /// 409: the room has no revision left.
    Exhausted,
    /// 503: memory was refused.
    NoMemory,
}

impl NotForgotten {
    /// The status of the response.
    pub(crate) fn status(self) -> StatusCode
        ensures { result ≡ kept_status self }
    {
        match self {
            NotForgotten::NoRoom => StatusCode::NOT_FOUND,
            NotForgotten::Occupied | NotForgotten::Exhausted => StatusCode::CONFLICT,
            NotForgotten::NoMemory => StatusCode::SERVICE_UNAVAILABLE,
        }
    }

    /// The body of the response.
    pub(crate) fn why(self) -> &'static str
        ensures { result.now ≡ kept_why self }
    {
        match self {
            NotForgotten::NoRoom => "there is no such room\n",
            NotForgotten::Occupied => "a session is in the room\n",
            NotForgotten::Exhausted => "no revision is left\n",
            NotForgotten::NoMemory => "memory was refused\n",
        }
    }
}
