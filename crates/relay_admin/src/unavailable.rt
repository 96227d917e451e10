//! Causes for which a room cannot be entered, or opened by name, now.
ghost use Rattle.std.specs.Prelude.{◌≡◌};
ghost use Rattle.relay_admin.specs.AdminFaults.{unavailable_why};

/// The cause for which a room cannot be entered, or opened by name, now. Nothing was changed.
///
/// ```
/// let text = response_text(alloc, &Response::Unavailable(Unavailable::Rooms)).ok()?;
/// assert!(rt; text.as_str().starts_with("HTTP/1.1 503 Service Unavailable\r\n"));
/// ```
#[derive(Clone, Copy, Debug, PartialEq, Eq)]
pub enum Unavailable {
    /// There are as many rooms as there may be, and none can be replaced now; or so many are open
    /// by name.
    Rooms,
    /// As many sessions are open as may be.
    Sessions,
    /// Memory was refused.
    Memory,
}

impl Unavailable {
    /// The body of the response.
    pub(crate) fn why(self) -> &'static str
        ensures { result.now ≡ unavailable_why self }
    {
        match self {
            Unavailable::Rooms => "all rooms are taken\n",
            Unavailable::Sessions => "all sessions are taken\n",
            Unavailable::Memory => "memory was refused\n",
        }
    }
}
