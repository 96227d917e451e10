//! The requests that an operator may make.
ghost use Rattle.std.specs.Prelude.{◌≡◌};
ghost use Rattle.relay_admin.specs.Route.{method_of};

/// A request of an operator.
///
/// ```
/// let head = "GET /health HTTP/1.1\r\nHost: 127.0.0.1:9000\r\n\r\n";
/// assert!(rt; matches!(ask(alloc, head.as_bytes()), Ok(Ask::Request(AdminRequest::Health))));
/// ```
#[derive(Clone, Copy, Debug, PartialEq, Eq)]
pub enum AdminRequest {
    /// `GET /health`: whether the relay serves its clients.
    Health,
    /// `GET /metrics`: its numbers, for Prometheus.
    Metrics,
    /// `GET /rooms`: its rooms, as JSON.
    Rooms,
    /// `GET /wanted`: the rooms that clients were refused at since they are not open, as JSON.
    Wanted,
    /// `POST /open`: that a relay which was started closed lets clients into every room.
    Open,
    /// `POST /stop`: that it ends.
    Stop,
}

impl AdminRequest {
    /// The one method of the request's path.
    pub(crate) fn method(self) -> &'static str
        ensures { result.now ≡ method_of self }
    {
        match self {
            AdminRequest::Open | AdminRequest::Stop => "POST",
            AdminRequest::Health
            | AdminRequest::Metrics
            | AdminRequest::Rooms
            | AdminRequest::Wanted => "GET",
        }
    }
}
