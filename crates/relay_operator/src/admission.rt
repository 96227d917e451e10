//! Requests for the way into a room, and the response by what came of it.
ghost use Rattle.std.specs.Prelude.{◌≡◌};
ghost use Rattle.relay_operator.specs.Admission.{admission_response};

use relay_admin::{Response, Unavailable};
use relay_link::EntranceFault;

/// The request of an operator for a room, by its name.
#[derive(Clone, Copy, Debug, PartialEq, Eq)]
pub enum Admission<'a> {
    /// `PUT`: that clients may enter it.
    Open(&'a str),
    /// `DELETE`: that no client may enter it, and that who is in it is ended.
    Close(&'a str),
}

impl Admission<'_> {
    /// The response, by what came of it.
    pub(crate) fn response(self, came: Result<(), EntranceFault>) -> Response<'static>
        ensures { result ≡ admission_response self.entry came }
    {
        match (came, self) {
            (Ok(()), Admission::Open(_)) => Response::Admitted,
            (Ok(()), Admission::Close(_)) => Response::Excluded,
            (Err(EntranceFault::AllOpen), _) => Response::Open,
            (Err(EntranceFault::Full), _) => Response::Unavailable(Unavailable::Rooms),
            (Err(EntranceFault::NoMemory), _) => Response::Unavailable(Unavailable::Memory),
        }
    }
}
