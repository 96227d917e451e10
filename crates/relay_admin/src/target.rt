//! The place to which a target leads, and the methods that are taken there.
ghost use Rattle.std.specs.Prelude.{◌≡◌, IfOk, Some, codes, option_copied, option_map};
ghost use Rattle.relay_admin.specs.Judged.{place_of};
ghost use Rattle.relay_admin.specs.Route.{named_at, place_at, takes};
ghost use Rattle.relay_admin.specs.Verdict.{wrong_method};

use crate::admin_fault::AdminFault;
use crate::cut::behind;
use crate::request::AdminRequest;
use crate::route::request_at;
use std::alloc::{AllocError, Global};

/// The prefix of the targets of rooms.
const ROOMS: &str = "/rooms/";

/// The prefix of the targets of doors.
const DOORS: &str = "/open/";

/// The place to which a target leads.
#[derive(Clone, Copy)]
pub(crate) enum Target<'b> {
    /// A request with a path of its own.
    Request(AdminRequest),
    /// `/rooms/NAME`: to a room, by what stands behind `/rooms/`, which may be anything.
    Room(&'b str),
    /// `/open/NAME`: to the door of a room, by what stands behind `/open/`, which may be anything.
    Door(&'b str),
}

impl Target<'_> {
    /// True if a method is taken there.
    pub(crate) fn takes(self, method: &str) -> bool
        ensures { result ≡ takes method.now (place_of self.entry) }
    {
        match self {
            Target::Request(request) => method == request.method(),
            Target::Room(_) => matches!(method, "GET" | "PATCH" | "DELETE"),
            Target::Door(_) => matches!(method, "PUT" | "DELETE"),
        }
    }

    /// The refusal of another method.
    pub(crate) fn wrong_method(self) -> AdminFault
        ensures { result ≡ wrong_method (Some (place_of self.entry)) }
    {
        match self {
            Target::Room(_) => AdminFault::OnlyRoomMethods,
            Target::Door(_) => AdminFault::OnlyDoorMethods,
            Target::Request(AdminRequest::Open | AdminRequest::Stop) => AdminFault::OnlyPost,
            Target::Request(
                AdminRequest::Health
                | AdminRequest::Metrics
                | AdminRequest::Rooms
                | AdminRequest::Wanted,
            ) => AdminFault::OnlyGet,
        }
    }
}

/// Returns where a target leads, if it is one of the paths.
pub(crate) fn target_at<'b>(
    alloc: Global,
    target: &'b str,
) -> Result<Option<Target<'b>>, AllocError>
    ensures { IfOk result (λ found. option_map place_of found ≡ place_at target.now) }
{
    match request_at(alloc, target)? {
        Some(request) => Ok(Some(Target::Request(request))),
        None => Ok(named_at(target)),
    }
}

/// The room or the door that a target names, if it begins as one of theirs.
fn named_at(target: &str) -> Option<Target<'_>>
    ensures { option_map place_of result ≡ named_at target.now }
{
    match behind(target, ROOMS) {
        Some(name) => Some(Target::Room(name)),
        None => behind(target, DOORS).map(|name| Target::Door(name)),
    }
}
