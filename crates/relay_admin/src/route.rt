//! The paths of the requests.
ghost use Rattle.std.specs.Prelude.{◌≡◌, ℕ, List, IfOk, option_map};
ghost use Rattle.matchit.specs.Seek.{first};
ghost use Rattle.relay_admin.specs.Route.{request_at};

use crate::request::AdminRequest;
use matchit::{InsertError, Router};
use std::alloc::{AllocError, Global};

/// Returns the request whose path is the whole target, so that a query makes it another one.
pub(crate) fn request_at(alloc: Global, target: &str) -> Result<Option<AdminRequest>, AllocError>
    ensures { IfOk result (λ request. request ≡ request_at target.now) }
{
    // The routes are well-formed and differ, so only a lack of memory can refuse one.
    let Ok(router) = routes(alloc) else {
        return Err(AllocError);
    };
    match router.at(target) {
        Ok(found) => Ok(Some(*found.value)),
        Err(_) => Ok(None),
    }
}

fn routes(alloc: Global) -> Result<Router<AdminRequest>, InsertError>
    ensures { IfOk result (λ router. (path : List ℕ)
        → option_map (λ route. route.value) (first router path) ≡ request_at path) }
{
    let mut router = Router::new(alloc);
    router.insert("/health", AdminRequest::Health)?;
    router.insert("/metrics", AdminRequest::Metrics)?;
    router.insert("/open", AdminRequest::Open)?;
    router.insert("/rooms", AdminRequest::Rooms)?;
    router.insert("/stop", AdminRequest::Stop)?;
    router.insert("/wanted", AdminRequest::Wanted)?;
    Ok(router)
}
