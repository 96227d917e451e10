//! The requests that are served, by the rights of the session and the bound on a view's weight.
ghost use Rattle.std.specs.Prelude.{◌≡◌, Ok, IfOk, IfErr};
ghost use Rattle.relay_proto.specs.Request.{request_of_text, IsRefusedAs};
ghost use Rattle.relay_proto.specs.declared.refusal.RequestFault.TheVariants.{Refused};
ghost use Rattle.relay_hub.specs.Admitted.{admitted, affordable, permitted, unpaid_slot};
ghost use Rattle.relay_hub.specs.Refusal.{refusal};

use relay_access::Access;
use relay_proto::{Refusal, Request, RequestFault, Word};
use relay_tree::{Budget, Scratch};
use relay_view::View;
use std::alloc::Global;

/// Reads a request of a session with this access, whose view may weigh so much.
pub fn read_admitted(
    alloc: Global,
    text: &str,
    scratch: &mut Scratch,
    access: Access,
    budget: Budget,
) -> Result<Request, RequestFault>
    ensures ok { IfOk result (λ request.
        admitted budget access (request_of_text text.now) ≡ Ok request) }
    ensures refused { IfErr result (λ fault.
        IsRefusedAs fault (admitted budget access (request_of_text text.now))) }
{
    let request = Request::read_with(alloc, text, scratch)?;
    afford(permit(request, access)?, budget)
}

/// An edit or a will of a session that only watches is refused.
fn permit(request: Request, access: Access) -> Result<Request, RequestFault>
    ensures ok { IfOk result (λ allowed. permitted access (Ok request) ≡ Ok allowed) }
    ensures refused { IfErr result (λ fault. IsRefusedAs fault (permitted access (Ok request))) }
{
    match (access, request) {
        (Access::ReadOnly, Request::Edit { id, .. } | Request::Will { id, .. }) => {
            Err(refusal(Word::ReadOnly, id, None))
        }
        (_, request) => Ok(request),
    }
}

/// A view that the budget does not pay for is refused, at the first slot for which nothing is left.
fn afford(request: Request, budget: Budget) -> Result<Request, RequestFault>
    ensures ok { IfOk result (λ allowed. affordable budget (Ok request) ≡ Ok allowed) }
    ensures refused { IfErr result (λ fault. IsRefusedAs fault (affordable budget (Ok request))) }
{
    let unpaid = match &request {
        Request::Watch { id, view } | Request::Resume { id, view, .. } => {
            unpaid_slot(view, budget).map(|at| (*id, at))
        }
        Request::Edit { .. } | Request::Will { .. } | Request::Unwatch { .. } => None,
    };
    match unpaid {
        Some((id, at)) => Err(refusal(Word::TooHeavy, id, Some(at))),
        None => Ok(request),
    }
}

/// The first slot for whose pointer nothing is left of the budget.
fn unpaid_slot(view: &View, budget: Budget) -> Option<u64>
    ensures { result ≡ unpaid_slot 0 budget view.now }
{
    let mut left = budget;
    for at in 0..view.len() {
        let Some(pointer) = view.pointer(at) else {
            unreachable!()
        };
        match pointer.pay(left) {
            Some(rest) => left = rest,
            None => return Some(at),
        }
    }
    None
}

fn refusal(fault: Word, id: u64, at: Option<u64>) -> RequestFault
    ensures { result ≡ Refused (refusal id fault at) }
{
    RequestFault::Refused(Refusal {
        fault,
        id: Some(id),
        at,
    })
}
