//! The request of a session's text: read and admitted, before anything is done.
ghost use Rattle.std.specs.Prelude.{◌≡◌, Ok, None, IfOk, IfSome, OnErr, IsSome};
ghost use Rattle.std.specs.Bool.{MatchBool};
ghost use Rattle.relay_hub.specs.Asked.{IsAskedBy};
ghost use Rattle.relay_hub.specs.Call.{HasSpace, IsFull};
ghost use Rattle.relay_hub.specs.Caller.{IsCaller};
ghost use Rattle.relay_hub.specs.State.{IsRising, session_in};

use crate::admission::read_admitted;
use crate::boxed_reply::ReservedReply;
use crate::caller::{Caller, session_at};
use crate::cost;
use crate::cost_meter::CostMeter;
use crate::session::Session;
use crate::text_size::TextSize;
use relay_proto::{Refusal, Request, RequestFault};
use relay_tree::{Budget, Scratch};
use std::alloc::{AllocError, Global};

/// The request of a session, and the memory for the reply.
#[derive(Drop)]
pub struct Asked {
    pub caller: Caller,
    pub reserved: ReservedReply,
    /// The size of the text.
    pub size: TextSize,
    /// The request, or why it is refused.
    pub request: Result<Request, Refusal>,
}

/// Reads a text of a session that is there, whose view may weigh so much, and adds the cost.
/// `None` if 32 replies wait for it already.
pub fn ask(
    alloc: Global,
    sessions: &[Session],
    number: u64,
    text: &str,
    scratch: &mut Scratch,
    budget: Budget,
    meter: &mut CostMeter,
) -> Result<Option<Asked>, AllocError>
    requires there { IsSome (session_in sessions.now number) }
    requires rising { IsRising sessions.now }
    ensures asked { IfOk result (λ asked. IfSome asked
        (IsAskedBy budget sessions.now number text.now)) }
    ensures busy { result ≡ Ok None → IsFull sessions.now number }
    ensures no_memory { OnErr result (HasSpace sessions.now number) }
{
    let caller = Caller::find(sessions, number);
    if is_full(sessions, caller) {
        return Ok(None);
    }
    let reserved = ReservedReply::new(alloc)?;
    let size = TextSize::of(text);
    meter.add(cost::reading(size));
    let access = session_at(sessions, caller).access();
    let request = match read_admitted(alloc, text, scratch, access, budget) {
        Ok(request) => Ok(request),
        Err(RequestFault::Refused(refusal)) => Err(refusal),
        Err(RequestFault::NoMemory) => return Err(AllocError),
    };
    Ok(Some(Asked {
        caller,
        reserved,
        size,
        request,
    }))
}

/// Returns true if 32 replies wait for the caller.
fn is_full(sessions: &[Session], caller: Caller) -> bool
    requires { IsCaller sessions.now caller }
    ensures { MatchBool result (IsFull sessions.now caller.number)
        (HasSpace sessions.now caller.number) }
{
    session_at(sessions, caller).is_full()
}
