//! The checks of a head, in their order (RFC 6455, section 4.2.1).
ghost use Rattle.std.specs.Prelude.{IfErr};
ghost use Rattle.relay_http_head.specs.Parsing.{parts};
ghost use Rattle.relay_shake.specs.Judged.{Judges, HasReply};
ghost use Rattle.relay_shake.specs.Handshake.{verdict_on};

use crate::key::key_of;
use crate::origin::{has_at_most_one_origin, origin_of};
use crate::route::asked_of;
use relay_access::Access;
use relay_http_head::{Fault, Head, demand, has_element, only_value};
use std::alloc::Global;

/// The most header fields of a head.
pub(crate) const MAX_FIELDS: usize = 32;

/// The request of an accepted head, its origin, if it names one, and its key.
#[derive(Drop)]
pub(crate) struct Accepted<'b> {
    pub room: &'b str,
    pub access: Access,
    pub origin: Option<&'b str>,
    pub key: &'b [u8],
}

/// Returns what a head that passes all checks asks for, or the status of the first that fails.
pub(crate) fn judge<'b>(alloc: Global, head: &Head<'_, 'b>) -> Result<Accepted<'b>, Fault<u16>>
    ensures verdict { Judges result (verdict_on (parts head.now)) }
    ensures status { IfErr result HasReply }
{
    demand(head.fields.len() <= MAX_FIELDS, 431)?;
    demand(head.method == "GET", 405)?;
    let asked = asked_of(alloc, head.target)?.ok_or(Fault::Refused(404))?;
    demand(head.minor == 1, 400)?;
    demand(only_value(head.fields, "Host").is_some(), 400)?;
    demand(has_at_most_one_origin(head.fields), 400)?;
    demand(has_element(head.fields, "Upgrade", "websocket"), 400)?;
    demand(has_element(head.fields, "Connection", "Upgrade"), 400)?;
    let version = only_value(head.fields, "Sec-WebSocket-Version").ok_or(Fault::Refused(400))?;
    demand(version == "13".as_bytes(), 426)?;
    let key = key_of(head.fields).ok_or(Fault::Refused(400))?;
    // A client must wait for the reply before it sends anything else.
    demand(!head.has_surplus, 400)?;
    Ok(Accepted {
        room: asked.room,
        access: asked.access,
        origin: origin_of(head.fields),
        key,
    })
}
