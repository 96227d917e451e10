//! The checks of a head, in their order.
ghost use Rattle.relay_admin.specs.Judged.{Judges, place_of};
ghost use Rattle.relay_admin.specs.Verdict.{placed};
ghost use Rattle.relay_http_head.specs.Parsing.{parts};

use crate::admin_fault::AdminFault;
use crate::host::is_loopback;
use crate::target::{Target, target_at};
use relay_http_head::{Fault, Head, demand, has_field, only_value};
use std::alloc::Global;

/// The most header fields of a head.
pub(crate) const MAX_FIELDS: usize = 32;

/// Returns where a head asks that passes all checks, or the first reason to refuse it.
pub(crate) fn judge<'b>(alloc: Global, head: &Head<'_, 'b>) -> Result<Target<'b>, Fault<AdminFault>>
    ensures { Judges place_of result (placed (parts head.now)) }
{
    demand(head.fields.len() <= MAX_FIELDS, AdminFault::TooLong)?;
    let host = only_value(head.fields, "Host").ok_or(Fault::Refused(AdminFault::NoHost))?;
    demand(is_loopback(host), AdminFault::OtherHost)?;
    demand(!has_field(head.fields, "Origin"), AdminFault::Origin)?;
    let target = target_at(alloc, head.target)?.ok_or(Fault::Refused(AdminFault::NoPath))?;
    demand(target.takes(head.method), target.wrong_method())?;
    Ok(target)
}
