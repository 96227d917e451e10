//! The conditions of a request on the entity tag of a room.
ghost use Rattle.std.specs.Prelude.{◌≡◌, ◌++◌, ◌∷◌, IfOk, OnOk, [], map};
ghost use Rattle.std.specs.Str.{str_eq_ignore_ascii_case};
ghost use Rattle.httparse.specs.Borrowed.{header_parts};
ghost use Rattle.relay_http_head.specs.Head.{lists};
ghost use Rattle.relay_admin.specs.Conditions.{listed, is_any, is_star, matches, is_named};

use crate::room::revision_tag::RevisionTag;
use httparse::Header;
use relay_http_head::has_element;
use std::alloc::{AllocError, Global};
use std::marker::Model;

/// The list in the fields `If-Match` or `If-None-Match` of a request. Contracts see the values,
/// each with a comma behind it, since several fields are one list (RFC 9110, section 5.3).
///
/// ```
/// let head = "GET /rooms/board HTTP/1.1\r\nHost: localhost\r\nIf-None-Match: W/\"5-7\"\r\n\r\n";
/// let Ask::Read(part) = ask(alloc, head.as_bytes()).ok()? else {
///     return None;
/// };
/// let tags = &part.if_none_match;
/// assert!(rt; tags.names(alloc, RevisionTag { epoch: 5, rev: 7 }) == Ok(true));
/// assert!(rt; tags.names(alloc, RevisionTag { epoch: 5, rev: 8 }) == Ok(false));
/// ```
#[derive(Debug, Drop)]
pub struct EntityTags {
    list: Vec<u8>,
}

impl Model for EntityTags {
    ghost use Rattle.std.specs.Prelude.{ℕ, List};

    ghost Value = { List ℕ };

    ghost view = { λ t. t.list.items };
}

impl EntityTags {
    /// Returns what the fields with a name list.
    #[tactic(auto, using(crate::proofs::Lists::listed_first))]
    pub(crate) fn of(
        alloc: Global,
        fields: &[Header<'_>],
        name: &str,
    ) -> Result<EntityTags, AllocError>
        ensures { IfOk result (λ tags. tags ≡ listed name.now (map header_parts fields.now)) }
    {
        let mut list = Vec::new(alloc);
        for field in fields {
            add(&mut list, field, name)?;
        }
        Ok(EntityTags { list })
    }

    /// True if `If-Match` asks for no revision: there is no such field, or it is `*`.
    ///
    /// ```
    /// let head = "GET /rooms/board HTTP/1.1\r\nHost: localhost\r\n\r\n";
    /// let Ask::Read(part) = ask(alloc, head.as_bytes()).ok()? else {
    ///     return None;
    /// };
    /// assert!(rt; part.if_none_match.is_any());
    /// ```
    pub fn is_any(&self) -> bool
        ensures { result ≡ is_any self.now }
    {
        matches!(self.list.as_slice(), [] | [b'*', b','])
    }

    /// True if `If-Match` is `*`: it holds only of a room that is there, at whatever revision (RFC
    /// 9110, section 13.1.1).
    ///
    /// ```
    /// let head = "PATCH /rooms/board HTTP/1.1\r\nHost: localhost\r\nIf-Match: *\r\n";
    /// let fields = "Content-Type: application/json-patch+json\r\nContent-Length: 2\r\n";
    /// let asked = format!(in alloc; "{head}{fields}\r\n[]").ok()?;
    /// let Ask::Edit(edit) = ask(alloc, asked.as_bytes()).ok()? else {
    ///     return None;
    /// };
    /// assert!(rt; edit.if_match.is_star() && edit.if_match.is_any());
    /// ```
    pub fn is_star(&self) -> bool
        ensures { result ≡ is_star self.now }
    {
        matches!(self.list.as_slice(), [b'*', b','])
    }

    /// Returns true if `If-Match` holds at the revision with this tag, of a room that is there: it
    /// asks for none, or lists this tag alone (RFC 9110, section 13.1.1). A weak tag never holds,
    /// nor does a list of several. If memory runs out, it returns `AllocError`.
    ///
    /// ```
    /// let head = "PATCH /rooms/board HTTP/1.1\r\nHost: localhost\r\nIf-Match: \"5-7\"\r\n";
    /// let fields = "Content-Type: application/json-patch+json\r\nContent-Length: 2\r\n";
    /// let asked = format!(in alloc; "{head}{fields}\r\n[]").ok()?;
    /// let Ask::Edit(edit) = ask(alloc, asked.as_bytes()).ok()? else {
    ///     return None;
    /// };
    /// assert!(rt; edit.if_match.matches(alloc, RevisionTag { epoch: 5, rev: 7 }) == Ok(true));
    /// ```
    pub fn matches(&self, alloc: Global, tag: RevisionTag) -> Result<bool, AllocError>
        ensures { IfOk result (λ holds. holds ≡ matches tag self.now) }
    {
        let mut wanted = tag.text(alloc)?;
        wanted.push_str(",")?;
        Ok(self.is_any() || self.list.as_slice() == wanted.as_bytes())
    }

    /// Returns true if `If-None-Match` names the revision with this tag: it lists `*`, or the tag,
    /// strong or weak (RFC 9110, section 13.1.2), in which `w/` counts as `W/`. If memory runs out,
    /// it returns `AllocError`.
    ///
    /// ```
    /// let head = "GET /rooms/board HTTP/1.1\r\nHost: localhost\r\nIf-None-Match: *\r\n\r\n";
    /// let Ask::Read(part) = ask(alloc, head.as_bytes()).ok()? else {
    ///     return None;
    /// };
    /// assert!(rt; part.if_none_match.names(alloc, RevisionTag { epoch: 5, rev: 7 }) == Ok(true));
    /// ```
    pub fn names(&self, alloc: Global, tag: RevisionTag) -> Result<bool, AllocError>
        ensures { IfOk result (λ named. named ≡ is_named tag self.now) }
    {
        let strong = tag.text(alloc)?;
        let mut weak = String::from_str(alloc, "W/")?;
        weak.push_str(strong.as_str())?;
        Ok(self.lists("*") || self.lists(strong.as_str()) || self.lists(weak.as_str()))
    }

    fn lists(&self, element: &str) -> bool
        ensures { result ≡ lists element.now self.now }
    {
        let field = Header {
            name: "",
            value: self.list.as_slice(),
        };
        has_element(&[field], "", element)
    }
}

/// Adds the value of a field to a list, with a comma behind it, if the field has the name.
fn add(list: &mut Vec<u8>, field: &Header<'_>, name: &str) -> Result<(), AllocError>
    ensures { OnOk result (list.new.items
        ≡ list.old.items ++ listed name.now (header_parts field.now ∷ [])) }
{
    if is_named(field, name) {
        list.extend_from_slice(field.value)?;
        list.push(b',')?;
    }
    Ok(())
}

fn is_named(field: &Header<'_>, name: &str) -> bool
    ensures { result ≡ str_eq_ignore_ascii_case field.now.name.now name.now }
{
    field.name.eq_ignore_ascii_case(name)
}
