//! The path and the query behind `/rooms/`, and the pointer that the query names.
ghost use Rattle.std.specs.Prelude.{◌≡◌, IfOk, option_copied, option_map, string_bytes};
ghost use Rattle.percent_encoding.specs.Percent.{percent_decode};
ghost use Rattle.relay_admin.specs.Query.{path_of, query_of, begins_hex, has_whole_escapes};
ghost use Rattle.relay_admin.specs.Query.{unescaped, only_one, pointer_in};

use crate::cut::{behind, cut};
use percent_encoding::percent_decode;
use std::alloc::{AllocError, Global};

/// Returns the path and the query of what stands behind `/rooms/`.
pub(crate) fn path_and_query(name: &str) -> (&str, Option<&str>)
    ensures path { result.0.now ≡ path_of name.now }
    ensures query { option_copied result.1 ≡ query_of name.now }
{
    cut(name, '?')
}

/// Returns the pointer that a query names, which must be exactly one `at=`: its value without the
/// percent-escapes of RFC 3986, section 2.1, in which a `+` stays a plus. Without a query it is the
/// empty pointer, which leads to the whole document.
pub(crate) fn pointer_in(alloc: Global, query: Option<&str>) -> Result<Option<String>, AllocError>
    ensures { IfOk result (λ at. option_map string_bytes at
        ≡ pointer_in (option_copied query.entry)) }
{
    let Some(query) = query else {
        return Ok(Some(String::new(alloc)));
    };
    match behind(query, "at=") {
        Some(value) => only_one(alloc, value),
        None => Ok(None),
    }
}

/// The value without its escapes, if it is the only one of its query.
fn only_one(alloc: Global, value: &str) -> Result<Option<String>, AllocError>
    ensures { IfOk result (λ plain. option_map string_bytes plain ≡ only_one value.now) }
{
    if value.as_bytes().contains(&b'&') {
        return Ok(None);
    }
    unescaped(alloc, value)
}

/// The text that is escaped, if the escapes are whole and it is UTF-8.
#[tactic(auto, using(crate::proofs::Queries::unescaped_is, crate::proofs::Queries::unescaped_none))]
fn unescaped(alloc: Global, text: &str) -> Result<Option<String>, AllocError>
    ensures { IfOk result (λ plain. option_map string_bytes plain ≡ unescaped text.now) }
{
    if !has_whole_escapes(text.as_bytes()) {
        return Ok(None);
    }
    let bytes = decoded(alloc, text)?;
    match std::str::from_utf8(bytes.as_slice()) {
        Ok(plain) => Ok(Some(String::from_str(alloc, plain)?)),
        Err(_) => Ok(None),
    }
}

fn decoded(alloc: Global, text: &str) -> Result<Vec<u8>, AllocError>
    ensures { IfOk result (λ bytes. bytes.items ≡ percent_decode text.now) }
{
    let mut bytes = Vec::new(alloc);
    percent_decode(text.as_bytes()).append_to(&mut bytes)?;
    Ok(bytes)
}

/// True if each `%` is followed by two hexadecimal digits.
fn has_whole_escapes(text: &[u8]) -> bool
    ensures { result ≡ has_whole_escapes text.now }
{
    let mut rest = text;
    while let [first, behind @ ..] = rest {
        if *first == b'%' && !begins_hex(behind) {
            return false;
        }
        rest = behind;
    }
    true
}

fn begins_hex(bytes: &[u8]) -> bool
    ensures { result ≡ begins_hex bytes.now }
{
    match bytes {
        [high, low, ..] => high.is_ascii_hexdigit() && low.is_ascii_hexdigit(),
        _ => false,
    }
}
