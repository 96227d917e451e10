//! The texts that are said to a hub for a request that reads or edits a room, and those that the
//! hub shows (`docs/PROTOCOL.md`, "Requests" and "Messages").
ghost use Rattle.std.specs.Prelude.{◌≡◌, ◌≢◌, ◌↔◌, ℕ, List, ◌++◌, ◌∷◌, [], codes, IfOk, OnOk};
ghost use Rattle.std.specs.Prelude.{IfSome, IsSome, MatchOption, string_bytes};
ghost use Rattle.json.specs.Lex.{tokens};
ghost use Rattle.json.specs.Print.{ArePrintable, print};
ghost use Rattle.json.specs.Token.{key};
ghost use Rattle.relay_admin.specs.Asking.{begun, based, watch_tokens, edit_tokens, IsJson};
ghost use Rattle.relay_admin.specs.Asking.{snapshot_text};

use crate::cut::behind;
use json::{Reader, Scratch, Writer, is_valid};
use std::alloc::{AllocError, Global};

/// The reply of a hub to a text that is no JSON, and so the body of the response to such a patch
/// ([`crate::Response::Malformed`]).
pub const NOT_JSON: &str = r#"{"at":null,"fault":"not-json","id":null,"kind":"refused"}"#;

/// Returns the text of the request that watches the part at one pointer, with the id 1:
/// `{"do":"watch","id":1,"view":["POINTER"]}`. If memory runs out, it returns `AllocError` and
/// leaves nothing behind.
///
/// ```
/// let text = watch_text(alloc, "/cards").ok()?;
/// assert!(rt; text.as_str() == r#"{"do":"watch","id":1,"view":["/cards"]}"#);
/// ```
pub fn watch_text(alloc: Global, at: &str) -> Result<String, AllocError>
    ensures text { IfOk result (λ text. string_bytes text ≡ print (watch_tokens at.now)) }
    ensures reads_back { IfOk result (λ text. tokens (string_bytes text) ≡ watch_tokens at.now) }
{
    let mut out = begin_request(alloc, "watch")?;
    out.key("view")?;
    out.begin_array()?;
    out.string(at)?;
    out.end_array()?;
    out.end_object()?;
    Ok(text_of(out))
}

/// Returns the text of the request that edits by the patch in a body, with the id 1, at the
/// revision `base` if there is one: `{"do":"edit","id":1,"base":REV,"patch":BODY}`. The body is
/// written anew, token by token, so it loses white space. `None` if it is not one JSON text in
/// UTF-8, which would make another request of it ([`NOT_JSON`]). If memory runs out, it returns
/// `AllocError` and leaves nothing behind.
///
/// ```
/// let body = br#"[{"op": "remove", "path": "/a"}]"#;
/// let text = edit_text(alloc, Some(4), body).ok()??;
/// let wanted = r#"{"do":"edit","id":1,"base":4,"patch":[{"op":"remove","path":"/a"}]}"#;
/// assert!(rt; text.as_str() == wanted);
/// assert!(rt; edit_text(alloc, None, b"[1,]").ok()?.is_none());
/// ```
#[tactic(auto, using(crate::proofs::Documents::document_printable))]
pub fn edit_text(
    alloc: Global,
    base: Option<u64>,
    body: &[u8],
) -> Result<Option<String>, AllocError>
    ensures json { IfOk result (λ text. IsSome text ↔ IsJson body.now) }
    ensures text { IfOk result (λ text. IfSome text
        (λ t. string_bytes t ≡ print (edit_tokens base (tokens body.now)))) }
    ensures tokens { IfOk result (λ text. IfSome text
        (λ t. tokens (string_bytes t) ≡ edit_tokens base (tokens body.now))) }
{
    let Ok(patch) = std::str::from_utf8(body) else {
        return Ok(None);
    };
    let mut scratch = Scratch::new(alloc);
    if !is_valid(patch, &mut scratch)? {
        return Ok(None);
    }
    Ok(Some(edit_by(alloc, base, patch, &mut scratch)?))
}

/// Returns the text of the edit by a patch, all of whose tokens can be written.
fn edit_by(
    alloc: Global,
    base: Option<u64>,
    patch: &str,
    scratch: &mut Scratch,
) -> Result<String, AllocError>
    requires { ArePrintable (tokens patch.now) }
    ensures text { IfOk result (λ text. string_bytes text
        ≡ print (edit_tokens base (tokens patch.now))) }
    ensures tokens { IfOk result (λ text. tokens (string_bytes text)
        ≡ edit_tokens base (tokens patch.now)) }
{
    let mut out = begin_edit(alloc, base)?;
    let mut reader = Reader::new(patch, scratch)?;
    write_rest(&mut out, &mut reader)?;
    out.end_object()?;
    Ok(text_of(out))
}

fn begin_edit(alloc: Global, base: Option<u64>) -> Result<Writer, AllocError>
    ensures before { IfOk result (λ out. out.before ≡ []) }
    ensures tokens { IfOk result (λ out. out.tokens
        ≡ begun (codes "edit") ++ (based base ++ key (codes "patch") ∷ [])) }
{
    let mut out = begin_request(alloc, "edit")?;
    write_base(&mut out, base)?;
    out.key("patch")?;
    Ok(out)
}

fn begin_request(alloc: Global, name: &str) -> Result<Writer, AllocError>
    ensures before { IfOk result (λ out. out.before ≡ []) }
    ensures tokens { IfOk result (λ out. out.tokens ≡ begun name.now) }
{
    let mut out = Writer::new(Vec::new(alloc));
    out.begin_object()?;
    out.key("do")?;
    out.string(name)?;
    out.key("id")?;
    out.u64(1)?;
    Ok(out)
}

fn write_base(out: &mut Writer, base: Option<u64>) -> Result<(), AllocError>
    ensures tokens { OnOk result (out.new.tokens ≡ out.old.tokens ++ based base) }
    ensures before { out.new.before ≡ out.old.before }
{
    match base {
        Some(rev) => {
            out.key("base")?;
            out.u64(rev)
        }
        None => Ok(()),
    }
}

/// Writes the tokens that are left of a text, all of which can be written.
fn write_rest(out: &mut Writer, reader: &mut Reader<'_>) -> Result<(), AllocError>
    requires { ArePrintable reader.old }
    ensures tokens { OnOk result (out.new.tokens ≡ out.old.tokens ++ reader.old) }
    ensures before { out.new.before ≡ out.old.before }
{
    while let Some(token) = reader.next() {
        out.token(token)?;
    }
    Ok(())
}

fn text_of(out: Writer) -> String
    requires { out.before ≡ [] }
    ensures text { string_bytes result ≡ print out.tokens }
    ensures reads_back { tokens (string_bytes result) ≡ out.tokens }
{
    let Ok(text) = String::from_utf8(out.into_inner()) else {
        unreachable!()
    };
    text
}

/// Returns the value that a snapshot of a view of one slot shows, which is empty if the pointer
/// leads to nothing. `None` if the text is no such snapshot of the revision `rev`.
///
/// ```
/// let snapshot = r#"{"kind":"snapshot","rev":1,"view":[[7]]}"#;
/// assert!(rt; shown_value(snapshot, 1) == Some("7") && shown_value(snapshot, 2) == None);
/// ```
pub fn shown_value(text: &str, rev: u64) -> Option<&str>
    ensures { MatchOption result
        ((value : List ℕ) → text.now ≢ snapshot_text rev value)
        (λ value. text.now ≡ snapshot_text rev value.now) }
{
    let mut digits = itoa::Buffer::new();
    let Some(number) = behind(text, r#"{"kind":"snapshot","rev":"#) else {
        return None;
    };
    let Some(view) = behind(number, digits.format(rev)) else {
        return None;
    };
    let Some(value) = behind(view, r#","view":[["#) else {
        return None;
    };
    before(value, "]]}")
}

fn before<'a>(text: &'a str, suffix: &str) -> Option<&'a str>
    ensures { MatchOption result
        ((front : List ℕ) → text.now ≢ front ++ suffix.now)
        (λ front. text.now ≡ front.now ++ suffix.now) }
{
    text.strip_suffix(suffix)
}
