//! The texts of patch and snapshot messages, written token by token: compact JSON, member names in
//! byte order.
ghost use Rattle.std.specs.Prelude.{◌≡◌, ◌≤◌, ◌+◌, ◌*◌, Some, [], ◌∷◌, ◌++◌, IfOk, string_bytes};
ghost use Rattle.std.specs.Prelude.{codes, decimal, length};
ghost use Rattle.json.specs.Lex.{tokens};
ghost use Rattle.json.specs.Print.{print};
ghost use Rattle.json.specs.Token.{begin_object, end_object, key, string, number};
ghost use Rattle.relay_tree.specs.Text.{text_of};
ghost use Rattle.relay_view.specs.View.{view as shown};
ghost use Rattle.relay_proto.specs.Message.{patch_message, snapshot_message};
ghost use Rattle.relay_proto.specs.MessageRead.{message_of_text};
ghost use Rattle.relay_proto.specs.Written.{IsWritable};
ghost use Rattle.relay_proto.specs.declared.message.Message.TheVariants as message;

use json::Writer;
use relay_patch::Patch;
use relay_tree::{Budget, Tree, end_text};
use relay_view::View;
use std::alloc::{AllocError, Global};

/// The bytes of a message but for what it carries, at most.
const MESSAGE_BYTES: usize = 64;

/// The bytes of an operation but for its path and its value, at most.
const OPERATION_BYTES: usize = 40;

/// The capacity in bytes with which a snapshot's text begins.
const SNAPSHOT_BYTES: usize = 128;

/// A patch that weighs more begins with room for as many bytes.
const LIKELY_BYTES: u64 = 65_536;

/// Returns the text of a patch message: the operations that bring a view to the revision `rev`.
/// Copies no value; the text of each pointer is allocated briefly. It reads back as the message if
/// the revision is a count, paths have at most 66 tokens and the text nests at most 127 containers.
///
/// ```
/// let ops = read(alloc, r#"[{"op": "replace", "path": "/0", "value": [1]}]"#).ok()?;
/// let patch = Patch::from_owned(alloc, ops, PatchLimits::RELAYED).ok()?;
/// let text = patch_text(alloc, 2, &patch).ok()?;
/// let wanted = r#"{"kind":"patch","patch":[{"op":"replace","path":"/0","value":[1]}],"rev":2}"#;
/// assert!(rt; text.as_str() == wanted);
/// ```
pub fn patch_text(alloc: Global, rev: u64, patch: &Patch) -> Result<String, AllocError>
    ensures text { IfOk result (λ text. string_bytes text ≡ text_of (patch_message rev patch.now)) }
    ensures reads_back { IfOk result
        (λ text. IsWritable (message.Patch rev patch.now)
        → message_of_text (string_bytes text) ≡ Some (message.Patch rev patch.now)) }
{
    let mut out = begin_message(alloc, "patch", likely_length(patch))?;
    out.key("patch")?;
    patch.write(alloc, &mut out)?;
    out.key("rev")?;
    out.u64(rev)?;
    end_message(out)
}

/// Returns the text of a snapshot: the whole view of the revision `rev`. Allocates only that text
/// and copies no value. It reads back as the message if the revision is a count, the view is a list
/// of slots and the text nests at most 127 containers.
///
/// ```
/// let text = snapshot_text(alloc, 1, &read(alloc, "[[[]]]").ok()?).ok()?;
/// assert!(rt; text.as_str() == r#"{"kind":"snapshot","rev":1,"view":[[[]]]}"#);
/// ```
pub fn snapshot_text(alloc: Global, rev: u64, view: &Tree) -> Result<String, AllocError>
    ensures text { IfOk result
        (λ text. string_bytes text ≡ text_of (snapshot_message rev view.now)) }
    ensures reads_back { IfOk result
        (λ text. IsWritable (message.Snapshot rev view.now)
        → message_of_text (string_bytes text) ≡ Some (message.Snapshot rev view.now)) }
{
    let mut out = begin_snapshot(alloc, rev)?;
    view.write(&mut out)?;
    end_message(out)
}

/// Returns the same text as [`snapshot_text`] for what a view shows of the document of the revision
/// `rev`. Allocates only that text: each part is written straight from the document.
///
/// ```
/// let view = View::read(alloc, &read(alloc, r#"["/cards"]"#).ok()?).ok()?;
/// let board = read(alloc, r#"{"cards": []}"#).ok()?;
/// let text = shown_text(alloc, 1, &view, &board).ok()?;
/// assert!(rt; text.as_str() == r#"{"kind":"snapshot","rev":1,"view":[[[]]]}"#);
/// ```
pub fn shown_text(
    alloc: Global,
    rev: u64,
    view: &View,
    document: &Tree,
) -> Result<String, AllocError>
    ensures text { IfOk result
        (λ text. string_bytes text ≡ text_of (snapshot_message rev (shown view.now document.now))) }
    ensures reads_back { IfOk result
        (λ text. IsWritable (message.Snapshot rev (shown view.now document.now))
        → message_of_text (string_bytes text)
        ≡ Some (message.Snapshot rev (shown view.now document.now))) }
{
    let mut out = begin_snapshot(alloc, rev)?;
    view.write(document, &mut out)?;
    end_message(out)
}

/// About as many bytes as the text of a message with this patch has, so that it seldom grows: what
/// the operations weigh, and their words.
pub(crate) fn likely_length(patch: &Patch) -> usize
    ensures { result ≤ OPERATION_BYTES * length patch.now + LIKELY_BYTES + MESSAGE_BYTES }
{
    let carried = match patch.pay(Budget::Left(LIKELY_BYTES)) {
        Some(Budget::Left(left)) => LIKELY_BYTES.saturating_sub(left),
        _ => LIKELY_BYTES,
    };
    patch
        .ops()
        .len()
        .saturating_mul(OPERATION_BYTES)
        .saturating_add(carried as usize)
        .saturating_add(MESSAGE_BYTES)
}

/// Writes a message up to its kind, into a text with room for so many bytes.
fn begin_message(alloc: Global, kind: &str, room: usize) -> Result<Writer, AllocError>
    ensures before { IfOk result (λ out. out.before ≡ []) }
    ensures tokens { IfOk result
        (λ out. out.tokens ≡ begin_object ∷ key (codes "kind") ∷ string kind.now ∷ []) }
{
    let mut out = Writer::new(Vec::with_capacity(alloc, room)?);
    out.begin_object()?;
    out.key("kind")?;
    out.string(kind)?;
    Ok(out)
}

/// Writes a snapshot up to its view.
fn begin_snapshot(alloc: Global, rev: u64) -> Result<Writer, AllocError>
    ensures before { IfOk result (λ out. out.before ≡ []) }
    ensures tokens { IfOk result
        (λ out. out.tokens ≡ begin_object ∷ key (codes "kind") ∷ string (codes "snapshot")
        ∷ key (codes "rev") ∷ number (decimal rev) ∷ key (codes "view") ∷ []) }
{
    let mut out = begin_message(alloc, "snapshot", SNAPSHOT_BYTES)?;
    out.key("rev")?;
    out.u64(rev)?;
    out.key("view")?;
    Ok(out)
}

/// Closes a message and returns its text.
pub(crate) fn end_message(mut out: Writer) -> Result<String, AllocError>
    requires { out.before ≡ [] }
    ensures text { IfOk result (λ text. string_bytes text ≡ print (out.tokens ++ end_object ∷ [])) }
    ensures reads_back { IfOk result
        (λ text. tokens (string_bytes text) ≡ out.tokens ++ end_object ∷ []) }
{
    out.end_object()?;
    Ok(end_text(out))
}
