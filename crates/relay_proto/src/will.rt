//! The text of a request that leaves a will, for a store that keeps it.
ghost use Rattle.std.specs.Prelude.{◌≡◌, [], ◌∷◌, Ok, IfOk, string_bytes, codes, decimal};
ghost use Rattle.json.specs.Token.{begin_object, key, string, number};
ghost use Rattle.relay_tree.specs.Text.{text_of};
ghost use Rattle.relay_proto.specs.Message.{will_request};
ghost use Rattle.relay_proto.specs.Request.{request_of_text};
ghost use Rattle.relay_proto.specs.Written.{IsWritableWill};
ghost use Rattle.relay_proto.specs.declared.request.Request.TheVariants.{Will};

use crate::updates::{end_message, likely_length};
use json::Writer;
use relay_patch::Patch;
use std::alloc::{AllocError, Global};

/// Returns the text of a request that leaves this will, with the id 1. Copies no value; the text of
/// each pointer is allocated briefly. It reads back as the will if a request can hold it.
///
/// ```
/// let ops = read(alloc, r#"[{"op": "remove", "path": "/here/ann"}]"#).ok()?;
/// let patch = Patch::from_owned(alloc, ops, PatchLimits::REQUEST).ok()?;
/// let text = will_text(alloc, &patch).ok()?;
/// let wanted = r#"{"do":"will","id":1,"patch":[{"op":"remove","path":"/here/ann"}]}"#;
/// assert!(rt; text.as_str() == wanted);
/// assert!(rt; matches!(Request::read(alloc, wanted), Ok(Request::Will { id: 1, .. })));
/// ```
pub fn will_text(alloc: Global, patch: &Patch) -> Result<String, AllocError>
    ensures text { IfOk result (λ text. string_bytes text ≡ text_of (will_request patch.now)) }
    ensures reads_back { IfOk result
        (λ text. IsWritableWill patch.now
        → request_of_text (string_bytes text) ≡ Ok (Will 1 patch.now)) }
{
    let mut out = begin_will(alloc, likely_length(patch))?;
    patch.write(alloc, &mut out)?;
    end_message(out)
}

/// Writes a will up to its patch, into a text with room for so many bytes.
fn begin_will(alloc: Global, room: usize) -> Result<Writer, AllocError>
    ensures before { IfOk result (λ out. out.before ≡ []) }
    ensures tokens { IfOk result
        (λ out. out.tokens ≡ begin_object ∷ key (codes "do") ∷ string (codes "will")
        ∷ key (codes "id") ∷ number (decimal 1) ∷ key (codes "patch") ∷ []) }
{
    let mut out = Writer::new(Vec::with_capacity(alloc, room)?);
    out.begin_object()?;
    out.key("do")?;
    out.string("will")?;
    out.key("id")?;
    out.u64(1)?;
    out.key("patch")?;
    Ok(out)
}
