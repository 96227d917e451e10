//! The places of changes, with `-` replaced by the index that it names.
ghost use Rattle.std.specs.Prelude.{◌≡◌, IfOk, if◌then◌else◌, string_bytes};
ghost use Rattle.relay_pointer.specs.Index.{index_text};
ghost use Rattle.relay_patch.specs.Walk.{is_dash};
ghost use Rattle.relay_apply.specs.Steps.{final, is_item, insert_place};

use crate::insert_target::InsertTarget;
use crate::walk::is_dash;
use relay_patch::Place;
use relay_pointer::{Pointer, copy_tokens};
use std::alloc::{AllocError, Global};
use std::rc::Rc;

/// Returns the place of an insertion at a path, given its target.
pub(crate) fn insert_place(
    alloc: Global,
    path: &Pointer,
    insert_target: InsertTarget,
) -> Result<Place, AllocError>
    ensures { IfOk result (λ place. place ≡ insert_place insert_target path.now) }
{
    let item = is_item(insert_target);
    let [before @ .., last] = path.tokens() else {
        return Ok(Place {
            path: Pointer::root(),
            item,
        });
    };
    let mut tokens = copy_tokens(alloc, before)?;
    tokens.push(final_token(alloc, insert_target, last)?)?;
    let path = Pointer::from_tokens(Rc::new(alloc, tokens)?);
    Ok(Place { path, item })
}

fn is_item(insert_target: InsertTarget) -> bool
    ensures { result ≡ is_item insert_target }
{
    matches!(insert_target, InsertTarget::Item { .. })
}

// The last token of the place of an insertion.
fn final_token(
    alloc: Global,
    insert_target: InsertTarget,
    token: &String,
) -> Result<String, AllocError>
    ensures { IfOk result (λ copy. string_bytes copy
        ≡ final insert_target (string_bytes token.now)) }
{
    match insert_target {
        InsertTarget::Item { index } => canonical(alloc, index, token),
        _ => token.clone(),
    }
}

fn canonical(alloc: Global, index: usize, token: &String) -> Result<String, AllocError>
    ensures { IfOk result (λ copy. string_bytes copy
        ≡ (if is_dash (string_bytes token.now) then index_text index else string_bytes token.now)) }
{
    if is_dash(token) {
        index.to_string(alloc)
    } else {
        token.clone()
    }
}
