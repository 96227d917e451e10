//! The record with which a room begins.
ghost use Rattle.std.specs.Prelude.{◌≡◌, IfOk};
ghost use Rattle.relay_keeping.specs.Listing.{record_text};
ghost use Rattle.relay_store.specs.Texts.{owned};
ghost use Rattle.relay_store.specs.declared.change.Change.TheVariants.{Begin};

use crate::whole_view::WholeView;
use relay_proto::shown_text;
use relay_store::Change;
use relay_tree::Tree;
use std::alloc::{AllocError, Global};

/// Returns the change that begins a room with a document at a revision.
///
/// ```
/// let begin = beginning(alloc, "board", 4, &read(alloc, "[7]").ok()?).ok()?;
/// let text = r#"{"kind":"snapshot","rev":4,"view":[[[7]]]}"#;
/// assert!(rt; matches!(begin.borrow(), Change::Begin { text: told, .. } if told == text));
/// ```
pub fn beginning(
    alloc: Global,
    name: &str,
    revision: u64,
    document: &Tree,
) -> Result<Change<String>, AllocError>
    ensures { IfOk result (λ change. owned change
        ≡ Begin name.now revision (record_text revision document.now)) }
{
    let whole = WholeView::new(alloc)?;
    Ok(Change::Begin {
        room: String::from_str(alloc, name)?,
        revision,
        text: shown_text(alloc, revision, whole.view(), document)?,
    })
}
