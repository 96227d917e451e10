//! The messages that the relay sends.
use crate::reply::Reply;
use relay_patch::Patch;
use relay_tree::Tree;

/// A message: a reply, or an update that brings a watcher's view to the revision `rev`.
///
/// ```
/// let text = r#"{"kind":"snapshot","rev":1,"view":[[[]]]}"#;
/// let Message::Snapshot { rev, view } = Message::read(alloc, text).ok()? else {
///     return None;
/// };
/// assert!(rt; rev == 1 && view.text(alloc).ok()?.as_str() == "[[[]]]");
/// ```
#[derive(Drop)]
pub enum Message {
    Reply(Reply),
    /// The operations that turn the view that the client holds into the view of `rev`.
    Patch { rev: u64, patch: Patch },
    /// The whole view of `rev`: the list of its slots.
    Snapshot { rev: u64, view: Tree },
}
