//! The client of a room, which hears the texts that are kept of it.
ghost use Rattle.std.specs.Prelude.{◌≡◌, ℕ, List, Some, IfOk, OnOk, IfSome, option_map};
ghost use Rattle.relay_follow.specs.Hearing.{as_client};
ghost use Rattle.relay_store.specs.Kept.{Room, edited};
ghost use Rattle.relay_view.specs.View.{slot_of};
ghost use Rattle.relay_keeping.specs.Clients.{IsClientOf, patch_of, record_of};
ghost use Rattle.relay_keeping.specs.Mirrored.{heard, seen_whole};

use crate::kept_room::KeptTexts;
use relay_follow::{Follower, HearFault};
use relay_store::StoreFault;
use relay_tree::Tree;
use std::alloc::Global;

/// A room as its texts make it, and the lengths of these.
#[derive(Drop)]
pub(crate) struct Client {
    pub(crate) texts: KeptTexts,
    pub(crate) follower: Follower,
}

impl Client {
    /// A room with this record.
    pub(crate) fn begun(alloc: Global, revision: u64, text: &str) -> Result<Client, StoreFault>
        ensures { (name : List ℕ) → IfOk result (IsClientOf (record_of name revision text.now)) }
    {
        let mut follower = Follower::new();
        hear(alloc, &mut follower, revision, text)?;
        Ok(Client {
            texts: KeptTexts::begun(revision, text.len() as u64),
            follower,
        })
    }

    /// Hears a patch that leads to a revision.
    pub(crate) fn edit(
        &mut self,
        alloc: Global,
        revision: u64,
        text: &str,
    ) -> Result<(), StoreFault>
        ensures { (kept : Room) → IsClientOf kept self.old
            → OnOk result (IsClientOf (edited (patch_of revision text.now) kept) self.new) }
    {
        hear(alloc, &mut self.follower, revision, text)?;
        self.texts = self.texts.with_patch(revision, text.len() as u64);
        Ok(())
    }

    /// The revision and the document; `None` if the view is not that of a whole document.
    pub(crate) fn made(&self) -> Option<(u64, &Tree)>
        ensures { IfSome result
            (λ made. self.now.follower ≡ Some (made.0, seen_whole made.1.now)) }
    {
        let document = only_item(only_item(self.follower.view()?)?)?;
        Some((self.follower.rev()?, document))
    }
}

/// Hears a text, which leads to a revision.
fn hear(alloc: Global, follower: &mut Follower, revision: u64, text: &str) -> Result<(), StoreFault>
    ensures heard { OnOk result (as_client follower.new ≡ heard (as_client follower.old) text.now) }
    ensures at { OnOk result (option_map (λ held. held.0) follower.new ≡ Some revision) }
{
    match follower.hear(alloc, text) {
        Ok(()) if follower.rev() == Some(revision) => Ok(()),
        Err(HearFault::NoMemory) => Err(StoreFault::NoMemory),
        _ => Err(StoreFault::Damaged),
    }
}

/// The element of a list that has only one.
fn only_item(list: &Tree) -> Option<&Tree>
    ensures { IfSome result (λ only. list.now ≡ slot_of (Some only.now)) }
{
    match list.node.list_len() {
        Some(1) => list.item(0),
        _ => None,
    }
}
