//! Applying received texts to a follower.
ghost use Rattle.std.specs.Prelude.{◌≡◌, ◌≢◌, Some, OnOk, IfErr, OnErr};
ghost use Rattle.relay_proto.specs.Client.{client, patched, lost};
ghost use Rattle.relay_follow.specs.Hearing.{as_client, told, IsLost, hear_fault, message_fault};
ghost use Rattle.relay_follow.specs.Hearing.{patch_fault};
ghost use Rattle.relay_follow.specs.declared.fault.HearFault.TheVariants.{NoMemory};

use crate::fault::HearFault;
use crate::follower::Follower;
use relay_apply::apply;
use relay_patch::{ApplyFault, Bounds, Cause, Patch};
use relay_proto::{Message, MessageFault};
use relay_tree::Tree;
use std::alloc::Global;

impl Follower {
    /// Applies the text of a message. A snapshot replaces the view and its revision, a patch brings
    /// the view to its revision, and a reply changes nothing. Returns the first fault in the order
    /// of [`HearFault`], or `NoMemory` if memory runs out; either leaves the follower unchanged. A
    /// patch costs what `relay_apply::apply` costs on the view. See `docs/PROTOCOL.md`, "What a
    /// client does".
    ///
    /// ```
    /// let mut follower = Follower::new();
    /// let snapshot = r#"{"kind": "snapshot", "rev": 3, "view": [["a"]]}"#;
    /// follower.hear(alloc, snapshot).ok()?;
    /// let patch = r#"{"kind": "patch", "rev": 4, "patch": [{"op": "remove", "path": "/0/0"}]}"#;
    /// follower.hear(alloc, patch).ok()?;
    /// assert!(rt; follower.rev() == Some(4));
    /// assert!(rt; follower.view()?.text(alloc).ok()?.as_str() == "[[]]");
    /// ```
    pub fn hear(&mut self, alloc: Global, text: &str) -> Result<(), HearFault>
        ensures ok { OnOk result (told (as_client self.old) text.now ≡ Some (as_client self.new)) }
        ensures lost { IfErr result (λ fault. fault ≢ NoMemory
            → IsLost (told (as_client self.old) text.now)) }
        ensures first_fault { IfErr result (λ fault. fault ≢ NoMemory
            → hear_fault self.old text.now ≡ Some fault) }
        ensures unchanged { OnErr result (self.new ≡ self.old) }
    {
        match Message::read(alloc, text) {
            Ok(message) => follow(alloc, &mut self.held, message),
            Err(MessageFault::NotMessage) => Err(HearFault::NotMessage),
            Err(MessageFault::NoMemory) => Err(HearFault::NoMemory),
        }
    }
}

fn follow(alloc: Global, held: &mut Option<(u64, Tree)>, message: Message) -> Result<(), HearFault>
    ensures ok { OnOk result (as_client held.new ≡ client (as_client held.old) message) }
    ensures lost { IfErr result (λ fault. fault ≢ NoMemory
        → client (as_client held.old) message ≡ lost) }
    ensures first_fault { IfErr result (λ fault. fault ≢ NoMemory
        → message_fault held.old message ≡ Some fault) }
    ensures unchanged { OnErr result (held.new ≡ held.old) }
{
    match message {
        Message::Reply(_) => Ok(()),
        Message::Patch { rev, patch } => lead(alloc, held, rev, &patch),
        Message::Snapshot { rev, view } => {
            *held = Some((rev, view));
            Ok(())
        }
    }
}

/// Applies a patch to the held view and raises its revision.
fn lead(
    alloc: Global,
    held: &mut Option<(u64, Tree)>,
    rev: u64,
    patch: &Patch,
) -> Result<(), HearFault>
    ensures ok { OnOk result (as_client held.new ≡ patched rev patch.now (as_client held.old)) }
    ensures lost { IfErr result (λ fault. fault ≢ NoMemory
        → patched rev patch.now (as_client held.old) ≡ lost) }
    ensures first_fault { IfErr result (λ fault. fault ≢ NoMemory
        → patch_fault rev patch.now held.old ≡ Some fault) }
    ensures unchanged { OnErr result (held.new ≡ held.old) }
{
    let Some((held_rev, tree)) = held else {
        return Err(HearFault::NoView);
    };
    if rev <= *held_rev {
        return Err(HearFault::Order);
    }
    match apply(alloc, tree, patch, Bounds::FREE) {
        Ok(_) => {
            *held_rev = rev;
            Ok(())
        }
        Err(
            ApplyFault {
                cause: Cause::NoMemory,
                ..
            },
        ) => Err(HearFault::NoMemory),
        Err(_) => Err(HearFault::Apply),
    }
}
