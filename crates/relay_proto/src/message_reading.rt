//! The reader of message texts, as a client needs it. Members that a message does not need are
//! ignored. A text with an unknown word or without a required member is no message.
ghost use Rattle.std.specs.Prelude.{◌≡◌, Some, None, IfOk, IfErr};
ghost use Rattle.std.specs.List.{list_all};
ghost use Rattle.relay_proto.specs.MessageRead.{message_of_text, message_of, patch_message_in};
ghost use Rattle.relay_proto.specs.MessageRead.{snapshot_in, reply_in, refused_in, resumed_in};
ghost use Rattle.relay_proto.specs.MessageRead.{nullable_in, word_in, how_in, is_view, is_slot};
ghost use Rattle.relay_proto.specs.declared.message_reading.MessageFault.TheVariants.{NotMessage};

use crate::message::Message;
use crate::optional::optional_count_at;
use crate::reply::{Reply, ResumeOutcome};
use crate::word::Word;
use relay_patch::{Patch, PatchFault, PatchLimits};
use relay_tree::{Element, Node, Tree, TreeFault};
use std::alloc::Global;
use thiserror::Error;

/// The reason why no message was read.
///
/// ```
/// let text = r#"{"id":1,"kind":"done"}"#;
/// assert!(rt; matches!(Message::read(alloc, text), Err(MessageFault::NotMessage)));
/// ```
#[derive(Clone, Copy, Debug, PartialEq, Eq, Error)]
pub enum MessageFault {
    /// [`relay_tree::read`] reads no tree from the text, or its members do not have the forms of a
    /// message.
    #[error("not a message")]
    NotMessage,
    #[error("out of memory")]
    NoMemory,
}

impl Message {
    /// Reads a message from its text. A patch may have any number of operations, with paths of at
    /// most 66 tokens. See `docs/PROTOCOL.md`, "Messages".
    ///
    /// ```
    /// let message = Message::read(alloc, r#"{"id":2,"kind":"watching"}"#);
    /// assert!(rt; matches!(message, Ok(Message::Reply(Reply::Watching { id: 2 }))));
    /// ```
    pub fn read(alloc: Global, text: &str) -> Result<Message, MessageFault>
        ensures ok { IfOk result (λ message. message_of_text text.now ≡ Some message) }
        ensures not_message { IfErr result
            (λ fault. fault ≡ NotMessage → message_of_text text.now ≡ None) }
    {
        match relay_tree::read(alloc, text) {
            Ok(tree) => message_of(alloc, tree),
            Err(TreeFault::NotJson | TreeFault::Number) => Err(MessageFault::NotMessage),
            Err(TreeFault::NoMemory) => Err(MessageFault::NoMemory),
        }
    }
}

fn message_of(alloc: Global, tree: Tree) -> Result<Message, MessageFault>
    ensures ok { IfOk result (λ message. message_of tree ≡ Some message) }
    ensures not_message { IfErr result (λ fault. fault ≡ NotMessage → message_of tree ≡ None) }
{
    let Some(kind) = tree.text_at("kind") else {
        return Err(MessageFault::NotMessage);
    };
    match kind {
        "patch" => patch_of(alloc, tree),
        "snapshot" => snapshot_of(tree),
        _ => match reply_of(kind, &tree) {
            Some(reply) => Ok(Message::Reply(reply)),
            None => Err(MessageFault::NotMessage),
        },
    }
}

fn patch_of(alloc: Global, tree: Tree) -> Result<Message, MessageFault>
    ensures ok { IfOk result (λ message. patch_message_in tree ≡ Some message) }
    ensures not_message { IfErr result
        (λ fault. fault ≡ NotMessage → patch_message_in tree ≡ None) }
{
    let mut tree = tree;
    let Some(rev) = tree.count_at("rev") else {
        return Err(MessageFault::NotMessage);
    };
    let Some(patch) = tree.take_member("patch") else {
        return Err(MessageFault::NotMessage);
    };
    match Patch::from_owned(alloc, patch, PatchLimits::RELAYED) {
        Ok(patch) => Ok(Message::Patch { rev, patch }),
        Err(PatchFault::NoMemory) => Err(MessageFault::NoMemory),
        Err(_) => Err(MessageFault::NotMessage),
    }
}

fn snapshot_of(tree: Tree) -> Result<Message, MessageFault>
    ensures ok { IfOk result (λ message. snapshot_in tree ≡ Some message) }
    ensures not_message { IfErr result (λ fault. fault ≡ NotMessage → snapshot_in tree ≡ None) }
{
    let mut tree = tree;
    let Some(rev) = tree.count_at("rev") else {
        return Err(MessageFault::NotMessage);
    };
    let Some(view) = tree.take_member("view") else {
        return Err(MessageFault::NotMessage);
    };
    if !is_view(&view) {
        return Err(MessageFault::NotMessage);
    }
    Ok(Message::Snapshot { rev, view })
}

#[tactic(auto, using(crate::proofs::Slots::all_slots))]
fn is_view(tree: &Tree) -> bool
    ensures { result ≡ is_view tree.now }
{
    match &tree.node {
        Node::List(slots) => are_slots(slots),
        _ => false,
    }
}

fn are_slots(slots: &Vec<Element>) -> bool
    ensures { result ≡ list_all is_slot slots.now.items }
{
    slots.iter().all(|slot| is_slot(slot.tree()))
}

#[tactic(auto, using(crate::proofs::Slots::few_values))]
fn is_slot(tree: &Tree) -> bool
    ensures { result ≡ is_slot tree.now }
{
    match &tree.node {
        Node::List(values) => values.len() <= 1,
        _ => false,
    }
}

fn reply_of(kind: &str, tree: &Tree) -> Option<Reply>
    ensures { result ≡ reply_in kind.now tree.now }
{
    match kind {
        "welcome" => Some(Reply::Welcome {
            epoch: tree.count_at("epoch")?,
            rev: tree.count_at("rev")?,
            session: tree.count_at("session")?,
        }),
        "done" => Some(Reply::Done {
            id: tree.count_at("id")?,
            rev: tree.count_at("rev")?,
        }),
        "refused" => refused_of(tree),
        "willing" => Some(Reply::Willing {
            id: tree.count_at("id")?,
        }),
        "watching" => Some(Reply::Watching {
            id: tree.count_at("id")?,
        }),
        "resumed" => resumed_of(tree),
        "unwatched" => Some(Reply::Unwatched {
            id: tree.count_at("id")?,
        }),
        _ => None,
    }
}

fn refused_of(tree: &Tree) -> Option<Reply>
    ensures { result ≡ refused_in tree.now }
{
    Some(Reply::Refused {
        id: nullable_at(tree, "id")?,
        fault: Word::read(tree.text_at("fault")?)?,
        at: nullable_at(tree, "at")?,
        rev: optional_count_at(tree, "rev")?,
    })
}

fn resumed_of(tree: &Tree) -> Option<Reply>
    ensures { result ≡ resumed_in tree.now }
{
    Some(Reply::Resumed {
        id: tree.count_at("id")?,
        how: ResumeOutcome::read(tree.text_at("how")?)?,
    })
}

/// Reads a required member that is a count or `null`.
fn nullable_at(tree: &Tree, name: &str) -> Option<Option<u64>>
    ensures { result ≡ nullable_in tree.now name.now }
{
    let member = tree.member(name)?;
    match &member.node {
        Node::Null => Some(None),
        _ => Some(Some(member.count()?)),
    }
}
