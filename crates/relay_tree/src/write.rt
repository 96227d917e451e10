//! A writer of trees as JSON (RFC 8259), one token at a time.
ghost use Rattle.std.specs.Prelude.{◌≡◌, ◌++◌, OnOk};
ghost use Rattle.relay_tree.specs.Document.{list, object, items_of};
ghost use Rattle.relay_tree.specs.Seen.{members_of};
ghost use Rattle.relay_tree.specs.Text.{tokens_of, ReadsBack};

use crate::element::{Element, iter_items};
use crate::members::Members;
use crate::tree::{Node, Tree};
use json::Writer;
use std::alloc::AllocError;

impl Tree {
    /// Appends the tree to what `out` has written: member names in byte order, whole numbers in
    /// decimal. Costs the length of its text and copies nothing. If memory runs out, some of its
    /// first tokens may already be written.
    ///
    /// ```
    /// let mut out = begin_text(alloc).ok()?;
    /// read(alloc, r#"{"b": 1, "a": 2}"#).ok()?.write(&mut out).ok()?;
    /// assert!(rt; end_text(out).as_str() == r#"{"a":2,"b":1}"#);
    /// ```
    pub fn write(&self, out: &mut Writer) -> Result<(), AllocError>
        ensures tokens { OnOk result (out.new.tokens ≡ out.old.tokens ++ tokens_of self.now) }
        ensures before { out.new.before ≡ out.old.before }
        ensures reads_back { OnOk result (ReadsBack self.now) }
    {
        write_tree(self, out)
    }
}

#[cycle(write)]
fn write_tree(tree: &Tree, out: &mut Writer) -> Result<(), AllocError>
    ensures tokens { OnOk result (out.new.tokens ≡ out.old.tokens ++ tokens_of tree.now) }
    ensures before { out.new.before ≡ out.old.before }
    ensures reads_back { OnOk result (ReadsBack tree.now) }
{
    match &tree.node {
        Node::Null => out.null(),
        Node::Truth(truth) => out.boolean(*truth),
        Node::Whole(number) => out.i64(*number),
        Node::Text(text) => out.string(text.as_str()),
        Node::List(items) => write_list(items, out),
        Node::Members(members) => write_object(members, out),
    }
}

#[cycle(write)]
fn write_list(items: &Vec<Element>, out: &mut Writer) -> Result<(), AllocError>
    ensures tokens { OnOk result
        (out.new.tokens ≡ out.old.tokens ++ tokens_of (list (items_of items.now.items))) }
    ensures before { out.new.before ≡ out.old.before }
    ensures reads_back { OnOk result (ReadsBack (list (items_of items.now.items))) }
{
    out.begin_array()?;
    for item in iter_items(items) {
        write_tree(item.tree(), out)?;
    }
    out.end_array()
}

#[cycle(write)]
fn write_object(members: &Members, out: &mut Writer) -> Result<(), AllocError>
    ensures tokens { OnOk result
        (out.new.tokens ≡ out.old.tokens ++ tokens_of (object (members_of members.now.entries))) }
    ensures before { out.new.before ≡ out.old.before }
    ensures reads_back { OnOk result (ReadsBack (object (members_of members.now.entries))) }
{
    out.begin_object()?;
    for (name, member) in members.iter() {
        out.key(name.as_str())?;
        write_tree(member, out)?;
    }
    out.end_object()
}
