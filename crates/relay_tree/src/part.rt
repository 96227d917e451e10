//! The parts of a tree one level down, which one token of a path can name.
ghost use Rattle.std.specs.Prelude.{◌≡◌, ◌<◌, ◌^◌, ℕ, List as list_of, None, false, bytes_eq};
ghost use Rattle.std.specs.Prelude.{IfSome, OnSome, option_copied};
ghost use Rattle.std.specs.Option.{option_map, option_copied_mut};
ghost use Rattle.std.specs.Borrow.{LendsIf, sem};
ghost use Rattle.relay_tree.specs.Document.{Members as members_type, null, object};
ghost use Rattle.relay_tree.specs.Part.{list_len, members_len, list_item, object_member, text_in};
ghost use Rattle.relay_tree.specs.Part.{with_member, IsOrdered};
ghost use Rattle.relay_tree.specs.Seen.{document_of};
ghost use Rattle.relay_tree.specs.Rows.{list_row, map_row, node_items, node_members};
ghost use Rattle.relay_tree.specs.declared.tree.Node.TheVariants as kind;
ghost use Rattle.relay_tree.specs.contracts.tree.Node as node;
ghost use Rattle.relay_tree.specs.Lending.{LendsItem, LendsMember};

use crate::element::Element;
use crate::members::Members;
use crate::tree::{Node, Tree};
use std::mem::replace;

impl Tree {
    /// Returns the element at `index`, counted from 0, or `None` if the index is past the end or
    /// the tree is not a list.
    ///
    /// ```
    /// let cards = read(alloc, r#"["a", "b"]"#).ok()?;
    /// assert!(rt; cards.item(1)?.text(alloc).ok()?.as_str() == r#""b""#);
    /// assert!(rt; cards.item(2).is_none());
    /// ```
    pub fn item(&self, index: usize) -> Option<&Tree>
        ensures { option_copied result ≡ list_item self.now index }
    {
        match &self.node {
            Node::List(items) => {
                if index < items.len() {
                    Some(items[index].tree())
                } else {
                    None
                }
            }
            _ => None,
        }
    }

    /// Returns the value of the member `name`, or `None` if there is no such member or the tree is
    /// not an object. Costs an ordered search among the members.
    ///
    /// ```
    /// let board = read(alloc, r#"{"cards": ["a", "b"]}"#).ok()?;
    /// let card = board.member("cards")?.item(1)?;
    /// assert!(rt; matches!(&card.node, Node::Text(text) if text.as_str() == "b"));
    /// assert!(rt; board.member("cards")?.item(2).is_none() && board.item(0).is_none());
    /// ```
    pub fn member(&self, name: &str) -> Option<&Tree>
        ensures { option_copied result ≡ object_member self.now name.now }
    {
        match &self.node {
            Node::Members(members) => members.get(name),
            _ => None,
        }
    }

    /// Takes the value of the member `name` out of an object, and leaves `null` there. Returns
    /// `None`, with the tree unchanged, if there is no such member or the tree is not an object.
    /// Allocates nothing.
    ///
    /// ```
    /// let mut board = read(alloc, r#"{"cards": ["a", "b"]}"#).ok()?;
    /// let cards = board.take_member("cards")?;
    /// assert!(rt; cards.text(alloc).ok()?.as_str() == r#"["a","b"]"#);
    /// assert!(rt; board.text(alloc).ok()?.as_str() == r#"{"cards":null}"#);
    /// ```
    pub fn take_member(&mut self, name: &str) -> Option<Tree>
        ensures value { result ≡ object_member self.old name.now }
        ensures taken { OnSome result (self.new ≡ with_member self.old name.now null) }
        ensures missing { result ≡ None → self.new ≡ self.old }
        ensures others { (other : list_of ℕ) → bytes_eq name.now other ≡ false
            → object_member self.new other ≡ object_member self.old other }
    {
        match self.node.member_mut(name) {
            Some(member) => Some(replace(member, Tree::from(Node::Null))),
            None => None,
        }
    }

    /// Returns the text of the member `name`, or `None` if there is no such member or it is not a
    /// text.
    ///
    /// ```
    /// let done = read(alloc, r#"{"id":1,"kind":"done","rev":4}"#).ok()?;
    /// assert!(rt; done.text_at("kind") == Some("done") && done.text_at("rev") == None);
    /// ```
    pub fn text_at(&self, name: &str) -> Option<&str>
        ensures { option_map (λ text. text.now) result ≡ text_in self.now name.now }
    {
        match &self.member(name)?.node {
            Node::Text(text) => Some(text.as_str()),
            _ => None,
        }
    }
}

impl Node {
    /// Returns the number of elements of a list, or `None` if the node is not a list.
    ///
    /// ```
    /// assert!(rt; read(alloc, "[1, 2]").ok()?.node.list_len() == Some(2));
    /// assert!(rt; read(alloc, "{}").ok()?.node.list_len() == None);
    /// ```
    pub fn list_len(&self) -> Option<usize>
        ensures len { result ≡ list_len (document_of self.now) }
        ensures few { IfSome result (λ n. n < 2 ^ 64) }
    {
        match self {
            Node::List(items) => Some(items.len()),
            _ => None,
        }
    }

    /// Returns the number of members of an object, or `None` if the node is not an object.
    ///
    /// ```
    /// assert!(rt; read(alloc, r#"{"a": 1}"#).ok()?.node.members_len() == Some(1));
    /// assert!(rt; read(alloc, "[1, 2]").ok()?.node.members_len() == None);
    /// ```
    pub fn members_len(&self) -> Option<usize>
        ensures len { result ≡ members_len (document_of self.now) }
        ensures ordered { (ms : members_type) → document_of self.now ≡ object ms → IsOrdered ms }
    {
        match self {
            Node::Members(members) => Some(members.len()),
            _ => None,
        }
    }

    /// Borrows the element at `index` of a list, counted from 0, for writing. Only what is written
    /// there changes. Returns `None` if the index is past the end or the node is not a list.
    ///
    /// ```
    /// let mut cards = read(alloc, "[1, 2]").ok()?;
    /// cards.node.item_mut(0)?.node = Node::Whole(3);
    /// assert!(rt; cards.text(alloc).ok()?.as_str() == "[3,2]");
    /// ```
    pub fn item_mut(&mut self, index: usize) -> Option<&mut Tree>
        ensures* writes_back { sem 𝓛 (LendsItem self.entry index result) }
        ensures value { option_copied_mut result ≡ list_item (document_of self.old) index }
    {
        match self.items_mut() {
            Some(items) => {
                if index < items.len() {
                    Some(items[index].tree_mut())
                } else {
                    None
                }
            }
            None => None,
        }
    }

    /// Borrows the value of the member `name` of an object for writing. Only what is written there
    /// changes. Returns `None` if there is no such member or the node is not an object.
    ///
    /// ```
    /// let mut board = read(alloc, r#"{"a": 1}"#).ok()?;
    /// board.node.member_mut("a")?.node = Node::Whole(3);
    /// assert!(rt; board.text(alloc).ok()?.as_str() == r#"{"a":3}"#);
    /// ```
    pub fn member_mut(&mut self, name: &str) -> Option<&mut Tree>
        ensures* writes_back { sem 𝓛 (LendsMember self.entry name.now result) }
        ensures value { option_copied_mut result ≡ object_member (document_of self.old) name.now }
    {
        match self.members_mut() {
            Some(members) => members.get_mut(name),
            None => None,
        }
    }

    fn items_mut(&mut self) -> Option<&mut Vec<Element>>
        ensures* writes_back { sem 𝓛
            (LendsIf node.the_row list_row self.entry result kind.List self.old) }
        ensures value { option_copied_mut result ≡ node_items self.old }
    {
        match self {
            Node::List(items) => Some(items),
            _ => None,
        }
    }

    fn members_mut(&mut self) -> Option<&mut Members>
        ensures* writes_back { sem 𝓛
            (LendsIf node.the_row map_row self.entry result kind.Members self.old) }
        ensures value { option_copied_mut result ≡ node_members self.old }
    {
        match self {
            Node::Members(members) => Some(members),
            _ => None,
        }
    }
}
