//! Names and values, in the byte order of the names. They lie side by side in one allocation and
//! are found by binary search: an empty object takes nothing, and one of a few members little. The
//! allocation grows by a quarter, and is cut to size once a quarter of it is empty, so an object
//! takes memory by what it holds and not by what it once held.
ghost use Rattle.std.specs.Prelude.{◌≡◌};

use crate::tree::Tree;
use std::alloc::{AllocError, Global};
use std::cmp::Ordering;
use std::marker::Model;
use std::mem::replace;
use std::slice;

/// The members of an object: values under names, each name once. Contracts see their names and
/// values, in the byte order of the names, and the capacity.
///
/// ```
/// let mut members = Members::new(alloc);
/// members.insert(String::from_str(alloc, "b").ok()?, Tree::of_count(1)).ok()?;
/// members.insert(String::from_str(alloc, "a").ok()?, Tree::of_count(2)).ok()?;
/// assert!(rt; members.iter().next()?.0.as_str() == "a");
/// assert!(rt; members.get("b")?.count() == Some(1));
/// ```
#[cycle(tree)]
#[derive(Drop)]
pub struct Members {
    entries: Vec<(String, Tree)>,
}

impl Model for Members {
    ghost use Rattle.std.specs.Prelude.{◌+◌, String, vec_capacity};
    ghost use Rattle.std.specs.declared.alloc.Global.{Global};
    ghost use Rattle.std.specs.contracts.alloc.Global as global;
    ghost use Rattle.std.specs.contracts.string.String as text;
    ghost use Rattle.std.specs.contracts.impls.GlobalAllocator.TheImpl.{ghosts};
    ghost use Rattle.std_collections.specs.Layout.Columns.{Rows, rows_code};
    ghost use Rattle.relay_tree.specs.Document.{Document, members_weight};
    ghost use Rattle.relay_tree.specs.Code.{document_code};

    ghost Value = { Rows (String Global) Document };

    ghost coded = { rows_code (text.the_row global.the_row ghosts).coded document_code };

    ghost use Rattle.relay_tree.specs.Entries.{IsAscending};
    ghost use Rattle.relay_tree.specs.Seen.{members_of};

    ghost view = { λ m. record { entries = m.entries.items; capacity = vec_capacity m.entries } };

    ghost invariant = { λ m. IsAscending m.entries.items };

    ghost size = { λ m. members_weight (members_of m.entries) + 1 };

    ghost use Rattle.std.proofs.Common.{arith};
    ghost use Rattle.relay_tree.specs.Falls.{entries_fall};

    ghost size_decreases = { λ m h. omega (arith, entries_fall m.entries) };
}

impl Members {
    ghost use Rattle.std.specs.Prelude.{◌≡◌, ◌<◌, ◌≤◌, [], length, string_bytes, string_cmp, IsOk};
    ghost use Rattle.std.specs.Prelude.{IfNone, IfOk, OnOk, OnErr, option_copied, is_some};
    ghost use Rattle.std.specs.Prelude.{if◌then◌else◌};
    ghost use Rattle.std.specs.Borrow.{LendsSo, sem};
    ghost use Rattle.std.specs.BTreeMap.{is_at, insert_entry};
    ghost use Rattle.std.specs.Map.{remove_entry};
    ghost use Rattle.std.specs.Option.{option_copied_mut};
    ghost use Rattle.relay_tree.specs.contracts.members.Members.{the_row};
    ghost use Rattle.relay_tree.specs.contracts.tree.Tree as tree;
    ghost use Rattle.std.specs.List.Sorted.{IsSearchInRange};
    ghost use Rattle.std_collections.specs.Layout.BTreeMap.{seek};
    ghost use Rattle.relay_tree.specs.Entries.{compared, grown_capacity, order_to};
    ghost use Rattle.relay_tree.specs.Entries.{refilled_entries, value_at, with_value, IsAscending};

    /// Returns no members. Allocates nothing.
    ///
    /// ```
    /// assert!(rt; Members::new(alloc).len() == 0);
    /// ```
    pub fn new(alloc: Global) -> Members
        ensures { result.entries ≡ [] }
    {
        Members {
            entries: Vec::new(alloc),
        }
    }

    /// Returns no members, with capacity for so many.
    ///
    /// ```
    /// let mut members = Members::with_capacity(alloc, 1).ok()?;
    /// members.insert(String::from_str(alloc, "a").ok()?, Tree::of_count(1)).ok()?;
    /// assert!(rt; members.len() == 1);
    /// ```
    pub fn with_capacity(alloc: Global, len: usize) -> Result<Members, AllocError>
        ensures { IfOk result (λ members. (members.entries ≡ []) × (len ≤ members.capacity)) }
    {
        Ok(Members {
            entries: Vec::with_capacity(alloc, len)?,
        })
    }

    /// Returns how many there are.
    ///
    /// ```
    /// let board = read(alloc, r#"{"a": 1, "b": 2, "a": 3}"#).ok()?;
    /// let Node::Members(members) = &board.node else {
    ///     return None;
    /// };
    /// // A name that stands twice counts once.
    /// assert!(rt; members.len() == 2);
    /// ```
    pub fn len(&self) -> usize
        ensures len { result ≡ length self.now.entries }
        ensures ascending { IsAscending self.now.entries }
    {
        self.entries.len()
    }

    /// Returns the names and values, in the order of the names.
    ///
    /// ```
    /// let board = read(alloc, r#"{"b": 1, "a": 2}"#).ok()?;
    /// let Node::Members(members) = &board.node else {
    ///     return None;
    /// };
    /// let mut names = members.iter().map(|(name, _)| name.as_str());
    /// assert!(rt; names.next() == Some("a") && names.next() == Some("b") && names.next() == None);
    /// ```
    pub fn iter(&self) -> slice::Iter<'_, (String, Tree)>
        ensures rest { result.rest.now ≡ self.now.entries }
        ensures ascending { IsAscending self.now.entries }
    {
        self.entries.iter()
    }

    /// Gives up the object for its names and values, in the order of the names.
    pub(crate) fn into_entries(self) -> Vec<(String, Tree)>
        ensures entries { result.items ≡ self.entries }
        ensures ascending { IsAscending self.entries }
    {
        let Members { entries } = self;
        entries
    }

    /// Returns the value under a name.
    ///
    /// ```
    /// let mut members = Members::new(alloc);
    /// members.insert(String::from_str(alloc, "a").ok()?, Tree::of_count(1)).ok()?;
    /// assert!(rt; members.get("a")?.count() == Some(1) && members.get("b").is_none());
    /// ```
    pub fn get(&self, name: &str) -> Option<&Tree>
        ensures { option_copied result ≡ value_at self.now.entries name.now }
    {
        match self.find(name) {
            Ok(at) => Some(&self.entries[at].1),
            Err(_) => None,
        }
    }

    /// Borrows the value under a name for writing. Only what is written there changes.
    ///
    /// ```
    /// let mut members = Members::new(alloc);
    /// members.insert(String::from_str(alloc, "a").ok()?, Tree::of_count(1)).ok()?;
    /// members.get_mut("a")?.node = Node::Null;
    /// assert!(rt; members.get("a")?.text(alloc).ok()?.as_str() == "null");
    /// ```
    pub fn get_mut(&mut self, name: &str) -> Option<&mut Tree>
        ensures* writes_back { sem 𝓛 (LendsSo the_row tree.the_row self.entry result
            (λ n value. n ≡ with_value self.old name.now value) (λ n. n ≡ self.old)) }
        ensures value { option_copied_mut result ≡ value_at self.old.entries name.now }
    {
        match self.find(name) {
            Ok(at) => Some(&mut self.entries[at].1),
            Err(_) => None,
        }
    }

    /// If there is no place for one more, makes it: for a quarter more than there are, and one, so
    /// that an insertion is cheap on average. If memory runs out, the members are unchanged.
    ///
    /// ```
    /// let mut members = Members::new(alloc);
    /// members.reserve().ok()?;
    /// // This insertion allocates nothing.
    /// members.insert(String::from_str(alloc, "a").ok()?, Tree::of_count(1)).ok()?;
    /// assert!(rt; members.len() == 1);
    /// ```
    pub fn reserve(&mut self) -> Result<(), AllocError>
        ensures entries { self.new.entries ≡ self.old.entries }
        ensures ok { OnOk result (length self.new.entries < self.new.capacity) }
        ensures err { OnErr result (self.new ≡ self.old) }
        ensures space { length self.old.entries < self.old.capacity → IsOk result }
        ensures growth { OnOk result
            (self.new.capacity ≡ grown_capacity (length self.old.entries) self.old.capacity) }
    {
        let len = self.entries.len();
        if len < self.entries.capacity() {
            return Ok(());
        }
        self.entries.reserve_exact(len / 4 + 1)
    }

    /// Puts a value under a name, and returns the one that stood there. Makes place as
    /// [`Members::reserve`] does, if the name is new. If memory runs out, the members are
    /// unchanged.
    ///
    /// ```
    /// let mut members = Members::new(alloc);
    /// let none = members.insert(String::from_str(alloc, "a").ok()?, Tree::of_count(1)).ok()?;
    /// let one = members.insert(String::from_str(alloc, "a").ok()?, Tree::of_count(2)).ok()?;
    /// assert!(rt; none.is_none() && one?.count() == Some(1) && members.len() == 1);
    /// ```
    pub fn insert(&mut self, name: String, value: Tree) -> Result<Option<Tree>, AllocError>
        ensures entries { OnOk result
            (self.new.entries ≡ insert_entry string_cmp self.old.entries name value) }
        ensures old { IfOk result (λ old. old ≡ value_at self.old.entries (string_bytes name)) }
        ensures err { OnErr result (self.new ≡ self.old) }
        ensures space { length self.old.entries < self.old.capacity → IsOk result }
        ensures ascending { IsAscending self.old.entries }
        ensures growth { IfOk result
            (λ old. self.new.capacity ≡ (if is_some old then self.old.capacity
            else grown_capacity (length self.old.entries) self.old.capacity)) }
    {
        match self.find(name.as_str()) {
            Ok(at) => Ok(Some(replace(&mut self.entries[at].1, value))),
            Err(at) => {
                self.reserve()?;
                self.entries.insert(at, (name, value))?;
                Ok(None)
            }
        }
    }

    /// Removes a member and returns its value. Allocates nothing.
    ///
    /// ```
    /// let mut members = Members::new(alloc);
    /// members.insert(String::from_str(alloc, "a").ok()?, Tree::of_count(1)).ok()?;
    /// assert!(rt; members.remove("a")?.count() == Some(1) && members.remove("a").is_none());
    /// ```
    pub fn remove(&mut self, name: &str) -> Option<Tree>
        ensures value { result ≡ value_at self.old.entries name.now }
        ensures entries { self.new.entries
            ≡ remove_entry (is_at (compared name.now)) self.old.entries }
        ensures unchanged { IfNone result (self.new ≡ self.old) }
        ensures place { self.new.capacity ≤ self.old.capacity }
    {
        match self.find(name) {
            Ok(at) => {
                let entry = self.entries.remove(at);
                self.trim();
                Some(entry.1)
            }
            Err(_) => None,
        }
    }

    /// Puts a member back that was removed, without allocating: where there is place for one more,
    /// or else into `spare`, which takes over all members. Does nothing if `spare` has no place.
    ///
    /// ```
    /// let mut members = Members::new(alloc);
    /// let spare = Members::with_capacity(alloc, 1).ok()?;
    /// members.put_back(String::from_str(alloc, "a").ok()?, Tree::of_count(1), spare);
    /// assert!(rt; members.get("a")?.count() == Some(1));
    /// ```
    pub fn put_back(&mut self, name: String, value: Tree, spare: Members)
        ensures entries { self.new.entries
            ≡ refilled_entries spare.capacity name value self.old.entries }
    {
        if self.entries.len() >= spare.entries.capacity() {
            return;
        }
        if self.entries.len() == self.entries.capacity() {
            self.move_to(spare);
        }
        drop(self.insert(name, value).unwrap());
    }

    /// Moves all members into the place of others, which are dropped.
    fn move_to(&mut self, spare: Members)
        requires { length self.old.entries < spare.capacity }
        ensures entries { self.new.entries ≡ self.old.entries }
        ensures space { length self.new.entries < self.new.capacity }
    {
        let mut whole = spare.entries;
        whole.clear();
        whole.append(&mut self.entries).unwrap();
        self.entries = whole;
    }

    /// Gives back what is empty, once it is more than a quarter of the place.
    pub(crate) fn trim(&mut self)
        ensures entries { self.new.entries ≡ self.old.entries }
        ensures place { self.new.capacity ≤ self.old.capacity }
    {
        let len = self.entries.len();
        if self.entries.capacity() - len > len / 3 {
            self.entries.shrink_to_fit();
        }
    }

    /// Returns the index of a name, or else the one at which it would be inserted.
    #[tactic(auto, using(crate::proofs::Finding::sought))]
    fn find(&self, name: &str) -> Result<usize, usize>
        ensures place { result ≡ seek (compared name.now) self.now.entries }
        ensures range { IsSearchInRange result (length self.now.entries) }
    {
        self.entries.binary_search_by(
            |entry| -> Ordering
                ensures { result ≡ order_to name.entry.now entry.now }
            { entry.0.as_str().cmp(name) },
        )
    }
}
