//! Counts: whole numbers that every JSON reader keeps exactly (RFC 8259, section 6).
ghost use Rattle.std.specs.Prelude.{◌≡◌, ◌≤◌, pos};
ghost use Rattle.relay_tree.specs.Document.{whole};
ghost use Rattle.relay_tree.specs.Count.{count_of, count_in};

use crate::tree::{Node, Tree};
use relay_limits::MAX_COUNT;

impl Tree {
    /// Returns the tree as a count, or `None` if it is not a whole number from 0 to [`MAX_COUNT`].
    ///
    /// ```
    /// assert!(rt; read(alloc, "7").ok()?.count() == Some(7));
    /// // 2^53 is above the largest count.
    /// assert!(rt; read(alloc, "9007199254740992").ok()?.count() == None);
    /// assert!(rt; read(alloc, "-1").ok()?.count() == None);
    /// ```
    pub fn count(&self) -> Option<u64>
        ensures { result ≡ count_of self.now }
    {
        match &self.node {
            Node::Whole(number) => u64::try_from(*number).ok().filter(|n| *n <= MAX_COUNT),
            _ => None,
        }
    }

    /// Returns the member `name` as a count, or `None` if there is no such member or it is not a
    /// count.
    ///
    /// ```
    /// let done = read(alloc, r#"{"id":1,"kind":"done","rev":4}"#).ok()?;
    /// assert!(rt; done.count_at("rev") == Some(4) && done.count_at("kind") == None);
    /// ```
    pub fn count_at(&self, name: &str) -> Option<u64>
        ensures { result ≡ count_in self.now name.now }
    {
        self.member(name)?.count()
    }

    /// Returns the tree of a count, which is at most [`MAX_COUNT`].
    ///
    /// ```
    /// assert!(rt; Tree::of_count(4).same(&read(alloc, "4").ok()?));
    /// ```
    pub fn of_count(count: u64) -> Tree
        requires { count ≤ MAX_COUNT }
        ensures { result ≡ whole (pos count) }
    {
        Tree::from(Node::Whole(count as i64))
    }
}
