//! The state of a client.
use relay_tree::Tree;
use std::marker::Model;

/// A client's view: nothing, or a revision and the view of that revision. Contracts see it as that
/// option.
///
/// ```
/// let mut follower = Follower::new();
/// follower.hear(alloc, r#"{"id":2,"kind":"watching"}"#).ok()?;
/// assert!(rt; follower.view().is_none());
/// follower.hear(alloc, r#"{"kind":"snapshot","rev":1,"view":[[[]]]}"#).ok()?;
/// assert!(rt; follower.view()?.text(alloc).ok()?.as_str() == "[[[]]]");
/// ```
#[derive(Drop)]
pub struct Follower {
    pub(crate) held: Option<(u64, Tree)>,
}

impl Model for Follower {
    ghost use Rattle.std.specs.Prelude.{ℕ, Option};
    ghost use Rattle.relay_tree.specs.Document.{Document};

    ghost Value = { Option (ℕ × Document) };

    ghost use Rattle.std.specs.Coded.{codes};
    ghost use Rattle.relay_tree.specs.Code.{document_code};

    ghost coded = { Prim.hlevel (codes, document_code) };

    ghost view = { λ f. f.held };
}

impl Follower {
    ghost use Rattle.std.specs.Prelude.{◌≡◌, None, Some, option_map, option_copied};

    /// Creates a follower that holds nothing. Allocates nothing.
    ///
    /// ```
    /// let follower = Follower::new();
    /// assert!(rt; follower.rev() == None && follower.view().is_none());
    /// ```
    pub fn new() -> Follower
        ensures { result ≡ None }
    {
        Follower { held: None }
    }

    /// Creates a follower that holds the view of a revision, as a client does that resumes.
    /// Allocates nothing.
    ///
    /// ```
    /// let mut follower = Follower::from_view(3, read(alloc, r#"[["a"]]"#).ok()?);
    /// let patch = r#"{"kind":"patch","patch":[{"op":"remove","path":"/0/0"}],"rev":4}"#;
    /// follower.hear(alloc, patch).ok()?;
    /// assert!(rt; follower.view()?.text(alloc).ok()?.as_str() == "[[]]");
    /// ```
    pub fn from_view(rev: u64, tree: Tree) -> Follower
        ensures { result ≡ Some (rev, tree) }
    {
        Follower {
            held: Some((rev, tree)),
        }
    }

    /// Returns the held view, the list of its slots, or `None` if none is held. Allocates nothing.
    ///
    /// ```
    /// let follower = Follower::from_view(3, read(alloc, "[[7]]").ok()?);
    /// assert!(rt; follower.view()?.text(alloc).ok()?.as_str() == "[[7]]");
    /// ```
    pub fn view(&self) -> Option<&Tree>
        ensures { option_copied result ≡ option_map (λ held. held.1) self.now }
    {
        self.held.as_ref().map(|held| &held.1)
    }

    /// Returns the revision of the held view, or `None` if none is held. Allocates nothing.
    ///
    /// ```
    /// let mut follower = Follower::new();
    /// follower.hear(alloc, r#"{"kind":"snapshot","rev":1,"view":[[[]]]}"#).ok()?;
    /// assert!(rt; follower.rev() == Some(1));
    /// ```
    pub fn rev(&self) -> Option<u64>
        ensures { result ≡ option_map (λ held. held.0) self.now }
    {
        self.held.as_ref().map(|held| held.0)
    }
}
