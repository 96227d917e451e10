//! A path into a document.
ghost use Rattle.std.specs.Prelude.{◌≡◌, IfOk};
ghost use Rattle.relay_pointer.specs.Path.{path_of, is_proper_prefix, same_path};

use std::alloc::{AllocError, Global};
use std::marker::Model;
use std::rc::Rc;

/// A path into a document, as the list of its tokens. Copies share the tokens by reference count.
/// The root has none to share. Contracts see each token as its bytes, with nothing escaped.
///
/// ```
/// // RFC 6901, section 4: "~01" stands for "~1".
/// let pointer = Pointer::read(alloc, "/cards/~01", 64).ok()?;
/// assert!(rt; pointer.tokens().len() == 2 && pointer.tokens()[1].as_str() == "~1");
/// ```
#[derive(Drop)]
pub struct Pointer {
    tokens: Option<Rc<Vec<String>>>,
}

impl Model for Pointer {
    ghost use Rattle.std.specs.Prelude.{[]};
    ghost use Rattle.std.specs.Option.{option_map_or};
    ghost use Rattle.relay_pointer.specs.Path.{Path, path_of};

    ghost Value = { Path };

    ghost view = { λ p. option_map_or (λ tokens. path_of tokens.value.items) p.tokens [] };
}

impl Pointer {
    ghost use Rattle.std.specs.Prelude.{◌≡◌, [], IfOk};
    ghost use Rattle.relay_pointer.specs.Path.{path_of, is_prefix, is_proper_prefix};

    /// Returns the path without tokens, which leads to the whole document. Allocates nothing.
    ///
    /// ```
    /// let board = read(alloc, "[7]").ok()?;
    /// assert!(rt; Pointer::root().tokens().is_empty());
    /// assert!(rt; resolve(&board, &Pointer::root())?.same(&board));
    /// ```
    pub fn root() -> Pointer
        ensures { result ≡ [] }
    {
        Pointer { tokens: None }
    }

    /// Returns the path of these tokens. Allocates nothing.
    ///
    /// ```
    /// let mut tokens = Vec::new(alloc);
    /// tokens.push(String::from_str(alloc, "a/b").ok()?).ok()?;
    /// let pointer = Pointer::from_tokens(Rc::new(alloc, tokens).ok()?);
    /// assert!(rt; pointer.text(alloc).ok()?.as_str() == "/a~1b");
    /// ```
    pub fn from_tokens(tokens: Rc<Vec<String>>) -> Pointer
        ensures { result ≡ path_of tokens.value.items }
    {
        Pointer {
            tokens: Some(tokens),
        }
    }

    /// Returns the path of copies of these tokens.
    ///
    /// ```
    /// let cards = Pointer::read(alloc, "/cards/0", 64).ok()?;
    /// let list = Pointer::copied(alloc, cards.tokens().get(..1)?).ok()?;
    /// assert!(rt; list.text(alloc).ok()?.as_str() == "/cards");
    /// ```
    pub fn copied(alloc: Global, tokens: &[String]) -> Result<Pointer, AllocError>
        ensures { IfOk result (λ pointer. pointer ≡ path_of tokens.now) }
    {
        let copies = copy_tokens(alloc, tokens)?;
        Ok(Pointer::from_tokens(Rc::new(alloc, copies)?))
    }

    /// Returns the tokens, in order.
    ///
    /// ```
    /// let pointer = Pointer::read(alloc, "/cards/0", 64).ok()?;
    /// assert!(rt; pointer.tokens()[0].as_str() == "cards" && pointer.tokens()[1].as_str() == "0");
    /// ```
    pub fn tokens(&self) -> &[String]
        ensures { path_of result.now ≡ self.now }
    {
        match &self.tokens {
            Some(tokens) => tokens.as_ref().as_slice(),
            None => &[],
        }
    }

    /// Returns an equal pointer, which shares the tokens. Allocates nothing. `AllocError`: there
    /// are as many copies as can be counted. Copies of the root are not counted.
    ///
    /// ```
    /// let pointer = Pointer::read(alloc, "/cards/0", 64).ok()?;
    /// let copy = pointer.copy().ok()?;
    /// assert!(rt; same_path(copy.tokens(), pointer.tokens()));
    /// ```
    pub fn copy(&self) -> Result<Pointer, AllocError>
        ensures { IfOk result (λ copy. copy ≡ self.now) }
    {
        match &self.tokens {
            Some(tokens) => Ok(Pointer::from_tokens(tokens.clone()?)),
            None => Ok(Pointer::root()),
        }
    }

    /// Returns whether the other path begins with this one or is this one. Allocates nothing.
    ///
    /// ```
    /// let cards = Pointer::read(alloc, "/cards", 64).ok()?;
    /// let card = Pointer::read(alloc, "/cards/0", 64).ok()?;
    /// assert!(rt; cards.is_prefix(&card) && cards.is_prefix(&cards) && !card.is_prefix(&cards));
    /// ```
    pub fn is_prefix(&self, other: &Pointer) -> bool
        ensures { result ≡ is_prefix self.now other.now }
    {
        other.tokens().starts_with(self.tokens())
    }

    /// Returns whether the other path begins with this one and is longer. Allocates nothing.
    ///
    /// ```
    /// let cards = Pointer::read(alloc, "/cards", 64).ok()?;
    /// let card = Pointer::read(alloc, "/cards/0", 64).ok()?;
    /// assert!(rt; cards.is_proper_prefix(&card) && !cards.is_proper_prefix(&cards));
    /// ```
    pub fn is_proper_prefix(&self, other: &Pointer) -> bool
        ensures { result ≡ is_proper_prefix self.now other.now }
    {
        is_proper_prefix(self.tokens(), other.tokens())
    }
}

/// Returns equal tokens in memory of their own.
///
/// ```
/// let pointer = Pointer::read(alloc, "/a~1b", 64).ok()?;
/// let tokens = copy_tokens(alloc, pointer.tokens()).ok()?;
/// assert!(rt; tokens.len() == 1 && tokens[0].as_str() == "a/b");
/// ```
pub fn copy_tokens(alloc: Global, tokens: &[String]) -> Result<Vec<String>, AllocError>
    ensures { IfOk result (λ copies. path_of copies.items ≡ path_of tokens.now) }
{
    let mut copies = Vec::with_capacity(alloc, tokens.len())?;
    for token in tokens {
        copies.push(token.clone()?)?;
    }
    Ok(copies)
}

fn is_proper_prefix(path: &[String], other: &[String]) -> bool
    ensures { result ≡ is_proper_prefix (path_of path.now) (path_of other.now) }
{
    let [next, onward @ ..] = other else {
        return false;
    };
    let [token, rest @ ..] = path else {
        return true;
    };
    token == next && is_proper_prefix(rest, onward)
}

/// Returns whether two lists of tokens are the same path. Allocates nothing.
///
/// ```
/// let one = Pointer::read(alloc, "/cards/0", 64).ok()?;
/// let other = Pointer::read(alloc, "/cards/1", 64).ok()?;
/// assert!(rt; same_path(one.tokens(), one.tokens()));
/// assert!(rt; !same_path(one.tokens(), other.tokens()));
/// ```
pub fn same_path(path: &[String], other: &[String]) -> bool
    ensures { result ≡ same_path (path_of path.now) (path_of other.now) }
{
    let [token, rest @ ..] = path else {
        return other.is_empty();
    };
    let [next, onward @ ..] = other else {
        return false;
    };
    token == next && same_path(rest, onward)
}
