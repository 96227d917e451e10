//! A reader of pointers (RFC 6901, section 3). A text is checked and its tokens are counted before
//! the first token is built.
ghost use Rattle.std.specs.Prelude.{◌≡◌, ◌<◌, ◌≤◌, ◌==◌, Some, None, IfOk, IfErr, IsSome};
ghost use Rattle.std.specs.Prelude.{IsSomeAnd, IfSome, IsNone, is_some, ◌∷◌, length, count_by};
ghost use Rattle.std.specs.Prelude.{string_bytes};
ghost use Rattle.std.specs.List.{slice_split};
ghost use Rattle.std.specs.Option.{option_map};
ghost use Rattle.relay_pointer.specs.Path.{path_of};
ghost use Rattle.relay_pointer.specs.Spelling.{Spells, SpellsNone, path_of_text, is_escaped};
ghost use Rattle.relay_pointer.specs.Spelling.{begins_escape, tokens_of, unescaped, after_tilde};
ghost use Rattle.relay_pointer.specs.declared.reading.PointerFault.TheVariants.{BadPointer};
ghost use Rattle.relay_pointer.specs.declared.reading.PointerFault.TheVariants.{TooManyTokens};
ghost use Rattle.relay_pointer.specs.declared.reading.PointerFault.TheVariants.{NoMemory};

use crate::pointer::Pointer;
use std::alloc::{AllocError, Global};
use std::rc::Rc;
use thiserror::Error;

/// The most tokens of a pointer in a request.
pub const MAX_TOKENS: u64 = 64;

/// The faults of a text that does not read as a pointer, in the order of the checks.
///
/// ```
/// // Behind `~` there has to be a 0 or a 1.
/// assert!(rt; matches!(Pointer::read(alloc, "/a~2", 64), Err(PointerFault::BadPointer)));
/// assert!(rt; matches!(Pointer::read(alloc, "/a/b", 1), Err(PointerFault::TooManyTokens)));
/// ```
#[derive(Clone, Copy, Debug, PartialEq, Eq, Error)]
pub enum PointerFault {
    /// The text is not empty and does not begin with `/`, or a `~` in it is not followed by `0` or
    /// `1`.
    #[error("not a JSON pointer")]
    BadPointer,
    /// The text spells more tokens than the caller accepts.
    #[error("too many tokens")]
    TooManyTokens,
    #[error("out of memory")]
    NoMemory,
}

impl From<AllocError> for PointerFault {
    ghost from_gives = { λ _ fault. fault ≡ NoMemory };

    fn from(_: AllocError) -> PointerFault {
        PointerFault::NoMemory
    }
}

impl Pointer {
    /// Reads the pointer that a text spells, of at most `most` tokens. Costs the text's length in
    /// time and memory. The whole text is checked before anything is allocated.
    ///
    /// ```
    /// let pointer = Pointer::read(alloc, "/a~1b/0", 64).ok()?;
    /// assert!(rt; pointer.tokens()[0].as_str() == "a/b" && pointer.tokens()[1].as_str() == "0");
    /// assert!(rt; pointer.text(alloc).ok()?.as_str() == "/a~1b/0");
    /// assert!(rt; matches!(Pointer::read(alloc, "a", 64), Err(PointerFault::BadPointer)));
    /// assert!(rt; matches!(Pointer::read(alloc, "/a/0", 1), Err(PointerFault::TooManyTokens)));
    /// ```
    pub fn read(alloc: Global, text: &str, most: u64) -> Result<Pointer, PointerFault>
        ensures ok { IfOk result (λ pointer. path_of_text text.now ≡ Some pointer) }
        ensures spelled { IfOk result (λ pointer. Spells text.now pointer) }
        ensures few { IfOk result (λ pointer. length pointer ≤ most) }
        ensures bad { IfErr result (λ fault. fault ≡ BadPointer → path_of_text text.now ≡ None) }
        ensures unspelled { IfErr result (λ fault. fault ≡ BadPointer → SpellsNone text.now) }
        ensures many { IfErr result
            (λ fault. fault ≡ TooManyTokens
            → IsSomeAnd (path_of_text text.now) (λ path. most < length path)) }
        ensures no_memory { IfErr result
            (λ fault. fault ≡ NoMemory
            → IsSomeAnd (path_of_text text.now) (λ path. length path ≤ most)) }
    {
        if !is_pointer(text) {
            return Err(PointerFault::BadPointer);
        }
        if count_tokens(text) > most {
            return Err(PointerFault::TooManyTokens);
        }
        Ok(pointer_of(alloc, text)?)
    }
}

fn is_pointer(text: &str) -> bool
    ensures { result ≡ is_some (path_of_text text.now) }
{
    text.is_empty() || text.starts_with('/') && is_escaped(text)
}

// Whether each `~` is followed by `0` or `1`.
fn is_escaped(text: &str) -> bool
    ensures { result ≡ is_escaped text.now }
{
    let mut rest = text;
    while let Some((_, behind)) = rest.split_once('~') {
        if escape(behind).is_none() {
            return false;
        }
        rest = behind;
    }
    true
}

// A text that spells a path has one token for each `/`.
fn count_tokens(text: &str) -> u64
    ensures { result ≡ count_by (λ b. b == 47) text.now }
{
    text.bytes().filter(|byte| *byte == b'/').count() as u64
}

// The pointer that a text spells. The empty text spells the root, which takes no memory.
fn pointer_of(alloc: Global, text: &str) -> Result<Pointer, AllocError>
    requires { IsSome (path_of_text text.now) }
    ensures { IfOk result (λ pointer. path_of_text text.now ≡ Some pointer) }
{
    let Some(written) = text.strip_prefix('/') else {
        return Ok(Pointer::root());
    };
    let tokens = tokens_behind(alloc, written)?;
    Ok(Pointer::from_tokens(Rc::new(alloc, tokens)?))
}

// The tokens of a text after its first `/`.
fn tokens_behind(alloc: Global, written: &str) -> Result<Vec<String>, AllocError>
    requires { IsSome (tokens_of (slice_split (λ b. b == 47) written.now)) }
    ensures { IfOk result
        (λ tokens. tokens_of (slice_split (λ b. b == 47) written.now)
        ≡ Some (path_of tokens.items)) }
{
    let mut tokens = Vec::new(alloc);
    for part in written.split('/') {
        tokens.push(unescaped(alloc, part)?)?;
    }
    Ok(tokens)
}

// The token that a text without a `/` spells.
fn unescaped(alloc: Global, written: &str) -> Result<String, AllocError>
    requires { IsSome (unescaped written.now) }
    ensures { IfOk result (λ token. unescaped written.now ≡ Some (string_bytes token)) }
{
    let mut token = String::new(alloc);
    let mut rest = written;
    while let Some((plain, behind)) = rest.split_once('~') {
        token.push_str(plain)?;
        let (character, after) = escape(behind).unwrap();
        token.push(character)?;
        rest = after;
    }
    token.push_str(rest)?;
    Ok(token)
}

// The character that an escape stands for, given the text after its `~`, and the text after the
// escape.
fn escape(behind: &str) -> Option<(char, &str)>
    ensures found { IfSome result
        (λ found. after_tilde behind.now ≡ option_map (λ t. found.0 ∷ t) (unescaped found.1.now)) }
    ensures ascii { IfSome result (λ found. found.0 < 128) }
    ensures shorter { IfSome result (λ found. length found.1.now < length behind.now) }
    ensures missing { IsNone result → after_tilde behind.now ≡ None }
    ensures is_there { is_some result ≡ begins_escape behind.now }
{
    if let Some(after) = behind.strip_prefix('0') {
        return Some(('~', after));
    }
    let after = behind.strip_prefix('1')?;
    Some(('/', after))
}
