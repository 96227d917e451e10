//! The position of a slot in a view.
ghost use Rattle.std.specs.Prelude.{◌≡◌, [], ◌∷◌, drop, string_bytes, IfOk};
ghost use Rattle.relay_pointer.specs.Index.{index_text};
ghost use Rattle.relay_pointer.specs.Path.{path_of};
ghost use Rattle.relay_translate.specs.Translate.{in_slot};

use relay_pointer::Pointer;
use std::alloc::{AllocError, Global};
use std::rc::Rc;

/// The number of a slot in its view, counted from 0, and the slot's pointer.
#[derive(Clone, Copy)]
pub(crate) struct Site<'v> {
    pub number: u64,
    pub pointer: &'v Pointer,
}

impl Site<'_> {
    /// Returns `/k`, the path of the slot in the view.
    pub fn place(&self, alloc: Global) -> Result<Pointer, AllocError>
        ensures { IfOk result (λ path. path ≡ index_text self.now.number ∷ []) }
    {
        let mut tokens = Vec::new(alloc);
        tokens.push(index_text(alloc, self.number)?)?;
        Ok(Pointer::from_tokens(Rc::new(alloc, tokens)?))
    }

    /// Returns `/k/0`, the path of the slot's value in the view, followed by the tokens of the path
    /// after the slot's pointer.
    pub fn path(&self, alloc: Global, path: &Pointer) -> Result<Pointer, AllocError>
        ensures { IfOk result
            (λ inner. inner ≡ in_slot self.now.number self.now.pointer.now path.now) }
    {
        let mut tokens = Vec::new(alloc);
        tokens.push(index_text(alloc, self.number)?)?;
        tokens.push(String::from_str(alloc, "0")?)?;
        for token in tokens_behind(path, self.pointer.tokens().len()) {
            tokens.push(token.clone()?)?;
        }
        Ok(Pointer::from_tokens(Rc::new(alloc, tokens)?))
    }
}

/// Returns the token that is the index `number` (RFC 6901, section 4).
fn index_text(alloc: Global, number: u64) -> Result<String, AllocError>
    ensures { IfOk result (λ token. string_bytes token ≡ index_text number) }
{
    number.to_string(alloc)
}

/// Returns the tokens of a path after the first `count`.
fn tokens_behind(path: &Pointer, count: usize) -> &[String]
    ensures { path_of result.now ≡ drop count path.now }
{
    match path.tokens().get(count..) {
        Some(rest) => rest,
        None => &[],
    }
}
