//! Texts of pointers (RFC 6901, section 3). Each path has one text, which reads back as the path.
ghost use Rattle.std.specs.Prelude.{◌≡◌, ◌++◌, IfOk, OnOk, flat_map, string_bytes};
ghost use Rattle.relay_pointer.specs.Path.{path_of};
ghost use Rattle.relay_pointer.specs.Spelling.{escaped, spelling};

use crate::pointer::Pointer;
use std::alloc::{AllocError, Global};

impl Pointer {
    /// Returns the text that spells this pointer. Costs the text's length in time and memory. If
    /// memory runs out, nothing stays allocated.
    ///
    /// ```
    /// let pointer = Pointer::read(alloc, "/m~0n/a~1b", 64).ok()?;
    /// assert!(rt; pointer.tokens()[0].as_str() == "m~n");
    /// assert!(rt; pointer.text(alloc).ok()?.as_str() == "/m~0n/a~1b");
    /// ```
    pub fn text(&self, alloc: Global) -> Result<String, AllocError>
        ensures { IfOk result (λ text. string_bytes text ≡ spelling self.now) }
    {
        spelling_of(alloc, self.tokens())
    }
}

fn spelling_of(alloc: Global, tokens: &[String]) -> Result<String, AllocError>
    ensures { IfOk result (λ text. string_bytes text ≡ spelling (path_of tokens.now)) }
{
    let mut text = String::new(alloc);
    for token in tokens {
        text.push('/')?;
        push_escaped(&mut text, token.as_str())?;
    }
    Ok(text)
}

fn push_escaped(text: &mut String, token: &str) -> Result<(), AllocError>
    ensures { OnOk result
        (string_bytes text.new ≡ string_bytes text.old ++ flat_map escaped token.now) }
{
    for character in token.chars() {
        if character == '~' {
            text.push_str("~0")?;
        } else if character == '/' {
            text.push_str("~1")?;
        } else {
            text.push(character)?;
        }
    }
    Ok(())
}
