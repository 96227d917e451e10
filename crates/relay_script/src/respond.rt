//! The trait of a state that answers lines.
ghost use Rattle.std.specs.Prelude.{IfOk, List, ℕ, string_bytes};

use std::alloc::{AllocError, Global};

/// Answers lines in order. An answer may depend on the lines before it.
///
/// ```
/// let mut script = Script::new(alloc, Hub::new(alloc, 1, FIRST_SESSION, 64, 32).ok()?);
/// let answer = script.respond(alloc, 1, "ann open board".as_bytes()).ok()?;
/// assert!(rt; answer.as_str() == "ann opened 1\n");
/// let comment = script.respond(alloc, 2, "# She is in.".as_bytes()).ok()?;
/// assert!(rt; comment.as_str() == "");
/// ```
pub trait Respond {
    // The state before the line, the line's number and bytes, the state after it, and the bytes of
    // the answer.
    ghost answers: { Self → ℕ → List ℕ → Self → List ℕ → Type 0 };

    /// Answers the next line: with whole lines, or with nothing. `number` counts from 1, and `line`
    /// has the bytes before the line feed.
    fn respond(&mut self, alloc: Global, number: u32, line: &[u8]) -> Result<String, AllocError>
        ensures { IfOk result
            (λ answer. answers self.old number line.now self.new (string_bytes answer)) };
}
