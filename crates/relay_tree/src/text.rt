//! JSON texts of trees (RFC 8259).
ghost use Rattle.std.specs.Prelude.{◌≡◌, ◌≤◌, Some, [], IfOk, string_bytes};
ghost use Rattle.json.specs.Lex.{tokens};
ghost use Rattle.json.specs.Print.{print};
ghost use Rattle.serde_json.specs.Data.{depth as json_depth};
ghost use Rattle.serde_json.specs.Read.{max_depth};
ghost use Rattle.relay_tree.specs.Text.{data_of, text_of, tree_of_text};

use crate::tree::Tree;
use json::Writer;
use std::alloc::{AllocError, Global};

/// The initial capacity of a text, in bytes.
const INITIAL_CAPACITY: usize = 128;

impl Tree {
    /// Returns the compact text: no white space, member names in byte order, whole numbers in
    /// decimal. The text of a tree that nests at most 127 containers reads back as that tree. Costs
    /// that one text and copies no part of the tree.
    ///
    /// ```
    /// let board = read(alloc, r#"{ "b": [true, null], "a": -7 }"#).ok()?;
    /// assert!(rt; board.text(alloc).ok()?.as_str() == r#"{"a":-7,"b":[true,null]}"#);
    /// ```
    pub fn text(&self, alloc: Global) -> Result<String, AllocError>
        ensures text { IfOk result (λ text. string_bytes text ≡ text_of self.now) }
        ensures reads_back { IfOk result
            (λ text. json_depth (data_of self.now) ≤ max_depth
            → tree_of_text (string_bytes text) ≡ Some self.now) }
    {
        let mut out = begin_text(alloc)?;
        self.write(&mut out)?;
        Ok(end_text(out))
    }
}

/// Returns a writer that has written nothing.
///
/// ```
/// let mut out = begin_text(alloc).ok()?;
/// read(alloc, "[1, 2]").ok()?.write(&mut out).ok()?;
/// assert!(rt; end_text(out).as_str() == "[1,2]");
/// ```
pub fn begin_text(alloc: Global) -> Result<Writer, AllocError>
    ensures before { IfOk result (λ out. out.before ≡ []) }
    ensures tokens { IfOk result (λ out. out.tokens ≡ []) }
{
    Ok(Writer::new(Vec::with_capacity(alloc, INITIAL_CAPACITY)?))
}

/// Returns the text that a writer wrote, if it began with an empty buffer. Allocates nothing.
///
/// ```
/// let mut out = begin_text(alloc).ok()?;
/// Tree::of_count(7).write(&mut out).ok()?;
/// assert!(rt; end_text(out).as_str() == "7");
/// ```
pub fn end_text(out: Writer) -> String
    requires { out.before ≡ [] }
    ensures text { string_bytes result ≡ print out.tokens }
    ensures reads_back { tokens (string_bytes result) ≡ out.tokens }
{
    let Ok(text) = String::from_utf8(out.into_inner()) else {
        unreachable!()
    };
    text
}
