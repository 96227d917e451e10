//! The writer of views as JSON, token by token.
ghost use Rattle.std.specs.Prelude.{◌≡◌, ◌++◌, OnOk};
ghost use Rattle.relay_tree.specs.Text.{tokens_of, ReadsBack};
ghost use Rattle.relay_view.specs.View.{view};

use crate::view::View;
use json::Writer;
use relay_tree::Tree;
use std::alloc::AllocError;

impl View {
    /// Appends the list of slots to the output, each value straight from the document. Costs the
    /// length of its text and copies nothing. If memory runs out, some of its first tokens may have
    /// been written.
    ///
    /// ```
    /// let view = View::read(alloc, &read(alloc, r#"["/n", "/m"]"#).ok()?).ok()?;
    /// let mut out = begin_text(alloc).ok()?;
    /// view.write(&read(alloc, r#"{"n": [1]}"#).ok()?, &mut out).ok()?;
    /// assert!(rt; end_text(out).as_str() == "[[[1]],[]]");
    /// ```
    pub fn write(&self, document: &Tree, out: &mut Writer) -> Result<(), AllocError>
        ensures tokens { OnOk result
            (out.new.tokens ≡ out.old.tokens ++ tokens_of (view self.now document.now)) }
        ensures before { out.new.before ≡ out.old.before }
        ensures reads_back { OnOk result (ReadsBack (view self.now document.now)) }
    {
        out.begin_array()?;
        for slot in self.slots() {
            slot.write(document, out)?;
        }
        out.end_array()
    }
}
