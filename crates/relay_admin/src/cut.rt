//! Parts of a text.
ghost use Rattle.std.specs.Prelude.{◌≡◌, ◌<◌, option_copied};
ghost use Rattle.relay_admin.specs.Cut.{behind, until, after};

/// Returns what stands behind a prefix, if the text begins with it.
pub(crate) fn behind<'a>(text: &'a str, prefix: &str) -> Option<&'a str>
    ensures { option_copied result ≡ behind prefix.now text.now }
{
    text.strip_prefix(prefix)
}

/// Returns what stands before the first mark, which must be ASCII, and what stands behind it, if
/// there is one.
pub(crate) fn cut(text: &str, mark: char) -> (&str, Option<&str>)
    requires { mark < 128 }
    ensures before { result.0.now ≡ until mark text.now }
    ensures behind { option_copied result.1 ≡ after mark text.now }
{
    match text.split_once(mark) {
        Some((before, behind)) => (before, Some(behind)),
        None => (text, None),
    }
}
