//! The words that name the reason of a refusal.
ghost use Rattle.std.specs.Prelude.{◌≡◌};
ghost use Rattle.relay_proto.specs.Words.{word_text, word_of_text};

/// The reason why a request is refused, in the order of the list in `docs/PROTOCOL.md`, "Messages".
/// That is not the order of the checks: an edit is checked for `Exhausted` and `Stale` before its
/// patch.
///
/// ```
/// let text = r#"{"at":0,"fault":"test-failed","id":1,"kind":"refused"}"#;
/// let Message::Reply(Reply::Refused { fault, at, .. }) = Message::read(alloc, text).ok()? else {
///     return None;
/// };
/// assert!(rt; fault == Word::TestFailed && at == Some(0));
/// ```
#[derive(Clone, Copy, Debug, PartialEq, Eq)]
pub enum Word {
    TooLong,
    NotJson,
    Number,
    Shape,
    TooMany,
    UnknownOp,
    Pointer,
    Missing,
    NotIndex,
    PastEnd,
    NoContainer,
    Root,
    IntoItself,
    TestFailed,
    TooDeep,
    TooHeavy,
    Exhausted,
    Stale,
    Future,
    ReadOnly,
}

impl Word {
    /// Returns the word with this text, or `None` if there is none.
    ///
    /// ```
    /// assert!(rt; Word::read("too-heavy") == Some(Word::TooHeavy));
    /// assert!(rt; Word::read("too-light") == None);
    /// ```
    pub fn read(text: &str) -> Option<Word>
        ensures { result ≡ word_of_text text.now }
    {
        match text {
            "too-long" => Some(Word::TooLong),
            "not-json" => Some(Word::NotJson),
            "number" => Some(Word::Number),
            "shape" => Some(Word::Shape),
            "too-many" => Some(Word::TooMany),
            "unknown-op" => Some(Word::UnknownOp),
            "pointer" => Some(Word::Pointer),
            "missing" => Some(Word::Missing),
            "not-index" => Some(Word::NotIndex),
            "past-end" => Some(Word::PastEnd),
            "no-container" => Some(Word::NoContainer),
            "root" => Some(Word::Root),
            "into-itself" => Some(Word::IntoItself),
            "test-failed" => Some(Word::TestFailed),
            "too-deep" => Some(Word::TooDeep),
            "too-heavy" => Some(Word::TooHeavy),
            "exhausted" => Some(Word::Exhausted),
            "stale" => Some(Word::Stale),
            "future" => Some(Word::Future),
            "read-only" => Some(Word::ReadOnly),
            _ => None,
        }
    }

    /// Returns the text that messages use for this word.
    ///
    /// ```
    /// assert!(rt; Word::NoContainer.text() == "no-container");
    /// ```
    pub fn text(self) -> &'static str
        ensures { result.now ≡ word_text self }
    {
        match self {
            Word::TooLong => "too-long",
            Word::NotJson => "not-json",
            Word::Number => "number",
            Word::Shape => "shape",
            Word::TooMany => "too-many",
            Word::UnknownOp => "unknown-op",
            Word::Pointer => "pointer",
            Word::Missing => "missing",
            Word::NotIndex => "not-index",
            Word::PastEnd => "past-end",
            Word::NoContainer => "no-container",
            Word::Root => "root",
            Word::IntoItself => "into-itself",
            Word::TestFailed => "test-failed",
            Word::TooDeep => "too-deep",
            Word::TooHeavy => "too-heavy",
            Word::Exhausted => "exhausted",
            Word::Stale => "stale",
            Word::Future => "future",
            Word::ReadOnly => "read-only",
        }
    }
}
