//! The text of an event or an answer.
use bytes::ByteStr;
use std::marker::Model;

#[derive(Debug, Drop)]
enum Held {
    Own(String),
    /// Others may share the bytes.
    Shared(ByteStr),
}

/// An owned text. Contracts see only its bytes.
///
/// ```
/// let text = Text::of(String::from_str(alloc, "board").ok()?);
/// assert!(rt; text.as_str() == "board");
/// ```
#[derive(Debug, Drop)]
pub struct Text {
    held: Held,
}

impl Model for Text {
    ghost use Rattle.std.specs.Prelude.{ℕ, List};
    ghost use Rattle.relay_hub.specs.Text.{bytes_of};

    ghost Value = { List ℕ };

    ghost view = { λ t. bytes_of t.held };
}

impl Text {
    ghost use Rattle.std.specs.Prelude.{◌≡◌, string_bytes};

    /// The text of a string. Allocates nothing.
    pub fn of(value: String) -> Text
        ensures { result ≡ string_bytes value }
    {
        Text {
            held: Held::Own(value),
        }
    }

    /// The text of a message. Copies nothing: as long as the text is there, so are the bytes that
    /// it shares. Allocates nothing.
    pub fn shared(words: ByteStr) -> Text
        ensures { result ≡ words }
    {
        Text {
            held: Held::Shared(words),
        }
    }

    pub fn as_str(&self) -> &str
        ensures { result.now ≡ self.now }
    {
        match &self.held {
            Held::Own(value) => value.as_str(),
            Held::Shared(words) => words.as_str(),
        }
    }
}
