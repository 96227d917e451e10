//! The size of a text, and its cost.

/// The number of values of a text, and of its bytes.
#[derive(Clone, Copy)]
pub struct TextSize {
    values: u64,
    bytes: u64,
}

/// The cost of a value of a text, and of a byte, in nanoseconds.
#[derive(Clone, Copy)]
pub struct Price {
    pub value: u64,
    pub byte: u64,
}

impl TextSize {
    /// The size of a text, which is walked once. Between two values stands a comma, and before one
    /// a colon or a bracket. So a member of an object counts as two values, and a string that has
    /// such bytes as more.
    pub fn of(text: &str) -> TextSize {
        let marks = text
            .bytes()
            .filter(|byte| matches!(*byte, b',' | b':' | b'['));
        TextSize {
            values: (marks.count() as u64).saturating_add(1),
            bytes: text.len() as u64,
        }
    }

    /// The cost of the text at a price.
    pub fn cost(self, price: Price) -> u64 {
        self.values
            .saturating_mul(price.value)
            .saturating_add(self.bytes.saturating_mul(price.byte))
    }
}
