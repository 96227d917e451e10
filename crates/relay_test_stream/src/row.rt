//! Rows: tests as text, which costs a proof next to nothing, however long it is.

/// A line of a test: what is done, how often, and what has to come of it each time.
#[derive(Clone, Copy, Debug)]
pub struct Row<'a> {
    /// The number of times that the act is done.
    pub times: u64,
    /// The act, in words.
    pub act: &'a str,
    /// The outcome that it has to have.
    pub wanted: &'a str,
}

impl<'a> Row<'a> {
    /// Reads `ACT => WANTED`, where `ACT` may begin with how often it is done. Without ` => `, or
    /// with nothing behind it, nothing has to come of it. A blank line, and one that begins with
    /// `#`, is no row.
    pub fn of(line: &'a str) -> Option<Row<'a>> {
        let line = line.trim();
        if line.is_empty() || line.starts_with('#') {
            return None;
        }
        let (all, wanted) = line.split_once(" =>").unwrap_or((line, ""));
        let (first, rest) = cut(all);
        let (times, act) = match first.parse::<u64>() {
            Ok(times) => (times, rest),
            Err(_) => (1, all),
        };
        Some(Row {
            times,
            act,
            wanted: wanted.trim(),
        })
    }
}

/// The first word of a text, and what comes behind it.
pub fn cut(text: &str) -> (&str, &str) {
    text.split_once(' ').unwrap_or((text, ""))
}
