//! Rows that came to something else than they have to.
use crate::row::Row;
use std::alloc::Global;

/// A row that came to something else than it has to.
#[derive(Debug, Drop)]
pub struct WrongRow<'a> {
    /// The number of its line in the text, from 1.
    pub line: u64,
    /// The last line before it that says what rows show.
    pub heading: &'a str,
    pub row: Row<'a>,
    /// The outcome of it, if that was told.
    pub came: Option<String>,
}

/// The wrong rows of a text, in order.
#[derive(Debug, Drop)]
pub struct WrongRows<'a> {
    /// The number of wrong rows.
    pub count: u64,
    /// Those of them for which there was memory.
    pub rows: Vec<WrongRow<'a>>,
}

impl<'a> WrongRows<'a> {
    pub(crate) fn none(alloc: Global) -> WrongRows<'a> {
        WrongRows {
            count: 0,
            rows: Vec::new(alloc),
        }
    }

    pub(crate) fn add(&mut self, row: WrongRow<'a>) {
        self.count = self.count.saturating_add(1);
        let _ = self.rows.push(row);
    }

    /// `Ok` if there is none.
    pub(crate) fn or_none(self) -> Result<(), WrongRows<'a>> {
        if self.count == 0 { Ok(()) } else { Err(self) }
    }
}
