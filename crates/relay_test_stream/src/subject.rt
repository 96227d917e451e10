//! Subjects that play rows.
use crate::row::Row;
use crate::wrong_rows::{WrongRow, WrongRows};
use std::alloc::AllocGlobal;

/// The subject of the acts of rows. `R` is the runtime that they need.
pub trait Subject<R> {
    /// Does an act, and tells what came of it. Of an act that is unknown, and where memory is
    /// missing, nothing is told, which fails the row.
    fn act(&mut self, rt: &R, act: &str) -> Option<String>;
}

/// Plays the rows of a text, one after the other, and names each that comes to something else than
/// it has to. What one does stays for the next, so a row may be wrong because of one before it.
pub fn play<'a, R: AllocGlobal, S: Subject<R>>(
    rt: &R,
    subject: &mut S,
    rows: &'a str,
) -> Result<(), WrongRows<'a>> {
    let mut wrong = WrongRows::none(rt.alloc());
    let mut heading = "";
    let mut number = 0u64;
    for line in rows.lines() {
        number = number.saturating_add(1);
        if line.starts_with('#') {
            heading = line;
        }
        if let Some(row) = Row::of(line) {
            if let Err(came) = play_row(rt, subject, row) {
                wrong.add(WrongRow {
                    line: number,
                    heading,
                    row,
                    came,
                });
            }
        }
    }
    wrong.or_none()
}

/// Plays a row. The error is what came of it that had not to, if anything was told.
fn play_row<R, S: Subject<R>>(rt: &R, subject: &mut S, row: Row<'_>) -> Result<(), Option<String>> {
    for _ in 0..row.times {
        match subject.act(rt, row.act) {
            Some(came) if came.as_str() == row.wanted => {}
            came => return Err(came),
        }
    }
    Ok(())
}
