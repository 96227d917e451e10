//! The first bytes of a file that may be a store.
use relay_store::StoreFault;
use std::fs::{self, File};
use std::io::{self, Read};

/// The first bytes of each database.
const MAGIC: &[u8] = b"SQLite format 3\0";

/// The length of what is looked at, in bytes.
const LENGTH: usize = 20;

/// The number, at 18 and at 19, of a database whose program keeps no log.
const WITHOUT_LOG: u8 = 1;

/// Refuses, `NotAStore`, a file that is plainly no store, before a log is made beside it. A
/// database whose program keeps no log would be changed by one. If a store `may_be_made`, an empty
/// file is one, and another that is beside a log may be one that a crash left half made. Writes
/// nothing.
pub(crate) fn check_header(
    rt: &HostRuntime,
    path: &str,
    may_be_made: bool,
    has_log: bool,
) -> Result<(), StoreFault> {
    let Ok(Some(front)) = front_of(rt, path) else {
        return Ok(());
    };
    let front = front.as_slice();
    let is_refused = if front.starts_with(MAGIC) {
        is_without_log(front)
    } else {
        !may_be_made || (!front.is_empty() && !has_log)
    };
    if is_refused {
        return Err(StoreFault::NotAStore);
    }
    Ok(())
}

/// The first bytes of a plain file; none of anything else.
fn front_of(rt: &HostRuntime, path: &str) -> io::Result<Option<Vec<u8>>> {
    if !fs::metadata(rt, path)?.is_file() {
        return Ok(None);
    }
    let mut front = Vec::new(rt.alloc());
    File::open(rt, path)?
        .take(LENGTH as u64)
        .read_to_end(&mut front)?;
    Ok(Some(front))
}

/// Returns whether these are the first bytes of a database whose program keeps no log.
fn is_without_log(front: &[u8]) -> bool {
    front.get(18) == Some(&WITHOUT_LOG) || front.get(19) == Some(&WITHOUT_LOG)
}
