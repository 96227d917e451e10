//! The log beside the file of a store.
use std::alloc::AllocError;
use std::fs::{self, File, OpenOptions};
use std::io::{self, Read, Write};

/// The length of what stands before each page of a log, in bytes.
const HEAD: u64 = 24;

/// The least length of a log that has a page, in bytes: behind a header of 32.
const WITH_A_PAGE: u64 = 32 + HEAD;

/// The log that was beside a file before the file was opened.
#[derive(Debug, PartialEq, Eq, Drop)]
pub enum LogBefore {
    None,
    /// It had these bytes, and no page.
    Bare(Vec<u8>),
    /// It may have had pages. Its length in bytes.
    Pages(u64),
}

impl LogBefore {
    /// Looks for the log beside a file that is not open yet. One that cannot be read is taken for
    /// one with pages.
    pub(crate) fn of(rt: &HostRuntime, file: &str) -> Result<LogBefore, AllocError> {
        let path = log_of(rt, file)?;
        let Ok(found) = fs::metadata(rt, path.as_str()) else {
            return Ok(LogBefore::None);
        };
        if found.len() < WITH_A_PAGE {
            if let Ok(bytes) = bytes_of(rt, path.as_str()) {
                return Ok(LogBefore::Bare(bytes));
            }
        }
        Ok(LogBefore::Pages(found.len()))
    }

    /// Leaves beside a file what was there before it was opened, unless a page was written since.
    /// Only for a file that this process still has open, so that no other uses the log. If the
    /// system fails, the log stays.
    pub(crate) fn put_back(&self, rt: &HostRuntime, file: &str) {
        let Ok(path) = log_of(rt, file) else {
            return;
        };
        let path = path.as_str();
        let Ok(found) = fs::metadata(rt, path) else {
            return;
        };
        let now = found.len();
        let _ = match self {
            LogBefore::None if now < WITH_A_PAGE => fs::remove_file(rt, path),
            LogBefore::Bare(bytes) if now < WITH_A_PAGE => write(rt, path, bytes.as_slice()),
            LogBefore::Pages(length) if *length < now && now - *length < HEAD => {
                cut(rt, path, *length)
            }
            _ => Ok(()),
        };
    }
}

/// The name of the log of a file. It lies beside what a link leads to.
fn log_of(rt: &HostRuntime, file: &str) -> Result<String, AllocError> {
    match fs::canonicalize(rt, file) {
        Ok(real) => format!(in rt.alloc(); "{}-wal", real.as_str()),
        Err(_) => format!(in rt.alloc(); "{file}-wal"),
    }
}

/// The bytes of a short file.
fn bytes_of(rt: &HostRuntime, path: &str) -> io::Result<Vec<u8>> {
    let mut bytes = Vec::new(rt.alloc());
    File::open(rt, path)?
        .take(WITH_A_PAGE)
        .read_to_end(&mut bytes)?;
    Ok(bytes)
}

/// Writes these bytes in place of all that a file has.
fn write(rt: &HostRuntime, path: &str, bytes: &[u8]) -> io::Result<()> {
    OpenOptions::new()
        .write(true)
        .truncate(true)
        .open(rt, path)?
        .write_all(bytes)
}

/// Cuts a file to a length in bytes.
fn cut(rt: &HostRuntime, path: &str, length: u64) -> io::Result<()> {
    OpenOptions::new()
        .write(true)
        .open(rt, path)?
        .set_len(length)
}
