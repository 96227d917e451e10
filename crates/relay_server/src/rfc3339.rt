//! The time of a log line.
use jiff_core::civil::DateTime;
use jiff_core::{Offset, Timestamp};
use std::fmt;
use std::fmt::{Display, Formatter};
use std::time::Duration;

/// Nanoseconds in a millisecond.
const MILLISECOND: u32 = 1_000_000;

/// A time in UTC, written as RFC 3339 says, with milliseconds.
#[derive(Clone, Copy, Debug)]
pub(crate) struct Rfc3339 {
    time: DateTime,
}

impl Rfc3339 {
    /// The time so long after 1970-01-01T00:00:00Z. One after the year 9999 is given as that time.
    pub(crate) fn since_1970(since: Duration) -> Rfc3339 {
        let nanos = i128::from(since.as_secs()) * 1_000_000_000 + i128::from(since.subsec_nanos());
        let time = Timestamp::from_nanosecond(nanos).unwrap_or(Timestamp::UNIX_EPOCH);
        Rfc3339 {
            time: Offset::UTC.to_datetime(time),
        }
    }
}

impl Display for Rfc3339 {
    fn fmt<W: fmt::Write>(&self, f: &mut Formatter<W>) -> fmt::Result {
        let (date, time) = (self.time.date, self.time.time);
        let (year, month, day) = (date.year, date.month, date.day);
        let (hour, minute, second) = (time.hour, time.minute, time.second);
        let millis = time.subsec_nanosecond / MILLISECOND;
        write!(
            f,
            "{year:04}-{month:02}-{day:02}T{hour:02}:{minute:02}:{second:02}.{millis:03}Z"
        )
    }
}
