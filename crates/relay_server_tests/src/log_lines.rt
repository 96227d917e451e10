//! Tests of the log's lines: their time and level, and what becomes of those that nobody takes.
use crate::story::{number, on_one_line, text_of};
use relay_server::{
    ConnectionId, ConnectionLog, EndCause, HandshakeRefusal, LogEntry, LogLines, RoomSession,
};
use relay_test_stream::{Subject, cut, play};
use std::alloc::{AllocGlobal, Global};
use std::io;
use std::io::{ErrorKind, Write};
use std::net::{Ipv4Addr, SocketAddr};
use std::time::{Clock, Duration};

const ROWS: &str = r#"
# A line begins with its time, here that of so many milliseconds since 1970: the times of RFC 3339, section 5.8, that have no offset, and
# the ends of a leap day.
at 0 => time=1970-01-01T00:00:00.000Z level=warn event=out-of-memory\n
at 482196050520 => time=1985-04-12T23:20:50.520Z level=warn event=out-of-memory\n
at 951782400000 => time=2000-02-29T00:00:00.000Z level=warn event=out-of-memory\n
at 951868799999 => time=2000-02-29T23:59:59.999Z level=warn event=out-of-memory\n
at 4107542399001 => time=2100-02-28T23:59:59.001Z level=warn event=out-of-memory\n
at 4107542400010 => time=2100-03-01T00:00:00.010Z level=warn event=out-of-memory\n

# A line says what happened to which connection. It is a warning if memory is short, or if the connection was evicted.
says opened => time=1970-01-01T00:00:00.000Z level=info event=opened peer=127.0.0.1:51000 link=7 session=12 room=board\n
says left Peer => time=1970-01-01T00:00:00.000Z level=info event=ended peer=127.0.0.1:51000 link=7 session=12 room=board cause=peer rounds=3\n
says ended Stream => time=1970-01-01T00:00:00.000Z level=info event=ended peer=127.0.0.1:51000 link=7 cause=stream rounds=3\n
says left Memory => time=1970-01-01T00:00:00.000Z level=warn event=ended peer=127.0.0.1:51000 link=7 session=12 room=board cause=memory rounds=3\n
says evicted => time=1970-01-01T00:00:00.000Z level=warn event=evicted peer=127.0.0.1:51000 link=7 rounds=3\n
says rejected => time=1970-01-01T00:00:00.000Z level=warn event=rejected peer=127.0.0.1:51000 cause=per-peer\n

# A commit that is slow is a warning, and one that failed an error.
says slow-commit => time=1970-01-01T00:00:00.000Z level=warn event=slow-commit millis=1534\n
says commit-failed => time=1970-01-01T00:00:00.000Z level=error event=commit-failed\n

# The line of a refused handshake says why. It is a warning if a limit was reached or memory is short.
says refused NotFound => time=1970-01-01T00:00:00.000Z level=info event=refused peer=127.0.0.1:51000 link=7 status=404\n
says refused SessionsFull => time=1970-01-01T00:00:00.000Z level=warn event=refused peer=127.0.0.1:51000 link=7 status=503 cause=sessions\n
says refused RoomsFull => time=1970-01-01T00:00:00.000Z level=warn event=refused peer=127.0.0.1:51000 link=7 status=503 cause=rooms\n
says refused NoMemory => time=1970-01-01T00:00:00.000Z level=warn event=refused peer=127.0.0.1:51000 link=7 status=503 cause=memory\n
says refused Closed => time=1970-01-01T00:00:00.000Z level=info event=refused peer=127.0.0.1:51000 link=7 status=503 cause=closed\n

# The words for the other causes.
says ended Binary => time=1970-01-01T00:00:00.000Z level=info event=ended peer=127.0.0.1:51000 link=7 cause=binary rounds=3\n
says ended Broken => time=1970-01-01T00:00:00.000Z level=info event=ended peer=127.0.0.1:51000 link=7 cause=broken rounds=3\n
says ended Full => time=1970-01-01T00:00:00.000Z level=warn event=ended peer=127.0.0.1:51000 link=7 cause=full rounds=3\n
says ended Slow => time=1970-01-01T00:00:00.000Z level=warn event=ended peer=127.0.0.1:51000 link=7 cause=slow rounds=3\n
says ended Silent => time=1970-01-01T00:00:00.000Z level=info event=ended peer=127.0.0.1:51000 link=7 cause=silent rounds=3\n
says ended Ended => time=1970-01-01T00:00:00.000Z level=info event=ended peer=127.0.0.1:51000 link=7 cause=relay rounds=3\n

# Three lines, of whose writes the first ones take at most so many bytes. A line that is not taken is dropped, and the next one that is taken
# comes after the number of those that were not. A line of which a part is taken was dropped too, and the next one begins on a line of its
# own.
thrice => time=1970-01-01T00:00:00.000Z level=warn event=out-of-memory\ntime=1970-01-01T00:00:00.000Z level=warn event=out-of-memory\ntime=1970-01-01T00:00:00.000Z level=warn event=out-of-memory\n
thrice 0 => time=1970-01-01T00:00:00.000Z level=warn event=dropped dropped=1\ntime=1970-01-01T00:00:00.000Z level=warn event=out-of-memory\ntime=1970-01-01T00:00:00.000Z level=warn event=out-of-memory\n
thrice 0 0 => time=1970-01-01T00:00:00.000Z level=warn event=dropped dropped=2\ntime=1970-01-01T00:00:00.000Z level=warn event=out-of-memory\n
thrice 0 4096 0 => time=1970-01-01T00:00:00.000Z level=warn event=dropped dropped=1\ntime=1970-01-01T00:00:00.000Z level=warn event=dropped dropped=1\ntime=1970-01-01T00:00:00.000Z level=warn event=out-of-memory\n
thrice 0 0 0 =>
thrice 5 => time=\ntime=1970-01-01T00:00:00.000Z level=warn event=dropped dropped=1\ntime=1970-01-01T00:00:00.000Z level=warn event=out-of-memory\ntime=1970-01-01T00:00:00.000Z level=warn event=out-of-memory\n
"#;

#[test]
fn a_line_says_when_and_what_happened(rt: HostRuntime) {
    play(&rt, &mut Log, ROWS).expect(&rt, "each row holds");
}

#[derive(Clone, Copy)]
struct Log;

impl<R: AllocGlobal> Subject<R> for Log {
    fn act(&mut self, rt: &R, act: &str) -> Option<String> {
        let alloc = rt.alloc();
        let (word, rest) = cut(act);
        let told = match word {
            "at" => written(alloc, number(rest)?, "", 1, LogEntry::OutOfMemory),
            "says" => written(alloc, 0, "", 1, entry_of(rest)?),
            "thrice" => written(alloc, 0, rest, 3, LogEntry::OutOfMemory),
            _ => None,
        };
        on_one_line(alloc, told?.as_str())
    }
}

/// A clock that stands still, at so many milliseconds since 1970.
#[derive(Clone, Copy)]
struct Still {
    millis: u64,
}

impl Clock for Still {
    fn monotonic(&self) -> io::Result<Duration> {
        Ok(Duration::ZERO)
    }

    fn since_1970(&self) -> io::Result<Duration> {
        Ok(Duration::from_millis(self.millis))
    }
}

/// A writer whose next writes take at most so many bytes each, for 0 none and as if they had to
/// wait. Later ones take all.
#[derive(Drop)]
struct PlannedWriter<'a> {
    bytes: Vec<u8>,
    plan: &'a str,
}

impl Write for PlannedWriter<'_> {
    fn write(&mut self, buf: &[u8]) -> io::Result<usize> {
        let (most, rest) = cut(self.plan);
        self.plan = rest;
        let most = most.parse::<usize>().unwrap_or(usize::MAX);
        if most == 0 {
            return Err(io::Error::from(ErrorKind::WouldBlock));
        }
        let len = buf.len().min(most);
        self.bytes.extend_from_slice(&buf[..len])?;
        Ok(len)
    }

    fn flush(&mut self) -> io::Result<()> {
        Ok(())
    }
}

/// The text that is written of an entry that comes so many times, if the writes take what is
/// planned.
fn written(
    alloc: Global,
    millis: u64,
    plan: &str,
    times: u32,
    entry: LogEntry<'_>,
) -> Option<String> {
    let mut writer = PlannedWriter {
        bytes: Vec::new(alloc),
        plan,
    };
    record(alloc, &mut writer, &Still { millis }, times, entry);
    text_of(alloc, writer.bytes.as_slice())
}

/// Logs an entry so many times.
fn record(
    alloc: Global,
    writer: &mut PlannedWriter<'_>,
    clock: &Still,
    times: u32,
    entry: LogEntry<'_>,
) {
    let mut log = LogLines::to(alloc, writer, clock);
    for _ in 0..times {
        log.record(entry);
    }
}

const SESSION: RoomSession<'static> = RoomSession {
    number: 12,
    room: "board",
};

/// The entry of an event: of one that ends a connection, which had a session if it left.
fn entry_of(words: &str) -> Option<LogEntry<'static>> {
    let connection = ConnectionId {
        key: 7,
        peer: SocketAddr::from((Ipv4Addr::LOCALHOST, 51_000)),
    };
    let (event, why) = cut(words);
    Some(match event {
        "opened" => LogEntry::Opened {
            connection,
            session: SESSION,
        },
        "refused" => LogEntry::Refused {
            connection,
            refusal: refusal_of(why)?,
        },
        "left" => LogEntry::Ended {
            connection,
            session: Some(SESSION),
            cause: cause_of(why)?,
            rounds: 3,
        },
        "ended" => LogEntry::Ended {
            connection,
            session: None,
            cause: cause_of(why)?,
            rounds: 3,
        },
        "evicted" => LogEntry::Evicted {
            connection,
            rounds: 3,
        },
        "rejected" => LogEntry::Rejected {
            peer: connection.peer,
        },
        "slow-commit" => LogEntry::SlowCommit { millis: 1_534 },
        "commit-failed" => LogEntry::CommitFailed,
        _ => return None,
    })
}

/// A reason for a refusal, by its name.
fn refusal_of(name: &str) -> Option<HandshakeRefusal> {
    Some(match name {
        "NotFound" => HandshakeRefusal::Status(404),
        "SessionsFull" => HandshakeRefusal::SessionsFull,
        "RoomsFull" => HandshakeRefusal::RoomsFull,
        "NoMemory" => HandshakeRefusal::NoMemory,
        "Closed" => HandshakeRefusal::Closed,
        _ => return None,
    })
}

/// A cause for an end, by its name.
fn cause_of(name: &str) -> Option<EndCause> {
    Some(match name {
        "Peer" => EndCause::Peer,
        "Binary" => EndCause::Binary,
        "Broken" => EndCause::Broken,
        "Stream" => EndCause::Stream,
        "Memory" => EndCause::Memory,
        "Full" => EndCause::Full,
        "Slow" => EndCause::Slow,
        "Silent" => EndCause::Silent,
        "Ended" => EndCause::Ended,
        _ => return None,
    })
}
