//! The log of a server's connections.
ghost use Rattle.std.specs.Prelude.{◌≡◌};
ghost use Rattle.relay_event_loop.specs.Refusals.{refusal_by, status_of};

use relay_hub::OpenFault;
use relay_link::EndCause;
use std::fmt;
use std::fmt::{Display, Formatter};
use std::net::SocketAddr;

/// An event of a connection, or of the server.
///
/// ```
/// let peer = SocketAddr::from((Ipv4Addr::LOCALHOST, 51_240));
/// let connection = ConnectionId { key: 3, peer };
/// let entry = LogEntry::Refused { connection, refusal: HandshakeRefusal::SessionsFull };
/// let fields = format!(in alloc; "{entry}").ok()?;
/// let wanted = "event=refused peer=127.0.0.1:51240 link=3 status=503 cause=sessions";
/// assert!(rt; fields.as_str() == wanted);
/// ```
#[derive(Clone, Copy, Debug)]
pub enum LogEntry<'a> {
    /// Its handshake opened a session in a room.
    Opened {
        connection: ConnectionId,
        session: RoomSession<'a>,
    },
    /// Its handshake was refused.
    Refused {
        connection: ConnectionId,
        refusal: HandshakeRefusal,
    },
    /// It ended, `rounds` rounds after it was accepted. It had this session, if it ever had one.
    Ended {
        connection: ConnectionId,
        session: Option<RoomSession<'a>>,
        cause: EndCause,
        rounds: u64,
    },
    /// It was the oldest connection without a session when room was needed for another, `rounds`
    /// rounds after it was accepted.
    Evicted {
        connection: ConnectionId,
        rounds: u64,
    },
    /// A connection was rejected as it came, since its address had as many as it may.
    Rejected {
        peer: SocketAddr,
    },
    /// An allocation failed, so the hub gave memory back ([`relay_hub::Hub::shed`]).
    OutOfMemory,
    /// A commit that kept the rooms took so many milliseconds, more than a second. Nobody is told
    /// anything meanwhile.
    SlowCommit {
        millis: u64,
    },
    /// A commit failed. Nothing can be kept any more, and nobody is told anything.
    CommitFailed,
}

/// A connection: its key in the server's slab, which a later connection may have again, and the
/// address of its other side.
///
/// ```
/// let peer = SocketAddr::from((Ipv4Addr::LOCALHOST, 51_234));
/// let connection = ConnectionId { key: 3, peer };
/// let fields = format!(in alloc; "{connection}").ok()?;
/// assert!(rt; fields.as_str() == "peer=127.0.0.1:51234 link=3");
/// ```
#[derive(Clone, Copy, Debug)]
pub struct ConnectionId {
    pub key: usize,
    pub peer: SocketAddr,
}

/// A session and the room in which it is.
///
/// ```
/// let session = RoomSession { number: 17, room: "board" };
/// let fields = format!(in alloc; "event=opened{session}").ok()?;
/// assert!(rt; fields.as_str() == "event=opened session=17 room=board");
/// ```
#[derive(Clone, Copy, Debug)]
pub struct RoomSession<'a> {
    pub number: u64,
    pub room: &'a str,
}

/// The cause for which a handshake was refused.
///
/// ```
/// let refusal = HandshakeRefusal::SessionsFull;
/// let fields = format!(in alloc; "{refusal}").ok()?;
/// assert!(rt; fields.as_str() == "status=503 cause=sessions");
/// ```
#[derive(Clone, Copy, Debug, PartialEq, Eq)]
pub enum HandshakeRefusal {
    /// Its head asks for no room in the way of the protocol. The reply has this status.
    Status(u16),
    /// 503: as many sessions are open as the hub allows.
    SessionsFull,
    /// 503: the room is new, and there are as many rooms as the hub allows.
    RoomsFull,
    /// 503: out of memory.
    NoMemory,
    /// 503: clients may not enter yet.
    Closed,
}

impl HandshakeRefusal {
    /// The refusal of a handshake for which the hub opened no session.
    pub(crate) fn of(fault: OpenFault) -> HandshakeRefusal
        ensures { result ≡ refusal_by fault }
    {
        match fault {
            OpenFault::RoomName => HandshakeRefusal::Status(503),
            OpenFault::RoomsFull => HandshakeRefusal::RoomsFull,
            OpenFault::SessionsFull | OpenFault::Exhausted => HandshakeRefusal::SessionsFull,
            OpenFault::NoMemory => HandshakeRefusal::NoMemory,
        }
    }

    /// The status of the reply.
    ///
    /// ```
    /// assert!(rt; HandshakeRefusal::Status(404).status() == 404);
    /// assert!(rt; HandshakeRefusal::Closed.status() == 503);
    /// ```
    pub fn status(self) -> u16
        ensures { result ≡ status_of self }
    {
        match self {
            HandshakeRefusal::Status(status) => status,
            HandshakeRefusal::SessionsFull
            | HandshakeRefusal::RoomsFull
            | HandshakeRefusal::NoMemory
            | HandshakeRefusal::Closed => 503,
        }
    }
}

/// The fields of a log line, as `key=value` with a space between. No value has a space: a room's
/// name has none.
impl Display for LogEntry<'_> {
    fn fmt<W: fmt::Write>(&self, f: &mut Formatter<W>) -> fmt::Result {
        match self {
            LogEntry::Opened {
                connection,
                session,
            } => write!(f, "event=opened {connection}{session}"),
            LogEntry::Refused {
                connection,
                refusal,
            } => write!(f, "event=refused {connection} {refusal}"),
            LogEntry::Ended {
                connection,
                session,
                cause,
                rounds,
            } => {
                write!(f, "event=ended {connection}")?;
                if let Some(session) = session {
                    write!(f, "{session}")?;
                }
                let cause = cause_word(*cause);
                write!(f, " cause={cause} rounds={rounds}")
            }
            LogEntry::Evicted { connection, rounds } => {
                write!(f, "event=evicted {connection} rounds={rounds}")
            }
            LogEntry::Rejected { peer } => write!(f, "event=rejected peer={peer} cause=per-peer"),
            LogEntry::OutOfMemory => f.write_str("event=out-of-memory"),
            LogEntry::SlowCommit { millis } => write!(f, "event=slow-commit millis={millis}"),
            LogEntry::CommitFailed => f.write_str("event=commit-failed"),
        }
    }
}

impl Display for ConnectionId {
    fn fmt<W: fmt::Write>(&self, f: &mut Formatter<W>) -> fmt::Result {
        let (peer, key) = (self.peer, self.key);
        write!(f, "peer={peer} link={key}")
    }
}

impl Display for RoomSession<'_> {
    fn fmt<W: fmt::Write>(&self, f: &mut Formatter<W>) -> fmt::Result {
        let (number, room) = (self.number, self.room);
        write!(f, " session={number} room={room}")
    }
}

impl Display for HandshakeRefusal {
    fn fmt<W: fmt::Write>(&self, f: &mut Formatter<W>) -> fmt::Result {
        let status = self.status();
        write!(f, "status={status}")?;
        match self {
            HandshakeRefusal::Status(_) => Ok(()),
            HandshakeRefusal::SessionsFull => f.write_str(" cause=sessions"),
            HandshakeRefusal::RoomsFull => f.write_str(" cause=rooms"),
            HandshakeRefusal::NoMemory => f.write_str(" cause=memory"),
            HandshakeRefusal::Closed => f.write_str(" cause=closed"),
        }
    }
}

/// The word for a cause, as in the metric `relay_connections_ended_total`; a refused handshake is
/// none of its causes.
fn cause_word(cause: EndCause) -> &'static str {
    match cause {
        EndCause::Peer => "peer",
        EndCause::Binary => "binary",
        EndCause::Broken => "broken",
        EndCause::Stream => "stream",
        EndCause::Memory => "memory",
        EndCause::Full => "full",
        EndCause::Slow => "slow",
        EndCause::Silent => "silent",
        EndCause::Ended => "relay",
        EndCause::Refused(_) => "refused",
    }
}

/// Receives an entry for each connection that opens, is refused, rejected, ended or evicted, for
/// each commit that is slow or fails, and if memory was refused.
///
/// ```
/// // A log of the tests, which writes a line for each entry.
/// let mut log = FieldLines { text: String::new(alloc) };
/// log.record(LogEntry::OutOfMemory);
/// assert!(rt; log.text.as_str() == "event=out-of-memory\n");
/// ```
pub trait ConnectionLog {
    fn record(&mut self, entry: LogEntry<'_>);
}

/// A log that drops every entry.
#[derive(Clone, Copy, Debug)]
pub struct NoLog;

impl ConnectionLog for NoLog {
    fn record(&mut self, _entry: LogEntry<'_>) {}
}
