//! The job of the program, or the reason why there is none.
use crate::settings::Settings;
use crate::store_job::StoreJob;
use std::alloc::AllocError;
use std::net::IpAddr;

/// The job that the arguments ask for.
///
/// ```
/// let words = [String::from_str(alloc, "relay").ok()?, String::from_str(alloc, "follow").ok()?];
/// assert!(rt; matches!(job_of(alloc, &words, None), Ok(Job::Follow)));
/// ```
#[derive(Debug, PartialEq, Eq, Drop)]
pub enum Job {
    /// `relay`, or `relay script`: run a script.
    Script(Settings),
    /// `relay loop`: run a script through loopback sockets.
    Loop(Settings),
    /// `relay follow`: apply texts to a follower, one per line.
    Follow,
    /// `relay serve`: listen on a port, for a number of rounds of the event loop.
    Serve {
        /// The address on which it listens for clients.
        listen: IpAddr,
        /// The port. For 0 the system chooses one.
        port: u16,
        /// The port of the operator, if there is one: another one than `port`, and not 0.
        admin: Option<u16>,
        /// `--turns`: the number of rounds, 1 to 10^12. A stop at the operator's port may end them
        /// before.
        rounds: u64,
        /// True if the server logs its connections.
        log: bool,
        /// True if the room that has been empty for the longest time is forgotten once all places
        /// are taken.
        forget_rooms: bool,
        /// True if clients may enter only once the operator says so. There is one then.
        closed: bool,
        /// The amount of output that is held for all connections together, in MiB: 1 to 2^20.
        output_mib: u64,
        /// The origins whose pages may connect, in the order of the words and as they are written,
        /// which is as a browser names them. An empty list means pages of every origin.
        origins: Vec<String>,
        /// The number of connections that one address may have, 1 to 10^6. `None` means no limit.
        per_peer: Option<u64>,
        /// `--store`: the name of the file that keeps the documents, not empty. `None` means that
        /// they end with the program.
        store: Option<String>,
        /// The settings of its hub. Beside a store no epoch is given, and this one is that of a
        /// store that begins.
        settings: Settings,
    },
    /// `relay store`: use a tool on a store that no relay has open.
    Store(StoreJob),
}

/// The cause for which there is no job.
///
/// ```
/// let words = [String::from_str(alloc, "relay").ok()?, String::from_str(alloc, "walk").ok()?];
/// assert!(rt; matches!(job_of(alloc, &words, None), Err(Stop::Misuse(_))));
/// ```
#[derive(Debug, Drop)]
pub enum Stop {
    /// The requested help or version, for standard output.
    Help(String),
    /// The fault in the arguments, for standard error.
    Misuse(String),
    NoMemory,
}

impl From<AllocError> for Stop {
    ghost use Rattle.std.specs.Prelude.{◌≡◌};
    ghost use Rattle.relay_options.specs.declared.job.Stop.TheVariants.{NoMemory};

    ghost from_gives = { λ _ stop. stop ≡ NoMemory };

    fn from(_: AllocError) -> Stop {
        Stop::NoMemory
    }
}
