//! The settings of a hub.

use relay_limits::{
    DEFAULT_REVISIONS, DEFAULT_ROOMS, DEFAULT_SESSIONS, DEFAULT_WAITING_PATCHES, MAX_COUNT,
};

/// The largest weight that an option accepts.
pub const MAX_WEIGHT_LIMIT: u64 = MAX_COUNT;

/// The largest `--turns`, in rounds of the event loop.
pub const MAX_ROUNDS: u64 = 1_000_000_000_000;

/// The largest `--max-output-mib`: 1 TiB.
pub const MAX_OUTPUT_MIB: u64 = 1_048_576;

/// The largest `--per-peer`, in connections of one address.
pub const MAX_PER_PEER: u64 = 1_000_000;

/// The largest port.
pub const MAX_PORT: u64 = 65_535;

/// The settings of a hub. Those of a job are in range.
///
/// ```
/// let words = [String::from_str(alloc, "relay").ok()?];
/// let job = job_of(alloc, &words, None);
/// assert!(rt; matches!(job, Ok(Job::Script(settings)) if settings == Settings::DEFAULT));
/// ```
#[derive(Clone, Copy, Debug, PartialEq, Eq)]
pub struct Settings {
    /// `--history`: the number of revisions that each room holds, 1 to 1,024.
    pub history: u64,
    /// `--outbox`: the number of patches that may wait for a session, 1 to 256.
    pub max_waiting_patches: u64,
    /// `--rooms`: the number of rooms that there may be, 1 to 65,536.
    pub rooms: u64,
    /// `--sessions`: the number of sessions that may be open at once, 1 to 65,536.
    pub sessions: u64,
    /// `--epoch`: the number of this run of the program, 0 to 2^53 - 1. A server takes the seconds
    /// since 1970 if it is given none.
    pub epoch: u64,
    /// `--max-history-weight`: the maximum total weight of the changes that each room holds. `None`
    /// means no limit.
    pub history_weight: Option<u64>,
    /// `--max-waiting-weight`: the maximum total weight of the patches that wait for a session.
    /// `None` means no limit.
    pub waiting_weight: Option<u64>,
    /// `--max-telling-weight`: the maximum total weight of the patches that are made for one edit.
    /// `None` means no limit.
    pub telling_weight: Option<u64>,
    /// `--max-view-weight`: the maximum total weight of the pointers of a view. `None` means no
    /// limit.
    pub view_weight: Option<u64>,
}

impl Settings {
    /// The defaults of a script.
    pub const DEFAULT: Settings = Settings {
        history: DEFAULT_REVISIONS,
        max_waiting_patches: DEFAULT_WAITING_PATCHES,
        rooms: DEFAULT_ROOMS,
        sessions: DEFAULT_SESSIONS,
        epoch: 1,
        history_weight: None,
        waiting_weight: None,
        telling_weight: None,
        view_weight: None,
    };
}
