//! The configuration of a hub.
ghost use Rattle.std.specs.Prelude.{◌≡◌, ◌≤◌, ◌<◌, ◌⊎◌, ◌↔◌, OnOk, IsErrOf};
ghost use Rattle.std.specs.Bool.{MatchBool};
ghost use Rattle.relay_limits.specs.declared.TheConstants.{MAX_COUNT};
ghost use Rattle.relay_hub.specs.Queries.{BadLimits};
ghost use Rattle.relay_hub.specs.State.{IsConfig, config};
ghost use Rattle.relay_hub.specs.declared.fault.HubNewFault.TheVariants.{BadLimit};

use crate::fault::HubNewFault;
use relay_limits::{
    DEFAULT_ROOMS, DEFAULT_SESSIONS, MAX_COUNT, MAX_REVISIONS, MAX_ROOMS, MAX_SESSIONS,
    MAX_WAITING_PATCHES,
};
use relay_tree::Budget;

/// The configuration of a hub, which never changes.
///
/// ```
/// let config = HubConfig { sessions: 1, ..HubConfig::new(1, 1, 64, 32) };
/// let mut hub = Hub::with_config(alloc, config).ok()?;
/// assert!(rt; hub.open(alloc, "board", Access::ReadWrite).is_ok());
/// assert!(rt; hub.open(alloc, "board", Access::ReadWrite) == Err(OpenFault::SessionsFull));
/// ```
#[derive(Clone, Copy, Debug, PartialEq, Eq)]
pub struct HubConfig {
    /// The number of this run of the relay. A client of another epoch starts over.
    pub epoch: u64,
    /// The number of the first session.
    pub first: u64,
    /// The most rooms, 1 to 65,536.
    pub rooms: u64,
    /// The most sessions that are open at once, 1 to 65,536.
    pub sessions: u64,
    /// The most revisions whose changes a room keeps, 1 to 1,024.
    pub history: u64,
    /// The most patches that wait for a session, 1 to 256.
    pub max_waiting_patches: u64,
    /// The most that the changes a room keeps may weigh together.
    pub history_weight: Budget,
    /// The most that the patches waiting for a session may weigh together.
    pub waiting_weight: Budget,
    /// The most that the patches made for one edit may weigh together. A patch that several
    /// sessions share counts once.
    pub telling_weight: Budget,
    /// The most that the pointers of a view may weigh together.
    pub view_weight: Budget,
}

impl HubConfig {
    /// A configuration with these numbers, 64 rooms, 256 sessions, and no bound on weight.
    ///
    /// ```
    /// let config = HubConfig::new(1, 1, 64, 32);
    /// assert!(rt; config.rooms == DEFAULT_ROOMS && config.sessions == DEFAULT_SESSIONS);
    /// assert!(rt; config.view_weight == Budget::Unbounded);
    /// ```
    pub fn new(epoch: u64, first: u64, history: u64, max_waiting_patches: u64) -> HubConfig
        ensures { result ≡ config epoch first history max_waiting_patches }
    {
        HubConfig {
            epoch,
            first,
            rooms: DEFAULT_ROOMS,
            sessions: DEFAULT_SESSIONS,
            history,
            max_waiting_patches,
            history_weight: Budget::Unbounded,
            waiting_weight: Budget::Unbounded,
            telling_weight: Budget::Unbounded,
            view_weight: Budget::Unbounded,
        }
    }

    /// `BadLimit`: a number is out of its range, or `epoch` or `first` is not a count.
    #[tactic(auto, using(crate::proofs::Configs::bad_counts, crate::proofs::Configs::bad_history, crate::proofs::Configs::bad_waiting, crate::proofs::Configs::bad_rooms, crate::proofs::Configs::bad_sessions, crate::proofs::Configs::none_bad))]
    pub(crate) fn check(self) -> Result<(), HubNewFault>
        ensures ok { OnOk result (IsConfig self) }
        ensures bad_limit { IsErrOf result BadLimit ↔ BadLimits self }
    {
        if !are_counts(self.epoch, self.first) {
            return Err(HubNewFault::BadLimit);
        }
        if !is_in_range(self.history, MAX_REVISIONS) {
            return Err(HubNewFault::BadLimit);
        }
        if !is_in_range(self.max_waiting_patches, MAX_WAITING_PATCHES) {
            return Err(HubNewFault::BadLimit);
        }
        if !is_in_range(self.rooms, MAX_ROOMS) {
            return Err(HubNewFault::BadLimit);
        }
        if !is_in_range(self.sessions, MAX_SESSIONS) {
            return Err(HubNewFault::BadLimit);
        }
        Ok(())
    }
}

fn are_counts(epoch: u64, first: u64) -> bool
    ensures { MatchBool result ((epoch ≤ MAX_COUNT) × (first ≤ MAX_COUNT)) ((MAX_COUNT < epoch)
        ⊎ (MAX_COUNT < first)) }
{
    epoch <= MAX_COUNT && first <= MAX_COUNT
}

fn is_in_range(limit: u64, most: u64) -> bool
    ensures { MatchBool result ((1 ≤ limit) × (limit ≤ most)) ((limit < 1) ⊎ (most < limit)) }
{
    1 <= limit && limit <= most
}
