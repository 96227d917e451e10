//! A revision: its changes and their weight, so that a history adds and subtracts the weight
//! without a walk.
ghost use Rattle.std.specs.Prelude.{◌≡◌};
ghost use Rattle.relay_history.specs.Trimmed.{revision_weight};
ghost use Rattle.relay_history.specs.Representation.{weight_of};

use relay_limits::MAX_COUNT;
use relay_patch::{Change, pay_changes};
use relay_tree::Budget;
use std::alloc::{AllocError, Global};
use std::marker::Model;

/// The weight of a change in a history besides its paths and its value, so that weight also bounds
/// the number of the changes that are held.
pub const CHANGE_WEIGHT: u64 = 64;

/// The memory for a revision. It is allocated before a patch is applied, so that keeping its
/// changes needs none.
///
/// ```
/// let mut history = History::new(alloc, 64, 0).ok()?;
/// let reserved = ReservedRevision::new(alloc).ok()?;
/// // From here on nothing can fail.
/// history.push(reserved, Vec::new(alloc));
/// assert!(rt; history.newest() == 1);
/// ```
#[derive(Drop)]
pub struct ReservedRevision {
    weighed: Box<Weighed>,
}

impl ReservedRevision {
    /// Allocates the memory.
    pub fn new(alloc: Global) -> Result<ReservedRevision, AllocError> {
        let nothing = Weighed {
            changes: Vec::new(alloc),
            weight: 0,
        };
        Ok(ReservedRevision {
            weighed: Box::new(alloc, nothing)?,
        })
    }

    /// Puts changes there, which are walked once. Allocates nothing.
    pub(crate) fn fill(self, changes: Vec<Change>) -> Revision
        ensures { result ≡ changes.items }
    {
        let weight = weigh(&changes);
        let mut weighed = self.weighed;
        *weighed = Weighed { changes, weight };
        Revision { weighed }
    }
}

/// Changes and their weight.
#[derive(Drop)]
struct Weighed {
    changes: Vec<Change>,
    weight: u64,
}

/// The changes of one revision, in an allocation of its own: so the ring of a history has room for
/// pointers alone. Contracts see it as the list of its changes.
#[derive(Drop)]
pub(crate) struct Revision {
    weighed: Box<Weighed>,
}

impl Model for Revision {
    ghost use Rattle.std.specs.Prelude.{◌≡◌, List};
    ghost use Rattle.std.specs.Coded.{coded_list};
    ghost use Rattle.relay_patch.specs.declared.change.Change.{Change};
    ghost use Rattle.relay_patch.specs.contracts.change.Change as change;
    ghost use Rattle.relay_history.specs.Trimmed.{revision_weight};

    ghost Value = { List Change };

    ghost coded = { coded_list change.the_row.coded };

    ghost view = { λ r. r.weighed.value.changes.items };

    ghost invariant = { λ r.
        r.weighed.value.weight ≡ revision_weight r.weighed.value.changes.items };
}

impl Revision {
    /// Returns the changes, in the order in which they were made.
    pub(crate) fn changes(&self) -> &[Change]
        ensures { result.now ≡ self.now }
    {
        &self.weighed.changes
    }

    /// Returns its weight, at most [`MAX_COUNT`].
    pub(crate) fn weight(&self) -> u64
        ensures { result ≡ revision_weight self.now }
    {
        self.weighed.weight
    }
}

/// Drops a revision and returns its weight, or 0 if there is none.
pub(crate) fn weight_of(revision: Option<Revision>) -> u64
    ensures { result ≡ weight_of revision }
{
    match revision {
        Some(revision) => revision.weight(),
        None => 0,
    }
}

/// Returns what changes weigh in a history: [`CHANGE_WEIGHT`] for each, and their own weight. If
/// that is above [`MAX_COUNT`], returns [`MAX_COUNT`].
fn weigh(changes: &[Change]) -> u64
    ensures { result ≡ revision_weight changes.now }
{
    let number = CHANGE_WEIGHT.saturating_mul(changes.len() as u64);
    let Some(rest) = Budget::Left(MAX_COUNT).pay(number) else {
        return MAX_COUNT;
    };
    match pay_changes(changes, rest) {
        Some(Budget::Left(left)) => MAX_COUNT - left,
        _ => MAX_COUNT,
    }
}
