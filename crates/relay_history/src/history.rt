//! A ring buffer of the changes of the last revisions, allocated once, with a pointer for each. A
//! new revision takes one place; if all are taken, it replaces the oldest revision. The newest
//! revision is in front, so the revisions after any given one are always a prefix. The total weight
//! of the held revisions is stored beside them, so trimming a history to a weight walks no change.
use crate::fault::HistoryFault;
use crate::revision::{ReservedRevision, Revision, weight_of};
use crate::since::Since;
use circular_buffer::HeapCircularBuffer;
use relay_limits::{MAX_COUNT, MAX_REVISIONS};
use relay_patch::Change;
use relay_tree::Budget;
use std::alloc::Global;
use std::marker::Model;

/// The last revision that a document can have, `2^53 - 1`.
pub const LAST_REVISION: u64 = MAX_COUNT;

/// The changes of a document's last revisions. Contracts see it as a `Past`: the newest revision,
/// the most revisions that are held, and the changes of each held one.
///
/// ```
/// let mut history = History::new(alloc, 2, 5).ok()?;
/// for _ in 0..3 {
///     history.push(ReservedRevision::new(alloc).ok()?, Vec::new(alloc));
/// }
/// // Of the revisions 6, 7 and 8 the last two are held.
/// assert!(rt; history.newest() == 8 && history.oldest() == 6);
/// ```
#[derive(Drop)]
pub struct History {
    newest: u64,
    revisions: HeapCircularBuffer<Revision>,
    /// The total weight of the revisions.
    weight: u64,
}

impl Model for History {
    ghost use Rattle.relay_patch.specs.contracts.change.Change as change;
    ghost use Rattle.relay_history.specs.History.{Past, past_code};

    ghost Value = { Past };

    ghost coded = { past_code change.the_row.coded };

    ghost use Rattle.relay_history.specs.Representation.{past_of, IsKept};

    ghost view = { past_of };

    ghost invariant = { IsKept };
}

impl History {
    ghost use Rattle.std.specs.Prelude.{◌≡◌, ◌<◌, ◌≤◌, ◌↔◌, ◌⊎◌, IfOk, IsErrOf, IfSome, IsSome};
    ghost use Rattle.std.specs.Option.{is_none};
    ghost use Rattle.relay_tree.specs.Budget.{paid};
    ghost use Rattle.relay_history.specs.History.{begun, with_revision, oldest, Reaches};
    ghost use Rattle.relay_history.specs.History.{changes_since, IsHistory};
    ghost use Rattle.relay_history.specs.Trimmed.{history_weight, trimmed};
    ghost use Rattle.relay_history.specs.Representation.{without_oldest};

    /// Creates a history that holds no revision yet. Its newest revision is `start`, and it will
    /// hold at most `limit`. Allocates all the memory that its ring of revisions needs. Returns
    /// `BadLimit` if `limit` is not 1 to [`MAX_REVISIONS`] or `start` is above [`LAST_REVISION`],
    /// and `NoMemory` if memory runs out.
    ///
    /// ```
    /// let history = History::new(alloc, 64, 5).ok()?;
    /// assert!(rt; history.newest() == 5 && history.oldest() == 5 && history.weight() == 0);
    /// ```
    pub fn new(alloc: Global, limit: u64, start: u64) -> Result<History, HistoryFault>
        ensures ok { IfOk result (λ history. history ≡ begun limit start) }
        ensures bad_limit { IsErrOf result HistoryFault.BadLimit ↔
            ((limit < 1) ⊎ (MAX_REVISIONS < limit) ⊎ (LAST_REVISION < start)) }
    {
        if limit < 1 || limit > MAX_REVISIONS || start > LAST_REVISION {
            return Err(HistoryFault::BadLimit);
        }
        let revisions = HeapCircularBuffer::with_capacity(alloc, limit as usize)?;
        Ok(History {
            newest: start,
            revisions,
            weight: 0,
        })
    }

    /// Adds the changes of the next revision, which are walked once, in memory that was reserved.
    /// If the limit of revisions is reached, the oldest is forgotten. Allocates nothing.
    ///
    /// ```
    /// let mut history = History::new(alloc, 64, 0).ok()?;
    /// let mut changes = Vec::new(alloc);
    /// changes.push(Change::DropItem { path: Pointer::read(alloc, "/0", 64).ok()? }).ok()?;
    /// history.push(ReservedRevision::new(alloc).ok()?, changes);
    /// assert!(rt; history.newest() == 1);
    /// ```
    #[tactic(auto, using(crate::proofs::Weights::one_more_fits, crate::proofs::Weights::one_within_more, crate::proofs::Weights::kept_with_revision))]
    pub fn push(&mut self, reserved: ReservedRevision, changes: Vec<Change>)
        requires { self.old.newest < LAST_REVISION }
        ensures { self.new ≡ with_revision changes.items self.old }
    {
        let revision = reserved.fill(changes);
        self.weight += revision.weight();
        let oldest = self.revisions.push_front(revision);
        self.weight -= weight_of(oldest);
        self.newest += 1;
    }

    /// Forgets the oldest revisions until the rest together weigh no more than the budget; none if
    /// the budget is [`Budget::Unbounded`]. Walks no change, so the cost is that of dropping what
    /// is forgotten. Allocates nothing.
    ///
    /// ```
    /// let mut history = History::new(alloc, 64, 0).ok()?;
    /// let mut changes = Vec::new(alloc);
    /// changes.push(Change::DropItem { path: Pointer::read(alloc, "/0", 64).ok()? }).ok()?;
    /// history.push(ReservedRevision::new(alloc).ok()?, changes);
    /// history.trim(Budget::Left(CHANGE_WEIGHT));
    /// // The change weighs more, for its path.
    /// assert!(rt; history.since(0).is_none() && history.weight() == 0);
    /// ```
    #[tactic(auto, using(crate::proofs::Trims::trimmed_all, crate::proofs::Trims::trimmed_without_oldest))]
    pub fn trim(&mut self, budget: Budget)
        ensures { self.new ≡ trimmed budget self.old }
    {
        while self.exceeds(budget) {
            self.forget_oldest();
        }
    }

    /// Returns what the held revisions weigh together. Allocates nothing.
    ///
    /// ```
    /// let mut history = History::new(alloc, 64, 0).ok()?;
    /// let mut changes = Vec::new(alloc);
    /// changes.push(Change::DropItem { path: Pointer::read(alloc, "/0", 64).ok()? }).ok()?;
    /// history.push(ReservedRevision::new(alloc).ok()?, changes);
    /// assert!(rt; history.weight() == CHANGE_WEIGHT + 8 + 1);
    /// ```
    pub fn weight(&self) -> u64
        ensures { result ≡ history_weight self.now }
    {
        self.weight
    }

    /// Returns whether the held revisions together weigh more than the budget.
    fn exceeds(&self, budget: Budget) -> bool
        ensures { result ≡ is_none (paid (history_weight self.now) budget) }
    {
        budget.pay(self.weight).is_none()
    }

    /// Forgets the oldest revision, if one is held.
    #[tactic(auto, using(crate::proofs::Weights::one_within))]
    fn forget_oldest(&mut self)
        ensures { self.new ≡ without_oldest self.old }
    {
        let oldest = self.revisions.pop_back();
        self.weight -= weight_of(oldest);
    }

    /// Returns the newest revision. Allocates nothing.
    ///
    /// ```
    /// let mut history = History::new(alloc, 64, 5).ok()?;
    /// history.push(ReservedRevision::new(alloc).ok()?, Vec::new(alloc));
    /// assert!(rt; history.newest() == 6);
    /// ```
    pub fn newest(&self) -> u64
        ensures kept { IsHistory self.now }
        ensures newest { result ≡ self.now.newest }
    {
        self.newest
    }

    /// Returns the oldest revision after which all changes are held, the least for which
    /// [`History::since`] returns `Some`. Allocates nothing.
    ///
    /// ```
    /// let mut history = History::new(alloc, 1, 5).ok()?;
    /// history.push(ReservedRevision::new(alloc).ok()?, Vec::new(alloc));
    /// assert!(rt; history.oldest() == 5);
    /// history.push(ReservedRevision::new(alloc).ok()?, Vec::new(alloc));
    /// assert!(rt; history.oldest() == 6);
    /// ```
    pub fn oldest(&self) -> u64
        ensures kept { IsHistory self.now }
        ensures oldest { result ≡ oldest self.now }
    {
        self.newest - self.revisions.len() as u64
    }

    /// Returns the changes after a revision, in order: those of `rev + 1` to the newest. Returns
    /// `None` if `rev` is above the newest revision or below [`History::oldest`]. Allocates
    /// nothing.
    ///
    /// ```
    /// let mut history = History::new(alloc, 1, 5).ok()?;
    /// history.push(ReservedRevision::new(alloc).ok()?, Vec::new(alloc));
    /// let mut changes = Vec::new(alloc);
    /// changes.push(Change::DropItem { path: Pointer::read(alloc, "/0", 64).ok()? }).ok()?;
    /// history.push(ReservedRevision::new(alloc).ok()?, changes);
    /// // The newest revision is 7. One is held, so what led from 5 to 6 is forgotten.
    /// let missed: Vec<&Change> = history.since(6)?.collect(alloc).ok()?;
    /// assert!(rt; missed.len() == 1 && history.since(5).is_none());
    /// ```
    pub fn since(&self, rev: u64) -> Option<Since<'_>>
        ensures reaches { IsSome result ↔ Reaches self.now rev }
        ensures changes { IfSome result (λ changes. changes ≡ changes_since rev self.now) }
    {
        if rev < self.oldest() || rev > self.newest {
            return None;
        }
        Some(Since::of_first(&self.revisions, (self.newest - rev) as usize))
    }
}
