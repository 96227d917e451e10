//! The trait of a store.
ghost use Rattle.std.specs.Prelude.{◌≡◌, ℕ, OnOk, OnErr, map};
ghost use Rattle.relay_store.specs.Kept.{Kept, committed};
ghost use Rattle.relay_store.specs.Store.{Only, BeforeOrAfter, HasCause};
ghost use Rattle.relay_store.specs.Texts.{lent};

use crate::change::Change;
use crate::fault::StoreFault;

/// Keeps rooms and wills through the end of the process.
///
/// ```
/// let mut store = MemoryStore::new(alloc, 7);
/// let begin = Change::Begin { room: "board", revision: 4, text: "{}" };
/// store.commit(&[begin, Change::Edit { room: "board", revision: 5, text: "{}" }]).ok()?;
/// store.checkpoint().ok()?;
/// assert!(rt; store.read().ok()?.len() == 2);
/// ```
pub trait Keeps {
    /// The rooms and wills that the last commit left.
    ghost kept: { Self → Kept };

    /// All that a crash at this moment may leave.
    ghost may_leave: { Self → Kept → Type 0 };

    /// Nothing of a failed commit is under way. It holds of a store that was opened.
    ghost is_settled: { Self → Type 0 };

    /// So far the disk has returned what was written. Memory always does.
    ghost is_clean: { Self → Type 0 };

    /// The number of failures of the disk.
    ghost faults: { Self → ℕ };

    /// Nothing of what is kept is in the log beside the file: the file alone has all of it. Memory
    /// has no log.
    ghost is_checkpointed: { Self → Type 0 };

    /// Keeps the changes, all or none, before it returns. From `Ok` on a crash leaves them. After
    /// an error it leaves all of them or none, and nothing more may be committed: open the store
    /// again.
    fn commit(&mut self, changes: &[Change<&str>]) -> Result<(), StoreFault>
        requires settled { is_settled self.old }
        ensures settled { OnOk result (is_settled self.new) }
        ensures clean { is_clean self.new → is_clean self.old }
        ensures kept { is_clean self.new → OnOk result
            (kept self.new ≡ committed (kept self.old) (map lent changes.now)) }
        ensures either { is_clean self.new → OnErr result
            (BeforeOrAfter (kept self.old) (map lent changes.now) (may_leave self.new)) }
        ensures cause { is_clean self.new → HasCause (faults self.old) (faults self.new) result };

    /// Moves the log into the file, so that a copy of the file alone has all that is kept. Before
    /// and after, and after an error too, a crash leaves exactly that. After an error nothing more
    /// may be committed: open the store again.
    fn checkpoint(&mut self) -> Result<(), StoreFault>
        requires settled { is_settled self.old }
        ensures settled { OnOk result (is_settled self.new) }
        ensures clean { is_clean self.new → is_clean self.old }
        ensures moved { is_clean self.new → OnOk result (is_checkpointed self.new) }
        ensures kept { is_clean self.new → OnOk result (kept self.new ≡ kept self.old) }
        ensures stays { is_clean self.new → Only (kept self.old) (may_leave self.new) }
        ensures cause { is_clean self.new → HasCause (faults self.old) (faults self.new) result };

    /// While the store is settled, a crash leaves what is kept, and nothing else.
    ghost durable: { (store : Self) → is_settled store → is_clean store →
        Only (kept store) (may_leave store) × may_leave store (kept store) };
}
