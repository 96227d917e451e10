//! The messages that the sessions of a hub drew, counted by kind.
ghost use Rattle.std.specs.Prelude.{◌≡◌};
ghost use Rattle.relay_proto.specs.Words.{word_text};
ghost use Rattle.relay_hub.specs.Counts.{next, no_snapshots, with_snapshot};

use crate::cost_meter::CostMeter;
use relay_proto::{Reply, Word};

/// The number of words that name the fault of a refusal.
const FAULTS: usize = 20;

/// The cause for which a snapshot is due.
#[derive(Clone, Copy)]
pub enum SnapshotCause {
    /// A client asked to watch.
    Watch,
    /// No patch answers a resume.
    Resume,
    /// No patch within the bounds tells of an edit.
    Edit,
    /// More patches waited than may.
    Patches,
    /// The patches that waited weighed more than they may.
    Weight,
    /// Memory was refused.
    Memory,
}

/// The number of messages that the sessions of a hub drew since it was made, by kind.
///
/// ```
/// let mut hub = Hub::new(alloc, 1, 1, 64, 32).ok()?;
/// let session = hub.open(alloc, "board", Access::ReadWrite).ok()?.session;
/// hub.receive(alloc, session, "[1,]").ok()?;
/// while hub.draw(alloc, session).ok()?.is_some() {}
/// // The welcome, and a refusal.
/// assert!(rt; hub.message_counts().replies == 2);
/// ```
#[derive(Clone, Copy)]
pub struct MessageCounts {
    /// Replies, refusals among them.
    pub replies: u64,
    /// Refusals, by the fault, in the order of [`Word`].
    pub refusals: [FaultCount; FAULTS],
    pub patches: u64,
    pub snapshots: SnapshotCounts,
    /// The cost of the draws.
    pub(crate) cost: CostMeter,
}

/// The number of refusals that name each fault.
///
/// ```
/// let mut hub = Hub::new(alloc, 1, 1, 64, 32).ok()?;
/// let session = hub.open(alloc, "board", Access::ReadWrite).ok()?.session;
/// hub.receive(alloc, session, "[1,]").ok()?;
/// while hub.draw(alloc, session).ok()?.is_some() {}
/// let refused = hub.message_counts().refusals.iter().find(|refusals| refusals.count > 0)?;
/// assert!(rt; refused.word() == "not-json" && refused.count == 1);
/// ```
#[derive(Clone, Copy)]
pub struct FaultCount {
    pub fault: Word,
    pub count: u64,
}

/// The number of snapshots that were drawn, by the cause for which they were due.
///
/// ```
/// let mut hub = Hub::new(alloc, 1, 1, 64, 32).ok()?;
/// let session = hub.open(alloc, "board", Access::ReadOnly).ok()?.session;
/// hub.receive(alloc, session, r#"{"do": "watch", "id": 1, "view": [""]}"#).ok()?;
/// while hub.draw(alloc, session).ok()?.is_some() {}
/// let snapshots = &hub.message_counts().snapshots;
/// assert!(rt; snapshots.watch == 1 && snapshots.resume == 0);
/// ```
#[derive(Clone, Copy)]
pub struct SnapshotCounts {
    pub watch: u64,
    pub resume: u64,
    pub edit: u64,
    pub patches: u64,
    pub weight: u64,
    pub memory: u64,
}

impl FaultCount {
    /// The word that refusals have for the fault.
    pub fn word(&self) -> &'static str
        ensures { result.now ≡ word_text self.now.fault }
    {
        self.fault.text()
    }
}

impl MessageCounts {
    /// Before anything was drawn.
    ///
    /// ```
    /// let counts = MessageCounts::none();
    /// assert!(rt; counts.replies == 0 && counts.refusals.iter().all(|word| word.count == 0));
    /// ```
    pub fn none() -> MessageCounts
        ensures replies { result.replies ≡ 0 }
        ensures patches { result.patches ≡ 0 }
        ensures snapshots { result.snapshots ≡ no_snapshots }
    {
        MessageCounts {
            replies: 0,
            refusals: [
                zero(Word::TooLong),
                zero(Word::NotJson),
                zero(Word::Number),
                zero(Word::Shape),
                zero(Word::TooMany),
                zero(Word::UnknownOp),
                zero(Word::Pointer),
                zero(Word::Missing),
                zero(Word::NotIndex),
                zero(Word::PastEnd),
                zero(Word::NoContainer),
                zero(Word::Root),
                zero(Word::IntoItself),
                zero(Word::TestFailed),
                zero(Word::TooDeep),
                zero(Word::TooHeavy),
                zero(Word::Exhausted),
                zero(Word::Stale),
                zero(Word::Future),
                zero(Word::ReadOnly),
            ],
            patches: 0,
            snapshots: SnapshotCounts {
                watch: 0,
                resume: 0,
                edit: 0,
                patches: 0,
                weight: 0,
                memory: 0,
            },
            cost: CostMeter::new(),
        }
    }

    /// Counts what a draw cost, in nanoseconds.
    pub(crate) fn count_cost(&mut self, nanos: u64)
        ensures replies { self.new.replies ≡ self.old.replies }
        ensures patches { self.new.patches ≡ self.old.patches }
        ensures snapshots { self.new.snapshots ≡ self.old.snapshots }
    {
        self.cost.add(nanos);
    }

    /// Counts a reply.
    ///
    /// ```
    /// let mut counts = MessageCounts::none();
    /// counts.count_reply(&Reply::Done { id: 1, rev: 4 });
    /// counts.count_reply(&Refusal { fault: Word::Shape, id: Some(2), at: None }.reply());
    /// let refused = counts.refusals.iter().find(|refusals| refusals.count > 0)?;
    /// assert!(rt; counts.replies == 2 && refused.word() == "shape");
    /// ```
    pub fn count_reply(&mut self, reply: &Reply)
        ensures replies { self.new.replies ≡ next self.old.replies }
        ensures patches { self.new.patches ≡ self.old.patches }
        ensures snapshots { self.new.snapshots ≡ self.old.snapshots }
    {
        self.replies = next(self.replies);
        if let Reply::Refused { fault, .. } = reply {
            self.count_refusal(*fault);
        }
    }

    fn count_refusal(&mut self, fault: Word)
        ensures replies { self.new.replies ≡ self.old.replies }
        ensures patches { self.new.patches ≡ self.old.patches }
        ensures snapshots { self.new.snapshots ≡ self.old.snapshots }
    {
        for refusals in self.refusals.iter_mut() {
            if refusals.fault == fault {
                refusals.count = next(refusals.count);
            }
        }
    }

    /// Counts a patch.
    ///
    /// ```
    /// let mut counts = MessageCounts::none();
    /// counts.count_patch();
    /// assert!(rt; counts.patches == 1 && counts.replies == 0);
    /// ```
    pub fn count_patch(&mut self)
        ensures { self.new ≡ record self.old { patches = next self.old.patches } }
    {
        self.patches = next(self.patches);
    }

    /// Counts a snapshot.
    pub fn count_snapshot(&mut self, cause: SnapshotCause)
        ensures { self.new
            ≡ record self.old { snapshots = with_snapshot cause self.old.snapshots } }
    {
        let counts = &mut self.snapshots;
        match cause {
            SnapshotCause::Watch => counts.watch = next(counts.watch),
            SnapshotCause::Resume => counts.resume = next(counts.resume),
            SnapshotCause::Edit => counts.edit = next(counts.edit),
            SnapshotCause::Patches => counts.patches = next(counts.patches),
            SnapshotCause::Weight => counts.weight = next(counts.weight),
            SnapshotCause::Memory => counts.memory = next(counts.memory),
        }
    }
}

fn zero(fault: Word) -> FaultCount
    ensures { result ≡ record { fault = fault; count = 0 } }
{
    FaultCount { fault, count: 0 }
}

fn next(count: u64) -> u64
    ensures { result ≡ next count }
{
    count.saturating_add(1)
}
