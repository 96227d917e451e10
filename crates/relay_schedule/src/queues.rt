//! The queues of a server's connections that may have a turn.
use crate::credit::Credit;
use crate::key_queue::KeyQueue;
use crate::ready_queue::ReadyQueue;
use std::alloc::{AllocError, Global};

/// The output of a link.
///
/// ```
/// let mut queues = Queues::new(alloc);
/// queues.admit(1).ok()?;
/// let wants = Wants { read: false, corked: true, waiting: false, closing: false };
/// queues.push(1, wants, Credit::fresh(0));
/// assert!(rt; queues.pop_writer(Output::Waiting) == None);
/// assert!(rt; queues.pop_writer(Output::Corked) == Some(1));
/// ```
#[derive(Clone, Copy, Debug, PartialEq, Eq)]
pub enum Output {
    /// Output that was framed in a read turn, and corked.
    Corked,
    /// That, or messages that wait for the session.
    Waiting,
}

/// The turns that would do something for a connection.
///
/// ```
/// let mut queues = Queues::new(alloc);
/// queues.admit(1).ok()?;
/// let wants = Wants { read: true, corked: false, waiting: true, closing: false };
/// queues.push(1, wants, Credit::fresh(0));
/// queues.ready.begin_credited_pass();
/// assert!(rt; queues.ready.pop_credited() == Some(1));
/// assert!(rt; queues.pop_writer(Output::Waiting) == Some(1));
/// ```
#[derive(Clone, Copy, Debug, PartialEq, Eq)]
pub struct Wants {
    /// A read turn.
    pub read: bool,
    /// A write turn for corked output, and one for that or for messages that wait.
    pub corked: bool,
    pub waiting: bool,
    /// A read turn, also if nothing happens, so that a link does not wait for ever for the other
    /// side's close.
    pub closing: bool,
}

/// Five queues of connection keys: `ready` to read; `corked`, to write what a read turn framed;
/// `waiting`, to write anything; `held_back`; `closing`. A key stays queued if its connection is
/// dropped or no longer wants the turn, so a caller that pops a key checks the connection.
///
/// ```
/// let mut queues = Queues::new(alloc);
/// queues.admit(2).ok()?;
/// queues.push_writer(2);
/// queues.push_writer(1);
/// assert!(rt; queues.pop_writer(Output::Waiting) == Some(2));
/// assert!(rt; queues.pop_writer(Output::Waiting) == Some(1) && !queues.has_work());
/// ```
#[derive(Drop)]
pub struct Queues {
    pub ready: ReadyQueue,
    corked: KeyQueue,
    waiting: KeyQueue,
    held_back: KeyQueue,
    closing: KeyQueue,
}

impl Queues {
    ghost use Rattle.std.specs.Prelude.{◌≡◌, IsOk, OnOk, OnErr, length};
    ghost use Rattle.relay_schedule.specs.Queue.{first};
    ghost use Rattle.relay_schedule.specs.Queues.{AllAdmit, EachMayAdmit, no_queues, all_admitting};
    ghost use Rattle.relay_schedule.specs.Queues.{queued_for, with_writer, writers, without_writer};
    ghost use Rattle.relay_schedule.specs.Queues.{held_back, closing, with_held_back};
    ghost use Rattle.relay_schedule.specs.Queues.{without_held_back, without_closing, some_waits};
    ghost use Rattle.relay_schedule.specs.Queues.{waits_for};

    /// Queues without keys, which admit none.
    ///
    /// ```
    /// assert!(rt; !Queues::new(alloc).has_work());
    /// ```
    pub fn new(alloc: Global) -> Queues
        ensures { result ≡ no_queues }
    {
        Queues {
            ready: ReadyQueue::new(alloc),
            corked: KeyQueue::new(alloc),
            waiting: KeyQueue::new(alloc),
            held_back: KeyQueue::new(alloc),
            closing: KeyQueue::new(alloc),
        }
    }

    /// Takes the memory for a key in each queue, and for those below it. A key that is admitted
    /// needs none. `AllocError` leaves the keys that are queued.
    ///
    /// ```
    /// let mut queues = Queues::new(alloc);
    /// // Key 0 is not admitted yet, so it is ignored.
    /// queues.push_writer(0);
    /// assert!(rt; queues.writers(Output::Waiting) == 0);
    /// queues.admit(0).ok()?;
    /// queues.push_writer(0);
    /// assert!(rt; queues.writers(Output::Waiting) == 1);
    /// ```
    pub fn admit(&mut self, key: usize) -> Result<(), AllocError>
        ensures ok { OnOk result (self.new ≡ all_admitting key self.old) }
        ensures err { OnErr result (EachMayAdmit key self.old self.new) }
        ensures admitted { AllAdmit key self.old → IsOk result }
    {
        self.ready.admit(key)?;
        self.corked.admit(key)?;
        self.waiting.admit(key)?;
        self.held_back.admit(key)?;
        self.closing.admit(key)
    }

    /// Queues a key behind the others for each turn that its connection wants. Whoever owes is
    /// written to among all others, also for corked output. Allocates nothing.
    ///
    /// ```
    /// let mut queues = Queues::new(alloc);
    /// queues.admit(1).ok()?;
    /// let wants = Wants { read: true, corked: false, waiting: false, closing: false };
    /// // A new connection owes.
    /// queues.push(1, wants, Credit::of_new(0));
    /// queues.ready.begin_owing_pass();
    /// assert!(rt; queues.ready.credited() == 0 && queues.ready.pop_owing(Debt::Light) == Some(1));
    /// ```
    pub fn push(&mut self, key: usize, wants: Wants, credit: Credit)
        ensures { self.new ≡ queued_for key wants credit self.old }
    {
        if wants.read {
            self.ready.push(key, credit);
        }
        if wants.corked && credit.is_left() {
            self.corked.push(key);
        }
        if wants.waiting {
            self.waiting.push(key);
        }
        if wants.closing {
            self.closing.push(key);
        }
    }

    /// Queues a key for a write turn, for messages that wait. Allocates nothing.
    ///
    /// ```
    /// let mut queues = Queues::new(alloc);
    /// queues.admit(1).ok()?;
    /// queues.push_writer(1);
    /// queues.push_writer(1);
    /// assert!(rt; queues.writers(Output::Waiting) == 1 && queues.writers(Output::Corked) == 0);
    /// ```
    pub fn push_writer(&mut self, key: usize)
        ensures { self.new ≡ with_writer key self.old }
    {
        self.waiting.push(key);
    }

    /// Takes out the first key of the connections that may be written to, for such output.
    ///
    /// ```
    /// let mut queues = Queues::new(alloc);
    /// queues.admit(1).ok()?;
    /// queues.push_writer(1);
    /// assert!(rt; queues.pop_writer(Output::Corked) == None);
    /// assert!(rt; queues.pop_writer(Output::Waiting) == Some(1));
    /// ```
    pub fn pop_writer(&mut self, output: Output) -> Option<usize>
        ensures first { result ≡ first (writers output self.old) }
        ensures rest { self.new ≡ without_writer output self.old }
    {
        match output {
            Output::Corked => self.corked.pop(),
            Output::Waiting => self.waiting.pop(),
        }
    }

    /// Puts a key aside whose messages have to wait. Allocates nothing.
    ///
    /// ```
    /// let mut queues = Queues::new(alloc);
    /// queues.admit(1).ok()?;
    /// queues.hold_back(1);
    /// assert!(rt; queues.held_back() == 1 && !queues.has_work());
    /// ```
    pub fn hold_back(&mut self, key: usize)
        ensures { self.new ≡ with_held_back key self.old }
    {
        self.held_back.push(key);
    }

    /// Takes out the first key that was put aside.
    ///
    /// ```
    /// let mut queues = Queues::new(alloc);
    /// queues.admit(1).ok()?;
    /// queues.hold_back(1);
    /// assert!(rt; queues.pop_held_back() == Some(1) && queues.pop_held_back() == None);
    /// ```
    pub fn pop_held_back(&mut self) -> Option<usize>
        ensures first { result ≡ first (held_back self.old) }
        ensures rest { self.new ≡ without_held_back self.old }
    {
        self.held_back.pop()
    }

    /// The number of keys that were put aside.
    ///
    /// ```
    /// let mut queues = Queues::new(alloc);
    /// queues.admit(1).ok()?;
    /// queues.hold_back(0);
    /// queues.hold_back(1);
    /// assert!(rt; queues.held_back() == 2);
    /// ```
    pub fn held_back(&self) -> usize
        ensures { result ≡ length (held_back self.now).keys }
    {
        self.held_back.len()
    }

    /// Takes out the first key of the connections that are closing.
    ///
    /// ```
    /// let mut queues = Queues::new(alloc);
    /// queues.admit(1).ok()?;
    /// let wants = Wants { read: false, corked: false, waiting: false, closing: true };
    /// queues.push(1, wants, Credit::fresh(0));
    /// assert!(rt; queues.pop_closing() == Some(1) && queues.pop_closing() == None);
    /// ```
    pub fn pop_closing(&mut self) -> Option<usize>
        ensures first { result ≡ first (closing self.old) }
        ensures rest { self.new ≡ without_closing self.old }
    {
        self.closing.pop()
    }

    /// The number of keys of connections that are closing.
    ///
    /// ```
    /// let mut queues = Queues::new(alloc);
    /// queues.admit(1).ok()?;
    /// let wants = Wants { read: false, corked: false, waiting: false, closing: true };
    /// queues.push(1, wants, Credit::fresh(0));
    /// assert!(rt; queues.closing() == 1 && !queues.has_work());
    /// ```
    pub fn closing(&self) -> usize
        ensures { result ≡ length (closing self.now).keys }
    {
        self.closing.len()
    }

    /// The number of keys that wait for a write turn.
    ///
    /// ```
    /// let mut queues = Queues::new(alloc);
    /// queues.admit(1).ok()?;
    /// queues.push_writer(0);
    /// queues.push_writer(1);
    /// assert!(rt; queues.writers(Output::Waiting) == 2);
    /// ```
    pub fn writers(&self, output: Output) -> usize
        ensures { result ≡ length (writers output self.now).keys }
    {
        match output {
            Output::Corked => self.corked.len(),
            Output::Waiting => self.waiting.len(),
        }
    }

    /// True if a key waits for a turn that can be given now, so that it is neither held back nor
    /// closing.
    ///
    /// ```
    /// let mut queues = Queues::new(alloc);
    /// queues.admit(1).ok()?;
    /// queues.push_writer(1);
    /// assert!(rt; queues.has_work());
    /// queues.pop_writer(Output::Waiting)?;
    /// assert!(rt; !queues.has_work());
    /// ```
    pub fn has_work(&self) -> bool
        ensures { result ≡ some_waits self.now }
    {
        !self.ready.is_empty() || !self.corked.is_empty() || !self.waiting.is_empty()
    }

    /// True if a key waits for each turn that its connection wants.
    ///
    /// ```
    /// let mut queues = Queues::new(alloc);
    /// queues.admit(1).ok()?;
    /// let wants = Wants { read: false, corked: false, waiting: true, closing: false };
    /// assert!(rt; !queues.has(1, wants));
    /// queues.push_writer(1);
    /// assert!(rt; queues.has(1, wants));
    /// ```
    pub fn has(&self, key: usize, wants: Wants) -> bool
        ensures { result ≡ waits_for key wants self.now }
    {
        (!wants.read || self.ready.contains(key))
            && (!wants.corked || self.corked.contains(key) || self.waiting.contains(key))
            && (!wants.waiting || self.waiting.contains(key) || self.held_back.contains(key))
            && (!wants.closing || self.closing.contains(key))
    }
}
