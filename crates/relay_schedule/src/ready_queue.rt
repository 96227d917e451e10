//! The connections that may be read, in the order of their turns.
use crate::credit::{Credit, Debt};
use crate::turn_line::TurnLine;
use std::alloc::{AllocError, Global};
use std::marker::Model;

/// Three lines of keys: of those with credit, which is served first, and two of those who owe, by
/// their debt. A server's round serves one key of either debt at least, and more while it has cost
/// less than its bound. So whoever is new waits for one heavy turn, and not for one of each that
/// owes it. No key is in two lines. Each line is visited in passes
/// ([`TurnLine`](crate::TurnLine)): who was skipped comes before who was served. A round of credit
/// ends with the pass in which the last of those who owed when it began had its turn or was
/// skipped. Contracts see it as `Lines`.
///
/// ```
/// let mut ready = ReadyQueue::new(alloc);
/// ready.admit(2).ok()?;
/// ready.push(1, Credit::of_new(ready.round()));
/// ready.push(2, Credit::fresh(ready.round()));
/// ready.begin_credited_pass();
/// ready.begin_owing_pass();
/// assert!(rt; ready.owing(Debt::Light) == 1 && ready.owing(Debt::Heavy) == 0);
/// assert!(rt; ready.credited() == 1);
/// ```
#[derive(Drop)]
pub struct ReadyQueue {
    credited: TurnLine,
    light: TurnLine,
    heavy: TurnLine,
    round: u64,
    /// The number of those in `light`, and of those in `heavy`, that were not visited in this
    /// round.
    light_left: usize,
    heavy_left: usize,
}

impl Model for ReadyQueue {
    ghost use Rattle.relay_schedule.specs.Ready.{Lines, lines_code};

    ghost Value = { Lines };

    ghost coded = { lines_code };

    ghost use Rattle.relay_schedule.specs.Representation.{lines_of, AreKept};

    ghost view = { lines_of };

    ghost invariant = { AreKept };
}

impl ReadyQueue {
    ghost use Rattle.std.specs.Prelude.{◌≡◌, IsOk, OnOk, OnErr, length, drop};
    ghost use Rattle.std.specs.Prelude.{if◌then◌else◌};
    ghost use Rattle.relay_schedule.specs.TurnLine.{first, order};
    ghost use Rattle.relay_schedule.specs.Ready.{AreLines, EachAdmits, LinesMayAdmit, no_lines};
    ghost use Rattle.relay_schedule.specs.Ready.{are_empty, stands, each_admitting, lined_up};
    ghost use Rattle.relay_schedule.specs.Ready.{skipped_in_line, in_credited_pass, in_owing_pass};
    ghost use Rattle.relay_schedule.specs.Ready.{in_round, is_over, owing, without_credited};
    ghost use Rattle.relay_schedule.specs.Ready.{without_owing, unserved};
    ghost use Rattle.relay_schedule.specs.declared.credit.Debt.{Debt};

    /// A queue without keys, which admits none.
    ///
    /// ```
    /// assert!(rt; ReadyQueue::new(alloc).is_empty());
    /// ```
    pub fn new(alloc: Global) -> ReadyQueue
        ensures { result ≡ no_lines }
    {
        ReadyQueue {
            credited: TurnLine::new(alloc),
            light: TurnLine::new(alloc),
            heavy: TurnLine::new(alloc),
            round: 1,
            light_left: 0,
            heavy_left: 0,
        }
    }

    /// Takes the memory for a key, and for those below it. A key that is admitted needs none.
    /// `AllocError` leaves the keys that are queued.
    ///
    /// ```
    /// let mut ready = ReadyQueue::new(alloc);
    /// ready.admit(3).ok()?;
    /// ready.push(2, Credit::of_new(ready.round()));
    /// assert!(rt; ready.contains(2));
    /// ```
    pub fn admit(&mut self, key: usize) -> Result<(), AllocError>
        ensures ok { OnOk result (self.new ≡ each_admitting key self.old) }
        ensures err { OnErr result (LinesMayAdmit key self.old self.new) }
        ensures admitted { EachAdmits key self.old → IsOk result }
    {
        self.credited.admit(key)?;
        self.light.admit(key)?;
        self.heavy.admit(key)
    }

    /// The round of credit.
    ///
    /// ```
    /// let mut ready = ReadyQueue::new(alloc);
    /// let before = ready.round();
    /// // Nobody owes, so the round ends.
    /// ready.begin_owing_pass();
    /// assert!(rt; ready.round() == before + 1);
    /// ```
    pub fn round(&self) -> u64
        ensures { result ≡ self.now.round }
    {
        self.round
    }

    /// Puts a key behind all others of its line, after its turn or when it becomes ready, unless it
    /// stands in a line. Allocates nothing.
    ///
    /// ```
    /// let mut ready = ReadyQueue::new(alloc);
    /// ready.admit(1).ok()?;
    /// // Connection 0 is new and owes; connection 1 has spent nothing.
    /// ready.push(0, Credit::of_new(ready.round()));
    /// ready.push(1, Credit::fresh(ready.round()));
    /// ready.begin_credited_pass();
    /// assert!(rt; ready.pop_credited() == Some(1) && ready.pop_credited() == None);
    /// ready.begin_owing_pass();
    /// assert!(rt; ready.pop_owing(Debt::Light) == Some(0));
    /// ```
    pub fn push(&mut self, key: usize, credit: Credit)
        ensures lined_up { self.new ≡ lined_up key credit self.old }
        ensures in_turn { (debt : Debt) → unserved debt self.new ≡ unserved debt self.old }
    {
        if self.contains(key) {
            return;
        }
        if credit.is_left() {
            self.credited.push(key);
        } else if credit.is_heavy {
            self.heavy.push(key);
        } else {
            self.light.push(key);
        }
    }

    /// Puts a key back that was taken out and could not be served: in its line behind those that
    /// the pass has still to visit, and before all that had a turn. Allocates nothing.
    ///
    /// ```
    /// let mut ready = ReadyQueue::new(alloc);
    /// ready.admit(1).ok()?;
    /// ready.push(0, Credit::of_new(ready.round()));
    /// ready.push(1, Credit::of_new(ready.round()));
    /// ready.begin_owing_pass();
    /// // Connection 0 has a turn, and connection 1 is skipped.
    /// ready.pop_owing(Debt::Light)?;
    /// ready.push(0, Credit::of_new(ready.round()));
    /// ready.pop_owing(Debt::Light)?;
    /// ready.skip(1, Credit::of_new(ready.round()));
    /// ready.begin_owing_pass();
    /// assert!(rt; ready.pop_owing(Debt::Light) == Some(1));
    /// assert!(rt; ready.pop_owing(Debt::Light) == Some(0));
    /// ```
    pub fn skip(&mut self, key: usize, credit: Credit)
        ensures skipped { self.new ≡ skipped_in_line key credit self.old }
        ensures in_turn { (debt : Debt) → unserved debt self.new ≡ unserved debt self.old }
    {
        if self.contains(key) {
            return;
        }
        if credit.is_left() {
            self.credited.skip(key);
        } else if credit.is_heavy {
            self.heavy.skip(key);
        } else {
            self.light.skip(key);
        }
    }

    /// Begins a pass of those with credit: all of them are to be visited, those first that had no
    /// turn in the last pass. Allocates nothing.
    ///
    /// ```
    /// let mut ready = ReadyQueue::new(alloc);
    /// ready.admit(0).ok()?;
    /// ready.push(0, Credit::fresh(ready.round()));
    /// // It came since the last pass began.
    /// assert!(rt; ready.pop_credited() == None);
    /// ready.begin_credited_pass();
    /// assert!(rt; ready.pop_credited() == Some(0));
    /// ```
    pub fn begin_credited_pass(&mut self)
        ensures { self.new ≡ in_credited_pass self.old }
    {
        self.credited.begin_pass();
    }

    /// Begins a pass of those who owe: all of them are to be visited, those first that had no turn
    /// in the last pass. If each that owed when the round of credit began has had a turn or was
    /// skipped, the next round begins too; so it does if nobody owes. Allocates nothing.
    ///
    /// ```
    /// let mut ready = ReadyQueue::new(alloc);
    /// ready.admit(1).ok()?;
    /// ready.push(1, Credit::of_new(ready.round()));
    /// ready.push(0, Credit::of_new(ready.round()));
    /// ready.begin_owing_pass();
    /// let round = ready.round();
    /// ready.pop_owing(Debt::Light)?;
    /// // The second one was not visited in the round.
    /// ready.begin_owing_pass();
    /// assert!(rt; ready.round() == round);
    /// ready.pop_owing(Debt::Light)?;
    /// ready.begin_owing_pass();
    /// assert!(rt; ready.round() == round + 1);
    /// ```
    pub fn begin_owing_pass(&mut self)
        ensures pass { self.new ≡ in_owing_pass self.old }
        ensures in_turn { (debt : Debt) → unserved debt self.new
            ≡ (if is_over self.old then order (owing debt self.old) else unserved debt self.old) }
    {
        self.light.begin_pass();
        self.heavy.begin_pass();
        self.begin_round();
    }

    /// Begins the next round of credit, if each of those who owed was visited in this one.
    fn begin_round(&mut self)
        ensures kept { AreLines self.new }
        ensures round { self.new ≡ in_round self.old }
    {
        if self.light_left == 0 && self.heavy_left == 0 {
            self.round = self.round.saturating_add(1);
            self.light_left = self.light.waiting();
            self.heavy_left = self.heavy.waiting();
        }
    }

    /// Takes out the first key that the pass of those with credit has still to visit. Allocates
    /// nothing.
    ///
    /// ```
    /// let mut ready = ReadyQueue::new(alloc);
    /// ready.admit(0).ok()?;
    /// ready.push(0, Credit::of_new(ready.round()));
    /// ready.begin_credited_pass();
    /// // It owes.
    /// assert!(rt; ready.pop_credited() == None);
    /// ```
    pub fn pop_credited(&mut self) -> Option<usize>
        ensures first { result ≡ first self.old.credited }
        ensures rest { self.new ≡ without_credited self.old }
    {
        self.credited.pop()
    }

    /// Takes out the first key with such a debt that the pass of those who owe has still to visit.
    /// Allocates nothing.
    ///
    /// ```
    /// let mut ready = ReadyQueue::new(alloc);
    /// ready.admit(1).ok()?;
    /// ready.push(1, Credit::of_new(ready.round()));
    /// ready.push(0, Credit::of_new(ready.round()));
    /// ready.begin_owing_pass();
    /// assert!(rt; ready.pop_owing(Debt::Light) == Some(1));
    /// assert!(rt; ready.pop_owing(Debt::Light) == Some(0));
    /// assert!(rt; ready.pop_owing(Debt::Light) == None);
    /// ```
    pub fn pop_owing(&mut self, debt: Debt) -> Option<usize>
        ensures first { result ≡ first (owing debt self.old) }
        ensures rest { self.new ≡ without_owing debt self.old }
        ensures in_turn { unserved debt self.new ≡ drop 1 (unserved debt self.old) }
    {
        match debt {
            Debt::Light => {
                self.light_left = self.light_left.saturating_sub(1);
                self.light.pop()
            }
            Debt::Heavy => {
                self.heavy_left = self.heavy_left.saturating_sub(1);
                self.heavy.pop()
            }
        }
    }

    /// The number of keys with credit that the pass has still to visit: all of them as it begins.
    /// As many visits meet each of them once ([`TurnLine::waiting`](crate::TurnLine::waiting)). A
    /// key that had a turn in the pass, or came since it began, does not count.
    ///
    /// ```
    /// let mut ready = ReadyQueue::new(alloc);
    /// ready.admit(0).ok()?;
    /// ready.push(0, Credit::fresh(ready.round()));
    /// ready.begin_credited_pass();
    /// assert!(rt; ready.credited() == 1 && ready.owing(Debt::Light) == 0);
    /// ```
    pub fn credited(&self) -> usize
        ensures kept { AreLines self.now }
        ensures count { result ≡ length self.now.credited.waiting }
    {
        self.credited.waiting()
    }

    /// The number of keys with such a debt that the pass has still to visit: all of them as it
    /// begins. A key that had a turn in the pass, or came since it began, does not count.
    ///
    /// ```
    /// let mut ready = ReadyQueue::new(alloc);
    /// ready.admit(0).ok()?;
    /// ready.push(0, Credit::of_new(ready.round()));
    /// ready.begin_owing_pass();
    /// assert!(rt; ready.owing(Debt::Light) == 1 && ready.credited() == 0);
    /// ```
    pub fn owing(&self, debt: Debt) -> usize
        ensures kept { AreLines self.now }
        ensures count { result ≡ length (owing debt self.now).waiting }
    {
        match debt {
            Debt::Light => self.light.waiting(),
            Debt::Heavy => self.heavy.waiting(),
        }
    }

    pub fn is_empty(&self) -> bool
        ensures { result ≡ are_empty self.now }
    {
        self.credited.is_empty() && self.light.is_empty() && self.heavy.is_empty()
    }

    /// True if a key stands in one of the lines.
    ///
    /// ```
    /// let mut ready = ReadyQueue::new(alloc);
    /// ready.admit(1).ok()?;
    /// ready.push(1, Credit::of_new(ready.round()));
    /// assert!(rt; ready.contains(1) && !ready.contains(0));
    /// ```
    pub fn contains(&self, key: usize) -> bool
        ensures { result ≡ stands key self.now }
    {
        self.credited.contains(key) || self.light.contains(key) || self.heavy.contains(key)
    }
}
