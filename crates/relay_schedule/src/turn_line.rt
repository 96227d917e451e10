//! A line of the keys of connections, of which a pass visits each once.
use std::alloc::{AllocError, Global};
use std::collections::VecDeque;
use std::marker::Model;
use std::mem;

/// Keys that wait for a turn, each at most once, in two parts: `waiting`, which a pass visits, and
/// `served`, which had a turn in it, or came since it began. A key that a pass skips, because it
/// cannot be served now, stays in `waiting`, so the next pass visits it before any that was served.
/// A key that was admitted needs no memory. Contracts see it as `Line`.
///
/// ```
/// let mut line = TurnLine::new(alloc);
/// line.admit(2).ok()?;
/// line.push(1);
/// line.push(2);
/// line.begin_pass();
/// // Key 1 is served, and key 2 is skipped.
/// line.pop()?;
/// line.push(1);
/// line.pop()?;
/// line.skip(2);
/// line.begin_pass();
/// assert!(rt; line.pop() == Some(2) && line.pop() == Some(1) && line.pop() == None);
/// ```
#[derive(Drop)]
pub struct TurnLine {
    waiting: VecDeque<usize>,
    served: VecDeque<usize>,
    /// By key, whether it stands in the line.
    standing: Vec<bool>,
}

impl Model for TurnLine {
    ghost use Rattle.relay_schedule.specs.TurnLine.{Line, line_code};

    ghost Value = { Line };

    ghost coded = { line_code };

    ghost use Rattle.relay_schedule.specs.Representation.{line_of, IsLinedUp};

    ghost view = { line_of };

    ghost invariant = { IsLinedUp };
}

impl TurnLine {
    ghost use Rattle.std.specs.Prelude.{ℕ, ◌≡◌, Bool, List, IsOk, OnOk, OnErr, length, false, true};
    ghost use Rattle.relay_schedule.specs.TurnLine.{IsLine, Admits, Act, no_line, is_empty, holds};
    ghost use Rattle.relay_schedule.specs.TurnLine.{admitting, pushed, skipped, first};
    ghost use Rattle.relay_schedule.specs.TurnLine.{without_first, in_new_pass, met, overtakes};

    /// A line without keys, which admits none.
    ///
    /// ```
    /// let mut line = TurnLine::new(alloc);
    /// assert!(rt; line.is_empty() && line.pop() == None);
    /// ```
    pub fn new(alloc: Global) -> TurnLine
        ensures { result ≡ no_line }
    {
        TurnLine {
            waiting: VecDeque::new(alloc),
            served: VecDeque::new(alloc),
            standing: Vec::new(alloc),
        }
    }

    /// Takes the memory for a key, and for those below it. A key that is admitted needs none.
    /// `AllocError` leaves the line as it was.
    ///
    /// ```
    /// let mut line = TurnLine::new(alloc);
    /// line.admit(1).ok()?;
    /// line.push(0);
    /// assert!(rt; line.contains(0));
    /// ```
    pub fn admit(&mut self, key: usize) -> Result<(), AllocError>
        ensures ok { OnOk result (self.new ≡ admitting key self.old) }
        ensures err { OnErr result (self.new ≡ self.old) }
        ensures waiting { self.new.waiting ≡ self.old.waiting }
        ensures served { self.new.served ≡ self.old.served }
        ensures admitted { Admits key self.old → IsOk result }
    {
        let count = key.saturating_add(1);
        if count <= self.standing.len() {
            return Ok(());
        }
        self.waiting
            .reserve(count.saturating_sub(self.waiting.len()))?;
        self.served
            .reserve(count.saturating_sub(self.served.len()))?;
        self.standing.resize(count, false)
    }

    /// Puts a key behind all others, after its turn or when it comes, unless it stands in the line.
    /// A key that was not admitted is ignored. Allocates nothing. Between this turn and its next,
    /// each other key of the line has a turn, or is skipped in the pass of that next turn.
    ///
    /// ```
    /// let mut line = TurnLine::new(alloc);
    /// line.admit(1).ok()?;
    /// line.push(1);
    /// // Key 2 was not admitted.
    /// line.push(2);
    /// line.begin_pass();
    /// assert!(rt; line.pop() == Some(1) && line.is_empty());
    /// ```
    pub fn push(&mut self, key: usize)
        ensures behind_all { self.new ≡ pushed key self.old }
        ensures not_overtaken { (other : ℕ) (acts : List Act) → Admits key self.old
            → holds key self.old ≡ false → holds other self.old ≡ true
            → overtakes key other acts self.new ≡ false }
    {
        if key >= self.standing.len() {
            return;
        }
        if self.standing[key] {
            return;
        }
        self.served.push_back_reserved(key);
        self.standing[key] = true;
    }

    /// Puts a key back that was taken out and could not be served: behind those that wait, and
    /// before all that were served. A key that was not admitted is ignored. Allocates nothing.
    ///
    /// ```
    /// let mut line = TurnLine::new(alloc);
    /// line.admit(1).ok()?;
    /// line.push(0);
    /// line.skip(1);
    /// line.begin_pass();
    /// assert!(rt; line.pop() == Some(1) && line.pop() == Some(0));
    /// ```
    pub fn skip(&mut self, key: usize)
        ensures { self.new ≡ skipped key self.old }
    {
        if key >= self.standing.len() {
            return;
        }
        if self.standing[key] {
            return;
        }
        self.waiting.push_back_reserved(key);
        self.standing[key] = true;
    }

    /// Takes out the first key that waits, if any does. Allocates nothing.
    ///
    /// ```
    /// let mut line = TurnLine::new(alloc);
    /// line.admit(1).ok()?;
    /// line.push(1);
    /// // It came since the pass began.
    /// assert!(rt; line.pop() == None);
    /// line.begin_pass();
    /// assert!(rt; line.pop() == Some(1));
    /// ```
    pub fn pop(&mut self) -> Option<usize>
        ensures first { result ≡ first self.old }
        ensures rest { self.new ≡ without_first self.old }
    {
        let key = self.waiting.pop_front()?;
        if key < self.standing.len() {
            self.standing[key] = false;
        }
        Some(key)
    }

    /// Begins a pass: puts those that were served behind those that wait. Costs as much as keys are
    /// moved, each of which came by a `push` of its own; and nothing if none waits. Allocates
    /// nothing.
    ///
    /// ```
    /// let mut line = TurnLine::new(alloc);
    /// line.admit(1).ok()?;
    /// line.push(1);
    /// assert!(rt; line.waiting() == 0);
    /// line.begin_pass();
    /// assert!(rt; line.waiting() == 1);
    /// ```
    pub fn begin_pass(&mut self)
        ensures { self.new ≡ in_new_pass self.old }
    {
        if self.waiting.is_empty() {
            mem::swap(&mut self.waiting, &mut self.served);
        } else {
            let _ = self.waiting.append(&mut self.served);
        }
    }

    /// The number of keys that wait. As many visits meet each of them once, in their order, also if
    /// each is put back at once, whichever of them are served.
    ///
    /// ```
    /// let mut line = TurnLine::new(alloc);
    /// line.admit(1).ok()?;
    /// line.push(0);
    /// line.begin_pass();
    /// line.push(1);
    /// assert!(rt; line.waiting() == 1);
    /// ```
    pub fn waiting(&self) -> usize
        ensures kept { IsLine self.now }
        ensures count { result ≡ length self.now.waiting }
        ensures each_once { (served : List Bool) → length served ≡ result
            → met served self.now ≡ self.now.waiting }
    {
        self.waiting.len()
    }

    pub fn is_empty(&self) -> bool
        ensures { result ≡ is_empty self.now }
    {
        self.waiting.is_empty() && self.served.is_empty()
    }

    /// True if a key stands in the line.
    ///
    /// ```
    /// let mut line = TurnLine::new(alloc);
    /// line.admit(1).ok()?;
    /// line.push(1);
    /// assert!(rt; line.contains(1) && !line.contains(0));
    /// ```
    pub fn contains(&self, key: usize) -> bool
        ensures { result ≡ holds key self.now }
    {
        self.standing.get(key).copied().unwrap_or(false)
    }
}
