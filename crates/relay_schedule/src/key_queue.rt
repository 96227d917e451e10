//! A queue of the keys of connections.
use std::alloc::{AllocError, Global};
use std::collections::VecDeque;
use std::marker::Model;

/// Keys in the order in which they came, each at most once. A key that was admitted is queued
/// without memory. Contracts see it as `Keys`: the keys that wait, and how many are admitted.
///
/// ```
/// let mut keys = KeyQueue::new(alloc);
/// keys.admit(7).ok()?;
/// keys.push(7);
/// keys.push(3);
/// keys.push(7);
/// assert!(rt; keys.pop() == Some(7) && keys.pop() == Some(3) && keys.pop() == None);
/// ```
#[derive(Drop)]
pub struct KeyQueue {
    keys: VecDeque<usize>,
    /// By key, whether it stands in the queue.
    queued: Vec<bool>,
}

impl Model for KeyQueue {
    ghost use Rattle.relay_schedule.specs.Queue.{Keys, keys_code};

    ghost Value = { Keys };

    ghost coded = { keys_code };

    ghost use Rattle.relay_schedule.specs.Representation.{keys_of, IsKept};

    ghost view = { keys_of };

    ghost invariant = { IsKept };
}

impl KeyQueue {
    ghost use Rattle.std.specs.Prelude.{◌≡◌, IsOk, OnOk, OnErr, length};
    ghost use Rattle.relay_schedule.specs.Queue.{IsQueue, Admits, no_keys, is_empty, waits};
    ghost use Rattle.relay_schedule.specs.Queue.{admitting, queued, first, without_first, served};

    /// A queue without keys, which admits none.
    ///
    /// ```
    /// let mut keys = KeyQueue::new(alloc);
    /// assert!(rt; keys.is_empty() && keys.pop() == None);
    /// ```
    pub fn new(alloc: Global) -> KeyQueue
        ensures { result ≡ no_keys }
    {
        KeyQueue {
            keys: VecDeque::new(alloc),
            queued: Vec::new(alloc),
        }
    }

    /// Takes the memory for a key, and for those below it. The keys that stand in the queue stay.
    /// A key that is admitted needs none. `AllocError` leaves the queue as it was.
    ///
    /// ```
    /// let mut keys = KeyQueue::new(alloc);
    /// keys.admit(1).ok()?;
    /// keys.push(0);
    /// assert!(rt; keys.contains(0));
    /// ```
    pub fn admit(&mut self, key: usize) -> Result<(), AllocError>
        ensures ok { OnOk result (self.new ≡ admitting key self.old) }
        ensures err { OnErr result (self.new ≡ self.old) }
        ensures kept { self.new.keys ≡ self.old.keys }
        ensures admitted { Admits key self.old → IsOk result }
    {
        let count = key.saturating_add(1);
        if count <= self.queued.len() {
            return Ok(());
        }
        self.keys.reserve(count.saturating_sub(self.keys.len()))?;
        self.queued.resize(count, false)
    }

    /// Puts a key behind the others, unless it stands in the queue. A key that was not admitted is
    /// ignored. Allocates nothing.
    ///
    /// ```
    /// let mut keys = KeyQueue::new(alloc);
    /// keys.admit(1).ok()?;
    /// keys.push(1);
    /// // Key 2 was not admitted.
    /// keys.push(2);
    /// assert!(rt; keys.len() == 1 && keys.pop() == Some(1));
    /// ```
    pub fn push(&mut self, key: usize)
        ensures { self.new ≡ queued key self.old }
    {
        if key >= self.queued.len() {
            return;
        }
        if self.queued[key] {
            return;
        }
        self.keys.push_back_reserved(key);
        self.queued[key] = true;
    }

    /// Takes the first key out, if there is one. Allocates nothing.
    ///
    /// ```
    /// let mut keys = KeyQueue::new(alloc);
    /// keys.admit(1).ok()?;
    /// keys.push(1);
    /// assert!(rt; keys.pop() == Some(1) && keys.pop() == None);
    /// ```
    pub fn pop(&mut self) -> Option<usize>
        ensures first { result ≡ first self.old }
        ensures rest { self.new ≡ without_first self.old }
    {
        let key = self.keys.pop_front()?;
        if key < self.queued.len() {
            self.queued[key] = false;
        }
        Some(key)
    }

    /// The number of keys that stand in the queue. As many turns serve each of them once, in their
    /// order, also if each that was served is queued again at once.
    ///
    /// ```
    /// let mut keys = KeyQueue::new(alloc);
    /// keys.admit(1).ok()?;
    /// keys.push(0);
    /// keys.push(1);
    /// assert!(rt; keys.len() == 2);
    /// ```
    pub fn len(&self) -> usize
        ensures kept { IsQueue self.now }
        ensures count { result ≡ length self.now.keys }
        ensures once_before_twice { served result self.now ≡ self.now.keys }
    {
        self.keys.len()
    }

    pub fn is_empty(&self) -> bool
        ensures { result ≡ is_empty self.now }
    {
        self.keys.is_empty()
    }

    /// True if a key stands in the queue.
    ///
    /// ```
    /// let mut keys = KeyQueue::new(alloc);
    /// keys.admit(1).ok()?;
    /// keys.push(1);
    /// assert!(rt; keys.contains(1) && !keys.contains(0));
    /// ```
    pub fn contains(&self, key: usize) -> bool
        ensures { result ≡ waits key self.now }
    {
        self.queued.get(key).copied().unwrap_or(false)
    }
}
