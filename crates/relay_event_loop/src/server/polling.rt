//! A round's poll, by which it learns what became ready.
ghost use Rattle.relay_event_loop.specs.Advances.{KeepsFewer};

use super::Server;
use relay_readiness::{Readiness, ReadyEvent, StreamReady};
use std::io::{Read, Write};
use std::net::OpenStream;
use std::time::Duration;

/// The maximum time for which a round waits if it has no work, in milliseconds.
const WAIT: u64 = 100;

impl<S: Read + Write + OpenStream + Drop, R: Readiness<S>> Server<S, R> {
    /// Polls what became ready, and waits if there is no work.
    #[tactic(auto, using(crate::proofs::Rules::advances))]
    pub(super) fn poll(&mut self)
        ensures { KeepsFewer S.remaining S.contents self.old self.new }
    {
        let has_work = self.has_work();
        let most = Duration::from_millis(if has_work { 0 } else { WAIT });
        self.events.clear();
        let told = self.readiness.wait(most, &mut self.events);
        if told.is_err() {
            self.mark_all();
            return;
        }
        if !has_work && self.events.is_empty() {
            self.mark_closing();
        }
        for index in 0..self.events.len() {
            if let Some(event) = self.event_at(index) {
                self.apply(event);
            }
        }
        if self.accept_failed {
            self.accept_failed = false;
            self.accept_ready = true;
        }
    }

    /// True if there is work without further events.
    fn has_work(&self) -> bool {
        self.accept_ready
            || self.hub.has_wills()
            || self.queues.has_work()
            || (self.queues.held_back() > 0 && !self.output.is_crowded())
    }

    /// The event at an index.
    fn event_at(&self, index: usize) -> Option<ReadyEvent> {
        self.events.get(index).copied()
    }

    /// Applies an event. An event of a dropped connection is ignored.
    #[tactic(auto, using(crate::proofs::Rules::advances))]
    fn apply(&mut self, event: ReadyEvent)
        ensures { KeepsFewer S.remaining S.contents self.old self.new }
    {
        match event {
            ReadyEvent::Incoming => self.accept_ready = true,
            ReadyEvent::Second => self.seconds = self.seconds.saturating_add(1),
            ReadyEvent::Stream { key, ready } => self.announce(key, ready),
        }
    }

    /// Marks everything as ready.
    #[tactic(auto, using(crate::proofs::Rules::advances))]
    fn mark_all(&mut self)
        ensures { KeepsFewer S.remaining S.contents self.old self.new }
    {
        self.accept_ready = true;
        for key in 0..self.key_limit() {
            self.announce(key, StreamReady::ALL);
        }
    }

    /// Records what the stream of a connection is ready for, and queues the connection.
    #[tactic(auto, using(crate::proofs::Rules::advances))]
    fn announce(&mut self, key: usize, ready: StreamReady)
        ensures { KeepsFewer S.remaining S.contents self.old self.new }
    {
        self.wake(key, ready);
        self.queue(key);
    }

    /// Records what the stream of a connection is ready for, if the connection is held.
    #[tactic(auto, using(crate::proofs::Rules::advances))]
    fn wake(&mut self, key: usize, ready: StreamReady)
        ensures { KeepsFewer S.remaining S.contents self.old self.new }
    {
        let Some(connection) = self.connections.get_mut(key) else {
            return;
        };
        connection.wake(ready);
    }

    /// Gives each closing link a read turn.
    #[tactic(auto, using(crate::proofs::Rules::advances))]
    fn mark_closing(&mut self)
        ensures { KeepsFewer S.remaining S.contents self.old self.new }
    {
        for _ in 0..self.queues.closing() {
            if let Some(key) = self.queues.pop_closing() {
                self.mark_closing_at(key);
                self.queue(key);
            }
        }
    }

    #[tactic(auto, using(crate::proofs::Rules::advances))]
    fn mark_closing_at(&mut self, key: usize)
        ensures { KeepsFewer S.remaining S.contents self.old self.new }
    {
        let Some(connection) = self.connections.get_mut(key) else {
            return;
        };
        connection.mark_closing();
    }
}
