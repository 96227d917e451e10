//! Readiness by a clock, for a server with or without an admin port. The port's events are kept
//! from the server's rounds, each round's work is timed, and an event tells of each second.
ghost use Rattle.std.specs.Duration.{as_nanos};
ghost use Rattle.std.specs.Prelude.{◌≡◌, ◌/◌, IsErr, true, false};
ghost use Rattle.relay_readiness.specs.Readiness.{MayTellSecond, NoneIsAdmin, has_port, is_admin};
ghost use Rattle.relay_readiness.specs.Readiness.{is_ready, with_ready, without_admin};

use crate::longest_round::{LongestRound, micros_of};
use crate::readiness::{Readiness, ReadyEvent};
use std::io;
use std::time::{Clock, Duration};

/// The key of the admin port's listener. No slab has this key, nor [`ADMIN_STREAM`].
pub const ADMIN_LISTENER: usize = usize::MAX - 1;

/// The key of each connection to the admin port. They share one, since any event makes the port
/// look at all of them.
pub const ADMIN_STREAM: usize = usize::MAX - 2;

/// The readiness of a server's streams, and whether something became ready at its admin port.
#[derive(Drop)]
pub struct AdminReadiness<'c, R, C> {
    inner: R,
    clock: &'c C,
    /// True if there is an admin port; and true if it may have work.
    has_port: bool,
    is_ready: bool,
    /// The time at which the last wait ended, by the clock.
    began: Duration,
    /// The second of the clock that the last event told.
    second: u64,
    longest: LongestRound,
}

impl<'c, R, C: Clock> AdminReadiness<'c, R, C> {
    /// Watches over what `inner` reports. The admin port counts as ready at first.
    pub fn new(inner: R, clock: &'c C) -> AdminReadiness<'c, R, C>
    where
        R: Drop,
        ensures port { has_port result ≡ true }
        ensures ready { is_ready result ≡ true }
    {
        AdminReadiness {
            inner,
            clock,
            has_port: true,
            is_ready: true,
            began: now(clock),
            second: now(clock).as_secs(),
            longest: LongestRound::new(),
        }
    }

    /// The same without an admin port.
    pub fn without_port(inner: R, clock: &'c C) -> AdminReadiness<'c, R, C>
    where
        R: Drop,
        ensures port { has_port result ≡ false }
        ensures ready { is_ready result ≡ false }
    {
        let mut readiness = AdminReadiness::new(inner, clock);
        readiness.has_port = false;
        readiness.is_ready = false;
        readiness
    }

    /// Returns true if the admin port may have work. It has none afterwards, until the next event.
    pub fn take_ready(&mut self) -> bool
        ensures was { result ≡ is_ready self.old }
        ensures taken { self.new ≡ with_ready false self.old }
    {
        let was = self.is_ready;
        self.is_ready = false;
        was
    }

    /// Notes that the admin port left work for the next round.
    pub fn ready_again(&mut self)
        ensures { self.new ≡ with_ready true self.old }
    {
        self.is_ready = true;
    }

    /// The time by the clock; 0 if that fails.
    pub fn now(&self) -> Duration {
        now(self.clock)
    }

    /// The time for which the longest round of the last minute worked, in microseconds.
    pub fn longest_round(&self) -> u64 {
        self.longest.longest()
    }

    /// Notes how long the server worked since the last wait.
    fn end_round(&mut self)
        ensures port { has_port self.new ≡ has_port self.old }
        ensures ready { is_ready self.new ≡ is_ready self.old }
    {
        let now = self.now();
        self.longest.note(now, now.saturating_sub(self.began));
    }

    /// Tells of the second in which the last wait ended, if it is another one than that of the last
    /// such event. Without memory it is told of after the next wait.
    fn tell_second(&mut self, events: &mut Vec<ReadyEvent>)
        ensures port { has_port self.new ≡ has_port self.old }
        ensures ready { is_ready self.new ≡ is_ready self.old }
        ensures events { MayTellSecond events.old.items events.new.items }
        ensures once { as_nanos self.old.began / 1_000_000_000 ≡ self.old.second →
            events.new.items ≡ events.old.items }
    {
        let second = self.began.as_secs();
        if second != self.second && events.push(ReadyEvent::Second).is_ok() {
            self.second = second;
        }
    }
}

impl<S, R: Readiness<S>, C: Clock> Readiness<S> for AdminReadiness<'_, R, C> {
    fn watch(&mut self, key: usize, stream: &S) -> io::Result<()> {
        self.inner.watch(key, stream)
    }

    #[tactic(auto, using(crate::proofs::Events::none_after))]
    fn wait(&mut self, most: Duration, events: &mut Vec<ReadyEvent>) -> io::Result<()>
        // No round learns of the port.
        ensures none { NoneIsAdmin events.new.items }
        ensures port { has_port self.new ≡ has_port self.old }
        // Without a port there is no work for it. With one, what was known stays known, and after
        // an error everything may be ready.
        ensures no_work { has_port self.old ≡ false → is_ready self.new ≡ false }
        ensures still { has_port self.old ≡ true → is_ready self.old ≡ true →
            is_ready self.new ≡ true }
        ensures failed { has_port self.old ≡ true → IsErr result → is_ready self.new ≡ true }
    {
        self.end_round();
        let most = if self.is_ready { Duration::ZERO } else { most };
        let told = self.inner.wait(most, events);
        self.began = self.now();
        let all = events.len();
        drop_admin(events);
        let may_be_ready = self.is_ready || told.is_err() || events.len() != all;
        self.is_ready = self.has_port && may_be_ready;
        self.tell_second(events);
        told
    }

    fn micros(&self) -> u64 {
        micros_of(self.now())
    }
}

/// Drops the admin port's events.
fn drop_admin(events: &mut Vec<ReadyEvent>)
    ensures { events.new.items ≡ without_admin events.old.items }
{
    events.retain(|event| !is_admin(event));
}

/// True if an event is the admin port's.
fn is_admin(event: &ReadyEvent) -> bool
    ensures { result ≡ is_admin event.now }
{
    matches!(
        event,
        ReadyEvent::Stream {
            key: ADMIN_LISTENER | ADMIN_STREAM,
            ..
        }
    )
}

/// The time by a clock. A clock that fails stands still.
fn now<C: Clock>(clock: &C) -> Duration {
    clock.monotonic().unwrap_or(Duration::ZERO)
}
