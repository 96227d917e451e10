//! A server over in-memory streams, whose readiness the test controls.
use relay_event_loop::{ConnectionLog, Keeping, LogEntry, RoomKeeper, Server};
use relay_hub::{Hub, HubConfig};
use relay_readiness::{Readiness, ReadyEvent};
use relay_test_stream::{End, Wire};
use std::alloc::Global;
use std::cell::{RefCell, RefMut};
use std::io::ErrorKind;
use std::net::{Ipv4Addr, OpenListener, SocketAddr};
use std::time::Duration;
use std::{io, mem};

/// The number of bytes of output that the links of a server hold.
const MOST_OUTPUT: u64 = 1_000_000;

fn busy() -> io::Error {
    io::Error::from(ErrorKind::Other)
}

/// A listener with the connections that wait to be accepted.
#[derive(Drop)]
pub(crate) struct MemoryListener<'a> {
    waiting: RefCell<Vec<&'a RefCell<Wire>>>,
}

impl<'a> MemoryListener<'a> {
    /// A listener at which nobody waits.
    pub fn new(alloc: Global) -> MemoryListener<'a> {
        MemoryListener {
            waiting: RefCell::new(Vec::new(alloc)),
        }
    }

    /// Adds a waiting connection.
    pub fn add(&self, wire: &'a RefCell<Wire>) -> Option<()> {
        self.waiting.try_borrow_mut().ok()?.push(wire).ok()
    }
}

impl<'a> OpenListener for MemoryListener<'a> {
    type Stream = End<'a>;

    fn accept(&self) -> io::Result<(End<'a>, SocketAddr)> {
        let Ok(mut waiting) = self.waiting.try_borrow_mut() else {
            return Err(busy());
        };
        match waiting.pop() {
            Some(wire) => Ok((End { wire }, SocketAddr::from((Ipv4Addr::LOCALHOST, 1)))),
            None => Err(io::Error::from(ErrorKind::WouldBlock)),
        }
    }
}

/// The readiness of the streams, as the test sets it.
#[derive(Drop)]
pub(crate) struct ReadinessScript {
    /// The events of the next round.
    next: Vec<ReadyEvent>,
    /// The number of events that the next wait has space for. The others come with the wait after
    /// it.
    capacity: usize,
    /// True if the next wait fails, after the events that it has space for; the others are lost.
    fails: bool,
    /// The time limit of the last wait, in milliseconds.
    waited: u64,
    /// The clock, and by how much each look at it moves it on, in microseconds.
    clock: u64,
    lap: u64,
}

/// Reports the events that the test set.
#[derive(Drop)]
pub(crate) struct ScriptedReadiness<'a> {
    script: &'a RefCell<ReadinessScript>,
}

impl ReadinessScript {
    pub fn new(alloc: Global) -> RefCell<ReadinessScript> {
        RefCell::new(ReadinessScript {
            next: Vec::new(alloc),
            capacity: usize::MAX,
            fails: false,
            waited: 0,
            clock: 0,
            lap: 0,
        })
    }

    /// Adds an event to the next wait.
    pub fn add(&mut self, event: ReadyEvent) -> Option<()> {
        self.next.push(event).ok()
    }

    /// The time by the clock, which each call moves on.
    fn tick(&mut self) -> u64 {
        self.clock = self.clock.saturating_add(self.lap);
        self.clock
    }

    fn wait(&mut self, most: Duration, events: &mut Vec<ReadyEvent>) -> io::Result<()> {
        self.waited = most
            .as_secs()
            .saturating_mul(1_000)
            .saturating_add(u64::from(most.subsec_millis()));
        let capacity = mem::replace(&mut self.capacity, usize::MAX).min(self.next.len());
        for event in self.next.drain(..capacity) {
            events.push(event)?;
        }
        if self.fails {
            self.fails = false;
            self.next.clear();
            return Err(busy());
        }
        Ok(())
    }
}

impl<'a> ScriptedReadiness<'a> {
    pub fn of(script: &'a RefCell<ReadinessScript>) -> ScriptedReadiness<'a> {
        ScriptedReadiness { script }
    }
}

impl<'a> Readiness<End<'a>> for ScriptedReadiness<'_> {
    fn watch(&mut self, _key: usize, _stream: &End<'a>) -> io::Result<()> {
        Ok(())
    }

    fn wait(&mut self, most: Duration, events: &mut Vec<ReadyEvent>) -> io::Result<()> {
        match self.script.try_borrow_mut() {
            Ok(mut script) => script.wait(most, events),
            Err(_) => Err(busy()),
        }
    }

    fn micros(&self) -> u64 {
        match self.script.try_borrow_mut() {
            Ok(mut script) => script.tick(),
            Err(_) => 0,
        }
    }
}

/// A log that holds the fields of each entry on a line.
#[derive(Drop)]
pub(crate) struct FieldLines {
    pub text: String,
}

impl ConnectionLog for FieldLines {
    fn record(&mut self, entry: LogEntry<'_>) {
        let _ = writeln!(self.text, "{entry}");
    }
}

/// A keeper that keeps nothing, and says what the test sets.
#[derive(Clone, Copy)]
pub(crate) struct ScriptedKeeper {
    pub outcome: Keeping,
    /// The number of calls that come before and have no memory.
    pub put_off: u64,
}

impl RoomKeeper for ScriptedKeeper {
    ghost use Rattle.std.specs.Prelude.{⊤};

    // it keeps nothing, and only says so
    ghost has_kept = { λ _ _ _. ⊤ };

    fn is_keeping(&self) -> bool {
        true
    }

    fn keep(&mut self, _: Global, _: &Hub) -> Keeping {
        if self.put_off > 0 {
            self.put_off -= 1;
            return Keeping::Later;
        }
        self.outcome
    }
}

/// A server, its listener, and the readiness of its streams.
#[derive(Drop)]
pub(crate) struct MemoryServer<'a> {
    listener: MemoryListener<'a>,
    script: &'a RefCell<ReadinessScript>,
    /// The server of a hub.
    pub server: Server<End<'a>, ScriptedReadiness<'a>>,
    keeper: ScriptedKeeper,
    /// The server's log.
    pub log: FieldLines,
}

impl<'a> MemoryServer<'a> {
    /// A server of a new hub, without connections.
    pub fn new(
        alloc: Global,
        script: &'a RefCell<ReadinessScript>,
        config: HubConfig,
    ) -> Option<MemoryServer<'a>> {
        let hub = Hub::with_config(alloc, config).ok()?;
        Some(MemoryServer {
            listener: MemoryListener::new(alloc),
            script,
            server: Server::new(alloc, hub, ScriptedReadiness::of(script), MOST_OUTPUT),
            keeper: ScriptedKeeper {
                outcome: Keeping::Done,
                put_off: 0,
            },
            log: FieldLines {
                text: String::new(alloc),
            },
        })
    }

    /// Adds a waiting connection, and its event to the next round.
    pub fn connect(&self, wire: &'a RefCell<Wire>) -> Option<()> {
        self.listener.add(wire)?;
        self.add(ReadyEvent::Incoming)
    }

    /// Adds an event to the next round.
    pub fn add(&self, event: ReadyEvent) -> Option<()> {
        self.script()?.add(event)
    }

    /// Limits the next wait to this number of events.
    pub fn limit_next_wait(&self, capacity: usize) -> Option<()> {
        self.script()?.capacity = capacity;
        Some(())
    }

    /// Makes the next wait fail.
    pub fn fail_next_wait(&self) -> Option<()> {
        self.script()?.fails = true;
        Some(())
    }

    /// From now on each turn takes so long, in microseconds.
    pub fn set_lap(&self, micros: u64) -> Option<()> {
        self.script()?.lap = micros;
        Some(())
    }

    /// From now on the server tells only what is kept, and keeping comes to this.
    pub fn keep_with(&mut self, outcome: Keeping) {
        self.server.tell_kept();
        self.keeper.outcome = outcome;
    }

    /// The script of what the next round learns of the streams.
    fn script(&self) -> Option<RefMut<'a, ReadinessScript>> {
        self.script.try_borrow_mut().ok()
    }

    /// Runs a round. Returns the time limit of its wait, in milliseconds; nothing if a connection
    /// that wants a turn is not queued for it.
    pub fn round(&mut self, alloc: Global) -> Option<u64> {
        self.server
            .round(alloc, &self.listener, &mut self.keeper, &mut self.log);
        let waited = self.script()?.waited;
        self.server.unqueued().is_none().then_some(waited)
    }
}
