//! A server and its clients, each at a wire of its own, to which the acts of rows are done.
use crate::memory_server::{MemoryServer, ReadinessScript};
use relay_event_loop::{Entrance, Keeping};
use relay_hub::HubConfig;
use relay_readiness::{ReadyEvent, StreamReady};
use relay_test_stream::{Subject, Wire, cut, play, push_summary};
use relay_tree::Budget;
use std::alloc::{AllocGlobal, Global};
use std::cell::{RefCell, RefMut};
use std::mem;
use std::process::Abort;

/// The number of wires.
const WIRES: usize = 19;

/// The part that the reply to an accepted edit has.
const DONE: &str = r#""kind":"done""#;

/// A client edits.
const EDIT: &str = r#"says {"do":"edit","id":2,"patch":[{"op":"add","path":"","value":7}]}"#;

/// A stream is readable.
const READABLE: StreamReady = StreamReady {
    readable: true,
    writable: false,
    is_over: false,
};

/// A stream is writable.
const WRITABLE: StreamReady = StreamReady {
    readable: false,
    writable: true,
    is_over: false,
};

/// A stream is readable, and the other side closed it.
const OVER: StreamReady = StreamReady {
    is_over: true,
    ..READABLE
};

/// The acts that `enters` stands for: the first client of a new server connects, and receives its
/// welcome.
const ENTERS: &str = "
connect 0
wire 0 asks 13 /rooms/r
round => 1, 1r2w 101 welcome, 0r0w
round => 1 sleeps, 0r0w, 0r0w
";

/// The acts that `watches` stands for: the first client watches the whole document.
const WATCHES: &str = r#"
send 0 says {"do":"watch","id":1,"view":[""]}
round => 1 sleeps, 1r1w watching snapshot, 0r0w
"#;

/// The acts that `joins` stands for: a second client connects, and receives its welcome.
const JOINS: &str = "
connect 1
wire 1 asks 13 /rooms/r
round => 2 sleeps, 0r0w, 1r2w 101 welcome
round => 2 sleeps, 0r0w, 0r0w
";

/// Plays rows. A blank line begins anew, with a server that nobody is connected to.
pub(crate) fn play_anew(rt: &(impl Abort + AllocGlobal), rows: &str) {
    let rows = spelled_out(rt.alloc(), rows).expect(rt, "memory");
    for case in rows.as_str().split("\n\n") {
        play_case(rt, case);
    }
}

/// The rows, with those that stand for others spelled out.
fn spelled_out(alloc: Global, rows: &str) -> Option<String> {
    let rows = rows.replace(alloc, "\nenters\n", ENTERS).ok()?;
    let rows = rows.as_str().replace(alloc, "\nwatches\n", WATCHES).ok()?;
    rows.as_str().replace(alloc, "\njoins\n", JOINS).ok()
}

fn play_case(rt: &(impl Abort + AllocGlobal), case: &str) {
    let script = ReadinessScript::new(rt.alloc());
    let wires = wires(rt.alloc()).expect(rt, "memory");
    let mut clients = Clients::new(rt.alloc(), &script, wires.as_slice()).expect(rt, "memory");
    play(rt, &mut clients, case).expect(rt, "each row holds");
    // Whole, since the borrow checker does not cover the end of parts that nest so deep.
    drop(clients);
}

/// New wires.
pub(crate) fn wires(alloc: Global) -> Option<Vec<RefCell<Wire>>> {
    let mut wires = Vec::new(alloc);
    for _ in 0..WIRES {
        wires.push(Wire::new(alloc)).ok()?;
    }
    Some(wires)
}

/// A server, and the wires of its clients. Those that connect one after the other have the keys of
/// their wires.
#[derive(Drop)]
pub(crate) struct Clients<'a> {
    server: MemoryServer<'a>,
    script: &'a RefCell<ReadinessScript>,
    wires: &'a [RefCell<Wire>],
}

impl<R: AllocGlobal> Subject<R> for Clients<'_> {
    /// Does an act, and tells what came of it. `K` is a wire, counted from 0:
    ///
    /// - `server FIELD=N ..` is a new server of a hub with this configuration, and `forget-rooms`
    ///   has it forget rooms; from `closed` on it lets no client in, and from `opened` on it does;
    ///   from `keeps OUTCOME` on it tells only what is kept, and keeping is `done`, not needed
    ///   since all is `unchanged`, put off until `later`, or `lost`;
    /// - `connect K` has a client connect, `arrive K` runs a round then, and `enter K` has it ask
    ///   for the room `r`, and runs three rounds;
    /// - `wire K ACT` does an act of the wire, and `send K ACT` announces that it is readable, too;
    ///   `each N ACT` does an act of each of the first wires;
    /// - `readable K` and `writable K` announce that a stream is ready, `over K` that it is
    ///   readable, and over; `capacity N` that the next wait has space for so many events, and
    ///   `wait-fails` that it fails; `second` that a second has passed; `turns-take N` that from
    ///   now on each turn takes so many microseconds;
    /// - `round` runs a round, and `rounds N` so many, which are not told; `sleep` runs rounds
    ///   until one could have slept;
    /// - `connections` tells how many there are; `done K`, `count K PART` and `writes K` tell how
    ///   many edits were accepted, how often a part was written, and how many writes there were,
    ///   each since the last such question about the wire; `clear K` is such a question;
    /// - `done-before K` tells how many edits of the clients before it were accepted;
    /// - `edit-beside K` has a client edit, and tells what a round came to for it and for those
    ///   before it;
    /// - `read K` tells whether the server has read all that came, `log` what it logged, and `logs
    ///   WORDS` whether it logged these words; the end of a line stands as `\n`.
    fn act(&mut self, rt: &R, act: &str) -> Option<String> {
        let alloc = rt.alloc();
        let (word, rest) = cut(act);
        match word {
            "round" => self.told_round(alloc),
            "connections" => told(alloc, self.server.server.connections() as u64),
            "done" => told(alloc, self.count(rest, DONE)?),
            "count" => told(alloc, self.count(cut(rest).0, cut(rest).1)?),
            "writes" => told(alloc, self.writes(rest)?),
            "done-before" => told(alloc, self.done_before(alloc, number(rest)?)?),
            "edit-beside" => self.edit_beside(alloc, rest),
            "read" => told_whether(alloc, self.wire(rest)?.is_read()),
            "logs" => self.logs(alloc, rest),
            "log" => self.server.log.text.replace(alloc, "\n", "\\n").ok(),
            _ => {
                self.change(alloc, word, rest)?;
                Some(String::new(alloc))
            }
        }
    }
}

impl<'a> Clients<'a> {
    pub fn new(
        alloc: Global,
        script: &'a RefCell<ReadinessScript>,
        wires: &'a [RefCell<Wire>],
    ) -> Option<Clients<'a>> {
        Some(Clients {
            server: MemoryServer::new(alloc, script, HubConfig::new(1, 1, 64, 32))?,
            script,
            wires,
        })
    }

    /// Borrows a wire.
    fn wire(&self, key: &str) -> Option<RefMut<'a, Wire>> {
        self.wires.get(key_of(key)?)?.try_borrow_mut().ok()
    }

    /// Tells a round: the number of connections, whether it could have slept, and for the first two
    /// wires the numbers of their reads (`r`) and writes (`w`), and what was written.
    fn told_round(&mut self, alloc: Global) -> Option<String> {
        let sleeping = if self.server.round(alloc)? > 0 {
            " sleeps"
        } else {
            ""
        };
        let connections = self.server.server.connections();
        let mut told = format!(in alloc; "{connections}{sleeping}").ok()?;
        for key in ["0", "1"] {
            let mut wire = self.wire(key)?;
            tell_wire(&mut told, &mut wire)?;
        }
        Some(told)
    }

    fn logs(&self, alloc: Global, words: &str) -> Option<String> {
        let words = words.replace(alloc, "\\n", "\n").ok()?;
        told_whether(alloc, self.server.log.text.contains(words.as_str()))
    }

    /// The number of times that a part stands in what was written to a client since the last such
    /// question.
    fn count(&self, key: &str, part: &str) -> Option<u64> {
        let mut wire = self.wire(key)?;
        let mut count = 0u64;
        for start in 0..wire.output.len() {
            let rest = wire.output.get(start..).unwrap_or(&[]);
            count = count.saturating_add(u64::from(rest.starts_with(part.as_bytes())));
        }
        wire.output.clear();
        Some(count)
    }

    /// The number of writes of a wire since the last such question.
    fn writes(&self, key: &str) -> Option<u64> {
        Some(mem::replace(&mut self.wire(key)?.write_calls, 0))
    }

    /// Does an act that nothing is told of.
    fn change(&mut self, alloc: Global, word: &str, rest: &str) -> Option<()> {
        match word {
            "server" => self.begin(alloc, config(rest)?),
            "forget-rooms" => self.forget_rooms(),
            "closed" => self.set_entrance(Entrance::closed(alloc)),
            "opened" => self.set_entrance(Entrance::Open),
            "keeps" => self.keep_with(rest),
            "per-peer" => self.set_per_peer(number(rest)?),
            "only" => self.set_origin(alloc, rest),
            "arrive" => self.arrive(alloc, rest),
            "enter" => self.enter(alloc, rest),
            "each" => self.each(alloc, cut(rest)),
            "rounds" => self.rounds(alloc, number(rest)?),
            "sleep" => self.sleep(alloc),
            _ => self.bring(alloc, word, rest),
        }
    }

    /// From now on the server tells only what is kept, and keeping comes to this.
    fn keep_with(&mut self, outcome: &str) -> Option<()> {
        self.server.keep_with(match outcome {
            "done" => Keeping::Done,
            "unchanged" => Keeping::Unchanged,
            "later" => Keeping::Later,
            "lost" => Keeping::Lost,
            _ => return None,
        });
        Some(())
    }

    /// Does an act that comes before a round.
    fn bring(&self, alloc: Global, word: &str, rest: &str) -> Option<()> {
        match word {
            "connect" => self.server.connect(self.wires.get(key_of(rest)?)?),
            "clear" => self.clear(rest),
            "wire" => self.perform(alloc, cut(rest)),
            "send" => self.send(alloc, cut(rest)),
            "readable" => self.announce(rest, READABLE),
            "writable" => self.announce(rest, WRITABLE),
            "over" => self.announce(rest, OVER),
            "capacity" => self.server.limit_next_wait(key_of(rest)?),
            "wait-fails" => self.server.fail_next_wait(),
            "turns-take" => self.server.set_lap(number(rest)?),
            "second" => self.server.add(ReadyEvent::Second),
            _ => None,
        }
    }

    /// Begins anew, with a server of another hub.
    fn begin(&mut self, alloc: Global, config: HubConfig) -> Option<()> {
        let server = MemoryServer::new(alloc, self.script, config)?;
        drop(mem::replace(&mut self.server, server));
        Some(())
    }

    fn set_entrance(&mut self, entrance: Entrance) -> Option<()> {
        self.server.server.set_entrance(entrance);
        Some(())
    }

    fn set_per_peer(&mut self, most: u64) -> Option<()> {
        self.server.server.set_per_peer(most);
        Some(())
    }

    fn set_origin(&mut self, alloc: Global, origin: &str) -> Option<()> {
        let mut origins = Vec::new(alloc);
        origins.push(String::from_str(alloc, origin).ok()?).ok()?;
        self.server.server.set_origins(origins);
        Some(())
    }

    fn forget_rooms(&mut self) -> Option<()> {
        self.server.server.forget_rooms();
        Some(())
    }

    fn arrive(&mut self, alloc: Global, key: &str) -> Option<()> {
        self.bring(alloc, "connect", key)?;
        self.rounds(alloc, 1)
    }

    fn enter(&mut self, alloc: Global, key: &str) -> Option<()> {
        self.perform(alloc, (key, "asks 13 /rooms/r"))?;
        self.bring(alloc, "connect", key)?;
        self.rounds(alloc, 3)
    }

    fn rounds(&mut self, alloc: Global, count: u64) -> Option<()> {
        for _ in 0..count {
            self.server.round(alloc)?;
        }
        Some(())
    }

    /// Runs rounds until one could have slept; nothing is told if there is none.
    fn sleep(&mut self, alloc: Global) -> Option<()> {
        for _ in 0..10_000 {
            if self.server.round(alloc)? > 0 {
                return Some(());
            }
        }
        None
    }

    /// Does an act of each of the first wires.
    fn each(&mut self, alloc: Global, words: (&str, &str)) -> Option<()> {
        let (word, act) = cut(words.1);
        for key in 0..number(words.0)? {
            let rest = format!(in alloc; "{key} {act}").ok()?;
            match word {
                "enter" => self.enter(alloc, rest.as_str().trim())?,
                _ => self.bring(alloc, word, rest.as_str().trim())?,
            }
        }
        Some(())
    }

    /// Has a client edit, runs a round, and tells how many edits of this client and of those before
    /// it were accepted, and how often was written to it.
    fn edit_beside(&mut self, alloc: Global, key: &str) -> Option<String> {
        self.send(alloc, (key, EDIT))?;
        self.server.round(alloc)?;
        let others = self.done_before(alloc, number(key)?)?;
        let own = self.count(key, DONE)?;
        let writes = self.writes(key)?;
        format!(in alloc; "{own} and {others} of the others, {writes} writes").ok()
    }

    /// The number of edits of the clients before this one that were accepted since the last such
    /// question.
    fn done_before(&self, alloc: Global, key: u64) -> Option<u64> {
        let mut count = 0u64;
        for other in 0..key {
            let other = format!(in alloc; "{other}").ok()?;
            count = count.saturating_add(self.count(other.as_str(), DONE)?);
        }
        Some(count)
    }

    /// Forgets what was written to a client, and how often.
    fn clear(&self, key: &str) -> Option<()> {
        let mut wire = self.wire(key)?;
        wire.output.clear();
        wire.write_calls = 0;
        Some(())
    }

    /// Does an act of a wire.
    fn perform(&self, alloc: Global, words: (&str, &str)) -> Option<()> {
        let (key, act) = words;
        self.wire(key)?.perform(alloc, act).ok()?.then_some(())
    }

    /// Does an act of a wire, and announces it.
    fn send(&self, alloc: Global, words: (&str, &str)) -> Option<()> {
        self.perform(alloc, words)?;
        self.announce(words.0, READABLE)
    }

    /// Announces what a stream is ready for.
    fn announce(&self, key: &str, ready: StreamReady) -> Option<()> {
        let key = key_of(key)?;
        self.server.add(ReadyEvent::Stream { key, ready })
    }
}

/// The key that a word spells.
fn key_of(word: &str) -> Option<usize> {
    word.parse::<usize>().ok()
}

/// The number that a word spells.
fn number(word: &str) -> Option<u64> {
    word.parse::<u64>().ok()
}

fn told(alloc: Global, number: u64) -> Option<String> {
    format!(in alloc; "{number}").ok()
}

fn told_whether(alloc: Global, holds: bool) -> Option<String> {
    format!(in alloc; "{holds}").ok()
}

/// A configuration, by the words for its fields and their values.
fn config(words: &str) -> Option<HubConfig> {
    let mut config = HubConfig::new(1, 1, 64, 32);
    for word in words.split(' ') {
        let (field, value) = word.split_once('=')?;
        let value = number(value)?;
        match field {
            "waiting" => config.max_waiting_patches = value,
            "waiting-weight" => config.waiting_weight = Budget::Left(value),
            "sessions" => config.sessions = value,
            "rooms" => config.rooms = value,
            _ => return None,
        }
    }
    Some(config)
}

/// Appends what happened on a wire since the last call, and resets its counts and output.
fn tell_wire(told: &mut String, wire: &mut Wire) -> Option<()> {
    let reads = mem::replace(&mut wire.read_calls, 0);
    let writes = mem::replace(&mut wire.write_calls, 0);
    write!(told, ", {reads}r{writes}w").ok()?;
    push_summary(told, wire.output.as_slice()).ok()?;
    wire.output.clear();
    Some(())
}
