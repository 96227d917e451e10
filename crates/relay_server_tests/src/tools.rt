//! Tests of the tools for a store, over stores in memory.
ghost use Rattle.std.specs.Prelude.{◌≡◌, IfOk, map};
ghost use Rattle.relay_store.specs.Kept.{begun, committed};
ghost use Rattle.relay_store.specs.Memory.{kept_in};
ghost use Rattle.relay_store.specs.Texts.{owned};

use crate::nets::FaultyNet;
use crate::options::words_of;
use crate::story::{on_one_line, typed, with_status};
use relay_options::job_of;
use relay_server::{LogBefore, OpenStore, StoreOpener, carry_out};
use relay_store::{Change, Keeps, MemoryStore, StoreFault};
use relay_test_stream::{Subject, play};
use std::alloc::{AllocGlobal, Global};
use std::io;
use std::net::{Net, SocketAddr, TcpStream};
use std::time::{Clock, Duration};

/// Command lines, an input, and the output, what was said on standard error, and the status.
const ROWS: &str = r#"
# A list has a line for each room, by the bytes of their names: the revision, and the bytes of the document's text.
relay store list --store full => {"room":"Lobby","rev":0,"bytes":4}\n{"room":"a-room","rev":9,"bytes":2}\n{"room":"board","rev":5,"bytes":20}\nstatus 0
relay store list --store empty => status 0

# It shows the document of a room.
relay store show --store full board => {"n":["\u0001\"ä"]}\nstatus 0
relay store show Lobby --store full => null\nstatus 0
relay store show --store full lobby => relay: no room of this name is kept\nstatus 4
relay store show --store empty board => relay: no room of this name is kept\nstatus 4

# An export has the epoch and the floor of the store, and each room with its document.
relay store export --store full => {"epoch":7,"floor":3}\n{"room":"Lobby","rev":0,"document":null}\n{"room":"a-room","rev":9,"document":[]}\n{"room":"board","rev":5,"document":{"n":["\u0001\"ä"]}}\nstatus 0
relay store export --store empty => {"epoch":7,"floor":0}\nstatus 0

# These tools make no store, and say what is wrong with one.
relay store list --store none => relay: --store none: the file cannot be opened\nstatus 1
relay store show --store none board => relay: --store none: the file cannot be opened\nstatus 1
relay store export --store none => relay: --store none: the file cannot be opened\nstatus 1
relay store list --store spoilt => relay: --store spoilt: the store is damaged\nstatus 1
relay store export --store spoilt => relay: --store spoilt: the store is damaged\nstatus 1

# An import is kept in a store that is made, or keeps nothing.
relay store import --store none < {"epoch":7,"floor":3}\n{"room":"Lobby","rev":0,"document":null}\n{"room":"board","rev":5,"document":{"n":[]}}\n => rooms 2\nstatus 0
relay store import --store empty < { "floor": 0, "epoch": 8 } \n{"document": [1], "rev": 9007199254740991, "room": "b"} => rooms 1\nstatus 0
relay store import --store none < {"epoch":7,"floor":3}\n => rooms 0\nstatus 0
relay store import --store full < {"epoch":7,"floor":3}\n => relay: --store full: the store is not empty\nstatus 1
relay store import --store spoilt < {"epoch":7,"floor":3}\n => relay: --store spoilt: the store is not empty\nstatus 1

# It is refused at the first line that is of no export.
relay store import --store none => relay: line 1 is of no export\nstatus 1
relay store import --store none < {"epoch":7}\n => relay: line 1 is of no export\nstatus 1
relay store import --store none < {"epoch":7,"floor":-1}\n => relay: line 1 is of no export\nstatus 1
relay store import --store none < {"epoch":9007199254740992,"floor":0}\n => relay: line 1 is of no export\nstatus 1
relay store import --store none < {"epoch":7,"floor":3,"rooms":1}\n => relay: line 1 is of no export\nstatus 1
relay store import --store none < {"room":"b","rev":5,"document":[]}\n => relay: line 1 is of no export\nstatus 1
relay store import --store none < {"epoch":7,"floor":3}\n\n => relay: line 2 is of no export\nstatus 1
relay store import --store none < {"epoch":7,"floor":3}\n{"room":"b","rev":5,"document":[]}\n{"room":"c","rev":5}\n => relay: line 3 is of no export\nstatus 1
relay store import --store none < {"epoch":7,"floor":3}\n{"room":7,"rev":5,"document":[]}\n => relay: line 2 is of no export\nstatus 1
relay store import --store none < {"epoch":7,"floor":3}\n{"room":"b","rev":"5","document":[]}\n => relay: line 2 is of no export\nstatus 1
relay store import --store none < {"epoch":7,"floor":3}\n{"room":"b","rev":5,"document":[1.5]}\n => relay: line 2 is of no export\nstatus 1
relay store import --store none < {"epoch":7,"floor":3}\n{"room":"b","rev":5,"document":[]\n => relay: line 2 is of no export\nstatus 1

# So it is if no relay may have its rooms: one by itself, or all together.
relay store import --store none < {"epoch":7,"floor":0}\n{"room":"b","rev":1,"document":1}\n{"room":"b","rev":2,"document":2}\n => relay: two rooms have one name, or there are more than a relay may have\nstatus 1
relay store import --store none < {"epoch":7,"floor":0}\n{"room":"a b","rev":1,"document":1}\n => relay: line 2 has a room that no relay may have, by its name, revision or document\nstatus 1
relay store import --store none < {"epoch":7,"floor":3}\n{"room":"a","rev":1,"document":1}\n{"room":"","rev":1,"document":1}\n => relay: line 3 has a room that no relay may have, by its name, revision or document\nstatus 1
"#;

#[test]
fn a_tool_tells_what_a_store_keeps(rt: HostRuntime) {
    play(&rt, &mut Tools, ROWS).expect(&rt, "each row holds");
}

#[derive(Clone, Copy)]
struct Tools;

impl<R: AllocGlobal> Subject<R> for Tools {
    fn act(&mut self, rt: &R, act: &str) -> Option<String> {
        let alloc = rt.alloc();
        let (line, input) = act.split_once(" < ").unwrap_or((act, ""));
        let told = used(alloc, line, typed(alloc, input)?.as_str())?;
        on_one_line(alloc, told.as_str())
    }
}

/// The output of a tool, its error output, and its status.
fn used(alloc: Global, line: &str, text: &str) -> Option<String> {
    let job = job_of(alloc, words_of(alloc, line)?.as_slice(), None).ok()?;
    let mut input = text.as_bytes();
    let mut output = Vec::new(alloc);
    let mut errors = Vec::new(alloc);
    let shelf = Shelf { alloc };
    let ended = carry_out(alloc, &shelf, job, &mut input, &mut output, &mut errors);
    output.extend_from_slice(errors.as_slice()).ok()?;
    with_status(alloc, output.as_slice(), ended.code())
}

/// The changes of the store `full`.
const FULL: [Change<&str>; 6] = [
    Change::Begin {
        room: "board",
        revision: 4,
        text: r#"{"kind":"snapshot","rev":4,"view":[[{"n":[]}]]}"#,
    },
    Change::Begin {
        room: "Lobby",
        revision: 0,
        text: r#"{"kind":"snapshot","rev":0,"view":[[null]]}"#,
    },
    Change::Edit {
        room: "board",
        revision: 5,
        text: r#"{"kind":"patch","patch":[{"op":"add","path":"/0/0/n/-","value":"\u0001\"ä"}],"rev":5}"#,
    },
    Change::Begin {
        room: "a-room",
        revision: 9,
        text: r#"{"kind":"snapshot","rev":9,"view":[[[]]]}"#,
    },
    Change::RaiseFloor { revision: 2 },
    Change::RaiseFloor { revision: 3 },
];

/// The change of the store `spoilt`.
const SPOILT: [Change<&str>; 1] = [Change::Begin {
    room: "board",
    revision: 4,
    text: "[4]",
}];

/// Stores in memory, by their names, and no network.
#[derive(Clone, Copy)]
struct Shelf {
    alloc: Global,
}

impl Shelf {
    /// A store that keeps what these changes make, in epoch 7.
    fn store(self, changes: &[Change<&str>]) -> Result<OpenStore<MemoryStore>, StoreFault>
        ensures { IfOk result (λ made. kept_in made.store
            ≡ committed (begun made.epoch) (map owned made.changes.items)) }
    {
        let mut store = MemoryStore::new(self.alloc, 7);
        store.commit(changes)?;
        Ok(OpenStore {
            changes: store.read()?,
            epoch: store.epoch(),
            store,
            log_before: LogBefore::None,
        })
    }
}

impl StoreOpener for Shelf {
    type Store = MemoryStore;

    fn open_store(&self, name: &str, _: u64) -> Result<OpenStore<MemoryStore>, StoreFault> {
        match name {
            "none" => self.store(&[]),
            _ => self.open_made(name),
        }
    }

    fn open_made(&self, name: &str) -> Result<OpenStore<MemoryStore>, StoreFault> {
        match name {
            "full" => self.store(&FULL),
            "spoilt" => self.store(&SPOILT),
            "empty" => self.store(&[]),
            _ => Err(StoreFault::CannotOpen),
        }
    }

    fn close_read(&self, _: &str, open: OpenStore<MemoryStore>) {
        drop(open);
    }
}

impl Net for Shelf {
    type Stream = TcpStream;

    type Listener = FaultyNet;

    fn bind(&self, addr: SocketAddr) -> io::Result<FaultyNet> {
        FaultyNet::NoPort.bind(addr)
    }

    fn connect(&self, addr: SocketAddr) -> io::Result<TcpStream> {
        FaultyNet::NoPort.connect(addr)
    }
}

impl Clock for Shelf {
    fn monotonic(&self) -> io::Result<Duration> {
        Ok(Duration::ZERO)
    }

    fn since_1970(&self) -> io::Result<Duration> {
        Ok(Duration::ZERO)
    }
}
