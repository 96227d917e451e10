//! Tests of the command line's parser.
use crate::story::{on_one_line, owned};
use relay_options::{Job, Settings, Stop, job_of};
use relay_test_stream::{Subject, cut, play};
use std::alloc::{AllocGlobal, Global};
use std::fmt::Debug;

/// Command lines, and the jobs that they ask for, as `Debug` shows them.
const ROWS: &str = r#"
# There are 64 rooms and 256 sessions by default.
defaults => Settings { history: 64, max_waiting_patches: 32, rooms: 64, sessions: 256, epoch: 1, history_weight: None, waiting_weight: None, telling_weight: None, view_weight: None }

# Reads the jobs of scripts.
relay => Script(Settings { history: 64, max_waiting_patches: 32, rooms: 64, sessions: 256, epoch: 1, history_weight: None, waiting_weight: None, telling_weight: None, view_weight: None })
relay script => Script(Settings { history: 64, max_waiting_patches: 32, rooms: 64, sessions: 256, epoch: 1, history_weight: None, waiting_weight: None, telling_weight: None, view_weight: None })
relay script --epoch 7 => Script(Settings { history: 64, max_waiting_patches: 32, rooms: 64, sessions: 256, epoch: 7, history_weight: None, waiting_weight: None, telling_weight: None, view_weight: None })
relay script --history 2 --outbox 256 --epoch 0 => Script(Settings { history: 2, max_waiting_patches: 256, rooms: 64, sessions: 256, epoch: 0, history_weight: None, waiting_weight: None, telling_weight: None, view_weight: None })
relay script --history 1024 --outbox 1 --epoch 9007199254740991 => Script(Settings { history: 1024, max_waiting_patches: 1, rooms: 64, sessions: 256, epoch: 9007199254740991, history_weight: None, waiting_weight: None, telling_weight: None, view_weight: None })
relay script --rooms 1 --sessions 65536 => Script(Settings { history: 64, max_waiting_patches: 32, rooms: 1, sessions: 65536, epoch: 1, history_weight: None, waiting_weight: None, telling_weight: None, view_weight: None })
relay script --rooms 65536 --sessions 1 => Script(Settings { history: 64, max_waiting_patches: 32, rooms: 65536, sessions: 1, epoch: 1, history_weight: None, waiting_weight: None, telling_weight: None, view_weight: None })
relay script --max-history-weight 0 --max-waiting-weight 9007199254740991 --max-telling-weight 5 --max-view-weight 9 => Script(Settings { history: 64, max_waiting_patches: 32, rooms: 64, sessions: 256, epoch: 1, history_weight: Some(0), waiting_weight: Some(9007199254740991), telling_weight: Some(5), view_weight: Some(9) })

# Reads the jobs of followers and loops.
relay follow => Follow
relay loop => Loop(Settings { history: 64, max_waiting_patches: 32, rooms: 64, sessions: 256, epoch: 1, history_weight: None, waiting_weight: None, telling_weight: None, view_weight: None })
relay loop --outbox 2 => Loop(Settings { history: 64, max_waiting_patches: 2, rooms: 64, sessions: 256, epoch: 1, history_weight: None, waiting_weight: None, telling_weight: None, view_weight: None })
relay loop --rooms 2 => Loop(Settings { history: 64, max_waiting_patches: 32, rooms: 2, sessions: 256, epoch: 1, history_weight: None, waiting_weight: None, telling_weight: None, view_weight: None })
relay loop --sessions 3 => Loop(Settings { history: 64, max_waiting_patches: 32, rooms: 64, sessions: 3, epoch: 1, history_weight: None, waiting_weight: None, telling_weight: None, view_weight: None })

# Reads the jobs of servers, which have defaults of their own for weights.
relay serve --port 0 --turns 1 => Serve { listen: 127.0.0.1, port: 0, admin: None, rounds: 1, log: false, forget_rooms: false, closed: false, output_mib: 256, origins: [], per_peer: None, store: None, settings: Settings { history: 64, max_waiting_patches: 32, rooms: 64, sessions: 256, epoch: 1764000000, history_weight: Some(262144), waiting_weight: Some(65536), telling_weight: Some(1048576), view_weight: Some(16384) } }
relay serve --port 7 => Serve { listen: 127.0.0.1, port: 7, admin: None, rounds: 1000000000000, log: false, forget_rooms: false, closed: false, output_mib: 256, origins: [], per_peer: None, store: None, settings: Settings { history: 64, max_waiting_patches: 32, rooms: 64, sessions: 256, epoch: 1764000000, history_weight: Some(262144), waiting_weight: Some(65536), telling_weight: Some(1048576), view_weight: Some(16384) } }
relay serve --port 7 --log => Serve { listen: 127.0.0.1, port: 7, admin: None, rounds: 1000000000000, log: true, forget_rooms: false, closed: false, output_mib: 256, origins: [], per_peer: None, store: None, settings: Settings { history: 64, max_waiting_patches: 32, rooms: 64, sessions: 256, epoch: 1764000000, history_weight: Some(262144), waiting_weight: Some(65536), telling_weight: Some(1048576), view_weight: Some(16384) } }
relay serve --port 7 --forget-rooms => Serve { listen: 127.0.0.1, port: 7, admin: None, rounds: 1000000000000, log: false, forget_rooms: true, closed: false, output_mib: 256, origins: [], per_peer: None, store: None, settings: Settings { history: 64, max_waiting_patches: 32, rooms: 64, sessions: 256, epoch: 1764000000, history_weight: Some(262144), waiting_weight: Some(65536), telling_weight: Some(1048576), view_weight: Some(16384) } }
relay serve --turns 1000000000000 --port 65535 => Serve { listen: 127.0.0.1, port: 65535, admin: None, rounds: 1000000000000, log: false, forget_rooms: false, closed: false, output_mib: 256, origins: [], per_peer: None, store: None, settings: Settings { history: 64, max_waiting_patches: 32, rooms: 64, sessions: 256, epoch: 1764000000, history_weight: Some(262144), waiting_weight: Some(65536), telling_weight: Some(1048576), view_weight: Some(16384) } }
relay serve --port 7 --turns 1 --rooms 1000 --sessions 2000 => Serve { listen: 127.0.0.1, port: 7, admin: None, rounds: 1, log: false, forget_rooms: false, closed: false, output_mib: 256, origins: [], per_peer: None, store: None, settings: Settings { history: 64, max_waiting_patches: 32, rooms: 1000, sessions: 2000, epoch: 1764000000, history_weight: Some(262144), waiting_weight: Some(65536), telling_weight: Some(1048576), view_weight: Some(16384) } }
relay serve --port 7 --admin 65535 --turns 1 => Serve { listen: 127.0.0.1, port: 7, admin: Some(65535), rounds: 1, log: false, forget_rooms: false, closed: false, output_mib: 256, origins: [], per_peer: None, store: None, settings: Settings { history: 64, max_waiting_patches: 32, rooms: 64, sessions: 256, epoch: 1764000000, history_weight: Some(262144), waiting_weight: Some(65536), telling_weight: Some(1048576), view_weight: Some(16384) } }
relay serve --port 0 --admin 1 --turns 1 => Serve { listen: 127.0.0.1, port: 0, admin: Some(1), rounds: 1, log: false, forget_rooms: false, closed: false, output_mib: 256, origins: [], per_peer: None, store: None, settings: Settings { history: 64, max_waiting_patches: 32, rooms: 64, sessions: 256, epoch: 1764000000, history_weight: Some(262144), waiting_weight: Some(65536), telling_weight: Some(1048576), view_weight: Some(16384) } }
relay serve --port 7 --max-output-mib 1 => Serve { listen: 127.0.0.1, port: 7, admin: None, rounds: 1000000000000, log: false, forget_rooms: false, closed: false, output_mib: 1, origins: [], per_peer: None, store: None, settings: Settings { history: 64, max_waiting_patches: 32, rooms: 64, sessions: 256, epoch: 1764000000, history_weight: Some(262144), waiting_weight: Some(65536), telling_weight: Some(1048576), view_weight: Some(16384) } }
relay serve --port 7 --max-output-mib 1048576 => Serve { listen: 127.0.0.1, port: 7, admin: None, rounds: 1000000000000, log: false, forget_rooms: false, closed: false, output_mib: 1048576, origins: [], per_peer: None, store: None, settings: Settings { history: 64, max_waiting_patches: 32, rooms: 64, sessions: 256, epoch: 1764000000, history_weight: Some(262144), waiting_weight: Some(65536), telling_weight: Some(1048576), view_weight: Some(16384) } }

# A server listens on 127.0.0.1, or on another IPv4 or IPv6 address.
relay serve --port 7 --listen 0.0.0.0 => Serve { listen: 0.0.0.0, port: 7, admin: None, rounds: 1000000000000, log: false, forget_rooms: false, closed: false, output_mib: 256, origins: [], per_peer: None, store: None, settings: Settings { history: 64, max_waiting_patches: 32, rooms: 64, sessions: 256, epoch: 1764000000, history_weight: Some(262144), waiting_weight: Some(65536), telling_weight: Some(1048576), view_weight: Some(16384) } }
relay serve --port 7 --listen ::1 => Serve { listen: ::1, port: 7, admin: None, rounds: 1000000000000, log: false, forget_rooms: false, closed: false, output_mib: 256, origins: [], per_peer: None, store: None, settings: Settings { history: 64, max_waiting_patches: 32, rooms: 64, sessions: 256, epoch: 1764000000, history_weight: Some(262144), waiting_weight: Some(65536), telling_weight: Some(1048576), view_weight: Some(16384) } }
relay serve --port 7 --listen localhost => misuse
relay serve --port 7 --listen 127.0.0.1:7 => misuse
relay serve --port 7 --listen 127.1 => misuse
relay serve --port 7 --listen [::1] => misuse
relay serve --port 7 --listen => misuse
relay loop --listen 127.0.0.1 => misuse

# A server with an operator may begin closed.
relay serve --port 7 --admin 8 --closed => Serve { listen: 127.0.0.1, port: 7, admin: Some(8), rounds: 1000000000000, log: false, forget_rooms: false, closed: true, output_mib: 256, origins: [], per_peer: None, store: None, settings: Settings { history: 64, max_waiting_patches: 32, rooms: 64, sessions: 256, epoch: 1764000000, history_weight: Some(262144), waiting_weight: Some(65536), telling_weight: Some(1048576), view_weight: Some(16384) } }
relay serve --port 7 --closed => misuse
relay serve --port 7 --admin 8 --closed 1 => misuse
relay loop --closed => misuse

# Pages of the origins that it is given may connect to a server; they are kept in their order, and as they are written.
relay serve --port 7 --origin https://example.org => Serve { listen: 127.0.0.1, port: 7, admin: None, rounds: 1000000000000, log: false, forget_rooms: false, closed: false, output_mib: 256, origins: ["https://example.org"], per_peer: None, store: None, settings: Settings { history: 64, max_waiting_patches: 32, rooms: 64, sessions: 256, epoch: 1764000000, history_weight: Some(262144), waiting_weight: Some(65536), telling_weight: Some(1048576), view_weight: Some(16384) } }
relay serve --origin null --port 7 --origin=https://a.example:8443 --origin null => Serve { listen: 127.0.0.1, port: 7, admin: None, rounds: 1000000000000, log: false, forget_rooms: false, closed: false, output_mib: 256, origins: ["null", "https://a.example:8443", "null"], per_peer: None, store: None, settings: Settings { history: 64, max_waiting_patches: 32, rooms: 64, sessions: 256, epoch: 1764000000, history_weight: Some(262144), waiting_weight: Some(65536), telling_weight: Some(1048576), view_weight: Some(16384) } }
relay serve --port 7 --origin => misuse
relay serve --port 7 --origin= => misuse
relay serve --port 7 --origin foo => misuse
relay serve --port 7 --origin https://example.org/ => misuse
relay serve --port 7 --origin HTTPS://Example.org => misuse
relay serve --port 7 --origin https://example.org --origin https://example.org:443 => misuse
relay serve --port 7 --origin https://a.example https://b.example => misuse
relay script --origin https://example.org => misuse
relay loop --origin https://example.org => misuse

# One address may have as many connections to a server as it is given, if it is.
relay serve --port 7 --per-peer 1 => Serve { listen: 127.0.0.1, port: 7, admin: None, rounds: 1000000000000, log: false, forget_rooms: false, closed: false, output_mib: 256, origins: [], per_peer: Some(1), store: None, settings: Settings { history: 64, max_waiting_patches: 32, rooms: 64, sessions: 256, epoch: 1764000000, history_weight: Some(262144), waiting_weight: Some(65536), telling_weight: Some(1048576), view_weight: Some(16384) } }
relay serve --port 7 --per-peer 1000000 => Serve { listen: 127.0.0.1, port: 7, admin: None, rounds: 1000000000000, log: false, forget_rooms: false, closed: false, output_mib: 256, origins: [], per_peer: Some(1000000), store: None, settings: Settings { history: 64, max_waiting_patches: 32, rooms: 64, sessions: 256, epoch: 1764000000, history_weight: Some(262144), waiting_weight: Some(65536), telling_weight: Some(1048576), view_weight: Some(16384) } }
relay serve --port 7 --per-peer 0 => misuse
relay serve --port 7 --per-peer 1000001 => misuse
relay serve --port 7 --per-peer 2 --per-peer 3 => misuse
relay script --per-peer 1 => misuse
relay loop --per-peer 1 => misuse

# A server keeps its documents in the file that it is given, whose epoch is the store's own.
relay serve --port 7 --store relay.db => Serve { listen: 127.0.0.1, port: 7, admin: None, rounds: 1000000000000, log: false, forget_rooms: false, closed: false, output_mib: 256, origins: [], per_peer: None, store: Some("relay.db"), settings: Settings { history: 64, max_waiting_patches: 32, rooms: 64, sessions: 256, epoch: 1764000000, history_weight: Some(262144), waiting_weight: Some(65536), telling_weight: Some(1048576), view_weight: Some(16384) } }
relay serve --store=./--epoch --port 7 => Serve { listen: 127.0.0.1, port: 7, admin: None, rounds: 1000000000000, log: false, forget_rooms: false, closed: false, output_mib: 256, origins: [], per_peer: None, store: Some("./--epoch"), settings: Settings { history: 64, max_waiting_patches: 32, rooms: 64, sessions: 256, epoch: 1764000000, history_weight: Some(262144), waiting_weight: Some(65536), telling_weight: Some(1048576), view_weight: Some(16384) } }
relay serve --port 7 --store => misuse
relay serve --port 7 --store= => misuse
relay serve --port 7 --store= --epoch 3 => misuse
relay serve --port 7 --store a.db --store b.db => misuse
relay serve --port 7 --store a.db --epoch 3 => misuse
relay serve --epoch=0 --port 7 --store=a.db => misuse
timeless relay serve --port 7 --store a.db => misuse
relay script --store a.db => misuse
relay loop --store a.db => misuse
relay follow --store a.db => misuse

# A tool for a store takes its file, and `show` a room.
relay store list --store a.db => Store(StoreJob { file: "a.db", tool: List })
relay store --store=a.db export => Store(StoreJob { file: "a.db", tool: Export })
timeless relay store import --store a.db => Store(StoreJob { file: "a.db", tool: Import })
relay store show --store a.db board => Store(StoreJob { file: "a.db", tool: Show("board") })
relay store show board --store a.db => Store(StoreJob { file: "a.db", tool: Show("board") })
relay store --store a.db -- show --store => Store(StoreJob { file: "a.db", tool: Show("--store") })
relay store --store a.db => misuse
relay store => misuse
relay store list => misuse
relay store list --store => misuse
relay store list --store= => misuse
relay store list --store a.db --store b.db => misuse
relay store list a.db => misuse
relay store list --store a.db board => misuse
relay store export --store a.db board => misuse
relay store import --store a.db board => misuse
relay store show --store a.db => misuse
relay store show --store a.db board lobby => misuse
relay store LIST --store a.db => misuse
relay store frob --store a.db => misuse
relay store frob --store a.db board => misuse
relay store list --store a.db --epoch 1 => misuse
relay list --store a.db => misuse

# A server's epoch is the seconds since 1970, or the one that it is given; without a clock it has to be given one.
relay serve --port 7 --epoch 3 => Serve { listen: 127.0.0.1, port: 7, admin: None, rounds: 1000000000000, log: false, forget_rooms: false, closed: false, output_mib: 256, origins: [], per_peer: None, store: None, settings: Settings { history: 64, max_waiting_patches: 32, rooms: 64, sessions: 256, epoch: 3, history_weight: Some(262144), waiting_weight: Some(65536), telling_weight: Some(1048576), view_weight: Some(16384) } }
timeless relay serve --port 7 --epoch 3 => Serve { listen: 127.0.0.1, port: 7, admin: None, rounds: 1000000000000, log: false, forget_rooms: false, closed: false, output_mib: 256, origins: [], per_peer: None, store: None, settings: Settings { history: 64, max_waiting_patches: 32, rooms: 64, sessions: 256, epoch: 3, history_weight: Some(262144), waiting_weight: Some(65536), telling_weight: Some(1048576), view_weight: Some(16384) } }
timeless relay serve --port 7 => misuse
timeless relay script --epoch 7 => Script(Settings { history: 64, max_waiting_patches: 32, rooms: 64, sessions: 256, epoch: 7, history_weight: None, waiting_weight: None, telling_weight: None, view_weight: None })
timeless relay loop => Loop(Settings { history: 64, max_waiting_patches: 32, rooms: 64, sessions: 256, epoch: 1, history_weight: None, waiting_weight: None, telling_weight: None, view_weight: None })
relay serve --port 7 --epoch 9007199254740992 => misuse

# Numbers out of range, and words that belong to no job or to another one, are refused, with a message for standard error.
relay script --outbox 0 => misuse
relay script --outbox 257 => misuse
relay script --history 0 => misuse
relay script --history 1025 => misuse
relay script --rooms 0 => misuse
relay script --rooms 65537 => misuse
relay script --sessions 0 => misuse
relay script --sessions 65537 => misuse
relay script --epoch 9007199254740992 => misuse
relay script --epoch -1 => misuse
relay loop --outbox 257 => misuse
relay loop --rooms 0 => misuse
relay loop --sessions 65537 => misuse
relay serve --port 0 --turns 1 --rooms 65537 => misuse
relay serve --port 0 --turns 1 --sessions 0 => misuse
relay follow --rooms 1 => misuse
relay serve --port 65536 --turns 1 => misuse
relay serve --port 0 --turns 0 => misuse
relay serve --port 0 --turns 1000000000001 => misuse
relay serve --port 0 --turns 1 --admin 0 => misuse
relay serve --port 0 --turns 1 --admin 65536 => misuse
relay serve --port 7 --turns 1 --admin 7 => misuse
relay serve --port 7 --max-output-mib 0 => misuse
relay serve --port 7 --max-output-mib 1048577 => misuse
relay script --max-output-mib 7 => misuse
relay script --admin 7 => misuse
relay frob => misuse
relay follow --epoch 1 => misuse
relay script --port 0 => misuse
relay serve --turns 1 => misuse
relay serve --port 0 --log 1 => misuse
relay loop --log => misuse

# Says the version of the program, and of the kit that proves it (`rt version`).
relay --version => relay 0.2.0\nRattle logic dac8208d650f15bf\n
relay -V => relay 0.2.0\nRattle logic dac8208d650f15bf\n

# Explains each job: its help has this part.
finds relay --help: relay < examples/first.script => true
finds relay script --help: --history => true
finds relay script --help: --rooms => true
finds relay serve --help: --sessions => true
finds relay serve --help: --admin => true
finds relay serve --help: --listen <ADDRESS> => true
finds relay serve --help: --closed => true
finds relay serve --help: --origin <ORIGIN> => true
finds relay serve --help: --per-peer <N> => true
finds relay serve --help: --store <FILE> => true
finds relay store --help: --store <FILE> => true
finds relay store --help: relay store export --store relay.db > relay.jsonl => true
finds relay loop --help: relay loop < examples/first.script => true
finds relay follow --help: | relay follow => true
finds relay serve --help: it sleeps while nothing happens => true
"#;

/// The seconds since 1970, where the clock can be read.
const NOW: u64 = 1_764_000_000;

#[test]
fn reads_command_lines(rt: HostRuntime) {
    play(&rt, &mut Options, ROWS).expect(&rt, "each row holds");
}

#[derive(Clone, Copy)]
struct Options;

impl<R: AllocGlobal> Subject<R> for Options {
    fn act(&mut self, rt: &R, act: &str) -> Option<String> {
        let alloc = rt.alloc();
        let (word, rest) = cut(act);
        let told = match word {
            "relay" => outcome(alloc, act, Some(NOW)),
            "timeless" => outcome(alloc, rest, None),
            "finds" => found_in_help(alloc, rest),
            "defaults" => shown(alloc, &Settings::DEFAULT),
            _ => None,
        };
        on_one_line(alloc, told?.as_str())
    }
}

/// The words of a command line, of which the first is the program's name.
pub fn words_of(alloc: Global, line: &str) -> Option<Vec<String>> {
    let mut words = Vec::new(alloc);
    for word in line.split_whitespace() {
        words.push(owned(alloc, word)?).ok()?;
    }
    Some(words)
}

/// The outcome of a command line at that time: a job, a text that is to be printed, or misuse, of
/// which there has to be a message.
fn outcome(alloc: Global, line: &str, now: Option<u64>) -> Option<String> {
    match job_of(alloc, words_of(alloc, line)?.as_slice(), now) {
        Ok(job) => shown(alloc, &job),
        Err(Stop::Help(text)) => Some(text),
        Err(Stop::Misuse(text)) => owned(alloc, word_for(text.as_str())),
        Err(Stop::NoMemory) => owned(alloc, "no memory"),
    }
}

/// The word for misuse with this message.
fn word_for(message: &str) -> &'static str {
    if message.is_empty() {
        "misuse without a message"
    } else {
        "misuse"
    }
}

fn shown(alloc: Global, value: &impl Debug) -> Option<String> {
    format!(in alloc; "{value:?}").ok()
}

/// Says whether the outcome of a command line, which stands before a colon, has the part behind it.
fn found_in_help(alloc: Global, line_and_part: &str) -> Option<String> {
    let (line, part) = line_and_part.split_once(": ")?;
    let is_found = outcome(alloc, line, Some(NOW))?.contains(part);
    shown(alloc, &is_found)
}
