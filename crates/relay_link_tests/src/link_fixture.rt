//! A link over a wire, whose turns are told in words. What finds no memory, or a word that is none,
//! gives nothing, which fails the test.
use relay_access::Access;
use relay_hub::{Event, Hub};
use relay_link::{Entrance, EntryRules, Link, MAX_DRAWS, Turn, Watchers};
use relay_test_stream::{End, Wire, cut, in_words};
use std::alloc::{AllocError, Global};
use std::cell::{RefCell, RefMut};

/// The number of rooms that may be open by name.
const MOST_OPEN: u64 = 64;

/// The act by which a client asks for the room `a`.
pub(crate) const ASKS: &str = "asks 13 /rooms/a";

/// A hub without rooms, whose sessions are numbered from 1. So many patches wait for one at most.
pub(crate) fn hub_of(alloc: Global, max_waiting_patches: u64) -> Option<Hub> {
    Hub::new(alloc, 1, 1, 64, max_waiting_patches).ok()
}

/// A link and its wire.
#[derive(Drop)]
pub(crate) struct LinkFixture<'a> {
    wire: &'a RefCell<Wire>,
    pub link: Link<End<'a>>,
    draws: u64,
    /// Decide whether a client may enter by a read turn.
    rules: EntryRules,
}

impl<'a> LinkFixture<'a> {
    pub fn new(alloc: Global, wire: &'a RefCell<Wire>) -> Option<LinkFixture<'a>> {
        Some(LinkFixture {
            wire,
            link: Link::new(alloc, End { wire }).ok()?,
            draws: MAX_DRAWS,
            rules: EntryRules::none(alloc),
        })
    }

    /// Borrows the wire.
    pub fn wire(&self) -> Option<RefMut<'a, Wire>> {
        self.wire.try_borrow_mut().ok()
    }

    /// Runs a turn with the current number of draws.
    pub fn turned(&mut self, alloc: Global, hub: &mut Hub) -> Option<Turn> {
        self.link.turn(alloc, hub, self.draws).ok()
    }

    /// Opens the link, and sets its draws to 0.
    pub fn enter(&mut self, alloc: Global, hub: &mut Hub) -> Option<String> {
        self.draws = 0;
        self.act(alloc, hub, ASKS)
    }

    /// The number of bytes written so far.
    pub fn written_len(&self) -> Option<usize> {
        Some(self.wire()?.output.len())
    }

    /// The bytes written from an offset on.
    pub fn written_from(&self, alloc: Global, from: usize) -> Option<Vec<u8>> {
        let wire = self.wire()?;
        wire.output.get(from..)?.to_vec(alloc).ok()
    }

    /// The output from an offset on, in words.
    pub fn words_from(&self, alloc: Global, from: usize) -> Option<String> {
        let bytes = self.written_from(alloc, from)?;
        in_words(alloc, bytes.as_slice()).ok()
    }

    /// Does an act, and tells its turn: the events, the stage, the session, the cause, and each
    /// item that was written, after a ` > `.
    pub fn act(&mut self, alloc: Global, hub: &mut Hub, act: &str) -> Option<String> {
        let from = self.written_len()?;
        let mut told = self.turn(alloc, hub, act)?;
        let words = self.words_from(alloc, from)?;
        told.push_str(words.as_str()).ok()?;
        Some(told)
    }

    /// Does an act, and tells its turn but for what was written:
    ///
    /// - `idle` runs a turn, and `draws N` one with so many draws at most, as each later one;
    /// - `hear` and `tell` run a read turn and a write turn;
    /// - `end` ends the link;
    /// - `bring ACT` does what comes before a turn; `bring closed` has no client enter by a read
    ///   turn, `bring open ROOM` and `bring close ROOM` change that for a room, and `bring opened`
    ///   for all; `bring only ORIGIN` has pages of other origins not enter, and `bring watchers
    ///   join` or `wait` has those who only watch begin no room, or not enter at all;
    /// - `look` tells the stage and the session;
    /// - every other act is one of the wire, before a turn.
    fn turn(&mut self, alloc: Global, hub: &mut Hub, act: &str) -> Option<String> {
        let (word, rest) = cut(act);
        let turn = match word {
            "look" => return self.seen(alloc),
            "bring" => return self.brought(alloc, rest),
            "hear" => self
                .link
                .read_turn(alloc, &self.rules, hub, self.draws)
                .ok()?,
            "tell" => self.link.write_turn(alloc, hub, self.draws).ok()?,
            "end" => self.link.end(alloc, hub).ok()?,
            _ => {
                self.prepare(alloc, act)?;
                self.turned(alloc, hub)?
            }
        };
        tell_turn(alloc, &turn, self.link.session()).ok()
    }

    /// Does what comes before a turn.
    pub fn prepare(&mut self, alloc: Global, act: &str) -> Option<()> {
        match cut(act) {
            ("idle", _) => Some(()),
            ("closed", _) => {
                self.rules.entrance = Entrance::closed(alloc);
                Some(())
            }
            ("open", room) => self.rules.entrance.admit(alloc, room, MOST_OPEN).ok(),
            ("close", room) => self.rules.entrance.exclude(room).ok(),
            ("opened", _) => {
                self.rules.entrance = Entrance::Open;
                Some(())
            }
            ("only", origin) => {
                let origin = String::from_str(alloc, origin).ok()?;
                self.rules.origins.push(origin).ok()
            }
            ("watchers", word) => {
                self.rules.watchers = watchers(word)?;
                Some(())
            }
            ("draws", draws) => {
                self.draws = draws.parse::<u64>().ok()?;
                Some(())
            }
            _ => self.wire()?.perform(alloc, act).ok()?.then_some(()),
        }
    }

    fn brought(&mut self, alloc: Global, act: &str) -> Option<String> {
        self.prepare(alloc, act)?;
        Some(String::new(alloc))
    }

    /// The stage and the session.
    fn seen(&self, alloc: Global) -> Option<String> {
        let mut told = format!(in alloc; "{:?}", self.link.stage()).ok()?;
        tell_session(&mut told, self.link.session()).ok()?;
        Some(told)
    }

    /// Says whether the link is idle, and has output that is corked.
    pub fn flags(&self, alloc: Global) -> Option<String> {
        let idle = if self.link.is_idle() { "idle" } else { "busy" };
        let corked = if self.link.has_corked_output() {
            ", corked"
        } else {
            ""
        };
        format!(in alloc; "{idle}{corked}").ok()
    }
}

fn tell_turn(alloc: Global, turn: &Turn, session: Option<u64>) -> Result<String, AllocError> {
    let mut told = String::new(alloc);
    for event in turn.events.iter() {
        tell_event(&mut told, event)?;
    }
    write!(told, "{:?}", turn.stage)?;
    tell_session(&mut told, session)?;
    if let Some(cause) = turn.cause {
        write!(told, " by {cause:?}")?;
    }
    Ok(told)
}

fn tell_session(told: &mut String, session: Option<u64>) -> Result<(), AllocError> {
    match session {
        Some(session) => write!(told, " as {session}"),
        None => Ok(()),
    }
}

pub(crate) fn tell_event(told: &mut String, event: &Event) -> Result<(), AllocError> {
    match event {
        Event::Open { room, access } => tell_opening(told, room.as_str(), *access),
        Event::Receive { session, .. } => write!(told, "receive {session}; "),
        Event::Draw { session } => write!(told, "draw {session}; "),
        Event::Close { session } => write!(told, "close {session}; "),
        Event::DoWill => write!(told, "do a will; "),
        Event::Forget { room } => {
            let room = room.as_str();
            write!(told, "forget {room}; ")
        }
        Event::Adopt { room, rev, .. } => {
            let room = room.as_str();
            write!(told, "adopt {room} at {rev}; ")
        }
        Event::RaiseFloor { rev } => write!(told, "raise the floor to {rev}; "),
    }
}

/// The access is told only if it is `read-only`.
fn tell_opening(told: &mut String, room: &str, access: Access) -> Result<(), AllocError> {
    match access {
        Access::ReadWrite => write!(told, "open {room}; "),
        Access::ReadOnly => write!(told, "open {room} read-only; "),
    }
}

fn watchers(word: &str) -> Option<Watchers> {
    match word {
        "begin" => Some(Watchers::Begin),
        "join" => Some(Watchers::Join),
        "wait" => Some(Watchers::Wait),
        _ => None,
    }
}
