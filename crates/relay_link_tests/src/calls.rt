//! Fault injection: each call of a link on its stream fails once, with each kind of fault.
//!
//! The link joins session 1, which watches the whole document. Its client watches, edits twice and
//! closes.
use crate::link_fixture::{ASKS, LinkFixture, hub_of};
use relay_access::Access;
use relay_hub::{Event, Hub};
use relay_link::{Stage, Turn};
use relay_test_stream::{InjectedFault, Subject, Wire, play};
use std::alloc::{AllocGlobal, Global};
use std::cell::RefCell;
use std::mem;

/// The calls of a run in which none fails; and then, for a fault of each kind, how many runs end as
/// that one, by the peer, and by the stream, of the runs in which one call has the fault.
const ROWS: &str = r#"
calls => 23 calls: 6 reads, 6 writes

# A call that is not ready, is interrupted or moves one byte changes nothing.
not-ready => 23 whole, 0 by the peer, 0 by the stream
interrupt => 23 whole, 0 by the peer, 0 by the stream
one-byte => 23 whole, 0 by the peer, 0 by the stream

# A call that fails ends the link.
fail => 0 whole, 0 by the peer, 23 by the stream

# A read of no bytes is the end of the input, and a write of none ends the link as a failure does. A flush moves no bytes anyway.
end => 11 whole, 6 by the peer, 6 by the stream
"#;

const WATCH: &str = r#"{"do":"watch","id":1,"view":[""]}"#;

/// The acts of the client. Each is done after the one before it was read and answered.
const MESSAGES: [&str; 5] = [
    ASKS,
    r#"says {"do":"watch","id":1,"view":[""]}"#,
    r#"says {"do":"edit","id":2,"patch":[{"op":"add","path":"","value":{"x":1}}]}"#,
    r#"says {"do":"edit","id":3,"patch":[{"op":"replace","path":"/x","value":2}]}"#,
    "hex 88 82 00 00 00 00 03 e8",
];

/// The number of turns of a run, and the maximum number of its calls.
const TURNS: u64 = 64;

const MAX_CALLS: u64 = 40;

/// The result of a run without faults: its causes, what session 1 draws, and what is written.
const WHOLE: &str = "Peer Peer Gone, 0 wrong\n\
     {\"kind\":\"patch\",\"patch\":[{\"op\":\"replace\",\"path\":\"/0\",\"value\":[{\"x\":1}]}],\"rev\":1}\n\
     {\"kind\":\"patch\",\"patch\":[{\"op\":\"replace\",\"path\":\"/0/0/x\",\"value\":2}],\"rev\":2}\n \
     > switched \
     > {\"epoch\":1,\"kind\":\"welcome\",\"rev\":0,\"session\":2} \
     > {\"id\":1,\"kind\":\"watching\"} \
     > {\"kind\":\"snapshot\",\"rev\":0,\"view\":[[null]]} \
     > {\"id\":2,\"kind\":\"done\",\"rev\":1} \
     > {\"kind\":\"patch\",\"patch\":[{\"op\":\"replace\",\"path\":\"/0\",\"value\":[{\"x\":1}]}],\"rev\":1} \
     > {\"id\":3,\"kind\":\"done\",\"rev\":2} \
     > {\"kind\":\"patch\",\"patch\":[{\"op\":\"replace\",\"path\":\"/0/0/x\",\"value\":2}],\"rev\":2} \
     > close 1000\n";

/// The beginning of the result of a run that ends by the peer, by a call that accepts nothing, and
/// by one that fails.
const BY_PEER: &str = "Peer Gone, 0 wrong\n";

const BY_STREAM: &str = "Stream Gone, 0 wrong\n";

const BY_FAILURE: &str = "Stream ! Gone, 0 wrong\n";

/// A run of a link with session 2, and a twin of its hub, which replays the events that the link
/// reports.
#[derive(Drop)]
struct Run<'a> {
    side: LinkFixture<'a>,
    hub: Hub,
    twin: Hub,
    /// The index of the next message.
    next: usize,
    /// The causes of the turns, and a `!` for each turn in which a call failed.
    told: String,
    /// The number of violations so far.
    wrong: u64,
}

/// A hub with session 1, which watches, and whose outbox is empty.
fn watched(alloc: Global) -> Option<Hub> {
    let mut hub = hub_of(alloc, 32)?;
    hub.open(alloc, "a", Access::ReadWrite).ok()?;
    drop(hub.receive(alloc, 1, WATCH).ok()?);
    drop(drawn(alloc, &mut hub)?);
    Some(hub)
}

/// Draws all texts of session 1's outbox, one per line.
fn drawn(alloc: Global, hub: &mut Hub) -> Option<String> {
    let mut texts = String::new(alloc);
    for _ in 0..hub.waiting(1)? {
        let text = hub.draw(alloc, 1).ok()??;
        write!(texts, "{text}\n").ok()?;
    }
    Some(texts)
}

/// True if an event names session 2, or opens a session in room `a` that may edit.
fn is_own(event: &Event) -> bool {
    match event {
        Event::Open { room, access } => room.as_str() == "a" && *access == Access::ReadWrite,
        Event::Receive { session, .. } | Event::Draw { session } | Event::Close { session } => {
            *session == 2
        }
        Event::DoWill | Event::Forget { .. } | Event::Adopt { .. } | Event::RaiseFloor { .. } =>
            false,
    }
}

impl<'a> Run<'a> {
    fn new(alloc: Global, wire: &'a RefCell<Wire>) -> Option<Run<'a>> {
        Some(Run {
            side: LinkFixture::new(alloc, wire)?,
            hub: watched(alloc)?,
            twin: watched(alloc)?,
            next: 0,
            told: String::new(alloc),
            wrong: 0,
        })
    }

    /// Returns true if the next message may be sent.
    fn may_come(&self) -> Option<bool> {
        let is_ready = match self.side.link.stage() {
            Stage::Head => self.next == 0,
            Stage::Open => self.hub.waiting(2) == Some(0),
            Stage::Closing | Stage::Gone => false,
        };
        Some(is_ready && self.side.wire()?.is_read())
    }

    /// Sends the next message, if it may be sent.
    fn feed(&mut self, alloc: Global) -> Option<()> {
        if self.may_come()? {
            if let Some(act) = MESSAGES.get(self.next) {
                self.next = self.next.saturating_add(1);
                self.side.prepare(alloc, act)?;
            }
        }
        Some(())
    }

    /// Runs a turn, and replays its events on the twin.
    fn turn(&mut self, alloc: Global) -> Option<()> {
        let failures = self.side.wire()?.failures;
        let session = self.side.link.session();
        let turn = self.side.turned(alloc, &mut self.hub)?;
        self.judge_events(&turn, session);
        let failed = self.side.wire()?.failures > failures;
        self.tell_cause(&turn, failed)?;
        drop(self.twin.run(alloc, turn.events.as_slice()).ok()?);
        Some(())
    }

    fn tell_cause(&mut self, turn: &Turn, failed: bool) -> Option<()> {
        if let Some(cause) = turn.cause {
            write!(self.told, "{cause:?} ").ok()?;
        }
        self.told.push_str(if failed { "! " } else { "" }).ok()
    }

    /// Counts a violation unless `holds`.
    fn must(&mut self, holds: bool) {
        self.wrong = self.wrong.saturating_add(u64::from(!holds));
    }

    /// Checks that no event names another session, and that the link loses its session exactly if
    /// the last event is its close.
    fn judge_events(&mut self, turn: &Turn, session: Option<u64>) {
        for event in turn.events.iter() {
            self.must(is_own(event));
        }
        let had_one = session.is_some() || !turn.events.is_empty();
        let is_left = had_one && self.side.link.session().is_none();
        let is_closed = matches!(turn.events.last(), Some(Event::Close { .. }));
        self.must(is_left == is_closed);
    }

    /// Runs all turns, and tells what came of them.
    fn told(&mut self, alloc: Global) -> Option<String> {
        for _ in 0..TURNS {
            self.feed(alloc)?;
            self.turn(alloc)?;
        }
        self.tell_rest(alloc)?;
        Some(mem::replace(&mut self.told, String::new(alloc)))
    }

    /// Appends what is left after the turns, and checks that session 1 draws the same from the hub
    /// and from its twin.
    fn tell_rest(&mut self, alloc: Global) -> Option<()> {
        let texts = drawn(alloc, &mut self.hub)?;
        let of_twin = drawn(alloc, &mut self.twin)?;
        self.must(of_twin.as_str() == texts.as_str());
        let is_closed = self.hub.waiting(2).is_none();
        self.must(is_closed);
        let calls = self.side.wire()?.calls;
        self.must(calls <= MAX_CALLS);
        let (stage, wrong) = (self.side.link.stage(), self.wrong);
        let words = self.side.words_from(alloc, 0)?;
        write!(self.told, "{stage:?}, {wrong} wrong\n{texts}{words}\n").ok()
    }
}

/// The outcome of a run over a wire.
fn told_of(alloc: Global, wire: &RefCell<Wire>) -> Option<String> {
    Run::new(alloc, wire)?.told(alloc)
}

/// The outcome of a run in which one call has a fault.
fn told_at(alloc: Global, call: u64, fault: InjectedFault) -> Option<String> {
    let wire = Wire::new(alloc);
    wire.try_borrow_mut().ok()?.trick = Some((call, fault));
    told_of(alloc, &wire)
}

/// The number of runs with each kind of end.
#[derive(Clone, Copy)]
struct Ends {
    /// As a run without faults.
    whole: u64,
    peer: u64,
    stream: u64,
}

impl Ends {
    /// Counts a run by its result, if it has one of these ends. `stream` is how it begins if the
    /// stream ended it.
    fn count(&mut self, told: &str, stream: &str) {
        if told == WHOLE {
            self.whole = self.whole.saturating_add(1);
        } else if told.starts_with(BY_PEER) {
            self.peer = self.peer.saturating_add(1);
        } else if told.starts_with(stream) {
            self.stream = self.stream.saturating_add(1);
        }
    }
}

/// The runs of a link, and how many calls it makes in one.
#[derive(Clone, Copy)]
struct Runs {
    calls: u64,
}

impl<R: AllocGlobal> Subject<R> for Runs {
    fn act(&mut self, rt: &R, act: &str) -> Option<String> {
        let alloc = rt.alloc();
        match act {
            "calls" => self.count(alloc),
            "not-ready" => self.ends(alloc, InjectedFault::Nothing, BY_STREAM),
            "interrupt" => self.ends(alloc, InjectedFault::Interrupt, BY_STREAM),
            "one-byte" => self.ends(alloc, InjectedFault::OneByte, BY_STREAM),
            "fail" => self.ends(alloc, InjectedFault::Fail, BY_FAILURE),
            "end" => self.ends(alloc, InjectedFault::End, BY_STREAM),
            _ => None,
        }
    }
}

impl Runs {
    /// Counts the calls of a run without faults. Nothing is told if it does not come to what it has
    /// to.
    fn count(&mut self, alloc: Global) -> Option<String> {
        let wire = Wire::new(alloc);
        let told = told_of(alloc, &wire)?;
        let wire = wire.try_borrow_mut().ok()?;
        self.calls = wire.calls;
        let (reads, writes) = (wire.read_calls, wire.write_calls);
        let counted = format!(in alloc; "{} calls: {reads} reads, {writes} writes", wire.calls);
        (told.as_str() == WHOLE).then_some(counted.ok()?)
    }

    /// The ends of the runs in which one call has the fault: one run for each call.
    fn ends(self, alloc: Global, fault: InjectedFault, by_stream: &str) -> Option<String> {
        let mut ends = Ends {
            whole: 0,
            peer: 0,
            stream: 0,
        };
        for call in 0..self.calls {
            ends.count(told_at(alloc, call, fault)?.as_str(), by_stream);
        }
        let (whole, peer, stream) = (ends.whole, ends.peer, ends.stream);
        format!(in alloc; "{whole} whole, {peer} by the peer, {stream} by the stream").ok()
    }
}

#[test]
fn each_call_goes_wrong_in_each_way(rt: HostRuntime) {
    play(&rt, &mut Runs { calls: 0 }, ROWS).expect(&rt, "each row holds");
}
