//! A client at the other end of a link: it receives what the link wrote in a turn.
use crate::link_fixture::{LinkFixture, hub_of};
use relay_delivery::{
    ReceiveFault, SocketFault, client_on, hear_next, hear_texts, receive, write_turn,
};
use relay_follow::{Follower, HearFault};
use relay_hub::Hub;
use relay_link::MAX_DRAWS;
use relay_test_stream::{Subject, Wire, cut, play};
use std::alloc::{AllocGlobal, Global};
use std::cell::RefCell;
use std::process::Abort;
use tungstenite::{Duplex, NoMask};

/// The revision and the view that a follower holds, as text.
fn held(alloc: Global, follower: &Follower) -> Option<String> {
    let (Some(rev), Some(view)) = (follower.rev(), follower.view()) else {
        return String::from_str(alloc, "nothing").ok();
    };
    let view = view.text(alloc).ok()?;
    format!(in alloc; "{rev} {view}").ok()
}

/// A link, its hub, and the client at the other end.
#[derive(Drop)]
struct Delivery<'a> {
    hub: Hub,
    side: LinkFixture<'a>,
    follower: Follower,
}

impl<'a> Delivery<'a> {
    fn new(alloc: Global, wire: &'a RefCell<Wire>) -> Option<Delivery<'a>> {
        Some(Delivery {
            hub: hub_of(alloc, 32)?,
            side: LinkFixture::new(alloc, wire)?,
            follower: Follower::new(),
        })
    }

    /// Opens the link, and sets how much each later turn draws.
    fn enter(&mut self, alloc: Global, draws: &str) -> Option<String> {
        drop(self.side.enter(alloc, &mut self.hub)?);
        self.side.prepare(alloc, draws)?;
        Some(String::new(alloc))
    }

    /// The client receives what the link writes in a write turn, after a request of its session.
    /// Tells what it holds then.
    fn receive(&mut self, alloc: Global, request: &str) -> Option<String> {
        drop(self.hub.receive(alloc, 1, request).ok()?);
        let from = self.side.written_len()?;
        let turn = write_turn(alloc, &mut self.side.link, &mut self.hub, MAX_DRAWS);
        drop(turn.ok()?);
        let mut frames = self.side.written_from(alloc, from)?;
        receive(alloc, frames.as_mut_slice(), &mut self.follower).ok()?;
        held(alloc, &self.follower)
    }

    /// The client hears so many messages by a socket, after a turn that read a request of its
    /// session. Tells what it holds then.
    fn hear(&mut self, alloc: Global, count: &str, request: &str) -> Option<String> {
        let from = self.side.written_len()?;
        let asked = format!(in alloc; "says {request}").ok()?;
        self.side.prepare(alloc, asked.as_str())?;
        drop(self.side.turned(alloc, &mut self.hub)?);
        let frames = self.side.written_from(alloc, from)?;
        let count = count.parse::<usize>().ok()?;
        hear_all(alloc, frames.as_slice(), count, &mut self.follower)?;
        held(alloc, &self.follower)
    }
}

impl<R: AllocGlobal> Subject<R> for Delivery<'_> {
    fn act(&mut self, rt: &R, act: &str) -> Option<String> {
        let alloc = rt.alloc();
        match cut(act) {
            ("receive", request) => self.receive(alloc, request),
            ("hear", rest) => self.hear(alloc, cut(rest).0, cut(rest).1),
            ("enter", draws) => self.enter(alloc, draws),
            _ => None,
        }
    }
}

/// Hears so many messages by a socket over these bytes.
fn hear_all(alloc: Global, bytes: &[u8], count: usize, follower: &mut Follower) -> Option<()> {
    let stream = Duplex {
        reader: bytes,
        writer: Vec::new(alloc),
    };
    let mut socket = client_on(alloc, stream, NoMask);
    hear_texts(alloc, &mut socket, count, follower).ok()
}

/// The requests of a session that watches one pointer, and what its client holds after it received
/// what the link wrote.
const RECEIVED: &str = r#"
enter draws 0
receive {"do":"watch","id":1,"view":["/n"]} => 0 [[]]
receive {"do":"edit","id":2,"patch":[{"op":"add","path":"","value":{"n":1}}]} => 1 [[1]]
receive {"do":"edit","id":3,"patch":[{"op":"replace","path":"/n","value":[2]}]} => 2 [[[2]]]
receive {"do":"edit","id":4,"patch":[{"op":"remove","path":"/m"}]} => 2 [[[2]]]
receive {"do":"edit","id":5,"patch":[{"op":"add","path":"/m","value":0}]} => 2 [[[2]]]
receive {"do":"edit","id":6,"patch":[{"op":"remove","path":"/n/0"}]} => 4 [[[]]]
"#;

#[test]
fn a_client_holds_its_view_after_each_turn(rt: HostRuntime) {
    let wire = Wire::new(rt.alloc());
    let mut delivery = Delivery::new(rt.alloc(), &wire).expect(&rt, "memory");
    play(&rt, &mut delivery, RECEIVED).expect(&rt, "each row holds");
}

/// The same requests, each behind how many messages the session gets then.
const HEARD: &str = r#"
enter draws 32
hear 3 {"do":"watch","id":1,"view":["/n"]} => 0 [[]]
hear 2 {"do":"edit","id":2,"patch":[{"op":"add","path":"","value":{"n":1}}]} => 1 [[1]]
hear 2 {"do":"edit","id":3,"patch":[{"op":"replace","path":"/n","value":[2]}]} => 2 [[[2]]]
hear 1 {"do":"edit","id":4,"patch":[{"op":"remove","path":"/m"}]} => 2 [[[2]]]
hear 1 {"do":"edit","id":5,"patch":[{"op":"add","path":"/m","value":0}]} => 2 [[[2]]]
hear 2 {"do":"edit","id":6,"patch":[{"op":"remove","path":"/n/0"}]} => 4 [[[]]]
"#;

#[test]
fn a_socket_hears_what_a_turn_drew(rt: HostRuntime) {
    let wire = Wire::new(rt.alloc());
    let mut delivery = Delivery::new(rt.alloc(), &wire).expect(&rt, "memory");
    play(&rt, &mut delivery, HEARD).expect(&rt, "each row holds");
}

/// A frame with a snapshot.
const SNAPSHOT: &[u8] = b"\x81\x25{\"kind\":\"snapshot\",\"rev\":1,\"view\":[]}";

/// The bytes that come after the snapshot, and the client's answer.
const ENDS: [(&[u8], Result<(), ReceiveFault>); 10] = [
    (b"", Ok(())),
    (b"\x81", Err(ReceiveFault::NotFrames)),
    (b"\x81\x02{", Err(ReceiveFault::NotFrames)),
    (b"\x81\x82\0\0\0\0{}", Err(ReceiveFault::NotFrames)),
    (b"\x81\x01\xff", Err(ReceiveFault::NotUtf8)),
    (b"\x82\x02{}", Err(ReceiveFault::NotText)),
    (b"\x01\x02{}", Err(ReceiveFault::NotText)),
    (b"\x89\0", Err(ReceiveFault::NotText)),
    (b"\x88\0", Err(ReceiveFault::NotText)),
    (
        b"\x81\x02{}",
        Err(ReceiveFault::Refused(HearFault::NotMessage)),
    ),
];

/// Asserts what a new client answers to these frames, the first of which has the snapshot.
fn receives(rt: &(impl Abort + AllocGlobal), frames: &mut [u8], wanted: Result<(), ReceiveFault>) {
    let mut follower = Follower::new();
    assert_eq!(rt; receive(rt.alloc(), frames, &mut follower), wanted);
    let held = held(rt.alloc(), &follower).expect(rt, "memory");
    assert_eq!(rt; held.as_str(), "1 []");
}

#[test]
fn a_client_stops_at_the_first_frame_that_is_no_message(rt: HostRuntime) {
    for (end, wanted) in ENDS {
        let mut frames = [SNAPSHOT, end].concat(rt.alloc()).expect(&rt, "memory");
        receives(&rt, frames.as_mut_slice(), wanted);
    }
}

/// Hears the first message by a socket over these bytes.
fn heard(rt: &(impl Abort + AllocGlobal), bytes: &[u8]) -> Result<(), SocketFault> {
    let stream = Duplex {
        reader: bytes,
        writer: Vec::new(rt.alloc()),
    };
    let mut socket = client_on(rt.alloc(), stream, NoMask);
    hear_next(rt.alloc(), &mut socket, &mut Follower::new())
}

fn name_of(heard: &Result<(), SocketFault>) -> &'static str {
    match heard {
        Ok(()) => "heard",
        Err(SocketFault::Socket(_)) => "socket",
        Err(SocketFault::NotText) => "not text",
        Err(SocketFault::Refused(_)) => "refused",
    }
}

/// The bytes that arrive at a socket, and its answer.
const ARRIVALS: [(&[u8], &str); 6] = [
    (SNAPSHOT, "heard"),
    (b"", "socket"),
    (b"\x81\x02{", "socket"),
    (b"\x81\x01\xff", "socket"),
    (b"\x82\x02{}", "not text"),
    (b"\x81\x02{}", "refused"),
];

#[test]
fn a_socket_says_why_it_heard_nothing(rt: HostRuntime) {
    for (bytes, wanted) in ARRIVALS {
        assert_eq!(rt; name_of(&heard(&rt, bytes)), wanted, "at {bytes:?}");
    }
}
