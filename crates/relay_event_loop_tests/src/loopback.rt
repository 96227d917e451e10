//! A server behind a loopback socket, and two clients of its room.
use relay_access::Access;
use relay_event_loop::{NoLog, NotKept, Server};
use relay_hub::Hub;
use relay_loopback::{Client, ClientHandshake};
use relay_readiness::Polling;
use relay_test_stream::{Subject, cut, play};
use std::alloc::{AllocGlobal, Global};
use std::net::{Ipv4Addr, Net, OpenListener, OpenStream, SocketAddr};

/// The maximum number of rounds that a client waits.
const MAX_ROUNDS: u64 = 10_000;

const ROWS: &str = r#"
# Of two clients one drops its socket, and the other keeps working.
open a
open b
connections => 2
hear a => {"epoch":1,"kind":"welcome","rev":0,"session":1}
hear b => {"epoch":1,"kind":"welcome","rev":0,"session":2}
drop a
say b {"do":"watch","id":1,"view":["/x"]}
hear b => {"id":1,"kind":"watching"}
hear b => {"kind":"snapshot","rev":0,"view":[[]]}
say b {"do":"edit","id":2,"patch":[{"op":"add","path":"","value":{"x":1}}]}
hear b => {"id":2,"kind":"done","rev":1}
hear b => {"kind":"patch","patch":[{"op":"replace","path":"/0","value":[1]}],"rev":1}
connections => 1
end
connections => 0
"#;

#[test]
fn a_client_that_drops_ends_its_own_link_alone(rt: HostRuntime) {
    let mut loopback = Loopback::new(&rt).expect(&rt, "a server");
    play(&rt, &mut loopback, ROWS).expect(&rt, "each row holds");
}

/// A server behind a loopback socket, and the clients of its room.
#[derive(Drop)]
struct Loopback<N: Net> {
    listener: N::Listener,
    serving: Server<N::Stream, Polling>,
    a: Option<Client<N::Stream>>,
    b: Option<Client<N::Stream>>,
}

impl<N: AllocGlobal + Net> Subject<N> for Loopback<N> {
    /// Does an act, and tells what came of it:
    ///
    /// - `open NAME` runs rounds until a client's handshake is accepted, `drop NAME` drops its
    ///   socket, and `say NAME TEXT` sends a text;
    /// - `hear NAME` runs rounds until a client receives a text, and tells it;
    /// - `end` ends the server, and `connections` tells how many there are.
    fn act(&mut self, rt: &N, act: &str) -> Option<String> {
        let (word, rest) = cut(act);
        match word {
            "hear" => self.heard(rt.alloc(), rest),
            "connections" => told(rt.alloc(), self.serving.connections()),
            _ => {
                self.change(rt, word, rest)?;
                Some(String::new(rt.alloc()))
            }
        }
    }
}

fn told(alloc: Global, number: usize) -> Option<String> {
    format!(in alloc; "{number}").ok()
}

impl<N: AllocGlobal + Net> Loopback<N> {
    fn new(rt: &N) -> Option<Loopback<N>> {
        let listener = rt.bind(SocketAddr::from((Ipv4Addr::LOCALHOST, 0))).ok()?;
        listener.set_nonblocking(true).ok()?;
        let polling = Polling::new(rt.alloc(), rt, &listener).ok()?;
        let hub = Hub::new(rt.alloc(), 1, 1, 64, 32).ok()?;
        Some(Loopback {
            listener,
            serving: Server::new(rt.alloc(), hub, polling, u64::MAX),
            a: None,
            b: None,
        })
    }

    /// Does an act of which nothing is told.
    fn change(&mut self, rt: &N, word: &str, rest: &str) -> Option<()> {
        match word {
            "open" => self.open(rt, rest),
            "drop" => self.keep(rest, None),
            "say" => self.say(rt.alloc(), cut(rest).0, cut(rest).1),
            "end" => self.end(rt.alloc()),
            _ => None,
        }
    }

    fn open(&mut self, rt: &N, name: &str) -> Option<()> {
        let mut handshake = connecting(rt, &self.listener)?;
        for _ in 0..MAX_ROUNDS {
            self.round(rt.alloc());
            if handshake.status() == Some(101) {
                return self.keep(name, Some(handshake.client(rt.alloc())));
            }
        }
        None
    }

    /// Sets the client of a name.
    fn keep(&mut self, name: &str, client: Option<Client<N::Stream>>) -> Option<()> {
        match name {
            "a" => self.a = client,
            _ => self.b = client,
        }
        Some(())
    }

    fn client(&mut self, name: &str) -> Option<&mut Client<N::Stream>> {
        match name {
            "a" => self.a.as_mut(),
            _ => self.b.as_mut(),
        }
    }

    fn say(&mut self, alloc: Global, name: &str, text: &str) -> Option<()> {
        self.client(name)?.send(alloc, text).ok()
    }

    fn heard(&mut self, alloc: Global, name: &str) -> Option<String> {
        for _ in 0..MAX_ROUNDS {
            self.round(alloc);
            if let Some(text) = self.client(name)?.text() {
                return String::from_str(alloc, text.as_str()).ok();
            }
        }
        None
    }

    fn round(&mut self, alloc: Global) {
        self.serving
            .round(alloc, &self.listener, &mut NotKept, &mut NoLog);
    }

    fn end(&mut self, alloc: Global) -> Option<()> {
        self.serving.end(alloc, &mut NoLog);
        Some(())
    }
}

/// Connects a client, which sends its handshake for the room.
fn connecting<N: AllocGlobal + Net>(
    rt: &N,
    listener: &N::Listener,
) -> Option<ClientHandshake<N::Stream>> {
    let stream = rt.connect(listener.local_addr().ok()?).ok()?;
    stream.set_nonblocking(true).ok()?;
    stream.set_nodelay(true).ok()?;
    ClientHandshake::at(rt.alloc(), stream, "r", Access::ReadWrite).ok()?
}
