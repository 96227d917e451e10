//! Tests of the output of `serve`.
use crate::program::{run, with_complaint};
use crate::story::{on_one_line, text_of};
use relay_server::StoreOpener;
use relay_test_stream::{Subject, cut, play};
use std::alloc::AllocGlobal;
use std::net::{Ipv4Addr, Net, OpenListener, SocketAddr};
use std::time::Clock;

const ROWS: &str = r#"
# A server prints its port and its turns, and says no more.
relay serve --port 0 --turns 1 => listening, turns 1\nstatus 0
relay serve --port 0 --turns 1 --epoch 2 => listening, turns 1\nstatus 0

# A server whose port is in use says what it could not do, and the system's reason.
taken => status 1, relay: cannot listen on port PORT\nrelay: REASON\n
"#;

#[test]
fn serve_says_where_it_listens(rt: HostRuntime) {
    play(&rt, &mut Sockets, ROWS).expect(&rt, "each row holds");
}

#[derive(Clone, Copy)]
struct Sockets;

impl<R: AllocGlobal + Clock + Net + StoreOpener> Subject<R> for Sockets {
    fn act(&mut self, rt: &R, act: &str) -> Option<String> {
        let alloc = rt.alloc();
        let (word, _) = cut(act);
        let told = match word {
            "relay" => served(rt, act),
            "taken" => refused_port(rt),
            _ => None,
        };
        on_one_line(alloc, told?.as_str())
    }
}

/// The text that a server wrote, without the port that the system chose.
fn served(rt: &(impl AllocGlobal + Clock + Net + StoreOpener), line: &str) -> Option<String> {
    let mut errors = Vec::new(rt.alloc());
    let told = run(rt, line, "", &mut errors)?;
    let told = told.as_str();
    let (listening, port) = cut(told);
    let (_, turns) = port.split_once('\n').unwrap_or((port, ""));
    let told = format!(in rt.alloc(); "{listening}, {turns}").ok()?;
    with_complaint(rt.alloc(), errors.as_slice(), told.as_str())
}

/// The text that a server writes at a port that is in use.
fn refused_port(rt: &(impl AllocGlobal + Clock + Net + StoreOpener)) -> Option<String> {
    let taken = rt.bind(SocketAddr::from((Ipv4Addr::LOCALHOST, 0)));
    let taken = taken.ok()?;
    let address = taken.local_addr().ok()?;
    let reason = rt.bind(address).err()?;
    let port = address.port();
    let named = format!(in rt.alloc(); "{port}\nrelay: {reason}\n").ok()?;
    let told = refused_at(rt, port)?;
    let told = told
        .as_str()
        .replace(rt.alloc(), named.as_str(), "PORT\nrelay: REASON\n");
    told.ok()
}

/// The status of a server at a port that is in use, and its error output.
fn refused_at(rt: &(impl AllocGlobal + Clock + Net + StoreOpener), port: u16) -> Option<String> {
    let line = format!(in rt.alloc(); "relay serve --port {port} --turns 1 --epoch 2");
    let line = line.ok()?;
    let mut errors = Vec::new(rt.alloc());
    let told = run(rt, line.as_str(), "", &mut errors)?;
    let errors = text_of(rt.alloc(), errors.as_slice())?;
    format!(in rt.alloc(); "{told}, {errors}").ok()
}
