//! A server with an admin port: what it answers beside its rounds, and how it stops.
use crate::memory_server::{MemoryListener, ReadinessScript, ScriptedKeeper, ScriptedReadiness};
use relay_event_loop::{Entrance, Keeping, NoLog, NotKept, Server};
use relay_hub::{Hub, HubConfig};
use relay_operator::AdminPort;
use relay_readiness::{AdminReadiness, ReadyEvent};
use relay_test_stream::{End, Subject, Wire, cut, play, push_summary};
use std::alloc::{AllocGlobal, Global};
use std::cell::{RefCell, RefMut};
use std::process::Abort;
use std::time::{Clock, Duration};
use std::{io, str};

/// A clock that stands still.
#[derive(Clone, Copy, Debug)]
struct Still;

impl Clock for Still {
    fn monotonic(&self) -> io::Result<Duration> {
        Ok(Duration::ZERO)
    }

    fn since_1970(&self) -> io::Result<Duration> {
        Ok(Duration::ZERO)
    }
}

/// The requests of a client and an operator, and the outcome of a server that runs for at most so
/// many rounds.
const ROWS: &str = r#"
# The rooms are told, and at the end of all rounds the client is sent away.
client asks 13 /rooms/r
operator line GET /rooms HTTP/1.1
operator line Host: localhost
operator line
run 3 => 3
body => [{"name":"r","revision":0,"sessions":1,"weight":8}]
client-summary => 101 welcome going-away
sent-away => true

# Of a room in which nobody is it is told for how long nobody has been.
client asks 13 /rooms/r
client writes fail
operator line GET /rooms HTTP/1.1
operator line Host: localhost
operator line
run 3 => 3
body => [{"name":"r","revision":0,"sessions":0,"weight":8,"empty":0}]

# What the log says is counted.
client line GET /nowhere HTTP/1.1
client line Host: localhost
client line
operator line GET /metrics HTTP/1.1
operator line Host: localhost
operator line
run 3 => 3
metric relay_handshakes_refused_total{status="404"} 1 => true
metric relay_handshakes_refused_total{status="400"} 0 => true
metric relay_sessions_opened_total 0 => true
metric relay_wills_total 0 => true
metric relay_replies_total 0 => true
metric relay_refusals_total{fault="too-long"} 0 => true
metric relay_refusals_total{fault="future"} 0 => true
metric relay_snapshots_total{cause="memory"} 0 => true
metric relay_waiting_weight 0 => true
metric relay_rounds_total 1 => true
metric relay_longest_round_seconds 0e-6 => true
metric relay_hub_cost_seconds_total 0e-6 => true

# Nothing is committed by a server whose rooms end with it.
client asks 13 /rooms/r
operator line GET /metrics HTTP/1.1
operator line Host: localhost
operator line
run 3 => 3
metric relay_store_commit_seconds_count 0 => true
metric relay_store_commit_failures_total 0 => true

# Each call that keeps something is a commit: two before the round writes, and one before the operator is answered.
keeps 0
client asks 13 /rooms/r
operator line GET /metrics HTTP/1.1
operator line Host: localhost
operator line
run 3 => 3
metric relay_store_commit_seconds_bucket{le="0.001"} 3 => true
metric relay_store_commit_seconds_bucket{le="+Inf"} 3 => true
metric relay_store_commit_seconds_sum 0e-6 => true
metric relay_store_commit_seconds_count 3 => true
metric relay_store_commit_failures_total 0 => true

# One for which there is no memory fails, and the operator is answered once there was some.
keeps 3
client asks 13 /rooms/r
operator line GET /metrics HTTP/1.1
operator line Host: localhost
operator line
run 5 => 5
metric relay_store_commit_failures_total 3 => true
metric relay_store_commit_seconds_count 2 => true

# A closed server refuses its clients, counts them, and says so to an operator.
closed
client asks 13 /rooms/r
operator line GET /health HTTP/1.1
operator line Host: localhost
operator line
run 3 => 3
status => 503
body => closed\n
client-summary => 503

closed
client asks 13 /rooms/r
operator line GET /metrics HTTP/1.1
operator line Host: localhost
operator line
run 3 => 3
metric relay_handshakes_refused_total{status="503"} 1 => true
metric relay_sessions_opened_total 0 => true

# Once an operator opens it, whoever comes may enter.
closed
client asks 13 /rooms/r
operator line POST /open HTTP/1.1
operator line Host: localhost
operator line
run-first 3 => 3
status => 204
body =>
client-summary => 101 welcome going-away

# Or one room: whoever comes may enter it, and no other.
closed
client asks 13 /rooms/r
operator line PUT /open/r HTTP/1.1
operator line Host: localhost
operator line
run-first 3 => 3
status => 204
body =>
client-summary => 101 welcome going-away

closed
client asks 13 /rooms/r
operator line PUT /open/s HTTP/1.1
operator line Host: localhost
operator line
run-first 3 => 3
status => 204
client-summary => 503

closed
client asks 13 /rooms/r
operator line PUT /open/no.name HTTP/1.1
operator line Host: localhost
operator line
run-first 3 => 3
status => 404
body => there is no such room\n
client-summary => 503

# It says from which rooms clients were turned away, unless all are open.
closed
client asks 13 /rooms/r
operator line GET /wanted HTTP/1.1
operator line Host: localhost
operator line
run 3 => 3
status => 200
body => ["r"]
client-summary => 503

client asks 13 /rooms/r
operator line GET /wanted HTTP/1.1
operator line Host: localhost
operator line
run 3 => 3
body => []

# A server that is open to all closes no room.
client asks 13 /rooms/r
operator line DELETE /open/r HTTP/1.1
operator line Host: localhost
operator line
run 3 => 3
status => 409
body => the relay is open\n
client-summary => 101 welcome going-away

closed
operator line DELETE /open/r HTTP/1.1
operator line Host: localhost
operator line
run 3 => 3
status => 204

# A page cannot open it.
closed
client asks 13 /rooms/r
operator line POST /open HTTP/1.1
operator line Host: localhost
operator line Origin: null
operator line
run-first 3 => 3
body => pages may not ask\n
client-summary => 503

# One that lets clients in goes on.
client asks 13 /rooms/r
operator line POST /open HTTP/1.1
operator line Host: localhost
operator line
run 3 => 3
status => 204
client-summary => 101 welcome going-away

# A server that is asked to stop has told what waited, and sends each client away.
client asks 13 /rooms/r
operator line POST /stop HTTP/1.1
operator line Host: localhost
operator line Content-Length: 0
operator line
run 1000 => 1
body => stopping\n
client-summary => 101 welcome going-away
sent-away => true

# A page's request for the stop is refused, and the server goes on.
client asks 13 /rooms/r
operator line POST /stop HTTP/1.1
operator line Host: localhost
operator line Origin: null
operator line
run 5 => 5
body => pages may not ask\n

# A room in which a session is stays.
client asks 13 /rooms/r
operator line DELETE /rooms/r HTTP/1.1
operator line Host: localhost
operator line
run 5 => 5
status => 409
body => a session is in the room\n
client-summary => 101 welcome going-away

# A room in which nobody is is forgotten.
client asks 13 /rooms/r
client writes fail
operator line DELETE /rooms/r HTTP/1.1
operator line Host: localhost
operator line
run 5 => 5
status => 204
body =>

# There is no room of that name.
client asks 13 /rooms/r
operator line DELETE /rooms/s HTTP/1.1
operator line Host: localhost
operator line
run 5 => 5
status => 404
body => there is no such room\n

# A head that is not complete holds up nothing, and has no reply.
client asks 13 /rooms/r
operator line GET /health HTTP/1.1
operator line Host: localhost
run 5 => 5
unanswered => true
client-summary => 101 welcome going-away
sent-away => true
"#;

#[test]
fn answers_beside_its_rounds(rt: HostRuntime) {
    for case in ROWS.split("\n\n") {
        play_case(&rt, case);
    }
}

fn play_case(rt: &(impl Abort + AllocGlobal), case: &str) {
    let (client, operator) = (Wire::new(rt.alloc()), Wire::new(rt.alloc()));
    let mut port = Port {
        client: &client,
        operator: &operator,
        is_closed: false,
        put_off: None,
    };
    play(rt, &mut port, case).expect(rt, "each row holds");
}

/// The wires of a client and of an operator, whether the server begins closed, and what it keeps.
#[derive(Clone, Copy)]
struct Port<'a> {
    client: &'a RefCell<Wire>,
    operator: &'a RefCell<Wire>,
    is_closed: bool,
    /// If nobody is told what is not kept, the number of times that there is no memory to keep it.
    put_off: Option<u64>,
}

impl<R: AllocGlobal> Subject<R> for Port<'_> {
    /// Does an act, and tells what came of it:
    ///
    /// - `client ACT` and `operator ACT` do an act of a wire;
    /// - `run N` runs a server for at most so many rounds, and tells how many were run; `run-first
    ///   N` does so twice, at first for the operator alone, who is not answered later;
    /// - `closed` has the server let no client in until it is opened;
    /// - `keeps N` has it tell only what is kept, for which there is no memory so many times;
    /// - `status` and `body` tell the status and the body of the reply to the operator, with `\n`
    ///   for the end of a line, and `metric LINE` whether it has this line;
    /// - `unanswered` tells whether the operator got nothing at all;
    /// - `client-summary` tells what the client was sent, and `sent-away` whether the last of it is
    ///   a close frame with 1001.
    fn act(&mut self, rt: &R, act: &str) -> Option<String> {
        let alloc = rt.alloc();
        let (word, rest) = cut(act);
        match word {
            "client" => done(alloc, self.client, rest),
            "operator" => done(alloc, self.operator, rest),
            "run" => self.run(alloc, rest.parse::<u64>().ok()?),
            "run-first" => self.run_first(alloc, rest.parse::<u64>().ok()?),
            "closed" => self.close(alloc),
            "keeps" => self.keep_after(alloc, rest.parse::<u64>().ok()?),
            "body" => body(alloc, self.operator),
            "status" => status(alloc, self.operator),
            "unanswered" => is_unanswered(alloc, self.operator),
            "metric" => has_line(alloc, self.operator, rest),
            "client-summary" => summary(alloc, self.client),
            "sent-away" => is_sent_away(alloc, self.client),
            _ => None,
        }
    }
}

impl Port<'_> {
    /// From now on the server lets no client in.
    fn close(&mut self, alloc: Global) -> Option<String> {
        self.is_closed = true;
        Some(String::new(alloc))
    }

    /// From now on the server tells only what is kept, once there was no memory so many times.
    fn keep_after(&mut self, alloc: Global, put_off: u64) -> Option<String> {
        self.put_off = Some(put_off);
        Some(String::new(alloc))
    }

    /// Runs a server for at most so many rounds, to which the client and the operator are
    /// connected. Tells how many rounds were run.
    fn run(&self, alloc: Global, rounds: u64) -> Option<String> {
        let script = ReadinessScript::new(alloc);
        script.try_borrow_mut().ok()?.add(ReadyEvent::Incoming)?;
        let mut admin = AdminPort::new(alloc, listener_with(alloc, self.operator)?);
        let listener = listener_with(alloc, self.client)?;
        let mut server = server(alloc, &script, self.is_closed)?;
        if self.put_off.is_some() {
            server.tell_kept();
        }
        let mut keeper = ScriptedKeeper {
            outcome: Keeping::Done,
            put_off: self.put_off.unwrap_or(0),
        };
        let run = server.run_administered(
            alloc,
            &listener,
            &mut admin,
            rounds,
            &mut keeper,
            &mut NoLog,
        );
        format!(in alloc; "{run}").ok()
    }

    /// Runs a server for at most so many rounds, to which the operator is connected, and then again
    /// so many, to which the client comes. Tells how many rounds were run then.
    fn run_first(&self, alloc: Global, rounds: u64) -> Option<String> {
        let script = ReadinessScript::new(alloc);
        let mut admin = AdminPort::new(alloc, listener_with(alloc, self.operator)?);
        let nobody = MemoryListener::new(alloc);
        let listener = listener_with(alloc, self.client)?;
        let mut server = server(alloc, &script, self.is_closed)?;
        server.run_administered(alloc, &nobody, &mut admin, rounds, &mut NotKept, &mut NoLog);
        script.try_borrow_mut().ok()?.add(ReadyEvent::Incoming)?;
        let run = server.run_administered(
            alloc,
            &listener,
            &mut admin,
            rounds,
            &mut NotKept,
            &mut NoLog,
        );
        format!(in alloc; "{run}").ok()
    }
}

/// Borrows a wire.
fn lent(wire: &RefCell<Wire>) -> Option<RefMut<'_, Wire>> {
    wire.try_borrow_mut().ok()
}

fn done(alloc: Global, wire: &RefCell<Wire>, act: &str) -> Option<String> {
    let is_done = lent(wire)?.perform(alloc, act).ok()?;
    is_done.then_some(String::new(alloc))
}

/// A listener at which a wire waits.
fn listener_with(alloc: Global, wire: &RefCell<Wire>) -> Option<MemoryListener<'_>> {
    let listener = MemoryListener::new(alloc);
    listener.add(wire)?;
    Some(listener)
}

/// The server of a port, whose readiness the test sets.
type Administered<'a, 's> = Server<End<'a>, AdminReadiness<'s, ScriptedReadiness<'s>, Still>>;

fn server<'a, 's>(
    alloc: Global,
    script: &'s RefCell<ReadinessScript>,
    is_closed: bool,
) -> Option<Administered<'a, 's>> {
    let hub = Hub::with_config(alloc, HubConfig::new(1, 1, 64, 32)).ok()?;
    let readiness = AdminReadiness::new(ScriptedReadiness::of(script), &Still);
    let mut server = Server::new(alloc, hub, readiness, u64::MAX);
    if is_closed {
        server.set_entrance(Entrance::closed(alloc));
    }
    Some(server)
}

fn body(alloc: Global, wire: &RefCell<Wire>) -> Option<String> {
    let wire = lent(wire)?;
    let text = str::from_utf8(wire.output.as_slice()).ok()?;
    let (_, body) = text.split_once("\r\n\r\n")?;
    body.replace(alloc, "\n", "\\n").ok()
}

fn status(alloc: Global, wire: &RefCell<Wire>) -> Option<String> {
    let wire = lent(wire)?;
    let text = str::from_utf8(wire.output.as_slice()).ok()?;
    text.get(9..12)?.to_owned(alloc).ok()
}

fn is_unanswered(alloc: Global, wire: &RefCell<Wire>) -> Option<String> {
    format!(in alloc; "{}", lent(wire)?.output.is_empty()).ok()
}

fn is_sent_away(alloc: Global, wire: &RefCell<Wire>) -> Option<String> {
    let is_last = lent(wire)?.output.ends_with(&[0x88, 2, 0x03, 0xe9]);
    format!(in alloc; "{is_last}").ok()
}

fn has_line(alloc: Global, wire: &RefCell<Wire>, line: &str) -> Option<String> {
    let wire = lent(wire)?;
    let text = str::from_utf8(wire.output.as_slice()).ok()?;
    let has = text.lines().any(|it| it == line);
    format!(in alloc; "{has}").ok()
}

fn summary(alloc: Global, wire: &RefCell<Wire>) -> Option<String> {
    let mut told = String::new(alloc);
    push_summary(&mut told, lent(wire)?.output.as_slice()).ok()?;
    told.as_str().trim().to_owned(alloc).ok()
}
