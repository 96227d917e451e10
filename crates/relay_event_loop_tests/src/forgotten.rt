//! No connection is forgotten: rounds go by queues, and behind each the queues are compared with a
//! walk over all connections.
use crate::clients::{Clients, wires};
use crate::memory_server::ReadinessScript;
use crate::numbers::Numbers;
use relay_test_stream::play;
use std::alloc::{AllocGlobal, Global};
use std::process::Abort;

/// The number of clients, and of those that stay to the end: the others may break off.
const CLIENTS: u64 = 6;

const STAYING: u64 = 4;

const STEPS: u64 = 200;

const EDIT: &str = r#"send @ says {"do":"edit","id":2,"patch":[{"op":"add","path":"","value":7}]}"#;

const EDITS: &str = r#"
40 wire @ says {"do":"edit","id":2,"patch":[{"op":"add","path":"","value":7}]}
readable @
"#;

const LONG: &str =
    r#"send @ stretches 9000 {"do":"edit","id":3,"patch":[{"op":"add","path":"","value":"*"}]}"#;

/// Edits that may be much work.
const COSTLY: &str = r#"
3 wire @ says {"do":"edit","id":3,"patch":[{"op":"add","path":"","value":["copy","copy","copy","copy","copy","copy","copy","copy","copy","copy","copy","copy","copy","copy","copy","copy","copy","copy"]}]}
readable @
"#;

const WATCH: &str = r#"send @ says {"do":"watch","id":1,"view":[""]}"#;

const GOES_ON: &str = "
wire @ writes well
readable @
writable @
";

/// The step of a client, or of what its stream does. `@` is the client.
fn step(numbers: &mut Numbers, client: u64) -> &'static str {
    match numbers.below(14) {
        0..=3 => EDIT,
        4 => EDITS,
        5 | 6 => LONG,
        7 | 8 => COSTLY,
        9 => WATCH,
        10 => "wire @ writes not-ready",
        11 => GOES_ON,
        12 => "send @ hex 89 80 00 00 00 00",
        _ => break_off(numbers, client),
    }
}

/// The act that ends a connection, if it is one that does not stay. Otherwise the system cannot say
/// what is ready.
fn break_off(numbers: &mut Numbers, client: u64) -> &'static str {
    if client < STAYING {
        "wait-fails"
    } else if numbers.below(8) == 0 {
        "send @ hex 82 81 00 00 00 00 78"
    } else {
        ""
    }
}

/// Rows for some steps of clients, as the numbers have it, with rounds between them.
fn steps(alloc: Global, numbers: &mut Numbers) -> Option<String> {
    let mut rows = String::new(alloc);
    for _ in 0..STEPS {
        let client = numbers.below(CLIENTS);
        let key = format!(in alloc; "{client}").ok()?;
        let step = step(numbers, client).replace(alloc, "@", key.as_str());
        rows.push_str(step.ok()?.as_str()).ok()?;
        let round = if numbers.below(2) == 0 {
            "rounds 1"
        } else {
            ""
        };
        write!(rows, "\n{round}\n").ok()?;
    }
    Some(rows)
}

/// Many edits may wait for each of the clients, who enter.
const BEGINS: &str = "
server waiting=256
each 6 enter
";

/// Each stream takes what is written, and the server sleeps in the end. It has read all that the
/// staying clients sent.
const SETTLES: &str = "
each 6 wire writes well
each 6 readable
each 6 writable
rounds 1
sleep
read 0 => true
read 1 => true
read 2 => true
read 3 => true
";

/// Clients send short texts, costly ones and long ones, pings and watches, more than may be
/// answered; streams fill up and take more; the system loses events; and some clients break off.
/// After each round every connection that may have a turn is queued for it.
#[test]
fn no_connection_is_forgotten(rt: HostRuntime) {
    for seed in 0..3 {
        let steps = steps(rt.alloc(), &mut Numbers { state: seed });
        play_steps(&rt, steps.expect(&rt, "memory").as_str());
    }
}

fn play_steps(rt: &(impl Abort + AllocGlobal), steps: &str) {
    let script = ReadinessScript::new(rt.alloc());
    let wires = wires(rt.alloc()).expect(rt, "memory");
    let mut clients = Clients::new(rt.alloc(), &script, wires.as_slice()).expect(rt, "memory");
    for rows in [BEGINS, steps, SETTLES] {
        play(rt, &mut clients, rows).expect(rt, "each row holds");
    }
    // Whole, since the borrow checker does not cover the end of parts that nest so deep.
    drop(clients);
}
