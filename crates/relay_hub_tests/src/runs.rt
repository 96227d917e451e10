//! Tests of runs of events, complete and stopped: the events that have answers are those that were
//! done. Errors are returned here, so that `tests/refuse-allocations` can distinguish out of memory
//! from a wrong answer.
use crate::shared::{Came, at_revision, owned, words};
use relay_access::Access;
use relay_hub::{Answer, Event, Hub, HubFault, Text};
use relay_tree::{Node, Tree};
use std::alloc::{AllocError, AllocGlobal, Global};
use std::process::Abort;
use std::test::Fail;

/// The texts of session 1: it watches, edits, and has an edit refused.
const SAID: &str = r#"{"do":"watch","id":1,"view":["/x"]}
{"do":"edit","id":2,"patch":[{"op":"add","path":"","value":{"x":1}}]}
{"do":"edit","id":3,"patch":[{"op":"replace","path":"/x","value":2},{"op":"remove","path":"/y"}]}"#;

/// The will that it leaves.
const WILL: &str = r#"{"do":"will","id":4,"patch":[{"op":"remove","path":"/x"}]}"#;

fn text_of(alloc: Global, text: &str) -> Result<Text, AllocError> {
    Ok(Text::of(String::from_str(alloc, text)?))
}

/// Session 1 says all of [`SAID`], and draws until nothing waits.
fn events(alloc: Global) -> Result<Vec<Event>, AllocError> {
    let mut events = Vec::new(alloc);
    let room = text_of(alloc, "r")?;
    events.push(Event::Open {
        room,
        access: Access::ReadWrite,
    })?;
    for text in SAID.lines() {
        let text = text_of(alloc, text)?;
        events.push(Event::Receive { session: 1, text })?;
    }
    for _ in 0..6 {
        events.push(Event::Draw { session: 1 })?;
    }
    leave(alloc, &mut events)?;
    begin_anew(alloc, &mut events)?;
    Ok(events)
}

/// The session leaves a will and is closed, its will is done, and the room forgotten.
fn leave(alloc: Global, events: &mut Vec<Event>) -> Result<(), AllocError> {
    let text = text_of(alloc, WILL)?;
    events.push(Event::Receive { session: 1, text })?;
    events.push(Event::Close { session: 1 })?;
    events.push(Event::DoWill)?;
    events.push(Event::DoWill)?;
    let room = text_of(alloc, "r")?;
    events.push(Event::Forget { room })?;
    Ok(())
}

/// The room adopts a document, and the floor is raised.
fn begin_anew(alloc: Global, events: &mut Vec<Event>) -> Result<(), AllocError> {
    let room = text_of(alloc, "r")?;
    let document = Tree::from(Node::Text(String::from_str(alloc, "kept")?));
    events.push(Event::Adopt {
        room,
        rev: 7,
        document,
    })?;
    events.push(Event::RaiseFloor { rev: 9 })?;
    Ok(())
}

/// The answers to these events, as text, a line each.
const ANSWERS: &str = r#"Opened(Opening { session: 1, rev: 0 })
Heard(Answered { short: 0 })
Heard(Answered { short: 0 })
Heard(Answered { short: 0 })
{"epoch":1,"kind":"welcome","rev":0,"session":1}
{"id":1,"kind":"watching"}
{"id":2,"kind":"done","rev":1}
{"at":1,"fault":"missing","id":3,"kind":"refused"}
{"kind":"snapshot","rev":1,"view":[[1]]}
Drawn(None)
Heard(Answered { short: 0 })
Closed
WillDone { short: 0 }
NoWill
Forgotten { rev: 3 }
Adopted
FloorRaised"#;

/// The number of them.
const COUNT: usize = 17;

/// An answer, as text. Of a draw it is the text itself, if there was one.
fn in_words(alloc: Global, answer: &Answer) -> Came {
    match answer {
        Answer::Drawn(Some(text)) => owned(alloc, text.as_str()),
        other => words(alloc, other),
    }
}

/// Asserts that the answers are the first of [`ANSWERS`].
fn are_the_first(rt: &(impl Abort + AllocGlobal), answers: &[Answer]) -> Result<(), Fail> {
    assert!(rt; answers.len() <= COUNT);
    for (answer, wanted) in answers.iter().zip(ANSWERS.lines()) {
        let answer = in_words(rt.alloc(), answer).ok_or("no memory")?;
        assert_eq!(rt; answer.as_str(), wanted);
    }
    Ok(())
}

/// The number of messages that wait for session 1, and what it should hold, if it is open.
fn state(alloc: Global, hub: &Hub) -> Came {
    let waiting = hub.waiting(1);
    let truth = truth(alloc, hub)?;
    format!(in alloc; "{waiting:?} {truth}").ok()
}

fn truth(alloc: Global, hub: &Hub) -> Came {
    match hub.truth(alloc, 1) {
        Ok(Some((rev, view))) => at_revision(alloc, rev, &view),
        Ok(None) => owned(alloc, "nothing"),
        Err(HubFault::NoMemory) => None,
        Err(fault) => words(alloc, fault),
    }
}

#[test]
fn runs_the_first_script(rt: HostRuntime) -> Result<(), Fail> {
    let events = events(rt.alloc())?;
    let mut hub = Hub::new(rt.alloc(), 1, 1, 64, 32)?;
    let answers = hub
        .run(rt.alloc(), events.as_slice())
        .ok()
        .ok_or("no memory")?;
    assert_eq!(rt; answers.len(), COUNT);
    are_the_first(&rt, answers.as_slice())
}

/// Runs events until memory runs out. Asserts the answers, and returns how many events were done.
fn does(rt: &(impl Abort + AllocGlobal), hub: &mut Hub, events: &[Event]) -> Result<usize, Fail> {
    let run = hub.run(rt.alloc(), events);
    let answers = run.unwrap_or_else(|fault| fault.answers);
    are_the_first(rt, answers.as_slice())?;
    Ok(answers.len())
}

/// Runs the first `count` events on another hub.
fn does_again(
    alloc: Global,
    twin: &mut Hub,
    events: &[Event],
    count: usize,
) -> Result<(), AllocError> {
    let done = events.get(..count).unwrap_or(&[]);
    match twin.run(alloc, done) {
        Ok(_) => Ok(()),
        Err(_) => Err(AllocError),
    }
}

fn are_alike(rt: &(impl Abort + AllocGlobal), hub: &Hub, twin: &Hub) -> Result<(), Fail> {
    let state_of_twin = state(rt.alloc(), twin).ok_or("no memory")?;
    let state = state(rt.alloc(), hub).ok_or("no memory")?;
    assert_eq!(rt; state.as_str(), state_of_twin.as_str());
    Ok(())
}

fn twin_follows(
    rt: &(impl Abort + AllocGlobal),
    hub: &mut Hub,
    twin: &mut Hub,
) -> Result<(), Fail> {
    let events = events(rt.alloc())?;
    let done = does(rt, hub, events.as_slice())?;
    does_again(rt.alloc(), twin, events.as_slice(), done)?;
    are_alike(rt, hub, twin)
}

/// A run that runs out of memory stops. Its answers are those of the events that were done, and
/// another hub on which the same events are run reaches the same state. `tests/refuse-allocations`
/// refuses each allocation in turn.
#[test]
fn a_run_did_what_its_answers_say(rt: HostRuntime) -> Result<(), Fail> {
    let mut hub = Hub::new(rt.alloc(), 1, 1, 64, 32)?;
    let mut twin = Hub::new(rt.alloc(), 1, 1, 64, 32)?;
    twin_follows(&rt, &mut hub, &mut twin)
}
