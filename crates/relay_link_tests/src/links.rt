//! Two links of one hub, to which the acts of rows are done.
use crate::link_fixture::{LinkFixture, hub_of};
use relay_access::Access;
use relay_hub::Hub;
use relay_limits::DEFAULT_SESSIONS;
use relay_outbox::MAX_REPLIES;
use relay_test_stream::{Subject, Wire, cut, play};
use std::alloc::{AllocGlobal, Global};
use std::cell::RefCell;
use std::mem;
use std::process::Abort;

/// Plays rows. A blank line begins a new hub, and new links.
pub(crate) fn play_anew(rt: &(impl Abort + AllocGlobal), rows: &str) {
    for case in rows.split("\n\n") {
        play_case(rt, case);
    }
}

fn play_case(rt: &(impl Abort + AllocGlobal), case: &str) {
    let (one, two) = (Wire::new(rt.alloc()), Wire::new(rt.alloc()));
    let mut links = Links::new(rt.alloc(), &one, &two).expect(rt, "memory");
    play(rt, &mut links, case).expect(rt, "each row holds");
}

/// A hub, the link that acts are done to, and another one.
#[derive(Drop)]
struct Links<'a> {
    hub: Hub,
    link: LinkFixture<'a>,
    other: LinkFixture<'a>,
}

impl<R: AllocGlobal> Subject<R> for Links<'_> {
    /// Does an act, and tells what came of it:
    ///
    /// - `enter` opens the link, which draws nothing until a row sets the draws;
    /// - `other` goes on with the other link;
    /// - `hub K` is a new hub that lets so many patches wait, and `full` fills it with as many
    ///   sessions as it allows;
    /// - `join` opens session 2, which has no link, and `beside ACT` has it edit after an act;
    /// - `flags ACT` tells whether the link is idle, and has output that is corked, after an act;
    /// - `waiting N` tells how many messages wait for a session, and `count-reads` and
    ///   `count-writes` how often the link read or wrote since it was last asked;
    /// - every other act is one of the link.
    fn act(&mut self, rt: &R, act: &str) -> Option<String> {
        let alloc = rt.alloc();
        match cut(act) {
            ("beside", act) => self.beside(alloc, act),
            ("waiting", session) => self.waiting(alloc, session),
            ("flags", act) => self.flags(alloc, act),
            ("count-reads", _) => self.reads(alloc),
            ("count-writes", _) => self.writes(alloc),
            ("enter" | "other" | "hub" | "full" | "join", _) => {
                self.change(alloc, act)?;
                Some(String::new(alloc))
            }
            _ => self.link.act(alloc, &mut self.hub, act),
        }
    }
}

impl<'a> Links<'a> {
    fn new(alloc: Global, one: &'a RefCell<Wire>, two: &'a RefCell<Wire>) -> Option<Links<'a>> {
        Some(Links {
            hub: hub_of(alloc, 32)?,
            link: LinkFixture::new(alloc, one)?,
            other: LinkFixture::new(alloc, two)?,
        })
    }

    /// Does an act of which nothing is told.
    fn change(&mut self, alloc: Global, act: &str) -> Option<()> {
        match cut(act) {
            ("enter", _) => drop(self.link.enter(alloc, &mut self.hub)?),
            ("other", _) => mem::swap(&mut self.link, &mut self.other),
            ("hub", most) => self.hub = hub_of(alloc, most.parse::<u64>().ok()?)?,
            ("full", _) => self.fill(alloc)?,
            _ => self.join(alloc)?,
        }
        Some(())
    }

    fn fill(&mut self, alloc: Global) -> Option<()> {
        for _ in 0..DEFAULT_SESSIONS {
            self.hub.open(alloc, "a", Access::ReadWrite).ok()?;
        }
        Some(())
    }

    /// Opens session 2, and draws its welcome.
    fn join(&mut self, alloc: Global) -> Option<()> {
        self.hub.open(alloc, "a", Access::ReadWrite).ok()?;
        drop(self.hub.draw(alloc, 2).ok()??);
        Some(())
    }

    fn flags(&mut self, alloc: Global, act: &str) -> Option<String> {
        drop(self.link.act(alloc, &mut self.hub, act)?);
        self.link.flags(alloc)
    }

    fn waiting(&self, alloc: Global, session: &str) -> Option<String> {
        let waiting = self.hub.waiting(session.parse::<u64>().ok()?);
        format!(in alloc; "{waiting:?}").ok()
    }

    fn reads(&self, alloc: Global) -> Option<String> {
        let reads = mem::replace(&mut self.link.wire()?.read_calls, 0);
        format!(in alloc; "{reads}").ok()
    }

    fn writes(&self, alloc: Global) -> Option<String> {
        let writes = mem::replace(&mut self.link.wire()?.write_calls, 0);
        format!(in alloc; "{writes}").ok()
    }

    /// Does an act of the link, and then an edit of session 2. Tells also whether the edit was
    /// done, and whether the outbox of session 1 is within the limits of a hub that lets four
    /// patches wait.
    fn beside(&mut self, alloc: Global, act: &str) -> Option<String> {
        let mut told = self.link.act(alloc, &mut self.hub, act)?;
        drop(self.hub.receive(alloc, 2, EDIT).ok()?);
        let reply = self.hub.draw(alloc, 2).ok()??;
        let is_done = reply.as_str().contains(r#"{"id":2,"kind":"done","rev":"#);
        let few_wait = self.hub.waiting(1)? <= 4 + MAX_REPLIES;
        write!(told, ", done: {is_done}, few wait: {few_wait}").ok()?;
        Some(told)
    }
}

/// The edit of session 2.
const EDIT: &str = r#"{"do":"edit","id":2,"patch":[{"op":"add","path":"","value":[1]}]}"#;
