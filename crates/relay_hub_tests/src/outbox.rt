//! Tests of what waits in an outbox, and of the order in which it is drawn. How it affects sessions
//! is data in `tests/scripts`.
use crate::shared::{Came, number, owned, words};
use relay_outbox::{Busy, Front, Outbox, OutboxFault};
use relay_test_stream::{Subject, cut, play};
use std::alloc::{AllocGlobal, Global};

/// `new 2` goes on with an outbox for 2 patches. Of `waits` come how many replies and how many
/// patches wait, and whether a snapshot is due. A reply that finds no space is given back.
const ROWS: &str = "
# Draws replies, then patches, then the snapshot.
new 2 => None
patch 5
reply 1 => None
patch 6
waits => (1, 2, false)
draw => reply 1
draw => patch 5
draw => patch 6
draw => nothing
fold
reply 3 => None
draw => reply 3
draw => snapshot
draw => nothing

# Folds where no more patches may wait.
new 2 => None
patch 1
waits => (0, 1, false)
patch 2
waits => (0, 2, false)
patch 3
waits => (0, 0, true)
patch 4
waits => (0, 0, true)

# Keeps 32 replies where patches go.
new 2 => None
32 reply 0 => None
reply 33 => Some(33)
fold
waits => (32, 0, true)
clear
waits => (32, 0, false)

# Holds from 1 to 256 patches.
new 0 => Some(BadLimit)
new 1 => None
new 256 => None
new 257 => Some(BadLimit)
new 18446744073709551615 => Some(BadLimit)
";

/// An outbox of numbered replies and patches.
type Numbers = Outbox<u64, u64>;

/// The outbox that acts are done to.
#[derive(Drop)]
struct Outboxes {
    outbox: Numbers,
}

impl<R: AllocGlobal> Subject<R> for Outboxes {
    fn act(&mut self, rt: &R, act: &str) -> Option<String> {
        let alloc = rt.alloc();
        let (word, rest) = cut(act);
        let outbox = &mut self.outbox;
        match word {
            "new" => words(alloc, begin_anew(alloc, outbox, number(rest)?)),
            "reply" => words(alloc, reply(outbox, number(rest)?)),
            "draw" => draw(alloc, outbox),
            "waits" => words(alloc, (outbox.replies(), outbox.patches(), outbox.is_due())),
            _ => change(alloc, outbox, word, rest),
        }
    }
}

/// Does what returns nothing.
fn change(alloc: Global, outbox: &mut Numbers, word: &str, rest: &str) -> Came {
    match word {
        "patch" => outbox.patch(number(rest)?),
        "fold" => outbox.fold(),
        "clear" => outbox.clear(),
        _ => return None,
    }
    owned(alloc, "")
}

/// Goes on with another outbox, for so many patches. Returns the fault if it cannot be made.
fn begin_anew(alloc: Global, outbox: &mut Numbers, patches: u64) -> Option<OutboxFault> {
    match Outbox::new(alloc, patches) {
        Ok(made) => {
            *outbox = made;
            None
        }
        Err(fault) => Some(fault),
    }
}

/// Adds a reply. Returns its number if there is no space for it.
fn reply(outbox: &mut Numbers, number: u64) -> Option<u64> {
    match outbox.reply(number) {
        Ok(()) => None,
        Err(Busy(number)) => Some(number),
    }
}

/// Draws the next message, as its kind and the number of the reply or the patch.
fn draw(alloc: Global, outbox: &mut Numbers) -> Came {
    let front = in_words(alloc, outbox.front());
    outbox.drop_front();
    front
}

fn in_words(alloc: Global, front: Front<'_, u64, u64>) -> Came {
    match front {
        Front::Reply(number) => format!(in alloc; "reply {number}").ok(),
        Front::Patch(rev) => format!(in alloc; "patch {rev}").ok(),
        Front::Snapshot => owned(alloc, "snapshot"),
        Front::Nothing => owned(alloc, "nothing"),
    }
}

#[test]
fn draws_in_order(rt: HostRuntime) {
    let mut outboxes = Outboxes {
        outbox: Outbox::new(rt.alloc(), 2).expect(&rt, "an outbox"),
    };
    play(&rt, &mut outboxes, ROWS).expect(&rt, "each row holds");
}
