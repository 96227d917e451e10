//! Tests of histories whose revisions set the root to numbers, so that the numbers show which
//! changes are kept.
use crate::shared::{Came, number, owned, words};
use relay_history::{History, HistoryFault, LAST_REVISION, ReservedRevision};
use relay_patch::Change;
use relay_pointer::Pointer;
use relay_test_stream::{Subject, cut, play};
use relay_tree::{Budget, Node, Tree};
use std::alloc::{AllocError, AllocGlobal, Global};

/// The acts that `five` stands for: a history of five revisions. A change weighs 64 and its whole
/// number 8, and the root's path nothing, so the third revision, which sets the root twice, weighs
/// 144 and the others 72.
const FIVE: &str = "
new 5 0 => Ok(0)
push 1
push 2
push 3 3
push 4
push 5
";

/// `new 2 0` goes on with a history of 2 revisions at most, from revision 0. `push` adds a revision
/// that sets the root to each of these numbers.
const ROWS: &str = "
# Gives the changes after a revision in order.
new 2 0 => Ok(0)
push 1
push 2
push 3
push 4
push 5
kept => (3, 5)
after 5 => []
after 4 => [5]
after 3 => [4, 5]
after 2 => none
after 0 => none
after 6 => none
after 18446744073709551615 => none

# Keeps the newest revisions within a budget.
five
trim unbounded
kept => (0, 5)
after 0 => [1, 2, 3, 3, 4, 5]
five
trim 432
kept => (0, 5)
after 0 => [1, 2, 3, 3, 4, 5]
five
trim 431
kept => (1, 5)
after 1 => [2, 3, 3, 4, 5]
five
trim 288
kept => (2, 5)
after 2 => [3, 3, 4, 5]
five
trim 287
kept => (3, 5)
after 3 => [4, 5]
five
trim 72
kept => (4, 5)
after 4 => [5]
five
trim 71
kept => (5, 5)
after 5 => []
five
trim 0
kept => (5, 5)
after 5 => []

# Holds from 1 to 1,024 revisions, up to the last, 9,007,199,254,740,991.
new 0 0 => Err(BadLimit)
new 1025 0 => Err(BadLimit)
new 18446744073709551615 0 => Err(BadLimit)
new 1 9007199254740992 => Err(BadLimit)
new 1 9007199254740991 => Ok(9007199254740991)
new 1024 7 => Ok(7)
";

/// The history that acts are done to.
#[derive(Drop)]
struct Histories {
    history: History,
}

impl<R: AllocGlobal> Subject<R> for Histories {
    fn act(&mut self, rt: &R, act: &str) -> Option<String> {
        let alloc = rt.alloc();
        let (word, rest) = cut(act);
        let history = &mut self.history;
        match word {
            "new" => begin_anew(alloc, history, rest),
            "push" => push(alloc, history, rest),
            "trim" => trim(alloc, history, rest),
            "kept" => words(alloc, (history.oldest(), history.newest())),
            "after" => numbers_after(alloc, history, number(rest)?),
            _ => None,
        }
    }
}

/// Goes on with another history. Tells the revision from which it starts, or why it cannot be made.
fn begin_anew(alloc: Global, history: &mut History, rest: &str) -> Came {
    let (limit, start) = cut(rest);
    match History::new(alloc, number(limit)?, number(start)?) {
        Ok(made) => {
            *history = made;
            words(alloc, Ok::<u64, HistoryFault>(history.newest()))
        }
        Err(fault) => words(alloc, Err::<u64, HistoryFault>(fault)),
    }
}

/// Adds the next revision, if there is one left. It sets the root to each of the numbers.
fn push(alloc: Global, history: &mut History, numbers: &str) -> Came {
    let changes = changes_of(alloc, numbers)?;
    if history.newest() < LAST_REVISION {
        let slot = ReservedRevision::new(alloc).ok()?;
        history.push(slot, changes);
    }
    owned(alloc, "")
}

fn changes_of(alloc: Global, numbers: &str) -> Option<Vec<Change>> {
    let mut changes = Vec::new(alloc);
    for number in numbers.split_whitespace() {
        let number = number.parse::<i64>().ok()?;
        changes.push(set(number)).ok()?;
    }
    Some(changes)
}

/// A change that sets the root to a number.
fn set(number: i64) -> Change {
    Change::Set {
        path: Pointer::root(),
        value: Tree::from(Node::Whole(number)),
    }
}

fn trim(alloc: Global, history: &mut History, budget: &str) -> Came {
    history.trim(match budget {
        "unbounded" => Budget::Unbounded,
        most => Budget::Left(number(most)?),
    });
    owned(alloc, "")
}

/// The numbers that the root was set to after a revision, as text.
fn numbers_after(alloc: Global, history: &History, rev: u64) -> Came {
    let Some(since) = history.since(rev) else {
        return owned(alloc, "none");
    };
    let numbers: Result<Vec<i64>, AllocError> = since
        .filter_map(|change| number_of(change))
        .collect(alloc);
    words(alloc, numbers.ok()?)
}

/// The number that a change sets the root to.
fn number_of(change: &Change) -> Option<i64> {
    match change {
        Change::Set { value, .. } => match &value.node {
            Node::Whole(number) => Some(*number),
            _ => None,
        },
        _ => None,
    }
}

#[test]
fn keeps_the_newest_revisions(rt: HostRuntime) {
    let mut histories = Histories {
        history: History::new(rt.alloc(), 1, 0).expect(&rt, "a history"),
    };
    let rows = ROWS.replace(rt.alloc(), "\nfive\n", FIVE);
    let rows = rows.expect(&rt, "memory");
    play(&rt, &mut histories, rows.as_str()).expect(&rt, "each row holds");
}
