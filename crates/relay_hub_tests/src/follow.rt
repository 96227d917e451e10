//! Tests of what a follower holds. Each text that it may receive, and each fault, is data in
//! `tests/scripts`.
use crate::shared::{Came, at_revision, number, owned, tree_of};
use relay_follow::Follower;
use relay_test_stream::{Subject, cut, play};
use std::alloc::{AllocGlobal, Global};

/// The follower is new. `from 1 [[1]]` goes on with one that holds this view at revision 1. Of a
/// text that is heard come the follower's answer, and what it holds afterwards.
const ROWS: &str = r#"
# A new follower holds nothing.
hear {} => Err(NotMessage), nothing
hear {"kind":"patch","patch":[],"rev":1} => Err(NoView), nothing
hear {"kind":"snapshot","rev":1,"view":[[1]]} => Ok(()), 1 [[1]]

# Goes on from a view.
from 1 [[1]]
hear {"kind":"patch","patch":[],"rev":1} => Err(Order), 1 [[1]]
hear {"kind":"patch","patch":[],"rev":2} => Ok(()), 2 [[1]]
hear {"kind":"patch","patch":[{"op":"remove","path":"/0/0/x"}],"rev":3} => Err(Apply), 2 [[1]]
"#;

/// The follower that acts are done to.
#[derive(Drop)]
struct Client {
    follower: Follower,
}

impl<R: AllocGlobal> Subject<R> for Client {
    fn act(&mut self, rt: &R, act: &str) -> Option<String> {
        let alloc = rt.alloc();
        let (word, rest) = cut(act);
        match word {
            "from" => follow_from(alloc, &mut self.follower, rest),
            "hear" => heard(alloc, &mut self.follower, rest),
            _ => None,
        }
    }
}

fn follow_from(alloc: Global, follower: &mut Follower, rest: &str) -> Came {
    let (rev, view) = cut(rest);
    *follower = Follower::from_view(number(rev)?, tree_of(alloc, view)?);
    owned(alloc, "")
}

/// The answer of the follower to a text, and what it holds afterwards.
fn heard(alloc: Global, follower: &mut Follower, text: &str) -> Came {
    let answer = follower.hear(alloc, text);
    let held = held(alloc, follower)?;
    format!(in alloc; "{answer:?}, {held}").ok()
}

/// The revision and the view that the follower holds, as text.
fn held(alloc: Global, follower: &Follower) -> Came {
    match (follower.rev(), follower.view()) {
        (Some(rev), Some(view)) => at_revision(alloc, rev, view),
        _ => owned(alloc, "nothing"),
    }
}

#[test]
fn holds_what_it_heard(rt: HostRuntime) {
    let mut client = Client {
        follower: Follower::new(),
    };
    play(&rt, &mut client, ROWS).expect(&rt, "each row holds");
}
