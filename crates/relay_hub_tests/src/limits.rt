//! The limits, one by one, as `docs/PROTOCOL.md` lists them.
use crate::shared::{Came, words};
use relay_access::MAX_NAME;
use relay_history::LAST_REVISION;
use relay_limits::{
    DEFAULT_ROOMS, DEFAULT_SESSIONS, MAX_COUNT, MAX_REVISIONS, MAX_ROOMS, MAX_SESSIONS,
    MAX_WAITING_PATCHES,
};
use relay_outbox::MAX_REPLIES;
use relay_patch::{MAX_CHANGES_WEIGHT, MAX_DEPTH, MAX_OPS, MAX_RELAYED_TOKENS, MAX_WEIGHT};
use relay_pointer::MAX_TOKENS;
use relay_proto::MAX_REQUEST;
use relay_test_stream::{Subject, play};
use relay_view::MAX_SLOTS;
use std::alloc::AllocGlobal;

/// The quantity that each limit is of, in the order of [`LIMITS`].
const ROWS: &str = "
depth of a document => 64
weight of a document => 262144
weight of the changes of an edit => 1048576
bytes of a request => 1048576
operations in an edit => 64
slots in a view => 16
tokens in a pointer of a request => 64
tokens in a pointer that is relayed => 66
replies that wait => 32
patches that wait => 256
revisions of a history => 1024
the last revision => 9007199254740991
the last count => 9007199254740991
rooms => 64
sessions => 256
rooms that a configuration may allow => 65536
sessions that a configuration may allow => 65536
letters of a room's name => 64
";

const LIMITS: [u64; 18] = [
    MAX_DEPTH,
    MAX_WEIGHT,
    MAX_CHANGES_WEIGHT,
    MAX_REQUEST,
    MAX_OPS,
    MAX_SLOTS,
    MAX_TOKENS,
    MAX_RELAYED_TOKENS,
    MAX_REPLIES,
    MAX_WAITING_PATCHES,
    MAX_REVISIONS,
    LAST_REVISION,
    MAX_COUNT,
    DEFAULT_ROOMS,
    DEFAULT_SESSIONS,
    MAX_ROOMS,
    MAX_SESSIONS,
    MAX_NAME as u64,
];

/// The number of limits that were told.
#[derive(Drop)]
struct Told(usize);

impl<R: AllocGlobal> Subject<R> for Told {
    /// Tells the next limit.
    fn act(&mut self, rt: &R, _act: &str) -> Option<String> {
        let alloc = rt.alloc();
        let place = self.0;
        self.0 = place.saturating_add(1);
        words(alloc, LIMITS.get(place).copied().unwrap_or(0))
    }
}

#[test]
fn the_limits_are_those_of_the_protocol(rt: HostRuntime) {
    play(&rt, &mut Told(0), ROWS).expect(&rt, "each row holds");
}
