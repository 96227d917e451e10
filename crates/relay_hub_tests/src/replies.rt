//! Replies of each kind. Tests name them by their places.
use relay_proto::{Reply, ResumeOutcome, Word};

/// Each kind of reply except refusals, then refusals with each of their numbers and without.
pub(crate) const REPLIES: [Reply; 9] = [
    Reply::Welcome {
        epoch: 1,
        rev: 0,
        session: 2,
    },
    Reply::Done { id: 2, rev: 1 },
    Reply::Watching { id: 1 },
    Reply::Resumed {
        id: 4,
        how: ResumeOutcome::Nothing,
    },
    Reply::Unwatched { id: 5 },
    Reply::Refused {
        id: Some(7),
        fault: Word::TestFailed,
        at: Some(2),
        rev: None,
    },
    Reply::Refused {
        id: None,
        fault: Word::NotJson,
        at: None,
        rev: None,
    },
    Reply::Refused {
        id: Some(9),
        fault: Word::Stale,
        at: None,
        rev: Some(2),
    },
    Reply::Willing { id: 6 },
];
