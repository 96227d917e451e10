//! The session that calls, found by its number among its room's sessions.
ghost use Rattle.std.specs.Prelude.{◌≡◌, ◌<◌, ◌≤◌, Some, IsSome, position};
ghost use Rattle.std.specs.Borrow.{sem};
ghost use Rattle.std.specs.List.Sorted.{IsPartitionPoint};
ghost use Rattle.relay_hub.specs.Caller.{IsCaller, LendsSession};
ghost use Rattle.relay_hub.specs.State.{IsRising, is_number, session_in};

use crate::session::Session;

/// The session that calls: its number, and its index in the list of its room's sessions.
#[derive(Clone, Copy)]
pub struct Caller {
    pub number: u64,
    pub index: usize,
}

impl Caller {
    /// Finds the session with that number, which is there.
    pub fn find(sessions: &[Session], number: u64) -> Caller
        requires there { IsSome (session_in sessions.now number) }
        requires rising { IsRising sessions.now }
        ensures number { result.number ≡ number }
        ensures index { IsCaller sessions.now result }
    {
        let Some(index) = position_of(sessions, number) else {
            unreachable!()
        };
        Caller { number, index }
    }
}

/// The session of the caller.
pub fn session_at(sessions: &[Session], caller: Caller) -> &Session
    requires { IsCaller sessions.now caller }
    ensures { session_in sessions.now caller.number ≡ Some result.now }
{
    &sessions[caller.index]
}

/// Borrows the session of the caller for writing. No other session changes.
pub fn session_mut(sessions: &mut [Session], caller: Caller) -> &mut Session
    requires { IsCaller sessions.old caller }
    ensures* writes_back { sem 𝓛 (LendsSession sessions.entry caller result) }
    ensures found { session_in sessions.old caller.number ≡ Some result.now }
{
    &mut sessions[caller.index]
}

/// The index of the session with that number, if there is one. A binary search, since the numbers
/// rise.
pub fn position_of(sessions: &[Session], number: u64) -> Option<usize>
    requires { IsRising sessions.now }
    ensures { result ≡ position (is_number number) sessions.now }
{
    let index = index_from(sessions, number);
    let session = sessions.get(index)?;
    if session.number() == number {
        Some(index)
    } else {
        None
    }
}

/// The number of sessions with lower numbers, which is the index of a session with that number.
fn index_from(sessions: &[Session], number: u64) -> usize
    requires { IsRising sessions.now }
    ensures { IsPartitionPoint (λ x. x.number < number) (λ x.
        number ≤ x.number) sessions.now result }
{
    sessions.partition_point(|session| session.number() < number)
}
