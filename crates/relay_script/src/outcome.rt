//! The outcome of an event of a script.
ghost use Rattle.std.specs.Prelude.{◌≡◌};
ghost use Rattle.relay_hub.specs.Call.{doing_will};
ghost use Rattle.relay_script.specs.Transport.{outcome_of, session_after};

use relay_hub::Answer;
use std::alloc::AllocError;

/// The outcome of an event of a script.
///
/// ```
/// let mut hub = Hub::new(alloc, 1, 1, 64, 32).ok()?;
/// let outcome = hub.open_session(alloc, "two words", Access::ReadWrite).ok()?;
/// let Outcome::Answered(answer) = outcome else {
///     return None;
/// };
/// assert!(rt; matches!(answer, Answer::NotOpened(OpenFault::RoomName)));
/// ```
#[derive(Drop)]
pub enum Outcome {
    /// The hub's answer.
    Answered(Answer),
    /// The hub was out of memory, and nothing changed.
    NoMemory,
    /// The handshake was refused with this status.
    Rejected(u16),
    /// The sockets gave no result within the limit of turns.
    Stuck,
}

impl Outcome {
    /// The outcome of a call that does a will ([`relay_hub::Hub::do_will`]).
    ///
    /// ```
    /// assert!(rt; matches!(Outcome::of_will(Ok(None)), Outcome::Answered(Answer::NoWill)));
    /// ```
    pub fn of_will(done: Result<Option<u64>, AllocError>) -> Outcome
        ensures { result ≡ outcome_of (doing_will done) }
    {
        match done {
            Ok(Some(short)) => Outcome::Answered(Answer::WillDone { short }),
            Ok(None) => Outcome::Answered(Answer::NoWill),
            Err(AllocError) => Outcome::NoMemory,
        }
    }

    /// The session that a name has after the event, given its session before.
    ///
    /// ```
    /// assert!(rt; Outcome::Answered(Answer::Closed).session_after(Some(1)) == None);
    /// assert!(rt; Outcome::NoMemory.session_after(Some(1)) == Some(1));
    /// ```
    pub fn session_after(&self, was: Option<u64>) -> Option<u64>
        ensures { result ≡ session_after self.now was }
    {
        match self {
            Outcome::Answered(Answer::Opened(opening)) => Some(opening.session),
            Outcome::Answered(Answer::Closed) => None,
            _ => was,
        }
    }
}
