//! The state of a link after a turn.
use crate::closing::MAX_TURNS;
use crate::draw_stop::DrawStop;
use crate::end_cause::EndCause;
use crate::socket::Socket;
use crate::state::State;
use std::io::Write;

/// The link's state after a turn, the cause if the link left a stage that needs one, and why it
/// drew no more if it was open and still is.
#[derive(Drop)]
pub(crate) struct Transition<S: Write + Drop> {
    pub state: State<S>,
    pub cause: Option<EndCause>,
    pub stop: Option<DrawStop>,
}

impl<S: Write + Drop> Transition<S> {
    ghost use Rattle.std.specs.Prelude.{◌≡◌, Some, None};
    ghost use Rattle.relay_link.specs.declared.closing.TheConstants.{MAX_TURNS};

    pub(crate) fn on(state: State<S>) -> Transition<S>
        ensures { result ≡ record { state = state; cause = None; stop = None } }
    {
        Transition {
            state,
            cause: None,
            stop: None,
        }
    }

    /// A link that stays open.
    pub(crate) fn open(socket: Socket<S>, session: u64, stop: DrawStop) -> Transition<S>
        ensures { result
            ≡ record { state = State.Open socket session; cause = None; stop = Some stop } }
    {
        Transition {
            state: State::Open { socket, session },
            cause: None,
            stop: Some(stop),
        }
    }

    pub(crate) fn closing(socket: Socket<S>, cause: EndCause) -> Transition<S>
        ensures { result
            ≡ record { state = State.Closing socket MAX_TURNS; cause = Some cause; stop = None } }
    {
        Transition {
            state: State::Closing {
                socket,
                turns: MAX_TURNS,
            },
            cause: Some(cause),
            stop: None,
        }
    }

    pub(crate) fn gone(cause: EndCause) -> Transition<S>
        ensures { result ≡ record { state = State.Gone; cause = Some cause; stop = None } }
    {
        Transition {
            state: State::Gone,
            cause: Some(cause),
            stop: None,
        }
    }
}
