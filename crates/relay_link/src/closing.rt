//! The turn of a closing link, whose session is closed and which waits for the other side's close
//! frame.
ghost use Rattle.std.specs.Prelude.{◌≡◌, ◌+◌, ◌≤◌, is_some, Some, None, IfErr};
ghost use Rattle.relay_link.specs.Ends.{IsNotSilent, turns_left};
ghost use Rattle.relay_link.specs.Stage.{leaves, stage_of, session_of, IsForward};
ghost use Rattle.relay_link.specs.Tells.{IsServing};
ghost use Rattle.relay_link.specs.declared.end_cause.EndCause.TheVariants.{Silent};
ghost use Rattle.relay_link.specs.declared.stage.Stage.TheVariants.{Closing};

use crate::end_cause::EndCause;
use crate::socket::{Socket, flush, read};
use crate::state::State;
use crate::transition::Transition;
use std::io::{Read, Write};

/// The number of turns in which the other side may answer.
pub(crate) const MAX_TURNS: u64 = 16;

/// A turn of a closing link: it reads one message and drops it. `turns` turns are left, including
/// this one.
pub(crate) fn turn<S: Read + Write + Drop>(mut socket: Socket<S>, turns: u64) -> Transition<S>
    ensures session { session_of result.state ≡ None }
    ensures cause { is_some result.cause ≡ leaves Closing (stage_of result.state) }
    ensures forward { IsForward Closing (stage_of result.state) }
    ensures serving { IsServing result.state }
    ensures silent { result.cause ≡ Some Silent → turns ≤ 1 }
    ensures stop { result.stop ≡ None }
    ensures patient { stage_of result.state ≡ Closing → turns ≤ turns_left result.state + 1 }
{
    socket.get_ref().begin_read_turn();
    if let Err(cause) = let_go(&mut socket) {
        return Transition::gone(cause);
    }
    if turns > 1 {
        Transition::on(State::Closing {
            socket,
            turns: turns - 1,
        })
    } else {
        Transition::gone(EndCause::Silent)
    }
}

/// Sends unsent output, then reads one message and drops it. The flush behind a message lets the
/// stream know that another turn was asked for.
fn let_go<S: Read + Write + Drop>(socket: &mut Socket<S>) -> Result<(), EndCause>
    ensures { IfErr result IsNotSilent }
{
    if socket.get_ref().has_output() {
        flush(socket)?;
    }
    if read(socket)?.is_some() {
        flush(socket)?;
    }
    Ok(())
}
