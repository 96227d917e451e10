//! The frames of a server, to a follower.
ghost use Rattle.std.specs.Prelude.{◌≡◌, ℕ, List, IfErr, OnOk};
ghost use Rattle.relay_delivery.specs.Texts.{IsFaultOf, HearsAll, HearsTexts};
ghost use Rattle.relay_delivery.specs.Turn.{FramedTurn, Resumes, KeepsUp, Delivered};
ghost use Rattle.relay_follow.specs.Hearing.{as_client};
ghost use Rattle.relay_hub.specs.Log.{Log};
ghost use Rattle.relay_hub.specs.State.{State};
ghost use Rattle.relay_hub.specs.declared.config.HubConfig.{HubConfig};
ghost use Rattle.relay_hub.specs.declared.event.Event.{Event};
ghost use Rattle.relay_link.specs.Follows.{with_events};
ghost use Rattle.relay_link.specs.Frames.{text_frames};

use crate::fault::ReceiveFault;
use crate::frame::receive_frame;
use relay_follow::Follower;
use std::alloc::Global;
use websocket::protocol::{Role, WebSocketConfig, WebSocketContext};

/// A client puts no limit on a message: a snapshot is as long as what it shows.
const NO_LIMITS: WebSocketConfig = WebSocketConfig {
    max_message_size: None,
    max_frame_size: None,
    accept_unmasked_frames: false,
};

/// Receives what a link framed in a turn: reads the frames as the client of a connection whose
/// handshake is done, and passes each text to the follower, in order, until no byte is left. An
/// error comes at the first frame that is not a whole text, or whose text is not UTF-8 or is
/// refused by the follower, or if memory runs out. It leaves the follower with what the texts
/// before it make of what it held. Whatever the bytes are, nothing but texts changes what it holds.
///
/// If the bytes are those that a turn of a link framed, and the follower held what the messages
/// drawn before make of its start, it then holds what those drawn in the turn make of that; and if
/// nothing more waits for its session, exactly its view of the present document. Then only memory
/// can be missing. A session that resumes in the turn has to hold what it resumes from.
///
/// ```
/// let mut frames = *b"\x81\x25{\"kind\":\"snapshot\",\"rev\":1,\"view\":[]}";
/// let mut follower = Follower::new();
/// receive(alloc, &mut frames, &mut follower).ok()?;
/// assert!(rt; follower.rev() == Some(1));
/// ```
pub fn receive(
    alloc: Global,
    frames: &mut [u8],
    follower: &mut Follower,
) -> Result<(), ReceiveFault>
    ensures hears { (texts : List (List ℕ)) → frames.old ≡ text_frames texts
        → HearsAll IsFaultOf follower.old follower.new texts result }
    ensures delivered { (b : HubConfig) (E : Log) (hub next : State) (s : ℕ) (events : List Event)
        (turn : FramedTurn s hub next events frames.old)
        → Resumes b E s (as_client follower.old) turn.follows
        → KeepsUp b E hub s (as_client follower.old)
        → OnOk result (Delivered b (with_events turn.follows E) next s (as_client follower.new)) }
    ensures fails { (b : HubConfig) (E : Log) (hub next : State) (s : ℕ) (events : List Event)
        (turn : FramedTurn s hub next events frames.old)
        → Resumes b E s (as_client follower.old) turn.follows
        → KeepsUp b E hub s (as_client follower.old)
        → IfErr result (λ fault. fault ≡ ReceiveFault.NoMemory) }
    ensures only { HearsTexts follower.old follower.new }
{
    receive_all(alloc, frames, follower)
}

#[tactic(auto, using(crate::proofs::Progress::hears_none))]
fn receive_all(
    alloc: Global,
    frames: &mut [u8],
    follower: &mut Follower,
) -> Result<(), ReceiveFault>
    ensures hears { (texts : List (List ℕ)) → frames.old ≡ text_frames texts
        → HearsAll IsFaultOf follower.old follower.new texts result }
    ensures only { HearsTexts follower.old follower.new }
{
    let mut context = WebSocketContext::new(alloc, Role::Client, NO_LIMITS);
    let mut start = 0;
    for _ in 0..frames.len() {
        if start == frames.len() {
            return Ok(());
        }
        match receive_frame(alloc, &mut context, &mut frames[start..], follower) {
            Ok(consumed) => start += consumed,
            Err(fault) => return Err(fault),
        }
    }
    Ok(())
}
