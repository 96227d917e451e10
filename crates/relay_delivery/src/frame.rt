//! One frame of a server, to a follower.
ghost use Rattle.std.specs.Prelude.{◌≡◌, ◌<◌, ◌≤◌, ◌++◌, ℕ, List, Some, length, drop, IfOk, IfErr};
ghost use Rattle.std.specs.Prelude.{OnOk, OnErr, IfSome};
ghost use Rattle.relay_follow.specs.Hearing.{as_client, told};
ghost use Rattle.relay_delivery.specs.Receiving.{listening, Takes, IsRefusalOf};
ghost use Rattle.relay_link.specs.Frames.{text_frame};
ghost use Rattle.relay_delivery.specs.Texts.{IsFaultOf, HearsOne};
ghost use Rattle.websocket.specs.Content.{IsReceivedInside, HasValidText, received_content};

use crate::fault::ReceiveFault;
use relay_follow::Follower;
use std::alloc::Global;
use websocket::protocol::{FrameStatus, Message, NoMask, Step, WebSocketContext};

/// Reads the frame in front of the bytes, and passes its text to the follower. Returns the length
/// of the frame. An error leaves the follower unchanged.
#[tactic(auto, using(crate::proofs::Progress::hears_one))]
pub(crate) fn receive_frame(
    alloc: Global,
    context: &mut WebSocketContext,
    frames: &mut [u8],
    follower: &mut Follower,
) -> Result<usize, ReceiveFault>
    ensures progress { IfOk result (λ consumed. (0 < consumed) × (consumed ≤ length frames.old)) }
    ensures same_length { length frames.new ≡ length frames.old }
    ensures rest { IfOk result (λ consumed. drop consumed frames.new ≡ drop consumed frames.old) }
    ensures heard { (text rest : List ℕ) → context.old ≡ listening
        → frames.old ≡ text_frame text ++ rest
        → IfOk result (λ consumed. (context.new ≡ listening)
        × (consumed ≡ length (text_frame text))
        × (told (as_client follower.old) text ≡ Some (as_client follower.new))) }
    ensures refused { (text rest : List ℕ) → context.old ≡ listening
        → frames.old ≡ text_frame text ++ rest
        → IfErr result (λ fault. IsFaultOf fault follower.old text) }
    ensures one { OnOk result (HearsOne follower.old follower.new) }
    ensures unchanged { OnErr result (follower.new ≡ follower.old) }
{
    let step = read_frame(alloc, context, frames)?;
    let Some(received) = &step.message else {
        return Err(ReceiveFault::NotText);
    };
    let Message::Text(text) = received.message(frames) else {
        return Err(ReceiveFault::NotText);
    };
    match follower.hear(alloc, text) {
        Ok(()) => Ok(step.consumed),
        Err(fault) => Err(ReceiveFault::of_hearing(fault)),
    }
}

/// Reads the frame in front of the bytes.
fn read_frame(
    alloc: Global,
    context: &mut WebSocketContext,
    frames: &mut [u8],
) -> Result<Step, ReceiveFault>
    ensures inside { IfOk result (λ step. IfSome step.message (IsReceivedInside frames.new)) }
    ensures valid_text { IfOk result (λ step. IfSome step.message (λ m.
        HasValidText (received_content frames.new m))) }
    ensures progress { IfOk result (λ step. (0 < step.consumed)
        × (step.consumed ≤ length frames.old)) }
    ensures same_length { length frames.new ≡ length frames.old }
    ensures rest { IfOk result (λ step. drop step.consumed frames.new
        ≡ drop step.consumed frames.old) }
    ensures takes { (text rest : List ℕ) → context.old ≡ listening
        → frames.old ≡ text_frame text ++ rest
        → IfOk result (λ step. Takes text context.new frames.new step) }
    ensures refuses { (text rest : List ℕ) → context.old ≡ listening
        → frames.old ≡ text_frame text ++ rest → IfErr result (λ fault. IsRefusalOf text fault) }
{
    let mut replies = Vec::new(alloc);
    match context.read(frames, &mut replies, &mut NoMask) {
        Ok(FrameStatus::Complete(step)) => Ok(step),
        Ok(FrameStatus::Partial(_)) => Err(ReceiveFault::NotFrames),
        Err(error) => Err(ReceiveFault::of_frame(error)),
    }
}
