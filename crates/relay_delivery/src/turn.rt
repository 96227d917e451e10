//! A write turn of a link, as its client needs to know it.
ghost use Rattle.std.specs.Prelude.{◌≡◌, ◌++◌, ℕ, List, Some, IfOk, OnErr};
ghost use Rattle.relay_delivery.specs.Turn.{FramedWriteTurn};
ghost use Rattle.relay_link.specs.Frames.{framed};
ghost use Rattle.relay_link.specs.Turns.{Turns};
ghost use Rattle.relay_link.specs.declared.corked_writer.CorkedWriter.{CorkedWriter};
ghost use Rattle.relay_link.specs.declared.state.State.TheVariants.{Open};
ghost use Rattle.tungstenite.specs.Socket.{Socket};

use relay_hub::Hub;
use relay_link::{Link, Turn};
use std::alloc::{AllocError, Global};
use std::io::{Read, Write};

/// Runs [`Link::write_turn`]. If the link was open and still is, and the bytes that it framed
/// before and since are known, what it framed in the turn are the frames that
/// [`receive`](crate::receive) reads.
///
/// ```
/// let wire = Wire::new(alloc);
/// let mut hub = Hub::new(alloc, 1, 1, 64, 32).ok()?;
/// let mut link = Link::new(alloc, End { wire: &wire }).ok()?;
/// wire.try_borrow_mut().ok()?.perform(alloc, "asks 13 /rooms/a").ok()?;
/// link.read_turn(alloc, &EntryRules::none(alloc), &mut hub, MAX_DRAWS).ok()?;
/// // The turn draws the welcome.
/// write_turn(alloc, &mut link, &mut hub, MAX_DRAWS).ok()?;
/// assert!(rt; wire.try_borrow_mut().ok()?.output.as_slice().ends_with(b"\"session\":1}"));
/// ```
pub fn write_turn<S: Read + Write + Drop>(
    alloc: Global,
    link: &mut Link<S>,
    hub: &mut Hub,
    draws: u64,
) -> Result<Turn, AllocError>
    ensures turns { IfOk result
        (Turns S.remaining 0 draws hub.old link.old hub.new link.new) }
    ensures frames { IfOk result (λ turn.
        (old new : Socket (CorkedWriter S)) (s t : ℕ) (before frames : List ℕ) →
        link.old ≡ Open old s → link.new ≡ Open new t →
        framed S.contents old ≡ Some before → framed S.contents new ≡ Some (before ++ frames) →
        FramedWriteTurn s hub.old hub.new turn.events.items frames) }
    ensures unchanged { OnErr result (link.new ≡ link.old) }
    ensures hub_unchanged { OnErr result (hub.new ≡ hub.old) }
{
    link.write_turn(alloc, hub, draws)
}
