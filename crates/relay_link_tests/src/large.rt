//! A message of more than 65,535 bytes, whose frame has a length of eight bytes (RFC 6455, section
//! 5.2).
use crate::link_fixture::{LinkFixture, hub_of};
use relay_hub::Hub;
use relay_test_stream::Wire;
use std::alloc::Global;
use std::cell::RefCell;

/// One byte more than a length of two bytes can hold.
const LEN: usize = 65_536;

fn hear(alloc: Global, hub: &mut Hub, text: &str) -> Option<()> {
    drop(hub.receive(alloc, 1, text).ok()?);
    Some(())
}

fn draw(alloc: Global, hub: &mut Hub) -> Option<()> {
    drop(hub.draw(alloc, 1).ok()??);
    Some(())
}

/// Leaves exactly one message in the outbox of session 1: the patch of an edit, for two slots that
/// show the same text. It is longer than `LEN`.
fn edit(alloc: Global, hub: &mut Hub, letters: &str) -> Option<()> {
    hear(alloc, hub, r#"{"do":"watch","id":1,"view":["",""]}"#)?;
    for _ in 0..3 {
        draw(alloc, hub)?;
    }
    let edit = format!(in alloc;
        r#"{{"do":"edit","id":2,"patch":[{{"op":"add","path":"","value":"{letters}"}}]}}"#
    );
    hear(alloc, hub, edit.ok()?.as_str())?;
    draw(alloc, hub)
}

/// The bytes that a turn with one draw writes after the edit.
fn written(alloc: Global, wire: &RefCell<Wire>, hub: &mut Hub, letters: &str) -> Option<Vec<u8>> {
    let mut side = LinkFixture::new(alloc, wire)?;
    drop(side.enter(alloc, hub)?);
    edit(alloc, hub, letters)?;
    let from = side.written_len()?;
    drop(side.act(alloc, hub, "draws 1")?);
    side.written_from(alloc, from)
}

/// A text frame with a length of eight bytes.
fn frame(alloc: Global, text: &str) -> Option<Vec<u8>> {
    let len = (text.len() as u64).to_be_bytes();
    let parts: [&[u8]; 3] = [&[0x81, 127], &len, text.as_bytes()];
    parts.concat(alloc).ok()
}

/// The frame of the patch of both slots.
fn wanted(alloc: Global, letters: &str) -> Option<Vec<u8>> {
    let text = format!(in alloc;
        r#"{{"kind":"patch","patch":[{{"op":"replace","path":"/0","value":["{letters}"]}},{{"op":"replace","path":"/1","value":["{letters}"]}}],"rev":1}}"#
    );
    frame(alloc, text.ok()?.as_str())
}

/// Returns true if a turn writes that frame, which is longer than `LEN`.
fn is_sent(alloc: Global, wire: &RefCell<Wire>, hub: &mut Hub) -> Option<bool> {
    let letters = "a".repeat(alloc, LEN / 2).ok()?;
    let wanted = wanted(alloc, letters.as_str())?;
    let written = written(alloc, wire, hub, letters.as_str())?;
    Some(wanted.len() > LEN && written.as_slice() == wanted.as_slice())
}

#[test]
fn sends_more_than_65535_bytes(rt: HostRuntime) {
    let wire = Wire::new(rt.alloc());
    let mut hub = hub_of(rt.alloc(), 32).expect(&rt, "a hub");
    assert_eq!(rt; is_sent(rt.alloc(), &wire, &mut hub), Some(true));
}
