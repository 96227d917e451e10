//! The lines that the tools for a store print.
ghost use Rattle.std.specs.Prelude.{◌≡◌, [], ◌∷◌, ◌++◌, IfOk, flat_map};
ghost use Rattle.std.specs.Prelude.{string_bytes};
ghost use Rattle.json.specs.Token.{end_object};
ghost use Rattle.relay_server.specs.StoreTools.{document_line, exported_line, first_line, line};
ghost use Rattle.relay_server.specs.StoreTools.{listed_line, room_tokens};

use json::Writer;
use relay_keeping::ListedRoom;
use relay_tree::{begin_text, end_text};
use std::alloc::{AllocError, Global};

/// The lines of a list.
pub(crate) fn listed_lines(alloc: Global, rooms: &[ListedRoom]) -> Result<String, AllocError>
    ensures { IfOk result (λ text. string_bytes text ≡ flat_map listed_line rooms.now) }
{
    let mut text = String::new(alloc);
    for room in rooms {
        text.push_str(listed_line(alloc, room)?.as_str())?;
    }
    Ok(text)
}

/// The lines of an export of a store that has this epoch and this floor.
pub(crate) fn exported_lines(
    alloc: Global,
    epoch: u64,
    floor: u64,
    rooms: &[ListedRoom],
) -> Result<String, AllocError>
    ensures { IfOk result (λ text. string_bytes text
        ≡ first_line epoch floor ++ flat_map exported_line rooms.now) }
{
    let mut text = first_line(alloc, epoch, floor)?;
    for room in rooms {
        text.push_str(exported_line(alloc, room)?.as_str())?;
    }
    Ok(text)
}

/// The line of a room's document.
pub(crate) fn document_line(alloc: Global, room: &ListedRoom) -> Result<String, AllocError>
    ensures { IfOk result (λ text. string_bytes text ≡ document_line room.now) }
{
    let mut text = room.document.text(alloc)?;
    text.push('\n')?;
    Ok(text)
}

/// The line of a room in a list.
fn listed_line(alloc: Global, room: &ListedRoom) -> Result<String, AllocError>
    ensures { IfOk result (λ text. string_bytes text ≡ listed_line room.now) }
{
    let document = room.document.text(alloc)?;
    let mut out = begin_room(alloc, room)?;
    out.key("bytes")?;
    out.u64(document.len() as u64)?;
    end_line(out)
}

/// The line of a room in an export.
fn exported_line(alloc: Global, room: &ListedRoom) -> Result<String, AllocError>
    ensures { IfOk result (λ text. string_bytes text ≡ exported_line room.now) }
{
    let mut out = begin_room(alloc, room)?;
    out.key("document")?;
    room.document.write(&mut out)?;
    end_line(out)
}

/// The first line of an export.
fn first_line(alloc: Global, epoch: u64, floor: u64) -> Result<String, AllocError>
    ensures { IfOk result (λ text. string_bytes text ≡ first_line epoch floor) }
{
    let mut out = begin_text(alloc)?;
    out.begin_object()?;
    out.key("epoch")?;
    out.u64(epoch)?;
    out.key("floor")?;
    out.u64(floor)?;
    end_line(out)
}

/// Writes the line of a room up to its revision.
fn begin_room(alloc: Global, room: &ListedRoom) -> Result<Writer, AllocError>
    ensures before { IfOk result (λ out. out.before ≡ []) }
    ensures tokens { IfOk result (λ out. out.tokens ≡ room_tokens room.now) }
{
    let mut out = begin_text(alloc)?;
    out.begin_object()?;
    out.key("room")?;
    out.string(room.name.as_str())?;
    out.key("rev")?;
    out.u64(room.revision)?;
    Ok(out)
}

/// Closes the object of a line, and returns the line.
fn end_line(mut out: Writer) -> Result<String, AllocError>
    requires { out.before ≡ [] }
    ensures { IfOk result (λ text. string_bytes text ≡ line (out.tokens ++ end_object ∷ [])) }
{
    out.end_object()?;
    let mut text = end_text(out);
    text.push('\n')?;
    Ok(text)
}
