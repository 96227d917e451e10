//! The list of rooms, as JSON.
ghost use Rattle.std.specs.Prelude.{◌≡◌, ◌∷◌, ◌++◌, [], IfOk, OnOk, codes, string_bytes};
ghost use Rattle.json.specs.Lex.{tokens};
ghost use Rattle.json.specs.Print.{print};
ghost use Rattle.json.specs.Token.{begin_object, end_array, key, string};
ghost use Rattle.relay_admin.specs.Rooms.{begun, with_empty, with_number, with_numbers, with_room};

use json::Writer;
use std::alloc::{AllocError, Global};

/// The facts that are said of a room.
///
/// ```
/// let mut out = begin_rooms(alloc).ok()?;
/// let room = RoomRow { name: "r", revision: 0, sessions: 0, weight: 8, empty: Some(60) };
/// write_room(&mut out, &room).ok()?;
/// let wanted = r#"[{"name":"r","revision":0,"sessions":0,"weight":8,"empty":60}]"#;
/// assert!(rt; end_rooms(out).ok()?.as_str() == wanted);
/// ```
#[derive(Clone, Copy, Debug)]
pub struct RoomRow<'a> {
    pub name: &'a str,
    pub revision: u64,
    pub sessions: u64,
    pub weight: u64,
    /// For how many seconds nobody has been in it, if nobody is.
    pub empty: Option<u64>,
}

/// Begins a list of rooms. If memory runs out, it returns `AllocError` and leaves nothing behind.
///
/// ```
/// assert!(rt; end_rooms(begin_rooms(alloc).ok()?).ok()?.as_str() == "[]");
/// ```
pub fn begin_rooms(alloc: Global) -> Result<Writer, AllocError>
    ensures before { IfOk result (λ out. out.before ≡ []) }
    ensures tokens { IfOk result (λ out. out.tokens ≡ begun) }
{
    let mut out = Writer::new(Vec::new(alloc));
    out.begin_array()?;
    Ok(out)
}

/// Adds a room to a list. If memory runs out, some of the room's tokens may already be written.
///
/// ```
/// let mut out = begin_rooms(alloc).ok()?;
/// let room = RoomRow { name: "r", revision: 0, sessions: 2, weight: 8, empty: None };
/// write_room(&mut out, &room).ok()?;
/// let wanted = r#"[{"name":"r","revision":0,"sessions":2,"weight":8}]"#;
/// assert!(rt; end_rooms(out).ok()?.as_str() == wanted);
/// ```
pub fn write_room(out: &mut Writer, room: &RoomRow<'_>) -> Result<(), AllocError>
    ensures tokens { OnOk result (out.new.tokens
        ≡ with_room room.now.name.now room.now.revision room.now.sessions room.now.weight
        room.now.empty out.old.tokens) }
    ensures before { out.new.before ≡ out.old.before }
{
    begin_room(out, room.name)?;
    write_numbers(out, room)?;
    write_empty(out, room.empty)?;
    out.end_object()
}

fn begin_room(out: &mut Writer, name: &str) -> Result<(), AllocError>
    ensures tokens { OnOk result (out.new.tokens
        ≡ out.old.tokens ++ begin_object ∷ key (codes "name") ∷ string name.now ∷ []) }
    ensures before { out.new.before ≡ out.old.before }
{
    out.begin_object()?;
    out.key("name")?;
    out.string(name)
}

fn write_numbers(out: &mut Writer, room: &RoomRow<'_>) -> Result<(), AllocError>
    ensures tokens { OnOk result (out.new.tokens
        ≡ with_numbers room.now.revision room.now.sessions room.now.weight out.old.tokens) }
    ensures before { out.new.before ≡ out.old.before }
{
    write_number(out, "revision", room.revision)?;
    write_number(out, "sessions", room.sessions)?;
    write_number(out, "weight", room.weight)
}

fn write_empty(out: &mut Writer, empty: Option<u64>) -> Result<(), AllocError>
    ensures tokens { OnOk result (out.new.tokens ≡ with_empty empty out.old.tokens) }
    ensures before { out.new.before ≡ out.old.before }
{
    match empty {
        Some(seconds) => write_number(out, "empty", seconds),
        None => Ok(()),
    }
}

fn write_number(out: &mut Writer, name: &str, value: u64) -> Result<(), AllocError>
    ensures tokens { OnOk result (out.new.tokens ≡ with_number name.now value out.old.tokens) }
    ensures before { out.new.before ≡ out.old.before }
{
    out.key(name)?;
    out.u64(value)
}

/// Ends a list, and returns its text, which reads back as the tokens written. If memory runs out,
/// it returns `AllocError`, and the list is gone.
pub fn end_rooms(mut out: Writer) -> Result<String, AllocError>
    requires { out.before ≡ [] }
    ensures text { IfOk result (λ text. string_bytes text ≡ print (out.tokens ++ end_array ∷ [])) }
    ensures reads_back { IfOk result (λ text. tokens (string_bytes text)
        ≡ out.tokens ++ end_array ∷ []) }
{
    out.end_array()?;
    let Ok(text) = String::from_utf8(out.into_inner()) else {
        unreachable!()
    };
    Ok(text)
}
