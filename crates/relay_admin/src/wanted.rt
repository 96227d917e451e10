//! The list of the rooms that clients were refused at, as JSON.
ghost use Rattle.std.specs.Prelude.{◌≡◌, ◌++◌, IfOk, OnOk, map, string_bytes};
ghost use Rattle.json.specs.Lex.{tokens};
ghost use Rattle.json.specs.Print.{print};
ghost use Rattle.json.specs.Token.{string};
ghost use Rattle.relay_admin.specs.Rooms.{names_listed};

use crate::rooms::{begin_rooms, end_rooms};
use json::Writer;
use std::alloc::{AllocError, Global};

/// Returns the list of these names in their order, which reads back as it was written. If memory
/// runs out, it returns `AllocError` and leaves nothing behind.
///
/// ```
/// let names = [String::from_str(alloc, "board").ok()?, String::from_str(alloc, "lobby").ok()?];
/// let text = wanted_text(alloc, &names).ok()?;
/// assert!(rt; text.as_str() == r#"["board","lobby"]"#);
/// ```
pub fn wanted_text(alloc: Global, names: &[String]) -> Result<String, AllocError>
    ensures text { IfOk result (λ text. string_bytes text
        ≡ print (names_listed (map string_bytes names.now))) }
    ensures reads_back { IfOk result (λ text. tokens (string_bytes text)
        ≡ names_listed (map string_bytes names.now)) }
{
    let mut out = begin_rooms(alloc)?;
    write_names(&mut out, names)?;
    end_rooms(out)
}

fn write_names(out: &mut Writer, names: &[String]) -> Result<(), AllocError>
    ensures tokens { OnOk result (out.new.tokens
        ≡ out.old.tokens ++ map string (map string_bytes names.now)) }
    ensures before { out.new.before ≡ out.old.before }
{
    for name in names {
        out.string(name.as_str())?;
    }
    Ok(())
}
