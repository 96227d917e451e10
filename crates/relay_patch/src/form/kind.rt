//! The kind of operation that the member `op` names.
ghost use Rattle.std.specs.Prelude.{◌≡◌};
ghost use Rattle.relay_patch.specs.Form.{kind_of};

/// The kind of an operation (RFC 6902, section 4).
#[derive(Clone, Copy, Debug, PartialEq, Eq)]
pub enum Kind {
    Add,
    Remove,
    Replace,
    Move,
    Copy,
    Test,
}

impl Kind {
    pub fn of(name: &str) -> Option<Kind>
        ensures { result ≡ kind_of name.now }
    {
        match name {
            "add" => Some(Kind::Add),
            "remove" => Some(Kind::Remove),
            "replace" => Some(Kind::Replace),
            "move" => Some(Kind::Move),
            "copy" => Some(Kind::Copy),
            "test" => Some(Kind::Test),
            _ => None,
        }
    }
}
