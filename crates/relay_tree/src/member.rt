//! Insertion into the members of an object.
ghost use Rattle.std.specs.Prelude.{◌≡◌, OnOk, OnErr, IfErr};
ghost use Rattle.relay_tree.specs.Part.{put_member};
ghost use Rattle.relay_tree.specs.Seen.{members_of};

use crate::members::Members;
use crate::tree::Tree;
use std::alloc::{AllocFailed, Global};

/// Inserts a member, in place of an earlier one with the same name. If memory runs out, the members
/// are unchanged, and the value comes back.
///
/// ```
/// let mut members = Members::new(alloc);
/// insert_member(alloc, &mut members, "b", Tree::of_count(1)).ok()?;
/// insert_member(alloc, &mut members, "a", Tree::of_count(2)).ok()?;
/// insert_member(alloc, &mut members, "b", Tree::of_count(3)).ok()?;
/// let object = Tree::from(Node::Members(members));
/// assert!(rt; object.text(alloc).ok()?.as_str() == r#"{"a":2,"b":3}"#);
/// ```
pub fn insert_member(
    alloc: Global,
    members: &mut Members,
    name: &str,
    value: Tree,
) -> Result<(), AllocFailed<Tree>>
    ensures ok { OnOk result
        (members_of members.new.entries
        ≡ put_member (members_of members.old.entries) name.now value) }
    ensures err { OnErr result (members_of members.new.entries ≡ members_of members.old.entries) }
    ensures given_back { IfErr result (λ back. back.value ≡ value) }
{
    let Ok(name) = String::from_str(alloc, name) else {
        return Err(AllocFailed { value });
    };
    if members.reserve().is_err() {
        return Err(AllocFailed { value });
    }
    drop(members.insert(name, value).unwrap());
    Ok(())
}
