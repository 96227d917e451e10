//! Members that are counts and may be missing.
ghost use Rattle.std.specs.Prelude.{◌≡◌};
ghost use Rattle.relay_proto.specs.Optional.{optional_count_in};

use relay_tree::Tree;

/// Reads the member `name` as a count. Returns `Some(None)` if there is no such member, and `None`
/// if it is there but no count; `null` is no count.
pub(crate) fn optional_count_at(tree: &Tree, name: &str) -> Option<Option<u64>>
    ensures { result ≡ optional_count_in tree.now name.now }
{
    match tree.member(name) {
        Some(member) => Some(Some(member.count()?)),
        None => Some(None),
    }
}
