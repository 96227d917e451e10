use crate::pointer;
use crate::shared::{nothing, part_text, shown, taken_text};
use crate::stage::{Stage, play_anew};
use relay_limits::MAX_COUNT;
use relay_test_stream::cut;
use relay_tree::{Members, Node, Tree, begin_text, end_text, insert_member, read};
use std::alloc::Global;

const ROWS: &str = r#"
# Counts up to 2 to the 53, less 1. The first document is the tree of a count.
count => Some(7)
tree 0
count => Some(0)
tree 9007199254740991
count => Some(9007199254740991)
tree 9007199254740992
count => None
tree -1
count => None

# Measures depth and weight.
tree {"a":1}
measure => (2, 17)
tree null
measure => (1, 8)
tree []
measure => (1, 8)
tree [["ab"],true]
measure => (3, 34)

# A copy is the same as its document, differs from another one, and has the same text, as has the document where it is written.
tree {"a":1}
write => {"a":1}
copy
text => {"a":1}
same {"a":1} => true
same {"a":2} => false
tree [null,true,-5,"é\n",{"b":[]}]
write => [null,true,-5,"é\n",{"b":[]}]
copy
text => [null,true,-5,"é\n",{"b":[]}]
same [null,true,-5,"é\n",{"b":[]}] => true
same [null,true,-5] => false

# Lends parts of a document: how many items the list `a` has, the count `b` and the text `c`, and the second item of the list.
tree {"a":[1,null],"b":7,"c":"x"}
items => Some(2)
parts => (Some(7), Some("x"))
item => null

# Lends parts for writing: an item of the list is set to null, and the value of another member is taken.
clear
take-out b => 7
text => {"a":[null,null],"b":null,"c":"x"}

# Builds objects, of members that are inserted in order.
object
insert b 1
insert a null
insert b 2
text => {"a":null,"b":2}
"#;

const _: () = prove!(MAX_COUNT == 9007199254740991);

#[test]
fn a_tree_is_read_and_written(rt: HostRuntime) {
    play_anew(&rt, ROWS);
}

/// Does an act on the document.
pub(crate) fn done(alloc: Global, stage: &mut Stage, verb: &str, rest: &str) -> Option<String> {
    let tree = &mut stage.tree;
    match verb {
        "copy" => {
            *tree = tree.copy(alloc).ok()?;
            nothing(alloc)
        }
        "clear" => clear(alloc, tree),
        "object" => {
            *tree = Tree::from(Node::Members(Members::new(alloc)));
            nothing(alloc)
        }
        "insert" => insert(alloc, tree, rest),
        "count" => shown(alloc, tree.count()),
        "measure" => shown(alloc, (tree.depth(), tree.weight())),
        "write" => written(alloc, tree),
        "same" => shown(alloc, tree.same(&read(alloc, rest).ok()?)),
        "items" => shown(alloc, tree.member("a")?.node.list_len()),
        "parts" => shown(alloc, (tree.count_at("b"), tree.text_at("c"))),
        "item" => part_text(alloc, tree.member("a")?.item(1)),
        "take-out" => taken_text(alloc, tree.take_member(rest)),
        _ => pointer::done(alloc, stage, verb, rest),
    }
}

fn written(alloc: Global, tree: &Tree) -> Option<String> {
    let mut out = begin_text(alloc).ok()?;
    tree.write(&mut out).ok()?;
    Some(end_text(out))
}

// Sets the first item of the list to null.
fn clear(alloc: Global, tree: &mut Tree) -> Option<String> {
    let list = tree.node.member_mut("a")?;
    *list.node.item_mut(0)? = Tree::from(Node::Null);
    nothing(alloc)
}

fn insert(alloc: Global, tree: &mut Tree, member: &str) -> Option<String> {
    let (name, value) = cut(member);
    let Node::Members(members) = &mut tree.node else {
        return None;
    };
    insert_member(alloc, members, name, read(alloc, value).ok()?).ok()?;
    nothing(alloc)
}
