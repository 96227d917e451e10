use crate::shared::{shown, taken_text};
use crate::stage::{Stage, play_anew};
use crate::view;
use relay_apply::apply;
use relay_patch::{Bounds, Op, Patch, PatchLimits};
use relay_pointer::{MAX_TOKENS, Pointer};
use relay_tree::{Budget, Tree, begin_text, end_text};
use std::alloc::Global;

const ROWS: &str = r#"
# Tells additions and replacements: the changes that a patch makes of a document, each followed by a semicolon.
tree {}
patch [{"op":"add","path":"","value":1}]
apply => set  1;
text => 1
tree {}
patch [{"op":"add","path":"/a","value":1}]
apply => add member /a 1;
text => {"a":1}
tree {"a":0}
patch [{"op":"add","path":"/a","value":1}]
apply => set /a 1;
text => {"a":1}
tree [0]
patch [{"op":"add","path":"/-","value":1}]
apply => add item /1 1;
text => [0,1]
tree [0]
patch [{"op":"add","path":"/0","value":1}]
apply => add item /0 1;
text => [1,0]
tree [0]
patch [{"op":"replace","path":"/0","value":1}]
apply => set /0 1;
text => [1]

# Tells removals.
tree {"a":0}
patch [{"op":"remove","path":"/a"}]
apply => drop member /a;
text => {}
tree [0]
patch [{"op":"remove","path":"/0"}]
apply => drop item /0;
text => []

# Tells moves and copies.
tree {"a":[1],"b":{}}
patch [{"op":"move","from":"/a/0","path":"/b/-"}]
apply => move item /a/0 to /b/- 1;
text => {"a":[],"b":{"-":1}}
tree {"a":[1],"b":2}
patch [{"op":"move","from":"/b","path":"/a/-"}]
apply => move /b to item /a/1 2;
text => {"a":[1,2]}
tree [1,2,3]
patch [{"op":"move","from":"/0","path":"/-"}]
apply => move item /0 to item /2 1;
text => [2,3,1]
tree {"a":{"x":1},"b":{}}
patch [{"op":"copy","from":"/a","path":"/b/c"}]
apply => copy /a to /b/c {"x":1};
text => {"a":{"x":1},"b":{"c":{"x":1}}}
tree {"a":{}}
patch [{"op":"copy","from":"/a","path":"/a/b"}]
apply => copy /a to /a/b {};
text => {"a":{"b":{}}}

# Tells nothing if nothing changes.
tree [0,1]
patch [{"op":"test","path":"","value":[0,1]}]
apply =>
text => [0,1]
tree [0,1]
patch [{"op":"move","from":"/1","path":"/-"}]
apply =>
text => [0,1]
tree [0,1]
patch [{"op":"move","from":"/0","path":"/0"}]
apply =>
text => [0,1]
tree [0,1]
patch [{"op":"move","from":"","path":""}]
apply =>
text => [0,1]

# Tells several changes in order: five, and a test, which makes none.
tree {"a":[1,2],"b":{"c":3}}
patch [{"op":"remove","path":"/b/c"},{"op":"add","path":"/a/0","value":9},{"op":"move","from":"/a/1","path":"/b/d"},{"op":"copy","from":"/a","path":"/b/e"},{"op":"replace","path":"/a/0","value":5},{"op":"test","path":"/b/d","value":1}]
apply => drop member /b/c;add item /a/0 9;move item /a/1 to /b/d 1;copy /a to /b/e [9,2];set /a/0 5;
text => {"a":[5,2],"b":{"d":1,"e":[9,2]}}

# Refuses what passes bounds that the caller chooses, and leaves the document `[1]`: an operation's own checks come first, then the weight of
# the changes so far, and the depth of the document before its weight. The replacement of `/0` by a number weighs 17: 9 for its path and 8 for
# its value.
tree [1]
patch [{"op":"add","path":"/-","value":2},{"op":"test","path":"/0","value":2}]
refuse => Some(ApplyFault { at: 1, cause: TestFailed })
text => [1]
patch [{"op":"add","path":"/0","value":[1,2,3]}]
refuse => Some(ApplyFault { at: 0, cause: TooDeep })
text => [1]
patch [{"op":"add","path":"/-","value":2},{"op":"add","path":"/-","value":"x"}]
refuse => Some(ApplyFault { at: 1, cause: TooHeavy })
text => [1]
patch [{"op":"replace","path":"/0","value":1},{"op":"replace","path":"/0","value":1},{"op":"replace","path":"/0","value":1},{"op":"test","path":"/0","value":2}]
refuse => Some(ApplyFault { at: 3, cause: TestFailed })
text => [1]
patch [{"op":"replace","path":"/0","value":1},{"op":"replace","path":"/0","value":1},{"op":"replace","path":"/0","value":1},{"op":"replace","path":"/7","value":1}]
refuse => Some(ApplyFault { at: 3, cause: Missing })
text => [1]
patch [{"op":"replace","path":"/0","value":1},{"op":"replace","path":"/0","value":1},{"op":"replace","path":"/0","value":1},{"op":"add","path":"/0","value":[1,2,3]}]
refuse => Some(ApplyFault { at: 3, cause: TooHeavy })
text => [1]

# Keeps to the limits of its caller: at most two operations, with at most two tokens in each path.
tree {}
read => Some(Shape { at: None })
tree [1,2,3]
read => Some(TooManyOps)
tree [{"op":"remove","path":"/a/b/c"}]
read => Some(Pointer { at: 0 })
tree [{"op":"remove","path":"/a/b"}]
read => None

# Writes the members that an operation defines: into a tree, and into a text from the operations themselves.
patch [{"value":[1],"path":"/a~1b","op":"add","from":"/x","note":0}]
to_tree => [{"op":"add","path":"/a~1b","value":[1]}]
to_text => [{"op":"add","path":"/a~1b","value":[1]}]
patch [{"op":"remove","path":"/~0","value":0}]
to_tree => [{"op":"remove","path":"/~0"}]
to_text => [{"op":"remove","path":"/~0"}]
patch [{"op":"replace","path":"","value":null}]
to_tree => [{"op":"replace","path":"","value":null}]
to_text => [{"op":"replace","path":"","value":null}]
patch [{"op":"move","path":"/a","from":"/b"},{"op":"copy","path":"/a","from":""}]
to_tree => [{"from":"/b","op":"move","path":"/a"},{"from":"","op":"copy","path":"/a"}]
to_text => [{"from":"/b","op":"move","path":"/a"},{"from":"","op":"copy","path":"/a"}]
patch [{"op":"test","path":"/","value":{}}]
to_tree => [{"op":"test","path":"/","value":{}}]
to_text => [{"op":"test","path":"/","value":{}}]

# Patches are lists of operations, such as one of a removal.
removal /a => [{"op":"remove","path":"/a"}]
operations => 1
"#;

// The bounds of the patches that are refused.
const NARROW: Bounds = Bounds {
    depth: 2,
    weight: 32,
    changes: Budget::Left(51),
};

// The limits of the patches that are read.
const FEW: PatchLimits = PatchLimits { ops: 2, tokens: 2 };

#[test]
fn a_patch_is_told_by_its_changes(rt: HostRuntime) {
    play_anew(&rt, ROWS);
}

/// Does an act on the patch, and on a document that it is read of or applied to.
pub(crate) fn done(alloc: Global, stage: &mut Stage, verb: &str, rest: &str) -> Option<String> {
    let patch = &stage.patch;
    match verb {
        "refuse" => shown(alloc, apply(alloc, &mut stage.tree, patch, NARROW).err()),
        "read" => shown(alloc, Patch::from_tree(alloc, &stage.tree, FEW).err()),
        "to_tree" => taken_text(alloc, patch.to_tree(alloc).ok()),
        "to_text" => written(alloc, patch),
        "removal" => removal(alloc, &mut stage.patch, rest),
        "operations" => shown(alloc, patch.ops().len()),
        _ => view::done(alloc, stage, verb, rest),
    }
}

fn written(alloc: Global, patch: &Patch) -> Option<String> {
    let mut out = begin_text(alloc).ok()?;
    patch.write(alloc, &mut out).ok()?;
    Some(end_text(out))
}

// The text of a patch of one removal.
fn removal(alloc: Global, patch: &mut Patch, path: &str) -> Option<String> {
    let mut ops = Vec::new(alloc);
    let path = Pointer::read(alloc, path, MAX_TOKENS).ok()?;
    ops.push(Op::Remove { path }).ok()?;
    *patch = Patch::from_ops(ops);
    written(alloc, patch)
}
