use crate::patch;
use crate::shared::{nothing, part_text, shown, taken_text};
use crate::stage::{Stage, play_anew};
use relay_pointer::{
    MAX_TOKENS, Pointer, PointerFault, child, exchange, index_of, resolve, resolve_mut, set, take,
};
use relay_tree::{Node, read};
use std::alloc::Global;

const ROWS: &str = r#"
# Spells tokens with escapes: a path, its tokens, joined by spaces, and a pointer of the tokens of a copy (a twin). The first path is the root.
spell =>
pointer /a~1b/~01
spell => /a~1b/~01
tokens => a/b ~1
twin => /a~1b/~01
pointer /é/~0
spell => /é/~0
tokens => é ~
twin => /é/~0
pointer
spell =>
tokens =>
twin =>

# Numbers tokens that are indexes.
index 0 => Some(0)
index 10 => Some(10)
index 18446744073709551615 => Some(18446744073709551615)
index 18446744073709551616 => Some(18446744073709551615)
index 99999999999999999999999 => Some(18446744073709551615)
index => None
index - => None
index 01 => None
index 00 => None
index +1 => None
index 1a => None
index x => None

# Refuses texts that spell no path, or one of more than 64 tokens: the longer texts have 64 slashes and 65.
length => Ok(0)
length / => Ok(1)
length /a~1b/~01 => Ok(2)
length /~2 => Err(BadPointer)
length a => Err(BadPointer)
length /x~ => Err(BadPointer)
length //////////////////////////////////////////////////////////////// => Ok(64)
length ///////////////////////////////////////////////////////////////// => Err(TooManyTokens)
length /////////////////////////////////////////////////////////////////~ => Err(BadPointer)

# Compares prefixes: whether the path is a prefix of another one, and whether it is a shorter one.
pointer
prefix => (true, false)
prefix /a => (true, true)
pointer /a
prefix /a => (true, false)
prefix /a/b => (true, true)
prefix /ab => (false, false)
pointer /a/b
prefix /a => (false, false)

# A path leads to a value, and so does a token.
tree {"a":[1,{"b":2}],"c":3}
pointer /a/1/b
resolve => 2
child c => 3

# Writes at a path: exchanges a value, takes one, sets one, and writes `true` where a path leads, if it does.
exchange [4] => 2
text => {"a":[1,{"b":[4]}],"c":3}
tree {"a":[1,{"b":2}],"c":3}
pointer /a/1
take => {"b":2}
text => {"a":[1,null],"c":3}
tree {"a":[1,{"b":2}],"c":3}
pointer /c
set 5 => true
text => {"a":[1,{"b":2}],"c":5}
tree {"a":[1,{"b":2}],"c":3}
pointer /a/0
become_true
text => {"a":[true,{"b":2}],"c":3}
tree {"a":[1,{"b":2}],"c":3}
pointer /a/2
become_true
text => {"a":[1,{"b":2}],"c":3}
"#;

#[test]
fn a_pointer_leads_to_its_value(rt: HostRuntime) {
    play_anew(&rt, ROWS);
}

/// Does an act on the pointer, and on the document where it leads.
pub(crate) fn done(alloc: Global, stage: &mut Stage, verb: &str, rest: &str) -> Option<String> {
    let (tree, pointer) = (&mut stage.tree, &stage.pointer);
    match verb {
        "spell" => pointer.text(alloc).ok(),
        "tokens" => pointer.tokens().join(alloc, " ").ok(),
        "twin" => {
            let copy = pointer.copy().ok()?;
            Pointer::copied(alloc, copy.tokens()).ok()?.text(alloc).ok()
        }
        "index" => shown(alloc, index_of(rest)),
        "length" => shown(alloc, length(alloc, rest)),
        "prefix" => prefixes(alloc, pointer, Pointer::read(alloc, rest, MAX_TOKENS).ok()?),
        "resolve" => part_text(alloc, resolve(tree, pointer)),
        "child" => part_text(alloc, child(tree, rest)),
        "exchange" => taken_text(alloc, exchange(tree, pointer, read(alloc, rest).ok()?)),
        "take" => taken_text(alloc, take(tree, pointer)),
        "set" => shown(alloc, set(tree, pointer, read(alloc, rest).ok()?)),
        "become_true" => become_true(alloc, resolve_mut(tree, pointer)),
        _ => patch::done(alloc, stage, verb, rest),
    }
}

fn length(alloc: Global, path: &str) -> Result<usize, PointerFault> {
    let pointer = Pointer::read(alloc, path, MAX_TOKENS)?;
    Ok(pointer.tokens().len())
}

fn prefixes(alloc: Global, pointer: &Pointer, longer: Pointer) -> Option<String> {
    let holds = (
        pointer.is_prefix(&longer),
        pointer.is_proper_prefix(&longer),
    );
    shown(alloc, holds)
}

fn become_true(alloc: Global, node: Option<&mut Node>) -> Option<String> {
    if let Some(node) = node {
        *node = Node::Truth(true);
    }
    nothing(alloc)
}
