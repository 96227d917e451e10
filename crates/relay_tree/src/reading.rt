//! A reader of JSON texts (RFC 8259) that builds trees straight from the tokens of `json`, on which
//! `serde_json` stands too. What a text means is what `serde_json` reads: of two members with one
//! name the last one stays.
ghost use Rattle.std.specs.Prelude.{◌≡◌, ◌≢◌, Some, None, IfOk, IfErr, OnErr};
ghost use Rattle.std.specs.Prelude.{◌<◌, length, OnOk, option_map, Err};
ghost use Rattle.json.specs.Json.{value, items, members};
ghost use Rattle.json.specs.Lex.{tokens};
ghost use Rattle.serde_json.specs.Data as read_as;
ghost use Rattle.serde_json.specs.Data.{Data, Items, no_members};
ghost use Rattle.serde_json.specs.Read as json;
ghost use Rattle.serde_json.specs.Read.{of_json, of_items, of_members, converted};
ghost use Rattle.relay_tree.specs.Document.{items_of, list, object};
ghost use Rattle.relay_tree.specs.Seen.{members_of};
ghost use Rattle.relay_tree.specs.Text.{tree_of_text, IsNumberFault, tree_of, items_tree};
ghost use Rattle.relay_tree.specs.Text.{members_tree};
ghost use Rattle.relay_tree.specs.Reading.{extended};
ghost use Rattle.relay_tree.specs.declared.reading.TreeFault.TheVariants.{NotJson, Number};
ghost use Rattle.relay_tree.specs.declared.reading.TreeFault.TheVariants.{NoMemory};

use crate::element::Element;
use crate::members::Members;
use crate::number::whole_number;
use crate::open_object::OpenObject;
use crate::tree::{Node, Tree};
use json::{Invalid, Reader, Scratch, Token};
use std::alloc::{AllocError, Global};
use thiserror::Error;

/// The faults of a text that does not read as a tree, in the order of the checks.
///
/// ```
/// assert!(rt; matches!(read(alloc, "1e3"), Err(TreeFault::Number)));
/// assert!(rt; matches!(read(alloc, "-0"), Err(TreeFault::Number)));
/// assert!(rt; matches!(read(alloc, "{"), Err(TreeFault::NotJson)));
/// ```
#[derive(Clone, Copy, Debug, PartialEq, Eq, Error)]
pub enum TreeFault {
    /// `serde_json` rejects the text: it is not JSON, or it nests more than 127 containers.
    #[error("not a JSON text")]
    NotJson,
    /// A number has a fraction or an exponent, is `-0`, or does not fit in `i64`.
    #[error("a number that is not whole in 64 bits")]
    Number,
    #[error("out of memory")]
    NoMemory,
}

impl From<AllocError> for TreeFault {
    ghost from_gives = { λ _ fault. fault ≡ NoMemory };

    fn from(_: AllocError) -> TreeFault {
        TreeFault::NoMemory
    }
}

impl From<Invalid> for TreeFault {
    ghost from_gives = { λ _ fault. fault ≡ NotJson };

    fn from(_: Invalid) -> TreeFault {
        TreeFault::NotJson
    }
}

/// The most containers that nest in a text.
const MAX_NESTING: usize = 127;

/// Reads a text as a tree. The whole text is parsed before its numbers are judged. Takes memory for
/// the tree, for the text's unescaped strings, and for the members of the objects that are open.
///
/// ```
/// let board = read(alloc, r#"{"b": [1, true], "a": "x"}"#).ok()?;
/// assert!(rt; board.text(alloc).ok()?.as_str() == r#"{"a":"x","b":[1,true]}"#);
/// assert!(rt; matches!(read(alloc, "[1.5]"), Err(TreeFault::Number)));
/// assert!(rt; matches!(read(alloc, "[1,]"), Err(TreeFault::NotJson)));
/// ```
pub fn read(alloc: Global, text: &str) -> Result<Tree, TreeFault>
    ensures ok { IfOk result (λ tree. tree_of_text text.now ≡ Some tree) }
    ensures not_json { IfErr result (λ fault. fault ≡ NotJson → json.read text.now ≡ None) }
    ensures number { IfErr result (λ fault. fault ≡ Number → IsNumberFault text.now) }
{
    let mut scratch = Scratch::new(alloc);
    read_with(alloc, text, &mut scratch)
}

/// Reads a text as [`read`] does, in memory that is kept from text to text: 16 KiB that a new
/// `Scratch` clears, and as many bytes as the longest text had.
///
/// ```
/// let mut scratch = Scratch::new(alloc);
/// for text in ["[1]", r#"["two"]"#] {
///     assert!(rt; read_with(alloc, text, &mut scratch).ok()?.text(alloc).ok()?.as_str() == text);
/// }
/// ```
pub fn read_with(alloc: Global, text: &str, scratch: &mut Scratch) -> Result<Tree, TreeFault>
    ensures ok { IfOk result (λ tree. tree_of_text text.now ≡ Some tree) }
    ensures not_json { IfErr result (λ fault. fault ≡ NotJson → json.read text.now ≡ None) }
    ensures number { IfErr result (λ fault. fault ≡ Number → IsNumberFault text.now) }
{
    let Ok(mut reader) = Reader::new(text, scratch) else {
        return Err(TreeFault::NoMemory);
    };
    let tree = match read_tree(alloc, &mut reader, MAX_NESTING) {
        Ok(tree) => tree,
        Err(fault) => return Err(fault),
    };
    if reader.next().is_some() {
        return Err(TreeFault::NotJson);
    }
    match tree {
        Some(tree) => Ok(tree),
        None => Err(TreeFault::Number),
    }
}

/// Reads one value, in which at most `depth` containers nest.
#[cycle(read)]
fn read_tree(
    alloc: Global,
    reader: &mut Reader<'_>,
    depth: usize,
) -> Result<Option<Tree>, TreeFault>
    ensures ok { IfOk result
        (λ tree. (d : Data) × (converted of_json (value depth reader.old) ≡ Some (d, reader.new))
        × (tree_of d ≡ tree)) }
    ensures shorter { OnOk result (length reader.new < length reader.old) }
    ensures not_json { result ≡ Err NotJson → converted of_json (value depth reader.old) ≡ None }
    ensures other { IfErr result (λ fault. fault ≢ Number) }
{
    let Some(token) = reader.next() else {
        return Err(TreeFault::NotJson);
    };
    match token {
        Token::Null => Ok(Some(Tree::from(Node::Null))),
        Token::Bool(truth) => Ok(Some(Tree::from(Node::Truth(truth)))),
        Token::Number(text) => match whole_number(text) {
            Some(Some(whole)) => Ok(Some(Tree::from(Node::Whole(whole)))),
            Some(None) => Ok(None),
            None => Err(TreeFault::NotJson),
        },
        Token::String(text) => match String::from_str(alloc, text) {
            Ok(text) => Ok(Some(Tree::from(Node::Text(text)))),
            Err(_) => Err(TreeFault::NoMemory),
        },
        Token::BeginArray => {
            if depth == 0 {
                return Err(TreeFault::NotJson);
            }
            match read_items(alloc, reader, depth - 1) {
                Ok(items) => Ok(list_tree(items)),
                Err(fault) => Err(fault),
            }
        }
        Token::BeginObject => {
            if depth == 0 {
                return Err(TreeFault::NotJson);
            }
            match read_members(alloc, reader, depth - 1) {
                Ok(members) => Ok(object_tree(members)),
                Err(fault) => Err(fault),
            }
        }
        Token::EndObject | Token::EndArray | Token::Key(_) | Token::Bad => Err(TreeFault::NotJson),
    }
}

fn list_tree(items: Option<Vec<Element>>) -> Option<Tree>
    ensures { result ≡ option_map (λ v. list (items_of v.items)) items }
{
    match items {
        Some(items) => Some(Tree::from(Node::List(items))),
        None => None,
    }
}

fn object_tree(members: Option<Members>) -> Option<Tree>
    ensures { result ≡ option_map (λ m. object (members_of m.entries)) members }
{
    match members {
        Some(members) => Some(Tree::from(Node::Members(members))),
        None => None,
    }
}

/// Reads the rest of a list.
#[cycle(read)]
fn read_items(
    alloc: Global,
    reader: &mut Reader<'_>,
    depth: usize,
) -> Result<Option<Vec<Element>>, TreeFault>
    ensures ok { IfOk result
        (λ trees. (ds : Items)
        × (converted of_items (items (value depth) (length reader.old) reader.old)
        ≡ Some (ds, reader.new)) × (items_tree ds ≡ option_map (λ v. items_of v.items) trees)) }
    ensures shorter { OnOk result (length reader.new < length reader.old) }
    ensures not_json { result ≡ Err NotJson
        → converted of_items (items (value depth) (length reader.old) reader.old) ≡ None }
    ensures other { IfErr result (λ fault. fault ≢ Number) }
{
    let mut found = Some(Vec::new(alloc));
    'items: while !reader.take_end_array() {
        let item = match read_tree(alloc, reader, depth) {
            Ok(item) => item,
            Err(fault) => return Err(fault),
        };
        found = match with_item(alloc, found, item) {
            Ok(found) => found,
            Err(_) => return Err(TreeFault::NoMemory),
        };
    }
    Ok(found)
}

/// Adds an element at the end, if all so far and this one could be read.
fn with_item(
    alloc: Global,
    found: Option<Vec<Element>>,
    item: Option<Tree>,
) -> Result<Option<Vec<Element>>, AllocError>
    ensures { IfOk result
        (λ all. option_map (λ v. v.items) all ≡ extended (option_map (λ v. v.items) found) item) }
{
    let Some(mut items) = found else {
        return Ok(None);
    };
    let Some(item) = item else {
        return Ok(None);
    };
    items.push(Element::new(alloc, item)?)?;
    Ok(Some(items))
}

/// Reads the rest of an object.
#[cycle(read)]
fn read_members(
    alloc: Global,
    reader: &mut Reader<'_>,
    depth: usize,
) -> Result<Option<Members>, TreeFault>
    ensures ok { IfOk result
        (λ trees. (ms : read_as.Members)
        × (converted (λ ms. of_members ms no_members)
        (members (value depth) (length reader.old) reader.old) ≡ Some (ms, reader.new))
        × (members_tree ms ≡ option_map (λ m. members_of m.entries) trees)) }
    ensures shorter { OnOk result (length reader.new < length reader.old) }
    ensures not_json { result ≡ Err NotJson
        → converted (λ ms. of_members ms no_members)
        (members (value depth) (length reader.old) reader.old) ≡ None }
    ensures other { IfErr result (λ fault. fault ≢ Number) }
{
    let mut object = OpenObject::new(alloc);
    'members: while let Some(name) = reader.next_key()? {
        let Ok(name) = String::from_str(alloc, name) else {
            return Err(TreeFault::NoMemory);
        };
        let value = match read_tree(alloc, reader, depth) {
            Ok(value) => value,
            Err(fault) => return Err(fault),
        };
        object = match object.with(alloc, name, value) {
            Ok(object) => object,
            Err(_) => return Err(TreeFault::NoMemory),
        };
    }
    match object.close(alloc) {
        Ok(members) => Ok(members),
        Err(_) => Err(TreeFault::NoMemory),
    }
}
