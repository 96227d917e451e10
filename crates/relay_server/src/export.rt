//! The text of an export, read back.
ghost use Rattle.std.specs.Prelude.{◌≡◌, ◌≢◌, ◌∷◌, ◌++◌, ℕ, IfErr, IfOk, List, OnOk, Some, [], map};
ghost use Rattle.std.specs.Str.Iter.{lines_rest};
ghost use Rattle.relay_store.specs.Texts.{owned};
ghost use Rattle.relay_store.specs.declared.change.Change.{Change};
ghost use Rattle.relay_tree.specs.Text.{tree_of_text};
ghost use Rattle.relay_server.specs.Exports.{AreRoomsOf, IsFirstOf, IsReadFrom};
ghost use Rattle.relay_server.specs.Exports.{IsRoomIn, IsRoomOf, floor_changes};
ghost use Rattle.relay_server.specs.declared.tool_fault.ToolFault.TheVariants.{Output};

use crate::tool_fault::ToolFault;
use relay_keeping::beginning;
use relay_store::Change;
use relay_tree::{Tree, TreeFault, read};
use std::alloc::{AllocError, Global};
use std::str::Lines;

/// An export: the epoch of its store, the number of its rooms, and the changes that make its rooms
/// and its floor out of an empty store.
#[derive(Drop)]
pub(crate) struct Export {
    pub(crate) epoch: u64,
    pub(crate) rooms: u64,
    pub(crate) changes: Vec<Change<String>>,
}

impl Export {
    /// Reads the lines of an export. The last one may lack its line feed. `Line` names the first
    /// line that is not as an export has it.
    pub(crate) fn read(alloc: Global, text: &str) -> Result<Export, ToolFault>
        ensures read { IfOk result (IsReadFrom text.now) }
        ensures fault { IfErr result (λ fault. fault ≢ Output) }
    {
        let mut lines = text.lines();
        let Some(first) = lines.next() else {
            return Err(ToolFault::Line(1));
        };
        let (epoch, floor) = first_of(&read_line(alloc, first, 1)?)?;
        let mut export = Export {
            epoch,
            rooms: 0,
            changes: floor_changes(alloc, floor)?,
        };
        export.add_rooms(alloc, lines)?;
        Ok(export)
    }

    /// Adds the rooms of these lines.
    fn add_rooms(&mut self, alloc: Global, lines: Lines<'_>) -> Result<(), ToolFault>
        ensures ok { OnOk result ((rooms : List (Change (List ℕ)))
            × AreRoomsOf (lines_rest lines.entry) rooms
            × (map owned self.new.changes.items ≡ map owned self.old.changes.items ++ rooms)) }
        ensures epoch { self.new.epoch ≡ self.old.epoch }
        ensures fault { IfErr result (λ fault. fault ≢ Output) }
    {
        for line in lines {
            self.add_room(alloc, line)?;
        }
        Ok(())
    }

    /// Adds the room of a line.
    fn add_room(&mut self, alloc: Global, line: &str) -> Result<(), ToolFault>
        ensures ok { OnOk result ((change : Change (List ℕ)) × IsRoomIn line.now change
            × (map owned self.new.changes.items
            ≡ map owned self.old.changes.items ++ change ∷ [])) }
        ensures epoch { self.new.epoch ≡ self.old.epoch }
        ensures fault { IfErr result (λ fault. fault ≢ Output) }
    {
        let number = self.rooms.saturating_add(2);
        let room = read_line(alloc, line, number)?;
        let change = room_of(alloc, &room, number)?;
        self.changes.push(change)?;
        self.rooms = self.rooms.saturating_add(1);
        Ok(())
    }
}

/// The change that raises the floor of an empty store to this one, if it is higher.
fn floor_changes(alloc: Global, floor: u64) -> Result<Vec<Change<String>>, AllocError>
    ensures { IfOk result (λ changes. map owned changes.items ≡ floor_changes floor) }
{
    let mut changes = Vec::new(alloc);
    if floor > 0 {
        changes.push(Change::RaiseFloor { revision: floor })?;
    }
    Ok(changes)
}

/// Reads a line, which has this number.
fn read_line(alloc: Global, line: &str, number: u64) -> Result<Tree, ToolFault>
    ensures ok { IfOk result (λ tree. tree_of_text line.now ≡ Some tree) }
    ensures fault { IfErr result (λ fault. fault ≢ Output) }
{
    match read(alloc, line) {
        Ok(tree) => Ok(tree),
        Err(TreeFault::NoMemory) => Err(ToolFault::NoMemory),
        Err(_) => Err(ToolFault::Line(number)),
    }
}

/// The epoch and the floor of the first line.
fn first_of(line: &Tree) -> Result<(u64, u64), ToolFault>
    ensures ok { IfOk result (λ first. IsFirstOf line.now first.0 first.1) }
    ensures fault { IfErr result (λ fault. fault ≢ Output) }
{
    match (
        line.node.members_len(),
        line.count_at("epoch"),
        line.count_at("floor"),
    ) {
        (Some(2), Some(epoch), Some(floor)) => Ok((epoch, floor)),
        _ => Err(ToolFault::Line(1)),
    }
}

/// The change that begins the room of a line, which has this number.
fn room_of(alloc: Global, line: &Tree, number: u64) -> Result<Change<String>, ToolFault>
    ensures ok { IfOk result (λ change. IsRoomOf line.now (owned change)) }
    ensures fault { IfErr result (λ fault. fault ≢ Output) }
{
    if line.node.members_len() != Some(3) {
        return Err(ToolFault::Line(number));
    }
    match (
        line.text_at("room"),
        line.count_at("rev"),
        line.member("document"),
    ) {
        (Some(name), Some(revision), Some(document)) => {
            Ok(beginning(alloc, name, revision, document)?)
        }
        _ => Err(ToolFault::Line(number)),
    }
}
