//! The tool `import`: an export, read into a store that keeps nothing.
ghost use Rattle.std.specs.Prelude.{◌≡◌, ◌≢◌, IfErr, IfOk, IfSome, OnOk, map};
ghost use Rattle.std.specs.Prelude.{string_bytes};
ghost use Rattle.std.specs.Io.KnownBytes.{IsAtEnd};
ghost use Rattle.relay_options.specs.declared.store_job.StoreTool.TheVariants as tool;
ghost use Rattle.relay_keeping.specs.Listing.{Lists};
ghost use Rattle.relay_store.specs.Kept.{begun, committed};
ghost use Rattle.relay_store.specs.Texts.{owned};
ghost use Rattle.relay_server.specs.StoreTools.{IsToldBy};
ghost use Rattle.relay_server.specs.declared.tool_fault.ToolFault.TheVariants.{Output};

use crate::export::Export;
use crate::store_opener::StoreOpener;
use crate::tool_fault::ToolFault;
use relay_hub::HubConfig;
use relay_keeping::{Listing, take_up};
use relay_script::FIRST_SESSION;
use relay_store::{Change, Keeps, MemoryStore, StoreFault};
use std::alloc::{AllocError, Global};
use std::io::{ErrorKind, Read};

/// Reads an export to its end, and keeps its rooms in a store, in one commit, which its file has
/// then. The store is made, with the epoch of the export, or keeps nothing yet and has its own
/// epoch. Returns the line with the number of rooms. A fault leaves the store as it was, but one of
/// the commit may leave all rooms there, and `LogStays` does.
pub(crate) fn import<N: StoreOpener, R: Read>(
    alloc: Global,
    opener: &N,
    reader: &mut R,
    file: &str,
) -> Result<String, ToolFault>
    ensures read { OnOk result (IsAtEnd (R.remaining reader.new)) }
    ensures told { IfOk result (λ text. IsToldBy tool.Import (R.remaining reader.old)
        (string_bytes text)) }
    ensures fault { IfErr result (λ fault. fault ≢ Output) }
{
    let text = whole_text(alloc, reader)?;
    let export = Export::read(alloc, text.as_str())?;
    let listing = listing_of(alloc, &export)?;
    keep(alloc, opener, file, &export)?;
    let rooms = listing.rooms.len();
    Ok(format!(in alloc; "rooms {rooms}\n")?)
}

/// Reads a text to its end.
fn whole_text<R: Read>(alloc: Global, reader: &mut R) -> Result<String, ToolFault>
    ensures text { IfOk result (λ text. IfSome (R.remaining reader.old)
        (λ bytes. string_bytes text ≡ bytes)) }
    ensures read { OnOk result (IsAtEnd (R.remaining reader.new)) }
    ensures fault { IfErr result (λ fault. fault ≢ Output) }
{
    let mut text = String::new(alloc);
    match reader.read_to_string(&mut text) {
        Ok(_) => Ok(text),
        Err(error) if error.kind() == ErrorKind::OutOfMemory => Err(ToolFault::NoMemory),
        Err(_) => Err(ToolFault::Input),
    }
}

/// The rooms of an export. They are refused if a relay could not take them up, or two have one
/// name.
fn listing_of(alloc: Global, export: &Export) -> Result<Listing, ToolFault>
    ensures lists { IfOk result (Lists
        (committed (begun export.now.epoch) (map owned export.now.changes.items))) }
    ensures fault { IfErr result (λ fault. fault ≢ Output) }
{
    match may_have(alloc, export.epoch, export.rooms, &export.changes) {
        Ok(true) => {}
        Ok(false) => return Err(refused_room(alloc, export)),
        Err(AllocError) => return Err(ToolFault::NoMemory),
    }
    let listing = Listing::of(alloc, &export.changes)?;
    if listing.rooms.len() as u64 != export.rooms {
        return Err(ToolFault::Rooms);
    }
    Ok(listing)
}

/// Returns whether a relay of that epoch may have so many rooms, which these changes make.
fn may_have(
    alloc: Global,
    epoch: u64,
    rooms: u64,
    changes: &Vec<Change<String>>,
) -> Result<bool, AllocError> {
    let config = HubConfig {
        rooms: rooms.max(1),
        ..HubConfig::new(epoch, FIRST_SESSION, 1, 1)
    };
    match take_up(alloc, config, MemoryStore::new(alloc, epoch), changes) {
        Ok(_) => Ok(true),
        Err(StoreFault::NoMemory) => Err(AllocError),
        Err(_) => Ok(false),
    }
}

/// The fault of an export whose rooms no relay may have together: the line of the first room that
/// none may have by itself, if there is one.
fn refused_room(alloc: Global, export: &Export) -> ToolFault
    ensures { result ≢ Output }
{
    let mut line = 1u64;
    for change in &export.changes {
        if let Change::Begin {
            room,
            revision,
            text,
        } = change
        {
            line = line.saturating_add(1);
            match may_have_one(alloc, export.epoch, room, *revision, text) {
                Ok(true) => {}
                Ok(false) => return ToolFault::Room(line),
                Err(AllocError) => return ToolFault::NoMemory,
            }
        }
    }
    ToolFault::Rooms
}

/// Returns whether a relay of that epoch may have the room of a record.
fn may_have_one(
    alloc: Global,
    epoch: u64,
    room: &String,
    revision: u64,
    text: &String,
) -> Result<bool, AllocError> {
    let mut changes = Vec::with_capacity(alloc, 1)?;
    changes.push(Change::Begin {
        room: String::from_str(alloc, room.as_str())?,
        revision,
        text: String::from_str(alloc, text.as_str())?,
    })?;
    may_have(alloc, epoch, 1, &changes)
}

/// Keeps the rooms of an export in a store that keeps nothing, and moves its log into the file.
fn keep<N: StoreOpener>(
    alloc: Global,
    opener: &N,
    file: &str,
    export: &Export,
) -> Result<(), ToolFault>
    ensures fault { IfErr result (λ fault. fault ≢ Output) }
{
    let mut open = opener.open_store(file, export.epoch)?;
    if !open.changes.is_empty() {
        opener.close_read(file, open);
        return Err(ToolFault::NotEmpty);
    }
    let changes = borrowed(alloc, &export.changes)?;
    open.store.commit(changes.as_slice())?;
    match open.store.checkpoint() {
        Ok(()) => Ok(()),
        Err(fault) => Err(ToolFault::LogStays(fault)),
    }
}

/// Borrows the texts of changes.
fn borrowed(alloc: Global, changes: &Vec<Change<String>>) -> Result<Vec<Change<&str>>, AllocError> {
    let mut all = Vec::with_capacity(alloc, changes.len())?;
    for change in changes {
        all.push(change.borrow())?;
    }
    Ok(all)
}
