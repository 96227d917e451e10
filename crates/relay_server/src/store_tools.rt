//! The job `relay store`: a tool for a store that no relay has open.
ghost use Rattle.std.specs.Prelude.{◌≡◌, ◌≢◌, IfErr, IfOk, OnErr, OnOk, String, string_bytes};
ghost use Rattle.std.specs.Io.KnownBytes.{Appends};
ghost use Rattle.std.specs.declared.alloc.Global.{Global};
ghost use Rattle.relay_options.specs.declared.store_job.StoreTool.TheVariants as tool;
ghost use Rattle.relay_keeping.specs.Listing.{Lists};
ghost use Rattle.relay_store.specs.Kept.{Kept};
ghost use Rattle.relay_script.specs.Lines.{AppendsPart};
ghost use Rattle.relay_server.specs.StoreTools.{IsTold, IsToldBy, ToolEnds, ToolReads};
ghost use Rattle.relay_server.specs.StoreTools.{tool_status};
ghost use Rattle.relay_server.specs.declared.tool_fault.ToolFault.TheVariants.{Output};

use crate::importing::import;
use crate::status::Status;
use crate::store_opener::{OpenStore, StoreOpener};
use crate::tool_fault::ToolFault;
use crate::tool_lines::{document_line, exported_lines, listed_lines};
use relay_keeping::Listing;
use relay_options::{StoreJob, StoreTool};
use relay_script::write_whole;
use relay_store::{Keeps, StoreFault};
use std::alloc::Global;
use std::io::{Read, Write};

/// Uses a tool on a store, and writes what it tells. After `Output` a part of that was written;
/// after any other fault, nothing.
pub(crate) fn use_tool<N: StoreOpener, R: Read, W: Write>(
    alloc: Global,
    opener: &N,
    reader: &mut R,
    writer: &mut W,
    job: &StoreJob,
) -> Result<(), ToolFault>
    ensures reads { ToolReads job.now.tool result (R.remaining reader.old)
        (R.remaining reader.new) }
    ensures ends { ToolEnds job.now.tool result (R.remaining reader.old) (W.contents writer.old)
        (W.contents writer.new) }
{
    let text = tell(alloc, opener, reader, job)?;
    print(writer, text.as_str())
}

/// Writes a text and flushes it.
fn print<W: Write>(writer: &mut W, text: &str) -> Result<(), ToolFault>
    ensures ok { OnOk result (Appends (W.contents writer.old) (W.contents writer.new) text.now) }
    ensures err { OnErr result (AppendsPart (W.contents writer.old) (W.contents writer.new)
        text.now) }
    ensures fault { IfErr result (λ fault. fault ≡ Output) }
{
    if write_whole(writer, text.as_bytes()).is_err() || writer.flush().is_err() {
        return Err(ToolFault::Output);
    }
    Ok(())
}

/// The text that a tool tells of a store.
fn tell<N: StoreOpener, R: Read>(
    alloc: Global,
    opener: &N,
    reader: &mut R,
    job: &StoreJob,
) -> Result<String, ToolFault>
    ensures reads { ToolReads job.now.tool result (R.remaining reader.old)
        (R.remaining reader.new) }
    ensures told { IfOk result (λ text. IsToldBy job.now.tool (R.remaining reader.old)
        (string_bytes text)) }
    ensures fault { IfErr result (λ fault. fault ≢ Output) }
{
    let file = job.file.as_str();
    match &job.tool {
        StoreTool::List => list(alloc, opener, file),
        StoreTool::Show(name) => show(alloc, opener, file, name.as_str()),
        StoreTool::Export => export(alloc, opener, file),
        StoreTool::Import => import(alloc, opener, reader, file),
    }
}

/// The rooms of a store, and its epoch.
#[derive(Drop)]
struct Listed {
    epoch: u64,
    listing: Listing,
}

/// Opens a store that is there, lists its rooms, and closes it.
fn opened<N: StoreOpener>(alloc: Global, opener: &N, file: &str) -> Result<Listed, StoreFault>
    ensures { IfOk result (λ listed. (kept : Kept) × (listed.epoch ≡ kept.epoch)
        × Lists kept listed.listing) }
{
    let made = opener.open_made(file)?;
    let listed = listed_in(alloc, &made);
    opener.close_read(file, made);
    listed
}

/// Lists the rooms of a store that was opened.
fn listed_in<K: Keeps>(alloc: Global, made: &OpenStore<K>) -> Result<Listed, StoreFault>
    ensures { IfOk result (λ listed. (kept : Kept) × (listed.epoch ≡ kept.epoch)
        × Lists kept listed.listing) }
{
    Ok(Listed {
        epoch: made.epoch,
        listing: Listing::of(alloc, &made.changes)?,
    })
}

fn list<N: StoreOpener>(alloc: Global, opener: &N, file: &str) -> Result<String, ToolFault>
    ensures told { IfOk result (λ text. IsTold tool.List (string_bytes text)) }
    ensures fault { IfErr result (λ fault. fault ≢ Output) }
{
    let kept = opened(alloc, opener, file)?;
    Ok(listed_lines(alloc, kept.listing.rooms.as_slice())?)
}

fn show<N: StoreOpener>(
    alloc: Global,
    opener: &N,
    file: &str,
    name: &str,
) -> Result<String, ToolFault>
    ensures told { (room : String Global) → string_bytes room ≡ name.now
        → IfOk result (λ text. IsTold (tool.Show room) (string_bytes text)) }
    ensures fault { IfErr result (λ fault. fault ≢ Output) }
{
    let kept = opened(alloc, opener, file)?;
    match kept.listing.room(name) {
        Some(room) => Ok(document_line(alloc, room)?),
        None => Err(ToolFault::NoRoom),
    }
}

fn export<N: StoreOpener>(alloc: Global, opener: &N, file: &str) -> Result<String, ToolFault>
    ensures told { IfOk result (λ text. IsTold tool.Export (string_bytes text)) }
    ensures fault { IfErr result (λ fault. fault ≢ Output) }
{
    let kept = opened(alloc, opener, file)?;
    let rooms = kept.listing.rooms.as_slice();
    Ok(exported_lines(alloc, kept.epoch, kept.listing.floor, rooms)?)
}

/// Reports on `errors` why a tool for the store in this file ended early, and returns the status of
/// the program.
pub(crate) fn report_tool<E: Write>(
    ended: Result<(), ToolFault>,
    file: &str,
    errors: &mut E,
) -> Status
    ensures { result ≡ tool_status ended }
{
    match ended {
        Ok(()) => Status::Done,
        Err(fault) => {
            say_fault(fault, file, errors);
            fault.status()
        }
    }
}

/// Says why a tool ended early, and of which file it says so.
fn say_fault<E: Write>(fault: ToolFault, file: &str, errors: &mut E) {
    let _ = match fault {
        ToolFault::Store(_) | ToolFault::LogStays(_) | ToolFault::NotEmpty => {
            writeln!(errors, "relay: --store {file}: {fault}")
        }
        _ => writeln!(errors, "relay: {fault}"),
    };
}
