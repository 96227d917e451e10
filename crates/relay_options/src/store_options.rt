//! The words of `relay store`: a tool, the room that it is for, and the file of the store.
ghost use Rattle.std.specs.Prelude.{◌≡◌, IfErr, IfOk, None, Some, codes, string_bytes};
ghost use Rattle.clap.specs.Words.{app_of, found_of, rows_of, rule_of};
ghost use Rattle.relay_options.specs.CommandLine.{IsNoHelp, IsStoreJobIn, IsToolOf};
ghost use Rattle.relay_options.specs.CommandLine.{file_option, room_argument, text_in};
ghost use Rattle.relay_options.specs.CommandLine.{tool_argument, with_store_options};
ghost use Rattle.relay_options.specs.Ranges.{HasFile, IsStore};

use crate::job::Stop;
use crate::store_job::{StoreJob, StoreTool};
use crate::values::given_text;
use clap::{Arg, ArgAction, ArgMatches, Command};
use std::alloc::{AllocError, Global};

/// The complaint of a tool that nobody knows.
const UNKNOWN: &str = "error: a tool of relay store is list, show, export or import\n";

/// The command with the words of a tool for a store.
pub(crate) fn with_store_options<'a>(
    alloc: Global,
    command: Command<'a>,
) -> Result<Command<'a>, AllocError>
    ensures { IfOk result (λ r. app_of r ≡ with_store_options (app_of command.entry)) }
{
    let command = command
        .arg(tool(alloc))?
        .arg(room(alloc))?
        .arg(file(alloc))?;
    Ok(command)
}

fn tool<'a>(alloc: Global) -> Arg<'a>
    ensures { rule_of result ≡ tool_argument }
{
    Arg::new(alloc, "tool")
        .value_name("TOOL")
        .help("The tool: list, show, export or import")
        .required(true)
}

fn room<'a>(alloc: Global) -> Arg<'a>
    ensures { rule_of result ≡ room_argument }
{
    Arg::new(alloc, "room")
        .value_name("ROOM")
        .help("The name of the room that show is for")
}

fn file<'a>(alloc: Global) -> Arg<'a>
    ensures { rule_of result ≡ file_option }
{
    Arg::new(alloc, "store")
        .long("store")
        .value_name("FILE")
        .action(ArgAction::Set)
        .help("The file that keeps the documents")
        .required(true)
}

/// The job of `relay store`.
pub(crate) fn store_job_of(alloc: Global, given: &ArgMatches<'_>) -> Result<StoreJob, Stop>
    ensures range { IfOk result HasFile }
    ensures asked { IfOk result (IsStoreJobIn (rows_of (found_of given.now))) }
    ensures no_help { IfErr result IsNoHelp }
{
    Ok(StoreJob {
        file: file_of(alloc, given)?,
        tool: tool_of(alloc, given)?,
    })
}

/// The name of the file. It is refused if it is empty.
fn file_of(alloc: Global, given: &ArgMatches<'_>) -> Result<String, Stop>
    ensures range { IfOk result (λ file. IsStore (Some (string_bytes file))) }
    ensures given { IfOk result (λ file. text_in (codes "store") (rows_of (found_of given.now))
        ≡ Some (string_bytes file)) }
    ensures no_help { IfErr result IsNoHelp }
{
    match given_text(alloc, given, "store")? {
        Some(file) if !file.is_empty() => Ok(file),
        _ => Err(misuse(alloc, "error: --store takes the name of a file\n")),
    }
}

/// The tool, with the room that it is for.
fn tool_of(alloc: Global, given: &ArgMatches<'_>) -> Result<StoreTool, Stop>
    ensures given { IfOk result (IsToolOf (text_in (codes "tool") (rows_of (found_of given.now)))
        (text_in (codes "room") (rows_of (found_of given.now)))) }
    ensures no_help { IfErr result IsNoHelp }
{
    let Some(tool) = given_text(alloc, given, "tool")? else {
        return Err(misuse(alloc, UNKNOWN));
    };
    match given_text(alloc, given, "room")? {
        Some(room) => tool_for(alloc, tool.as_str(), room),
        None => tool_named(alloc, tool.as_str()),
    }
}

/// The tool of that name, for a room. Only `show` is for one.
fn tool_for(alloc: Global, tool: &str, room: String) -> Result<StoreTool, Stop>
    ensures named { IfOk result (IsToolOf (Some tool.now) (Some (string_bytes room))) }
    ensures no_help { IfErr result IsNoHelp }
{
    match tool {
        "show" => Ok(StoreTool::Show(room)),
        "list" | "export" | "import" => Err(misuse(
            alloc,
            "error: of the tools of relay store, only show takes a room\n",
        )),
        _ => Err(misuse(alloc, UNKNOWN)),
    }
}

/// The tool of that name, without a room.
fn tool_named(alloc: Global, tool: &str) -> Result<StoreTool, Stop>
    ensures named { IfOk result (IsToolOf (Some tool.now) None) }
    ensures no_help { IfErr result IsNoHelp }
{
    match tool {
        "list" => Ok(StoreTool::List),
        "export" => Ok(StoreTool::Export),
        "import" => Ok(StoreTool::Import),
        "show" => Err(misuse(alloc, "error: relay store show takes a room\n")),
        _ => Err(misuse(alloc, UNKNOWN)),
    }
}

/// The reason of a misuse, with this text for standard error.
fn misuse(alloc: Global, text: &str) -> Stop
    ensures { IsNoHelp result }
{
    match String::from_str(alloc, text) {
        Ok(text) => Stop::Misuse(text),
        Err(_) => Stop::NoMemory,
    }
}
