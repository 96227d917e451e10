//! The commands of the program, and the texts of their help.
ghost use Rattle.std.specs.Prelude.{◌≡◌, IfOk, codes};
ghost use Rattle.clap.specs.Words.{app_of, new_app};
ghost use Rattle.relay_options.specs.CommandLine.{relay_command, scripted, served, storing};
ghost use Rattle.relay_options.specs.CommandLine.{with_version};

use crate::hub_options::with_script_options;
use crate::server_options::with_server_options;
use crate::store_options::with_store_options;
use clap::Command;
use std::alloc::{AllocError, Global};

/// The version of the program, and the logic in which it is proved, as `rt version` names it.
const VERSION: &str = "0.2.0\nRattle logic dac8208d650f15bf";

const ABOUT: &str =
    "Keeps shared JSON documents in rooms, and tells each watcher what changed in the parts that \
     it watches";

const EXAMPLE: &str =
    "Without a subcommand, relay carries out a script, as `relay script` does:\n\n  \
     relay < examples/first.script";

const SCRIPT_ABOUT: &str =
    "Carries out a script: lines from standard input, answers to standard output";

const SCRIPT_EXAMPLE: &str = "Example, with two revisions of history and one waiting patch:\n\n  \
     relay script --history 2 --outbox 1 < examples/first.script\n\n\
     A line is `NAME open ROOM`, `NAME say TEXT`, `NAME draw`, `NAME close`, `NAME held` or \
     `NAME truth`.\n\n\
     Weights have no bound unless a --max option gives one.";

const LOOP_ABOUT: &str =
    "Carries out a script through loopback sockets, server and clients in one thread";

const LOOP_EXAMPLE: &str = "Example:\n\n  \
     relay loop < examples/first.script\n\n\
     Weights have no bound unless a --max option gives one.";

const SERVE_ABOUT: &str =
    "Listens on 127.0.0.1, or another address, and serves WebSocket clients; it sleeps while \
     nothing happens";

const SERVE_EXAMPLE: &str = "Example, on a port that the system chooses:\n\n  \
     relay serve --port 0\n\n\
     A client connects to ws://127.0.0.1:PORT/rooms/ROOM. Documents end with the program, unless \
     --store names a file that keeps them.";

const FOLLOW_ABOUT: &str =
    "Hears the relay's messages, one a line, and tells after each what its client holds";

const FOLLOW_EXAMPLE: &str =
    "Example:\n\n  echo '{\"kind\":\"snapshot\",\"rev\":1,\"view\":[[1]]}' | relay follow";

const STORE_ABOUT: &str =
    "Lists, shows, exports or imports the rooms of a store that no relay has open";

const STORE_EXAMPLE: &str = "Examples:\n\n  \
     relay store list --store relay.db\n  \
     relay store show --store relay.db board\n  \
     relay store export --store relay.db > relay.jsonl\n  \
     relay store import --store new.db < relay.jsonl\n\n\
     import makes the file, or takes one whose store keeps nothing. The others make no file.";

pub(crate) fn relay<'a>(alloc: Global) -> Result<Command<'a>, AllocError>
    ensures { IfOk result (λ r. app_of r ≡ relay_command) }
{
    let relay = program(alloc)
        .subcommand(script(alloc)?)?
        .subcommand(looped(alloc)?)?
        .subcommand(follow(alloc))?
        .subcommand(serve(alloc)?)?
        .subcommand(store(alloc)?)?;
    Ok(relay)
}

/// The command without its subcommands.
fn program<'a>(alloc: Global) -> Command<'a>
    ensures { app_of result ≡ with_version (new_app (codes "relay")) }
{
    Command::new(alloc, "relay")
        .version(VERSION)
        .about(ABOUT)
        .after_help(EXAMPLE)
}

fn script<'a>(alloc: Global) -> Result<Command<'a>, AllocError>
    ensures { IfOk result (λ r. app_of r ≡ scripted (codes "script")) }
{
    let script = Command::new(alloc, "script")
        .about(SCRIPT_ABOUT)
        .after_help(SCRIPT_EXAMPLE);
    with_script_options(alloc, script)
}

fn looped<'a>(alloc: Global) -> Result<Command<'a>, AllocError>
    ensures { IfOk result (λ r. app_of r ≡ scripted (codes "loop")) }
{
    let looped = Command::new(alloc, "loop")
        .about(LOOP_ABOUT)
        .after_help(LOOP_EXAMPLE);
    with_script_options(alloc, looped)
}

fn follow<'a>(alloc: Global) -> Command<'a>
    ensures { app_of result ≡ new_app (codes "follow") }
{
    Command::new(alloc, "follow")
        .about(FOLLOW_ABOUT)
        .after_help(FOLLOW_EXAMPLE)
}

fn serve<'a>(alloc: Global) -> Result<Command<'a>, AllocError>
    ensures { IfOk result (λ r. app_of r ≡ served (codes "serve")) }
{
    let serve = Command::new(alloc, "serve")
        .about(SERVE_ABOUT)
        .after_help(SERVE_EXAMPLE);
    with_server_options(alloc, serve)
}

fn store<'a>(alloc: Global) -> Result<Command<'a>, AllocError>
    ensures { IfOk result (λ r. app_of r ≡ storing (codes "store")) }
{
    let store = Command::new(alloc, "store")
        .about(STORE_ABOUT)
        .after_help(STORE_EXAMPLE);
    with_store_options(alloc, store)
}
