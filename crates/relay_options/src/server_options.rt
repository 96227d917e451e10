//! The options of `relay serve` besides those of its hub: what they accept, and the job that they
//! ask for.
ghost use Rattle.std.specs.Prelude.{[], ◌≡◌, ◌⊎◌, IfErr, IfOk, Some, codes, false, map};
ghost use Rattle.std.specs.Prelude.{option_map, string_bytes};
ghost use Rattle.std.specs.List.{list_all};
ghost use Rattle.clap.specs.Words.{app_of, found_of, rows_of, rule_of};
ghost use Rattle.relay_options.specs.CommandLine.{HasOneEpoch, IsAddressIn, IsFlagIn, IsJobOf};
ghost use Rattle.relay_options.specs.CommandLine.{IsNoHelp, admin_option};
ghost use Rattle.relay_options.specs.CommandLine.{closed_option, epoch_option};
ghost use Rattle.relay_options.specs.CommandLine.{forget_rooms_option, listen_option, log_option};
ghost use Rattle.relay_options.specs.CommandLine.{number_in, origin_option, output_option};
ghost use Rattle.relay_options.specs.CommandLine.{per_peer_option, port_option};
ghost use Rattle.relay_options.specs.CommandLine.{rounds_option, store_option, text_in, texts_in};
ghost use Rattle.relay_options.specs.CommandLine.{with_server_options};
ghost use Rattle.relay_options.specs.Origin.{is_origin};
ghost use Rattle.relay_options.specs.Ranges.{AreOrigins, CanBeOpened, IsAdmin, IsPerPeer};
ghost use Rattle.relay_options.specs.Ranges.{IsPossible, IsStore};
ghost use Rattle.relay_options.specs.declared.job.Stop.TheVariants.{NoMemory};

use crate::hub_options::{
    epoch, history_weight, settings_of, telling_weight, view_weight, waiting_weight, with_settings,
};
use crate::job::{Job, Stop};
use crate::origin::is_origin;
use crate::settings::{MAX_OUTPUT_MIB, MAX_PER_PEER, MAX_PORT, MAX_ROUNDS};
use crate::values::{
    given_address, given_number, given_text, given_texts, is_set, number, number_of,
};
use clap::{Arg, ArgAction, ArgMatches, Command};
use std::alloc::{AllocError, Global};
use std::net::IpAddr;

/// The default of `--listen`: clients on this machine alone.
const LISTEN: &str = "127.0.0.1";

const ROUNDS: &str = "1000000000000";

const OUTPUT_MIB: &str = "256";

/// The default of `--max-history-weight` for a server: the weight of a largest document.
const HISTORY_WEIGHT: &str = "262144";

/// The default of `--max-waiting-weight` for a server: a quarter of that.
const WAITING_WEIGHT: &str = "65536";

/// The default of `--max-telling-weight` for a server: the weight of four largest documents.
const TELLING_WEIGHT: &str = "1048576";

/// The default of `--max-view-weight` for a server: 16 slots of a thousand bytes.
const VIEW_WEIGHT: &str = "16384";

/// The command with the options of a server.
pub(crate) fn with_server_options<'a>(
    alloc: Global,
    command: Command<'a>,
) -> Result<Command<'a>, AllocError>
    ensures { IfOk result (λ r. app_of r ≡ with_server_options (app_of command.entry)) }
{
    let command = with_settings(alloc, command)?
        .arg(server_epoch(alloc))?
        .arg(history_weight(alloc).default_value(HISTORY_WEIGHT))?
        .arg(waiting_weight(alloc).default_value(WAITING_WEIGHT))?
        .arg(telling_weight(alloc).default_value(TELLING_WEIGHT))?
        .arg(view_weight(alloc).default_value(VIEW_WEIGHT))?
        .arg(listen(alloc))?
        .arg(port(alloc))?
        .arg(admin(alloc))?
        .arg(rounds(alloc))?
        .arg(log(alloc))?
        .arg(forget_rooms(alloc))?
        .arg(closed(alloc))?
        .arg(output(alloc))?
        .arg(origin(alloc))?
        .arg(per_peer(alloc))?
        .arg(store(alloc))?;
    Ok(command)
}

fn server_epoch<'a>(alloc: Global) -> Arg<'a>
    ensures { rule_of result ≡ epoch_option [] }
{
    epoch(alloc).help(
        "Which run of the relay this is, 0 to 9007199254740991; without it, the seconds since \
         1970, or the epoch of the store",
    )
}

fn listen<'a>(alloc: Global) -> Arg<'a>
    ensures { rule_of result ≡ listen_option }
{
    Arg::new(alloc, "listen")
        .long("listen")
        .value_name("ADDRESS")
        .action(ArgAction::Set)
        .help(
            "The IPv4 or IPv6 address for clients; on another one than a loopback address, \
             whoever reaches it can enter",
        )
        .default_value(LISTEN)
}

fn port<'a>(alloc: Global) -> Arg<'a>
    ensures { rule_of result ≡ port_option }
{
    number(alloc, "port", 0, MAX_PORT)
        .help("The port, 0 to 65535; 0 lets the system choose")
        .required(true)
}

fn admin<'a>(alloc: Global) -> Arg<'a>
    ensures { rule_of result ≡ admin_option }
{
    number(alloc, "admin", 1, MAX_PORT).help(
        "The port for an operator on this machine, 1 to 65535: health, metrics, rooms, and the \
         stop; none without it",
    )
}

fn rounds<'a>(alloc: Global) -> Arg<'a>
    ensures { rule_of result ≡ rounds_option }
{
    number(alloc, "turns", 1, MAX_ROUNDS)
        .help(
            "How many rounds of the event loop to make, 1 to 1000000000000; a round sleeps while \
             nothing happens",
        )
        .default_value(ROUNDS)
}

fn log<'a>(alloc: Global) -> Arg<'a>
    ensures { rule_of result ≡ log_option }
{
    Arg::new(alloc, "log")
        .long("log")
        .help("Tells of each connection that is opened, refused or ended, a line on standard error")
        .action(ArgAction::SetTrue)
}

fn forget_rooms<'a>(alloc: Global) -> Arg<'a>
    ensures { rule_of result ≡ forget_rooms_option }
{
    Arg::new(alloc, "forget-rooms")
        .long("forget-rooms")
        .help(
            "Forgets the room that has been empty for the longest time, with its document, when \
             --rooms are taken and another is asked for",
        )
        .action(ArgAction::SetTrue)
}

fn closed<'a>(alloc: Global) -> Arg<'a>
    ensures { rule_of result ≡ closed_option }
{
    Arg::new(alloc, "closed")
        .long("closed")
        .help(
            "Answers clients 503 until an operator says POST /open at the port of --admin: time \
             to put documents back",
        )
        .action(ArgAction::SetTrue)
}

fn output<'a>(alloc: Global) -> Arg<'a>
    ensures { rule_of result ≡ output_option }
{
    number(alloc, "max-output-mib", 1, MAX_OUTPUT_MIB)
        .help(
            "How many MiB of output are held for all sessions together, 1 to 1048576; from three \
             quarters on, large snapshots wait, and the connections that hold the most are ended",
        )
        .default_value(OUTPUT_MIB)
}

fn origin<'a>(alloc: Global) -> Arg<'a>
    ensures { rule_of result ≡ origin_option }
{
    Arg::new(alloc, "origin")
        .long("origin")
        .value_name("ORIGIN")
        .action(ArgAction::Append)
        .help(
            "The origin whose pages may connect, such as https://example.org; several times for \
             several; without it, pages of every origin may",
        )
}

fn per_peer<'a>(alloc: Global) -> Arg<'a>
    ensures { rule_of result ≡ per_peer_option }
{
    number(alloc, "per-peer", 1, MAX_PER_PEER).help(
        "The most connections of one address, 1 to 1000000; without it, as many as there may be",
    )
}

fn store<'a>(alloc: Global) -> Arg<'a>
    ensures { rule_of result ≡ store_option }
{
    Arg::new(alloc, "store")
        .long("store")
        .value_name("FILE")
        .action(ArgAction::Set)
        .help(
            "The file that keeps the documents, a SQLite database; a later run with the same file \
             goes on with them; without it, they end with the program",
        )
}

/// The job of `relay serve`.
pub(crate) fn serve_of(alloc: Global, given: &ArgMatches<'_>, now: Option<u64>) -> Result<Job, Stop>
    ensures range { IfOk result IsPossible }
    ensures asked { IfOk result (IsJobOf (codes "serve") (rows_of (found_of given.now)) now) }
    ensures no_help { IfErr result IsNoHelp }
{
    let port = number_of(alloc, given, "port", 0, MAX_PORT)? as u16;
    let admin = admin_of(alloc, given, port)?;
    Ok(Job::Serve {
        listen: listen_of(alloc, given)?,
        port,
        admin,
        rounds: number_of(alloc, given, "turns", 1, MAX_ROUNDS)?,
        log: is_set(given, "log"),
        forget_rooms: is_set(given, "forget-rooms"),
        closed: closed_of(alloc, given, admin)?,
        output_mib: number_of(alloc, given, "max-output-mib", 1, MAX_OUTPUT_MIB)?,
        origins: origins_of(alloc, given)?,
        per_peer: per_peer_of(alloc, given)?,
        store: store_of(alloc, given)?,
        settings: settings_of(alloc, given, now)?,
    })
}

/// The address for clients.
fn listen_of(alloc: Global, given: &ArgMatches<'_>) -> Result<IpAddr, Stop>
    ensures given { IfOk result (IsAddressIn (codes "listen") (rows_of (found_of given.now))) }
    ensures no_help { IfErr result IsNoHelp }
{
    match given_address(given, "listen") {
        Some(address) => Ok(address),
        None => Err(Stop::Misuse(String::from_str(
            alloc,
            "error: --listen takes an IPv4 or IPv6 address\n",
        )?)),
    }
}

/// The port of the operator, if one is given. It is refused if it is the port of the clients.
fn admin_of(alloc: Global, given: &ArgMatches<'_>, port: u16) -> Result<Option<u16>, Stop>
    ensures range { IfOk result (IsAdmin port) }
    ensures given { IfOk result (λ admin. number_in (codes "admin") (rows_of (found_of given.now))
        ≡ admin) }
    ensures no_help { IfErr result IsNoHelp }
{
    match given_number(given, "admin") {
        None => Ok(None),
        Some(admin) if 1 <= admin && admin <= MAX_PORT && admin != u64::from(port) => {
            Ok(Some(admin as u16))
        }
        Some(_) => Err(Stop::Misuse(format!(in alloc;
            "error: --admin takes a port from 1 to {MAX_PORT}, another one than --port\n"
        )?)),
    }
}

/// The origins whose pages may connect. They are refused if one of them is none: no browser would
/// name it, so each page of the site that is meant would be refused.
fn origins_of(alloc: Global, given: &ArgMatches<'_>) -> Result<Vec<String>, Stop>
    ensures range { IfOk result (λ origins. AreOrigins (map string_bytes origins.items)) }
    ensures given { IfOk result (λ origins. map string_bytes origins.items
        ≡ texts_in (codes "origin") (rows_of (found_of given.now))) }
    ensures refused { IfErr result (λ stop. (stop ≡ NoMemory)
        ⊎ (list_all is_origin (texts_in (codes "origin") (rows_of (found_of given.now)))
        ≡ false)) }
    ensures no_help { IfErr result IsNoHelp }
{
    let origins = given_texts(alloc, given, "origin")?;
    if !are_origins(&origins) {
        return Err(Stop::Misuse(String::from_str(
            alloc,
            "error: --origin takes scheme://host or scheme://host:port, as a browser names a site: \
             in lower case, without the scheme's own port, and without a slash behind it\n",
        )?));
    }
    Ok(origins)
}

fn are_origins(texts: &[String]) -> bool
    ensures { result ≡ list_all is_origin (map string_bytes texts.now) }
{
    texts.iter().all(|text| is_origin(text.as_str()))
}

/// The number of connections that one address may have, if there is a limit; checked again as in
/// [`number_of`].
fn per_peer_of(alloc: Global, given: &ArgMatches<'_>) -> Result<Option<u64>, Stop>
    ensures range { IfOk result IsPerPeer }
    ensures given { IfOk result (λ most. number_in (codes "per-peer") (rows_of (found_of given.now))
        ≡ most) }
    ensures no_help { IfErr result IsNoHelp }
{
    match given_number(given, "per-peer") {
        None => Ok(None),
        Some(most) if 1 <= most && most <= MAX_PER_PEER => Ok(Some(most)),
        Some(_) => Err(Stop::Misuse(format!(in alloc;
            "error: --per-peer takes a number from 1 to {MAX_PER_PEER}\n"
        )?)),
    }
}

/// The name of the file that keeps the documents, if one is given. It is refused if it is empty,
/// and beside an epoch, since a store has its own.
fn store_of(alloc: Global, given: &ArgMatches<'_>) -> Result<Option<String>, Stop>
    ensures range { IfOk result (λ store. IsStore (option_map string_bytes store)) }
    ensures given { IfOk result (λ store. text_in (codes "store") (rows_of (found_of given.now))
        ≡ option_map string_bytes store) }
    ensures one_epoch { IfOk result (λ store. HasOneEpoch (rows_of (found_of given.now))
        (option_map string_bytes store)) }
    ensures refused { IfErr result (λ stop. (stop ≡ NoMemory)
        ⊎ (text_in (codes "store") (rows_of (found_of given.now)) ≡ Some [])
        ⊎ (HasOneEpoch (rows_of (found_of given.now))
        (text_in (codes "store") (rows_of (found_of given.now))) → ⊥)) }
    ensures no_help { IfErr result IsNoHelp }
{
    let Some(name) = given_text(alloc, given, "store")? else {
        return Ok(None);
    };
    if name.is_empty() {
        return Err(Stop::Misuse(String::from_str(
            alloc,
            "error: --store takes the name of a file\n",
        )?));
    }
    if given_number(given, "epoch").is_some() {
        return Err(Stop::Misuse(String::from_str(
            alloc,
            "error: --store goes without --epoch: a store has an epoch of its own\n",
        )?));
    }
    Ok(Some(name))
}

/// Returns true if the server begins closed. That is refused without an operator, who alone can
/// open it.
fn closed_of(alloc: Global, given: &ArgMatches<'_>, admin: Option<u16>) -> Result<bool, Stop>
    ensures range { IfOk result (λ closed. CanBeOpened closed admin) }
    ensures given { IfOk result (IsFlagIn (codes "closed") (rows_of (found_of given.now))) }
    ensures no_help { IfErr result IsNoHelp }
{
    let closed = is_set(given, "closed");
    if closed && admin.is_none() {
        return Err(Stop::Misuse(String::from_str(
            alloc,
            "error: --closed needs --admin: an operator opens the relay there\n",
        )?));
    }
    Ok(closed)
}
