//! The options of each job with a hub: what they accept, and the settings that they give.
ghost use Rattle.std.specs.Prelude.{[], ◌∷◌, ◌≡◌, ◌≤◌, IfErr, IfOk, Some, codes};
ghost use Rattle.std.specs.Option.{option_or};
ghost use Rattle.clap.specs.Words.{app_of, found_of, rows_of, rule_of};
ghost use Rattle.relay_options.specs.CommandLine.{AreSettingsOf, IsNoHelp, epoch_option};
ghost use Rattle.relay_options.specs.CommandLine.{history_option, history_weight_option};
ghost use Rattle.relay_options.specs.CommandLine.{number_in, outbox_option};
ghost use Rattle.relay_options.specs.CommandLine.{rooms_option, sessions_option};
ghost use Rattle.relay_options.specs.CommandLine.{telling_weight_option, view_weight_option};
ghost use Rattle.relay_options.specs.CommandLine.{waiting_weight_option, with_script_options};
ghost use Rattle.relay_options.specs.CommandLine.{with_settings};
ghost use Rattle.relay_options.specs.Ranges.{AreSettings, IsLimit};
ghost use Rattle.relay_limits.specs.declared.TheConstants.{MAX_COUNT};

use crate::job::Stop;
use crate::settings::{MAX_WEIGHT_LIMIT, Settings};
use crate::values::{given_number, number, number_of};
use clap::{Arg, ArgMatches, Command};
use relay_limits::{MAX_COUNT, MAX_REVISIONS, MAX_ROOMS, MAX_SESSIONS, MAX_WAITING_PATCHES};
use std::alloc::{AllocError, Global};

const HISTORY: &str = "64";

const OUTBOX: &str = "32";

const ROOMS: &str = "64";

const SESSIONS: &str = "256";

/// The default of `--epoch` for a script.
const EPOCH: &str = "1";

/// The command with the options of a job that runs a script.
pub(crate) fn with_script_options<'a>(
    alloc: Global,
    command: Command<'a>,
) -> Result<Command<'a>, AllocError>
    ensures { IfOk result (λ r. app_of r ≡ with_script_options (app_of command.entry)) }
{
    let command = with_settings(alloc, command)?
        .arg(script_epoch(alloc))?
        .arg(history_weight(alloc))?
        .arg(waiting_weight(alloc))?
        .arg(telling_weight(alloc))?
        .arg(view_weight(alloc))?;
    Ok(command)
}

/// The command with the options of each job that has a hub.
pub(crate) fn with_settings<'a>(
    alloc: Global,
    command: Command<'a>,
) -> Result<Command<'a>, AllocError>
    ensures { IfOk result (λ r. app_of r ≡ with_settings (app_of command.entry)) }
{
    let command = command
        .arg(history(alloc))?
        .arg(max_waiting_patches(alloc))?
        .arg(rooms(alloc))?
        .arg(sessions(alloc))?;
    Ok(command)
}

fn history<'a>(alloc: Global) -> Arg<'a>
    ensures { rule_of result ≡ history_option }
{
    number(alloc, "history", 1, MAX_REVISIONS)
        .help("How many revisions each room holds, 1 to 1024")
        .default_value(HISTORY)
}

fn max_waiting_patches<'a>(alloc: Global) -> Arg<'a>
    ensures { rule_of result ≡ outbox_option }
{
    number(alloc, "outbox", 1, MAX_WAITING_PATCHES)
        .help("How many patches wait for a session at most, 1 to 256")
        .default_value(OUTBOX)
}

fn rooms<'a>(alloc: Global) -> Arg<'a>
    ensures { rule_of result ≡ rooms_option }
{
    number(alloc, "rooms", 1, MAX_ROOMS)
        .help("How many rooms there are at most, 1 to 65536; an idle room takes about 1.5 KiB")
        .default_value(ROOMS)
}

fn sessions<'a>(alloc: Global) -> Arg<'a>
    ensures { rule_of result ≡ sessions_option }
{
    number(alloc, "sessions", 1, MAX_SESSIONS)
        .help(
            "How many sessions are open at most, 1 to 65536; an idle one takes about 6 KiB with \
             its connection",
        )
        .default_value(SESSIONS)
}

fn script_epoch<'a>(alloc: Global) -> Arg<'a>
    ensures { rule_of result ≡ epoch_option (codes "1" ∷ []) }
{
    epoch(alloc)
        .help("Which run of the relay this is, 0 to 9007199254740991")
        .default_value(EPOCH)
}

pub(crate) fn epoch<'a>(alloc: Global) -> Arg<'a>
    ensures { rule_of result ≡ epoch_option [] }
{
    number(alloc, "epoch", 0, MAX_COUNT)
}

pub(crate) fn history_weight<'a>(alloc: Global) -> Arg<'a>
    ensures { rule_of result ≡ history_weight_option [] }
{
    number(alloc, "max-history-weight", 0, MAX_WEIGHT_LIMIT).help(
        "How much the changes that each room holds weigh together at most",
    )
}

pub(crate) fn waiting_weight<'a>(alloc: Global) -> Arg<'a>
    ensures { rule_of result ≡ waiting_weight_option [] }
{
    number(alloc, "max-waiting-weight", 0, MAX_WEIGHT_LIMIT).help(
        "How much the patches that wait for a session weigh together at most",
    )
}

pub(crate) fn telling_weight<'a>(alloc: Global) -> Arg<'a>
    ensures { rule_of result ≡ telling_weight_option [] }
{
    number(alloc, "max-telling-weight", 0, MAX_WEIGHT_LIMIT).help(
        "How much the patches that are made for one edit weigh together at most",
    )
}

pub(crate) fn view_weight<'a>(alloc: Global) -> Arg<'a>
    ensures { rule_of result ≡ view_weight_option [] }
{
    number(alloc, "max-view-weight", 0, MAX_WEIGHT_LIMIT).help(
        "How much the pointers of a view weigh together at most",
    )
}

/// The settings of a job. `epoch` is the one that it has without `--epoch`, if it may go without.
pub(crate) fn settings_of(
    alloc: Global,
    given: &ArgMatches<'_>,
    epoch: Option<u64>,
) -> Result<Settings, Stop>
    ensures range { IfOk result AreSettings }
    ensures given { IfOk result (AreSettingsOf (rows_of (found_of given.now)) epoch) }
    ensures no_help { IfErr result IsNoHelp }
{
    Ok(Settings {
        history: number_of(alloc, given, "history", 1, MAX_REVISIONS)?,
        max_waiting_patches: number_of(alloc, given, "outbox", 1, MAX_WAITING_PATCHES)?,
        rooms: number_of(alloc, given, "rooms", 1, MAX_ROOMS)?,
        sessions: number_of(alloc, given, "sessions", 1, MAX_SESSIONS)?,
        epoch: epoch_of(alloc, given, epoch)?,
        history_weight: weight_of(alloc, given, "max-history-weight")?,
        waiting_weight: weight_of(alloc, given, "max-waiting-weight")?,
        telling_weight: weight_of(alloc, given, "max-telling-weight")?,
        view_weight: weight_of(alloc, given, "max-view-weight")?,
    })
}

/// The epoch that is given, or else the other one, if there is one; checked again as in
/// [`number_of`].
fn epoch_of(alloc: Global, given: &ArgMatches<'_>, other: Option<u64>) -> Result<u64, Stop>
    ensures range { IfOk result (λ epoch. epoch ≤ MAX_COUNT) }
    ensures given { IfOk result (λ epoch.
        option_or (number_in (codes "epoch") (rows_of (found_of given.now))) other ≡ Some epoch) }
    ensures no_help { IfErr result IsNoHelp }
{
    match given_number(given, "epoch").or(other) {
        Some(epoch) if epoch <= MAX_COUNT => Ok(epoch),
        Some(_) => Err(Stop::Misuse(format!(in alloc;
            "error: --epoch takes a number from 0 to {MAX_COUNT}\n"
        )?)),
        None => Err(Stop::Misuse(format!(in alloc;
            "error: the clock cannot be read: give --epoch a number not used before\n"
        )?)),
    }
}

/// The weight of an option, if it is given; checked again as in [`number_of`].
fn weight_of(alloc: Global, given: &ArgMatches<'_>, name: &str) -> Result<Option<u64>, Stop>
    ensures range { IfOk result IsLimit }
    ensures given { IfOk result (λ weight. number_in name.now (rows_of (found_of given.now))
        ≡ weight) }
    ensures no_help { IfErr result IsNoHelp }
{
    match given_number(given, name) {
        None => Ok(None),
        Some(weight) if weight <= MAX_WEIGHT_LIMIT => Ok(Some(weight)),
        Some(_) => Err(Stop::Misuse(format!(in alloc;
            "error: --{name} takes a number from 0 to {MAX_WEIGHT_LIMIT}\n"
        )?)),
    }
}
