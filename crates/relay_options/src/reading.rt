//! The parser of the command line, by `clap`.
ghost use Rattle.std.specs.Prelude.{[], ◌≡◌, IfErr, IfOk, map, option_map, string_bytes};
ghost use Rattle.clap.specs.Words.{FailsBy, found_of, kind_of, rows_of, subcommand_of};
ghost use Rattle.clap.specs.Words.{subcommand_rows_of};
ghost use Rattle.relay_options.specs.CommandLine.{AskFor, IsChosenBy, IsNoHelp, StopsAt, StopsBy};
ghost use Rattle.relay_options.specs.CommandLine.{faults_of, relay_command};
ghost use Rattle.relay_options.specs.Ranges.{IsPossible};

use crate::commands::relay;
use crate::hub_options::settings_of;
use crate::job::{Job, Stop};
use crate::server_options::serve_of;
use crate::settings::Settings;
use crate::store_options::store_job_of;
use clap::error::ErrorKind;
use clap::{ArgMatches, Error};
use std::alloc::Global;

/// Parses the arguments `words`, of which the first is the program's name. The job is the one that
/// the words ask for, each number of it is in range, each origin is one as a browser names a site,
/// and the file of a store has a name; a word or an option that no command has gives none.
/// Otherwise the reason is help or the version, only if it was asked for, words that name no job, a
/// number out of range, no origin, a store without a name or beside an epoch, or that memory ran
/// out ([`Stop`]).
///
/// `now` is the number of seconds since 1970, if the clock can be read. It is the epoch of a server
/// without `--epoch`, so that each run has another one. Without both, the job is refused. A store
/// has an epoch of its own, and takes this one when it begins.
///
/// ```
/// let mut words = Vec::new(alloc);
/// for word in "relay script --history 8".split_whitespace() {
///     words.push(String::from_str(alloc, word).ok()?).ok()?;
/// }
/// let settings = Settings { history: 8, ..Settings::DEFAULT };
/// assert!(rt; matches!(job_of(alloc, &words, None), Ok(job) if job == Job::Script(settings)));
/// ```
///
/// A slash behind an origin is of no origin:
///
/// ```
/// for (origin, is_one) in [("https://a.example", true), ("https://a.example/", false)] {
///     let mut words = Vec::new(alloc);
///     for word in ["relay", "serve", "--port", "7", "--origin", origin] {
///         words.push(String::from_str(alloc, word).ok()?).ok()?;
///     }
///     assert!(rt; job_of(alloc, &words, Some(1)).is_ok() == is_one);
/// }
/// ```
///
/// A store goes without an epoch:
///
/// ```
/// for (epoch, is_one) in [("", true), ("--epoch 7", false)] {
///     let line = format!(in alloc; "relay serve --port 7 --store a.db {epoch}").ok()?;
///     let mut words = Vec::new(alloc);
///     for word in line.as_str().split_whitespace() {
///         words.push(String::from_str(alloc, word).ok()?).ok()?;
///     }
///     assert!(rt; job_of(alloc, &words, Some(1)).is_ok() == is_one);
/// }
/// ```
#[tactic(auto, using(crate::proofs::Stops::stops_at, crate::proofs::Stops::refused_at))]
pub fn job_of(alloc: Global, words: &[String], now: Option<u64>) -> Result<Job, Stop>
    ensures range { IfOk result IsPossible }
    ensures asked { IfOk result (AskFor (map string_bytes words.now) now) }
    ensures faultless { IfOk result (λ _. faults_of (map string_bytes words.now) ≡ []) }
    ensures stopped { IfErr result (StopsAt (faults_of (map string_bytes words.now))) }
{
    match parsed(alloc, words) {
        Ok(matches) => chosen(alloc, &matches, now),
        Err(error) => Err(stop_of(alloc, &error)),
    }
}

/// Matches the words with the commands and options of the program.
fn parsed<'a>(alloc: Global, words: &'a [String]) -> Result<ArgMatches<'a>, Error>
    ensures matches { IfOk result (λ matches. subcommand_rows_of matches
        ≡ subcommand_of relay_command (map string_bytes words.now)) }
    ensures fails { FailsBy (faults_of (map string_bytes words.now)) result }
{
    relay(alloc)?.try_get_matches_from(words)
}

/// The job of the given subcommand.
fn chosen(alloc: Global, matches: &ArgMatches<'_>, now: Option<u64>) -> Result<Job, Stop>
    ensures range { IfOk result IsPossible }
    ensures asked { IfOk result (IsChosenBy (subcommand_rows_of matches.now) now) }
    ensures no_help { IfErr result IsNoHelp }
{
    match named(matches) {
        None => Ok(Job::Script(Settings::DEFAULT)),
        Some(("script", given)) => Ok(Job::Script(settings_of(alloc, given, None)?)),
        Some(("loop", given)) => Ok(Job::Loop(settings_of(alloc, given, None)?)),
        Some(("follow", _)) => Ok(Job::Follow),
        Some(("serve", given)) => serve_of(alloc, given, now),
        Some(("store", given)) => Ok(Job::Store(store_job_of(alloc, given)?)),
        Some((other, _)) => Err(Stop::Misuse(format!(in alloc;
            "error: unrecognized subcommand '{other}'\n"
        )?)),
    }
}

/// The subcommand that the words name, and what they give it.
fn named<'m, 'a>(matches: &'m ArgMatches<'a>) -> Option<(&'a str, &'m ArgMatches<'a>)>
    ensures { option_map (λ p. (p.0.now, rows_of (found_of p.1.now))) result
        ≡ subcommand_rows_of matches.now }
{
    matches.subcommand()
}

/// The reason that an error of `clap` gives.
fn stop_of(alloc: Global, error: &Error) -> Stop
    ensures { StopsBy (kind_of error.now) result }
{
    if error.kind() == ErrorKind::OutOfMemory {
        return Stop::NoMemory;
    }
    match error.to_string(alloc) {
        Ok(text) if error.use_stderr() => Stop::Misuse(text),
        Ok(text) => Stop::Help(text),
        Err(_) => Stop::NoMemory,
    }
}
