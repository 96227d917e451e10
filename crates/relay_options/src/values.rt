//! Reads the values of an option: a number within a range, an address, texts, or a flag.
ghost use Rattle.std.specs.Prelude.{[], ◌≡◌, ◌≤◌, IfErr, IfOk, IfSome, Some, map, option_map};
ghost use Rattle.std.specs.Prelude.{string_bytes};
ghost use Rattle.clap.specs.Words.{found_of, rows_of, rule_of};
ghost use Rattle.relay_options.specs.CommandLine.{IsAddressIn, IsFlagIn, IsNoHelp, number_in};
ghost use Rattle.relay_options.specs.CommandLine.{number_option, text_in, texts_in};

use crate::job::Stop;
use clap::builder::ValueParser;
use clap::{Arg, ArgAction, ArgMatches};
use std::alloc::{AllocError, Global};
use std::net::IpAddr;

/// An option that takes a number from `least` to `most`.
pub(crate) fn number<'a>(alloc: Global, name: &'a str, least: u64, most: u64) -> Arg<'a>
    ensures { rule_of result ≡ number_option name.entry.now least most [] }
{
    Arg::new(alloc, name)
        .long(name)
        .value_name("N")
        .action(ArgAction::Set)
        .value_parser(ValueParser::unsigned(least, most))
}

/// The number of an option. `clap` already refuses a number that is out of range, with a message of
/// its own. It is checked again, since the contract of `clap` says of a subcommand's options what
/// they hold, and not that it is in range.
pub(crate) fn number_of(
    alloc: Global,
    given: &ArgMatches<'_>,
    name: &str,
    least: u64,
    most: u64,
) -> Result<u64, Stop>
    ensures range { IfOk result (λ number. (least ≤ number) × (number ≤ most)) }
    ensures given { IfOk result (λ number. number_in name.now (rows_of (found_of given.now))
        ≡ Some number) }
    ensures no_help { IfErr result IsNoHelp }
{
    match given_number(given, name) {
        Some(number) if least <= number && number <= most => Ok(number),
        Some(_) | None => Err(Stop::Misuse(format!(in alloc;
            "error: --{name} takes a number from {least} to {most}\n"
        )?)),
    }
}

/// The number of an option, if it has one.
pub(crate) fn given_number(given: &ArgMatches<'_>, name: &str) -> Option<u64>
    ensures { number_in name.now (rows_of (found_of given.now)) ≡ result }
{
    given.get_one::<u64>(name)
}

/// The address of an option, if it has a text and the text writes one.
pub(crate) fn given_address(given: &ArgMatches<'_>, name: &str) -> Option<IpAddr>
    ensures { IfSome result (IsAddressIn name.now (rows_of (found_of given.now))) }
{
    given.get_one::<IpAddr>(name)
}

/// The text of an option, if it is given.
pub(crate) fn given_text(
    alloc: Global,
    given: &ArgMatches<'_>,
    name: &str,
) -> Result<Option<String>, AllocError>
    ensures { IfOk result (λ text. text_in name.now (rows_of (found_of given.now))
        ≡ option_map string_bytes text) }
{
    match given.get_str(name) {
        Some(text) => Ok(Some(String::from_str(alloc, text)?)),
        None => Ok(None),
    }
}

/// The texts of an option that may be given several times, in the order of the words, or an empty
/// list if it is not given.
pub(crate) fn given_texts(
    alloc: Global,
    given: &ArgMatches<'_>,
    name: &str,
) -> Result<Vec<String>, AllocError>
    ensures { IfOk result (λ texts. map string_bytes texts.items
        ≡ texts_in name.now (rows_of (found_of given.now))) }
{
    match given.get_strs(name) {
        Some(texts) => owned(alloc, texts),
        None => Ok(Vec::new(alloc)),
    }
}

fn owned(alloc: Global, texts: &[&str]) -> Result<Vec<String>, AllocError>
    ensures { IfOk result (λ owned. map string_bytes owned.items
        ≡ map (λ text. text.now) texts.now) }
{
    let mut owned = Vec::with_capacity(alloc, texts.len())?;
    for text in texts {
        owned.push(String::from_str(alloc, text)?)?;
    }
    Ok(owned)
}

/// True if the words name a flag.
pub(crate) fn is_set(given: &ArgMatches<'_>, name: &str) -> bool
    ensures { IsFlagIn name.now (rows_of (found_of given.now)) result }
{
    given.get_flag(name)
}
