//! Tests of the program's jobs and their statuses.
use crate::options::words_of;
use crate::story::{kind_of, on_one_line, typed, with_end, with_status};
use relay_server::{ScriptFault, StoreOpener, refuse_words, report, run_follow, start};
use relay_test_stream::{Subject, cut, play};
use std::alloc::{AllocGlobal, Global};
use std::net::Net;
use std::time::Clock;

const ROWS: &str = r#"
# The report of a script's end, and the status.
ends well => status 0
ends Input => relay: input\nstatus 1
ends Output => relay: output\nstatus 1
ends LineTooLong => relay: line too long\nstatus 1
ends TooManyLines => relay: too many lines\nstatus 1
ends BadLimit => relay: a limit out of range\nstatus 2
ends NoMemory => relay: no memory\nstatus 3

# The report if the arguments cannot be read. An argument that is not UTF-8 is a fault of the command line.
refuses InvalidData => relay: an argument is not UTF-8\nstatus 2
refuses OutOfMemory => relay: no memory\nstatus 3
refuses Other => relay: the arguments cannot be read\nstatus 1

# A follower answers each line that is not empty, with what it holds or with the fault of that text.
follows {"id":1,"kind":"watching"}\n\nx => held nothing\noff not-message\n

# The program does what its words say. A number out of range, an unknown job, a job without its port, and an option of another job are
# refused with a message.
relay < a open r\n => a opened 1\nstatus 0
relay script --history 3 < a open r\n => a opened 1\nstatus 0
relay loop < a open r\n => a opened 1\nstatus 0
relay follow < a open r\n => off not-message\nstatus 0
relay follow => status 0
relay script --outbox 0 < a open r\n => complaint, status 2
relay script --history 1025 < a open r\n => complaint, status 2
relay script --rooms 0 < a open r\n => complaint, status 2
relay script --sessions 65537 < a open r\n => complaint, status 2
relay script --sessions 1 < a open r\nb open r\n => a opened 1\nb refused sessions-full\nstatus 0
relay frob < a open r\n => complaint, status 2
relay serve < a open r\n => complaint, status 2
relay follow --epoch 1 < a open r\n => complaint, status 2

# It helps on standard output, and there alone.
finds relay < examples/first.script => yes, status 0
"#;

#[test]
fn does_what_its_words_say(rt: HostRuntime) {
    play(&rt, &mut Program, ROWS).expect(&rt, "each row holds");
}

#[derive(Clone, Copy)]
struct Program;

impl<R: AllocGlobal + Clock + Net + StoreOpener> Subject<R> for Program {
    fn act(&mut self, rt: &R, act: &str) -> Option<String> {
        let alloc = rt.alloc();
        let (word, rest) = cut(act);
        let told = match word {
            "ends" | "refuses" => complained(alloc, word, rest),
            "follows" => followed(alloc, rest),
            "relay" => done(rt, act),
            "finds" => found_in_help(rt, rest),
            _ => None,
        };
        on_one_line(alloc, told?.as_str())
    }
}

/// The end of a script, by the name of its fault.
fn ended_by(name: &str) -> Option<Result<(), ScriptFault>> {
    Some(Err(match name {
        "well" => return Some(Ok(())),
        "Input" => ScriptFault::Input,
        "Output" => ScriptFault::Output,
        "LineTooLong" => ScriptFault::LineTooLong,
        "TooManyLines" => ScriptFault::TooManyLines,
        "BadLimit" => ScriptFault::BadLimit,
        "NoMemory" => ScriptFault::NoMemory,
        _ => return None,
    }))
}

/// The report of a script's end, or of arguments that cannot be read, for a reason of this name.
fn complained(alloc: Global, word: &str, why: &str) -> Option<String> {
    let mut errors = Vec::new(alloc);
    let status = if word == "ends" {
        report(ended_by(why)?, &mut errors).code()
    } else {
        refuse_words(kind_of(why)?, &mut errors)
    };
    with_status(alloc, errors.as_slice(), status)
}

/// The answers of a follower to lines.
fn followed(alloc: Global, lines: &str) -> Option<String> {
    let lines = typed(alloc, lines)?;
    let mut input = lines.as_bytes();
    let mut output = Vec::new(alloc);
    let ended = run_follow(alloc, &mut input, &mut output);
    with_end(alloc, output.as_slice(), ended)
}

/// Runs a command line over an input. Returns the output, followed by the status.
pub fn run(
    rt: &(impl AllocGlobal + Clock + Net + StoreOpener),
    line: &str,
    text: &str,
    errors: &mut Vec<u8>,
) -> Option<String> {
    let words = words_of(rt.alloc(), line)?;
    let mut input = text.as_bytes();
    let mut output = Vec::new(rt.alloc());
    let status = start(rt, words.as_slice(), &mut input, &mut output, errors);
    with_status(rt.alloc(), output.as_slice(), status)
}

/// Tells whether the program wrote to standard error, its output, and its status.
fn done(rt: &(impl AllocGlobal + Clock + Net + StoreOpener), act: &str) -> Option<String> {
    let (line, input) = act.split_once(" < ").unwrap_or((act, ""));
    let input = typed(rt.alloc(), input)?;
    let mut errors = Vec::new(rt.alloc());
    let told = run(rt, line, input.as_str(), &mut errors)?;
    with_complaint(rt.alloc(), errors.as_slice(), told.as_str())
}

/// Tells whether the program's help has a part, whether it wrote to standard error, and its status.
fn found_in_help(
    rt: &(impl AllocGlobal + Clock + Net + StoreOpener),
    part: &str,
) -> Option<String> {
    let mut errors = Vec::new(rt.alloc());
    let told = run(rt, "relay --help", "", &mut errors)?;
    let told = if told.contains(part) && told.ends_with("status 0") {
        "yes, status 0"
    } else {
        told.as_str()
    };
    with_complaint(rt.alloc(), errors.as_slice(), told)
}

/// A text after a word for the error output, if there was any.
pub fn with_complaint(alloc: Global, errors: &[u8], told: &str) -> Option<String> {
    let complaint = if errors.is_empty() { "" } else { "complaint, " };
    format!(in alloc; "{complaint}{told}").ok()
}
