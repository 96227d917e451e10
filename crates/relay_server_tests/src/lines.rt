//! Tests of the limits on lines, and of a script's limits.
use crate::story::{number, on_one_line, played};
use relay_limits::{MAX_REVISIONS, MAX_ROOMS, MAX_SESSIONS, MAX_WAITING_PATCHES};
use relay_server::{MAX_LINE, MAX_LINES, connection_limit};
use relay_test_stream::{Subject, cut, play};
use std::alloc::{AllocGlobal, Global};

const ROWS: &str = r#"
# The limits are those of the protocol. A server has this many connections beside so many sessions.
limits => 1056768 bytes of a line, 65536 lines of a script, 1024 revisions of a history, 256 patches that wait, 65536 rooms, 65536 sessions
connections 256 => 320
connections 1 => 65
connections 4096 => 5120

# A script has so many lines of a text, and then a comment of so many bytes. The lines before a fault are answered. A line past the maximum
# number is `TooManyLines`, even if it is also too long.
plays 64 32 0 1056768 x draw => 0 unknown, then ""
plays 64 32 0 1056769 x draw => 0 unknown, then "fault: line too long"
plays 64 32 2 1056769 x draw => 2 unknown, then "fault: line too long"
plays 64 32 65535 1056768 x draw => 65535 unknown, then ""
plays 64 32 65535 1056769 x draw => 65535 unknown, then "fault: line too long"
plays 64 32 65536 1 x draw => 65536 unknown, then "fault: too many lines"
plays 64 32 65536 1056769 x draw => 65536 unknown, then "fault: too many lines"

# Empty lines are counted.
plays 64 32 65536 0 => 0 unknown, then ""
plays 64 32 65537 0 => 0 unknown, then "fault: too many lines"

# A history has 1 to 1,024 revisions, and an outbox 1 to 256 patches: the first two numbers. Other limits of a script are refused.
plays 0 32 1 0 a open r => 0 unknown, then "fault: a limit out of range"
plays 1025 32 1 0 a open r => 0 unknown, then "fault: a limit out of range"
plays 64 0 1 0 a open r => 0 unknown, then "fault: a limit out of range"
plays 64 257 1 0 a open r => 0 unknown, then "fault: a limit out of range"
plays 1 1 1 0 a open r => 0 unknown, then "a opened 1\n"
plays 1024 256 1 0 a open r => 0 unknown, then "a opened 1\n"
"#;

#[test]
fn scripts_have_limits(rt: HostRuntime) {
    play(&rt, &mut ScriptLimits, ROWS).expect(&rt, "each row holds");
}

#[derive(Clone, Copy)]
struct ScriptLimits;

impl<R: AllocGlobal> Subject<R> for ScriptLimits {
    fn act(&mut self, rt: &R, act: &str) -> Option<String> {
        let alloc = rt.alloc();
        let (word, rest) = cut(act);
        let told = match word {
            "limits" => limits(alloc),
            "connections" => connections(alloc, rest),
            "plays" => counted(alloc, play_script(alloc, rest)?.as_str()),
            _ => None,
        };
        on_one_line(alloc, told?.as_str())
    }
}

fn limits(alloc: Global) -> Option<String> {
    format!(in alloc;
        "{MAX_LINE} bytes of a line, {MAX_LINES} lines of a script, {MAX_REVISIONS} revisions of \
         a history, {MAX_WAITING_PATCHES} patches that wait, {MAX_ROOMS} rooms, {MAX_SESSIONS} \
         sessions"
    )
    .ok()
}

/// The number of connections that there may be beside so many sessions.
fn connections(alloc: Global, sessions: &str) -> Option<String> {
    let limit = connection_limit(number(sessions)?);
    format!(in alloc; "{limit}").ok()
}

/// The output of a script, and the fault that ended it, if there was one. The words are the number
/// of revisions of its histories and that of patches in its outboxes, the number of lines, the
/// length of a comment after them, and the lines' text.
fn play_script(alloc: Global, words: &str) -> Option<String> {
    let (history, words) = cut(words);
    let (max_waiting_patches, words) = cut(words);
    let (lines, words) = cut(words);
    let (len, text) = cut(words);
    let script = script_of(alloc, text, number(lines)?, number(len)?);
    played(
        alloc,
        number(history)?,
        number(max_waiting_patches)?,
        script?.as_bytes(),
    )
}

fn script_of(alloc: Global, text: &str, lines: u64, len: u64) -> Option<String> {
    let line = format!(in alloc; "{text}\n").ok()?;
    let script = line.repeat(alloc, lines as usize);
    let mut script = script.ok()?;
    for _ in 0..len {
        script.push('#').ok()?;
    }
    Some(script)
}

/// The number of answers that say that a name is unknown, and what comes after them.
fn counted(alloc: Global, written: &str) -> Option<String> {
    let unknown = written.matches("x unknown\n").count();
    let end = written.trim_start_matches("x unknown\n");
    format!(in alloc; "{unknown} unknown, then {end:?}").ok()
}
