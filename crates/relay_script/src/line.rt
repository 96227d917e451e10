//! The lines of a script: `NAME WORD` or `NAME WORD REST`, with single spaces.
ghost use Rattle.std.specs.Prelude.{◌≡◌, option_map};
ghost use Rattle.relay_script.specs.Line.{LineIs, form_of, with_rest, alone, act_in, act_of};
ghost use Rattle.relay_script.specs.Line.{named_form, is_name, opening_of, shown};

use relay_access::Access;
use std::str;

/// A parsed line.
#[derive(Clone, Copy, Debug, PartialEq, Eq)]
pub enum Line<'a> {
    /// The line is empty, or a comment that begins with `#`.
    Blank,
    /// The line has no known form, or is not UTF-8.
    Unknown,
    Named { name: &'a str, command: Command<'a> },
}

/// An act of the client of a name.
#[derive(Clone, Copy, Debug, PartialEq, Eq)]
pub enum Command<'a> {
    /// Opens a session in the named room, with this access.
    Open { room: &'a str, access: Access },
    /// Sends a text.
    Say(&'a str),
    /// Draws the next text from the session's outbox, and applies it to the client's follower.
    Draw,
    /// Closes the session.
    Close,
    /// Shows what the follower holds.
    Held,
    /// Shows what the follower should hold.
    Truth,
}

/// The maximum length of a name, in bytes.
const MAX_NAME: usize = 16;

/// Parses a line. `bytes` are those before the line feed.
pub fn line_of(bytes: &[u8]) -> Line<'_>
    ensures { LineIs bytes.now (shown result) }
{
    match bytes.first() {
        None | Some(b'#') => return Line::Blank,
        Some(_) => {}
    }
    match str::from_utf8(bytes) {
        Ok(text) => text_line(text),
        Err(_) => Line::Unknown,
    }
}

fn text_line(text: &str) -> Line<'_>
    ensures { shown result ≡ form_of text.now }
{
    match text.split_once(' ') {
        Some((name, words)) if is_name(name) => words_of(name, words),
        _ => Line::Unknown,
    }
}

fn words_of<'a>(name: &'a str, words: &'a str) -> Line<'a>
    ensures { shown result ≡ named_form name.now (act_in words.now) }
{
    let command = match words.split_once(' ') {
        Some((word, rest)) => with_rest(word, rest),
        None => alone(words),
    };
    match command {
        Some(command) => Line::Named { name, command },
        None => Line::Unknown,
    }
}

/// The command of a word that is followed by more.
fn with_rest<'a>(word: &str, rest: &'a str) -> Option<Command<'a>>
    ensures { option_map act_of result ≡ with_rest word.now rest.now }
{
    match word {
        "open" => Some(opening_of(rest)),
        "say" => Some(Command::Say(rest)),
        _ => None,
    }
}

/// The opening of a session: of `ROOM`, or of `ROOM/watch` to watch only. The same text behind
/// `/rooms/` is the target of its handshake.
fn opening_of(target: &str) -> Command<'_>
    ensures { act_of result ≡ opening_of target.now }
{
    match target.split_once('/') {
        Some((room, "watch")) => Command::Open {
            room,
            access: Access::ReadOnly,
        },
        _ => Command::Open {
            room: target,
            access: Access::ReadWrite,
        },
    }
}

/// The command of a word that stands alone.
fn alone<'a>(word: &str) -> Option<Command<'a>>
    ensures { option_map act_of result ≡ alone word.now }
{
    match word {
        "draw" => Some(Command::Draw),
        "close" => Some(Command::Close),
        "held" => Some(Command::Held),
        "truth" => Some(Command::Truth),
        _ => None,
    }
}

/// True if the text is 1 to 16 ASCII letters or digits.
fn is_name(name: &str) -> bool
    ensures { result ≡ is_name name.now }
{
    if name.is_empty() || name.len() > MAX_NAME {
        return false;
    }
    name.as_bytes()
        .iter()
        .all(|byte| byte.is_ascii_alphanumeric())
}
