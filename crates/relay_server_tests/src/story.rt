//! Outputs as texts. Each gives nothing if memory runs out, which fails the row.
use relay_hub::HubConfig;
use relay_server::{ScriptFault, run_script};
use std::alloc::Global;
use std::io::ErrorKind;

pub fn owned(alloc: Global, text: &str) -> Option<String> {
    String::from_str(alloc, text).ok()
}

/// Bytes as a text.
pub fn text_of(alloc: Global, bytes: &[u8]) -> Option<String> {
    String::from_utf8_lossy(alloc, bytes).ok()
}

/// A text on one line, as a row wants it: the end of a line in it stands as `\n`.
pub fn on_one_line(alloc: Global, text: &str) -> Option<String> {
    text.replace(alloc, "\n", "\\n").ok()
}

/// The text that a row wrote on one line.
pub fn typed(alloc: Global, text: &str) -> Option<String> {
    text.replace(alloc, "\\n", "\n").ok()
}

/// The number that a word spells.
pub fn number(word: &str) -> Option<u64> {
    word.parse::<u64>().ok()
}

/// The output, followed by the fault, if there was one.
pub fn with_end(alloc: Global, written: &[u8], ended: Result<(), ScriptFault>) -> Option<String> {
    let mut told = text_of(alloc, written)?;
    if let Err(fault) = ended {
        write!(told, "fault: {fault}").ok()?;
    }
    Some(told)
}

/// The output, followed by the status.
pub fn with_status(alloc: Global, written: &[u8], status: u8) -> Option<String> {
    let mut told = text_of(alloc, written)?;
    write!(told, "status {status}").ok()?;
    Some(told)
}

/// The output of a script, followed by the fault that ended it, if there was one.
pub fn played(
    alloc: Global,
    history: u64,
    max_waiting_patches: u64,
    script: &[u8],
) -> Option<String> {
    let mut input = script;
    let mut output = Vec::new(alloc);
    let ended = run_script(
        alloc,
        &mut input,
        &mut output,
        HubConfig::new(1, 1, history, max_waiting_patches),
    );
    with_end(alloc, output.as_slice(), ended)
}

/// The kind of an error, by its name.
pub fn kind_of(name: &str) -> Option<ErrorKind> {
    match name {
        "Interrupted" => Some(ErrorKind::Interrupted),
        "InvalidData" => Some(ErrorKind::InvalidData),
        "OutOfMemory" => Some(ErrorKind::OutOfMemory),
        "Other" => Some(ErrorKind::Other),
        _ => None,
    }
}
