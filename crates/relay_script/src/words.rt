//! The texts of answers (`docs/PROTOCOL.md`): `NAME`, the result of its line, and a line feed.
ghost use Rattle.std.specs.Prelude.{◌≡◌, IfOk, string_bytes};
ghost use Rattle.relay_hub.specs.declared.event.Answer.TheVariants as answer;
ghost use Rattle.relay_hub.specs.declared.event.Heard.TheVariants as heard;
ghost use Rattle.relay_script.specs.Script.{after_hearing};
ghost use Rattle.relay_script.specs.Words.{unknown_text, no_memory_text, form_text, taken_text};
ghost use Rattle.relay_script.specs.Words.{open_word, answer_text, outcome_text, after_will};
ghost use Rattle.relay_script.specs.Words.{hear_word, off_text, held_text, view_text, truth_text};
ghost use Rattle.relay_script.specs.Words.{shown_text};

use crate::outcome::Outcome;
use relay_follow::{Follower, HearFault};
use relay_hub::{Answer, Heard, HubFault, OpenFault};
use relay_tree::Tree;
use std::alloc::{AllocError, Global};

/// The words of the answers to one name.
#[derive(Clone, Copy)]
pub struct Words<'a> {
    pub alloc: Global,
    pub name: &'a str,
}

impl Words<'_> {
    pub fn unknown(&self) -> Result<String, AllocError>
        ensures { IfOk result (λ text. string_bytes text ≡ unknown_text self.now.name.now) }
    {
        let (alloc, name) = (self.alloc, self.name);
        format!(in alloc; "{name} unknown\n")
    }

    pub fn no_memory(&self) -> Result<String, AllocError>
        ensures { IfOk result (λ text. string_bytes text ≡ no_memory_text self.now.name.now) }
    {
        let (alloc, name) = (self.alloc, self.name);
        format!(in alloc; "{name} no-memory\n")
    }

    pub fn taken(&self) -> Result<String, AllocError>
        ensures { IfOk result (λ text. string_bytes text ≡ taken_text self.now.name.now) }
    {
        let (alloc, name) = (self.alloc, self.name);
        format!(in alloc; "{name} refused name-taken\n")
    }

    /// The answer for the outcome of a line's event.
    pub fn outcome(&self, outcome: &Outcome) -> Result<String, AllocError>
        ensures { IfOk result (λ text. string_bytes text
            ≡ outcome_text self.now.name.now outcome.now) }
    {
        let (alloc, name) = (self.alloc, self.name);
        match outcome {
            Outcome::Answered(answer) => self.answered(answer),
            Outcome::NoMemory => self.no_memory(),
            Outcome::Rejected(status) => format!(in alloc; "{name} refused {status}\n"),
            Outcome::Stuck => format!(in alloc; "{name} stuck\n"),
        }
    }

    /// The same of an outcome that nobody needs any more.
    pub fn last_outcome(&self, outcome: Outcome) -> Result<String, AllocError>
        ensures { IfOk result (λ text. string_bytes text ≡ outcome_text self.now.name.now outcome) }
    {
        self.outcome(&outcome)
    }

    /// The answer for an answer of the hub.
    fn answered(&self, answer: &Answer) -> Result<String, AllocError>
        ensures { IfOk result (λ text. string_bytes text
            ≡ answer_text self.now.name.now answer.now) }
    {
        let (alloc, name) = (self.alloc, self.name);
        match answer {
            Answer::Opened(opening) => {
                let session = opening.session;
                format!(in alloc; "{name} opened {session}\n")
            }
            Answer::NotOpened(fault) => {
                let word = open_word(*fault);
                format!(in alloc; "{name} refused {word}\n")
            }
            Answer::Heard(Heard::Answered { short }) => self.heard(*short),
            Answer::Heard(Heard::Busy) => format!(in alloc; "{name} busy\n"),
            Answer::Drawn(Some(text)) => {
                let text = text.as_str();
                format!(in alloc; "{name} {text}\n")
            }
            Answer::Drawn(None) => format!(in alloc; "{name} nothing\n"),
            Answer::Closed => format!(in alloc; "{name} closed\n"),
            Answer::NoSession => self.unknown(),
            Answer::WillDone { .. }
            | Answer::NoWill
            | Answer::Forgotten { .. }
            | Answer::NotForgotten(_)
            | Answer::Adopted
            | Answer::NotAdopted(_)
            | Answer::FloorRaised => Ok(String::new(alloc)),
        }
    }

    /// The line of a will's outcome, which is empty unless memory ran out.
    pub fn after_will(&self, outcome: &Outcome) -> Result<String, AllocError>
        ensures { IfOk result (λ text. string_bytes text
            ≡ after_will self.now.name.now outcome.now) }
    {
        match outcome {
            Outcome::NoMemory => self.no_memory(),
            _ => Ok(String::new(self.alloc)),
        }
    }

    /// The answer for a text that the hub answered. `short` counts the watchers whose outboxes
    /// folded because memory ran out.
    #[tactic(auto, using(crate::proofs::WordLemmas::short_text))]
    fn heard(&self, short: u64) -> Result<String, AllocError>
        ensures { IfOk result (λ text. string_bytes text
            ≡ answer_text self.now.name.now (answer.Heard (heard.Answered short))) }
    {
        let (alloc, name) = (self.alloc, self.name);
        if short == 0 {
            format!(in alloc; "{name} answered\n")
        } else {
            format!(in alloc; "{name} answered short {short}\n")
        }
    }

    /// The line that shows what the name's follower should hold.
    pub fn shown(&self, shown: Result<Option<(u64, Tree)>, HubFault>) -> Result<String, AllocError>
        ensures { IfOk result (λ text. string_bytes text ≡ shown_text self.now.name.now shown) }
    {
        match shown {
            Ok(shown) => self.truth(shown),
            Err(HubFault::NoSession) => self.unknown(),
            Err(HubFault::NoMemory) => self.no_memory(),
        }
    }

    fn truth(&self, shown: Option<(u64, Tree)>) -> Result<String, AllocError>
        ensures { IfOk result (λ text. string_bytes text ≡ truth_text self.now.name.now shown) }
    {
        let (alloc, name) = (self.alloc, self.name);
        let follower = match shown {
            Some((rev, view)) => Follower::from_view(rev, view),
            None => Follower::new(),
        };
        let shown = view(alloc, "truth", &follower)?;
        format!(in alloc; "{name} {shown}")
    }

    /// The line that shows what the name's follower holds.
    pub fn held(&self, follower: &Follower) -> Result<String, AllocError>
        ensures { IfOk result (λ text. string_bytes text
            ≡ held_text self.now.name.now follower.now) }
    {
        let (alloc, name) = (self.alloc, self.name);
        let held = view(alloc, "held", follower)?;
        format!(in alloc; "{name} {held}")
    }

    /// The line that reports a follower's fault.
    pub fn off(&self, fault: HearFault) -> Result<String, AllocError>
        ensures { IfOk result (λ text. string_bytes text ≡ off_text self.now.name.now fault) }
    {
        let (alloc, name) = (self.alloc, self.name);
        let word = hear_word(fault);
        format!(in alloc; "{name} off {word}\n")
    }

    /// That line, or nothing if there is no fault.
    pub fn after_hearing(&self, fault: Option<HearFault>) -> Result<String, AllocError>
        ensures { IfOk result (λ text. string_bytes text ≡ after_hearing self.now.name.now fault) }
    {
        match fault {
            None => Ok(String::new(self.alloc)),
            Some(fault) => self.off(fault),
        }
    }
}

/// The answer to a line of no known form, by its number.
pub fn unknown_form(alloc: Global, number: u32) -> Result<String, AllocError>
    ensures { IfOk result (λ text. string_bytes text ≡ form_text number) }
{
    format!(in alloc; "? {number}\n")
}

/// The word for a refused opening.
fn open_word(fault: OpenFault) -> &'static str
    ensures { result.now ≡ open_word fault }
{
    match fault {
        OpenFault::RoomName => "room-name",
        OpenFault::RoomsFull => "rooms-full",
        OpenFault::SessionsFull => "sessions-full",
        OpenFault::Exhausted => "exhausted",
        OpenFault::NoMemory => "no-memory",
    }
}

/// The word for a follower's fault.
pub fn hear_word(fault: HearFault) -> &'static str
    ensures { result.now ≡ hear_word fault }
{
    match fault {
        HearFault::NotMessage => "not-message",
        HearFault::NoView => "no-view",
        HearFault::Order => "order",
        HearFault::Apply => "apply",
        HearFault::NoMemory => "no-memory",
    }
}

/// A word, then what a follower holds: its revision and view, or `nothing`.
pub fn view(alloc: Global, word: &str, follower: &Follower) -> Result<String, AllocError>
    ensures { IfOk result (λ text. string_bytes text ≡ view_text word.now follower.now) }
{
    let (Some(rev), Some(view)) = (follower.rev(), follower.view()) else {
        return format!(in alloc; "{word} nothing\n");
    };
    let view = view.text(alloc)?;
    format!(in alloc; "{word} {rev} {view}\n")
}
