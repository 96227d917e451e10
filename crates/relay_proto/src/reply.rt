//! Replies to requests, and to the opening of a session.
use crate::word::Word;

/// The message that follows the reply to a resume, if any.
///
/// ```
/// let text = Reply::Resumed { id: 3, how: ResumeOutcome::Nothing }.text(alloc).ok()?;
/// assert!(rt; text.as_str() == r#"{"how":"nothing","id":3,"kind":"resumed"}"#);
/// ```
#[derive(Clone, Copy, Debug, PartialEq, Eq)]
pub enum ResumeOutcome {
    /// Nothing: the client's view is up to date.
    Nothing,
    /// One patch to the present revision waits.
    Patch,
    /// A snapshot is due.
    Snapshot,
}

impl ResumeOutcome {
    ghost use Rattle.std.specs.Prelude.{◌≡◌};
    ghost use Rattle.relay_proto.specs.Words.{how_text, how_of_text};

    /// Returns the outcome whose word is `text`, or `None` if there is none.
    ///
    /// ```
    /// assert!(rt; ResumeOutcome::read("snapshot") == Some(ResumeOutcome::Snapshot));
    /// assert!(rt; ResumeOutcome::read("all") == None);
    /// ```
    pub fn read(text: &str) -> Option<ResumeOutcome>
        ensures { result ≡ how_of_text text.now }
    {
        match text {
            "nothing" => Some(ResumeOutcome::Nothing),
            "patch" => Some(ResumeOutcome::Patch),
            "snapshot" => Some(ResumeOutcome::Snapshot),
            _ => None,
        }
    }

    /// Returns the word that messages use for this outcome.
    ///
    /// ```
    /// assert!(rt; ResumeOutcome::Patch.text() == "patch");
    /// ```
    pub fn text(self) -> &'static str
        ensures { result.now ≡ how_text self }
    {
        match self {
            ResumeOutcome::Nothing => "nothing",
            ResumeOutcome::Patch => "patch",
            ResumeOutcome::Snapshot => "snapshot",
        }
    }
}

/// A reply. Epochs, revisions, session numbers and ids are counts, from 0 to `2^53 - 1`.
///
/// ```
/// let reply = Reply::Welcome { epoch: 1_700_000_000, rev: 0, session: 1 };
/// let wanted = r#"{"epoch":1700000000,"kind":"welcome","rev":0,"session":1}"#;
/// assert!(rt; reply.text(alloc).ok()?.as_str() == wanted);
/// ```
#[derive(Clone, Copy, Debug, PartialEq, Eq)]
pub enum Reply {
    /// A session was opened in a room that is at revision `rev`.
    Welcome {
        epoch: u64,
        rev: u64,
        session: u64,
    },
    /// An edit was accepted and made revision `rev`.
    Done {
        id: u64,
        rev: u64,
    },
    /// A request was refused. `id` is `None` if none was read ([`crate::Refusal`]). `at` is the
    /// place of the operation or pointer at fault, counted from 0. `rev` is the present revision of
    /// the room, if the reply names it.
    Refused {
        id: Option<u64>,
        fault: Word,
        at: Option<u64>,
        rev: Option<u64>,
    },
    /// The patch is kept for when the session has ended.
    Willing {
        id: u64,
    },
    /// The view is held; a snapshot is due.
    Watching {
        id: u64,
    },
    /// The view is held; `how` says what follows.
    Resumed {
        id: u64,
        how: ResumeOutcome,
    },
    /// No view is held any more.
    Unwatched {
        id: u64,
    },
}
