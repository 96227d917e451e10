//! The outcome of a request, by the hub's reply to it.
ghost use Rattle.std.specs.Prelude.{◌≡◌, option_copied};
ghost use Rattle.relay_admin.specs.Outcome.{fault_in, is_malformed, outcome_of, outcome_by};

use crate::cut::{behind, cut};

/// The outcome of a request, by the hub's reply to it.
///
/// ```
/// let stale = r#"{"at":null,"fault":"stale","id":1,"kind":"refused","rev":5}"#;
/// assert!(rt; outcome_of(stale) == relay_admin::Outcome::Stale);
/// ```
#[derive(Clone, Copy, Debug, PartialEq, Eq)]
pub enum Outcome {
    /// It was done: the response to an edit is [`crate::Response::Edited`].
    Accepted,
    /// The edit was for another revision: [`crate::Response::OtherRevision`].
    Stale,
    /// The text is no patch, or no pointer, whatever the document is:
    /// [`crate::Response::Malformed`].
    Malformed,
    /// The patch cannot be made at the present document: [`crate::Response::Unprocessable`].
    Unprocessable,
}

/// Returns what came of a request, by the hub's reply to it. Only a refusal has a fault.
///
/// ```
/// let done = r#"{"id":1,"kind":"done","rev":5}"#;
/// assert!(rt; matches!(outcome_of(done), relay_admin::Outcome::Accepted));
/// let refused = r#"{"at":0,"fault":"test-failed","id":1,"kind":"refused"}"#;
/// assert!(rt; matches!(outcome_of(refused), relay_admin::Outcome::Unprocessable));
/// ```
pub fn outcome_of(reply: &str) -> Outcome
    ensures { result ≡ outcome_of reply.now }
{
    match fault_in(reply) {
        None => Outcome::Accepted,
        Some("stale") => Outcome::Stale,
        Some(fault) if is_malformed(fault) => Outcome::Malformed,
        Some(_) => Outcome::Unprocessable,
    }
}

/// The word of the fault, which is the second member of a refusal.
fn fault_in(reply: &str) -> Option<&str>
    ensures { option_copied result ≡ fault_in reply.now }
{
    let (_, members) = cut(reply, ',');
    let fault = behind(members?, r#""fault":""#)?;
    let (word, _) = cut(fault, '"');
    Some(word)
}

fn is_malformed(fault: &str) -> bool
    ensures { result ≡ is_malformed fault.now }
{
    matches!(
        fault,
        "too-long" | "not-json" | "number" | "shape" | "too-many" | "unknown-op" | "pointer"
    )
}
