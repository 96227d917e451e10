//! The texts of messages: compact JSON, member names in byte order.
ghost use Rattle.std.specs.Prelude.{◌≡◌, Some, IfOk, string_bytes};
ghost use Rattle.relay_tree.specs.Text.{text_of};
ghost use Rattle.relay_proto.specs.Message.{reply_document, count_or_null, message_document};
ghost use Rattle.relay_proto.specs.MessageRead.{message_of_text};
ghost use Rattle.relay_proto.specs.Written.{HasCounts, IsWritable};
ghost use Rattle.relay_proto.specs.declared.message.Message.TheVariants as message;
ghost use Rattle.relay_proto.specs.declared.reply.Reply.TheVariants as reply;

use crate::message::Message;
use crate::reply::Reply;
use crate::updates::{patch_text, snapshot_text};
use crate::word::Word;
use std::alloc::{AllocError, Global};

impl Reply {
    /// Returns the text of the reply. It reads back as the reply if its numbers are counts.
    ///
    /// ```
    /// let text = Reply::Done { id: 1, rev: 4 }.text(alloc).ok()?;
    /// assert!(rt; text.as_str() == r#"{"id":1,"kind":"done","rev":4}"#);
    /// let message = Message::read(alloc, text.as_str());
    /// assert!(rt; matches!(message, Ok(Message::Reply(Reply::Done { id: 1, rev: 4 }))));
    /// ```
    pub fn text(&self, alloc: Global) -> Result<String, AllocError>
        ensures text { IfOk result (λ text. string_bytes text ≡ text_of (reply_document self.now)) }
        ensures reads_back { IfOk result
            (λ text. HasCounts self.now
            → message_of_text (string_bytes text) ≡ Some (message.Reply self.now)) }
    {
        match *self {
            Reply::Welcome {
                epoch,
                rev,
                session,
            } => format!(in alloc;
                "{{\"epoch\":{epoch},\"kind\":\"welcome\",\"rev\":{rev},\"session\":{session}}}"
            ),
            Reply::Done { id, rev } => format!(in alloc;
                "{{\"id\":{id},\"kind\":\"done\",\"rev\":{rev}}}"
            ),
            Reply::Refused { id, fault, at, rev } => refused_text(alloc, id, fault, at, rev),
            Reply::Willing { id } => format!(in alloc; "{{\"id\":{id},\"kind\":\"willing\"}}"),
            Reply::Watching { id } => format!(in alloc; "{{\"id\":{id},\"kind\":\"watching\"}}"),
            Reply::Resumed { id, how } => {
                let how = how.text();
                format!(in alloc; "{{\"how\":\"{how}\",\"id\":{id},\"kind\":\"resumed\"}}")
            }
            Reply::Unwatched { id } => format!(in alloc; "{{\"id\":{id},\"kind\":\"unwatched\"}}"),
        }
    }
}

/// Returns the text of a refusal, which has the member `rev` if a revision is given.
fn refused_text(
    alloc: Global,
    id: Option<u64>,
    fault: Word,
    at: Option<u64>,
    rev: Option<u64>,
) -> Result<String, AllocError>
    ensures { IfOk result
        (λ text. string_bytes text ≡ text_of (reply_document (reply.Refused id fault at rev))) }
{
    let fault = fault.text();
    let id = count_text(alloc, id)?;
    let at = count_text(alloc, at)?;
    match rev {
        Some(rev) => format!(in alloc;
            "{{\"at\":{at},\"fault\":\"{fault}\",\"id\":{id},\"kind\":\"refused\",\"rev\":{rev}}}"
        ),
        None => format!(in alloc;
            "{{\"at\":{at},\"fault\":\"{fault}\",\"id\":{id},\"kind\":\"refused\"}}"
        ),
    }
}

/// Returns a count in decimal, or `null`.
fn count_text(alloc: Global, count: Option<u64>) -> Result<String, AllocError>
    ensures { IfOk result (λ text. string_bytes text ≡ text_of (count_or_null count)) }
{
    match count {
        Some(count) => count.to_string(alloc),
        None => String::from_str(alloc, "null"),
    }
}

impl Message {
    /// Returns the text of the message. It reads back as the message if its members have the forms
    /// that [`Message::read`] accepts and it nests at most 127 containers.
    ///
    /// ```
    /// let message = Message::Snapshot { rev: 1, view: read(alloc, "[[[]]]").ok()? };
    /// let wanted = r#"{"kind":"snapshot","rev":1,"view":[[[]]]}"#;
    /// assert!(rt; message.text(alloc).ok()?.as_str() == wanted);
    /// ```
    pub fn text(&self, alloc: Global) -> Result<String, AllocError>
        ensures text { IfOk result
            (λ text. string_bytes text ≡ text_of (message_document self.now)) }
        ensures reads_back { IfOk result
            (λ text. IsWritable self.now → message_of_text (string_bytes text) ≡ Some self.now) }
    {
        match self {
            Message::Reply(reply) => reply.text(alloc),
            Message::Patch { rev, patch } => patch_text(alloc, *rev, patch),
            Message::Snapshot { rev, view } => snapshot_text(alloc, *rev, view),
        }
    }
}
