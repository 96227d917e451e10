//! The refusal of a text that is no request.
use crate::reply::Reply;
use crate::word::Word;

/// The reason why a text is no request, with the fields of the reply. `id` is the request's id, and
/// `None` after `TooLong`, `NotJson` and `Number`, or if the text is no object whose `id` is a
/// count. `at` is the place of the operation or pointer at fault, counted from 0.
///
/// ```
/// let two = r#"{"do": "watch", "id": 4, "view": ["/cards", "title"]}"#;
/// let Err(RequestFault::Refused(refusal)) = Request::read(alloc, two) else {
///     return None;
/// };
/// assert!(rt; refusal == Refusal { fault: Word::Pointer, id: Some(4), at: Some(1) });
/// ```
#[derive(Clone, Copy, Debug, PartialEq, Eq)]
pub struct Refusal {
    pub fault: Word,
    pub id: Option<u64>,
    pub at: Option<u64>,
}

impl Refusal {
    ghost use Rattle.std.specs.Prelude.{◌≡◌, None};
    ghost use Rattle.relay_proto.specs.declared.reply.Reply.TheVariants.{Refused};

    /// Returns the reply for this refusal. It names no revision.
    ///
    /// ```
    /// let text = Refusal { fault: Word::Shape, id: Some(7), at: None }.reply().text(alloc).ok()?;
    /// assert!(rt; text.as_str() == r#"{"at":null,"fault":"shape","id":7,"kind":"refused"}"#);
    /// ```
    pub fn reply(self) -> Reply
        ensures { result ≡ Refused self.id self.fault self.at None }
    {
        Reply::Refused {
            id: self.id,
            fault: self.fault,
            at: self.at,
            rev: None,
        }
    }
}

/// The reason why no request was read.
///
/// ```
/// let refusal = Refusal { fault: Word::NotJson, id: None, at: None };
/// let request = Request::read(alloc, "[1,]");
/// assert!(rt; matches!(request, Err(RequestFault::Refused(why)) if why == refusal));
/// ```
#[derive(Clone, Copy, Debug, PartialEq, Eq)]
pub enum RequestFault {
    Refused(Refusal),
    NoMemory,
}
