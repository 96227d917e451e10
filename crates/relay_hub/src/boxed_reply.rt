//! A reply that waits in an outbox, and the memory for one.
ghost use Rattle.std.specs.Prelude.{◌≡◌};

use relay_proto::Reply;
use std::alloc::{AllocError, Global};
use std::marker::Model;

/// The memory for a reply. It is allocated before a text is carried out, so that the reply to it
/// needs none.
#[derive(Drop)]
pub struct ReservedReply {
    reply: Box<Reply>,
}

impl ReservedReply {
    /// Allocates the memory.
    pub fn new(alloc: Global) -> Result<ReservedReply, AllocError> {
        Ok(ReservedReply {
            reply: Box::new(alloc, Reply::Unwatched { id: 0 })?,
        })
    }

    /// Puts a reply there. Allocates nothing.
    pub fn fill(self, reply: Reply) -> BoxedReply
        ensures { result ≡ reply }
    {
        let mut boxed = self.reply;
        *boxed = reply;
        BoxedReply { reply: boxed }
    }
}

/// A reply in an allocation of its own. So an outbox has room for 32 pointers, and not for 32
/// replies, most of which never wait. Contracts see it as the reply.
#[derive(Drop)]
pub struct BoxedReply {
    reply: Box<Reply>,
}

impl Model for BoxedReply {
    ghost use Rattle.relay_proto.specs.declared.reply.Reply.{Reply};
    ghost use Rattle.relay_proto.specs.contracts.reply.Reply as plain;

    ghost Value = { Reply };

    ghost coded = { plain.the_row.coded };

    ghost view = { λ r. r.reply.value };
}

impl BoxedReply {
    /// The reply.
    pub fn get(&self) -> &Reply
        ensures { result.now ≡ self.now }
    {
        &self.reply
    }
}
