//! The bytes received on a connection, and what they ask of a room.
ghost use Rattle.std.specs.Prelude.{◌≡◌, IfOk, IfSome, OnOk, option_copied};
ghost use Rattle.relay_operator.specs.Request.{BeginsWith, Makes, Notes, asked_by, body_of};
ghost use Rattle.relay_operator.specs.Request.{missing_by, missing_of, served, unread, with_bytes};
ghost use Rattle.relay_operator.specs.RoomRequest.{is_some_of};

use crate::room_request::{Kind, RoomRequest};
use relay_admin::{Ask, EditRequest, ask};
use std::alloc::{AllocError, Global};
use std::marker::Model;

/// The bytes received, and what they ask of a room, as long as that has no response. It is noted
/// only where the bytes are read, so it is what they say.
#[derive(Drop)]
pub(crate) struct RequestBuffer {
    bytes: Vec<u8>,
    asked: Option<RoomRequest>,
}

impl Model for RequestBuffer {
    ghost use Rattle.relay_operator.specs.Request.{IsSaid, Request};

    ghost Value = { Request };

    ghost view = { λ r. record { bytes = r.bytes.items; asked = r.asked } };

    ghost invariant = { λ r. IsSaid r.asked r.bytes.items };
}

impl RequestBuffer {
    pub(crate) fn new(alloc: Global) -> RequestBuffer
        ensures { result ≡ unread }
    {
        RequestBuffer {
            bytes: Vec::new(alloc),
            asked: None,
        }
    }

    /// Adds bytes behind the others.
    pub(crate) fn extend(&mut self, bytes: &[u8]) -> Result<(), AllocError>
        ensures { OnOk result (self.new ≡ with_bytes bytes.now self.old) }
    {
        self.bytes.extend_from_slice(bytes)
    }

    /// Answers all bytes. What they ask of a room is noted; any other answer is returned.
    pub(crate) fn ask(&mut self, alloc: Global) -> Result<Option<Ask>, AllocError>
        ensures { IfOk result (λ given. Notes given self.old self.new) }
    {
        let answer = ask(alloc, self.bytes.as_slice())?;
        match RoomRequest::of(answer) {
            Ok(request) => {
                self.asked = Some(request);
                Ok(None)
            }
            Err(answer) => Ok(Some(answer)),
        }
    }

    /// Drops the request for a room, once that has its response.
    pub(crate) fn clear_asked(&mut self)
        ensures { self.new ≡ served self.old }
    {
        self.asked = None;
    }

    /// The request that is made of a room, while that has no response and all of the request was
    /// received.
    pub(crate) fn asked(&self) -> Option<&RoomRequest>
        ensures asked { option_copied result ≡ asked_by self.now }
        // It is what the bytes say.
        ensures said { IfSome result
            (λ request. BeginsWith (Makes request.now) self.now.bytes) }
    {
        let asked = self.asked.as_ref()?;
        match asked {
            RoomRequest::Edit(edit) if self.missing(edit) > 0 => None,
            _ => Some(asked),
        }
    }

    /// True if something of that kind is asked, and the whole request was received.
    pub(crate) fn asks_for(&self, kind: Kind) -> bool
        ensures { result ≡ is_some_of kind (asked_by self.now) }
    {
        match self.asked() {
            Some(request) => request.is(kind),
            None => false,
        }
    }

    /// The number of bytes of an edit's body that are still to be received.
    fn missing(&self, edit: &EditRequest) -> usize
        ensures { result ≡ missing_of edit.now self.now.bytes }
    {
        let all = edit.head.saturating_add(edit.length as usize);
        all.saturating_sub(self.bytes.len())
    }

    /// The body of an edit, as far as it was received.
    pub(crate) fn body(&self, edit: &EditRequest) -> &[u8]
        ensures { result.now ≡ body_of edit.now self.now.bytes }
    {
        let bytes = self.bytes.as_slice();
        let end = edit.head.saturating_add(edit.length as usize);
        let end = end.min(bytes.len());
        &bytes[edit.head.min(end)..end]
    }

    /// The number of bytes of an edit's body that are still to be received, if an edit is asked.
    pub(crate) fn missing_body(&self) -> Option<usize>
        ensures { result ≡ missing_by self.now.asked self.now.bytes }
    {
        match self.asked.as_ref()? {
            RoomRequest::Edit(edit) => Some(self.missing(edit)),
            _ => None,
        }
    }
}
