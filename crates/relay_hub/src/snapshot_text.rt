//! The text of a room's present snapshot. It is written for the first sessions that are due it and
//! watch the same view, and shared with the others, which copies nothing.
ghost use Rattle.std.specs.Prelude.{◌≡◌, ◌⊎◌, Some, None, IfOk, IfSome};
ghost use Rattle.relay_hub.specs.EncodedPatch.{IsTextOf};
ghost use Rattle.relay_hub.specs.Session.{snapshot_of};
ghost use Rattle.relay_hub.specs.SnapshotText.{IsSnapshotText, kept_bytes, kept_over};

use crate::cost;
use crate::message_counts::MessageCounts;
use bytes::ByteStr;
use relay_audience::SharedView;
use relay_proto::{Refusal, Request, shown_text};
use relay_room::Room;
use std::alloc::{AllocError, Global};
use std::marker::Model;

/// The most bytes of the texts that the rooms of a hub keep together. A longer text is written for
/// each session.
pub(crate) const MAX_KEPT_BYTES: u64 = 4 * 1_024 * 1_024;

/// A text, and the view whose snapshot it is.
#[derive(Drop)]
struct KeptText {
    view: SharedView,
    text: ByteStr,
}

/// The text of a room's present snapshot for one view, if it is kept. A text is kept only once a
/// second one is written for the same view, so that a room with one watcher keeps none. Contracts
/// see the view and the bytes of the text that is kept.
#[derive(Drop)]
pub struct SnapshotText {
    /// The view whose snapshot was written last.
    written: Option<SharedView>,
    kept: Option<KeptText>,
}

impl Model for SnapshotText {
    ghost use Rattle.std.specs.Prelude.{ℕ, List, Option, option_map};
    ghost use Rattle.std.specs.Coded.{coded×, coded_ℕ, coded_list, coded_option};
    ghost use Rattle.relay_view.specs.View.{View};
    ghost use Rattle.relay_view.specs.contracts.slot.Slot as slot;

    ghost Value = { Option (View × List ℕ) };

    ghost coded = { coded_option (coded× (coded_list slot.the_row.coded) (coded_list coded_ℕ)) };

    ghost view = { λ s. option_map (λ kept. (kept.view, kept.text)) s.kept };
}

impl SnapshotText {
    /// No text. Allocates nothing.
    pub fn none() -> SnapshotText
        ensures { result ≡ None }
    {
        SnapshotText {
            written: None,
            kept: None,
        }
    }

    /// The length in bytes of the kept text; 0 if none is kept. Allocates nothing.
    pub fn bytes(&self) -> u64
        ensures { result ≡ kept_bytes self.now }
    {
        match &self.kept {
            Some(kept) => kept.text.len() as u64,
            None => 0,
        }
    }

    /// Drops the text if the request may change the room: an edit alone does. A will that is done,
    /// and a room that is forgotten, drop it themselves. Allocates nothing.
    pub fn drop_over(&mut self, request: &Result<Request, Refusal>)
        ensures { self.new ≡ kept_over request.now self.old }
    {
        if let Ok(Request::Edit { .. }) = request {
            *self = SnapshotText::none();
        }
    }

    /// Returns the text of the present snapshot of the room for the view: the one that is kept,
    /// shared, or a new one. Counts what that cost.
    pub fn draw(
        &mut self,
        alloc: Global,
        room: &Room,
        view: &SharedView,
        counts: &mut MessageCounts,
    ) -> Result<ByteStr, AllocError>
        requires kept { IsSnapshotText room.now self.old }
        ensures text { IfOk result (λ text. IsTextOf text (snapshot_of room.now view.now)) }
        ensures kept { IsSnapshotText room.now self.new }
    {
        if let Some(text) = self.kept_for(view) {
            counts.count_cost(cost::drawing(text.len() as u64));
            return text.clone();
        }
        let text = write(alloc, room, view, counts)?;
        self.note(view, &text);
        Ok(text)
    }

    /// The kept text, if it is of that view. Compares the views token by token.
    fn kept_for(&self, view: &SharedView) -> Option<&ByteStr>
        ensures { IfSome result (λ text. self.now ≡ Some (view.now, text.now)) }
    {
        let kept = self.kept.as_ref()?;
        if kept.view.get().same(view.get()) {
            Some(&kept.text)
        } else {
            None
        }
    }

    /// Notes that this text was written for the view. Keeps it if the one that was written before
    /// was for an equal view, and if it is not too long.
    fn note(&mut self, view: &SharedView, text: &ByteStr)
        ensures { (self.new ≡ self.old) ⊎ (self.new ≡ Some (view.now, text.now)) }
    {
        if !self.was_written_for(view) {
            self.written = view.share().ok();
        } else if text.len() as u64 <= MAX_KEPT_BYTES {
            if let Ok(kept) = KeptText::new(view, text) {
                self.kept = Some(kept);
            }
        }
    }

    /// Returns true if the text that was written last was for an equal view.
    fn was_written_for(&self, view: &SharedView) -> bool {
        match &self.written {
            Some(written) => written.get().same(view.get()),
            None => false,
        }
    }
}

impl KeptText {
    /// The text, shared, for the view.
    fn new(view: &SharedView, text: &ByteStr) -> Result<KeptText, AllocError>
        ensures view { IfOk result (λ kept. kept.view ≡ view.now) }
        ensures text { IfOk result (λ kept. kept.text ≡ text.now) }
    {
        Ok(KeptText {
            view: view.share()?,
            text: text.clone()?,
        })
    }
}

/// Writes the text of the present snapshot of the room for the view, and counts the cost.
fn write(
    alloc: Global,
    room: &Room,
    view: &SharedView,
    counts: &mut MessageCounts,
) -> Result<ByteStr, AllocError>
    ensures { IfOk result (λ text. IsTextOf text (snapshot_of room.now view.now)) }
{
    let written = shown_text(alloc, room.revision(), view.get(), room.document())?;
    let text = ByteStr::from_string(written)?;
    counts.count_cost(cost::showing(text.as_str()));
    Ok(text)
}
