//! One session: its view, its outbox and its will.
use crate::boxed_reply::{BoxedReply, ReservedReply};
use crate::config::HubConfig;
use crate::encoded_patch::EncodedPatch;
use crate::message_counts::{MessageCounts, SnapshotCause};
use crate::snapshot_text::SnapshotText;
use crate::update::Update;
use crate::will::Will;
use crate::{cost, load};
use bytes::ByteStr;
use relay_access::Access;
use relay_audience::SharedView;
use relay_outbox::{Front, Outbox, OutboxFault};
use relay_patch::Patch;
use relay_proto::Reply;
use relay_room::Room;
use relay_tree::Budget;
use std::alloc::{AllocError, Global};
use std::marker::Model;

/// An open session. Contracts see it as its number, what it may do, the view that it watches, if
/// any, its outbox, what the patches there may weigh, its will and how many it has left. If it
/// watches nothing, only replies wait.
#[derive(Drop)]
pub struct Session {
    number: u64,
    access: Access,
    view: Option<SharedView>,
    outbox: Outbox<BoxedReply, EncodedPatch>,
    /// The most that the waiting patches may weigh together.
    budget: Budget,
    /// The weight of the waiting patches, counted only if they are bounded.
    load: u64,
    /// The cause for which the snapshot is due, if one is.
    due_for: SnapshotCause,
    /// The patch for when it has ended, which may be empty.
    will: Patch,
    /// The number of wills that it has left so far, at most `u64::MAX`.
    will_number: u64,
}

impl Model for Session {
    ghost use Rattle.relay_patch.specs.contracts.op.Op as op;
    ghost use Rattle.relay_proto.specs.contracts.reply.Reply as reply;
    ghost use Rattle.relay_view.specs.contracts.slot.Slot as slot;
    ghost use Rattle.relay_hub.specs.Load.{IsLoad};
    ghost use Rattle.relay_hub.specs.Session.{Session, IsSession, session_code};

    ghost Value = { Session };

    ghost coded = { session_code slot.the_row.coded reply.the_row.coded op.the_row.coded };

    ghost view = { λ x. record {
      number = x.number;
      access = x.access;
      view = x.view;
      outbox = x.outbox;
      budget = x.budget;
      will = x.will;
      will_number = x.will_number;
    } };

    ghost invariant = { λ x. IsSession
        (record {
          number = x.number;
          access = x.access;
          view = x.view;
          outbox = x.outbox;
          budget = x.budget;
          will = x.will;
          will_number = x.will_number;
        }) × IsLoad x.budget x.load x.outbox };
}

impl Session {
    ghost use Rattle.std.specs.Prelude.{◌≡◌, ◌<◌, ◌≤◌, ℕ, nat_le, length, option_map, Ok, None};
    ghost use Rattle.std.specs.Prelude.{IfOk, OnOk, OnErr, IsSome};
    ghost use Rattle.relay_outbox.specs.declared.outbox.TheConstants.{MAX_REPLIES};
    ghost use Rattle.relay_limits.specs.declared.TheConstants.{MAX_WAITING_PATCHES};
    ghost use Rattle.relay_room.specs.declared.catch_up.CatchUp.{CatchUp};
    ghost use Rattle.relay_hub.specs.Load.{IsLoad, bounded_weight};
    ghost use Rattle.relay_hub.specs.Update.{update_of, heard};
    ghost use Rattle.relay_hub.specs.Shed.{shed_session};
    ghost use Rattle.relay_hub.specs.SnapshotText.{IsSnapshotText};
    ghost use Rattle.relay_hub.specs.Session.{with_outbox, replied, newcomer, leaves_will, watches};
    ghost use Rattle.relay_hub.specs.Session.{unwatches, resumes, front_message, message_text};
    ghost use Rattle.relay_hub.specs.Session.{ReadsBack, waiting, drawn};
    ghost use Rattle.relay_hub.specs.Step.{will_of};

    /// Makes a session in a room at revision `rev`. It watches nothing, and a `Welcome` waits in
    /// its outbox.
    pub fn new(
        alloc: Global,
        config: HubConfig,
        access: Access,
        rev: u64,
        number: u64,
    ) -> Result<Session, AllocError>
        requires some { 1 ≤ config.max_waiting_patches }
        requires not_too_many { config.max_waiting_patches ≤ MAX_WAITING_PATCHES }
        ensures { IfOk result (λ x. x ≡ newcomer config access rev number) }
    {
        let mut outbox = match Outbox::new(alloc, config.max_waiting_patches) {
            Ok(outbox) => outbox,
            Err(OutboxFault::NoMemory) => return Err(AllocError),
            Err(OutboxFault::BadLimit) => unreachable!(),
        };
        let welcome = Reply::Welcome {
            epoch: config.epoch,
            rev,
            session: number,
        };
        let reserved = ReservedReply::new(alloc)?;
        let Ok(()) = outbox.reply(reserved.fill(welcome)) else {
            unreachable!()
        };
        Ok(Session {
            number,
            access,
            view: None,
            outbox,
            budget: config.waiting_weight,
            load: 0,
            due_for: SnapshotCause::Watch,
            will: Patch::from_ops(Vec::new(alloc)),
            will_number: 0,
        })
    }

    /// The number of the session.
    pub fn number(&self) -> u64
        ensures { result ≡ self.now.number }
    {
        self.number
    }

    /// The rights of the session in its room.
    pub fn access(&self) -> Access
        ensures { result ≡ self.now.access }
    {
        self.access
    }

    /// The view that the session watches, if any.
    pub fn view(&self) -> Option<&SharedView>
        ensures { option_map (λ v. v.now) result ≡ self.now.view }
    {
        self.view.as_ref()
    }

    /// The most that the waiting patches may weigh together.
    pub fn budget(&self) -> Budget
        ensures { result ≡ self.now.budget }
    {
        self.budget
    }

    /// The weight of the waiting patches together, if that is bounded; 0 if not.
    #[tactic(auto, using(crate::proofs::Loads::load_is))]
    pub fn load(&self) -> u64
        ensures load { IsLoad self.now.budget result self.now.outbox }
        ensures weight { result ≡ bounded_weight self.now.budget self.now.outbox }
    {
        self.load
    }

    /// Returns true if a snapshot is due. It will show the document as it is when it is drawn.
    pub fn is_due(&self) -> bool
        ensures { result ≡ self.now.outbox.due }
    {
        self.outbox.is_due()
    }

    /// The number of replies that wait.
    pub fn replies(&self) -> u64
        ensures { result ≡ length self.now.outbox.replies }
    {
        self.outbox.replies()
    }

    /// Returns true if no further reply may wait.
    pub fn is_full(&self) -> bool
        ensures within { length self.now.outbox.replies ≤ MAX_REPLIES }
        ensures full { result ≡ nat_le MAX_REPLIES (length self.now.outbox.replies) }
    {
        self.outbox.replies() >= relay_outbox::MAX_REPLIES
    }

    /// Adds a reply to the outbox. Allocates nothing.
    pub fn reply(&mut self, reserved: ReservedReply, reply: Reply)
        requires { length self.old.outbox.replies < MAX_REPLIES }
        ensures { self.new ≡ replied reply self.old }
    {
        let Ok(()) = self.outbox.reply(reserved.fill(reply)) else {
            unreachable!()
        };
    }

    /// Leaves a will, in place of the one that it left before, and counts it. Adds the reply.
    pub fn leave_will(&mut self, reserved: ReservedReply, id: u64, patch: Patch)
        requires { length self.old.outbox.replies < MAX_REPLIES }
        ensures { self.new ≡ leaves_will id patch self.old }
    {
        self.reply(reserved, Reply::Willing { id });
        self.will = patch;
        self.will_number = self.will_number.saturating_add(1);
    }

    /// The will that it has left, which may be empty.
    pub fn will(&self) -> &Patch
        ensures { result.now ≡ self.now.will }
    {
        &self.will
    }

    /// The number of wills that it has left so far, at most `u64::MAX`.
    pub fn will_number(&self) -> u64
        ensures { result ≡ self.now.will_number }
    {
        self.will_number
    }

    /// The will that it leaves behind in the room at an index, which may be empty.
    pub fn into_will(self, room_index: usize) -> Will
        ensures { result ≡ will_of room_index self }
    {
        let Session {
            number,
            will,
            will_number,
            ..
        } = self;
        Will {
            session: number,
            number: will_number,
            room_index,
            patch: will,
        }
    }

    /// Watches the view from now on. Adds the reply, and makes a snapshot due.
    pub fn watch(&mut self, reserved: ReservedReply, id: u64, view: SharedView)
        requires { length self.old.outbox.replies < MAX_REPLIES }
        ensures { self.new ≡ watches id view self.old }
    {
        self.reply(reserved, Reply::Watching { id });
        load::fold(&mut self.outbox, &mut self.load);
        self.due_for = SnapshotCause::Watch;
        self.view = Some(view);
    }

    /// Watches nothing from now on. Adds the reply, and only replies are left in the outbox.
    pub fn unwatch(&mut self, reserved: ReservedReply, id: u64)
        requires { length self.old.outbox.replies < MAX_REPLIES }
        ensures { self.new ≡ unwatches id self.old }
    {
        self.reply(reserved, Reply::Unwatched { id });
        load::clear(&mut self.outbox, &mut self.load);
        self.view = None;
    }

    /// Watches the view from now on, as a client that holds it at an earlier revision. The update
    /// brings it to the present revision.
    pub fn resume(&mut self, reserved: ReservedReply, id: u64, view: SharedView, update: Update)
        requires { length self.old.outbox.replies < MAX_REPLIES }
        ensures resumed { (rev : ℕ) (how : CatchUp) → update ≡ update_of rev how
            → self.new ≡ resumes rev id view how self.old }
        ensures number { self.new.number ≡ self.old.number }
    {
        let resumed = Reply::Resumed {
            id,
            how: update.word(),
        };
        self.reply(reserved, resumed);
        load::clear(&mut self.outbox, &mut self.load);
        self.view = Some(view);
        self.take_update(update);
        self.due_for = SnapshotCause::Resume;
    }

    /// Applies an update: adds nothing, a patch, which may wait in other outboxes too, or a
    /// snapshot in place of all patches. The snapshot also replaces them if they would be more, or
    /// weigh more, than may wait. Allocates nothing.
    pub fn take_update(&mut self, update: Update)
        requires { IsSome self.old.view }
        ensures { self.new ≡ with_outbox (heard self.old.budget update self.old.outbox) self.old }
    {
        match update {
            Update::Nothing => {}
            Update::Patch(encoded_patch) => {
                self.due_for = load::put(
                    &mut self.outbox,
                    &mut self.load,
                    self.budget,
                    encoded_patch,
                );
            }
            Update::Snapshot => {
                load::fold(&mut self.outbox, &mut self.load);
                self.due_for = SnapshotCause::Edit;
            }
        }
    }

    /// Folds the patches that wait, if there are any, into a snapshot that is due. Allocates
    /// nothing.
    pub fn shed(&mut self)
        ensures { self.new ≡ shed_session self.old }
    {
        if self.outbox.patches() > 0 {
            load::fold(&mut self.outbox, &mut self.load);
            self.due_for = SnapshotCause::Memory;
        }
    }

    /// Notes that the snapshot is due because memory was refused. Allocates nothing.
    pub fn note_refused_memory(&mut self)
        ensures { self.new ≡ self.old }
    {
        self.due_for = SnapshotCause::Memory;
    }

    /// Removes and returns the text at the front of the outbox; `None` if nothing waits. The text
    /// of a patch is shared, that of a reply is written, and a due snapshot is made from the
    /// present document ([`SnapshotText::draw`]). The message is counted. Out of memory leaves it
    /// in the outbox.
    pub fn draw(
        &mut self,
        alloc: Global,
        room: &Room,
        snapshot: &mut SnapshotText,
        counts: &mut MessageCounts,
    ) -> Result<Option<ByteStr>, AllocError>
        requires kept { IsSnapshotText room.now snapshot.old }
        ensures text { IfOk result (λ text.
            text ≡ option_map message_text (front_message room.now self.old)) }
        ensures ok { OnOk result (self.new ≡ drawn self.old) }
        ensures err { OnErr result (self.new ≡ self.old) }
        ensures empty { result ≡ Ok None → waiting self.old ≡ 0 }
        ensures reads_back { OnOk result (ReadsBack (front_message room.now self.old)) }
        ensures no_memory { OnErr result (0 < waiting self.old) }
        ensures kept { IsSnapshotText room.now snapshot.new }
    {
        let text = self.front_text(alloc, room, snapshot, counts)?;
        self.count_front(text.as_ref(), counts);
        load::drop_front(&mut self.outbox, &mut self.load, self.budget);
        Ok(text)
    }

    /// The text of the message at the front of the outbox. Counts what a snapshot cost.
    fn front_text(
        &self,
        alloc: Global,
        room: &Room,
        snapshot: &mut SnapshotText,
        counts: &mut MessageCounts,
    ) -> Result<Option<ByteStr>, AllocError>
        requires kept { IsSnapshotText room.now snapshot.old }
        ensures text { IfOk result (λ text.
            text ≡ option_map message_text (front_message room.now self.now)) }
        ensures empty { result ≡ Ok None → waiting self.now ≡ 0 }
        ensures reads_back { OnOk result (ReadsBack (front_message room.now self.now)) }
        ensures no_memory { OnErr result (0 < waiting self.now) }
        ensures kept { IsSnapshotText room.now snapshot.new }
    {
        match self.outbox.front() {
            Front::Nothing => Ok(None),
            Front::Reply(reply) => Ok(Some(ByteStr::from_string(reply.get().text(alloc)?)?)),
            Front::Patch(encoded_patch) => Ok(Some(encoded_patch.text()?)),
            Front::Snapshot => {
                let Some(view) = &self.view else {
                    unreachable!()
                };
                Ok(Some(snapshot.draw(alloc, room, view, counts)?))
            }
        }
    }

    /// Counts the message at the front of the outbox, which has this text, and what it cost, unless
    /// it is a snapshot.
    fn count_front(&self, text: Option<&ByteStr>, counts: &mut MessageCounts) {
        let Some(text) = text else {
            return;
        };
        let bytes = text.len() as u64;
        match self.outbox.front() {
            Front::Nothing => {}
            Front::Reply(reply) => {
                counts.count_reply(reply.get());
                counts.count_cost(cost::drawing(bytes));
            }
            Front::Patch(_) => {
                counts.count_patch();
                counts.count_cost(cost::drawing(bytes));
            }
            Front::Snapshot => counts.count_snapshot(self.due_for),
        }
    }

    /// The number of messages that wait, that is, of draws that would return a text now.
    pub fn waiting(&self) -> u64
        ensures { result ≡ waiting self.now }
    {
        self.outbox.replies() + self.outbox.patches() + u64::from(self.outbox.is_due())
    }
}
