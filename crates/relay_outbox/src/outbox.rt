//! Two ring buffers, one for replies and one for patches, allocated once, and a flag for a due
//! snapshot, which replaces patches that did not fit. So a slow reader costs a fixed number of
//! messages, and one snapshot in place of all that it missed.
use crate::busy::Busy;
use crate::fault::OutboxFault;
use crate::front::Front;
use circular_buffer::HeapCircularBuffer;
use relay_limits::MAX_WAITING_PATCHES;
use std::alloc::Global;
use std::marker::Model;

/// The most replies that may wait.
pub const MAX_REPLIES: u64 = 32;

/// The messages that wait for one session: replies `R` and patches `P`, in the form in which the
/// hub stores patches. Contracts see it as `Contents`: its replies, its patches, whether a snapshot
/// is due, and the most patches that may wait.
///
/// ```
/// let mut outbox: Outbox<&str, u64> = Outbox::new(alloc, 32).ok()?;
/// outbox.patch(1);
/// outbox.reply("done").ok()?;
/// // Replies come first.
/// assert!(rt; matches!(outbox.front(), Front::Reply(_)));
/// outbox.drop_front();
/// assert!(rt; matches!(outbox.front(), Front::Patch(1)));
/// ```
#[derive(Drop)]
pub struct Outbox<R, P> {
    replies: HeapCircularBuffer<R>,
    patches: HeapCircularBuffer<P>,
    due: bool,
}

impl<R, P> Model for Outbox<R, P> {
    ghost use Rattle.std.specs.Prelude.{◌≡◌};
    ghost use Rattle.relay_outbox.specs.Outbox.{Contents, IsOutbox, contents_code};
    ghost use Rattle.relay_outbox.specs.declared.outbox.TheConstants.{MAX_REPLIES};

    ghost Value = { Contents R P };

    ghost coded = { contents_code R.code P.code };

    ghost use Rattle.relay_outbox.specs.Representation.{contents_of};

    ghost view = { contents_of };

    ghost invariant = { λ o. (o.replies.capacity ≡ MAX_REPLIES) × IsOutbox (contents_of o) };
}

impl<R: Drop, P: Drop> Outbox<R, P> {
    ghost use Rattle.std.specs.Prelude.{◌≡◌, ◌<◌, ◌≤◌, ◌↔◌, ◌⊎◌, IfOk, IfErr, OnOk, OnErr, IsErr};
    ghost use Rattle.std.specs.Prelude.{IsErrOf, length};
    ghost use Rattle.relay_outbox.specs.Outbox.{IsOutbox, empty, with_reply, with_patch, folded};
    ghost use Rattle.relay_outbox.specs.Outbox.{cleared, front_of, without_front};
    ghost use Rattle.relay_outbox.specs.Front.{shown};

    /// Creates an empty outbox in which at most `max_waiting_patches` patches may wait. Allocates
    /// all the memory that its rings need. Returns `BadLimit` if `max_waiting_patches` is not 1 to
    /// [`MAX_WAITING_PATCHES`], and `NoMemory` if memory runs out.
    ///
    /// ```
    /// let outbox: Outbox<&str, u64> = Outbox::new(alloc, 32).ok()?;
    /// assert!(rt; outbox.replies() == 0 && outbox.patches() == 0 && !outbox.is_due());
    /// ```
    pub fn new(alloc: Global, max_waiting_patches: u64) -> Result<Outbox<R, P>, OutboxFault>
        ensures ok { IfOk result (λ outbox. outbox ≡ empty max_waiting_patches) }
        ensures bad_limit { IsErrOf result OutboxFault.BadLimit ↔
            ((max_waiting_patches < 1) ⊎ (MAX_WAITING_PATCHES < max_waiting_patches)) }
    {
        if max_waiting_patches < 1 || max_waiting_patches > MAX_WAITING_PATCHES {
            return Err(OutboxFault::BadLimit);
        }
        let replies = HeapCircularBuffer::with_capacity(alloc, MAX_REPLIES as usize)?;
        let patches = HeapCircularBuffer::with_capacity(alloc, max_waiting_patches as usize)?;
        Ok(Outbox {
            replies,
            patches,
            due: false,
        })
    }

    /// Adds a reply after the others. Returns `Busy` with the reply if [`MAX_REPLIES`] wait
    /// already; nothing changes then. Allocates nothing.
    ///
    /// ```
    /// let mut outbox: Outbox<&str, u64> = Outbox::new(alloc, 32).ok()?;
    /// outbox.reply("watching").ok()?;
    /// outbox.reply("done").ok()?;
    /// assert!(rt; matches!(outbox.front(), Front::Reply(reply) if *reply == "watching"));
    /// ```
    pub fn reply(&mut self, reply: R) -> Result<(), Busy<R>>
        ensures ok { OnOk result (self.new ≡ with_reply reply self.old) }
        ensures busy { IsErr result ↔ (length self.old.replies ≡ MAX_REPLIES) }
        ensures given_back { IfErr result (λ back. back.0 ≡ reply) }
        ensures unchanged { OnErr result (self.new ≡ self.old) }
    {
        self.replies.try_push_back(reply).map_err(Busy)
    }

    /// Adds a patch after the others. If a snapshot is due, nothing changes, since the snapshot
    /// will include the patch. If `max_waiting_patches` patches wait already, the outbox folds,
    /// which drops this patch too. Allocates nothing.
    ///
    /// ```
    /// let mut outbox: Outbox<&str, u64> = Outbox::new(alloc, 1).ok()?;
    /// outbox.patch(1);
    /// outbox.patch(2);
    /// outbox.reply("watching").ok()?;
    /// assert!(rt; outbox.patches() == 0 && outbox.is_due());
    /// assert!(rt; matches!(outbox.front(), Front::Reply(_)));
    /// outbox.drop_front();
    /// assert!(rt; matches!(outbox.front(), Front::Snapshot));
    /// ```
    pub fn patch(&mut self, patch: P)
        ensures { self.new ≡ with_patch patch self.old }
    {
        if !self.due && self.patches.try_push_back(patch).is_err() {
            self.fold();
        }
    }

    /// Drops the patches and makes a snapshot due in their place. The replies stay. Allocates
    /// nothing.
    ///
    /// ```
    /// let mut outbox: Outbox<&str, u64> = Outbox::new(alloc, 32).ok()?;
    /// outbox.patch(1);
    /// outbox.reply("done").ok()?;
    /// outbox.fold();
    /// assert!(rt; outbox.patches() == 0 && outbox.is_due() && outbox.replies() == 1);
    /// ```
    pub fn fold(&mut self)
        ensures { self.new ≡ folded self.old }
    {
        self.patches.clear();
        self.due = true;
    }

    /// Drops the patches and the due snapshot. The replies stay. Allocates nothing.
    ///
    /// ```
    /// let mut outbox: Outbox<&str, u64> = Outbox::new(alloc, 32).ok()?;
    /// outbox.patch(1);
    /// outbox.reply("unwatched").ok()?;
    /// outbox.clear();
    /// assert!(rt; outbox.patches() == 0 && !outbox.is_due() && outbox.replies() == 1);
    /// ```
    pub fn clear(&mut self)
        ensures { self.new ≡ cleared self.old }
    {
        self.fold();
        self.due = false;
    }

    /// Returns the next message: the first reply, else the first patch, else the due snapshot.
    /// Allocates nothing.
    ///
    /// ```
    /// let mut outbox: Outbox<&str, u64> = Outbox::new(alloc, 32).ok()?;
    /// outbox.patch(1);
    /// outbox.patch(2);
    /// assert!(rt; matches!(outbox.front(), Front::Patch(1)));
    /// assert!(rt; matches!(outbox.front(), Front::Patch(1)));
    /// ```
    pub fn front(&self) -> Front<'_, R, P>
        ensures { shown result ≡ front_of self.now }
    {
        if let Some(reply) = self.replies.front() {
            return Front::Reply(reply);
        }
        if let Some(patch) = self.patches.front() {
            return Front::Patch(patch);
        }
        if self.due {
            Front::Snapshot
        } else {
            Front::Nothing
        }
    }

    /// Removes the message that [`Outbox::front`] returns; changes nothing if nothing waits.
    /// Allocates nothing.
    ///
    /// ```
    /// let mut outbox: Outbox<&str, u64> = Outbox::new(alloc, 32).ok()?;
    /// outbox.patch(1);
    /// outbox.patch(2);
    /// outbox.drop_front();
    /// assert!(rt; matches!(outbox.front(), Front::Patch(2)));
    /// ```
    pub fn drop_front(&mut self)
        ensures { self.new ≡ without_front self.old }
    {
        if self.replies.pop_front().is_none() && self.patches.pop_front().is_none() {
            self.due = false;
        }
    }

    /// Returns whether a snapshot is due. If it is, no patch waits. Allocates nothing.
    ///
    /// ```
    /// let mut outbox: Outbox<&str, u64> = Outbox::new(alloc, 32).ok()?;
    /// outbox.fold();
    /// outbox.patch(1);
    /// // The snapshot shows what the patch would tell.
    /// assert!(rt; outbox.is_due() && outbox.patches() == 0);
    /// ```
    pub fn is_due(&self) -> bool
        ensures kept { IsOutbox self.now }
        ensures due { result ≡ self.now.due }
    {
        self.due
    }

    /// Returns the number of waiting replies. Allocates nothing.
    ///
    /// ```
    /// let mut outbox: Outbox<&str, u64> = Outbox::new(alloc, 32).ok()?;
    /// outbox.reply("watching").ok()?;
    /// assert!(rt; outbox.replies() == 1);
    /// ```
    pub fn replies(&self) -> u64
        ensures kept { IsOutbox self.now }
        ensures count { result ≡ length self.now.replies }
    {
        self.replies.len() as u64
    }

    /// Returns the number of waiting patches. Allocates nothing.
    ///
    /// ```
    /// let mut outbox: Outbox<&str, u64> = Outbox::new(alloc, 32).ok()?;
    /// outbox.patch(1);
    /// outbox.patch(2);
    /// assert!(rt; outbox.patches() == 2);
    /// ```
    pub fn patches(&self) -> u64
        ensures kept { IsOutbox self.now }
        ensures count { result ≡ length self.now.patches }
    {
        self.patches.len() as u64
    }
}
