//! The held output of links, of each and of all together.
//!
//! A link that holds unsent output has to send it at a pace, which is counted in stretches. The
//! first one begins when output begins to wait. In each stretch the stream has to take a sixteenth
//! at least of what was unsent as it began. Once it has, the next one begins; if it has not within
//! so many seconds as there is patience, the link is over due. Output that is drawn during a
//! stretch does not lengthen it, and is not due in it.
//!
//! There is a limit for all links together. The last quarter of it is a reserve for links that keep
//! up; while it is in use, there is less patience.
ghost use Rattle.std.specs.Prelude.{ℕ, ◌≡◌, ◌≤◌, ◌<◌, ◌+◌, ◌-◌, ◌*◌, ◌/◌, ◌^◌, max, min, nat_lt};
ghost use Rattle.std.specs.Prelude.{List, Bool, if◌then◌else◌, ◌&&◌, ◌||◌, false, not};
ghost use Rattle.relay_schedule.specs.Output.{loaded, began, due_after, is_over_due, sixteenth};
ghost use Rattle.relay_schedule.specs.Output.{limit_without_reserve};
ghost use Rattle.relay_schedule.specs.Output.{Turn, after_turns, taken_in, AreFrom, IsPaced};

/// The seconds within which a sixteenth of a link's output has to be taken.
pub const PATIENCE: u64 = 30;

/// The same while the reserve is in use ([`OutputTotal::is_crowded`]).
pub const CROWDED_PATIENCE: u64 = 2;

/// The unsent bytes with which a link no longer keeps up.
pub const BEHIND: u64 = 65_536;

/// The output of a link, in bytes: what was drawn and its stream has not taken, and the most that
/// this was at once. The link's buffer stays as large as that until the link ends.
///
/// ```
/// let mut output = LinkOutput::NONE;
/// output.note(500, 180, 60);
/// // A sixteenth of the 320 bytes is due until second 90.
/// assert!(rt; output == LinkOutput { unsent: 320, held: 500, began: 60, due: 20 });
/// ```
#[derive(Clone, Copy, Debug, PartialEq, Eq)]
pub struct LinkOutput {
    pub unsent: u64,
    pub held: u64,
    /// The second in which the present stretch began.
    pub began: u64,
    /// The number of bytes that the stream has still to take in it.
    pub due: u64,
}

/// The output of all links together, in bytes, and how much that may be.
///
/// ```
/// let mut total = OutputTotal::within(1_000);
/// let held = LinkOutput { held: 600, ..LinkOutput::NONE };
/// total.change(LinkOutput::NONE, held);
/// assert!(rt; total.held == 600 && !total.is_crowded() && !total.is_relieved());
/// ```
#[derive(Clone, Copy, Debug, PartialEq, Eq)]
pub struct OutputTotal {
    pub held: u64,
    pub most: u64,
}

impl LinkOutput {
    /// The output of a link that has drawn nothing.
    pub const NONE: LinkOutput = LinkOutput {
        unsent: 0,
        held: 0,
        began: 0,
        due: 0,
    };

    /// Notes a turn that drew so many bytes, and in which the stream took so many. Once it has
    /// taken what was due, a new stretch begins in this second with what is unsent now.
    ///
    /// ```
    /// let mut output = LinkOutput { unsent: 320, held: 320, began: 60, due: 20 };
    /// // 19 bytes are less than a sixteenth; one more is enough, and then 25 of 400 are due.
    /// output.note(100, 19, 70);
    /// assert!(rt; output == LinkOutput { unsent: 401, held: 420, began: 60, due: 1 });
    /// output.note(0, 1, 80);
    /// assert!(rt; output == LinkOutput { unsent: 400, held: 420, began: 80, due: 25 });
    /// ```
    pub fn note(&mut self, drawn: u64, taken: u64, second: u64)
        ensures unsent { self.new.unsent ≡ loaded self.old drawn - taken }
        ensures held { self.new.held ≡ max self.old.held (loaded self.old drawn) }
        ensures began { self.new.began ≡ began self.old taken second }
        ensures due { self.new.due ≡ due_after self.old taken self.new.unsent }
        ensures bounded { self.new.unsent ≤ self.new.held }
        ensures paced { IsPaced self.old → IsPaced self.new }
    {
        let most = self.unsent.saturating_add(drawn);
        self.unsent = most.saturating_sub(taken);
        self.held = self.held.max(most);
        if taken < self.due {
            self.due -= taken;
        } else {
            self.began = second;
            self.due = self.unsent.div_ceil(16);
        }
    }

    /// True if output waits, and the present stretch has lasted so many seconds as there is
    /// patience. So a link that takes, within each so many seconds, a sixteenth of what was unsent
    /// before them is never over due (`took_enough`). One that has taken less since a stretch began
    /// is over due once that was so many seconds ago (`took_little`).
    ///
    /// ```
    /// let mut output = LinkOutput { unsent: 320, held: 320, began: 60, due: 20 };
    /// output.note(0, 19, 89);
    /// assert!(rt; !output.is_over_due(89, PATIENCE) && output.is_over_due(90, PATIENCE));
    /// assert!(rt; output.is_over_due(62, CROWDED_PATIENCE));
    /// assert!(rt; !LinkOutput::NONE.is_over_due(90, PATIENCE));
    /// ```
    pub fn is_over_due(self, second: u64, patience: u64) -> bool
        ensures over_due { result ≡ is_over_due self second patience }
        ensures took_enough { (before : LinkOutput) (turns : List Turn) (from : ℕ)
            → IsPaced before → self ≡ after_turns turns before → AreFrom from turns
            → before.unsent ≤ 16 * taken_in turns → 0 < patience → second < from + patience
            → result ≡ false }
        ensures took_little { (begin : LinkOutput) (turns : List Turn)
            → IsPaced begin → begin.due ≡ sixteenth begin.unsent → self ≡ after_turns turns begin
            → 16 * taken_in turns < begin.unsent
            → result ≡ not (nat_lt (second - begin.began) patience) }
    {
        self.unsent > 0 && second.saturating_sub(self.began) >= patience
    }
}

impl OutputTotal {
    /// A total of 0, with this limit.
    ///
    /// ```
    /// let total = OutputTotal::within(1_000);
    /// assert!(rt; total.held == 0 && total.most == 1_000);
    /// ```
    pub fn within(most: u64) -> OutputTotal
        ensures { result ≡ record { held = 0; most = most } }
    {
        OutputTotal { held: 0, most }
    }

    /// True if three quarters of the limit are held: the rest is the reserve.
    ///
    /// ```
    /// assert!(rt; OutputTotal { held: 750, most: 1_000 }.is_crowded());
    /// assert!(rt; !OutputTotal { held: 749, most: 1_000 }.is_crowded());
    /// ```
    pub fn is_crowded(self) -> bool
        ensures { result ≡ not (nat_lt self.held (limit_without_reserve self.most)) }
    {
        self.held >= self.most - self.most / 4
    }

    /// True if a link may draw what is long: as long as there is room for all, and as long as the
    /// reserve lasts if less than [`BEHIND`] bytes of it are unsent.
    ///
    /// ```
    /// let total = OutputTotal { held: 999, most: 1_000 };
    /// assert!(rt; total.has_room_for(LinkOutput::NONE));
    /// assert!(rt; !total.has_room_for(LinkOutput { unsent: BEHIND, ..LinkOutput::NONE }));
    /// assert!(rt; !OutputTotal { held: 1_000, most: 1_000 }.has_room_for(LinkOutput::NONE));
    /// ```
    pub fn has_room_for(self, link: LinkOutput) -> bool
        ensures { result ≡ nat_lt self.held (if nat_lt link.unsent BEHIND then self.most
            else limit_without_reserve self.most) }
    {
        if link.unsent < BEHIND {
            self.held < self.most
        } else {
            !self.is_crowded()
        }
    }

    /// True if no more than half of that is held.
    ///
    /// ```
    /// assert!(rt; OutputTotal { held: 500, most: 1_000 }.is_relieved());
    /// assert!(rt; !OutputTotal { held: 501, most: 1_000 }.is_relieved());
    /// ```
    pub fn is_relieved(self) -> bool
        ensures { result ≡ not (nat_lt (self.most / 2) self.held) }
    {
        self.held <= self.most / 2
    }

    /// The output that each of so many links would hold if all held the same.
    ///
    /// ```
    /// assert!(rt; OutputTotal { held: 600, most: 1_000 }.share(3) == 200);
    /// ```
    pub fn share(self, links: usize) -> u64
        ensures { result ≡ self.held / max links 1 }
    {
        self.held / (links as u64).max(1)
    }

    /// Counts a link anew. What the others hold stays counted.
    ///
    /// ```
    /// let mut total = OutputTotal { held: 600, most: 1_000 };
    /// let old = LinkOutput { held: 200, ..LinkOutput::NONE };
    /// total.change(old, LinkOutput::NONE);
    /// assert!(rt; total.held == 400);
    /// ```
    pub fn change(&mut self, old: LinkOutput, new: LinkOutput)
        ensures most { self.new.most ≡ self.old.most }
        ensures sum { (others : ℕ) → self.old.held ≡ others + old.held
            → others + new.held < 2 ^ 64 → self.new.held ≡ others + new.held }
    {
        self.held = self.held.saturating_sub(old.held).saturating_add(new.held);
    }
}
