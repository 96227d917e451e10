//! A sum with a bound: the microseconds of a round's turns, or the bytes that a pass has drawn.
ghost use Rattle.std.specs.Prelude.{◌≡◌, ◌≤◌, ◌<◌, ◌+◌, ◌-◌, ◌^◌, min, nat_lt};

/// The amount that was spent, and the bound at which no other turn begins. The unit is the
/// caller's.
///
/// ```
/// let mut spending = Spending::within(5_000);
/// spending.spend(4_999);
/// assert!(rt; spending.allows_more());
/// spending.spend(1);
/// assert!(rt; !spending.allows_more());
/// ```
#[derive(Clone, Copy, Debug, PartialEq, Eq)]
pub struct Spending {
    pub spent: u64,
    pub bound: u64,
}

impl Spending {
    /// A sum of 0, with this bound.
    ///
    /// ```
    /// assert!(rt; Spending::within(5_000) == Spending { spent: 0, bound: 5_000 });
    /// ```
    pub fn within(bound: u64) -> Spending
        ensures { result ≡ record { spent = 0; bound = bound } }
    {
        Spending { spent: 0, bound }
    }

    /// True if another turn may begin: the turns so far cost less than the bound together.
    ///
    /// ```
    /// assert!(rt; Spending { spent: 4_999, bound: 5_000 }.allows_more());
    /// assert!(rt; !Spending { spent: 5_000, bound: 5_000 }.allows_more());
    /// ```
    pub fn allows_more(self) -> bool
        ensures { result ≡ nat_lt self.spent self.bound }
    {
        self.spent < self.bound
    }

    /// Adds what a turn cost. If the turn could begin, the turns before it cost less than the
    /// bound.
    ///
    /// ```
    /// let mut spending = Spending::within(5_000);
    /// spending.spend(300);
    /// assert!(rt; spending.spent == 300);
    /// ```
    pub fn spend(&mut self, cost: u64)
        ensures spent { self.new.spent ≡ min (2 ^ 64 - 1) (self.old.spent + cost) }
        ensures bound { self.new.bound ≡ self.old.bound }
        ensures bounded { self.old.spent < self.old.bound → self.new.spent < self.old.bound + cost }
    {
        self.spent = self.spent.saturating_add(cost);
    }
}
