//! The cost that a connection may have before others have their turns.
ghost use Rattle.std.specs.Prelude.{◌≡◌, ◌≤◌, ◌+◌, ◌-◌, ◌^◌, ◌||◌, min, nat_le, false};
ghost use Rattle.relay_schedule.specs.Credit.{debt_of, left, has_credit, renewed};
ghost use Rattle.relay_schedule.specs.declared.credit.TheConstants.{ROUND_CREDIT, ENTRY_DEBT};
ghost use Rattle.relay_schedule.specs.declared.credit.TheConstants.{HEAVY_TURN};

/// The credit that a round gives, in microseconds.
pub const ROUND_CREDIT: u64 = 20_000;

/// The credit that a new connection owes: eight rounds' credit. So its first texts wait behind
/// those of connections that are known to cost little.
pub const ENTRY_DEBT: u64 = 160_000;

/// The cost of a turn, in microseconds, from which on a debt is heavy.
pub const HEAVY_TURN: u64 = 2_000;

/// The debt of a connection, by what its turns cost since it last had credit.
///
/// ```
/// let mut credit = Credit::of_new(0);
/// credit.charge(HEAVY_TURN - 1);
/// assert!(rt; credit.debt() == Debt::Light);
/// credit.charge(HEAVY_TURN);
/// assert!(rt; credit.debt() == Debt::Heavy);
/// ```
#[derive(Clone, Copy, Debug, PartialEq, Eq)]
pub enum Debt {
    /// Each of them cost less than [`HEAVY_TURN`]; there may have been none.
    Light,
    /// One cost that, or more.
    Heavy,
}

/// The part of its credit that a connection spent, in microseconds, and the round in which it was
/// last given some.
///
/// ```
/// let mut credit = Credit::fresh(1);
/// credit.charge(ROUND_CREDIT);
/// assert!(rt; !credit.is_left());
/// credit.renew(2);
/// assert!(rt; credit.left() == ROUND_CREDIT);
/// ```
#[derive(Clone, Copy, Debug, PartialEq, Eq)]
pub struct Credit {
    pub spent: u64,
    pub round: u64,
    /// True if a turn cost [`HEAVY_TURN`] or more since a round last left it with credit.
    pub is_heavy: bool,
}

impl Credit {
    /// The credit of a new connection, which owes [`ENTRY_DEBT`].
    ///
    /// ```
    /// let mut credit = Credit::of_new(0);
    /// for round in 1..9 {
    ///     credit.renew(round);
    /// }
    /// // Eight rounds pay what it owed.
    /// assert!(rt; !credit.is_left());
    /// credit.renew(9);
    /// assert!(rt; credit.left() == ROUND_CREDIT);
    /// ```
    pub fn of_new(round: u64) -> Credit
        ensures { result
            ≡ record { spent = ROUND_CREDIT + ENTRY_DEBT; round = round; is_heavy = false } }
    {
        Credit {
            spent: ROUND_CREDIT + ENTRY_DEBT,
            round,
            is_heavy: false,
        }
    }

    /// A credit of which nothing was spent.
    ///
    /// ```
    /// assert!(rt; Credit::fresh(1).left() == ROUND_CREDIT);
    /// ```
    pub fn fresh(round: u64) -> Credit
        ensures { result ≡ record { spent = 0; round = round; is_heavy = false } }
    {
        Credit {
            spent: 0,
            round,
            is_heavy: false,
        }
    }

    /// Takes what a turn cost.
    ///
    /// ```
    /// let mut credit = Credit::fresh(1);
    /// credit.charge(5_000);
    /// assert!(rt; credit.left() == 15_000);
    /// ```
    pub fn charge(&mut self, cost: u64)
        ensures spent { self.new.spent ≡ min (2 ^ 64 - 1) (self.old.spent + cost) }
        ensures round { self.new.round ≡ self.old.round }
        ensures heavy { self.new.is_heavy ≡ (self.old.is_heavy || nat_le HEAVY_TURN cost) }
    {
        self.spent = self.spent.saturating_add(cost);
        self.is_heavy = self.is_heavy || cost >= HEAVY_TURN;
    }

    /// Gives a round's credit, once a round. What is left never exceeds it. A debt that this pays
    /// is no longer heavy.
    ///
    /// ```
    /// let mut credit = Credit::fresh(1);
    /// credit.charge(45_000);
    /// credit.renew(2);
    /// credit.renew(2);
    /// assert!(rt; credit.spent == 25_000 && credit.debt() == Debt::Heavy);
    /// credit.renew(3);
    /// assert!(rt; credit.spent == 5_000 && credit.debt() == Debt::Light);
    /// ```
    pub fn renew(&mut self, round: u64)
        ensures renewed { self.new ≡ renewed round self.old }
        ensures bounded { left self.new ≤ ROUND_CREDIT }
    {
        if self.round < round {
            self.spent = self.spent.saturating_sub(ROUND_CREDIT);
            self.round = round;
            self.is_heavy = self.is_heavy && self.spent >= ROUND_CREDIT;
        }
    }

    /// The debt that it is once nothing is left.
    ///
    /// ```
    /// assert!(rt; Credit::of_new(0).debt() == Debt::Light);
    /// ```
    pub fn debt(self) -> Debt
        ensures { result ≡ debt_of self }
    {
        if self.is_heavy {
            Debt::Heavy
        } else {
            Debt::Light
        }
    }

    /// True if any is left.
    ///
    /// ```
    /// let mut credit = Credit::fresh(1);
    /// credit.charge(ROUND_CREDIT - 1);
    /// assert!(rt; credit.is_left());
    /// credit.charge(1);
    /// assert!(rt; !credit.is_left());
    /// ```
    pub fn is_left(self) -> bool
        ensures { result ≡ has_credit self }
    {
        self.spent < ROUND_CREDIT
    }

    /// The credit that is left, which is at most a round's.
    ///
    /// ```
    /// let mut credit = Credit::fresh(1);
    /// credit.charge(25_000);
    /// assert!(rt; credit.left() == 0);
    /// credit.renew(2);
    /// assert!(rt; credit.left() == 15_000);
    /// ```
    pub fn left(self) -> u64
        ensures left { result ≡ left self }
        ensures bounded { result ≤ ROUND_CREDIT }
    {
        ROUND_CREDIT.saturating_sub(self.spent)
    }
}
