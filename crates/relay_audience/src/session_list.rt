//! The numbers of some sessions, in ascending order.
ghost use Rattle.std.specs.Prelude.{◌≡◌, [], ◌∷◌, nat_eq, IfOk, OnOk, OnErr};
ghost use Rattle.std.specs.List.{list_any};
ghost use Rattle.relay_audience.specs.Sessions.{inserted, is_empty, removed, IsRising};

use std::alloc::{AllocError, Global};
use std::marker::Model;

/// Session numbers in ascending order, each once. Contracts see them as that list.
///
/// ```
/// let mut audiences = Audiences::new(alloc);
/// let cards = View::read(alloc, &read(alloc, r#"["/cards"]"#).ok()?).ok()?;
/// audiences.watch(alloc, 7, None, cards).ok()?;
/// let cards = View::read(alloc, &read(alloc, r#"["/cards"]"#).ok()?).ok()?;
/// audiences.watch(alloc, 3, None, cards).ok()?;
/// assert!(rt; audiences.all()[0].sessions.as_slice() == [3, 7].as_slice());
/// ```
#[derive(Drop)]
pub struct SessionList {
    numbers: Vec<u64>,
}

impl Model for SessionList {
    ghost use Rattle.std.specs.Prelude.{ℕ, List};
    ghost use Rattle.std.specs.Coded.{coded_ℕ, coded_list};
    ghost use Rattle.relay_audience.specs.Sessions.{IsRising};

    ghost Value = { List ℕ };

    ghost coded = { coded_list coded_ℕ };

    ghost view = { λ s. s.numbers.items };

    ghost invariant = { λ s. IsRising s.numbers.items };
}

impl SessionList {
    /// Creates a list of one session.
    pub(crate) fn of(alloc: Global, session: u64) -> Result<SessionList, AllocError>
        ensures { IfOk result (λ sessions. sessions ≡ session ∷ []) }
    {
        let mut numbers = Vec::with_capacity(alloc, 1)?;
        numbers.push(session)?;
        Ok(SessionList { numbers })
    }

    /// Borrows the numbers.
    ///
    /// ```
    /// let mut audiences = Audiences::new(alloc);
    /// let cards = View::read(alloc, &read(alloc, r#"["/cards"]"#).ok()?).ok()?;
    /// audiences.watch(alloc, 7, None, cards).ok()?;
    /// assert!(rt; audiences.all()[0].sessions.as_slice() == [7].as_slice());
    /// ```
    pub fn as_slice(&self) -> &[u64]
        ensures same { result.now ≡ self.now }
        ensures rising { IsRising self.now }
    {
        self.numbers.as_slice()
    }

    /// Returns true if the session is there. A binary search.
    ///
    /// ```
    /// let mut audiences = Audiences::new(alloc);
    /// let cards = View::read(alloc, &read(alloc, r#"["/cards"]"#).ok()?).ok()?;
    /// audiences.watch(alloc, 7, None, cards).ok()?;
    /// let sessions = &audiences.all()[0].sessions;
    /// assert!(rt; sessions.contains(7) && !sessions.contains(8));
    /// ```
    pub fn contains(&self, session: u64) -> bool
        ensures { result ≡ list_any (nat_eq session) self.now }
    {
        contains(self.numbers.as_slice(), session)
    }

    /// Returns true if there are none.
    pub(crate) fn is_empty(&self) -> bool
        ensures { result ≡ is_empty self.now }
    {
        self.numbers.is_empty()
    }

    /// Adds a session, unless it is there. If memory runs out, nothing changes. Costs a binary
    /// search, and a move of the higher numbers.
    pub(crate) fn insert(&mut self, session: u64) -> Result<(), AllocError>
        ensures ok { OnOk result (self.new ≡ inserted session self.old) }
        ensures err { OnErr result (self.new ≡ self.old) }
    {
        insert(&mut self.numbers, session)
    }

    /// Removes a session, if it is there. Allocates nothing. Costs a binary search, and a move of
    /// the higher numbers.
    pub(crate) fn remove(&mut self, session: u64)
        ensures { self.new ≡ removed session self.old }
    {
        remove(&mut self.numbers, session);
    }
}

/// Returns true if a number is there.
fn contains(numbers: &[u64], number: u64) -> bool
    requires { IsRising numbers.now }
    ensures { result ≡ list_any (nat_eq number) numbers.now }
{
    match numbers.binary_search(&number) {
        Ok(_) => true,
        Err(_) => false,
    }
}

/// Inserts a number at its place.
fn insert(numbers: &mut Vec<u64>, number: u64) -> Result<(), AllocError>
    requires rising { IsRising numbers.old.items }
    ensures ok { OnOk result (numbers.new.items ≡ inserted number numbers.old.items) }
    ensures err { OnErr result (numbers.new.items ≡ numbers.old.items) }
    ensures rising { IsRising numbers.new.items }
{
    match numbers.binary_search(&number) {
        Ok(_) => Ok(()),
        Err(place) => {
            numbers.insert(place, number)?;
            Ok(())
        }
    }
}

/// Removes a number that may be there.
fn remove(numbers: &mut Vec<u64>, number: u64)
    requires rising { IsRising numbers.old.items }
    ensures same { numbers.new.items ≡ removed number numbers.old.items }
    ensures rising { IsRising numbers.new.items }
{
    if let Ok(place) = numbers.binary_search(&number) {
        numbers.remove(place);
    }
}
