//! In which rooms clients may enter.
ghost use Rattle.std.specs.Prelude.{◌≡◌, ◌≢◌, ◌↔◌, ℕ, List, true, false, IfErr, IsErr, IsErrOf};
ghost use Rattle.std.specs.Prelude.{OnOk, OnErr};
ghost use Rattle.relay_link.specs.Entrance.{lets_in, is_closed, is_full};

use crate::entrance_fault::EntranceFault;
use indexmap::IndexSet;
use std::alloc::Global;

/// In which rooms a good handshake opens a session.
///
/// ```
/// let mut entrance = Entrance::closed(alloc);
/// entrance.admit(alloc, "board", 64).ok()?;
/// assert!(rt; entrance.lets_in("board") && !entrance.lets_in("lobby"));
/// ```
#[derive(Drop)]
pub enum Entrance {
    /// Clients may enter every room.
    Open,
    /// In the rooms of these names alone. For another one the reply is 503, and says that the
    /// client may try again after a second.
    Only(IndexSet<String>),
}

impl Entrance {
    /// An entrance that lets clients into no room. Allocates nothing.
    ///
    /// ```
    /// assert!(rt; !Entrance::closed(alloc).lets_in("board"));
    /// ```
    pub fn closed(alloc: Global) -> Entrance
        ensures none { (room : List ℕ) → lets_in result room ≡ false }
        ensures closed { is_closed result ≡ true }
    {
        Entrance::Only(IndexSet::new(alloc))
    }

    /// Returns true if clients may enter no room. Allocates nothing.
    ///
    /// ```
    /// let mut entrance = Entrance::closed(alloc);
    /// assert!(rt; entrance.is_closed());
    /// entrance.admit(alloc, "board", 64).ok()?;
    /// assert!(rt; !entrance.is_closed());
    /// ```
    pub fn is_closed(&self) -> bool
        ensures { result ≡ is_closed self.now }
    {
        matches!(self, Entrance::Only(names) if names.is_empty())
    }

    /// Returns true if clients may enter the room of a name. Allocates nothing.
    ///
    /// ```
    /// assert!(rt; Entrance::Open.lets_in("board") && !Entrance::closed(alloc).lets_in("board"));
    /// ```
    pub fn lets_in(&self, room: &str) -> bool
        ensures { result ≡ lets_in self.now room.now }
    {
        match self {
            Entrance::Open => true,
            Entrance::Only(names) => names.contains(room),
        }
    }

    /// Lets clients into the room of a name too. `Full`: as many names are there as given, and this
    /// one is not among them. An error leaves it as it was. No other room is let in or kept out.
    ///
    /// ```
    /// let mut entrance = Entrance::closed(alloc);
    /// entrance.admit(alloc, "board", 1).ok()?;
    /// assert!(rt; entrance.lets_in("board") && entrance.admit(alloc, "board", 1).is_ok());
    /// assert!(rt; entrance.admit(alloc, "lobby", 1) == Err(EntranceFault::Full));
    /// ```
    pub fn admit(&mut self, alloc: Global, room: &str, most: u64) -> Result<(), EntranceFault>
        ensures admitted { OnOk result (lets_in self.new room.now ≡ true) }
        ensures full { IsErrOf result EntranceFault.Full
            ↔ (is_full self.old room.now most ≡ true) }
        ensures fault { IfErr result (λ fault. fault ≢ EntranceFault.AllOpen) }
        ensures unchanged { OnErr result
            ((name : List ℕ) → lets_in self.new name ≡ lets_in self.old name) }
        ensures others { (name : List ℕ) → name ≢ room.now →
            lets_in self.new name ≡ lets_in self.old name }
    {
        let Entrance::Only(names) = self else {
            return Ok(());
        };
        if names.contains(room) {
            return Ok(());
        }
        if names.len() as u64 >= most {
            return Err(EntranceFault::Full);
        }
        let name = String::from_str(alloc, room)?;
        match names.insert(name) {
            Ok(_) => Ok(()),
            Err(_) => Err(EntranceFault::NoMemory),
        }
    }

    /// Keeps clients out of the room of a name, and lets them into the others as before. `AllOpen`:
    /// they may enter every room, and nothing is changed. Allocates nothing.
    ///
    /// ```
    /// let mut entrance = Entrance::closed(alloc);
    /// entrance.admit(alloc, "board", 64).ok()?;
    /// entrance.exclude("board").ok()?;
    /// assert!(rt; !entrance.lets_in("board"));
    /// ```
    pub fn exclude(&mut self, room: &str) -> Result<(), EntranceFault>
        ensures excluded { OnOk result (lets_in self.new room.now ≡ false) }
        ensures all_open { IsErr result ↔ (self.old ≡ Entrance.Open) }
        ensures fault { IfErr result (λ fault. fault ≡ EntranceFault.AllOpen) }
        ensures unchanged { OnErr result (self.new ≡ self.old) }
        ensures others { (name : List ℕ) → name ≢ room.now →
            lets_in self.new name ≡ lets_in self.old name }
    {
        let Entrance::Only(names) = self else {
            return Err(EntranceFault::AllOpen);
        };
        let _ = names.swap_remove(room);
        Ok(())
    }
}
