//! The wills of a hub as a store has them.
ghost use Rattle.std.specs.Prelude.{◌≡◌, List as list_of, IfOk, map};
ghost use Rattle.std.specs.List.{flat_map};
ghost use Rattle.relay_hub.specs.Log.{Bequest};
ghost use Rattle.relay_store.specs.Kept.{Kept};
ghost use Rattle.relay_store.specs.Texts.{owned};
ghost use Rattle.relay_keeping.specs.LeftWills.{AreLeft, AreNotedAsEarlier};
ghost use Rattle.relay_keeping.specs.Wills.{HasFound, NotesWills, drop_change, left_change};
ghost use Rattle.relay_keeping.specs.Wills.{wills_of};

use crate::found_wills::{FoundWills, UNKNOWN};
use crate::left_wills::LeftWills;
use indexmap::IndexMap;
use relay_hub::Hub;
use relay_store::Change;
use std::alloc::{AllocError, Global};
use std::mem;

/// The wills that are kept: their numbers, by their sessions.
#[derive(Drop)]
pub(crate) struct KeptWills {
    noted: IndexMap<u64, u64>,
    /// The memory of the numbers that a round finds.
    spare: IndexMap<u64, u64>,
}

impl KeptWills {
    /// Notes the wills that an earlier run left, so that none of them is taken for the will of a
    /// session of this run that has the same number.
    pub(crate) fn of_earlier_run(alloc: Global, left: &LeftWills) -> Result<KeptWills, AllocError>
        ensures { (kept : Kept) → AreLeft kept left.now → IfOk result (λ wills.
            AreNotedAsEarlier kept.wills wills.noted.entries) }
    {
        let mut noted = IndexMap::new(alloc);
        for index in 0..left.wills.len() {
            let Some((session, _)) = left.wills.get_index(index) else {
                unreachable!()
            };
            let _ = noted.insert(*session, UNKNOWN)?;
        }
        Ok(KeptWills {
            noted,
            spare: IndexMap::new(alloc),
        })
    }

    /// Finds the wills of the hub, and the changes that keep them: each that is noted is dropped if
    /// its session has none any more, and each that is not noted with its number is left.
    pub(crate) fn find(&mut self, alloc: Global, hub: &Hub) -> Result<FoundWills, AllocError>
        ensures same { self.new.noted ≡ self.old.noted }
        ensures found { IfOk result (HasFound self.old.noted.entries (wills_of hub.now)) }
    {
        let mut numbers = mem::replace(&mut self.spare, IndexMap::new(alloc));
        numbers.clear();
        let mut found = FoundWills {
            numbers,
            changes: Vec::new(alloc),
        };
        found.find_waiting(alloc, &self.noted, hub)?;
        found.find_open(alloc, &self.noted, hub)?;
        self.with_drops(alloc, found)
    }

    /// Adds the changes that drop wills before those that leave some.
    fn with_drops(&self, alloc: Global, found: FoundWills) -> Result<FoundWills, AllocError>
        ensures { (wills : list_of Bequest) → NotesWills found.numbers.entries wills
            → map owned found.changes.items ≡ flat_map (left_change self.now.noted.entries) wills
            → IfOk result (HasFound self.now.noted.entries wills) }
    {
        let FoundWills {
            numbers,
            changes: mut left,
        } = found;
        let mut changes = self.drops(alloc, &numbers)?;
        changes.append(&mut left)?;
        Ok(FoundWills { numbers, changes })
    }

    /// The changes that drop the wills of sessions that have none any more.
    fn drops(
        &self,
        alloc: Global,
        numbers: &IndexMap<u64, u64>,
    ) -> Result<Vec<Change<String>>, AllocError>
        ensures { (wills : list_of Bequest) → NotesWills numbers.now.entries wills
            → IfOk result (λ changes. map owned changes.items
            ≡ flat_map (drop_change wills) self.now.noted.entries) }
    {
        let mut changes = Vec::new(alloc);
        for index in 0..self.noted.len() {
            let Some((session, _)) = self.noted.get_index(index) else {
                unreachable!()
            };
            if !numbers.contains_key(session) {
                changes.push(Change::DropWill { session: *session })?;
            }
        }
        Ok(changes)
    }

    /// Notes the wills that were found. Allocates nothing.
    pub(crate) fn note(&mut self, found: FoundWills)
        ensures { self.new.noted ≡ found.numbers }
    {
        self.spare = mem::replace(&mut self.noted, found.numbers);
    }
}
