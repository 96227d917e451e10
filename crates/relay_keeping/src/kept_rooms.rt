//! The rooms of a hub as a store has them.
ghost use Rattle.std.specs.Prelude.{◌≡◌, Some, IfOk, IfSome, IsTrue, map, option_map, slice_get};
ghost use Rattle.std.specs.Prelude.{ℕ, List as list_of, [], ◌∷◌, ◌<◌, ◌≤◌, OnOk, length, unwrap_or};
ghost use Rattle.std.specs.Prelude.{string_bytes};
ghost use Rattle.relay_hub.specs.Summary.{shown_by, summary_of};
ghost use Rattle.relay_hub.specs.State.{RoomSessions};
ghost use Rattle.relay_store.specs.Texts.{lent};
ghost use Rattle.relay_keeping.specs.News.{AreNews, HasNews, HavePlaces, changes_of, ended_by};
ghost use Rattle.relay_keeping.specs.News.{noted_by, risen};
ghost use Rattle.relay_keeping.specs.Noted.{IsSame, is_other, noted_at, noted_in, noted_room};
ghost use Rattle.relay_keeping.specs.Noted.{revision_of};

use crate::kept_room::{KeptRoom, KeptTexts};
use crate::news::News;
use crate::whole_view::WholeView;
use relay_hub::{Hub, RoomSummary};
use relay_store::Change;
use std::alloc::{AllocError, Global};

/// The rooms that are kept, and the floor.
#[derive(Drop)]
pub(crate) struct KeptRooms {
    whole: WholeView,
    /// The rooms, by their indexes in the hub.
    rooms: Vec<Option<KeptRoom>>,
    floor: u64,
}

impl KeptRooms {
    pub(crate) fn new(whole: WholeView, rooms: Vec<Option<KeptRoom>>, floor: u64) -> KeptRooms
        ensures rooms { result.rooms ≡ rooms }
        ensures floor { result.floor ≡ floor }
    {
        KeptRooms {
            whole,
            rooms,
            floor,
        }
    }

    /// The floor of the hub, if it is higher than the one that is kept.
    pub(crate) fn risen(&self, hub: &Hub) -> Option<u64>
        ensures { result ≡ risen self.now.floor hub.now.floor }
    {
        let floor = hub.floor();
        if self.floor < floor {
            Some(floor)
        } else {
            None
        }
    }

    /// The news of each room, by rising index.
    pub(crate) fn news(&self, alloc: Global, hub: &Hub) -> Result<Vec<News>, AllocError>
        ensures { IfOk result (λ news. AreNews (noted_in self.now) 0 hub.now.rooms news.items) }
    {
        let mut all = Vec::new(alloc);
        for index in 0..usize::MAX {
            let Some(room) = hub.room_at(index) else {
                return Ok(all);
            };
            if let Some(news) = self.news_of(alloc, hub, index, room)? {
                all.push(news)?;
            }
        }
        // No memory has so many rooms.
        Err(AllocError)
    }

    /// The news of the room at an index; `None` if it is kept as it is.
    fn news_of(
        &self,
        alloc: Global,
        hub: &Hub,
        index: usize,
        room: RoomSummary<'_>,
    ) -> Result<Option<News>, AllocError>
        ensures { (there : list_of ℕ × RoomSessions) → slice_get hub.now.rooms index ≡ Some there
            → shown_by room.entry ≡ summary_of there
            → IfOk result (HasNews (noted_at (noted_in self.now) index) index there) }
    {
        if self.is_at(index, room.name, room.revision) {
            return Ok(None);
        }
        let held = self.leads_on_from(index, room.name);
        let Some(update) = hub.update_since(alloc, index, held, self.whole.view())? else {
            return Ok(None);
        };
        Ok(Some(News {
            index,
            name: String::from_str(alloc, room.name)?,
            update,
            replaces: self.is_other(index, room.name),
        }))
    }

    /// The room that is kept at an index.
    fn kept_at(&self, index: usize) -> Option<&KeptRoom>
        ensures { option_map (λ kept. noted_room kept.now) result
            ≡ noted_at (noted_in self.now) index }
    {
        self.rooms.get(index)?.as_ref()
    }

    /// The texts of the room that is kept at an index, if it has that name.
    fn texts_of(&self, index: usize, name: &str) -> Option<KeptTexts>
        ensures { option_map (λ texts. texts.revision) result
            ≡ revision_of name.now (noted_at (noted_in self.now) index) }
    {
        match self.kept_at(index) {
            Some(kept) if kept.name.as_str() == name => Some(kept.texts),
            _ => None,
        }
    }

    /// The revision behind which the next patch of the room of that name leads on, if it is kept at
    /// an index; `None` if a new record begins.
    fn leads_on_from(&self, index: usize, name: &str) -> Option<u64>
        ensures { IfSome result (λ rev.
            revision_of name.now (noted_at (noted_in self.now) index) ≡ Some rev) }
    {
        self.texts_of(index, name)?.leads_on_from()
    }

    /// True if the room of that name is kept at an index, at this revision.
    fn is_at(&self, index: usize, name: &str, revision: u64) -> bool
        ensures { IsTrue result
            → revision_of name.now (noted_at (noted_in self.now) index) ≡ Some revision }
    {
        match self.texts_of(index, name) {
            Some(texts) => texts.revision == revision,
            None => false,
        }
    }

    /// True if a room of another name is kept at an index.
    fn is_other(&self, index: usize, name: &str) -> bool
        ensures { result ≡ is_other name.now (noted_at (noted_in self.now) index) }
    {
        match self.kept_at(index) {
            Some(kept) => kept.name.as_str() != name,
            None => false,
        }
    }

    /// Takes the memory for what is kept of these rooms.
    pub(crate) fn admit(&mut self, news: &[News]) -> Result<(), AllocError>
        ensures same { IsSame self.old self.new }
        ensures places { OnOk result (HavePlaces self.new news.now) }
    {
        for new in news {
            self.admit_at(new.index)?;
        }
        Ok(())
    }

    /// Takes the memory for what is kept of the room at an index.
    fn admit_at(&mut self, index: usize) -> Result<(), AllocError>
        ensures same { IsSame self.old self.new }
        ensures longer { length self.old.rooms.items ≤ length self.new.rooms.items }
        ensures place { OnOk result (index < length self.new.rooms.items) }
    {
        while self.rooms.len() <= index {
            self.rooms.push(None)?;
        }
        Ok(())
    }

    /// The changes of a store for these news: first the rooms that ended, since a room of the same
    /// name may have begun at another index.
    pub(crate) fn changes<'a>(
        &'a self,
        alloc: Global,
        news: &'a [News],
        floor: Option<u64>,
    ) -> Result<Vec<Change<&'a str>>, AllocError>
        ensures { IfOk result (λ changes.
            map lent changes.items ≡ changes_of (noted_in self.now) news.now floor) }
    {
        let mut changes = Vec::with_capacity(alloc, news.len())?;
        for new in news {
            if let Some(ended) = self.ended_by(new) {
                changes.push(ended)?;
            }
        }
        for new in news {
            changes.push(new.change())?;
        }
        if let Some(revision) = floor {
            changes.push(Change::RaiseFloor { revision })?;
        }
        Ok(changes)
    }

    /// The end of the room that another one has replaced.
    fn ended_by(&self, new: &News) -> Option<Change<&str>>
        ensures { option_map lent result ≡ ended_by (noted_in self.now) new.now }
    {
        if !new.replaces {
            return None;
        }
        let room = self.kept_at(new.index)?.name.as_str();
        Some(Change::End { room })
    }

    /// Notes that these news are kept, and the floor, if it rose. Allocates nothing.
    pub(crate) fn note(&mut self, mut news: Vec<News>, floor: Option<u64>)
        ensures rooms { HavePlaces self.old news.items → (index : ℕ)
            → noted_at (noted_in self.new) index
            ≡ noted_by index news.items (noted_at (noted_in self.old) index) }
        ensures floor { self.new.floor ≡ unwrap_or floor self.old.floor }
    {
        while let Some(new) = news.pop() {
            self.note_room(new);
        }
        self.floor = floor.unwrap_or(self.floor);
    }

    /// Notes that the news of a room are kept.
    fn note_room(&mut self, new: News)
        ensures room { new.index < length self.old.rooms.items → (index : ℕ)
            → noted_at (noted_in self.new) index
            ≡ noted_by index (new ∷ []) (noted_at (noted_in self.old) index) }
        ensures places { length self.new.rooms.items ≡ length self.old.rooms.items }
        ensures floor { self.new.floor ≡ self.old.floor }
    {
        if let Some(kept) = self.rooms.get_mut(new.index) {
            note_in(kept, new);
        }
    }
}

/// Notes that the news of a room are kept: a snapshot begins its record.
fn note_in(kept: &mut Option<KeptRoom>, new: News)
    ensures { option_map noted_room kept.new ≡ Some (string_bytes new.name, new.update.revision) }
{
    let revision = new.update.revision;
    let length = new.update.text.len() as u64;
    let texts = match kept {
        Some(kept) if !new.update.is_snapshot => kept.texts.with_patch(revision, length),
        _ => KeptTexts::begun(revision, length),
    };
    *kept = Some(KeptRoom {
        name: new.name,
        texts,
    });
}
