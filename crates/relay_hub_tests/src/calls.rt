//! The calls of a hub, as acts of rows. A number behind the word is a session, or the index of a
//! room.
use crate::shared::{Came, at_revision, number, owned, repeated, tree_of, words};
use crate::weights::WATCHING;
use bytes::ByteStr;
use relay_access::Access;
use relay_hub::{Hub, HubConfig, HubFault, MessageCounts, OpenFault, SessionWill, Will};
use relay_test_stream::{Subject, cut, play};
use relay_tree::{Budget, Tree};
use std::alloc::{AllocGlobal, Global};
use std::process::Abort;

/// The edit of [`long_edit`].
const LONG_EDIT: &str =
    r#"{"do":"edit","id":1,"patch":[{"op":"replace","path":"","value":"LETTERS"}]}"#;

/// Plays rows on a hub. One that is `new`, with words such as `history=64` behind it, goes on with
/// another hub. One that is `watching` stands for the rows of [`WATCHING`].
pub(crate) fn play_on_hubs(rt: &(impl Abort + AllocGlobal), rows: &str) {
    let rows = rows.replace(rt.alloc(), "\nwatching\n", WATCHING);
    let mut hubs = Hubs::new(rt);
    play(rt, &mut hubs, rows.expect(rt, "memory").as_str()).expect(rt, "each row holds");
}

/// The hub that acts are done to.
#[derive(Drop)]
struct Hubs {
    hub: Hub,
}

impl Hubs {
    fn new(rt: &(impl Abort + AllocGlobal)) -> Hubs {
        Hubs {
            hub: Hub::new(rt.alloc(), 1, 1, 64, 32).expect(rt, "a hub"),
        }
    }
}

impl<R: AllocGlobal> Subject<R> for Hubs {
    fn act(&mut self, rt: &R, act: &str) -> Option<String> {
        let alloc = rt.alloc();
        let (word, rest) = cut(act);
        let hub = &mut self.hub;
        match word {
            "new" => begin_anew(alloc, hub, config_of(rest)?),
            "open" => words(alloc, opened(alloc, hub, rest, Access::ReadWrite)),
            "open-to-watch" => words(alloc, opened(alloc, hub, rest, Access::ReadOnly)),
            "begin" => words(alloc, hub.open(alloc, rest, Access::ReadWrite)),
            "do-will" => words(alloc, hub.do_will(alloc)),
            "has-wills" => words(alloc, hub.has_wills()),
            "forget" => words(alloc, hub.forget(alloc, rest)),
            "adopt" => adopted(alloc, hub, rest),
            "raise-floor" => raised(alloc, hub, number(rest)?),
            "floor" => words(alloc, hub.floor()),
            "told" => words(alloc, hub.told().sessions.as_slice()),
            "shed" => give_memory_back(alloc, hub),
            "edits" => words(alloc, hub.edits()),
            "counts" => counted(alloc, hub.message_counts()),
            "costs" => words(alloc, lies_within(hub.cost(), rest)?),
            _ => act_on_one(alloc, hub, word, rest),
        }
    }
}

/// The number of the session.
fn opened(alloc: Global, hub: &mut Hub, room: &str, access: Access) -> Result<u64, OpenFault> {
    Ok(hub.open(alloc, room, access)?.session)
}

/// The outcome of an adoption. The name of the room, the revision and the document stand in one
/// text.
fn adopted(alloc: Global, hub: &mut Hub, said: &str) -> Came {
    let (room, rest) = cut(said);
    let (rev, text) = cut(rest);
    let document = document_of(alloc, text)?;
    words(alloc, hub.adopt(alloc, room, number(rev)?, document))
}

/// The document that a text spells. `letters` and `lists` stand for a text of so many letters, and
/// for so many lists in one another.
fn document_of(alloc: Global, text: &str) -> Option<Tree> {
    let (word, count) = cut(text);
    let text = match word {
        "letters" => {
            let letters = repeated(alloc, "a", number(count)?)?;
            format!(in alloc; "\"{letters}\"").ok()?
        }
        "lists" => {
            let opened = repeated(alloc, "[", number(count)?)?;
            let closed = repeated(alloc, "]", number(count)?)?;
            format!(in alloc; "{opened}{closed}").ok()?
        }
        _ => owned(alloc, text)?,
    };
    tree_of(alloc, text.as_str())
}

/// The floor after it was raised to this revision.
fn raised(alloc: Global, hub: &mut Hub, rev: u64) -> Came {
    hub.raise_floor(rev);
    words(alloc, hub.floor())
}

/// The outcome of an act on a session, whose number stands in front of the text, if there is one.
fn act_on_one(alloc: Global, hub: &mut Hub, word: &str, rest: &str) -> Came {
    let (number, text) = cut(rest);
    let number = number.parse::<u64>().ok()?;
    match word {
        "say" => words(alloc, hub.receive(alloc, number, text)),
        "say-long" => words(
            alloc,
            hub.receive(alloc, number, long_edit(alloc, text)?.as_str()),
        ),
        "draw" => drawn(alloc, hub.draw(alloc, number)),
        "draw-bytes" => words(alloc, drawn(alloc, hub.draw(alloc, number))?.len()),
        "close" => words(alloc, hub.close(number)),
        "will-in" => seen_will(alloc, hub.will_in(number as usize, place(text)?)),
        _ => seen_of_one(alloc, hub, word, number),
    }
}

/// An edit that makes the document a string of so many letters.
fn long_edit(alloc: Global, letters: &str) -> Came {
    let letters = repeated(alloc, "a", number(letters)?)?;
    LONG_EDIT.replace(alloc, "LETTERS", letters.as_str()).ok()
}

/// The text that a hub tells of a session, or of the room at an index.
fn seen_of_one(alloc: Global, hub: &Hub, word: &str, number: u64) -> Came {
    match word {
        "waiting" => words(alloc, hub.waiting(number)),
        "may-hear" => words(alloc, hub.may_hear(number)),
        "truth" => seen(alloc, hub.truth(alloc, number)),
        "room-at" => words(alloc, hub.room_at(number as usize)),
        "waiting-will" => waiting_will(alloc, hub.waiting_wills().get(number as usize)),
        _ => None,
    }
}

/// Goes on with another hub, or tells why there is none.
fn begin_anew(alloc: Global, hub: &mut Hub, config: HubConfig) -> Came {
    match Hub::with_config(alloc, config) {
        Ok(made) => {
            *hub = made;
            owned(alloc, "")
        }
        Err(fault) => words(alloc, fault),
    }
}

/// The usual configuration with these changes.
fn config_of(changes: &str) -> Option<HubConfig> {
    let mut config = HubConfig::new(1, 1, 64, 32);
    for change in changes.split_whitespace() {
        let (name, value) = change.split_once('=')?;
        set(&mut config, name, number(value)?)?;
    }
    Some(config)
}

fn set(config: &mut HubConfig, name: &str, value: u64) -> Option<()> {
    match name {
        "epoch" => config.epoch = value,
        "first" => config.first = value,
        "history" => config.history = value,
        "waiting" => config.max_waiting_patches = value,
        "history-weight" => config.history_weight = Budget::Left(value),
        "waiting-weight" => config.waiting_weight = Budget::Left(value),
        "telling-weight" => config.telling_weight = Budget::Left(value),
        "view-weight" => config.view_weight = Budget::Left(value),
        "rooms" => config.rooms = value,
        "sessions" => config.sessions = value,
        _ => return None,
    }
    Some(())
}

/// The result of a draw, as text: the text itself, if there was one.
fn drawn(alloc: Global, text: Result<Option<ByteStr>, HubFault>) -> Came {
    match text {
        Ok(Some(text)) => owned(alloc, text.as_str()),
        Ok(None) => owned(alloc, "nothing"),
        Err(fault) => words(alloc, fault),
    }
}

/// The revision and the view that a session should hold, as text.
fn seen(alloc: Global, held: Result<Option<(u64, Tree)>, HubFault>) -> Came {
    match held {
        Ok(Some((rev, view))) => at_revision(alloc, rev, &view),
        Ok(None) => owned(alloc, "nothing"),
        Err(fault) => words(alloc, fault),
    }
}

/// The place that a word spells.
fn place(word: &str) -> Option<usize> {
    word.parse::<usize>().ok()
}

/// The session of a will, its number there and how many operations it has, as text.
fn seen_will(alloc: Global, will: Option<SessionWill<'_>>) -> Came {
    let Some(will) = will else {
        return owned(alloc, "nothing");
    };
    let (session, number, ops) = (will.session, will.number, will.patch.ops().len());
    format!(in alloc; "{session} {number} {ops}").ok()
}

/// The same of a will that waits, and the index of its room in front.
fn waiting_will(alloc: Global, will: Option<&Will>) -> Came {
    let Some(will) = will else {
        return owned(alloc, "nothing");
    };
    let (room, session, number) = (will.room_index, will.session, will.number);
    let ops = will.patch.ops().len();
    format!(in alloc; "{room} {session} {number} {ops}").ok()
}

/// The number of replies, of refusals and of patches that the sessions drew, and of snapshots, by
/// their causes.
fn counted(alloc: Global, counts: &MessageCounts) -> Came {
    let mut refusals = 0u64;
    for refused in counts.refusals.iter() {
        refusals = refusals.saturating_add(refused.count);
    }
    let (replies, patches) = (counts.replies, counts.patches);
    let by = counts.snapshots;
    let (watch, resume, edit) = (by.watch, by.resume, by.edit);
    let (full, heavy, memory) = (by.patches, by.weight, by.memory);
    format!(in alloc;
        "{replies} {refusals} {patches}, watch {watch}, resume {resume}, edit {edit}, patches \
         {full}, weight {heavy}, memory {memory}"
    )
    .ok()
}

/// True if a number lies within two others, which stand in one text.
fn lies_within(found: u64, bounds: &str) -> Option<bool> {
    let (least, most) = bounds.split_once(' ')?;
    Some(number(least)? <= found && found <= number(most)?)
}

/// Gives memory back, which always succeeds.
fn give_memory_back(alloc: Global, hub: &mut Hub) -> Came {
    hub.shed();
    owned(alloc, "done")
}
