//! An operator's view of a server.
ghost use Rattle.std.specs.Prelude.{◌≡◌, ◌++◌, ◌∷◌, [], IfOk, OnOk, map, string_bytes};
ghost use Rattle.json.specs.Lex.{tokens};
ghost use Rattle.json.specs.Print.{print};
ghost use Rattle.relay_hub.specs.Summary.{shown_by};
ghost use Rattle.relay_operator.specs.Counters.{is_short_of_memory};
ghost use Rattle.relay_operator.specs.Numbers.{AreNumbers, rooms_seen, totals_of, with_room};
ghost use Rattle.relay_operator.specs.Response.{AnswersAsk, AnswersHealth, IsResponse};
ghost use Rattle.relay_operator.specs.Rows.{empty_for, rooms_listed, with_row};

use crate::counters::Counters;
use json::Writer;
use relay_admin::{
    AdminRequest, Ask, Commits, DrawnMessages, Metrics, Response, RoomRow, SnapshotsBy,
    begin_rooms, end_rooms, metrics_text, response_text, wanted_text, write_room,
};
use relay_hub::{Hub, RoomSummary, SnapshotCounts};
use std::alloc::{AllocError, Global};

/// A hub, which no request changes through this view, and the numbers of its server.
#[derive(Clone, Copy)]
pub struct AdminView<'v> {
    pub hub: &'v Hub,
    /// True if no client may enter until an operator says so.
    pub is_closed: bool,
    /// The rooms from which clients were turned away since they are not open.
    pub wanted: &'v [String],
    /// By a room's index in the hub, the second in which a session last left it; 0 beyond the end.
    pub left: &'v [u64],
    /// The present second.
    pub second: u64,
    /// The number of connections that are held, with and without a session.
    pub connections: u64,
    pub max_connections: u64,
    /// The number of wills of closed sessions, those refused among them.
    pub wills: u64,
    /// The number of rounds so far.
    pub rounds: u64,
    /// The time for which the longest round of the last minute worked, in microseconds.
    pub longest_round: u64,
    /// The commits that kept the rooms, and those that failed.
    pub commits: Commits,
}

/// The rooms of a hub together.
#[derive(Clone, Copy, Debug)]
struct Totals {
    rooms: u64,
    sessions: u64,
    weight: u64,
    history: u64,
}

impl AdminView<'_> {
    /// The response to an answer that asks nothing of a room.
    pub(crate) fn answer(
        &self,
        alloc: Global,
        counters: &Counters,
        asked: &Ask,
    ) -> Result<String, AllocError>
        ensures { IfOk result
            (λ text. AnswersAsk self.now counters.entry.now asked.now (string_bytes text)) }
    {
        match asked {
            Ask::Request(request) => self.reply(alloc, counters, *request),
            Ask::Refused(refusal) => response_text(alloc, &Response::Refused(*refusal)),
            _ => response_text(alloc, &Response::NoRoom),
        }
    }

    /// The response to a request.
    fn reply(
        &self,
        alloc: Global,
        counters: &Counters,
        request: AdminRequest,
    ) -> Result<String, AllocError>
        ensures { IfOk result
            (λ text. IsResponse self.now counters.entry.now request (string_bytes text)) }
    {
        match request {
            AdminRequest::Health => response_text(alloc, &self.health(counters)),
            AdminRequest::Open => response_text(alloc, &Response::Opened),
            AdminRequest::Stop => response_text(alloc, &Response::Stopping),
            AdminRequest::Metrics => {
                let refusals = self.refusals(alloc)?;
                let text = metrics_text(alloc, &self.metrics(counters, refusals.as_slice()))?;
                response_text(alloc, &Response::Metrics(text.as_str()))
            }
            AdminRequest::Wanted => {
                let text = wanted_text(alloc, self.wanted)?;
                response_text(alloc, &Response::Wanted(text.as_str()))
            }
            AdminRequest::Rooms => {
                let text = self.rooms(alloc)?;
                response_text(alloc, &Response::Rooms(text.as_str()))
            }
        }
    }

    /// Says whether the relay serves its clients.
    fn health(&self, counters: &Counters) -> Response<'static>
        ensures { AnswersHealth self.now.is_closed (is_short_of_memory counters.entry.now) result }
    {
        if self.is_closed {
            return Response::Unhealthy("closed\n");
        }
        if counters.is_short_of_memory() {
            return Response::Unhealthy("memory was refused within the last minute\n");
        }
        Response::Healthy
    }

    /// Its numbers.
    fn metrics<'a>(&self, counters: &Counters, refusals: &'a [(&'static str, u64)]) -> Metrics<'a>
        ensures { AreNumbers self.now counters.entry.now result }
    {
        let totals = self.totals();
        let config = self.hub.config();
        let drawn = self.hub.message_counts();
        Metrics {
            rooms: totals.rooms,
            max_rooms: config.rooms,
            sessions: totals.sessions,
            max_sessions: config.sessions,
            connections: self.connections,
            max_connections: self.max_connections,
            edits: self.hub.edits(),
            wills: self.wills,
            weight: totals.weight,
            history_weight: totals.history,
            waiting_weight: self.hub.waiting_weight(),
            opened: counters.opened,
            rejected: counters.rejected,
            refused: counters.refused,
            ended: counters.ended,
            drawn: DrawnMessages {
                replies: drawn.replies,
                refusals,
                patches: drawn.patches,
                snapshots: snapshots_by(drawn.snapshots),
            },
            shed: counters.shed,
            rounds: self.rounds,
            longest_round: self.longest_round,
            hub_cost: self.hub.cost(),
            commits: self.commits,
        }
    }

    /// The refusals by the word of the fault.
    fn refusals(&self, alloc: Global) -> Result<Vec<(&'static str, u64)>, AllocError> {
        let counts = &self.hub.message_counts().refusals;
        let mut refusals = Vec::with_capacity(alloc, counts.len())?;
        for refused in counts.iter() {
            refusals.push((refused.word(), refused.count))?;
        }
        Ok(refusals)
    }

    fn totals(&self) -> Totals
        ensures { result ≡ totals_of (rooms_seen self.now.hub.now) }
    {
        let mut totals = Totals {
            rooms: 0,
            sessions: 0,
            weight: 0,
            history: 0,
        };
        for index in 0..usize::MAX {
            let Some(room) = self.hub.room_at(index) else {
                return totals;
            };
            totals = totals.with(&room);
        }
        totals
    }

    /// For how many seconds nobody has been in a room with so many sessions, if nobody is.
    fn empty_for(&self, index: usize, sessions: usize) -> Option<u64>
        ensures { result ≡ empty_for self.now index sessions }
    {
        if sessions > 0 {
            return None;
        }
        let left = self.left.get(index).copied().unwrap_or(0);
        Some(self.second.saturating_sub(left))
    }

    /// The list of rooms.
    fn rooms(&self, alloc: Global) -> Result<String, AllocError>
        ensures text { IfOk result (λ text. string_bytes text ≡ print (rooms_listed self.now)) }
        ensures reads_back { IfOk result
            (λ text. tokens (string_bytes text) ≡ rooms_listed self.now) }
    {
        let mut out = begin_rooms(alloc)?;
        for index in 0..usize::MAX {
            let Some(room) = self.hub.room_at(index) else {
                return end_rooms(out);
            };
            self.write_row(&mut out, index, &room)?;
        }
        end_rooms(out)
    }

    /// Writes the room at an index.
    fn write_row(
        &self,
        out: &mut Writer,
        index: usize,
        room: &RoomSummary<'_>,
    ) -> Result<(), AllocError>
        ensures tokens { OnOk result
            (out.new.tokens ≡ with_row self.now index (shown_by room.now) out.old.tokens) }
        ensures before { out.new.before ≡ out.old.before }
    {
        let row = RoomRow {
            name: room.name,
            revision: room.revision,
            sessions: room.sessions as u64,
            weight: room.weight,
            empty: self.empty_for(index, room.sessions),
        };
        write_room(out, &row)
    }
}

impl Totals {
    /// The same with one more room.
    fn with(self, room: &RoomSummary<'_>) -> Totals
        ensures { result ≡ with_room (shown_by room.now) self }
    {
        Totals {
            rooms: self.rooms.saturating_add(1),
            sessions: self.sessions.saturating_add(room.sessions as u64),
            weight: self.weight.saturating_add(room.weight),
            history: self.history.saturating_add(room.history),
        }
    }
}

fn snapshots_by(counts: SnapshotCounts) -> SnapshotsBy {
    SnapshotsBy {
        watch: counts.watch,
        resume: counts.resume,
        edit: counts.edit,
        patches: counts.patches,
        weight: counts.weight,
        memory: counts.memory,
    }
}
