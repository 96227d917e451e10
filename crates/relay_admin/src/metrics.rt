//! The numbers of a relay in the text format of Prometheus, version 0.0.4.
ghost use Rattle.std.specs.Prelude.{◌≡◌, ◌++◌, IfOk, OnOk, string_bytes};
ghost use Rattle.relay_admin.specs.Metrics.{hub_text, weights_text, connections_text, refused_text};
ghost use Rattle.relay_admin.specs.Metrics.{ended_text, replies_text, updates_text, rounds_text};
ghost use Rattle.relay_admin.specs.Metrics.{commits_text, metrics_text};

use crate::commits::Commits;
use crate::metric::Kind::{Counter, Gauge, Histogram};
use crate::metric::Values::{Buckets, Labelled, Micros, One};
use crate::metric::{Metric, write_metric, write_metrics};
use std::alloc::{AllocError, Global};

/// The numbers of a relay. What is counted begins with its start.
#[derive(Clone, Copy, Debug, PartialEq, Eq)]
pub struct Metrics<'a> {
    pub rooms: u64,
    pub max_rooms: u64,
    pub sessions: u64,
    pub max_sessions: u64,
    pub connections: u64,
    pub max_connections: u64,
    /// The number of edits that were accepted, those of wills among them.
    pub edits: u64,
    /// The number of wills of closed sessions, those refused among them.
    pub wills: u64,
    /// The sum of the weights of the rooms' documents.
    pub weight: u64,
    /// The total weight of the changes that the rooms hold for resumes.
    pub history_weight: u64,
    /// The total weight of the patches that wait for sessions, as far as that is bounded.
    pub waiting_weight: u64,
    /// The number of sessions that were opened.
    pub opened: u64,
    /// The number of connections that were rejected as they came, since their address had as many
    /// as it may.
    pub rejected: u64,
    pub refused: RefusedBy,
    pub ended: EndedBy,
    pub drawn: DrawnMessages<'a>,
    /// The number of times that the log said that memory was refused.
    pub shed: u64,
    pub rounds: u64,
    /// The time for which the longest round of the last minute worked, in microseconds.
    pub longest_round: u64,
    /// The cost of the hub's work by its own count, in microseconds.
    pub hub_cost: u64,
    pub commits: Commits,
}

/// The number of handshakes that were refused, by the status.
#[derive(Clone, Copy, Debug, Default, PartialEq, Eq)]
pub struct RefusedBy {
    /// 400
    pub bad_request: u64,
    /// 403
    pub forbidden: u64,
    /// 404
    pub not_found: u64,
    /// 405
    pub method: u64,
    /// 426
    pub upgrade: u64,
    /// 431
    pub too_long: u64,
    /// 503
    pub unavailable: u64,
}

/// The number of connections that ended, by the cause.
#[derive(Clone, Copy, Debug, Default, PartialEq, Eq)]
pub struct EndedBy {
    pub peer: u64,
    pub binary: u64,
    pub broken: u64,
    pub stream: u64,
    pub memory: u64,
    pub full: u64,
    pub slow: u64,
    pub silent: u64,
    /// Ended by the relay: it was the oldest without a session when a place was needed, or the
    /// relay ends.
    pub relay: u64,
}

/// The number of messages that were drawn for sessions, by kind.
#[derive(Clone, Copy, Debug, Default, PartialEq, Eq)]
pub struct DrawnMessages<'a> {
    /// The refusals are among them.
    pub replies: u64,
    /// The refusals, by the fault: its word and how many there were, in the order in which they are
    /// written. A word is written as it is, so it has no `"`, no `\` and no line end.
    pub refusals: &'a [(&'static str, u64)],
    pub patches: u64,
    pub snapshots: SnapshotsBy,
}

/// The number of snapshots that were drawn for sessions, by what made them due.
#[derive(Clone, Copy, Debug, Default, PartialEq, Eq)]
pub struct SnapshotsBy {
    /// The client asked to watch.
    pub watch: u64,
    /// A resume found no patch.
    pub resume: u64,
    /// An edit had no patch within bounds for this view.
    pub edit: u64,
    /// More patches waited than may.
    pub patches: u64,
    /// The patches that waited weighed more than they may.
    pub weight: u64,
    /// Memory was refused.
    pub memory: u64,
}

/// Returns the text of all numbers. If memory runs out, it returns `AllocError` and leaves nothing
/// behind.
pub fn metrics_text(alloc: Global, metrics: &Metrics<'_>) -> Result<String, AllocError>
    ensures { IfOk result (λ text. string_bytes text ≡ metrics_text metrics.now) }
{
    let mut text = String::new(alloc);
    write_hub(alloc, &mut text, metrics)?;
    write_weights(alloc, &mut text, metrics)?;
    write_connections(alloc, &mut text, metrics)?;
    write_refused(alloc, &mut text, &metrics.refused)?;
    write_ended(alloc, &mut text, &metrics.ended)?;
    write_replies(alloc, &mut text, &metrics.drawn)?;
    write_updates(alloc, &mut text, &metrics.drawn)?;
    write_rounds(alloc, &mut text, metrics)?;
    write_commits(alloc, &mut text, &metrics.commits)?;
    Ok(text)
}

/// The rooms, the sessions, and what was edited.
fn write_hub(alloc: Global, text: &mut String, metrics: &Metrics<'_>) -> Result<(), AllocError>
    ensures { OnOk result (string_bytes text.new ≡ string_bytes text.old ++ hub_text metrics.now) }
{
    let rows = [
        Metric {
            name: "relay_rooms",
            kind: Gauge,
            help: "Rooms that there are.",
            values: One(metrics.rooms),
        },
        Metric {
            name: "relay_rooms_limit",
            kind: Gauge,
            help: "Rooms that there may be.",
            values: One(metrics.max_rooms),
        },
        Metric {
            name: "relay_sessions",
            kind: Gauge,
            help: "Sessions that are open.",
            values: One(metrics.sessions),
        },
        Metric {
            name: "relay_sessions_limit",
            kind: Gauge,
            help: "Sessions that may be open.",
            values: One(metrics.max_sessions),
        },
        Metric {
            name: "relay_edits_total",
            kind: Counter,
            help: "Edits accepted, those of wills among them.",
            values: One(metrics.edits),
        },
        Metric {
            name: "relay_wills_total",
            kind: Counter,
            help: "Wills of closed sessions, those refused among them.",
            values: One(metrics.wills),
        },
    ];
    write_metrics(alloc, text, &rows)
}

/// The weights of what is held for clients.
fn write_weights(alloc: Global, text: &mut String, metrics: &Metrics<'_>) -> Result<(), AllocError>
    ensures { OnOk result (string_bytes text.new
        ≡ string_bytes text.old ++ weights_text metrics.now) }
{
    let rows = [
        Metric {
            name: "relay_document_weight",
            kind: Gauge,
            help: "Weight of all documents together.",
            values: One(metrics.weight),
        },
        Metric {
            name: "relay_history_weight",
            kind: Gauge,
            help: "Weight of the changes that rooms hold for resumes, together.",
            values: One(metrics.history_weight),
        },
        Metric {
            name: "relay_waiting_weight",
            kind: Gauge,
            help: "Weight of the patches that wait for sessions, together; 0 if it is not bounded.",
            values: One(metrics.waiting_weight),
        },
    ];
    write_metrics(alloc, text, &rows)
}

/// The connections, and the sessions that they opened.
fn write_connections(
    alloc: Global,
    text: &mut String,
    metrics: &Metrics<'_>,
) -> Result<(), AllocError>
    ensures { OnOk result (string_bytes text.new
        ≡ string_bytes text.old ++ connections_text metrics.now) }
{
    let rows = [
        Metric {
            name: "relay_connections",
            kind: Gauge,
            help: "Connections that are held, with and without a session.",
            values: One(metrics.connections),
        },
        Metric {
            name: "relay_connections_limit",
            kind: Gauge,
            help: "Connections that may be held.",
            values: One(metrics.max_connections),
        },
        Metric {
            name: "relay_sessions_opened_total",
            kind: Counter,
            help: "Sessions that were opened.",
            values: One(metrics.opened),
        },
        Metric {
            name: "relay_connections_rejected_total",
            kind: Counter,
            help: "Connections rejected, since their address had as many as it may.",
            values: One(metrics.rejected),
        },
    ];
    write_metrics(alloc, text, &rows)
}

/// The handshakes that were refused.
fn write_refused(alloc: Global, text: &mut String, refused: &RefusedBy) -> Result<(), AllocError>
    ensures { OnOk result (string_bytes text.new
        ≡ string_bytes text.old ++ refused_text refused.now) }
{
    let counts = [
        ("400", refused.bad_request),
        ("403", refused.forbidden),
        ("404", refused.not_found),
        ("405", refused.method),
        ("426", refused.upgrade),
        ("431", refused.too_long),
        ("503", refused.unavailable),
    ];
    let metric = Metric {
        name: "relay_handshakes_refused_total",
        kind: Counter,
        help: "Handshakes refused, by the status.",
        values: Labelled("status", &counts),
    };
    write_metric(alloc, text, &metric)
}

/// The connections that ended.
fn write_ended(alloc: Global, text: &mut String, ended: &EndedBy) -> Result<(), AllocError>
    ensures { OnOk result (string_bytes text.new ≡ string_bytes text.old ++ ended_text ended.now) }
{
    let counts = [
        ("peer", ended.peer),
        ("binary", ended.binary),
        ("broken", ended.broken),
        ("stream", ended.stream),
        ("memory", ended.memory),
        ("full", ended.full),
        ("slow", ended.slow),
        ("silent", ended.silent),
        ("relay", ended.relay),
    ];
    let metric = Metric {
        name: "relay_connections_ended_total",
        kind: Counter,
        help: "Connections ended, by the cause.",
        values: Labelled("cause", &counts),
    };
    write_metric(alloc, text, &metric)
}

/// The replies that were drawn for sessions.
fn write_replies(
    alloc: Global,
    text: &mut String,
    drawn: &DrawnMessages<'_>,
) -> Result<(), AllocError>
    ensures { OnOk result (string_bytes text.new
        ≡ string_bytes text.old ++ replies_text drawn.now) }
{
    let rows = [
        Metric {
            name: "relay_replies_total",
            kind: Counter,
            help: "Replies drawn for sessions, refusals among them.",
            values: One(drawn.replies),
        },
        Metric {
            name: "relay_refusals_total",
            kind: Counter,
            help: "Refusals drawn for sessions, by the fault.",
            values: Labelled("fault", drawn.refusals),
        },
    ];
    write_metrics(alloc, text, &rows)
}

/// The patches and the snapshots that were drawn for sessions.
fn write_updates(
    alloc: Global,
    text: &mut String,
    drawn: &DrawnMessages<'_>,
) -> Result<(), AllocError>
    ensures { OnOk result (string_bytes text.new
        ≡ string_bytes text.old ++ updates_text drawn.now) }
{
    let snapshots = [
        ("watch", drawn.snapshots.watch),
        ("resume", drawn.snapshots.resume),
        ("edit", drawn.snapshots.edit),
        ("patches", drawn.snapshots.patches),
        ("weight", drawn.snapshots.weight),
        ("memory", drawn.snapshots.memory),
    ];
    let rows = [
        Metric {
            name: "relay_patches_total",
            kind: Counter,
            help: "Patches drawn for sessions.",
            values: One(drawn.patches),
        },
        Metric {
            name: "relay_snapshots_total",
            kind: Counter,
            help: "Snapshots drawn for sessions, by what made them due.",
            values: Labelled("cause", &snapshots),
        },
    ];
    write_metrics(alloc, text, &rows)
}

/// The rounds, and what went wrong in them.
fn write_rounds(alloc: Global, text: &mut String, metrics: &Metrics<'_>) -> Result<(), AllocError>
    ensures { OnOk result (string_bytes text.new
        ≡ string_bytes text.old ++ rounds_text metrics.now) }
{
    let rows = [
        Metric {
            name: "relay_out_of_memory_total",
            kind: Counter,
            help: "Entries of the log that memory was refused, at most one in 1024 rounds.",
            values: One(metrics.shed),
        },
        Metric {
            name: "relay_rounds_total",
            kind: Counter,
            help: "Rounds of the server.",
            values: One(metrics.rounds),
        },
        Metric {
            name: "relay_longest_round_seconds",
            kind: Gauge,
            help: "How long the longest round of the last minute worked.",
            values: Micros(metrics.longest_round),
        },
        Metric {
            name: "relay_hub_cost_seconds_total",
            kind: Counter,
            help: "What the hub's work cost, as it is counted for the connections' credit.",
            values: Micros(metrics.hub_cost),
        },
    ];
    write_metrics(alloc, text, &rows)
}

/// The commits of the store.
fn write_commits(alloc: Global, text: &mut String, commits: &Commits) -> Result<(), AllocError>
    ensures { OnOk result (string_bytes text.new
        ≡ string_bytes text.old ++ commits_text commits.now) }
{
    let counts = [
        ("0.001", commits.within_1_ms),
        ("0.0025", commits.within_2500_us),
        ("0.005", commits.within_5_ms),
        ("0.01", commits.within_10_ms),
        ("0.025", commits.within_25_ms),
        ("0.1", commits.within_100_ms),
        ("0.5", commits.within_500_ms),
        ("1", commits.within_1_s),
        ("+Inf", commits.all),
    ];
    let rows = [
        Metric {
            name: "relay_store_commit_seconds",
            kind: Histogram,
            help: "How long commits of the store took; all 0 without a store.",
            values: Buckets {
                counts: &counts,
                micros: commits.micros,
                all: commits.all,
            },
        },
        Metric {
            name: "relay_store_commit_failures_total",
            kind: Counter,
            help: "Commits that failed, those refused memory among them; 0 without a store.",
            values: One(commits.failed),
        },
    ];
    write_metrics(alloc, text, &rows)
}
