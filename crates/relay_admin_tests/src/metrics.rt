//! Tests of the metrics.
use relay_admin::{Commits, DrawnMessages, EndedBy, Metrics, RefusedBy, SnapshotsBy, metrics_text};

/// A relay whose every number is another one.
const NUMBERS: Metrics<'static> = Metrics {
    rooms: 1,
    max_rooms: 2,
    sessions: 3,
    max_sessions: 4,
    connections: 5,
    max_connections: 6,
    edits: 7,
    wills: 38,
    weight: 8,
    history_weight: 36,
    waiting_weight: 37,
    opened: 9,
    rejected: 38,
    refused: RefusedBy {
        bad_request: 10,
        forbidden: 39,
        not_found: 11,
        method: 12,
        upgrade: 13,
        too_long: 14,
        unavailable: 15,
    },
    ended: EndedBy {
        peer: 16,
        binary: 17,
        broken: 18,
        stream: 19,
        memory: 20,
        full: 21,
        slow: 40,
        silent: 22,
        relay: 23,
    },
    drawn: DrawnMessages {
        replies: 26,
        refusals: &[("shape", 27), ("missing", 28)],
        patches: 29,
        snapshots: SnapshotsBy {
            watch: 30,
            resume: 31,
            edit: 32,
            patches: 33,
            weight: 34,
            memory: 35,
        },
    },
    shed: 24,
    rounds: 25,
    longest_round: 1_500_000,
    hub_cost: 2_500_000,
    commits: Commits {
        within_1_ms: 41,
        within_2500_us: 42,
        within_5_ms: 43,
        within_10_ms: 44,
        within_25_ms: 45,
        within_100_ms: 46,
        within_500_ms: 47,
        within_1_s: 48,
        all: 49,
        micros: 3_500_000,
        failed: 50,
    },
};

/// Their text.
const TEXT: &str = r#"# HELP relay_rooms Rooms that there are.
# TYPE relay_rooms gauge
relay_rooms 1
# HELP relay_rooms_limit Rooms that there may be.
# TYPE relay_rooms_limit gauge
relay_rooms_limit 2
# HELP relay_sessions Sessions that are open.
# TYPE relay_sessions gauge
relay_sessions 3
# HELP relay_sessions_limit Sessions that may be open.
# TYPE relay_sessions_limit gauge
relay_sessions_limit 4
# HELP relay_edits_total Edits accepted, those of wills among them.
# TYPE relay_edits_total counter
relay_edits_total 7
# HELP relay_wills_total Wills of closed sessions, those refused among them.
# TYPE relay_wills_total counter
relay_wills_total 38
# HELP relay_document_weight Weight of all documents together.
# TYPE relay_document_weight gauge
relay_document_weight 8
# HELP relay_history_weight Weight of the changes that rooms hold for resumes, together.
# TYPE relay_history_weight gauge
relay_history_weight 36
# HELP relay_waiting_weight Weight of the patches that wait for sessions, together; 0 if it is not bounded.
# TYPE relay_waiting_weight gauge
relay_waiting_weight 37
# HELP relay_connections Connections that are held, with and without a session.
# TYPE relay_connections gauge
relay_connections 5
# HELP relay_connections_limit Connections that may be held.
# TYPE relay_connections_limit gauge
relay_connections_limit 6
# HELP relay_sessions_opened_total Sessions that were opened.
# TYPE relay_sessions_opened_total counter
relay_sessions_opened_total 9
# HELP relay_connections_rejected_total Connections rejected, since their address had as many as it may.
# TYPE relay_connections_rejected_total counter
relay_connections_rejected_total 38
# HELP relay_handshakes_refused_total Handshakes refused, by the status.
# TYPE relay_handshakes_refused_total counter
relay_handshakes_refused_total{status="400"} 10
relay_handshakes_refused_total{status="403"} 39
relay_handshakes_refused_total{status="404"} 11
relay_handshakes_refused_total{status="405"} 12
relay_handshakes_refused_total{status="426"} 13
relay_handshakes_refused_total{status="431"} 14
relay_handshakes_refused_total{status="503"} 15
# HELP relay_connections_ended_total Connections ended, by the cause.
# TYPE relay_connections_ended_total counter
relay_connections_ended_total{cause="peer"} 16
relay_connections_ended_total{cause="binary"} 17
relay_connections_ended_total{cause="broken"} 18
relay_connections_ended_total{cause="stream"} 19
relay_connections_ended_total{cause="memory"} 20
relay_connections_ended_total{cause="full"} 21
relay_connections_ended_total{cause="slow"} 40
relay_connections_ended_total{cause="silent"} 22
relay_connections_ended_total{cause="relay"} 23
# HELP relay_replies_total Replies drawn for sessions, refusals among them.
# TYPE relay_replies_total counter
relay_replies_total 26
# HELP relay_refusals_total Refusals drawn for sessions, by the fault.
# TYPE relay_refusals_total counter
relay_refusals_total{fault="shape"} 27
relay_refusals_total{fault="missing"} 28
# HELP relay_patches_total Patches drawn for sessions.
# TYPE relay_patches_total counter
relay_patches_total 29
# HELP relay_snapshots_total Snapshots drawn for sessions, by what made them due.
# TYPE relay_snapshots_total counter
relay_snapshots_total{cause="watch"} 30
relay_snapshots_total{cause="resume"} 31
relay_snapshots_total{cause="edit"} 32
relay_snapshots_total{cause="patches"} 33
relay_snapshots_total{cause="weight"} 34
relay_snapshots_total{cause="memory"} 35
# HELP relay_out_of_memory_total Entries of the log that memory was refused, at most one in 1024 rounds.
# TYPE relay_out_of_memory_total counter
relay_out_of_memory_total 24
# HELP relay_rounds_total Rounds of the server.
# TYPE relay_rounds_total counter
relay_rounds_total 25
# HELP relay_longest_round_seconds How long the longest round of the last minute worked.
# TYPE relay_longest_round_seconds gauge
relay_longest_round_seconds 1500000e-6
# HELP relay_hub_cost_seconds_total What the hub's work cost, as it is counted for the connections' credit.
# TYPE relay_hub_cost_seconds_total counter
relay_hub_cost_seconds_total 2500000e-6
# HELP relay_store_commit_seconds How long commits of the store took; all 0 without a store.
# TYPE relay_store_commit_seconds histogram
relay_store_commit_seconds_bucket{le="0.001"} 41
relay_store_commit_seconds_bucket{le="0.0025"} 42
relay_store_commit_seconds_bucket{le="0.005"} 43
relay_store_commit_seconds_bucket{le="0.01"} 44
relay_store_commit_seconds_bucket{le="0.025"} 45
relay_store_commit_seconds_bucket{le="0.1"} 46
relay_store_commit_seconds_bucket{le="0.5"} 47
relay_store_commit_seconds_bucket{le="1"} 48
relay_store_commit_seconds_bucket{le="+Inf"} 49
relay_store_commit_seconds_sum 3500000e-6
relay_store_commit_seconds_count 49
# HELP relay_store_commit_failures_total Commits that failed, those refused memory among them; 0 without a store.
# TYPE relay_store_commit_failures_total counter
relay_store_commit_failures_total 50
"#;

#[test]
fn tells_each_number(rt: HostRuntime) {
    let text = metrics_text(rt.alloc(), &NUMBERS).expect(&rt, "memory");
    assert_eq!(rt; text.as_str(), TEXT);
}

/// A metric that has no values keeps its two lines.
#[test]
fn tells_of_no_faults(rt: HostRuntime) {
    let mut numbers = NUMBERS;
    numbers.drawn = DrawnMessages::default();
    let text = metrics_text(rt.alloc(), &numbers).expect(&rt, "memory");
    let part = "\n# TYPE relay_refusals_total counter\n# HELP relay_patches_total ";
    assert!(&rt; text.as_str().contains(part));
}

/// Times in microseconds: each bound, and one more than it. A bucket has all that are not above its
/// bound, which is that of the text's `le`, in seconds.
#[test]
fn counts_a_commit_in_each_bucket_that_is_not_below_it(rt: HostRuntime) {
    let mut commits = Commits::default();
    for bound in [
        1_000, 2_500, 5_000, 10_000, 25_000, 100_000, 500_000, 1_000_000,
    ] {
        commits = commits.with_commit(bound).with_commit(bound + 1);
    }
    let wanted = Commits {
        within_1_ms: 1,
        within_2500_us: 3,
        within_5_ms: 5,
        within_10_ms: 7,
        within_25_ms: 9,
        within_100_ms: 11,
        within_500_ms: 13,
        within_1_s: 15,
        all: 16,
        micros: 3_287_008,
        failed: 0,
    };
    assert_eq!(rt; commits, wanted);
    let failed = commits.with_failure();
    assert_eq!(rt;
        failed,
        Commits {
            failed: 1,
            ..wanted
        }
    );
}
