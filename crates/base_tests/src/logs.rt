//! What the log answers in each case.

use pw_log::{INSERT, Log, LogAnswer, LogEntry, NO_VERDICT, TRY, WRONG};
use pw_path::Hash;
use pw_types::Stamp;

const FIRST: Hash = [1; 32];

const SECOND: Hash = [2; 32];

const THIRD: Hash = [3; 32];

const INSERTED: LogEntry = LogEntry {
    operation: INSERT,
    label: 16_383,
    root: FIRST,
    mac: [7; 32],
    verdict: NO_VERDICT,
    stamp: Stamp { boot: 1, at: 1_000 },
};

const TRIED: LogEntry = LogEntry {
    operation: TRY,
    label: 16_383,
    root: SECOND,
    mac: [8; 32],
    verdict: WRONG,
    stamp: Stamp { boot: 2, at: 2_000 },
};

#[test]
fn the_log_tells_a_host_whether_it_is_in_step_or_one_behind(rt: HostRuntime) {
    let log = Log::of(TRIED, INSERTED);
    let unknown = LogAnswer::RootUnknown {
        host: THIRD,
        newest: SECOND,
        older: FIRST,
    };
    let rows = [
        (SECOND, LogAnswer::InStep),
        (FIRST, LogAnswer::One(TRIED)),
        (THIRD, unknown),
    ];
    for (host, want) in rows {
        assert!(rt; log.since(&host) == want);
    }
}

#[test]
fn a_host_whose_root_both_entries_have_is_in_step(rt: HostRuntime) {
    let log = Log::of(INSERTED, INSERTED);
    assert!(rt; log.since(&FIRST) == LogAnswer::InStep);
}

#[test]
fn a_pushed_entry_drops_the_older_one(rt: HostRuntime) {
    let mut log = Log::of(INSERTED, INSERTED);
    log.push(TRIED);
    assert!(rt; *log.newest() == TRIED && *log.older() == INSERTED);
    assert!(rt; log.since(&FIRST) == LogAnswer::One(TRIED));
}
