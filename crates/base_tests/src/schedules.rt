//! Schedules that are refused, and the default one around each of its edges.

use pw_types::{LAST_MOMENT, LOCKED, Readiness, Schedule, ScheduleFault, Stamp, cut_moment, ready};

#[test]
fn a_list_that_is_no_schedule_is_refused_at_its_first_bad_pair(rt: HostRuntime) {
    let many = [(1, 1); 17];
    let rows: [(&[(u32, u32)], usize); 9] = [
        (&[], 0),
        (&many, 0),
        (&[(5, 30), (5, 60)], 2),
        (&[(5, 30)], 1),
        (&[(0, LOCKED)], 1),
        (&[(1_001, LOCKED)], 1),
        (&[(3, LOCKED), (5, LOCKED)], 1),
        (&[(5, 30), (6, 30), (7, LOCKED)], 2),
        (&[(5, 30), (6, 60), (7, 90)], 3),
    ];
    for (pairs, place) in rows {
        let refused = Err(ScheduleFault::BadSchedule(place));
        assert!(rt; Schedule::new(pairs) == refused, "place {place}");
    }
}

const ONE_PAIR: [(u32, u32); 1] = [(3, LOCKED)];

// Whether a schedule of one pair keeps it, and locks by it.
fn keeps_its_pair() -> Result<bool, ScheduleFault> {
    let schedule = Schedule::new(&ONE_PAIR)?;
    Ok(schedule.pairs() == ONE_PAIR.as_slice() && schedule.limit() == 3)
}

// What one pair answers after so many wrong tries.
fn under_one_pair(wrong: u32) -> Result<Readiness, ScheduleFault> {
    let schedule = Schedule::new(&ONE_PAIR)?;
    let stamp = Stamp { boot: 1, at: 1_000 };
    Ok(ready(&schedule, wrong, stamp, stamp, 0))
}

#[test]
fn under_one_pair_the_third_wrong_try_locks(rt: HostRuntime) {
    assert!(rt; keeps_its_pair() == Ok(true));
    for (wrong, want) in [
        (0, Readiness::Ready),
        (2, Readiness::Ready),
        (3, Readiness::Locked),
    ] {
        assert!(rt; under_one_pair(wrong) == Ok(want), "{wrong} wrong tries");
    }
}

// Wrong tries, whether the boot began after the last of them, the moment of the next, and the answer. The
// last wrong try was at moment 1000, and a later boot began at moment 2000.
const EDGES: [(u32, bool, u64, Readiness); 26] = [
    (0, false, 1_000, Readiness::Ready),
    (4, false, 1_000, Readiness::Ready),
    (5, false, 1_000, Readiness::Delayed(1_030)),
    (5, false, 1_029, Readiness::Delayed(1_030)),
    (5, false, 1_030, Readiness::Ready),
    (6, false, 1_059, Readiness::Delayed(1_060)),
    (6, false, 1_060, Readiness::Ready),
    (7, false, 1_299, Readiness::Delayed(1_300)),
    (7, false, 1_300, Readiness::Ready),
    (8, false, 1_899, Readiness::Delayed(1_900)),
    (8, false, 1_900, Readiness::Ready),
    (9, false, 4_599, Readiness::Delayed(4_600)),
    (9, false, 4_600, Readiness::Ready),
    (10, false, 1_000_000, Readiness::Locked),
    (11, false, 1_000_000, Readiness::Locked),
    (4, true, 2_000, Readiness::Ready),
    (5, true, 2_029, Readiness::Delayed(2_030)),
    (5, true, 2_030, Readiness::Ready),
    (6, true, 2_059, Readiness::Delayed(2_060)),
    (6, true, 2_060, Readiness::Ready),
    (7, true, 2_299, Readiness::Delayed(2_300)),
    (7, true, 2_300, Readiness::Ready),
    (8, true, 2_900, Readiness::Ready),
    (9, true, 5_599, Readiness::Delayed(5_600)),
    (9, true, 5_600, Readiness::Ready),
    (10, true, 1_000_000, Readiness::Locked),
];

#[test]
fn the_default_schedule_waits_at_each_of_its_edges(rt: HostRuntime) {
    let schedule = Schedule::usual();
    let last = Stamp { boot: 7, at: 1_000 };
    for (wrong, restarted, at, want) in EDGES {
        let now = Stamp {
            boot: if restarted { 8 } else { 7 },
            at,
        };
        let start = if restarted { 2_000 } else { 900 };
        let answer = ready(&schedule, wrong, last, now, start);
        assert!(rt; answer == want, "{wrong} wrong tries at {at}");
    }
}

#[test]
fn a_number_past_the_last_moment_is_cut(rt: HostRuntime) {
    assert!(rt; LAST_MOMENT == 1_099_511_627_775);
    for (number, moment) in [
        (0, 0),
        (1_099_511_627_775, 1_099_511_627_775),
        (1_099_511_627_776, 1_099_511_627_775),
        (u64::MAX, 1_099_511_627_775),
    ] {
        assert!(rt; cut_moment(number) == moment, "at {number}");
    }
}
