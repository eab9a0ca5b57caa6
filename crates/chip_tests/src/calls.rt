//! A chip with one leaf, refusal by refusal, and through the default schedule.

ghost use Rattle.std.specs.Prelude.{◌<◌, ◌^◌};

use pw_chip::{Call, Chip, Reply, Words};
use pw_leaf::{ChipKeys, LEAF_BYTES, LeafFault, mac_in};
use pw_log::LogAnswer;
use pw_path::{Aux, empty_roots};
use pw_types::Schedule;

pub(crate) const KEYS: ChipKeys = ChipKeys {
    mac: [1; 32],
    enc: [2; 32],
};

const NO_LEAF: [u8; LEAF_BYTES] = [0; LEAF_BYTES];

// The siblings of a label in a tree that is empty beside it.
pub(crate) fn lonely_aux() -> Aux {
    let roots = empty_roots();
    let mut aux: Aux = [[[0; 32]; 3]; 7];
    for level in 0..7usize {
        aux[level] = [roots[level], roots[level], roots[level]];
    }
    aux
}

pub(crate) fn insert_at(label: u16, mac: [u8; 32], aux: Aux) -> Call<'static> {
    Call::Insert {
        label,
        aux,
        mac,
        les: [5; 32],
        hes: [6; 32],
        reset: [7; 32],
        schedule: Schedule::usual(),
        iv: [8; 16],
    }
}

// The record of a reply, and zero bytes where it has none.
pub(crate) fn record_of(reply: &Reply) -> [u8; LEAF_BYTES] {
    match reply {
        Reply::Inserted(leaf) | Reply::Wrong(leaf) | Reply::Cleared(leaf) | Reply::Replayed(leaf) =>
            *leaf,
        Reply::Released { leaf, .. } => *leaf,
        _ => NO_LEAF,
    }
}

pub(crate) fn try_at(
    words: &mut Words,
    label: u16,
    leaf: &[u8; LEAF_BYTES],
    les: [u8; 32],
    moment: u64,
) -> Reply
    requires { moment < 2 ^ 40 }
{
    let call = Call::Try {
        label,
        aux: lonely_aux(),
        leaf,
        les,
    };
    Chip::step(words, &call, moment)
}

// The siblings of label 1 beside a leaf at label 0.
fn aux_beside(leaf: &[u8; LEAF_BYTES]) -> Aux {
    let mut aux = lonely_aux();
    aux[0][0] = mac_in(leaf);
    aux
}

fn remove_at(label: u16, mac: [u8; 32], aux: Aux) -> Call<'static> {
    Call::Remove { label, aux, mac }
}

// A chip in its first boot with a leaf at label 0, and the leaf's record.
fn chip_with_leaf() -> (Words, [u8; LEAF_BYTES]) {
    let mut words = Words::new(KEYS);
    words.boot(900);
    let leaf = record_of(&Chip::step(&mut words, &insert_at(0, [0; 32], lonely_aux()), 1_000));
    (words, leaf)
}

// A path that gives no root of the tree.
fn wrong_aux() -> Aux {
    let mut aux = lonely_aux();
    aux[3] = [[9; 32]; 3];
    aux
}

#[test]
fn a_call_without_a_record_is_refused_where_its_cause_stands_first(rt: HostRuntime) {
    let (mut words, leaf) = chip_with_leaf();
    let before = words;
    let mac = mac_in(&leaf);
    let aux = lonely_aux();
    let rows = [
        (insert_at(16_384, mac, wrong_aux()), Reply::LabelInvalid),
        (insert_at(0, mac, wrong_aux()), Reply::PathAuthFailed),
        (insert_at(0, mac, aux), Reply::LabelUsed),
        (remove_at(16_384, [0; 32], wrong_aux()), Reply::LabelInvalid),
        (remove_at(0, [0; 32], aux), Reply::PathAuthFailed),
        (remove_at(1, [0; 32], aux_beside(&leaf)), Reply::LabelEmpty),
        (Call::GetLog { host: [3; 32] }, Reply::RootUnknown),
    ];
    for (call, reply) in &rows {
        assert_eq!(rt; Chip::step(&mut words, call, 1_000), *reply);
        assert_eq!(rt; words, before);
    }
}

#[test]
fn a_presented_record_is_refused_where_its_cause_stands_first(rt: HostRuntime) {
    let (mut words, leaf) = chip_with_leaf();
    let before = words;
    let mut damaged = leaf;
    damaged[295] ^= 1;
    // A label, the bytes and how many of them are shown.
    let rows = [
        (16_384, leaf, 295, Reply::LabelInvalid),
        (0, leaf, 295, Reply::LeafInvalid(LeafFault::BadLength(295))),
        (
            0,
            NO_LEAF,
            296,
            Reply::LeafInvalid(LeafFault::BadVersion(0)),
        ),
        (0, damaged, 296, Reply::LeafInvalid(LeafFault::BadMac)),
        (1, leaf, 296, Reply::LeafInvalid(LeafFault::BadShape(1))),
        (0, leaf, 296, Reply::PathAuthFailed),
    ];
    for (label, bytes, size, reply) in &rows {
        let shown = &bytes[..(*size).min(LEAF_BYTES)];
        let tried = Call::Try {
            label: *label,
            aux: wrong_aux(),
            leaf: shown,
            les: [5; 32],
        };
        assert_eq!(rt; Chip::step(&mut words, &tried, 1_000), *reply);
        let reset = Call::Reset {
            label: *label,
            aux: wrong_aux(),
            leaf: shown,
            reset: [8; 32],
        };
        assert_eq!(rt; Chip::step(&mut words, &reset, 1_000), *reply);
        assert_eq!(rt; words, before);
    }
}

#[test]
fn a_reset_with_another_secret_and_a_replay_of_an_insert_are_refused(rt: HostRuntime) {
    let (mut words, leaf) = chip_with_leaf();
    let reset = Call::Reset {
        label: 0,
        aux: lonely_aux(),
        leaf: &leaf,
        reset: [8; 32],
    };
    assert_eq!(rt; Chip::step(&mut words, &reset, 1_000), Reply::ResetWrong);
    for (label, reply) in [(16_384, Reply::LabelInvalid), (0, Reply::RootUnknown)] {
        let replay = Call::Replay {
            label,
            aux: lonely_aux(),
            leaf: &leaf,
        };
        assert_eq!(rt; Chip::step(&mut words, &replay, 1_000), reply);
    }
}

// The moments of tries, and the moment until which each is delayed, where it is.
const TRIES: [(u64, Option<u64>); 16] = [
    (1_000, None),
    (1_000, None),
    (1_000, None),
    (1_000, None),
    (1_000, None),
    (1_029, Some(1_030)),
    (1_030, None),
    (1_089, Some(1_090)),
    (1_090, None),
    (1_389, Some(1_390)),
    (1_390, None),
    (2_289, Some(2_290)),
    (2_290, None),
    (5_889, Some(5_890)),
    (5_889, Some(5_890)),
    (5_890, None),
];

#[test]
fn ten_wrong_tries_lock_a_leaf_until_it_is_reset(rt: HostRuntime) {
    let aux = lonely_aux();
    let mut words = Words::new(KEYS);
    words.boot(900);
    let mut leaf = record_of(&Chip::step(&mut words, &insert_at(0, [0; 32], aux), 950));
    for (moment, until) in TRIES {
        let reply = try_at(&mut words, 0, &leaf, [4; 32], moment.min(9_000));
        match until {
            Some(until) => assert_eq!(rt; reply, Reply::Delayed(until)),
            None => leaf = record_of(&reply),
        }
    }
    assert_eq!(rt; try_at(&mut words, 0, &leaf, [5; 32], 9_000), Reply::Locked);
    words.boot(20_000);
    assert_eq!(rt;
        try_at(&mut words, 0, &leaf, [5; 32], 30_000),
        Reply::Locked
    );
    let reset = Call::Reset {
        label: 0,
        aux,
        leaf: &leaf,
        reset: [7; 32],
    };
    let cleared = record_of(&Chip::step(&mut words, &reset, 30_000));
    let before = words;
    let released = try_at(&mut words, 0, &cleared, [5; 32], 30_000);
    let hes = [6; 32];
    assert_eq!(rt; released, Reply::Released { leaf: cleared, hes });
    assert_eq!(rt; words, before);
}

#[test]
fn a_delay_begins_again_at_the_boot(rt: HostRuntime) {
    let aux = lonely_aux();
    let mut words = Words::new(KEYS);
    words.boot(900);
    let mut leaf = record_of(&Chip::step(&mut words, &insert_at(7, [0; 32], aux), 950));
    for _ in 0..5 {
        leaf = record_of(&try_at(&mut words, 7, &leaf, [4; 32], 1_000));
    }
    words.boot(2_000);
    assert_eq!(rt;
        try_at(&mut words, 7, &leaf, [5; 32], 2_029),
        Reply::Delayed(2_030)
    );
    let released = try_at(&mut words, 7, &leaf, [5; 32], 2_030);
    assert!(rt; matches!(released, Reply::Released { .. }));
}

#[test]
fn a_stale_record_is_refused_and_replayed(rt: HostRuntime) {
    let aux = lonely_aux();
    let mut words = Words::new(KEYS);
    words.boot(900);
    let stale = record_of(&Chip::step(&mut words, &insert_at(16_383, [0; 32], aux), 950));
    let host = words.log().newest().root;
    let wrong = try_at(&mut words, 16_383, &stale, [4; 32], 1_000);
    assert_eq!(rt;
        try_at(&mut words, 16_383, &stale, [4; 32], 1_000),
        Reply::PathAuthFailed
    );
    let told = Reply::Log(LogAnswer::One(*words.log().newest()));
    assert_eq!(rt; Chip::step(&mut words, &Call::GetLog { host }, 1_000), told);
    let replay = Call::Replay {
        label: 16_383,
        aux,
        leaf: &stale,
    };
    assert_eq!(rt;
        Chip::step(&mut words, &replay, 1_000),
        Reply::Replayed(record_of(&wrong))
    );
    assert_eq!(rt;
        Chip::step(&mut words, &Call::ResetTree, 1_000),
        Reply::Done
    );
    assert_eq!(rt; words.log().newest().root, empty_roots()[7]);
    assert_eq!(rt; *words.keys(), KEYS);
    assert_eq!(rt; words.era().boot, 1);
}

#[test]
fn a_record_under_its_old_path_is_refused(rt: HostRuntime) {
    let aux = lonely_aux();
    let mut words = Words::new(KEYS);
    words.boot(900);
    let leaf = record_of(&Chip::step(&mut words, &insert_at(0, [0; 32], aux), 950));
    let mut beside = aux;
    beside[0][0] = mac_in(&leaf);
    let other = record_of(&Chip::step(&mut words, &insert_at(1, [0; 32], beside), 960));
    assert_eq!(rt;
        try_at(&mut words, 0, &leaf, [5; 32], 1_000),
        Reply::PathAuthFailed
    );
    let mut aux_now = aux;
    aux_now[0][0] = mac_in(&other);
    let now = Call::Try {
        label: 0,
        aux: aux_now,
        leaf: &leaf,
        les: [5; 32],
    };
    let hes = [6; 32];
    assert_eq!(rt;
        Chip::step(&mut words, &now, 1_000),
        Reply::Released { leaf, hes }
    );
}
