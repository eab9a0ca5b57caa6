//! Leaf records, against those that another program wrote.

use pw_leaf::{ChipKeys, LEAF_BYTES, LeafFault, NewLeafSecrets, bump, check, clear, look, make};
use pw_path::Label;
use pw_types::{Schedule, Stamp};

#[rattlefmt::skip]
const KEYS: ChipKeys = ChipKeys {
    mac: [
        0, 1, 2, 3, 4, 5, 6, 7, 8, 9, 10, 11, 12, 13, 14, 15,
        16, 17, 18, 19, 20, 21, 22, 23, 24, 25, 26, 27, 28, 29, 30, 31,
    ],
    enc: [
        32, 33, 34, 35, 36, 37, 38, 39, 40, 41, 42, 43, 44, 45, 46, 47,
        48, 49, 50, 51, 52, 53, 54, 55, 56, 57, 58, 59, 60, 61, 62, 63,
    ],
};

const IV: [u8; 16] = [
    100, 101, 102, 103, 104, 105, 106, 107, 108, 109, 110, 111, 112, 113, 114, 115,
];

const SECRETS: NewLeafSecrets = NewLeafSecrets {
    les: [0xa1; 32],
    hes: [0xb2; 32],
    reset: [0xc3; 32],
};

// A new leaf at label 4660 with the usual schedule.
#[rattlefmt::skip]
const FRESH: [u8; LEAF_BYTES] = [
    1, 18, 52, 6, 0, 0, 0, 5, 0, 0, 0, 30, 0, 0, 0, 6, 0, 0, 0, 60,
    0, 0, 0, 7, 0, 0, 1, 44, 0, 0, 0, 8, 0, 0, 3, 132, 0, 0, 0, 9,
    0, 0, 14, 16, 0, 0, 0, 10, 255, 255, 255, 255, 0, 0, 0, 0, 0, 0, 0, 0,
    0, 0, 0, 0, 0, 0, 0, 0, 0, 0, 0, 0, 0, 0, 0, 0, 0, 0, 0, 0,
    0, 0, 0, 0, 0, 0, 0, 0, 0, 0, 0, 0, 0, 0, 0, 0, 0, 0, 0, 0,
    0, 0, 0, 0, 0, 0, 0, 0, 0, 0, 0, 0, 0, 0, 0, 0, 0, 0, 0, 0,
    0, 0, 0, 0, 0, 0, 0, 0, 0, 0, 0, 0, 0, 0, 0, 0, 0, 0, 0, 0,
    0, 0, 0, 0, 0, 0, 0, 0, 0, 0, 0, 0, 100, 101, 102, 103, 104, 105, 106, 107,
    108, 109, 110, 111, 112, 113, 114, 115, 231, 184, 33, 222, 55, 102, 37, 203, 232, 222, 2, 98,
    79, 78, 254, 127, 32, 2, 212, 162, 241, 160, 98, 181, 85, 205, 74, 195, 246, 165, 239, 151,
    198, 38, 57, 246, 188, 72, 45, 169, 130, 117, 40, 116, 145, 219, 199, 196, 168, 25, 244, 3,
    114, 27, 160, 170, 98, 240, 238, 197, 10, 253, 7, 68, 214, 5, 165, 200, 22, 188, 216, 13,
    167, 184, 179, 167, 1, 46, 52, 198, 199, 167, 91, 25, 160, 45, 162, 17, 123, 91, 167, 239,
    206, 226, 47, 129, 28, 55, 33, 31, 120, 161, 48, 81, 13, 116, 32, 124, 107, 176, 227, 177,
    28, 79, 216, 16, 80, 17, 202, 184, 237, 91, 45, 168, 254, 102, 116, 141,
];

// The same after a wrong try in boot 3 at moment 1000.
#[rattlefmt::skip]
const TRIED: [u8; LEAF_BYTES] = [
    1, 18, 52, 6, 0, 0, 0, 5, 0, 0, 0, 30, 0, 0, 0, 6, 0, 0, 0, 60,
    0, 0, 0, 7, 0, 0, 1, 44, 0, 0, 0, 8, 0, 0, 3, 132, 0, 0, 0, 9,
    0, 0, 14, 16, 0, 0, 0, 10, 255, 255, 255, 255, 0, 0, 0, 0, 0, 0, 0, 0,
    0, 0, 0, 0, 0, 0, 0, 0, 0, 0, 0, 0, 0, 0, 0, 0, 0, 0, 0, 0,
    0, 0, 0, 0, 0, 0, 0, 0, 0, 0, 0, 0, 0, 0, 0, 0, 0, 0, 0, 0,
    0, 0, 0, 0, 0, 0, 0, 0, 0, 0, 0, 0, 0, 0, 0, 0, 0, 0, 0, 0,
    0, 0, 0, 0, 0, 0, 0, 0, 0, 0, 0, 0, 0, 0, 0, 1, 0, 0, 0, 0,
    0, 0, 0, 3, 0, 0, 0, 0, 0, 0, 3, 232, 100, 101, 102, 103, 104, 105, 106, 107,
    108, 109, 110, 111, 112, 113, 114, 115, 231, 184, 33, 222, 55, 102, 37, 203, 232, 222, 2, 98,
    79, 78, 254, 127, 32, 2, 212, 162, 241, 160, 98, 181, 85, 205, 74, 195, 246, 165, 239, 151,
    198, 38, 57, 246, 188, 72, 45, 169, 130, 117, 40, 116, 145, 219, 199, 196, 168, 25, 244, 3,
    114, 27, 160, 170, 98, 240, 238, 197, 10, 253, 7, 68, 214, 5, 165, 200, 22, 188, 216, 13,
    167, 184, 179, 167, 1, 46, 52, 198, 199, 167, 91, 25, 160, 45, 162, 17, 123, 91, 167, 239,
    206, 226, 47, 129, 212, 15, 56, 203, 194, 8, 18, 102, 246, 63, 28, 25, 220, 195, 202, 156,
    146, 95, 212, 249, 212, 26, 223, 157, 133, 48, 202, 155, 238, 28, 79, 70,
];

// The last label with 16 pairs, locked at the last moment of the last boot. Its counter block wraps.
#[rattlefmt::skip]
const FULL: [u8; LEAF_BYTES] = [
    1, 63, 255, 16, 0, 0, 3, 217, 0, 0, 0, 0, 0, 0, 3, 218, 0, 0, 0, 1,
    0, 0, 3, 219, 0, 0, 0, 2, 0, 0, 3, 220, 0, 0, 0, 3, 0, 0, 3, 221,
    0, 0, 0, 4, 0, 0, 3, 222, 0, 0, 0, 5, 0, 0, 3, 223, 0, 0, 0, 6,
    0, 0, 3, 224, 0, 0, 0, 7, 0, 0, 3, 225, 0, 0, 0, 8, 0, 0, 3, 226,
    0, 0, 0, 9, 0, 0, 3, 227, 0, 0, 0, 10, 0, 0, 3, 228, 0, 0, 0, 11,
    0, 0, 3, 229, 0, 0, 0, 12, 0, 0, 3, 230, 0, 0, 0, 13, 0, 0, 3, 231,
    0, 0, 0, 14, 0, 0, 3, 232, 255, 255, 255, 255, 0, 0, 3, 232, 255, 255, 255, 255,
    255, 255, 255, 255, 0, 0, 0, 255, 255, 255, 255, 255, 255, 255, 255, 255, 255, 255, 255, 255,
    255, 255, 255, 255, 255, 255, 255, 255, 132, 35, 130, 31, 83, 90, 20, 220, 108, 199, 148, 254,
    5, 86, 142, 220, 249, 139, 61, 253, 252, 11, 61, 115, 254, 15, 37, 179, 153, 197, 137, 25,
    248, 242, 52, 239, 4, 95, 167, 171, 80, 195, 204, 75, 133, 74, 127, 216, 84, 234, 150, 253,
    251, 180, 164, 255, 92, 232, 164, 245, 137, 194, 129, 59, 40, 15, 155, 133, 45, 91, 65, 182,
    93, 111, 179, 6, 56, 196, 191, 162, 136, 70, 225, 168, 87, 24, 255, 19, 57, 192, 124, 137,
    42, 13, 44, 227, 165, 132, 150, 4, 100, 103, 174, 135, 89, 223, 171, 173, 192, 141, 214, 8,
    229, 117, 186, 90, 142, 190, 134, 102, 202, 72, 98, 62, 100, 172, 53, 195,
];

#[test]
fn a_new_record_is_that_of_another_program(rt: HostRuntime) {
    let Some(label) = Label::new(4_660) else {
        assert!(rt; false, "the label is there");
        return;
    };
    assert_eq!(rt; make(&KEYS, label, &SECRETS, &Schedule::usual(), IV), FRESH);
}

#[test]
fn a_record_of_another_program_is_read(rt: HostRuntime) {
    let Ok(leaf) = check(&KEYS, &TRIED) else {
        assert!(rt; false, "the record is one");
        return;
    };
    assert_eq!(rt; leaf.label.number(), 4_660);
    assert_eq!(rt; leaf.schedule, Schedule::usual());
    assert_eq!(rt; leaf.wrong, 1);
    assert_eq!(rt; leaf.last, Stamp { boot: 3, at: 1_000 });
    assert_eq!(rt; leaf.les, SECRETS.les);
    assert_eq!(rt; leaf.hes, SECRETS.hes);
    assert_eq!(rt; leaf.reset, SECRETS.reset);
    assert_eq!(rt; leaf.mac.as_slice(), &TRIED[264..]);
}

#[test]
fn the_greatest_record_of_another_program_is_read(rt: HostRuntime) {
    let Ok(leaf) = check(&KEYS, &FULL) else {
        assert!(rt; false, "the record is one");
        return;
    };
    assert_eq!(rt; leaf.label.number(), 16_383);
    assert_eq!(rt; leaf.schedule.pairs().len(), 16);
    assert_eq!(rt; leaf.schedule.limit(), 1_000);
    assert_eq!(rt; leaf.wrong, 1_000);
    assert_eq!(rt;
        leaf.last,
        Stamp {
            boot: u64::MAX,
            at: (1 << 40) - 1
        }
    );
    assert_eq!(rt; leaf.les, [0xd4; 32]);
    assert_eq!(rt; leaf.hes, [0xe5; 32]);
    assert_eq!(rt; leaf.reset, [0xf6; 32]);
}

#[test]
fn a_wrong_try_and_its_clearing_change_the_count_the_stamp_and_the_mac(rt: HostRuntime) {
    let Ok(fresh) = check(&KEYS, &FRESH) else {
        assert!(rt; false, "the new record is one");
        return;
    };
    assert!(rt; fresh.wrong < fresh.schedule.limit());
    let bumped = bump(&KEYS, &FRESH, Stamp { boot: 3, at: 1_000 });
    assert_eq!(rt; bumped, TRIED);
    assert!(rt; check(&KEYS, &bumped).is_ok());
    assert_eq!(rt; clear(&KEYS, &bumped), FRESH);
}

// Bytes that are changed in the record of a wrong try, by place and value, and the fault. Those of an earlier
// rule come first.
const FAULTS: [(&[(usize, u8)], LeafFault); 40] = [
    (&[(0, 0)], LeafFault::BadVersion(0)),
    (&[(0, 2)], LeafFault::BadVersion(2)),
    // The label.
    (&[(1, 0x40), (2, 0)], LeafFault::BadShape(1)),
    (&[(1, 0xff), (2, 0xff)], LeafFault::BadShape(1)),
    // The count of pairs.
    (&[(3, 0)], LeafFault::BadShape(3)),
    (&[(3, 17)], LeafFault::BadShape(3)),
    (&[(3, 255)], LeafFault::BadShape(3)),
    // Fewer and more pairs than there are.
    (&[(3, 5)], LeafFault::BadShape(4)),
    (&[(3, 7)], LeafFault::BadShape(4)),
    // No attempts, too many, attempts that don't rise, seconds that don't.
    (&[(7, 0)], LeafFault::BadShape(4)),
    (&[(46, 3), (47, 0xe9)], LeafFault::BadShape(4)),
    (&[(7, 5), (15, 5)], LeafFault::BadShape(4)),
    (&[(11, 30), (19, 30)], LeafFault::BadShape(4)),
    // The last pair doesn't lock, and one before it does.
    (&[(51, 254)], LeafFault::BadShape(4)),
    (
        &[(40, 255), (41, 255), (42, 255), (43, 255)],
        LeafFault::BadShape(4),
    ),
    // Unused pairs.
    (&[(52, 1)], LeafFault::BadShape(4)),
    (&[(91, 1)], LeafFault::BadShape(4)),
    (&[(131, 1)], LeafFault::BadShape(4)),
    // The count of wrong tries.
    (&[(135, 11)], LeafFault::BadShape(132)),
    (&[(132, 1)], LeafFault::BadShape(132)),
    // A boot with no wrong try.
    (&[(135, 0), (143, 3)], LeafFault::BadShape(136)),
    (&[(135, 0), (136, 1)], LeafFault::BadShape(136)),
    // A moment from 2^40, and one with no wrong try.
    (&[(146, 1)], LeafFault::BadShape(144)),
    (&[(144, 128)], LeafFault::BadShape(144)),
    (
        &[(135, 0), (136, 0), (143, 0), (151, 1)],
        LeafFault::BadShape(144),
    ),
    // Each field within its rules, and each end of the hidden part and of the MAC.
    (
        &[(135, 0), (136, 0), (143, 0), (147, 0), (150, 0), (151, 0)],
        LeafFault::BadMac,
    ),
    (&[(1, 0x3f)], LeafFault::BadMac),
    (&[(7, 4)], LeafFault::BadMac),
    (&[(11, 31)], LeafFault::BadMac),
    (&[(135, 10)], LeafFault::BadMac),
    (&[(135, 2)], LeafFault::BadMac),
    (&[(143, 4)], LeafFault::BadMac),
    (&[(136, 255)], LeafFault::BadMac),
    (&[(147, 255)], LeafFault::BadMac),
    (&[(152, 0)], LeafFault::BadMac),
    (&[(167, 0)], LeafFault::BadMac),
    (&[(168, 0)], LeafFault::BadMac),
    (&[(263, 0)], LeafFault::BadMac),
    (&[(264, 0)], LeafFault::BadMac),
    (&[(295, 0)], LeafFault::BadMac),
];

fn changed(record: [u8; LEAF_BYTES], changes: &[(usize, u8)]) -> [u8; LEAF_BYTES] {
    let mut bytes = record;
    for (place, value) in changes {
        if *place < LEAF_BYTES {
            bytes[*place] = *value;
        }
    }
    bytes
}

fn fault_without_its_last_byte(record: &[u8; LEAF_BYTES]) -> Option<LeafFault> {
    check(&KEYS, &record[..295]).err()
}

// Each broken rule alone, each with every later one, and each of them in a record that is a byte short.
#[test]
fn a_broken_record_is_refused_by_the_first_rule_that_it_breaks(rt: HostRuntime) {
    for first in 0..FAULTS.len() {
        let (changes, fault) = FAULTS[first];
        for second in first..FAULTS.len() {
            let (more, _) = FAULTS[second];
            let bytes = changed(changed(TRIED, more), changes);
            assert_eq!(rt;
                check(&KEYS, &bytes),
                Err(fault),
                "faults {first} and {second}"
            );
            let shown = look(&bytes);
            assert_eq!(rt;
                shown.is_ok(),
                fault == LeafFault::BadMac,
                "faults {first} and {second}"
            );
            assert_eq!(rt;
                fault_without_its_last_byte(&bytes),
                Some(LeafFault::BadLength(295))
            );
        }
    }
}

#[test]
fn a_record_of_another_length_is_refused(rt: HostRuntime) {
    assert_eq!(rt; check(&KEYS, &TRIED[..295]), Err(LeafFault::BadLength(295)));
    assert_eq!(rt; look(&[0; 297]), Err(LeafFault::BadLength(297)));
    assert_eq!(rt; look(&[]), Err(LeafFault::BadLength(0)));
}

// The keys of the MAC and of the cipher are apart: under another cipher key a record is read, with other secrets.
#[test]
fn a_record_of_another_chip_is_refused(rt: HostRuntime) {
    let mac_key = KEYS.mac;
    let cipher_key = KEYS.enc;
    let other = ChipKeys {
        mac: cipher_key,
        enc: cipher_key,
    };
    assert_eq!(rt; check(&other, &TRIED), Err(LeafFault::BadMac));
    assert!(rt; look(&TRIED).is_ok());
    let other = ChipKeys {
        mac: mac_key,
        enc: mac_key,
    };
    assert!(rt; check(&other, &TRIED).is_ok_and(|leaf| leaf.les != SECRETS.les));
}
