//! A stash of version 1 that another program made, cut and with each field broken.

use crate::made::{DERIVED, FIRST_STASH, MAIN, PIN_WRAP, RESET, VAULT, WRAP};
use ct_bytes::Text;
use secret_stash::{Stash, StashFault, pin_wrap};

#[test]
fn a_stash_of_version_1_opens(rt: HostRuntime) {
    let Ok(stash) = Stash::read(rt.alloc(), &FIRST_STASH) else {
        panic!(rt; "the record is one");
    };
    assert_eq!(rt; stash.account(), "ann");
    assert_eq!(rt; stash.next(), 3);
    assert_eq!(rt; stash.count(), 1);
    assert_eq!(rt; stash.form(0), 1);
    assert_eq!(rt; stash.open_with("main", &WRAP), Ok(MAIN));
    assert_eq!(rt; stash.open_with("main", &MAIN), Err(StashFault::BadTag));
    assert_eq!(rt; stash.open_with("pin", &WRAP), Err(StashFault::NoBlock));
    assert!(rt; stash.has_payload());
    let Ok(payload) = stash.payload(&MAIN) else {
        panic!(rt; "the main key opens the payload");
    };
    assert_eq!(rt; payload.vault, VAULT);
    let Ok(label) = Text::from_str(rt.alloc(), "pin") else {
        panic!(rt; "no memory for three bytes");
    };
    match payload.resets.get(&label) {
        Some(reset) => {
            assert_eq!(rt; reset.edition, 2);
            assert_eq!(rt; reset.secret, RESET);
        }
        None => panic!(rt; "the payload has a reset secret"),
    }
}

#[test]
fn a_record_that_is_cut_is_none(rt: HostRuntime) {
    for size in 0..FIRST_STASH.len() {
        assert!(rt;
            matches!(
                Stash::read(rt.alloc(), &FIRST_STASH[..size]),
                Err(StashFault::BadStash(_))
            ),
            "at {size} bytes"
        );
    }
}

// A place, the byte there, and the place of the field that it breaks.
#[test]
fn a_broken_field_is_named_by_its_place(rt: HostRuntime) {
    let rows: [(usize, u8, usize); 12] = [
        (0, 0, 0),
        (0, 3, 0),
        (1, 0, 1),
        (2, b'A', 1),
        (12, 0, 5),
        (13, 2, 13),
        (26, 0xff, 28),
        (121, 0, 121),
        (121, 17, 121),
        (122, 0, 122),
        (123, b'M', 122),
        (134, 3, 127),
    ];
    for (at, byte, place) in rows {
        let mut record = FIRST_STASH;
        if at < 195 {
            record[at] = byte;
        }
        assert!(rt;
            matches!(
                Stash::read(rt.alloc(), &record),
                Err(StashFault::BadStash(found)) if found == place
            ),
            "at {at}"
        );
    }
}

#[test]
fn a_pins_wrap_key_is_that_of_another_program(rt: HostRuntime) {
    assert_eq!(rt; pin_wrap(&MAIN, &DERIVED), PIN_WRAP);
}
