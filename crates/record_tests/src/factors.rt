//! Factor records that another program made, cut and with each field broken.

use crate::made::{PASSWORD, PIN};
use account_machine::Kind;
use factor_files::{FactorFault, FactorRecord};

#[test]
fn records_of_both_kinds_are_read(rt: HostRuntime) {
    let Ok(password) = FactorRecord::read(rt.alloc(), &PASSWORD) else {
        panic!(rt; "a password's record is one");
    };
    assert_eq!(rt; password.kind, Kind::Password);
    assert_eq!(rt; password.label.as_str(), "main");
    assert_eq!(rt; password.edition, 7);
    assert_eq!(rt; password.cost, 14);
    assert!(rt; password.leaf.is_none());
    let Ok(pin) = FactorRecord::read(rt.alloc(), &PIN) else {
        panic!(rt; "a PIN's record is one");
    };
    assert_eq!(rt; pin.kind, Kind::Pin);
    assert_eq!(rt; pin.leaf.map(|leaf| leaf.number()), Some(16_383));
}

#[test]
fn what_is_read_is_written_again(rt: HostRuntime) {
    for bytes in [PASSWORD.as_slice(), PIN.as_slice()] {
        let Ok(factor) = FactorRecord::read(rt.alloc(), bytes) else {
            panic!(rt; "it is a record");
        };
        let Ok(written) = factor.write(rt.alloc()) else {
            panic!(rt; "no memory for a record");
        };
        assert_eq!(rt; written.as_slice(), bytes);
    }
}

#[test]
fn a_record_that_is_cut_is_none(rt: HostRuntime) {
    for size in 0..PIN.len() {
        assert!(rt;
            matches!(
                FactorRecord::read(rt.alloc(), &PIN[..size]),
                Err(FactorFault::BadRecord(_))
            ),
            "at {size} bytes"
        );
    }
}

// A place, the byte there, and the place of the field that it breaks.
#[test]
fn a_broken_field_is_named_by_its_place(rt: HostRuntime) {
    let rows: [(usize, u8, usize); 9] = [
        (0, 2, 0),
        (1, 3, 1),
        (1, 0, 1),
        (2, 0, 2),
        (2, 17, 2),
        (3, b'P', 2),
        (13, 0, 6),
        (14, 17, 14),
        (31, 0x40, 31),
    ];
    for (at, byte, place) in rows {
        let mut record = PIN;
        if at < 33 {
            record[at] = byte;
        }
        assert!(rt;
            matches!(
                FactorRecord::read(rt.alloc(), &record),
                Err(FactorFault::BadRecord(found)) if found == place
            ),
            "at {at}"
        );
    }
}
