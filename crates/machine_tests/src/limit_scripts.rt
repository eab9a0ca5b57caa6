//! Scripts of limits: sessions, factors, files, and the lengths of secrets.

use crate::answers::Say;
use crate::requests::Line::*;
use crate::script::Ask::{First, Long, Second};
use crate::script::Row::{Each, Gives, Numbers, Starts};
use crate::script::{Row, SETUP, Script, stops_at};
use account_machine::Refused;
use std::test;

type Outcome = Result<(), test::Fail>;

// Of 64 sessions that are kept the oldest is dropped.
const SESSIONS: &[Row] = &[
    Gives(1000, First(Create), Say::Ok),
    Starts(64),
    Gives(1000, First(Extend), Say::No(Refused::NotAuthorised)),
    Gives(1000, First(Start), Say::Session(1300, 65)),
    Gives(1000, First(Extend), Say::No(Refused::UnknownSession)),
    Gives(1000, Second(Extend), Say::No(Refused::NotAuthorised)),
    Gives(1000, Second(End), Say::Ok),
    Gives(1000, First(Start), Say::Session(1300, 66)),
];

// With `pin` these are eight PINs.
const PINS: &[Row] = &[
    Each(7, AddPinOfNumber, Say::Ok),
    Gives(1000, First(AddShortPin2), Say::No(Refused::TooManyFactors)),
    Gives(1000, First(AddPin2), Say::No(Refused::TooManyFactors)),
    Gives(1000, First(AddPin), Say::No(Refused::FactorExists)),
    Gives(1000, First(AddAlt), Say::Ok),
    Gives(1000, First(RemovePin7), Say::Ok),
    Gives(1000, First(AddPin2), Say::Ok),
    Gives(1000, First(AddStrict), Say::No(Refused::TooManyFactors)),
    Numbers(18446744073709551615),
    Gives(1000, First(AddStrict), Say::No(Refused::TooManyFactors)),
];

// With `main` and `pin` these are 32 factors.
const FACTORS: &[Row] = &[
    Each(30, AddPasswordOfNumber, Say::Ok),
    Gives(1000, First(AddEmptyAlt), Say::No(Refused::TooManyFactors)),
    Gives(1000, First(AddAlt), Say::No(Refused::TooManyFactors)),
    Gives(1000, First(AddPin2), Say::No(Refused::TooManyFactors)),
    Gives(1000, First(AddMainAgain), Say::No(Refused::FactorExists)),
    Gives(1000, First(UpdatePin), Say::Ok),
    Gives(1000, First(RemoveMain), Say::Ok),
    Gives(1000, First(AddPin2), Say::Ok),
    Gives(1000, First(AddAlt), Say::No(Refused::TooManyFactors)),
];

// A file of 49,152 bytes has twice as many digits.
const FILES: &[Row] = &[
    Gives(1000, Long(98306, PutLong), Say::No(Refused::NotMounted)),
    Gives(1000, First(Mount), Say::Ok),
    Gives(1000, Long(98306, PutLong), Say::No(Refused::TooLarge)),
    Each(256, PutOfNumber, Say::Ok),
    Gives(1000, Long(98306, PutLong), Say::No(Refused::TooLarge)),
    Gives(1000, Long(98306, PutLongAgain), Say::No(Refused::TooLarge)),
    Gives(1000, Long(98304, PutLong), Say::No(Refused::TooManyFiles)),
    Gives(1000, First(Put), Say::No(Refused::TooManyFiles)),
    Gives(1000, Long(98304, PutLongAgain), Say::Ok),
];

const LONG_SECRETS: &[Row] = &[
    Gives(1000, Long(257, AddLong), Say::No(Refused::BadSecret)),
    Gives(1000, Long(256, AddLong), Say::Ok),
    Gives(1000, Long(257, TryLong), Say::No(Refused::BadSecret)),
    Gives(1000, Long(255, TryLong), Say::Wrong),
    Gives(1000, Long(256, TryLong), Say::Proved(1300)),
    Gives(1000, Long(1, AddLongLabel), Say::Ok),
    Gives(1000, Long(16, AddLongLabel), Say::Ok),
];

const AFTER_SETUP: &[Script] = &[
    ("eight PINs", PINS),
    ("32 factors", FACTORS),
    ("256 files", FILES),
    ("long secrets", LONG_SECRETS),
];

#[test]
fn the_65th_session_drops_the_first(rt: HostRuntime) -> Outcome {
    assert_eq!(rt; stops_at(rt.alloc(), &[], SESSIONS)?, None);
    Ok(())
}

#[test]
fn homes_have_these_limits(rt: HostRuntime) -> Outcome {
    for (name, rows) in AFTER_SETUP {
        assert_eq!(rt; stops_at(rt.alloc(), SETUP, rows)?, None, "{name}");
    }
    Ok(())
}
