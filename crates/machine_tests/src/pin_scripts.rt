//! Scripts of PINs: counts, delays, the lock, and what sets a count back.

use crate::answers::{Listed, Say, Word};
use crate::requests::Line::*;
use crate::script::Ask::{Clear, First, Look, Second, Third};
use crate::script::Row::{Bars, Gives, Opens};
use crate::script::{Row, SETUP, Script, stops_at};
use account_machine::Refused;
use std::test;

type Outcome = Result<(), test::Fail>;

const FOUR_WRONG: &[Row] = &[
    Gives(1000, First(WrongPin), Say::Wrong),
    Gives(1000, First(WrongPin), Say::Wrong),
    Gives(1000, First(WrongPin), Say::Wrong),
    Gives(1000, First(WrongPin), Say::Wrong),
    Gives(
        1000,
        First(List),
        Say::Factors([
            Listed::Password(Word::Main),
            Listed::Pin(Word::Pin, 4),
            Listed::Nothing,
        ]),
    ),
    Bars(
        1000,
        First(List),
        Say::Factors([
            Listed::Password(Word::Main),
            Listed::Pin(Word::Pin, 3),
            Listed::Nothing,
        ]),
    ),
    Bars(1000, First(TryPin), Say::Wrong),
    Gives(1000, First(TryPin), Say::Ends(1300)),
    Gives(
        1000,
        First(List),
        Say::Factors([
            Listed::Password(Word::Main),
            Listed::Pin(Word::Pin, 0),
            Listed::Nothing,
        ]),
    ),
];

const FIVE_WRONG: &[Row] = &[
    Gives(1000, First(WrongPin), Say::Wrong),
    Gives(1000, First(WrongPin), Say::Wrong),
    Gives(1000, First(WrongPin), Say::Wrong),
    Gives(1000, First(WrongPin), Say::Wrong),
    Gives(1000, First(WrongPin), Say::Wrong),
    Gives(1000, First(TryPin), Say::Delayed(30)),
    Gives(1029, First(TryPin), Say::Delayed(1)),
    Gives(1029, First(WrongPin), Say::Delayed(1)),
    Bars(1029, First(TryPin), Say::Locked),
    Bars(1029, First(TryPin), Say::Ends(1329)),
    Bars(1029, First(WrongPin), Say::Wrong),
    Gives(
        1029,
        First(List),
        Say::Factors([
            Listed::Password(Word::Main),
            Listed::Pin(Word::Pin, 5),
            Listed::Nothing,
        ]),
    ),
    Gives(1030, First(WrongPin), Say::Wrong),
    Gives(
        1030,
        First(List),
        Say::Factors([
            Listed::Password(Word::Main),
            Listed::Pin(Word::Pin, 6),
            Listed::Nothing,
        ]),
    ),
    Gives(1089, First(TryPin), Say::Delayed(1)),
    Bars(1090, First(TryPin), Say::Delayed(0)),
    Gives(1090, First(TryPin), Say::Ends(1390)),
    Gives(
        1090,
        First(List),
        Say::Factors([
            Listed::Password(Word::Main),
            Listed::Pin(Word::Pin, 0),
            Listed::Nothing,
        ]),
    ),
    Gives(1090, First(WrongPin), Say::Wrong),
    Gives(1090, First(TryPin), Say::Ends(1390)),
];

// The whole of the schedule that a PIN has where none is given.
const TEN_WRONG: &[Row] = &[
    Gives(1000, First(WrongPin), Say::Wrong),
    Gives(1000, First(WrongPin), Say::Wrong),
    Gives(1000, First(WrongPin), Say::Wrong),
    Gives(1000, First(WrongPin), Say::Wrong),
    Gives(1000, First(WrongPin), Say::Wrong),
    Gives(1029, First(WrongPin), Say::Delayed(1)),
    Gives(1030, First(WrongPin), Say::Wrong),
    Gives(1089, First(WrongPin), Say::Delayed(1)),
    Gives(1090, First(WrongPin), Say::Wrong),
    Gives(1290, First(Extend), Say::Ends(1600)),
    Gives(1389, First(WrongPin), Say::Delayed(1)),
    Gives(1390, First(WrongPin), Say::Wrong),
    Gives(1590, First(Extend), Say::Ends(1900)),
    Gives(1890, First(Extend), Say::Ends(2200)),
    Gives(2190, First(Extend), Say::Ends(2500)),
    Gives(2289, First(WrongPin), Say::Delayed(1)),
    Gives(2290, First(WrongPin), Say::Wrong),
    Gives(5800, First(Start), Say::Session(6100, 2)),
    Gives(5889, Second(WrongPin), Say::Delayed(1)),
    Gives(5890, Second(WrongPin), Say::Wrong),
    Gives(
        5890,
        First(List),
        Say::Factors([
            Listed::Password(Word::Main),
            Listed::Pin(Word::Pin, 10),
            Listed::Nothing,
        ]),
    ),
    Gives(5890, Second(TryPin), Say::Locked),
    Gives(9000, First(Start), Say::Session(9300, 3)),
    Gives(9000, Third(TryPin), Say::Locked),
    Gives(9000, Third(WrongPin), Say::Locked),
    Bars(9000, Third(TryPin), Say::Ends(9300)),
    Gives(9000, Third(TryMain), Say::Proved(9300)),
    Gives(9000, Third(ResetPin), Say::Ok),
    Gives(
        9000,
        First(List),
        Say::Factors([
            Listed::Password(Word::Main),
            Listed::Pin(Word::Pin, 0),
            Listed::Nothing,
        ]),
    ),
    Gives(9000, Third(TryPin), Say::Ends(9300)),
];

// A delay begins anew where the account is opened by another boot.
const DELAYED_OVER_A_BOOT: &[Row] = &[
    Gives(1000, First(WrongPin), Say::Wrong),
    Gives(1000, First(WrongPin), Say::Wrong),
    Gives(1000, First(WrongPin), Say::Wrong),
    Gives(1000, First(WrongPin), Say::Wrong),
    Gives(1000, First(WrongPin), Say::Wrong),
    Opens(2, 2000),
    Gives(2000, First(Start), Say::Session(2300, 1)),
    Gives(2029, First(TryPin), Say::Delayed(1)),
    Gives(2030, First(WrongPin), Say::Wrong),
    Gives(2089, First(TryPin), Say::Delayed(1)),
    Gives(2090, First(TryPin), Say::Ends(2390)),
];

// The boot's number stays at its last, and then the wrong try's moment counts.
const DELAYED_IN_ONE_BOOT: &[Row] = &[
    Opens(18446744073709551615, 1000),
    Gives(1000, First(Start), Say::Session(1300, 1)),
    Gives(1000, First(WrongPin), Say::Wrong),
    Gives(1000, First(WrongPin), Say::Wrong),
    Gives(1000, First(WrongPin), Say::Wrong),
    Gives(1000, First(WrongPin), Say::Wrong),
    Gives(1000, First(WrongPin), Say::Wrong),
    Opens(18446744073709551615, 1010),
    Gives(1010, First(Start), Say::Session(1310, 1)),
    Gives(1029, First(TryPin), Say::Delayed(1)),
    Gives(1030, First(TryPin), Say::Ends(1330)),
];

// A schedule of the PIN's own, which a new boot, a new secret and a reset leave.
const OWN_SCHEDULE: &[Row] = &[
    Gives(1000, First(AddStrict), Say::Ok),
    Gives(1000, First(TryNewStrict), Say::Wrong),
    Gives(1000, First(TryNewStrict), Say::Wrong),
    Gives(1000, First(TryStrict), Say::Ends(1300)),
    Gives(1000, First(TryNewStrict), Say::Wrong),
    Gives(1000, First(TryNewStrict), Say::Wrong),
    Gives(1000, First(TryNewStrict), Say::Wrong),
    Gives(1000, First(TryStrict), Say::Locked),
    Opens(2, 2000),
    Gives(2000, First(Start), Say::Session(2300, 1)),
    Gives(2299, First(TryStrict), Say::Locked),
    Gives(2299, First(TryMain), Say::Proved(2599)),
    Gives(2299, First(UpdateStrict), Say::Ok),
    Gives(2299, First(TryStrict), Say::Wrong),
    Gives(2299, First(TryNewStrict), Say::Ends(2599)),
    Gives(2299, First(TryStrict), Say::Wrong),
    Gives(2299, First(TryStrict), Say::Wrong),
    Gives(2299, First(TryStrict), Say::Wrong),
    Gives(2299, First(TryNewStrict), Say::Locked),
    Gives(2299, First(ResetStrict), Say::Ok),
    Gives(2299, First(TryStrict), Say::Wrong),
    Gives(2299, First(TryStrict), Say::Wrong),
    Gives(2299, First(TryStrict), Say::Wrong),
    Gives(2299, First(TryNewStrict), Say::Locked),
];

const UPDATED: &[Row] = &[
    Gives(1000, First(WrongPin), Say::Wrong),
    Gives(1000, First(WrongPin), Say::Wrong),
    Gives(1000, First(WrongPin), Say::Wrong),
    Gives(1000, First(WrongPin), Say::Wrong),
    Gives(1000, First(WrongPin), Say::Wrong),
    Gives(1000, First(UpdatePin), Say::Ok),
    Gives(
        1000,
        First(List),
        Say::Factors([
            Listed::Password(Word::Main),
            Listed::Pin(Word::Pin, 0),
            Listed::Nothing,
        ]),
    ),
    Gives(1000, Look(Word::Pin), Say::Seen(Some(3))),
    Gives(1000, First(TryPin), Say::Wrong),
    Gives(
        1000,
        First(List),
        Say::Factors([
            Listed::Password(Word::Main),
            Listed::Pin(Word::Pin, 1),
            Listed::Nothing,
        ]),
    ),
    Gives(1000, First(TryNewPin), Say::Ends(1300)),
];

// A right password is followed by clearings, each of one PIN, in order of label.
const CLEARED: &[Row] = &[
    Gives(1000, First(AddPin2), Say::Ok),
    Gives(1000, First(WrongPin), Say::Wrong),
    Gives(1000, First(WrongPin), Say::Wrong),
    Gives(1000, First(WrongPin), Say::Wrong),
    Gives(1000, First(WrongPin2), Say::Wrong),
    Gives(1000, First(WrongPin2), Say::Wrong),
    Gives(1000, First(WrongPin2), Say::Wrong),
    Gives(1000, First(WrongPin2), Say::Wrong),
    Gives(1000, First(TryMain), Say::Proved(1300)),
    Bars(1000, Clear, Say::AllClear),
    Bars(1000, Clear, Say::Ok),
    Gives(1000, Clear, Say::Cleared),
    Gives(
        1000,
        First(List),
        Say::Factors([
            Listed::Password(Word::Main),
            Listed::Pin(Word::Pin, 0),
            Listed::Pin(Word::Pin2, 4),
        ]),
    ),
    Gives(1000, Clear, Say::Cleared),
    Bars(1000, Clear, Say::Cleared),
    Gives(1000, Clear, Say::AllClear),
    Gives(
        1000,
        First(List),
        Say::Factors([
            Listed::Password(Word::Main),
            Listed::Pin(Word::Pin, 0),
            Listed::Pin(Word::Pin2, 0),
        ]),
    ),
];

// An account that is opened again between two clearings.
const CLEARED_IN_PART: &[Row] = &[
    Gives(1000, First(AddPin2), Say::Ok),
    Gives(1000, First(WrongPin), Say::Wrong),
    Gives(1000, First(WrongPin), Say::Wrong),
    Gives(1000, First(WrongPin), Say::Wrong),
    Gives(1000, First(WrongPin2), Say::Wrong),
    Gives(1000, First(WrongPin2), Say::Wrong),
    Gives(1000, First(WrongPin2), Say::Wrong),
    Gives(1000, First(WrongPin2), Say::Wrong),
    Gives(1000, First(TryMain), Say::Proved(1300)),
    Gives(1000, Clear, Say::Cleared),
    Opens(2, 2000),
    Gives(
        2000,
        First(List),
        Say::Factors([
            Listed::Password(Word::Main),
            Listed::Pin(Word::Pin, 0),
            Listed::Pin(Word::Pin2, 4),
        ]),
    ),
    Gives(2000, Clear, Say::No(Refused::UnknownSession)),
];

// A clearing sets a delay back, too.
const DELAY_CLEARED: &[Row] = &[
    Gives(1000, First(WrongPin), Say::Wrong),
    Gives(1000, First(WrongPin), Say::Wrong),
    Gives(1000, First(WrongPin), Say::Wrong),
    Gives(1000, First(WrongPin), Say::Wrong),
    Gives(1000, First(WrongPin), Say::Wrong),
    Gives(1001, First(TryPin), Say::Delayed(29)),
    Gives(1001, First(TryMain), Say::Proved(1301)),
    Gives(1001, Clear, Say::Cleared),
    Gives(1001, First(TryPin), Say::Ends(1301)),
];

const SCRIPTS: &[Script] = &[
    ("four wrong PINs, then the right one", FOUR_WRONG),
    ("five wrong PINs delay the next one", FIVE_WRONG),
    ("ten wrong PINs lock until a reset", TEN_WRONG),
    ("a delay over a boot", DELAYED_OVER_A_BOOT),
    ("a delay in one boot", DELAYED_IN_ONE_BOOT),
    ("a PIN's own schedule", OWN_SCHEDULE),
    ("a new PIN has no count", UPDATED),
    ("a right password clears the PINs", CLEARED),
    ("clearings that are cut off", CLEARED_IN_PART),
    ("a clearing ends a delay", DELAY_CLEARED),
];

#[test]
fn pins_are_counted_so(rt: HostRuntime) -> Outcome {
    for (name, rows) in SCRIPTS {
        assert_eq!(rt; stops_at(rt.alloc(), SETUP, rows)?, None, "{name}");
    }
    Ok(())
}
