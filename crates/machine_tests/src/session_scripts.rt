//! Scripts of homes, sessions and vaults.

use crate::answers::{Listed, NO_FACTORS, NO_FILES, Say, Word};
use crate::requests::Line::*;
use crate::script::Ask::{Clear, First, Forged, Look, Second, Third};
use crate::script::Row::{Bars, Gives, Opens};
use crate::script::{Row, SETUP, Script, stops_at};
use account_machine::Refused;
use std::test;

type Outcome = Result<(), test::Fail>;

const ORDINARY_USE: &[Row] = &[
    Gives(1000, First(Create), Say::Ok),
    Gives(1000, First(Start), Say::Session(1300, 1)),
    Gives(1000, First(AddMain), Say::Ok),
    Gives(1000, First(TryMain), Say::Proved(1300)),
    Gives(1000, Clear, Say::AllClear),
    Gives(1000, First(Mount), Say::Ok),
    Gives(1000, First(Put), Say::Ok),
    Gives(1000, First(AddPin), Say::Ok),
    Gives(1000, First(Unmount), Say::Ok),
    Gives(1000, First(Start), Say::Session(1300, 2)),
    Gives(1000, Second(TryPin), Say::Ends(1300)),
    Gives(1000, Second(Mount), Say::Ok),
    Gives(1000, First(Get), Say::Bytes(b"hi")),
    Gives(
        1000,
        First(List),
        Say::Factors([
            Listed::Password(Word::Main),
            Listed::Pin(Word::Pin, 0),
            Listed::Nothing,
        ]),
    ),
];

const CREATED_TWICE: &[Row] = &[
    Gives(1000, First(Create), Say::Ok),
    Bars(1001, First(Create), Say::Ok),
    Gives(1001, First(Create), Say::No(Refused::Exists)),
    Gives(1001, First(List), NO_FACTORS),
    Gives(1099511627775, First(Start), Say::Session(1099511628075, 1)),
    Bars(1099511627774, First(Create), Say::No(Refused::Exists)),
    Bars(1099511627776, First(Create), Say::No(Refused::Exists)),
];

// The first factor proves the session that adds it, whose end stays, and no other.
const FIRST_FACTOR: &[Row] = &[
    Gives(1000, First(Create), Say::Ok),
    Gives(1000, First(Start), Say::Session(1300, 1)),
    Gives(1000, First(Start), Say::Session(1300, 2)),
    Gives(1200, First(AddMain), Say::Ok),
    Gives(1200, Second(TryNewMain), Say::Wrong),
    Gives(1200, Second(Mount), Say::No(Refused::NotAuthorised)),
    Gives(1200, Second(AddPin), Say::No(Refused::NotAuthorised)),
    Gives(1200, First(AddPin), Say::Ok),
    Gives(1299, First(Mount), Say::Ok),
    Gives(1300, First(Extend), Say::No(Refused::Expired)),
];

const FORGED_TOKEN: &[Row] = &[
    Gives(1000, Forged(Mount), Say::No(Refused::UnknownSession)),
    Gives(1000, Forged(End), Say::No(Refused::UnknownSession)),
    Gives(1000, Second(Mount), Say::No(Refused::UnknownSession)),
    Gives(1000, First(Mount), Say::Ok),
    Gives(1000, First(End), Say::Ok),
    Gives(1000, First(End), Say::No(Refused::UnknownSession)),
    Gives(1000, First(Extend), Say::No(Refused::UnknownSession)),
    Gives(1000, Clear, Say::No(Refused::UnknownSession)),
];

const EXTENSION: &[Row] = &[
    Bars(1299, First(Extend), Say::Ends(1599)),
    Gives(1299, First(Extend), Say::Ends(1600)),
    Gives(1300, First(Mount), Say::Ok),
    Gives(1599, First(ExtendBy1), Say::Ends(1601)),
    Gives(1600, First(Unmount), Say::Ok),
    Gives(1600, First(Extend), Say::Ends(1901)),
    Gives(1600, First(Extend), Say::Ends(2200)),
    Bars(1600, First(Extend), Say::Ends(2500)),
    Gives(1600, First(ExtendBy1), Say::Ends(2200)),
    Gives(2199, First(Mount), Say::Ok),
    Gives(2200, First(Mount), Say::No(Refused::Expired)),
];

const WITHOUT_EXTENSION: &[Row] = &[
    Bars(1300, First(Mount), Say::Ok),
    Gives(1300, First(Mount), Say::No(Refused::Expired)),
    Gives(1300, Forged(Mount), Say::No(Refused::UnknownSession)),
];

// A right secret moves an end that is nearer than 300 seconds, and no other.
const PROOF_AND_END: &[Row] = &[
    Gives(1000, First(Extend), Say::Ends(1600)),
    Bars(1299, First(TryMain), Say::Proved(1599)),
    Gives(1299, First(TryMain), Say::Proved(1600)),
    Gives(1300, First(TryPin), Say::Ends(1600)),
    Gives(1301, First(TryPin), Say::Ends(1601)),
    Gives(1400, First(TryMain), Say::Proved(1700)),
    Bars(1400, First(TryMain), Say::Ends(1700)),
    Bars(1400, First(TryPin), Say::Proved(1700)),
];

const INTENTS: &[Row] = &[
    Gives(1000, First(StartVerify), Say::Session(1300, 2)),
    Gives(1000, Second(Extend), Say::No(Refused::NotAuthorised)),
    Gives(1000, Second(TryPin), Say::Ends(1300)),
    Gives(1000, Second(Extend), Say::Ends(1600)),
    Gives(1000, Second(Mount), Say::No(Refused::WrongIntent)),
    Gives(1000, Second(TryMain), Say::Proved(1600)),
    Gives(1000, Second(UpdateMain), Say::No(Refused::WrongIntent)),
    Gives(1000, First(Start), Say::Session(1300, 3)),
    Gives(1000, Third(Mount), Say::No(Refused::NotAuthorised)),
    Gives(1000, First(Mount), Say::Ok),
    Gives(1000, First(Mount), Say::No(Refused::AlreadyMounted)),
    Gives(1000, First(Unmount), Say::Ok),
    Gives(1000, First(Get), Say::No(Refused::NotMounted)),
];

// Editions count the factors as they are made. A look tells them, and a label has one factor.
const EDITIONS: &[Row] = &[
    Gives(1000, Look(Word::Main), Say::Seen(Some(1))),
    Gives(1000, Look(Word::Pin), Say::Seen(Some(2))),
    Gives(1000, Look(Word::Alt), Say::Seen(None)),
    Bars(1000, Look(Word::Main), Say::Seen(None)),
    Bars(1000, Look(Word::Main), Say::Ok),
    Gives(1000, First(AddAlt), Say::Ok),
    Gives(1000, Look(Word::Alt), Say::Seen(Some(3))),
    Gives(1000, First(UpdateMain), Say::Ok),
    Gives(1000, Look(Word::Main), Say::Seen(Some(4))),
    Gives(1000, First(TryMain), Say::Wrong),
    Gives(1000, First(TryNewMain), Say::Proved(1300)),
    Gives(1000, First(RemoveAlt), Say::Ok),
    Gives(1000, Look(Word::Alt), Say::Seen(None)),
    Gives(1000, First(TryAlt), Say::No(Refused::UnknownFactor)),
    Gives(1000, First(AddAlt), Say::Ok),
    Gives(1000, Look(Word::Alt), Say::Seen(Some(5))),
];

// A home keeps one password, whichever it is.
const LAST_PASSWORD: &[Row] = &[
    Gives(1000, First(RemoveMain), Say::No(Refused::LastPassword)),
    Bars(1000, First(RemoveMain), Say::Ok),
    Gives(1000, First(AddAlt), Say::Ok),
    Gives(
        1000,
        First(List),
        Say::Factors([
            Listed::Password(Word::Alt),
            Listed::Password(Word::Main),
            Listed::Pin(Word::Pin, 0),
        ]),
    ),
    Gives(1000, First(RemoveMain), Say::Ok),
    Gives(1000, First(RemoveAlt), Say::No(Refused::LastPassword)),
    Gives(1000, First(TryMain), Say::No(Refused::UnknownFactor)),
    Gives(1000, First(RemovePin), Say::Ok),
    Gives(
        1000,
        First(List),
        Say::Factors([
            Listed::Password(Word::Alt),
            Listed::Nothing,
            Listed::Nothing,
        ]),
    ),
];

const FILES: &[Row] = &[
    Gives(1000, First(Mount), Say::Ok),
    Gives(1000, First(ListFiles), NO_FILES),
    Gives(1000, First(Put), Say::Ok),
    Gives(1000, First(PutNothing), Say::Ok),
    Gives(1000, First(PutCapital), Say::Ok),
    Gives(
        1000,
        First(ListFiles),
        Say::Files([Word::Z, Word::A, Word::Note]),
    ),
    Bars(
        1000,
        First(ListFiles),
        Say::Files([Word::A, Word::Note, Word::Z]),
    ),
    Bars(
        1000,
        First(ListFiles),
        Say::Files([Word::Z, Word::A, Word::Nothing]),
    ),
    Gives(1000, First(PutOtherBytes), Say::Ok),
    Gives(1000, First(Get), Say::Bytes(&[0x00, 0xff])),
    Bars(1000, First(Get), Say::Bytes(b"hi")),
    Gives(1000, First(GetNothing), Say::Bytes(b"")),
    Gives(1000, First(Unmount), Say::Ok),
    Gives(1000, First(Mount), Say::Ok),
    Gives(
        1000,
        First(ListFiles),
        Say::Files([Word::Z, Word::A, Word::Note]),
    ),
];

// What is durable stays when the account is opened again. Sessions, their numbers and the mount don't.
const OPENED_AGAIN: &[Row] = &[
    Gives(1000, First(Mount), Say::Ok),
    Gives(1000, First(Put), Say::Ok),
    Gives(1000, First(WrongPin), Say::Wrong),
    Opens(2, 1200),
    Bars(1199, First(ListFiles), Say::No(Refused::NotMounted)),
    Gives(1200, First(ListFiles), Say::No(Refused::NotMounted)),
    Gives(1200, First(Mount), Say::No(Refused::UnknownSession)),
    Gives(
        1200,
        First(List),
        Say::Factors([
            Listed::Password(Word::Main),
            Listed::Pin(Word::Pin, 1),
            Listed::Nothing,
        ]),
    ),
    Gives(1200, First(Start), Say::Session(1500, 1)),
    Gives(1200, First(TryMain), Say::Proved(1500)),
    Gives(1200, First(Mount), Say::Ok),
    Gives(1200, First(Get), Say::Bytes(b"hi")),
    Gives(1200, First(AddAlt), Say::Ok),
    Gives(1200, Look(Word::Alt), Say::Seen(Some(3))),
];

const FROM_NOTHING: &[Script] = &[
    ("ordinary use", ORDINARY_USE),
    ("a home that is created twice", CREATED_TWICE),
    ("a home's first factor", FIRST_FACTOR),
];

const AFTER_SETUP: &[Script] = &[
    ("a forged token", FORGED_TOKEN),
    ("a session that is extended", EXTENSION),
    ("a session that isn't extended", WITHOUT_EXTENSION),
    ("a right secret and the session's end", PROOF_AND_END),
    ("intents", INTENTS),
    ("editions", EDITIONS),
    ("the last password", LAST_PASSWORD),
    ("files", FILES),
    ("an account that is opened again", OPENED_AGAIN),
];

#[test]
fn homes_begin_so(rt: HostRuntime) -> Outcome {
    for (name, rows) in FROM_NOTHING {
        assert_eq!(rt; stops_at(rt.alloc(), &[], rows)?, None, "{name}");
    }
    Ok(())
}

#[test]
fn homes_are_used_so(rt: HostRuntime) -> Outcome {
    for (name, rows) in AFTER_SETUP {
        assert_eq!(rt; stops_at(rt.alloc(), SETUP, rows)?, None, "{name}");
    }
    Ok(())
}
