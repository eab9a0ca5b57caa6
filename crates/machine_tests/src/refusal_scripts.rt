//! Scripts of refusals: each request's refusals in their order. Where one is shown, those after it that may
//! apply with it do.

use crate::answers::{Listed, Say, Word};
use crate::requests::Line::*;
use crate::script::Ask::{Clear, First, Forged, Look, Second};
use crate::script::Row::{Bars, Gives, Numbers};
use crate::script::{Row, SETUP, Script, stops_at};
use account_machine::Refused;
use std::test;

type Outcome = Result<(), test::Fail>;

const NO_HOME: &[Row] = &[
    Numbers(18446744073709551615),
    Gives(1000, First(Start), Say::No(Refused::NoHome)),
    Gives(1000, First(Extend), Say::No(Refused::NoHome)),
    Gives(1000, First(End), Say::No(Refused::NoHome)),
    Gives(1000, First(TryNone), Say::No(Refused::NoHome)),
    Gives(1000, First(AddEmptyAlt), Say::No(Refused::NoHome)),
    Gives(1000, First(UpdateNone), Say::No(Refused::NoHome)),
    Gives(1000, First(RemoveNone), Say::No(Refused::NoHome)),
    Gives(1000, First(ResetNone), Say::No(Refused::NoHome)),
    Gives(1000, First(List), Say::No(Refused::NoHome)),
    Gives(1000, First(Mount), Say::No(Refused::NoHome)),
    Gives(1000, First(Unmount), Say::No(Refused::NoHome)),
    Gives(1000, First(Put), Say::No(Refused::NoHome)),
    Gives(1000, First(Get), Say::No(Refused::NoHome)),
    Gives(1000, First(ListFiles), Say::No(Refused::NoHome)),
    Gives(1000, Look(Word::Main), Say::Seen(None)),
    Gives(1000, Clear, Say::No(Refused::UnknownSession)),
];

const NO_SESSION: &[Row] = &[
    Gives(1000, First(Create), Say::Ok),
    Gives(1000, First(Extend), Say::No(Refused::UnknownSession)),
    Gives(1000, First(End), Say::No(Refused::UnknownSession)),
    Gives(1000, First(TryNone), Say::No(Refused::UnknownSession)),
    Gives(1000, First(AddEmptyAlt), Say::No(Refused::UnknownSession)),
    Gives(1000, First(AddShortPin2), Say::No(Refused::UnknownSession)),
    Gives(1000, First(UpdateNone), Say::No(Refused::UnknownSession)),
    Gives(1000, First(RemoveNone), Say::No(Refused::UnknownSession)),
    Gives(1000, First(ResetNone), Say::No(Refused::UnknownSession)),
    Gives(1000, First(Mount), Say::No(Refused::UnknownSession)),
    Gives(1000, Clear, Say::No(Refused::UnknownSession)),
];

// The first session is for verifying, and no secret was proved in it. The second mounts the vault.
const EXPIRED: &[Row] = &[
    Gives(1000, First(Create), Say::Ok),
    Gives(1000, First(StartVerify), Say::Session(1300, 1)),
    Gives(1000, First(Start), Say::Session(1300, 2)),
    Gives(1000, Second(AddMain), Say::Ok),
    Gives(1000, Second(Mount), Say::Ok),
    Gives(1300, First(Extend), Say::No(Refused::Expired)),
    Gives(1300, First(TryNone), Say::No(Refused::Expired)),
    Gives(1300, First(AddMainAgain), Say::No(Refused::Expired)),
    Gives(1300, First(UpdateNone), Say::No(Refused::Expired)),
    Gives(1300, First(RemoveNone), Say::No(Refused::Expired)),
    Gives(1300, First(ResetNone), Say::No(Refused::Expired)),
    Gives(1300, First(Mount), Say::No(Refused::Expired)),
    Gives(1300, Clear, Say::No(Refused::Expired)),
    Gives(1300, Forged(Mount), Say::No(Refused::UnknownSession)),
    Bars(1300, First(End), Say::No(Refused::Expired)),
    Gives(1300, First(End), Say::Ok),
    Gives(1300, First(Mount), Say::No(Refused::UnknownSession)),
];

const FOR_VERIFYING: &[Row] = &[
    Gives(1000, First(Create), Say::Ok),
    Gives(1000, First(StartVerify), Say::Session(1300, 1)),
    Gives(1000, First(AddMain), Say::No(Refused::WrongIntent)),
    Gives(1000, First(Start), Say::Session(1300, 2)),
    Gives(1000, Second(AddMain), Say::Ok),
    Gives(1000, Second(Mount), Say::Ok),
    Gives(1000, First(Extend), Say::No(Refused::NotAuthorised)),
    Gives(1000, First(TryNone), Say::No(Refused::UnknownFactor)),
    Gives(1000, First(AddMainAgain), Say::No(Refused::WrongIntent)),
    Gives(1000, First(UpdateNone), Say::No(Refused::WrongIntent)),
    Gives(1000, First(RemoveNone), Say::No(Refused::WrongIntent)),
    Gives(1000, First(ResetNone), Say::No(Refused::WrongIntent)),
    Gives(1000, First(Mount), Say::No(Refused::WrongIntent)),
    Gives(1000, Clear, Say::No(Refused::NotAuthorised)),
    Gives(1000, First(TryMain), Say::Proved(1300)),
    Gives(1000, Clear, Say::AllClear),
    Gives(1000, First(Extend), Say::Ends(1600)),
    Gives(1000, First(Mount), Say::No(Refused::WrongIntent)),
];

const NOT_PROVED: &[Row] = &[
    Gives(1000, First(Create), Say::Ok),
    Gives(1000, First(Start), Say::Session(1300, 1)),
    Gives(1000, First(UpdateNone), Say::No(Refused::NotAuthorised)),
    Gives(1000, First(Start), Say::Session(1300, 2)),
    Gives(1000, Second(AddMain), Say::Ok),
    Gives(1000, Second(Mount), Say::Ok),
    Gives(1000, First(Extend), Say::No(Refused::NotAuthorised)),
    Gives(1000, First(TryNone), Say::No(Refused::UnknownFactor)),
    Gives(1000, First(AddMainAgain), Say::No(Refused::NotAuthorised)),
    Gives(1000, First(UpdateNone), Say::No(Refused::NotAuthorised)),
    Gives(1000, First(RemoveNone), Say::No(Refused::NotAuthorised)),
    Gives(1000, First(ResetNone), Say::No(Refused::NotAuthorised)),
    Gives(1000, First(Mount), Say::No(Refused::NotAuthorised)),
    Gives(1000, Clear, Say::No(Refused::NotAuthorised)),
];

const PASSWORD_FIRST: &[Row] = &[
    Gives(1000, First(Create), Say::Ok),
    Gives(1000, First(Start), Say::Session(1300, 1)),
    Gives(1000, First(AddShortPin2), Say::No(Refused::PasswordFirst)),
    Gives(1000, First(AddPin), Say::No(Refused::PasswordFirst)),
    Bars(1000, First(AddPin), Say::Ok),
    Gives(1000, First(AddEmptyAlt), Say::No(Refused::BadSecret)),
    Gives(1000, First(AddMain), Say::Ok),
    Gives(1000, First(AddPin), Say::Ok),
];

// A secret outside its grammar is no try.
const FACTORS: &[Row] = &[
    Gives(1000, First(Create), Say::No(Refused::Exists)),
    Gives(1000, First(TryNone), Say::No(Refused::UnknownFactor)),
    Gives(1000, First(TryEmptyMain), Say::No(Refused::BadSecret)),
    Gives(1000, First(ShortPin), Say::No(Refused::BadSecret)),
    Gives(1000, First(LongPin), Say::No(Refused::BadSecret)),
    Gives(1000, First(PinWithALetter), Say::No(Refused::BadSecret)),
    Gives(
        1000,
        First(List),
        Say::Factors([
            Listed::Password(Word::Main),
            Listed::Pin(Word::Pin, 0),
            Listed::Nothing,
        ]),
    ),
    Gives(1000, First(TryNewMain), Say::Wrong),
    Gives(1000, First(AddMainAgain), Say::No(Refused::FactorExists)),
    Gives(1000, First(AddPin), Say::No(Refused::FactorExists)),
    Gives(1000, First(AddEmptyAlt), Say::No(Refused::BadSecret)),
    Gives(1000, First(AddShortPin2), Say::No(Refused::BadSecret)),
    Gives(1000, First(AddLongPin2), Say::Ok),
    Gives(1000, First(UpdateNone), Say::No(Refused::UnknownFactor)),
    Gives(1000, First(UpdateEmptyMain), Say::No(Refused::BadSecret)),
    Gives(1000, First(UpdateShortPin), Say::No(Refused::BadSecret)),
    Gives(1000, First(RemoveNone), Say::No(Refused::UnknownFactor)),
    Gives(1000, First(RemoveMain), Say::No(Refused::LastPassword)),
    Gives(1000, First(ResetNone), Say::No(Refused::UnknownFactor)),
    Gives(1000, First(ResetMain), Say::No(Refused::UnknownFactor)),
];

const LOCKED: &[Row] = &[
    Gives(1000, First(AddStrict), Say::Ok),
    Gives(1000, First(TryNewStrict), Say::Wrong),
    Gives(1000, First(TryNewStrict), Say::Wrong),
    Gives(1000, First(TryNewStrict), Say::Wrong),
    Gives(1000, First(ShortStrict), Say::No(Refused::BadSecret)),
    Gives(1000, First(TryStrict), Say::Locked),
    Gives(1000, First(TryNewStrict), Say::Locked),
];

const LAST_NUMBERS: &[Row] = &[
    Numbers(18446744073709551614),
    Gives(1000, First(Start), Say::Session(1300, 18446744073709551614)),
    Gives(1000, First(Start), Say::No(Refused::SessionsSpent)),
    Bars(1000, First(Start), Say::Session(1300, 18446744073709551615)),
    Gives(1000, First(AddAlt), Say::Ok),
    Gives(1000, Look(Word::Alt), Say::Seen(Some(18446744073709551614))),
    Gives(1000, First(AddShortPin2), Say::No(Refused::BadSecret)),
    Gives(1000, First(AddPin2), Say::No(Refused::EditionsSpent)),
    Bars(1000, First(AddPin2), Say::Lost),
    Bars(1000, First(AddPin2), Say::Ok),
    Gives(1000, First(UpdateEmptyMain), Say::No(Refused::BadSecret)),
    Gives(1000, First(UpdateMain), Say::No(Refused::EditionsSpent)),
    Gives(1000, First(UpdatePin), Say::No(Refused::EditionsSpent)),
    Bars(1000, First(UpdatePin), Say::Lost),
    Gives(1000, First(TryMain), Say::Proved(1300)),
];

const VAULT: &[Row] = &[
    Gives(1000, First(Unmount), Say::No(Refused::NotMounted)),
    Gives(1000, First(Put), Say::No(Refused::NotMounted)),
    Gives(1000, First(Get), Say::No(Refused::NotMounted)),
    Gives(1000, First(ListFiles), Say::No(Refused::NotMounted)),
    Gives(1000, First(Mount), Say::Ok),
    Gives(1000, First(Mount), Say::No(Refused::AlreadyMounted)),
    Gives(1000, First(Get), Say::No(Refused::UnknownFile)),
    Gives(1000, First(End), Say::Ok),
    Gives(1000, First(Put), Say::Ok),
    Gives(1000, First(Get), Say::Bytes(b"hi")),
    Gives(1000, First(Unmount), Say::Ok),
    Gives(1000, First(Get), Say::No(Refused::NotMounted)),
];

// Where the tree is lost the rows of PINs say so, unless a refusal before it applies. No other row does.
const LOST_TREE: &[Row] = &[
    Gives(1000, First(WrongPin), Say::Wrong),
    Gives(1000, First(TryPin), Say::Lost),
    Gives(1000, First(WrongPin), Say::Lost),
    Bars(1000, First(ShortPin), Say::Lost),
    Bars(1000, First(TryNone), Say::Lost),
    Bars(1000, First(TryMain), Say::Lost),
    Gives(1000, First(AddPin2), Say::Lost),
    Bars(1000, First(AddShortPin2), Say::Lost),
    Bars(1000, First(AddPin), Say::Lost),
    Bars(1000, First(AddAlt), Say::Lost),
    Gives(1000, First(UpdatePin), Say::Lost),
    Bars(1000, First(UpdateShortPin), Say::Lost),
    Bars(1000, First(UpdateMain), Say::Lost),
    Gives(1000, First(RemovePin), Say::Lost),
    Bars(1000, First(RemoveNone), Say::Lost),
    Bars(1000, First(RemoveMain), Say::Lost),
    Gives(1000, First(ResetPin), Say::Lost),
    Bars(1000, First(ResetMain), Say::Lost),
    Bars(1000, First(ResetNone), Say::Lost),
    Gives(1000, Clear, Say::Lost),
    Bars(1000, Look(Word::Pin), Say::Lost),
    Bars(1000, First(Create), Say::Lost),
    Bars(1000, First(Start), Say::Lost),
    Bars(1000, First(Extend), Say::Lost),
    Bars(1000, First(End), Say::Lost),
    Bars(1000, First(List), Say::Lost),
    Bars(1000, First(Mount), Say::Lost),
    Gives(
        1000,
        First(List),
        Say::Factors([
            Listed::Password(Word::Main),
            Listed::Hidden(Word::Pin),
            Listed::Nothing,
        ]),
    ),
    Bars(
        1000,
        First(List),
        Say::Factors([
            Listed::Hidden(Word::Main),
            Listed::Hidden(Word::Pin),
            Listed::Nothing,
        ]),
    ),
    Bars(
        1000,
        First(List),
        Say::Factors([
            Listed::Password(Word::Main),
            Listed::Nothing,
            Listed::Nothing,
        ]),
    ),
    Gives(1000, First(TryMain), Say::Proved(1300)),
    Gives(1000, First(Mount), Say::Ok),
    Bars(1000, First(Unmount), Say::Lost),
    Bars(1000, First(Put), Say::Lost),
    Gives(1000, First(Put), Say::Ok),
    Bars(1000, First(Get), Say::Lost),
    Bars(1000, First(ListFiles), Say::Lost),
    Gives(1000, First(Get), Say::Bytes(b"hi")),
    Gives(
        1000,
        First(List),
        Say::Factors([
            Listed::Password(Word::Main),
            Listed::Pin(Word::Pin, 1),
            Listed::Nothing,
        ]),
    ),
    Gives(1000, Look(Word::Pin), Say::Seen(Some(2))),
    Gives(1300, Clear, Say::No(Refused::Expired)),
    Bars(1300, Clear, Say::Lost),
    Bars(1300, First(TryPin), Say::Lost),
];

// And it comes before the lock and the delay.
const LOST_TREE_OF_A_LOCKED_PIN: &[Row] = &[
    Gives(1000, First(AddStrict), Say::Ok),
    Gives(1000, First(TryNewStrict), Say::Wrong),
    Gives(1000, First(TryNewStrict), Say::Wrong),
    Gives(1000, First(TryNewStrict), Say::Wrong),
    Gives(1000, First(TryStrict), Say::Lost),
    Gives(1000, First(TryStrict), Say::Locked),
    Gives(
        1000,
        First(List),
        Say::Factors([
            Listed::Password(Word::Main),
            Listed::Hidden(Word::Pin),
            Listed::Hidden(Word::Strict),
        ]),
    ),
    Bars(
        1000,
        First(List),
        Say::Factors([
            Listed::Password(Word::Main),
            Listed::Hidden(Word::Pin),
            Listed::Pin(Word::Strict, 3),
        ]),
    ),
];

const FROM_NOTHING: &[Script] = &[
    ("no home", NO_HOME),
    ("no session", NO_SESSION),
    ("an expired session", EXPIRED),
    ("a session for verifying", FOR_VERIFYING),
    ("a session without a proof", NOT_PROVED),
    ("a password first", PASSWORD_FIRST),
];

const AFTER_SETUP: &[Script] = &[
    ("factors and secrets", FACTORS),
    ("a bad secret for a locked PIN", LOCKED),
    ("the last numbers", LAST_NUMBERS),
    ("a vault", VAULT),
    ("a lost tree", LOST_TREE),
    ("a lost tree and a locked PIN", LOST_TREE_OF_A_LOCKED_PIN),
];

#[test]
fn homes_and_sessions_are_tested_first(rt: HostRuntime) -> Outcome {
    for (name, rows) in FROM_NOTHING {
        assert_eq!(rt; stops_at(rt.alloc(), &[], rows)?, None, "{name}");
    }
    Ok(())
}

#[test]
fn what_is_asked_of_factors_and_files_is_tested_next(rt: HostRuntime) -> Outcome {
    for (name, rows) in AFTER_SETUP {
        assert_eq!(rt; stops_at(rt.alloc(), SETUP, rows)?, None, "{name}");
    }
    Ok(())
}
