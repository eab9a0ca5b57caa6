//! Scripts of answers in place of a row's, and of the reload after a storage fault.

use crate::answers::{Listed, NO_FACTORS, NO_FILES, Say, Word};
use crate::requests::Line::*;
use crate::script::Ask::{Clear, First, Look, Second};
use crate::script::Row::{Bars, BarsReload, Gives, Reloads};
use crate::script::{Row, SETUP, Script, stops_at};
use account_machine::{Refused, Told};
use std::test;

type Outcome = Result<(), test::Fail>;

// A settled account isn't reloaded.
const SETTLED: &[Row] = &[
    Bars(1000, First(Create), Say::No(Refused::Exists)),
    Bars(1000, First(Create), Say::Unknown),
    BarsReload(1000, Told::Before, First(Create), Say::Ok),
    BarsReload(1000, Told::Before, First(Create), Say::Fault),
    BarsReload(1000, Told::Before, First(Create), Say::NoMemory),
    BarsReload(1000, Told::Before, First(Create), Say::Damaged(Word::Stash)),
    BarsReload(1000, Told::After, First(Create), Say::Ok),
    BarsReload(1000, Told::After, First(Create), Say::No(Refused::Exists)),
    BarsReload(1000, Told::After, First(Create), Say::Fault),
    BarsReload(1000, Told::After, First(Create), Say::NoMemory),
    BarsReload(1000, Told::After, First(Create), Say::Damaged(Word::Stash)),
    BarsReload(1000, Told::Failed, First(Create), Say::Ok),
    BarsReload(1000, Told::Failed, First(Create), Say::Fault),
    BarsReload(1000, Told::Failed, First(Create), Say::NoMemory),
    BarsReload(1000, Told::Failed, First(Create), Say::Damaged(Word::Stash)),
    Gives(1000, First(Create), Say::NoMemory),
    Gives(1000, First(Create), Say::Damaged(Word::Stash)),
    Gives(1000, First(List), Say::No(Refused::NoHome)),
    Gives(1000, First(Create), Say::Ok),
    Bars(1000, First(Create), Say::Ok),
    Bars(1000, First(Create), Say::Unknown),
    Gives(1000, First(Create), Say::NoMemory),
    Gives(1000, First(Create), Say::Damaged(Word::Stash)),
    Gives(1000, First(Create), Say::No(Refused::Exists)),
];

// An unsettled account takes nothing without a reload, and stays unsettled until one works.
const UNSETTLED: &[Row] = &[
    Gives(1000, First(Create), Say::Fault),
    Bars(1001, First(Create), Say::Ok),
    Bars(1001, First(Create), Say::No(Refused::Exists)),
    Bars(1001, First(Create), Say::Fault),
    Bars(1001, First(Create), Say::NoMemory),
    Bars(1001, First(Create), Say::Damaged(Word::Stash)),
    Bars(1001, Look(Word::Main), Say::Seen(None)),
    BarsReload(1001, Told::Failed, First(Create), Say::Ok),
    BarsReload(1001, Told::Failed, First(Create), Say::No(Refused::Exists)),
    BarsReload(1001, Told::Failed, First(Create), Say::Unknown),
    BarsReload(1001, Told::Failed, Look(Word::Main), Say::Seen(None)),
    Reloads(1001, Told::Failed, First(Create), Say::Fault),
    Reloads(1001, Told::Failed, First(Create), Say::NoMemory),
    Reloads(1001, Told::Failed, First(Create), Say::Damaged(Word::Stash)),
    Reloads(1001, Told::Failed, Look(Word::Main), Say::Fault),
    Reloads(1001, Told::Failed, Clear, Say::Fault),
    BarsReload(1002, Told::Before, First(Create), Say::No(Refused::Exists)),
    BarsReload(1002, Told::Before, First(Create), Say::Unknown),
    BarsReload(1002, Told::After, First(Create), Say::Ok),
    BarsReload(1002, Told::After, First(Create), Say::Unknown),
    Reloads(1002, Told::After, First(Create), Say::No(Refused::Exists)),
    BarsReload(1002, Told::After, First(Create), Say::No(Refused::Exists)),
    Gives(1002, First(List), NO_FACTORS),
];

// What didn't happen may fail again. A reload settles the account also where nothing is answered of it.
const UNDONE: &[Row] = &[
    Gives(1000, First(Create), Say::Fault),
    Reloads(1001, Told::Before, First(Create), Say::Fault),
    Reloads(1001, Told::Before, First(List), Say::No(Refused::NoHome)),
    Gives(1001, First(Create), Say::Fault),
    Reloads(1001, Told::Before, First(Create), Say::NoMemory),
    Gives(1001, First(Create), Say::Fault),
    Reloads(1001, Told::Before, Look(Word::Main), Say::Seen(None)),
    Gives(1001, First(Create), Say::Fault),
    Reloads(1001, Told::Before, First(Create), Say::Ok),
    Gives(1001, First(Create), Say::No(Refused::Exists)),
];

const DONE: &[Row] = &[
    Gives(1000, First(Create), Say::Fault),
    Reloads(1001, Told::After, First(Create), Say::Damaged(Word::Stash)),
    Gives(1001, First(Create), Say::No(Refused::Exists)),
    Gives(1001, First(Create), Say::Fault),
    Reloads(1001, Told::Before, First(Create), Say::No(Refused::Exists)),
    Gives(1001, First(Create), Say::Fault),
    Reloads(1001, Told::After, First(Create), Say::No(Refused::Exists)),
];

// A factor that is added while a device fails.
const ADDED: &[Row] = &[
    Gives(1000, First(AddAlt), Say::Fault),
    Reloads(
        1000,
        Told::Before,
        First(List),
        Say::Factors([
            Listed::Password(Word::Main),
            Listed::Pin(Word::Pin, 0),
            Listed::Nothing,
        ]),
    ),
    Gives(1000, Look(Word::Alt), Say::Seen(None)),
    Gives(1000, First(AddAlt), Say::Fault),
    BarsReload(1000, Told::After, Look(Word::Alt), Say::Seen(None)),
    Reloads(
        1000,
        Told::After,
        First(List),
        Say::Factors([
            Listed::Password(Word::Alt),
            Listed::Password(Word::Main),
            Listed::Pin(Word::Pin, 0),
        ]),
    ),
    Gives(1000, Look(Word::Alt), Say::Seen(Some(3))),
    Gives(1000, First(TryAlt), Say::Proved(1300)),
    Gives(1000, First(UpdateMain), Say::Fault),
    Reloads(1000, Told::Before, First(TryMain), Say::Proved(1300)),
    Gives(1000, First(UpdateMain), Say::Fault),
    Reloads(1000, Told::After, Look(Word::Main), Say::Seen(Some(4))),
    Gives(1000, First(TryMain), Say::Wrong),
    Gives(1000, First(TryNewMain), Say::Proved(1300)),
    Gives(1000, First(RemovePin), Say::Fault),
    Reloads(1000, Told::Before, Look(Word::Pin), Say::Seen(Some(2))),
    Gives(1000, First(RemovePin), Say::Fault),
    Reloads(1000, Told::After, Look(Word::Pin), Say::Seen(None)),
];

// What a wrong PIN, a right one, a reset and a clearing leave open is the count.
const COUNTED: &[Row] = &[
    Gives(1000, First(WrongPin), Say::Fault),
    Reloads(
        1000,
        Told::Before,
        First(List),
        Say::Factors([
            Listed::Password(Word::Main),
            Listed::Pin(Word::Pin, 0),
            Listed::Nothing,
        ]),
    ),
    Gives(1000, First(WrongPin), Say::Fault),
    Reloads(
        1000,
        Told::After,
        First(List),
        Say::Factors([
            Listed::Password(Word::Main),
            Listed::Pin(Word::Pin, 1),
            Listed::Nothing,
        ]),
    ),
    Gives(1000, First(TryPin), Say::Fault),
    Reloads(1000, Told::Before, First(WrongPin), Say::Wrong),
    Gives(
        1000,
        First(List),
        Say::Factors([
            Listed::Password(Word::Main),
            Listed::Pin(Word::Pin, 2),
            Listed::Nothing,
        ]),
    ),
    Gives(1000, First(TryPin), Say::Fault),
    Reloads(1000, Told::After, First(WrongPin), Say::Wrong),
    Gives(
        1000,
        First(List),
        Say::Factors([
            Listed::Password(Word::Main),
            Listed::Pin(Word::Pin, 1),
            Listed::Nothing,
        ]),
    ),
    Gives(1000, First(ResetPin), Say::Fault),
    Reloads(1000, Told::Before, First(ResetPin), Say::Fault),
    Reloads(1000, Told::After, Clear, Say::AllClear),
    Gives(1000, First(WrongPin), Say::Wrong),
    Gives(1000, Clear, Say::Fault),
    Reloads(1000, Told::Before, Clear, Say::Fault),
    BarsReload(1000, Told::After, Clear, Say::Cleared),
    BarsReload(1000, Told::Before, Clear, Say::AllClear),
    Reloads(1000, Told::After, Clear, Say::AllClear),
];

const PUT_IN_A_VAULT: &[Row] = &[
    Gives(1000, First(Mount), Say::Ok),
    Gives(1000, First(Put), Say::Fault),
    Reloads(
        1000,
        Told::Before,
        First(Get),
        Say::No(Refused::UnknownFile),
    ),
    Gives(1000, First(Put), Say::Fault),
    Reloads(1000, Told::After, First(Get), Say::Bytes(b"hi")),
    Gives(1000, First(PutOtherBytes), Say::Fault),
    Reloads(1000, Told::Before, First(Get), Say::Bytes(b"hi")),
    Gives(1000, First(Get), Say::Damaged(Word::FileRecord)),
    Gives(1000, First(Get), Say::Bytes(b"hi")),
];

// Sessions and the mount stay where a device fails, whatever the reload tells.
const SESSIONS: &[Row] = &[
    Gives(1000, First(Start), Say::Fault),
    Reloads(1000, Told::After, First(Start), Say::Session(1300, 2)),
    Gives(1000, Second(TryMain), Say::Fault),
    Reloads(
        1000,
        Told::After,
        Second(Mount),
        Say::No(Refused::NotAuthorised),
    ),
    Gives(1000, First(Extend), Say::Fault),
    Reloads(1000, Told::Before, First(Extend), Say::Ends(1600)),
    Gives(1000, First(End), Say::Fault),
    Reloads(1000, Told::After, First(Mount), Say::Fault),
    Reloads(1000, Told::After, First(Get), Say::No(Refused::NotMounted)),
    Gives(1000, First(Mount), Say::Ok),
    Gives(1000, First(Unmount), Say::Fault),
    Reloads(1000, Told::Before, First(ListFiles), NO_FILES),
    Gives(1000, First(ListFiles), Say::Fault),
    Reloads(1000, Told::After, First(ListFiles), NO_FILES),
];

// Want of memory and damage change nothing. A look has neither.
const NOTHING_CHANGED: &[Row] = &[
    Gives(1000, First(WrongPin), Say::Wrong),
    Gives(1000, First(Start), Say::NoMemory),
    Gives(1000, First(Start), Say::Session(1300, 2)),
    Gives(1000, First(Extend), Say::NoMemory),
    Gives(1000, First(Extend), Say::Ends(1600)),
    Gives(1000, Second(TryMain), Say::Damaged(Word::Stash)),
    Gives(1000, Second(Mount), Say::No(Refused::NotAuthorised)),
    Gives(1000, First(TryPin), Say::Damaged(Word::Leaf)),
    Gives(1000, First(WrongPin), Say::NoMemory),
    Gives(1000, Clear, Say::NoMemory),
    Gives(1000, Clear, Say::Damaged(Word::Stash)),
    Gives(1000, First(ResetPin), Say::NoMemory),
    Gives(1000, First(RemovePin), Say::NoMemory),
    Gives(1000, First(UpdatePin), Say::Damaged(Word::FactorRecord)),
    Gives(1000, First(AddAlt), Say::NoMemory),
    Gives(1000, First(List), Say::NoMemory),
    Gives(
        1000,
        First(List),
        Say::Factors([
            Listed::Password(Word::Main),
            Listed::Pin(Word::Pin, 1),
            Listed::Nothing,
        ]),
    ),
    Gives(1000, Look(Word::Pin), Say::Seen(Some(2))),
    Gives(1000, First(Mount), Say::Damaged(Word::Stash)),
    Gives(1000, First(Put), Say::No(Refused::NotMounted)),
    Gives(1000, First(Mount), Say::Ok),
    Gives(1000, First(Put), Say::NoMemory),
    Gives(1000, First(ListFiles), NO_FILES),
    Gives(1000, First(Unmount), Say::NoMemory),
    Gives(1000, First(Mount), Say::No(Refused::AlreadyMounted)),
    Gives(1000, First(End), Say::NoMemory),
    Gives(1000, First(Create), Say::NoMemory),
    Gives(1000, First(TryMain), Say::Proved(1600)),
    Bars(1000, Look(Word::Pin), Say::NoMemory),
    Bars(1000, Look(Word::Pin), Say::Damaged(Word::Stash)),
    Bars(1000, Look(Word::Pin), Say::Fault),
];

const FROM_NOTHING: &[Script] = &[
    ("a settled account", SETTLED),
    ("an unsettled account", UNSETTLED),
    ("a create that wasn't done", UNDONE),
    ("a create that was done", DONE),
];

const AFTER_SETUP: &[Script] = &[
    ("a factor", ADDED),
    ("a count", COUNTED),
    ("a file", PUT_IN_A_VAULT),
    ("sessions and the mount", SESSIONS),
    ("want of memory and damage", NOTHING_CHANGED),
];

#[test]
fn a_create_may_fail_so(rt: HostRuntime) -> Outcome {
    for (name, rows) in FROM_NOTHING {
        assert_eq!(rt; stops_at(rt.alloc(), &[], rows)?, None, "{name}");
    }
    Ok(())
}

#[test]
fn requests_may_fail_so(rt: HostRuntime) -> Outcome {
    for (name, rows) in AFTER_SETUP {
        assert_eq!(rt; stops_at(rt.alloc(), SETUP, rows)?, None, "{name}");
    }
    Ok(())
}
