//! Clients that go on only once another was answered.

use crate::board::WaitingBoard;
use crate::homes::{MADE, board_left, empty_board, made_home, serve_two, written};
use crate::kdf::WaitingKdf;
use crate::lines::{
    CREATE, LIST_ANN, LIST_BOB, LIST_FACTORS, START, TRY_MAIN, TRY_NEW, TRY_SPARE, UPDATE_MAIN,
};
use crate::sign::{Sign, Signs};
use crate::source::Line;
use std::test::Fail;
use turn_secrets::PlainKdf;

const STARTED: &str =
    r#"{"answer":"ok","ends":1300,"token":"0000000000000001a04b39174b36cad66d376463cb99835c"}"#;

const PROVED: &str = r#"{"answer":"ok","ends":1300}"#;

const FACTORS: &str =
    r#"{"answer":"ok","factors":[{"kind":"password","label":"main"},{"kind":"password","label":"spare"}]}"#;

const NO_HOME: &str = r#"{"answer":"no_home"}"#;

// Whether text is these lines, each with a line feed.
fn are_lines(text: &[u8], lines: &[&str]) -> bool {
    let mut left = text;
    for line in lines {
        let Some(rest) = left.strip_prefix(line.as_bytes()) else {
            return false;
        };
        let Some(rest) = rest.strip_prefix(b"\n") else {
            return false;
        };
        left = rest;
    }
    left.is_empty()
}

const TRIES: [Line; 2] = [(None, START, None), (None, TRY_MAIN, None)];

const LISTS: [Line; 1] = [(Some(Sign::KeyBegun), LIST_FACTORS, Some(Sign::Answered))];

// While one client's key is derived, another is told the same account's factors: no lock is held.
#[test]
fn no_lock_is_held_while_a_key_is_derived(rt: HostRuntime) -> Result<(), Fail> {
    let alloc = rt.alloc();
    let board = made_home(&rt, alloc)?;
    let signs = Signs::new();
    let kdf = WaitingKdf { signs: &signs };
    let served = serve_two(&rt, alloc, board, &signs, &TRIES, &LISTS, kdf)?;
    assert!(rt; are_lines(written(&served, 0), &[STARTED, PROVED]));
    assert!(rt; are_lines(written(&served, 1), &[FACTORS]));
    Ok(())
}

const TRIES_LATER: [Line; 1] = [(Some(Sign::Ready), TRY_MAIN, None)];

const UPDATES: [Line; 3] = [
    (None, START, None),
    (None, TRY_SPARE, Some(Sign::Ready)),
    (Some(Sign::KeyBegun), UPDATE_MAIN, Some(Sign::Answered)),
];

const TRIES_AGAIN: [Line; 2] = [(None, START, None), (None, TRY_NEW, None)];

// A password is changed while a key of its former secret is derived: the key isn't used, and the secret is wrong.
#[test]
fn a_key_of_a_changed_password_is_not_used(rt: HostRuntime) -> Result<(), Fail> {
    let alloc = rt.alloc();
    let board = made_home(&rt, alloc)?;
    let signs = Signs::new();
    let kdf = WaitingKdf { signs: &signs };
    let served = serve_two(&rt, alloc, board, &signs, &TRIES_LATER, &UPDATES, kdf)?;
    assert!(rt; are_lines(written(&served, 0), &[r#"{"answer":"wrong"}"#]));
    assert!(rt; are_lines(written(&served, 1), &[STARTED, PROVED, MADE]));
    let board = board_left(served);
    let served = serve_two(&rt, alloc, board, &signs, &TRIES_AGAIN, &[], PlainKdf)?;
    assert!(rt; are_lines(written(&served, 0), &[STARTED, PROVED]));
    Ok(())
}

const ASKS_TWICE: [Line; 2] = [
    (None, LIST_ANN, Some(Sign::Ready)),
    (Some(Sign::Answered), LIST_ANN, None),
];

const ASKS_BETWEEN: [Line; 1] = [(Some(Sign::Ready), LIST_BOB, Some(Sign::Answered))];

// Each client goes on only once the other was answered.
#[test]
fn clients_are_served_at_one_time(rt: HostRuntime) -> Result<(), Fail> {
    let alloc = rt.alloc();
    let signs = Signs::new();
    let board = empty_board(alloc)?;
    let served = serve_two(
        &rt,
        alloc,
        board,
        &signs,
        &ASKS_TWICE,
        &ASKS_BETWEEN,
        PlainKdf,
    )?;
    assert!(rt; are_lines(written(&served, 0), &[NO_HOME, NO_HOME]));
    assert!(rt; are_lines(written(&served, 1), &[NO_HOME]));
    Ok(())
}

const CREATES: [Line; 1] = [(None, CREATE, None)];

const ASKS_OF_ANOTHER: [Line; 1] = [(Some(Sign::Inside), LIST_BOB, Some(Sign::Answered))];

// While a change of one account waits at the board, inside its turn, another account's client is answered.
#[test]
fn accounts_do_not_share_a_lock(rt: HostRuntime) -> Result<(), Fail> {
    let alloc = rt.alloc();
    let signs = Signs::new();
    let board = WaitingBoard {
        board: empty_board(alloc)?,
        signs: &signs,
        has_waited: false,
    };
    let served = serve_two(
        &rt,
        alloc,
        board,
        &signs,
        &CREATES,
        &ASKS_OF_ANOTHER,
        PlainKdf,
    )?;
    assert!(rt; are_lines(written(&served, 0), &[MADE]));
    assert!(rt; are_lines(written(&served, 1), &[NO_HOME]));
    assert!(rt; signs.has(Sign::Inside) && !signs.has(Sign::Missed));
    Ok(())
}
