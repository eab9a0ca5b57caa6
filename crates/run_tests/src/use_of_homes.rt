//! Homes in use, from their creation to another run over the same board.

use crate::outside::{Outside, board_of, run_over, written};
use mem_board::MemBoard;
use run_desk::MemDesk;
use serve_run::{Left, Outcome};
use std::alloc::Global;
use std::sync::Wait;
use std::test::Fail;
use std::thread::Threads;

// The token of ann's first session in each run: the session's number, and the first bytes of her generator.
const TOKEN: &str = "0000000000000001a04b39174b36cad66d376463cb99835c";

// Lines of the first run with their replies, where T stands for the token.
const FIRST: [(&str, &str); 19] = [
    (
        r#"{"op":"list_files","account":"ann"}"#,
        r#"{"answer":"no_home"}"#,
    ),
    (r#"{"op":"create","account":"ann"}"#, r#"{"answer":"ok"}"#),
    (
        r#"{"op":"create","account":"ann"}"#,
        r#"{"answer":"exists"}"#,
    ),
    (
        r#"{"op":"create","account":"bob"}"#,
        r#"{"answer":"unknown_account"}"#,
    ),
    (
        r#"{"op":"start_session","account":"ann","intent":"decrypt"}"#,
        r#"{"answer":"ok","ends":1300,"token":"T"}"#,
    ),
    (
        r#"{"op":"add_factor","account":"ann","token":"T","label":"main","kind":"password","secret":"pw"}"#,
        r#"{"answer":"ok"}"#,
    ),
    (
        r#"{"op":"add_factor","account":"ann","token":"T","label":"pin","kind":"pin","secret":"1234"}"#,
        r#"{"answer":"bad_line","fault":"bad_field","field":"kind"}"#,
    ),
    (
        r#"{"op":"reset_pin","account":"ann","token":"T","label":"pin"}"#,
        r#"{"answer":"bad_line","fault":"unknown_op"}"#,
    ),
    (
        r#"{"op":"list_factors","account":"ann"}"#,
        r#"{"answer":"ok","factors":[{"kind":"password","label":"main"}]}"#,
    ),
    (
        r#"{"op":"remove_factor","account":"ann","token":"T","label":"main"}"#,
        r#"{"answer":"last_password"}"#,
    ),
    (
        r#"{"op":"get_file","account":"ann","name":"note"}"#,
        r#"{"answer":"not_mounted"}"#,
    ),
    (
        r#"{"op":"mount","account":"ann","token":"T"}"#,
        r#"{"answer":"ok"}"#,
    ),
    (
        r#"{"op":"put_file","account":"ann","name":"note","data":"00FF"}"#,
        r#"{"answer":"ok"}"#,
    ),
    (
        r#"{"op":"get_file","account":"ann","name":"note"}"#,
        r#"{"answer":"ok","data":"00ff"}"#,
    ),
    (
        r#"{"op":"list_files","account":"ann"}"#,
        r#"{"answer":"ok","files":["note"]}"#,
    ),
    (
        r#"{"op":"extend_session","account":"ann","token":"T","seconds":300}"#,
        r#"{"answer":"ok","ends":1600}"#,
    ),
    (r#"{"op":"unmount","account":"ann"}"#, r#"{"answer":"ok"}"#),
    (
        r#"{"op":"end_session","account":"ann","token":"T"}"#,
        r#"{"answer":"ok"}"#,
    ),
    (
        r#"{"op":"mount","account":"ann","token":"T"}"#,
        r#"{"answer":"unknown_session"}"#,
    ),
];

// Lines of the second run over the same board.
const SECOND: [(&str, &str); 8] = [
    (
        r#"{"op":"start_session","account":"ann","intent":"decrypt"}"#,
        r#"{"answer":"ok","ends":1300,"token":"T"}"#,
    ),
    (
        r#"{"op":"mount","account":"ann","token":"T"}"#,
        r#"{"answer":"not_authorised"}"#,
    ),
    (
        r#"{"op":"authenticate","account":"ann","token":"T","label":"main","secret":"no"}"#,
        r#"{"answer":"wrong"}"#,
    ),
    (
        r#"{"op":"authenticate","account":"ann","token":"T","label":"main","secret":"pw"}"#,
        r#"{"answer":"ok","ends":1300}"#,
    ),
    (
        r#"{"op":"mount","account":"ann","token":"T"}"#,
        r#"{"answer":"ok"}"#,
    ),
    (
        r#"{"op":"get_file","account":"ann","name":"note"}"#,
        r#"{"answer":"ok","data":"00ff"}"#,
    ),
    (
        r#"{"op":"update_factor","account":"ann","token":"T","label":"main","secret":"new"}"#,
        r#"{"answer":"ok"}"#,
    ),
    (
        r#"{"op":"authenticate","account":"ann","token":"T","label":"main","secret":"pw"}"#,
        r#"{"answer":"wrong"}"#,
    ),
];

// Texts, each with a line feed, and with the token in place of T.
fn texts_of(
    alloc: Global,
    rows: &[(&str, &str)],
    token: &str,
    replies: bool,
) -> Result<String, Fail> {
    let mut text = String::new(alloc);
    for (line, reply) in rows {
        let row = if replies { *reply } else { *line };
        match row.split_once("\"T\"") {
            Some((front, rest)) => {
                text.push_str(front)?;
                text.push_str("\"")?;
                text.push_str(token)?;
                text.push_str("\"")?;
                text.push_str(rest)?;
            }
            None => text.push_str(row)?,
        }
        text.push_str("\n")?;
    }
    Ok(text)
}

// Runs the lines of one client over a board.
fn run_rows<R: Threads + Wait + Sync>(
    rt: &R,
    alloc: Global,
    board: MemBoard,
    rows: &[(&str, &str)],
    token: &str,
) -> Result<Outcome<MemDesk>, Fail> {
    let input = texts_of(alloc, rows, token, false)?;
    let outside = Outside {
        words: "serve|--cost|1|d|ann",
        inputs: &[input.as_str()],
        desk_fail: None,
        source_fail: None,
        sink_fail: None,
    };
    run_over(rt, alloc, board, &outside)
}

// The board that a run left.
fn board_left(outcome: Outcome<MemDesk>) -> Result<MemBoard, Fail> {
    let Outcome {
        left,
        status: _,
        said: _,
    } = outcome;
    let Left {
        board,
        clients: _,
        names: _,
        books: _,
    } = left;
    match board {
        Some(board) => Ok(board),
        None => Err(Fail::new("no board is left")),
    }
}

#[test]
fn a_home_is_used_and_used_again(rt: HostRuntime) -> Result<(), Fail> {
    let alloc = rt.alloc();
    let first = run_rows(&rt, alloc, board_of(alloc, None, None)?, &FIRST, TOKEN)?;
    assert_eq!(rt; first.status, 0);
    let want = texts_of(alloc, &FIRST, TOKEN, true)?;
    assert_eq!(rt; written(&first, 0), want.as_bytes());
    let second = run_rows(&rt, alloc, board_left(first)?, &SECOND, TOKEN)?;
    assert_eq!(rt; second.status, 0);
    let want = texts_of(alloc, &SECOND, TOKEN, true)?;
    assert_eq!(rt; written(&second, 0), want.as_bytes());
    Ok(())
}

const ANN: &str = r#"{"op":"create","account":"ann"}
{"op":"list_factors","account":"ann"}
"#;

const BOB: &str = r#"{"op":"create","account":"bob"}
{"op":"list_factors","account":"bob"}
"#;

const MADE: &str = r#"{"answer":"ok"}
{"answer":"ok","factors":[]}
"#;

#[test]
fn two_clients_are_served_side_by_side(rt: HostRuntime) -> Result<(), Fail> {
    let alloc = rt.alloc();
    let outside = Outside {
        words: "serve|--clients=2|--cost=1|d|ann|bob",
        inputs: &[ANN, BOB],
        desk_fail: None,
        source_fail: None,
        sink_fail: None,
    };
    let outcome = run_over(&rt, alloc, board_of(alloc, None, None)?, &outside)?;
    assert_eq!(rt; outcome.status, 0);
    assert_eq!(rt; outcome.left.names.len(), 2);
    assert_eq!(rt; outcome.left.books.len(), 2);
    for place in 0..2 {
        assert_eq!(rt; written(&outcome, place), MADE.as_bytes());
    }
    Ok(())
}
