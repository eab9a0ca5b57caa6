//! The statuses of runs, with the texts for them.

use crate::outside::{Outside, board_of, run_over};
use mem_board::{Fail as BoardFail, MemBoard};
use std::alloc::Global;
use std::sync::Wait;
use std::test::Fail;
use std::thread::Threads;

// A run of these words to so many clients without input, and whose calls fail.
struct Case {
    words: &'static str,
    clients: usize,
    desk_fail: Option<u64>,
    source_fail: Option<u64>,
    status: u8,
    said: &'static str,
}

const EMPTY: [&str; 2] = ["", ""];

const CASES: [Case; 12] = [
    Case {
        words: "serve|d",
        clients: 1,
        desk_fail: None,
        source_fail: None,
        status: 0,
        said: "",
    },
    Case {
        words: "serve|d|ann|bob",
        clients: 1,
        desk_fail: None,
        source_fail: None,
        status: 0,
        said: "",
    },
    Case {
        words: "serve|--clients|2|d",
        clients: 2,
        desk_fail: None,
        source_fail: None,
        status: 0,
        said: "",
    },
    Case {
        words: "serve",
        clients: 1,
        desk_fail: None,
        source_fail: None,
        status: 2,
        said: "bad words\n",
    },
    Case {
        words: "serve|d|Ann",
        clients: 1,
        desk_fail: None,
        source_fail: None,
        status: 2,
        said: "bad words\n",
    },
    Case {
        words: "serve|e",
        clients: 1,
        desk_fail: None,
        source_fail: None,
        status: 3,
        said: "board fault\n",
    },
    Case {
        words: "serve|d",
        clients: 1,
        desk_fail: Some(2),
        source_fail: None,
        status: 3,
        said: "board fault\n",
    },
    Case {
        words: "serve|d",
        clients: 0,
        desk_fail: None,
        source_fail: None,
        status: 6,
        said: "client fault 0\n",
    },
    Case {
        words: "serve|--clients=2|d",
        clients: 1,
        desk_fail: None,
        source_fail: None,
        status: 6,
        said: "client fault 2\n",
    },
    Case {
        words: "serve|--clients=2|d",
        clients: 2,
        desk_fail: None,
        source_fail: Some(1),
        status: 6,
        said: "client fault 1\n",
    },
    Case {
        words: "serve|--clients=17|d|ann",
        clients: 1,
        desk_fail: None,
        source_fail: None,
        status: 7,
        said: "too many accounts 1 clients 17\n",
    },
    Case {
        words: "serve|d",
        clients: 1,
        desk_fail: Some(1),
        source_fail: None,
        status: 9,
        said: "no entropy\n",
    },
];

#[test]
fn a_run_ends_with_its_status_and_text(rt: HostRuntime) -> Result<(), Fail> {
    let alloc = rt.alloc();
    for case in &CASES {
        let outside = Outside {
            words: case.words,
            inputs: &EMPTY[..case.clients.min(2)],
            desk_fail: case.desk_fail,
            source_fail: case.source_fail,
            sink_fail: None,
        };
        let outcome = run_over(&rt, alloc, board_of(alloc, None, None)?, &outside)?;
        assert_eq!(rt; outcome.status, case.status, "{}", case.words);
        assert_eq!(rt;
            outcome.said.as_slice(),
            case.said.as_bytes(),
            "{}",
            case.words
        );
    }
    Ok(())
}

// The run of `serve d` over a board.
fn status_over<R: Threads + Wait + Sync>(
    rt: &R,
    alloc: Global,
    board: MemBoard,
) -> Result<(u8, Vec<u8>), Fail> {
    let outside = Outside {
        words: "serve|d",
        inputs: &EMPTY[..1],
        desk_fail: None,
        source_fail: None,
        sink_fail: None,
    };
    let outcome = run_over(rt, alloc, board, &outside)?;
    Ok((outcome.status, outcome.said))
}

#[test]
fn a_board_that_fails_and_a_record_outside_its_form_have_statuses(
    rt: HostRuntime,
) -> Result<(), Fail> {
    let alloc = rt.alloc();
    let fails = board_of(
        alloc,
        None,
        Some(BoardFail {
            call: 1,
            done: false,
        }),
    )?;
    let (status, said) = status_over(&rt, alloc, fails)?;
    assert_eq!(rt; status, 3);
    assert_eq!(rt; said.as_slice(), b"board fault\n".as_slice());
    let damaged = board_of(alloc, Some(("ann.stash", b"no stash")), None)?;
    let (status, said) = status_over(&rt, alloc, damaged)?;
    assert_eq!(rt; status, 4);
    assert_eq!(rt; said.as_slice(), b"damaged ann.stash\n".as_slice());
    Ok(())
}
