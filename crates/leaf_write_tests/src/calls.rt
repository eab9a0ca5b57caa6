//! Calls on a leaf over a board in memory: each in turn, and stopped by a fault at each call of the board.

use board_model::Board;
use ct_bytes::NoMemory;
use fault_count::Failed;
use label_tree::Tree;
use leaf_calls::{ChipHost, LeafPlace, insert_leaf, remove_leaf, reset_leaf, try_leaf};
use mem_board::{Fail, MemBoard};
use pw_chip::{Reply, Words};
use pw_leaf::{ChipKeys, LEAF_BYTES, NewLeafSecrets};
use pw_path::Label;
use pw_types::Schedule;
use std::alloc::Global;
use std::test;

type Outcome = Result<(), test::Fail>;

type Record = [u8; LEAF_BYTES];

const KEYS: ChipKeys = ChipKeys {
    mac: [1; 32],
    enc: [2; 32],
};

const SECRETS: NewLeafSecrets = NewLeafSecrets {
    les: [5; 32],
    hes: [6; 32],
    reset: [7; 32],
};

#[derive(Clone, Copy)]
enum Step {
    Insert,
    WrongTry,
    RightTry,
    Reset,
    Remove,
}

const STEPS: [Step; 6] = [
    Step::Insert,
    Step::WrongTry,
    Step::RightTry,
    Step::WrongTry,
    Step::Reset,
    Step::Remove,
];

// A chip of the first boot and the leaf's record, over a board.
#[derive(Drop)]
struct Bench {
    board: MemBoard,
    host: ChipHost,
    record: Option<Record>,
}

fn board_failing(alloc: Global, fails: &[Fail]) -> Result<MemBoard, NoMemory> {
    MemBoard::new(alloc, Vec::new(alloc), [0; 256], fails.to_vec(alloc)?)
}

fn new_bench(alloc: Global, fails: &[Fail]) -> Result<Bench, test::Fail> {
    let board = board_failing(alloc, fails)?;
    let mut words = Words::new(KEYS);
    words.boot(900);
    let tree = Tree::new(alloc).ok().ok_or("no memory")?;
    let host = ChipHost { words, tree };
    Ok(Bench {
        board,
        host,
        record: None,
    })
}

// One call on the leaf with the label 3.
fn call(bench: &mut Bench, step: Step, label: Label) -> Result<Reply, Failed> {
    if bench.host.words.era().boot == 0 {
        return Err(Failed);
    }
    let board = &mut bench.board;
    let host = &mut bench.host;
    let record = bench.record.unwrap_or([0; LEAF_BYTES]);
    let place = LeafPlace { label, name: "a" };
    match step {
        Step::Insert => insert_leaf(
            board,
            host,
            place,
            &SECRETS,
            &Schedule::usual(),
            [8; 16],
            1_000,
        ),
        Step::WrongTry => try_leaf(board, host, place, &record, &[4; 32], 1_000),
        Step::RightTry => try_leaf(board, host, place, &record, &SECRETS.les, 1_000),
        Step::Reset => reset_leaf(board, host, place, &record, &SECRETS.reset, 1_000),
        Step::Remove => remove_leaf(board, host, place, 1_000),
    }
}

// The record that a call leaves.
fn record_after(reply: &Reply) -> Option<Record> {
    match reply {
        Reply::Inserted(record) | Reply::Wrong(record) | Reply::Cleared(record) => Some(*record),
        Reply::Released { leaf, .. } => Some(*leaf),
        _ => None,
    }
}

// Whether the board has the host's words and the leaf's record.
fn is_written(alloc: Global, bench: &mut Bench) -> Result<bool, test::Fail> {
    if bench.host.words.era().boot == 0 {
        return Ok(false);
    }
    let has_words = bench.board.nv_load()? == bench.host.words.write();
    let has_record = match (bench.board.read(alloc, "a", 1_000)?, bench.record) {
        (Some(bytes), Some(record)) => bytes.as_slice() == record.as_slice(),
        (None, None) => true,
        _ => false,
    };
    Ok(has_words && has_record)
}

#[test]
fn the_words_and_the_record_are_written_with_each_call(rt: HostRuntime) -> Outcome {
    let alloc = rt.alloc();
    let label = Label::new(3).ok_or("there is no such label")?;
    let mut bench = new_bench(alloc, &[])?;
    for step in STEPS {
        let reply = call(&mut bench, step, label)?;
        bench.record = record_after(&reply);
        if !is_written(alloc, &mut bench)? {
            return Err(test::Fail::new("the board lacks the words or the record"));
        }
    }
    Ok(())
}

// Makes the calls until one fails: then the host is as it was. Whether one failed.
fn fails_cleanly(bench: &mut Bench, label: Label) -> Result<bool, test::Fail> {
    for step in STEPS {
        let (words, root) = (bench.host.words, bench.host.tree.root());
        match call(bench, step, label) {
            Ok(reply) => bench.record = record_after(&reply),
            Err(Failed) if bench.host.words == words && bench.host.tree.root() == root => return Ok(
                true,
            ),
            Err(Failed) => return Err(test::Fail::new("the host has another chip")),
        }
    }
    Ok(false)
}

#[test]
fn a_fault_leaves_the_host_as_it_was(rt: HostRuntime) -> Outcome {
    let label = Label::new(3).ok_or("there is no such label")?;
    // five puts of five calls each, and a removal of three
    for call in 1..30u64 {
        for done in [false, true] {
            let mut bench = new_bench(rt.alloc(), &[Fail { call, done }])?;
            if fails_cleanly(&mut bench, label)? != (call < 29) {
                return Err(test::Fail::new("the listed call didn't fail"));
            }
        }
    }
    Ok(())
}
