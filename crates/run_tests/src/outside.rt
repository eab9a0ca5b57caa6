//! What is outside of a run, in memory.

use ct_bytes::{Blob, Text};
use mem_board::{Fail as BoardFail, MemBoard};
use request_loop::{ListClock, MemSink, MemSource};
use run_desk::{Client, MemDesk};
use serve_run::{Outcome, run};
use std::alloc::Global;
use std::sync::Wait;
use std::test::Fail;
use std::thread::Threads;

/// What is outside of a run: its words with bars between them, each client's input, and which calls fail.
#[derive(Clone, Copy)]
pub struct Outside<'a> {
    pub words: &'a str,
    pub inputs: &'a [&'a str],
    pub desk_fail: Option<u64>,
    pub source_fail: Option<u64>,
    pub sink_fail: Option<u64>,
}

/// A list of one call, or of none.
pub fn listed<T: Drop>(alloc: Global, call: Option<T>) -> Result<Vec<T>, Fail> {
    let mut calls = Vec::new(alloc);
    if let Some(call) = call {
        if calls.push(call).is_err() {
            return Err(Fail::new("no memory for a call"));
        }
    }
    Ok(calls)
}

// The words of a command line, given with bars between them.
fn words_of(alloc: Global, text: &str) -> Result<Vec<String>, Fail> {
    let mut words = Vec::new(alloc);
    for word in text.split('|') {
        words.push(String::from_str(alloc, word)?)?;
    }
    Ok(words)
}

/// A board with one file, where one is given.
pub fn board_of(
    alloc: Global,
    file: Option<(&str, &[u8])>,
    fail: Option<BoardFail>,
) -> Result<MemBoard, Fail> {
    let mut files = Vec::new(alloc);
    if let Some((name, bytes)) = file {
        files.push((
            Text::from_str(alloc, name)?,
            Blob::from_slice(alloc, bytes)?,
        ))?;
    }
    let fails = listed(alloc, fail)?;
    Ok(MemBoard::new(alloc, files, [0; 256], fails)?)
}

// The clients with these inputs, whose clock always gives 1000.
fn clients_of(
    alloc: Global,
    outside: &Outside<'_>,
) -> Result<Vec<Client<MemSource, MemSink, ListClock>>, Fail> {
    let mut clients = Vec::new(alloc);
    for input in outside.inputs {
        let bytes = Vec::from_slice(alloc, input.as_bytes())?;
        clients.push(Client {
            source: MemSource::new(bytes, 4096, listed(alloc, outside.source_fail)?),
            sink: MemSink::new(alloc, 10_000, listed(alloc, outside.sink_fail)?)?,
            clock: ListClock::new(Vec::from_slice(alloc, &[1000])?),
        })?;
    }
    Ok(clients)
}

/// A run by these words, over a desk that has this board over the directory `d`.
pub fn run_over<R: Threads + Wait + Sync>(
    rt: &R,
    alloc: Global,
    board: MemBoard,
    outside: &Outside<'_>,
) -> Result<Outcome<MemDesk>, Fail> {
    let clients = clients_of(alloc, outside)?;
    let fails = listed(alloc, outside.desk_fail)?;
    let dir = Text::from_str(alloc, "d")?;
    let mut desk = MemDesk::new(900, [7; 32], dir, board, clients, fails);
    let words = words_of(alloc, outside.words)?;
    Ok(run(rt, alloc, &words, &mut desk))
}

/// What the client at this place was written.
pub fn written(outcome: &Outcome<MemDesk>, place: usize) -> &[u8] {
    match outcome.left.clients.get(place) {
        Some(client) => client.sink.written(),
        None => b"none",
    }
}
