//! A desk in memory: it hands out what it was given, and tells it.

ghost use Rattle.std.specs.Prelude.{◌≡◌, Some};

use crate::{Client, Desk, DeskFault};
use ct_bytes::Text;
use fault_count::{Failed, FaultCount};
use mem_board::MemBoard;
use request_loop::{ListClock, MemSink, MemSource};
use std::alloc::Global;

/// A desk that fails at the calls that a list names, at another directory than its own, and where
/// nothing is left to hand out.
#[derive(Drop)]
pub struct MemDesk {
    start: u64,
    entropy: [u8; 32],
    dir: Text,
    board: Option<MemBoard>,
    clients: Vec<Client<MemSource, MemSink, ListClock>>,
    fails: Vec<u64>,
    calls: u64,
    faults: FaultCount,
}

impl MemDesk {
    /// A desk with this moment of opening and this entropy, which has the board over `dir` and the
    /// clients, in the list's order.
    ///
    /// `fails` has the numbers, from 1, of the calls of `entropy`, `open_board` and `open_client` that
    /// fail.
    pub fn new(
        start: u64,
        entropy: [u8; 32],
        dir: Text,
        board: MemBoard,
        clients: Vec<Client<MemSource, MemSink, ListClock>>,
        fails: Vec<u64>,
    ) -> MemDesk
        ensures start { result.start ≡ start }
        ensures entropy { result.entropy ≡ entropy }
        ensures dir { result.dir ≡ dir }
        ensures board { result.board ≡ Some board }
        ensures clients { result.clients ≡ clients }
        ensures faults { result.faults ≡ 0 }
    {
        MemDesk {
            start,
            entropy,
            dir,
            board: Some(board),
            clients,
            fails,
            calls: 0,
            faults: FaultCount::new(),
        }
    }
}

// Counts a call, and tells whether the list names it.
fn is_listed(fails: &[u64], calls: &mut u64) -> bool {
    *calls = calls.saturating_add(1);
    fails.contains(calls)
}

impl Desk for MemDesk {
    type Board = MemBoard;

    type Source = MemSource;

    type Sink = MemSink;

    type Clock = ListClock;

    ghost use Rattle.std.specs.Prelude.{◌≡◌, Some};

    ghost seen = { λ d. record {
      moment = d.start;
      entropy = Some d.entropy;
      board = λ dir board. (d.dir ≡ dir) × (d.board ≡ Some board);
      clients = λ clients. d.clients.items ≡ clients;
      faults = d.faults;
    } };

    fn start_moment(&mut self) -> u64 {
        self.start
    }

    fn entropy(&mut self) -> Result<[u8; 32], Failed> {
        if is_listed(&self.fails, &mut self.calls) {
            return Err(self.faults.raise());
        }
        Ok(self.entropy)
    }

    fn open_board(&mut self, _alloc: Global, dir: &str) -> Result<MemBoard, DeskFault> {
        if is_listed(&self.fails, &mut self.calls) || self.dir.as_str() != dir {
            let _ = self.faults.raise();
            return Err(DeskFault::Failed);
        }
        match self.board.take() {
            Some(board) => Ok(board),
            None => {
                let _ = self.faults.raise();
                Err(DeskFault::Failed)
            }
        }
    }

    fn open_client(
        &mut self,
        _alloc: Global,
        _number: u32,
    ) -> Result<Client<MemSource, MemSink, ListClock>, DeskFault> {
        if is_listed(&self.fails, &mut self.calls) || self.clients.is_empty() {
            let _ = self.faults.raise();
            return Err(DeskFault::Failed);
        }
        Ok(self.clients.remove(0))
    }
}
