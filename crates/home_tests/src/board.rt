//! A board at which one call waits.

use crate::sign::{Sign, Signs};
use board_model::{Board, BoardFault};
use ct_bytes::{Blob, Text};
use fault_count::Failed;
use std::alloc::Global;

/// A board whose first renaming gives the sign that it is inside, and waits until another client was answered. In all
/// else it is another board.
#[derive(Drop)]
pub struct WaitingBoard<'a, B> {
    pub board: B,
    pub signs: &'a Signs,
    pub has_waited: bool,
}

impl<'a, B: Board> Board for WaitingBoard<'a, B> {
    ghost disk = { λ waiting. B.disk waiting.board };

    ghost faults = { λ waiting. B.faults waiting.board };

    ghost counts_now = { λ waiting. B.counts_now waiting.board };

    ghost since_earlier = { λ waiting. B.since_earlier waiting.board };

    ghost only_now = { λ waiting. B.only_now waiting.board };

    ghost synced_now = { λ waiting. B.synced_now waiting.board };

    ghost is_image = { λ waiting. B.is_image waiting.board };

    fn list(&mut self, alloc: Global) -> Result<Vec<Text>, BoardFault> {
        self.board.list(alloc)
    }

    fn read(&mut self, alloc: Global, name: &str, most: usize) -> Result<Option<Blob>, BoardFault> {
        self.board.read(alloc, name, most)
    }

    fn write_temp(&mut self, name: &str, bytes: &[u8]) -> Result<(), Failed> {
        self.board.write_temp(name, bytes)
    }

    fn sync_temp(&mut self, name: &str) -> Result<(), Failed> {
        self.board.sync_temp(name)
    }

    fn rename(&mut self, from: &str, to: &str) -> Result<(), Failed> {
        if !self.has_waited {
            self.has_waited = true;
            self.signs.give(Sign::Inside);
            if !self.signs.comes(Sign::Answered) {
                self.signs.give(Sign::Missed);
            }
        }
        self.board.rename(from, to)
    }

    fn remove(&mut self, name: &str) -> Result<(), Failed> {
        self.board.remove(name)
    }

    fn sync_dir(&mut self) -> Result<(), Failed> {
        self.board.sync_dir()
    }

    fn nv_load(&mut self) -> Result<[u8; 256], Failed> {
        self.board.nv_load()
    }

    fn nv_store(&mut self, words: &[u8; 256]) -> Result<(), Failed> {
        self.board.nv_store(words)
    }
}
