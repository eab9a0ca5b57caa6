//! A source in memory.

ghost use Rattle.std.specs.Prelude.{◌≡◌, ◌+◌, ◌-◌, ◌^◌, ◌<◌, ◌≤◌, ◌↔◌, min, ℕ, List, [], ◌++◌, length, take, drop, Contains, IfOk, OnErr, IsErr};
ghost use Rattle.fault_count.specs.Causes.{HasCause};
ghost use Rattle.request_loop.specs.Memory.{next_call};

use crate::Source;
use fault_count::{Failed, FaultCount};
use std::marker::Model;

/// A source that gives bytes which it holds, in pieces, and fails at the reads that a list names.
#[derive(Debug, Drop)]
pub struct MemSource {
    bytes: Vec<u8>,
    at: usize,
    piece: usize,
    fails: Vec<u64>,
    calls: u64,
    faults: FaultCount,
}

impl Model for MemSource {
    ghost use Rattle.std.specs.Prelude.{◌≤◌, length, drop};
    ghost use Rattle.request_loop.specs.Memory.{SourceState};

    ghost Value = { SourceState };

    ghost view = { λ s. record {
      left = drop s.at s.bytes.items;
      piece = s.piece;
      fails = s.fails.items;
      calls = s.calls;
      taken = s.at;
      faults = s.faults;
    } };

    ghost invariant = { λ s. (s.at ≤ length s.bytes.items) × (1 ≤ s.piece) };
}

impl MemSource {
    /// A source of `bytes`, of which a read gives at most `piece`.
    ///
    /// `fails` has the numbers of the reads that fail, from 1. `piece` is at least 1.
    pub fn new(bytes: Vec<u8>, piece: usize, fails: Vec<u64>) -> MemSource
        requires { 1 ≤ piece }
        ensures { result ≡ record { left = bytes.items; piece = piece; fails = fails.items; calls = 0; taken = 0; faults = 0 } }
    {
        MemSource {
            bytes,
            at: 0,
            piece,
            fails,
            calls: 0,
            faults: FaultCount::new(),
        }
    }
}

impl Source for MemSource {
    ghost use Rattle.std.specs.Prelude.{Some};

    ghost left = { λ s. Some s.left };

    ghost taken = { λ s. s.taken };

    ghost faults = { λ s. s.faults };

    /// Gives the next bytes: a piece, or as many as are left or fit into `buf`.
    fn read(&mut self, buf: &mut [u8]) -> Result<usize, Failed>
        requires { 0 < length buf.old }
        ensures count { IfOk result (λ count.
            count ≡ min (min self.old.piece (length buf.old)) (length self.old.left)) }
        ensures within { IfOk result (λ count. count ≤ length buf.new) }
        ensures bytes { IfOk result (λ count. take count buf.new ≡ take count self.old.left) }
        ensures others { IfOk result (λ count. drop count buf.new ≡ drop count buf.old) }
        ensures ok { IfOk result (λ count. self.new ≡ record self.old {
          left = drop count self.old.left;
          calls = next_call self.old.calls;
          taken = self.new.taken;
        }) }
        // 0 comes exactly where nothing is left.
        ensures end { IfOk result (λ count. (count ≡ 0) ↔ (self.old.left ≡ [])) }
        ensures taken { IfOk result (λ count. self.new.taken ≡ min (self.old.taken + count) (2 ^ 64 - 1)) }
        // The listed reads fail, and no others. They take nothing.
        ensures fails { IsErr result ↔ Contains self.old.fails (next_call self.old.calls) }
        ensures err { OnErr result (self.new ≡ record self.old {
          calls = next_call self.old.calls;
          faults = self.new.faults;
        }) }
        ensures same { OnErr result (buf.new ≡ buf.old) }
        ensures cause { HasCause self.old.faults self.new.faults (IsErr result) }
    {
        self.calls = self.calls.saturating_add(1);
        if self.fails.contains(&self.calls) {
            return Err(self.faults.raise());
        }
        let left = &self.bytes[self.at..];
        let count = self.piece.min(buf.len()).min(left.len());
        buf[..count].copy_from_slice(&left[..count]);
        self.at += count;
        Ok(count)
    }
}
