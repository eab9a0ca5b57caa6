//! A sink in memory.

ghost use Rattle.std.specs.Prelude.{◌≡◌, ◌-◌, ◌<◌, ◌↔◌, ◌⊎◌, ℕ, List, [], ◌++◌, length, Contains, IfOk, OnOk, OnErr, IsErr};
ghost use Rattle.fault_count.specs.Causes.{HasCause};
ghost use Rattle.request_loop.specs.Memory.{next_call};

use crate::Sink;
use ct_bytes::NoMemory;
use fault_count::{Failed, FaultCount};
use std::alloc::Global;
use std::marker::Model;

/// A sink that keeps what is written, as far as it has room, and fails at the writes that a list names.
#[derive(Debug, Drop)]
pub struct MemSink {
    bytes: Vec<u8>,
    room: usize,
    fails: Vec<u64>,
    calls: u64,
    faults: FaultCount,
}

impl Model for MemSink {
    ghost use Rattle.std.specs.Prelude.{◌+◌, ◌≤◌, vec_len, vec_capacity};
    ghost use Rattle.request_loop.specs.Memory.{SinkState};

    ghost Value = { SinkState };

    ghost view = { λ s. record {
      written = s.bytes.items;
      room = s.room;
      fails = s.fails.items;
      calls = s.calls;
      faults = s.faults;
    } };

    ghost invariant = { λ s. vec_len s.bytes + s.room ≤ vec_capacity s.bytes };
}

impl MemSink {
    /// A sink with room for `room` bytes, the memory for which is taken here.
    ///
    /// `fails` has the numbers of the writes that fail, from 1.
    pub fn new(alloc: Global, room: usize, fails: Vec<u64>) -> Result<MemSink, NoMemory>
        ensures value { IfOk result (λ sink.
            sink ≡ record { written = []; room = room; fails = fails.items; calls = 0; faults = 0 }) }
    {
        let bytes = Vec::with_capacity(alloc, room)?;
        Ok(MemSink {
            bytes,
            room,
            fails,
            calls: 0,
            faults: FaultCount::new(),
        })
    }

    /// The bytes that were written.
    pub fn written(&self) -> &[u8]
        ensures value { result.now ≡ self.now.written }
    {
        &self.bytes
    }
}

impl Sink for MemSink {
    ghost use Rattle.std.specs.Prelude.{Some};

    ghost written = { λ s. Some s.written };

    ghost faults = { λ s. s.faults };

    /// Writes all of `bytes` or nothing.
    fn write(&mut self, bytes: &[u8]) -> Result<(), Failed>
        ensures ok { OnOk result (self.new ≡ record self.old {
          written = self.old.written ++ bytes.now;
          room = self.old.room - length bytes.now;
          calls = next_call self.old.calls;
        }) }
        // The listed writes fail, and those that have no room. They write nothing.
        ensures fails { IsErr result
            ↔ (Contains self.old.fails (next_call self.old.calls) ⊎ (self.old.room < length bytes.now)) }
        ensures err { OnErr result (self.new ≡ record self.old {
          calls = next_call self.old.calls;
          faults = self.new.faults;
        }) }
        ensures cause { HasCause self.old.faults self.new.faults (IsErr result) }
    {
        self.calls = self.calls.saturating_add(1);
        if self.fails.contains(&self.calls) || self.room < bytes.len() {
            return Err(self.faults.raise());
        }
        let _ = self.bytes.extend_from_slice(bytes);
        self.room -= bytes.len();
        Ok(())
    }
}
