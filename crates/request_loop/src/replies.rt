//! The replies that wait to be written.

ghost use Rattle.std.specs.Prelude.{◌≡◌, ◌≤◌, ℕ, List, [], ◌∷◌, ◌++◌, take, MatchBool, IfOk, OnOk, OnErr, IsErr, vec_len, vec_capacity};
ghost use Rattle.fault_count.specs.Causes.{HasCause};
ghost use Rattle.fault_count.specs.Told.{Becomes};
ghost use Rattle.request_loop.specs.Cut.{QueuesFor};

use crate::Sink;
use fault_count::Failed;
use std::alloc::{AllocError, Global};

/// How many bytes of replies are gathered.
const ROOM: usize = 65_536;

// Replies with their line feeds, in order, that are written together.
#[derive(Drop)]
pub(crate) struct Replies {
    pub(crate) bytes: Vec<u8>,
    ghost room: { 65536 ≤ vec_capacity bytes },
}

impl Replies {
    // No replies, with the room for those that wait.
    pub(crate) fn new(alloc: Global) -> Result<Replies, AllocError>
        ensures value { IfOk result (λ replies. replies.bytes.items ≡ []) }
    {
        let bytes = Vec::with_capacity(alloc, ROOM)?;
        Ok(Replies { bytes })
    }

    // Keeps a reply and its line feed, where there is room for both.
    fn keep(&mut self, reply: &[u8]) -> bool
        ensures kept { MatchBool result
            (self.new.bytes.items ≡ self.old.bytes.items ++ (reply.now ++ 10 ∷ []))
            (self.new.bytes.items ≡ self.old.bytes.items) }
    {
        if reply.len() >= ROOM - self.bytes.len().min(ROOM) {
            return false;
        }
        let _ = self.bytes.extend_from_slice(reply);
        let _ = self.bytes.push(b'\n');
        true
    }

    // Writes all that waits.
    pub(crate) fn write<K: Sink>(&mut self, sink: &mut K) -> Result<(), Failed>
        ensures ok { OnOk result (Becomes (K.written sink.old) (K.written sink.new)
            (λ old new. new ≡ old ++ self.old.bytes.items)) }
        ensures none { OnOk result (self.new.bytes.items ≡ []) }
        ensures err { OnErr result (Becomes (K.written sink.old) (K.written sink.new)
            (λ old new. (count : ℕ) × (new ≡ old ++ take count self.old.bytes.items))) }
        ensures cause { HasCause (K.faults sink.old) (K.faults sink.new) (IsErr result) }
    {
        sink.write(&self.bytes)?;
        self.bytes.clear();
        Ok(())
    }

    // Puts a reply and its line feed behind those that wait, and writes what has no room any more.
    pub(crate) fn put<K: Sink>(&mut self, reply: &mut Vec<u8>, sink: &mut K) -> Result<(), Failed>
        ensures written { Becomes (K.written sink.old) (K.written sink.new)
            (QueuesFor result self.old.bytes.items self.new.bytes.items (reply.old.items ++ 10 ∷ [])) }
        ensures room { vec_capacity reply.old ≤ vec_capacity reply.new }
        ensures cause { HasCause (K.faults sink.old) (K.faults sink.new) (IsErr result) }
    {
        if self.keep(reply) {
            return Ok(());
        }
        self.write(sink)?;
        if self.keep(reply) {
            return Ok(());
        }
        write_long(reply, sink)
    }
}

// Writes a reply and its line feed: as one piece, where there is memory for that.
fn write_long<K: Sink>(reply: &mut Vec<u8>, sink: &mut K) -> Result<(), Failed>
    ensures ok { OnOk result (Becomes (K.written sink.old) (K.written sink.new)
        (λ old new. new ≡ old ++ (reply.old.items ++ 10 ∷ []))) }
    ensures err { OnErr result (Becomes (K.written sink.old) (K.written sink.new)
        (λ old new. (count : ℕ) × (new ≡ old ++ take count (reply.old.items ++ 10 ∷ [])))) }
    ensures room { vec_capacity reply.old ≤ vec_capacity reply.new }
    ensures cause { HasCause (K.faults sink.old) (K.faults sink.new) (IsErr result) }
{
    if reply.push(b'\n').is_ok() {
        return sink.write(reply);
    }
    sink.write(reply)?;
    sink.write(b"\n")
}
