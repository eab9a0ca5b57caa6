//! The loop from the source to the sink.

ghost use Rattle.std.specs.Prelude.{◌≡◌, ◌↔◌, ◌+◌, ◌-◌, ◌^◌, ◌<◌, ◌≤◌, min, ℕ, List, [], ◌∷◌, ◌++◌, length, map, take, vec_capacity, OnOk, OnErr, IfOk, IsErr};
ghost use Rattle.fault_count.specs.Causes.{HasCause};
ghost use Rattle.fault_count.specs.Told.{Becomes};
ghost use Rattle.request_loop.specs.Lines.{lines_seen, ended_seen, line_seen};
ghost use Rattle.request_loop.specs.Exchange.{Exchange};
ghost use Rattle.request_loop.specs.Served.{IsServed, lines_answered};
ghost use Rattle.request_loop.specs.Cut.{KeepsLine, HoldsPart, Serves, WritesFor};

use crate::part::Part;
use crate::replies::Replies;
use crate::{Clock, Line, Service, Sink, Source};
use fault_count::Failed;
use std::alloc::{AllocError, Global};

/// How the loop came to its end.
#[derive(Clone, Copy, Debug, PartialEq, Eq)]
pub enum LoopEnd {
    /// The input was read to its end, and all replies were written.
    End,
    /// The source failed. The whole lines before it were answered.
    SourceFault,
    /// The sink failed. Of the replies since the last read only the first bytes may be written.
    SinkFault,
    /// 2^32 bytes were taken without an end. The whole lines among them were answered.
    InputLimit,
    /// There was no memory to begin. Nothing was read or written.
    NoMemory,
}

/// How many bytes of a client are taken without an end of its input.
const MAX_INPUT: u64 = 1 << 32;

/// The most bytes of a read.
const PIECE: usize = 4096;

/// The room that a service finds in its reply.
const REPLY_ROOM: usize = 256;

// Answers a line, and puts the reply with its line feed behind those that wait.
fn answer_line<K: Sink, C: Clock, V: Service>(
    line: Line<'_>,
    reply: &mut Vec<u8>,
    replies: &mut Replies,
    sink: &mut K,
    clock: &mut C,
    service: &mut V,
) -> Result<(), Failed>
    requires { 256 ≤ vec_capacity reply.old }
    ensures room { 256 ≤ vec_capacity reply.new }
    ensures served { (x : Exchange) × (x.line ≡ line_seen line.entry)
        × Serves (λ start. V.answered start service.old) (λ start. V.answered start service.new) (K.written sink.old) (K.written sink.new)
        (C.given clock.old) (C.given clock.new) (WritesFor result replies.old.bytes.items replies.new.bytes.items) (x ∷ []) }
    ensures cause { HasCause (K.faults sink.old) (K.faults sink.new) (IsErr result) }
{
    let moment = clock.now();
    reply.clear();
    service.answer(line, moment, reply);
    replies.put(reply, sink)
}

// Takes one more byte, and answers the line that it ends.
fn take_byte<K: Sink, C: Clock, V: Service>(
    byte: u8,
    part: &mut Part,
    reply: &mut Vec<u8>,
    replies: &mut Replies,
    sink: &mut K,
    clock: &mut C,
    service: &mut V,
) -> Result<(), Failed>
    requires { 256 ≤ vec_capacity reply.old }
    ensures room { 256 ≤ vec_capacity reply.new }
    ensures served { (xs : List Exchange)
        × Serves (λ start. V.answered start service.old) (λ start. V.answered start service.new) (K.written sink.old) (K.written sink.new)
        (C.given clock.old) (C.given clock.new) (WritesFor result replies.old.bytes.items replies.new.bytes.items) xs
        × ((taken : List ℕ) → HoldsPart part.old.is_long part.old.bytes.items taken
        → ended_seen (taken ++ byte ∷ []) ≡ ended_seen taken ++ lines_answered xs) }
    ensures part { OnOk result ((taken : List ℕ) → HoldsPart part.old.is_long part.old.bytes.items taken
        → HoldsPart part.new.is_long part.new.bytes.items (taken ++ byte ∷ [])) }
    ensures cause { HasCause (K.faults sink.old) (K.faults sink.new) (IsErr result) }
{
    if byte == b'\n' {
        answer_line(part.line(), reply, replies, sink, clock, service)?;
        part.clear();
    } else {
        part.add(byte);
    }
    Ok(())
}

// Takes the bytes of a piece of the input, up to the one that ends a line whose reply can't be written.
fn take_piece<K: Sink, C: Clock, V: Service>(
    piece: &[u8],
    part: &mut Part,
    reply: &mut Vec<u8>,
    replies: &mut Replies,
    sink: &mut K,
    clock: &mut C,
    service: &mut V,
) -> Result<(), Failed>
    requires { 256 ≤ vec_capacity reply.old }
    ensures room { 256 ≤ vec_capacity reply.new }
    ensures served { (xs : List Exchange) × (gone : List ℕ) × (rest : List ℕ) × (piece.now ≡ gone ++ rest)
        × Serves (λ start. V.answered start service.old) (λ start. V.answered start service.new) (K.written sink.old) (K.written sink.new)
        (C.given clock.old) (C.given clock.new) (WritesFor result replies.old.bytes.items replies.new.bytes.items) xs
        × ((taken : List ℕ) → HoldsPart part.old.is_long part.old.bytes.items taken
        → ended_seen (taken ++ gone) ≡ ended_seen taken ++ lines_answered xs)
        × OnOk result (rest ≡ []) }
    ensures part { OnOk result ((taken : List ℕ) → HoldsPart part.old.is_long part.old.bytes.items taken
        → HoldsPart part.new.is_long part.new.bytes.items (taken ++ piece.now)) }
    ensures cause { HasCause (K.faults sink.old) (K.faults sink.new) (IsErr result) }
{
    for byte in piece {
        take_byte(*byte, part, reply, replies, sink, clock, service)?;
    }
    Ok(())
}

// Answers the last line, which no line feed ends.
fn take_end<K: Sink, C: Clock, V: Service>(
    part: &Part,
    reply: &mut Vec<u8>,
    replies: &mut Replies,
    sink: &mut K,
    clock: &mut C,
    service: &mut V,
) -> Result<(), Failed>
    requires { 256 ≤ vec_capacity reply.old }
    ensures served { (xs : List Exchange)
        × Serves (λ start. V.answered start service.old) (λ start. V.answered start service.new) (K.written sink.old) (K.written sink.new)
        (C.given clock.old) (C.given clock.new) (WritesFor result replies.old.bytes.items replies.new.bytes.items) xs
        × ((taken : List ℕ) → HoldsPart part.now.is_long part.now.bytes.items taken
        → lines_seen taken ≡ ended_seen taken ++ lines_answered xs) }
    ensures cause { HasCause (K.faults sink.old) (K.faults sink.new) (IsErr result) }
{
    match part.last_line() {
        Some(line) => answer_line(line, reply, replies, sink, clock, service),
        None => Ok(()),
    }
}

// Takes the bytes of a piece, and writes the replies to the lines that end in it.
fn serve_piece<K: Sink, C: Clock, V: Service>(
    piece: &[u8],
    part: &mut Part,
    reply: &mut Vec<u8>,
    replies: &mut Replies,
    sink: &mut K,
    clock: &mut C,
    service: &mut V,
) -> Result<(), Failed>
    requires room { 256 ≤ vec_capacity reply.old }
    requires none { replies.old.bytes.items ≡ [] }
    ensures room { 256 ≤ vec_capacity reply.new }
    ensures none { OnOk result (replies.new.bytes.items ≡ []) }
    ensures served { (xs : List Exchange) × (gone : List ℕ) × (rest : List ℕ) × (piece.now ≡ gone ++ rest)
        × Serves (λ start. V.answered start service.old) (λ start. V.answered start service.new) (K.written sink.old) (K.written sink.new)
        (C.given clock.old) (C.given clock.new) (WritesFor result [] []) xs
        × ((taken : List ℕ) → HoldsPart part.old.is_long part.old.bytes.items taken
        → ended_seen (taken ++ gone) ≡ ended_seen taken ++ lines_answered xs)
        × OnOk result (rest ≡ []) }
    ensures part { OnOk result ((taken : List ℕ) → HoldsPart part.old.is_long part.old.bytes.items taken
        → HoldsPart part.new.is_long part.new.bytes.items (taken ++ piece.now)) }
    ensures cause { HasCause (K.faults sink.old) (K.faults sink.new) (IsErr result) }
{
    take_piece(piece, part, reply, replies, sink, clock, service)?;
    replies.write(sink)
}

// Answers the last line, which no line feed ends, and writes the reply.
fn serve_end<K: Sink, C: Clock, V: Service>(
    part: &Part,
    reply: &mut Vec<u8>,
    replies: &mut Replies,
    sink: &mut K,
    clock: &mut C,
    service: &mut V,
) -> Result<(), Failed>
    requires room { 256 ≤ vec_capacity reply.old }
    requires none { replies.old.bytes.items ≡ [] }
    ensures served { (xs : List Exchange)
        × Serves (λ start. V.answered start service.old) (λ start. V.answered start service.new) (K.written sink.old) (K.written sink.new)
        (C.given clock.old) (C.given clock.new) (WritesFor result [] []) xs
        × ((taken : List ℕ) → HoldsPart part.now.is_long part.now.bytes.items taken
        → lines_seen taken ≡ ended_seen taken ++ lines_answered xs) }
    ensures cause { HasCause (K.faults sink.old) (K.faults sink.new) (IsErr result) }
{
    take_end(part, reply, replies, sink, clock, service)?;
    replies.write(sink)
}

// Reads more of the input, which may have to wait for the client. No reply to it is held back.
fn read_more<S: Source>(
    source: &mut S,
    window: &mut [u8],
    replies: &Replies,
) -> Result<usize, Failed>
    requires room { 0 < length window.old }
    requires none { replies.now.bytes.items ≡ [] }
    ensures within { IfOk result (λ count. count ≤ length window.new) }
    ensures ok { IfOk result (λ count.
        Becomes (S.left source.old) (S.left source.new) (λ old new. old ≡ take count window.new ++ new)) }
    ensures end { IfOk result (λ count.
        Becomes (S.left source.old) (S.left source.new) (λ old new. (count ≡ 0) ↔ (old ≡ []))) }
    ensures taken { IfOk result (λ count. S.taken source.new ≡ min (S.taken source.old + count) (2 ^ 64 - 1)) }
    ensures err { OnErr result (S.left source.new ≡ S.left source.old) }
    ensures none_taken { OnErr result (S.taken source.new ≡ S.taken source.old) }
    ensures cause { HasCause (S.faults source.old) (S.faults source.new) (IsErr result) }
{
    let _ = replies;
    source.read(window)
}

// The memory that the loop needs: a line, a reply, and the replies that wait.
fn take_room(alloc: Global) -> Result<(Part, Vec<u8>, Replies), AllocError>
    ensures part { IfOk result (λ made. KeepsLine made.0.is_long made.0.bytes.items []) }
    ensures room { IfOk result (λ made. 256 ≤ vec_capacity made.1) }
    ensures none { IfOk result (λ made. made.2.bytes.items ≡ []) }
{
    let part = Part::new(alloc)?;
    let reply = Vec::with_capacity(alloc, REPLY_ROOM)?;
    let replies = Replies::new(alloc)?;
    Ok((part, reply, replies))
}

/// Hands each line of the source to the service, and writes its replies to the sink.
///
/// A line ends at a line feed; a last one without it is a line too where it isn't empty. Of a line of
/// more than 100,000 bytes the service sees only that it is too long. The clock is asked once a line,
/// when the line is whole. Every whole line that was read is answered before the next read, and its
/// reply is written by then: the replies to the lines of one read are written together. All memory is
/// taken before the first read, but for what a reply of its own takes.
pub fn serve_client<S: Source, K: Sink, C: Clock, V: Service>(
    alloc: Global,
    source: &mut S,
    sink: &mut K,
    clock: &mut C,
    service: &mut V,
) -> LoopEnd
    // Which lines were answered, and what of the replies was written, at each end.
    ensures served { (exchanges : List Exchange)
        × IsServed result (λ start. V.answered start service.old) (λ start. V.answered start service.new)
        (S.left source.old) (S.left source.new) (K.written sink.old) (K.written sink.new)
        (C.given clock.old) (C.given clock.new) exchanges }

    // The input limit is met where 2^32 bytes were taken, and never more are.
    ensures input_limit { result ≡ LoopEnd.InputLimit
        → min (S.taken source.old + 2 ^ 32) (2 ^ 64 - 1) ≤ S.taken source.new }
    ensures most { S.taken source.new ≤ S.taken source.old + 2 ^ 32 }

    // A fault is answered exactly where that object's count rose.
    ensures source_fault { HasCause (S.faults source.old) (S.faults source.new) (result ≡ LoopEnd.SourceFault) }
    ensures sink_fault { HasCause (K.faults sink.old) (K.faults sink.new) (result ≡ LoopEnd.SinkFault) }
{
    let (mut part, mut reply, mut replies) = match take_room(alloc) {
        Ok(room) => room,
        Err(_) => return LoopEnd::NoMemory,
    };
    let mut buf = [0u8; PIECE];
    let mut taken = 0u64;
    while taken < MAX_INPUT {
        let most = (MAX_INPUT - taken).min(PIECE as u64) as usize;
        let window = &mut buf[..most];
        let count = match read_more(source, window, &replies) {
            Ok(count) => count,
            Err(Failed) => return LoopEnd::SourceFault,
        };
        if count == 0 {
            let _done = match serve_end(&part, &mut reply, &mut replies, sink, clock, service) {
                Ok(done) => done,
                Err(Failed) => return LoopEnd::SinkFault,
            };
            return LoopEnd::End;
        }
        let piece = &window[..count];
        let _done = match serve_piece(
            piece,
            &mut part,
            &mut reply,
            &mut replies,
            sink,
            clock,
            service,
        ) {
            Ok(done) => done,
            Err(Failed) => return LoopEnd::SinkFault,
        };
        taken += count as u64;
    }
    LoopEnd::InputLimit
}
