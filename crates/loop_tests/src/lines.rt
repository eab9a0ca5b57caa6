//! The loop over a source, a sink and a clock in memory.

ghost use Rattle.std.specs.Prelude.{◌≤◌};

use crate::made::{bytes_of, numbers};
use request_loop::{Line, ListClock, LoopEnd, MemSink, MemSource, Service, Source, serve_client};
use std::alloc::{AllocError, Global};
use std::test::Fail;

// Answers by the last digit of the moment, and the first four bytes of the line or `long`.
#[derive(Drop)]
struct Echo;

impl Service for Echo {
    ghost answered = { λ _ _ _. Unit {0} };

    fn answer(&mut self, line: Line<'_>, moment: u64, reply: &mut Vec<u8>) {
        let text = match line {
            Line::Whole(bytes) => &bytes[..bytes.len().min(4)],
            Line::TooLong => b"long".as_slice(),
        };
        let _ = reply.push(b'0' + (moment % 10) as u8);
        let _ = reply.extend_from_slice(text);
    }
}

fn letters(alloc: Global, count: usize) -> Result<Vec<u8>, AllocError> {
    vec![in alloc; b'a'; count]
}

// So many bytes `a`, and then `rest`.
fn long_line(alloc: Global, count: usize, rest: &[u8]) -> Result<Vec<u8>, AllocError> {
    let mut line = letters(alloc, count)?;
    line.extend_from_slice(rest)?;
    Ok(line)
}

fn twice(alloc: Global, part: &[u8]) -> Result<Vec<u8>, AllocError> {
    let mut both = bytes_of(alloc, part)?;
    both.extend_from_slice(part)?;
    Ok(both)
}

// Serves the source with a clock that gives 1, 2, 3 and so on.
fn serve(alloc: Global, source: &mut MemSource, sink: &mut MemSink) -> Result<LoopEnd, AllocError> {
    let mut clock = ListClock::new(numbers(alloc, &[1, 2, 3, 4, 5])?);
    Ok(serve_client(alloc, source, sink, &mut clock, &mut Echo))
}

#[test]
fn each_line_is_answered_with_its_own_moment(rt: HostRuntime) -> Result<(), Fail> {
    let alloc = rt.alloc();
    for (input, want) in [
        ("", ""),
        ("\n", "1\n"),
        ("ab\ncd\n", "1ab\n2cd\n"),
        ("ab\ncd", "1ab\n2cd\n"),
        ("ab\n\n\r\nabcdef", "1ab\n2\n3\r\n4abcd\n"),
    ] {
        for piece in [1, 3, 5000] {
            let bytes = bytes_of(alloc, input.as_bytes())?;
            let mut source = MemSource::new(bytes, piece, numbers(alloc, &[])?);
            let mut sink = MemSink::new(alloc, 100, numbers(alloc, &[])?)?;
            let end = serve(alloc, &mut source, &mut sink)?;
            assert!(rt; end == LoopEnd::End);
            assert!(rt;
                sink.written() == want.as_bytes(),
                "{want} in pieces of {piece}"
            );
        }
    }
    Ok(())
}

#[test]
fn a_line_of_more_than_100000_bytes_is_too_long(rt: HostRuntime) -> Result<(), Fail> {
    let alloc = rt.alloc();
    for (count, rest, want) in [
        (100_000, "", "1aaaa\n"),
        (100_001, "", "1long\n"),
        (100_000, "\nb\n", "1aaaa\n2b\n"),
        (100_001, "\nb\n", "1long\n2b\n"),
        (250_000, "\nb", "1long\n2b\n"),
    ] {
        let bytes = long_line(alloc, count, rest.as_bytes())?;
        let mut source = MemSource::new(bytes, 4096, numbers(alloc, &[])?);
        let mut sink = MemSink::new(alloc, 100, numbers(alloc, &[])?)?;
        let end = serve(alloc, &mut source, &mut sink)?;
        assert!(rt; end == LoopEnd::End);
        assert!(rt; sink.written() == want.as_bytes(), "{count} bytes");
    }
    Ok(())
}

#[test]
fn the_whole_lines_before_a_source_fault_are_answered(rt: HostRuntime) -> Result<(), Fail> {
    let alloc = rt.alloc();
    let bytes = bytes_of(alloc, b"ab\ncdef\ngh")?;
    let mut source = MemSource::new(bytes, 4, numbers(alloc, &[2])?);
    let mut sink = MemSink::new(alloc, 100, numbers(alloc, &[])?)?;
    let end = serve(alloc, &mut source, &mut sink)?;
    assert!(rt; end == LoopEnd::SourceFault);
    assert!(rt; sink.written() == b"1ab\n".as_slice());

    // A read that works again isn't at the end: what is left is served.
    let end = serve(alloc, &mut source, &mut sink)?;
    assert!(rt; end == LoopEnd::End);
    assert!(rt; sink.written() == b"1ab\n1def\n2gh\n".as_slice());
    Ok(())
}

#[test]
fn a_sink_fault_ends_the_loop_at_its_write(rt: HostRuntime) -> Result<(), Fail> {
    let alloc = rt.alloc();
    // the replies to the first read are one write, and that to the last line is another
    for (fails, room, want) in [
        (1, 100, ""),
        (2, 100, "1ab\n2cd\n"),
        (9, 7, ""),
        (9, 8, "1ab\n2cd\n"),
    ] {
        let bytes = bytes_of(alloc, b"ab\ncd\nef")?;
        let mut source = MemSource::new(bytes, 100, numbers(alloc, &[])?);
        let mut sink = MemSink::new(alloc, room, numbers(alloc, &[fails])?)?;
        let end = serve(alloc, &mut source, &mut sink)?;
        assert!(rt; end == LoopEnd::SinkFault);
        assert!(rt; sink.written() == want.as_bytes(), "write {fails} fails");
    }
    Ok(())
}

#[test]
fn the_next_read_waits_for_the_replies_to_the_last(rt: HostRuntime) -> Result<(), Fail> {
    let alloc = rt.alloc();
    // each read gives one line; the write that fails, what was written, and the line that the next read gives
    for (fails, want, next) in [
        (1, "", "cd\n"),
        (2, "1ab\n", "ef\n"),
        (3, "1ab\n2cd\n", "gh\n"),
    ] {
        let bytes = bytes_of(alloc, b"ab\ncd\nef\ngh\n")?;
        let mut source = MemSource::new(bytes, 3, numbers(alloc, &[])?);
        let mut sink = MemSink::new(alloc, 100, numbers(alloc, &[fails])?)?;
        let end = serve(alloc, &mut source, &mut sink)?;
        assert!(rt; end == LoopEnd::SinkFault);
        assert!(rt; sink.written() == want.as_bytes(), "write {fails} fails");
        let mut buf = [b'.'; 3];
        assert!(rt; source.read(&mut buf) == Ok(3));
        assert!(rt; buf.as_slice() == next.as_bytes());
    }
    Ok(())
}

// Answers by the line itself.
#[derive(Drop)]
struct Mirror;

impl Service for Mirror {
    ghost answered = { λ _ _ _. Unit {0} };

    fn answer(&mut self, line: Line<'_>, _moment: u64, reply: &mut Vec<u8>) {
        if let Line::Whole(bytes) = line {
            let _ = reply.extend_from_slice(bytes);
        }
    }
}

#[test]
fn replies_beyond_the_buffer_are_written_in_their_order(rt: HostRuntime) -> Result<(), Fail> {
    let alloc = rt.alloc();
    for count in [30_000, 65_535, 65_536, 99_999] {
        let bytes = twice(alloc, &long_line(alloc, count, b"\nb\n")?)?;
        let want = bytes_of(alloc, &bytes)?;
        let mut source = MemSource::new(bytes, 4096, numbers(alloc, &[])?);
        let mut sink = MemSink::new(alloc, 300_000, numbers(alloc, &[])?)?;
        let mut clock = ListClock::new(numbers(alloc, &[1])?);
        let end = serve_client(alloc, &mut source, &mut sink, &mut clock, &mut Mirror);
        assert!(rt; end == LoopEnd::End);
        assert!(rt; sink.written() == want.as_slice(), "at {count}");
    }
    Ok(())
}
