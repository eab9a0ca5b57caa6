//! A source, a sink and a clock in memory.

use crate::made::{bytes_of, numbers};
use fault_count::Failed;
use request_loop::{Clock, ListClock, MemSink, MemSource, Sink, Source};
use std::test::Fail;

#[test]
fn a_source_in_memory_gives_its_bytes_in_pieces(rt: HostRuntime) -> Result<(), Fail> {
    let alloc = rt.alloc();
    let bytes = bytes_of(alloc, b"abcdefg")?;
    let mut source = MemSource::new(bytes, 3, numbers(alloc, &[2, 5])?);
    let mut buf = [b'.'; 4];
    for (want, left) in [
        (Ok(3), "abc."),
        (Err(Failed), "abc."),
        (Ok(3), "def."),
        (Ok(1), "gef."),
        (Err(Failed), "gef."),
        (Ok(0), "gef."),
    ] {
        assert!(rt; source.read(&mut buf) == want, "{left}");
        assert!(rt; buf.as_slice() == left.as_bytes());
    }
    Ok(())
}

#[test]
fn a_sink_in_memory_writes_all_or_nothing(rt: HostRuntime) -> Result<(), Fail> {
    let alloc = rt.alloc();
    let mut sink = MemSink::new(alloc, 5, numbers(alloc, &[2])?)?;
    for (bytes, want, written) in [
        ("ab", Ok(()), "ab"),
        ("c", Err(Failed), "ab"),
        ("cdef", Err(Failed), "ab"),
        ("cde", Ok(()), "abcde"),
        ("f", Err(Failed), "abcde"),
    ] {
        assert!(rt; sink.write(bytes.as_bytes()) == want, "{bytes}");
        assert!(rt; sink.written() == written.as_bytes());
    }
    Ok(())
}

#[test]
fn a_clock_in_memory_gives_its_last_number_again(rt: HostRuntime) -> Result<(), Fail> {
    let alloc = rt.alloc();
    let mut clock = ListClock::new(numbers(alloc, &[7, 5])?);
    for want in [7, 5, 5, 5] {
        assert!(rt; clock.now() == want);
    }
    let mut none = ListClock::new(numbers(alloc, &[])?);
    assert!(rt; none.now() == 0);
    Ok(())
}
