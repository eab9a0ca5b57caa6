//! Clients that are opened one after another, over a desk in memory.

use crate::made::{bytes_of, numbers};
use ct_bytes::Text;
use mem_board::MemBoard;
use request_loop::{ListClock, MemSink, MemSource, Source};
use run_desk::{Client, DeskFault, MemDesk, open_clients};
use std::alloc::Global;
use std::test::Fail;

// A desk whose three clients have inputs of 1, 2 and 3 bytes, and of which these calls fail.
fn desk_of(alloc: Global, fails: &[u64]) -> Result<MemDesk, Fail> {
    let mut clients = Vec::new(alloc);
    for input in [b"1".as_slice(), b"22", b"333"] {
        clients.push(Client {
            source: MemSource::new(bytes_of(alloc, input)?, 8, Vec::new(alloc)),
            sink: MemSink::new(alloc, 0, Vec::new(alloc))?,
            clock: ListClock::new(Vec::new(alloc)),
        })?;
    }
    let board = MemBoard::new(alloc, Vec::new(alloc), [0; 256], Vec::new(alloc))?;
    let dir = Text::from_str(alloc, "d")?;
    let fails = numbers(alloc, fails)?;
    Ok(MemDesk::new(900, [0; 32], dir, board, clients, fails))
}

#[test]
fn clients_are_opened_in_order_up_to_one_that_fails(rt: HostRuntime) -> Result<(), Fail> {
    let alloc = rt.alloc();
    let none = [].as_slice();
    for (count, fails, opened, stop) in [
        (0, none, 0, None),
        (2, none, 2, None),
        (3, none, 3, None),
        (4, none, 3, Some((4, DeskFault::Failed))),
        (3, [1].as_slice(), 0, Some((1, DeskFault::Failed))),
        (3, [3].as_slice(), 2, Some((3, DeskFault::Failed))),
    ] {
        let mut desk = desk_of(alloc, fails)?;
        let mut clients = Vec::with_capacity(alloc, count as usize)?;
        let end = open_clients(alloc, &mut desk, 1, &mut clients, count);
        assert!(rt; end.err() == stop, "at {count}");
        assert!(rt; clients.len() == opened, "at {count}");
        for (place, client) in clients.iter_mut().enumerate() {
            let mut input = [0; 8];
            assert!(rt;
                client.source.read(&mut input).ok() == Some(place + 1),
                "at {count}"
            );
        }
    }
    Ok(())
}
