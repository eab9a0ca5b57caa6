//! Clients on threads, over sources and sinks in memory.

use client_threads::{ClientsEnd, LineJob, ends_of, serve_all};
use request_loop::{Line, ListClock, MemSink, MemSource, Service};
use std::alloc::Global;
use std::test::Fail;

// What all clients share: each reply begins with it.
#[derive(Drop)]
struct Greeting {
    text: [u8; 2],
}

// Answers by the greeting and the line itself.
#[derive(Drop)]
struct Greeter<'a> {
    greeting: &'a Greeting,
}

impl<'a> Service for Greeter<'a> {
    ghost answered = { λ _ _ _. Unit {0} };

    fn answer(&mut self, line: Line<'_>, _moment: u64, reply: &mut Vec<u8>) {
        if let Line::Whole(bytes) = line {
            let _ = reply.extend_from_slice(&self.greeting.text);
            let _ = reply.extend_from_slice(bytes);
        }
    }
}

type MemJob<'a> = LineJob<MemSource, MemSink, ListClock, Greeter<'a>>;

// A client with this input, whose source fails at one read and whose sink at one write.
fn job_of<'a>(
    alloc: Global,
    greeting: &'a Greeting,
    input: &str,
    read: u64,
    write: u64,
) -> Result<MemJob<'a>, Fail> {
    let bytes = Vec::from_slice(alloc, input.as_bytes())?;
    let source = MemSource::new(bytes, 3, Vec::from_slice(alloc, &[read])?);
    let sink = MemSink::new(alloc, 100, Vec::from_slice(alloc, &[write])?)?;
    let clock = ListClock::new(Vec::from_slice(alloc, &[1])?);
    Ok(LineJob::new(source, sink, clock, Greeter { greeting }))
}

#[test]
fn each_client_is_served_at_its_place_and_the_least_fault_is_told(
    rt: HostRuntime,
) -> Result<(), Fail> {
    let alloc = rt.alloc();
    // of each client the read and the write that fail, and what it is written; then how the clients ended
    for (one, other, want) in [
        ((9, 9, "> ab\n> cd\n"), (9, 9, "> ef\n"), ClientsEnd::Served),
        (
            (2, 9, "> ab\n"),
            (9, 9, "> ef\n"),
            ClientsEnd::ClientFault(1),
        ),
        (
            (9, 9, "> ab\n> cd\n"),
            (9, 1, ""),
            ClientsEnd::ClientFault(2),
        ),
        ((9, 2, "> ab\n"), (1, 9, ""), ClientsEnd::ClientFault(1)),
    ] {
        let greeting = Greeting { text: *b"> " };
        let mut jobs = [
            job_of(alloc, &greeting, "ab\ncd\n", one.0, one.1)?,
            job_of(alloc, &greeting, "ef\n", other.0, other.1)?,
        ];
        serve_all(&rt, alloc, &mut jobs);
        assert_eq!(rt; jobs[0].sink.written(), one.2.as_bytes());
        assert_eq!(rt; jobs[1].sink.written(), other.2.as_bytes());
        assert_eq!(rt; ends_of(1, &jobs), want);
    }
    Ok(())
}
