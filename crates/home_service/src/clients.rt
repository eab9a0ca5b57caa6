//! The clients of a home, served side by side by their seats.

ghost use Rattle.std.specs.Prelude.{◌≡◌, ◌≤◌, ◌<◌, ◌+◌, ◌^◌, ◌++◌, ℕ, List, [], map, length, All, Some, IfOk, IfSome, IfNone, vec_len, vec_capacity};
ghost use Rattle.std.specs.List.{AllByRecursion};
ghost use Rattle.request_loop.specs.declared.serve.LoopEnd.{LoopEnd as LoopEndSeen};
ghost use Rattle.client_lines.specs.Seats.{AreSeatsOf};
ghost use Rattle.client_threads.specs.Ends.{ends_from};
ghost use Rattle.home_service.specs.Seats.{client_of, ServesSeats};

use client_lines::{Home, LineClient};
use client_threads::{ClientsEnd, LineJob, ends_of, serve_all};
use request_loop::{Clock, Sink, Source};
use run_desk::Client;
use std::alloc::{AllocError, Global};
use std::sync::Wait;
use std::thread::Threads;

/// Clients with their seats, in order, and how serving them ended. There is no end where nobody was served.
#[derive(Drop)]
pub struct ServedClients<T, S, K, C> {
    pub clients: Vec<Client<S, K, C>>,
    pub seats: Vec<T>,
    pub end: Option<ClientsEnd>,
}

// Room for clients' jobs, and for what comes out of them.
#[derive(Drop)]
struct Rooms<J, T, S, K, C> {
    jobs: Vec<J>,
    seats: Vec<T>,
    clients: Vec<Client<S, K, C>>,
}

// Room for so many clients.
fn make_rooms<J: Drop, T: Drop, S: Drop, K: Drop, C: Drop>(
    alloc: Global,
    count: usize,
) -> Result<Rooms<J, T, S, K, C>, AllocError>
    ensures jobs { IfOk result (λ rooms. (rooms.jobs.items ≡ []) × (count ≤ vec_capacity rooms.jobs)) }
    ensures seats { IfOk result (λ rooms. (rooms.seats.items ≡ []) × (count ≤ vec_capacity rooms.seats)) }
    ensures clients { IfOk result (λ rooms. (rooms.clients.items ≡ []) × (count ≤ vec_capacity rooms.clients)) }
{
    let jobs = Vec::with_capacity(alloc, count)?;
    let seats = Vec::with_capacity(alloc, count)?;
    let clients = Vec::with_capacity(alloc, count)?;
    Ok(Rooms {
        jobs,
        seats,
        clients,
    })
}

// Makes each client's job, and puts them behind others, in order.
fn make_jobs<'a, R: Wait, H: Home, S: Drop, K: Drop, C: Drop>(
    rt: &'a R,
    alloc: Global,
    home: &'a H,
    mut seats: Vec<H::Seat>,
    mut clients: Vec<Client<S, K, C>>,
    jobs: &mut Vec<LineJob<S, K, C, LineClient<'a, R, H>>>,
)
    requires many { length clients.items ≡ length seats.items }
    requires seated { All (λ seat. AreSeatsOf (H.locks home.now) (H.seen home.now seat).caller (H.bare seat))
        seats.items }
    requires room { vec_len jobs.old + length seats.items ≤ vec_capacity jobs.old }
    ensures room { vec_capacity jobs.new ≡ vec_capacity jobs.old }
    ensures len { vec_len jobs.new ≡ vec_len jobs.old + length seats.items }
    ensures clients { map client_of jobs.new.items ≡ map client_of jobs.old.items ++ clients.items }
    ensures seats { map (λ job. job.service.seat) jobs.new.items
        ≡ map (λ job. job.service.seat) jobs.old.items ++ map Some seats.items }
    ensures home { AllByRecursion (λ job. job.service.home.now ≡ home.now) jobs.old.items
        → AllByRecursion (λ job. job.service.home.now ≡ home.now) jobs.new.items }
{
    let Some(seat) = seats.pop() else {
        return;
    };
    let Client {
        source,
        sink,
        clock,
    } = clients.pop().unwrap();
    make_jobs(rt, alloc, home, seats, clients, jobs);
    let service = LineClient::new(rt, alloc, home, seat);
    jobs.push_reserved(LineJob::new(source, sink, clock, service));
}

// Takes the jobs apart, and puts the clients' seats and ends behind others, in order.
fn take_apart<'a, R: Wait, H: Home, S: Drop, K: Drop, C: Drop>(
    mut jobs: Vec<LineJob<S, K, C, LineClient<'a, R, H>>>,
    seats: &mut Vec<H::Seat>,
    clients: &mut Vec<Client<S, K, C>>,
)
    requires seats_room { vec_len seats.old + length jobs.items ≤ vec_capacity seats.old }
    requires clients_room { vec_len clients.old + length jobs.items ≤ vec_capacity clients.old }
    ensures seats_room { vec_capacity seats.new ≡ vec_capacity seats.old }
    ensures clients_room { vec_capacity clients.new ≡ vec_capacity clients.old }
    ensures seats_len { vec_len seats.new ≡ vec_len seats.old + length jobs.entry.items }
    ensures clients_len { vec_len clients.new ≡ vec_len clients.old + length jobs.entry.items }
    ensures seats { map Some seats.new.items
        ≡ map Some seats.old.items ++ map (λ job. job.service.seat) jobs.entry.items }
    ensures clients { clients.new.items ≡ clients.old.items ++ map client_of jobs.entry.items }
{
    let Some(job) = jobs.pop() else {
        return;
    };
    take_apart(jobs, seats, clients);
    let LineJob {
        source,
        sink,
        clock,
        service,
        end: _,
    } = job;
    seats.push_reserved(service.into_seat());
    clients.push_reserved(Client {
        source,
        sink,
        clock,
    });
}

/// Serves the clients by their seats of the home, each until its loop ends. The first client has the number `first`.
///
/// All memory is taken before the first client is served. Where there is none, nobody is.
pub fn serve_clients<
    R: Threads + Wait + Sync,
    H: Home + Sync,
    S: Source + Send + Drop,
    K: Sink + Send + Drop,
    C: Clock + Send + Drop,
>(
    rt: &R,
    alloc: Global,
    home: &H,
    seats: Vec<H::Seat>,
    clients: Vec<Client<S, K, C>>,
    first: u32,
) -> ServedClients<H::Seat, S, K, C>
where
    H::Seat: Send,
    requires many { length clients.items ≡ length seats.items }
    requires seated { All (λ seat. AreSeatsOf (H.locks home.now) (H.seen home.now seat).caller (H.bare seat))
        seats.items }
    requires numbers { first + length seats.items < 2 ^ 32 }
    // Each client's lines were answered by its own seat, and the seats and ends come out in their order.
    ensures served { IfSome result.end (λ end. (ended : List LoopEndSeen) × (end ≡ ends_from first ended)
        × ServesSeats S.left S.taken S.faults K.written K.faults C.given (H.pins home.now) (H.seen home.now) H.bare
        ended clients.items result.clients.items seats.items result.seats.items) }
    ensures unserved { IfNone result.end ((result.clients ≡ clients) × (result.seats ≡ seats)) }
{
    let Ok(rooms) = make_rooms(alloc, seats.len()) else {
        return ServedClients {
            clients,
            seats,
            end: None,
        };
    };
    let Rooms {
        mut jobs,
        seats: mut left_seats,
        clients: mut left_clients,
    } = rooms;
    make_jobs(rt, alloc, home, seats, clients, &mut jobs);
    serve_all(rt, alloc, jobs.as_mut_slice());
    let end = ends_of(first, jobs.as_slice());
    take_apart(jobs, &mut left_seats, &mut left_clients);
    ServedClients {
        clients: left_clients,
        seats: left_seats,
        end: Some(end),
    }
}
