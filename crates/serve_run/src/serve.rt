//! A home's clients are opened and served, and the home is ended.

ghost use Rattle.std.specs.Prelude.{◌≡◌, ◌≤◌, ◌<◌, ◌+◌, ◌^◌, [], Option, map, length, All, IfNone, IfSome, vec_capacity};
ghost use Rattle.std.specs.List.{range_with_len};
ghost use Rattle.board_device.specs.Device.{era_of, seen_by};
ghost use Rattle.client_seats.specs.Clients.{client_view, new_client};
ghost use Rattle.client_seats.specs.Gathering.{HaveEachNumber};
ghost use Rattle.client_threads.specs.declared.ending.ClientsEnd.{ClientsEnd as ClientsEndSeen};
ghost use Rattle.home_locks.specs.Accounts.{started_at};
ghost use Rattle.home_seats.specs.Seats.{lock_seen};
ghost use Rattle.user_home.specs.Ending.{CanEnd, IsRoomFor};
ghost use Rattle.user_home.specs.Open.{IsServable};
ghost use Rattle.served_books.specs.Books.{AreServed, HaveNoTurns};
ghost use Rattle.serve_run.specs.Histories.{IsEnded};
ghost use Rattle.serve_run.specs.Left.{left_over};
ghost use Rattle.serve_run.specs.Serving.{EndsSo, ending_of, ending_unopened};

use crate::left::Left;
use board_model::Board;
use client_seats::ClientSeats;
use client_threads::ClientsEnd;
use home_begin::BegunHome;
use home_locks::Account;
use home_serving::{ServedHome, end_home, serve_home};
use request_loop::{Clock, Sink, Source};
use run_desk::{Client, Desk, DeskFault, open_clients};
use run_ending::Ending;
use std::alloc::Global;
use std::sync::Wait;
use std::thread::Threads;
use turn_secrets::PlainKdf;
use user_accounts::UserTurns;
use user_home::{HomeBooks, UserHome};

/// How the clients of a run are numbered and served: the first one's number, how many there are, and the cost exponent
/// of new factors.
#[derive(Clone, Copy)]
pub(crate) struct Serving {
    pub first: u32,
    pub count: u32,
    pub cost: u8,
}

// How a run ends whose clients were served until they ended so. Where there is no end, there was no memory to begin.
fn ending_of(end: Option<ClientsEnd>) -> Ending
    ensures value { result ≡ ending_of end }
{
    match end {
        Some(ClientsEnd::Served) => Ending::Served,
        Some(ClientsEnd::NoMemory) | None => Ending::NoMemory,
        Some(ClientsEnd::ClientFault(client)) => Ending::ClientFault(client),
        Some(ClientsEnd::InputLimit(client)) => Ending::InputLimit(client),
    }
}

// How a run ends whose client of this number couldn't be opened.
fn ending_unopened(client: u32, fault: DeskFault) -> Ending
    ensures value { result ≡ ending_unopened client fault }
{
    match fault {
        DeskFault::Failed => Ending::ClientFault(client),
        DeskFault::NoMemory => Ending::NoMemory,
    }
}

// Serves the clients that were opened, and ends the home.
fn serve_opened<R: Threads + Wait + Sync, D: Desk>(
    rt: &R,
    alloc: Global,
    home: UserHome<D::Board>,
    seats: Vec<ClientSeats<Account<UserTurns<D::Board>>>>,
    clients: Vec<Client<D::Source, D::Sink, D::Clock>>,
    serving: Serving,
) -> (Left<D::Board, D::Source, D::Sink, D::Clock>, Ending)
    requires servable { IsServable (seen_by D.Board.faults home.shared.first.device) home.shared.id
        home.names.items
        (map (λ lock. lock_seen lock.id lock.first.seat lock.first.state lock.first.era) home.locks.items) }
    requires can { CanEnd home.shared.id (era_of home.shared.first.device)
        (map (λ lock. lock_seen lock.id lock.first.seat lock.first.state lock.first.era) home.locks.items) home.idle }
    requires wholes { IsRoomFor (length home.locks.items) home.wholes.items (vec_capacity home.wholes) }
    requires parts { IsRoomFor (length home.locks.items) home.parts.items (vec_capacity home.parts) }
    requires books { IsRoomFor (length home.locks.items) home.books.items (vec_capacity home.books) }
    requires dealt { map client_view seats.items ≡ map (new_client (map (λ lock. lock.id) home.locks.items))
        (range_with_len 0 (length clients.items)) }
    requires numbers { All (λ lock. HaveEachNumber (map (λ client. client.number) seats.items) lock.id.callers)
        home.locks.items }
    requires some { 0 < length clients.items }
    requires below { serving.first + length clients.items < 2 ^ 32 }
    ensures ended { IsEnded
        (record {
          disk = D.Board.disk;
          board_faults = D.Board.faults;
          left = D.Source.left;
          taken = D.Source.taken;
          source_faults = D.Source.faults;
          written = D.Sink.written;
          sink_faults = D.Sink.faults;
          given = D.Clock.given;
        })
        home.shared.first.device (map (λ lock. started_at lock.first.seat lock.first.state) home.locks.items)
        result.0.board result.0.books.items }
    ensures names { result.0.names ≡ home.names }
    ensures many { length result.0.books.items ≡ length home.locks.items }
    ensures ends { (end : Option ClientsEndSeen) × (result.1 ≡ ending_of end)
        × IfSome end (λ end. AreServed D.Source.left D.Source.taken D.Source.faults D.Sink.written D.Sink.faults
        D.Clock.given result.0.names.items result.0.books.items serving.first end clients.items
        result.0.clients.items)
        × IfNone end ((result.0.clients.items ≡ clients.items)
        × HaveNoTurns (length clients.items) result.0.books.items) }
{
    let ServedHome { clients, end, left } = serve_home(
        rt,
        alloc,
        home,
        seats,
        clients,
        PlainKdf,
        serving.cost,
        serving.first,
    );
    let HomeBooks {
        board,
        names,
        books,
    } = left;
    let left = Left {
        board: Some(board),
        clients,
        names,
        books,
    };
    (left, ending_of(end))
}

/// Opens the clients of a home that was begun, serves them until their inputs end, and ends the home. Where a client
/// can't be opened nobody is served, and the home is ended all the same.
///
/// `clients` is an empty list with room for all of them.
pub(crate) fn serve_begun<R: Threads + Wait + Sync, D: Desk>(
    rt: &R,
    alloc: Global,
    begun: BegunHome<D::Board>,
    clients: Vec<Client<D::Source, D::Sink, D::Clock>>,
    serving: Serving,
    desk: &mut D,
) -> (Left<D::Board, D::Source, D::Sink, D::Clock>, Ending)
    requires servable { IsServable (seen_by D.Board.faults begun.home.shared.first.device) begun.home.shared.id
        begun.home.names.items
        (map (λ lock. lock_seen lock.id lock.first.seat lock.first.state lock.first.era) begun.home.locks.items) }
    requires can { CanEnd begun.home.shared.id (era_of begun.home.shared.first.device)
        (map (λ lock. lock_seen lock.id lock.first.seat lock.first.state lock.first.era) begun.home.locks.items) begun.home.idle }
    requires wholes { IsRoomFor (length begun.home.locks.items) begun.home.wholes.items (vec_capacity begun.home.wholes) }
    requires parts { IsRoomFor (length begun.home.locks.items) begun.home.parts.items (vec_capacity begun.home.parts) }
    requires books { IsRoomFor (length begun.home.locks.items) begun.home.books.items (vec_capacity begun.home.books) }
    requires dealt { map client_view begun.clients.items ≡ map (new_client (map (λ lock. lock.id) begun.home.locks.items))
        (range_with_len 0 serving.count) }
    requires numbers { All (λ lock. HaveEachNumber (map (λ client. client.number) begun.clients.items) lock.id.callers)
        begun.home.locks.items }
    requires some { 0 < serving.count }
    requires below { serving.first + serving.count < 2 ^ 32 }
    requires empty { clients.items ≡ [] }
    requires room { serving.count ≤ vec_capacity clients }
    ensures ended { IsEnded
        (record {
          disk = D.Board.disk;
          board_faults = D.Board.faults;
          left = D.Source.left;
          taken = D.Source.taken;
          source_faults = D.Source.faults;
          written = D.Sink.written;
          sink_faults = D.Sink.faults;
          given = D.Clock.given;
        })
        begun.home.shared.first.device
        (map (λ lock. started_at lock.first.seat lock.first.state) begun.home.locks.items)
        result.0.board result.0.books.items }
    ensures names { result.0.names ≡ begun.home.names }
    ensures many { length result.0.books.items ≡ length begun.home.locks.items }
    ensures ends { EndsSo
        (record {
          disk = D.Board.disk;
          board_faults = D.Board.faults;
          left = D.Source.left;
          taken = D.Source.taken;
          source_faults = D.Source.faults;
          written = D.Sink.written;
          sink_faults = D.Sink.faults;
          given = D.Clock.given;
        })
        serving.first serving.count (D.seen desk.old) (D.seen desk.new) (left_over result.0) result.1 }
{
    let BegunHome {
        home,
        clients: seats,
    } = begun;
    let mut clients = clients;
    match open_clients(alloc, desk, serving.first, &mut clients, serving.count) {
        Ok(()) => serve_opened::<R, D>(rt, alloc, home, seats, clients, serving),
        Err((client, fault)) => {
            let HomeBooks {
                board,
                names,
                books,
            } = end_home(home, seats);
            let left = Left {
                board: Some(board),
                clients,
                names,
                books,
            };
            (left, ending_unopened(client, fault))
        }
    }
}
