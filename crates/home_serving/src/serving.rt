//! A home's clients, served until their inputs end, and the home's end.

ghost use Rattle.std.specs.Prelude.{◌≡◌, ◌<◌, ◌+◌, ◌^◌, ℕ, List, false, map, length, All, IfSome, IfNone, vec_capacity};
ghost use Rattle.std.specs.List.{AllByRecursion, range_with_len};
ghost use Rattle.request_loop.specs.declared.serve.LoopEnd.{LoopEnd as LoopEndSeen};
ghost use Rattle.share_api.specs.declared.step.Step.{Step};
ghost use Rattle.platform_lock.specs.Devices.{IsServed};
ghost use Rattle.board_device.specs.Device.{board_of, era_of, seen_by};
ghost use Rattle.board_device.specs.Standing.{IsOpened, StandsTo};
ghost use Rattle.client_seats.specs.Clients.{client_view, new_client};
ghost use Rattle.client_seats.specs.Gathering.{HaveEachNumber};
ghost use Rattle.client_threads.specs.Ends.{ends_from};
ghost use Rattle.home_locks.specs.Accounts.{started_at};
ghost use Rattle.user_accounts.specs.Settled.{UsersMoved, UsersSettle};
ghost use Rattle.request_turns.specs.Named.{seats_seen};
ghost use Rattle.home_seats.specs.Seats.{lock_seen, own_at};
ghost use Rattle.user_home.specs.Ending.{CanEnd, IsRoomFor};
ghost use Rattle.user_home.specs.Open.{IsServable, bare_slot};
ghost use Rattle.served_books.specs.Books.{AreServed, HaveNoTurns};
ghost use Rattle.home_service.specs.Seats.{ServesSeats};

use board_device::BoardDevice;
use board_model::Board;
use client_seats::ClientSeats;
use client_threads::ClientsEnd;
use home_locks::Account;
use home_service::{ServedClients, serve_clients};
use request_loop::{Clock, Sink, Source};
use run_desk::Client;
use std::alloc::Global;
use std::sync::Wait;
use std::thread::Threads;
use turn_secrets::Kdf;
use user_accounts::UserTurns;
use user_home::{HomeBooks, OpenHome, UserHome, settle_home};

/// What is left of a home whose clients were served: their ends, how serving ended, and the board with the books.
#[derive(Drop)]
pub struct ServedHome<B: Board + Drop, S, K, C> {
    pub clients: Vec<Client<S, K, C>>,
    /// Where there was no memory to begin, nobody was served, and there is no end.
    pub end: Option<ClientsEnd>,
    pub left: HomeBooks<B>,
}

// Serves the clients of the home, which stays.
fn serve_open<
    R: Threads + Wait + Sync,
    B: Board + Send + Drop,
    S: Source + Send + Drop,
    K: Sink + Send + Drop,
    C: Clock + Send + Drop,
    F: Kdf + Copy + Sync + Drop,
>(
    rt: &R,
    alloc: Global,
    home: &UserHome<B>,
    seats: Vec<ClientSeats<Account<UserTurns<B>>>>,
    ends: Vec<Client<S, K, C>>,
    kdf: F,
    cost: u8,
    first: u32,
) -> ServedClients<ClientSeats<Account<UserTurns<B>>>, S, K, C>
    requires servable { IsServable (seen_by B.faults home.now.shared.first.device) home.now.shared.id
        home.now.names.items (map (λ lock. lock_seen lock.id lock.first.seat lock.first.state lock.first.era)
        home.now.locks.items) }
    requires dealt { map client_view seats.items ≡ map (new_client (map (λ lock. lock.id) home.now.locks.items))
        (range_with_len 0 (length ends.items)) }
    requires below { first + length ends.items < 2 ^ 32 }
    ensures served { IfSome result.end (λ end. (ended : List LoopEndSeen) × (end ≡ ends_from first ended)
        × ServesSeats S.left S.taken S.faults K.written K.faults C.given false
        (λ client. seats_seen client.number home.now.names.items (map own_at client.seats.items))
        (λ client. map bare_slot client.seats.items)
        ended ends.items result.clients.items seats.items result.seats.items) }
    ensures unserved { IfNone result.end ((result.clients.items ≡ ends.items) × (result.seats.items ≡ seats.items)) }
{
    let open = OpenHome::new(&home.shared, &home.names, &home.locks, kdf, cost);
    serve_clients(rt, alloc, &open, seats, ends, first)
}

/// Serves all clients of a home until their inputs end, each on a thread of its own where one can be made, and then
/// ends the home.
///
/// `seats` and `ends` are those of the clients in one order, the seats as they are dealt. The first client has the
/// number `first` where the end tells of it. `kdf` derives keys, and `cost` is the cost exponent of new factors.
///
/// All memory is taken before the first client is served. Where there is none, nobody is served, the ends come back as
/// they were, and the home is ended all the same.
pub fn serve_home<
    R: Threads + Wait + Sync,
    B: Board + Send + Drop,
    S: Source + Send + Drop,
    K: Sink + Send + Drop,
    C: Clock + Send + Drop,
    F: Kdf + Copy + Sync + Drop,
>(
    rt: &R,
    alloc: Global,
    home: UserHome<B>,
    seats: Vec<ClientSeats<Account<UserTurns<B>>>>,
    ends: Vec<Client<S, K, C>>,
    kdf: F,
    cost: u8,
    first: u32,
) -> ServedHome<B, S, K, C>
    requires servable { IsServable (seen_by B.faults home.shared.first.device) home.shared.id home.names.items (map
        (λ lock. lock_seen lock.id lock.first.seat lock.first.state lock.first.era) home.locks.items) }
    requires can { CanEnd home.shared.id (era_of home.shared.first.device) (map
        (λ lock. lock_seen lock.id lock.first.seat lock.first.state lock.first.era) home.locks.items) home.idle }
    requires wholes { IsRoomFor (length home.locks.items) home.wholes.items (vec_capacity home.wholes) }
    requires parts { IsRoomFor (length home.locks.items) home.parts.items (vec_capacity home.parts) }
    requires books { IsRoomFor (length home.locks.items) home.books.items (vec_capacity home.books) }
    requires some { 0 < length ends.items }
    // The clients have the seats that were dealt to them, which have all numbers of the locks.
    requires dealt { map client_view seats.items ≡ map (new_client (map (λ lock. lock.id) home.locks.items))
        (range_with_len 0 (length ends.items)) }
    requires numbers { All (λ lock. HaveEachNumber (map (λ client. client.number) seats.items) lock.id.callers)
        home.locks.items }
    requires below { first + length ends.items < 2 ^ 32 }
    // Each client's lines are answered by its own entries in the books, each of which is used once.
    ensures served { IfSome result.end (λ end. AreServed S.left S.taken S.faults K.written K.faults C.given
        home.names.items result.left.books.items first end ends.items result.clients.items) }
    // Else nobody was served: the clients' ends are as they were, and no client has a turn in a book.
    ensures unserved { IfNone result.end ((result.clients.items ≡ ends.items)
        × HaveNoTurns (length ends.items) result.left.books.items) }
    ensures names { result.left.names ≡ home.names }
    ensures many { length result.left.books.items ≡ length home.locks.items }
    // The board is that of a device to which the chain of all accounts' steps led. Each entry moved its account by its own
    // stretch of the account's steps in the chain. Where the first one's board told its content, one place is read in all
    // books at each moment, and all their changes are in at the end, also in each image that a crash may leave then.
    ensures settled { (device : BoardDevice B) × (chain : List Step)
        × (result.left.board ≡ board_of device)
        × IsServed (seen_by B.faults) (StandsTo B.disk) home.shared.first.device device chain
        × UsersMoved home.shared.first.device
        (map (λ lock. started_at lock.first.seat lock.first.state) home.locks.items) chain result.left.books.items
        × (IsOpened B.disk home.shared.first.device → UsersSettle B.disk home.shared.first.device device
        (map (λ lock. started_at lock.first.seat lock.first.state) home.locks.items) chain result.left.books.items) }
{
    let ServedClients {
        clients,
        seats,
        end,
    } = serve_open(rt, alloc, &home, seats, ends, kdf, cost, first);
    ServedHome {
        clients,
        end,
        left: settle_home(home, seats),
    }
}

/// Ends a home whose clients couldn't be opened, so that nobody was served. It takes no memory.
///
/// `seats` are those of the clients, as they are dealt.
pub fn end_home<B: Board + Drop>(
    home: UserHome<B>,
    seats: Vec<ClientSeats<Account<UserTurns<B>>>>,
) -> HomeBooks<B>
    requires can { CanEnd home.shared.id (era_of home.shared.first.device) (map
        (λ lock. lock_seen lock.id lock.first.seat lock.first.state lock.first.era) home.locks.items) home.idle }
    requires wholes { IsRoomFor (length home.locks.items) home.wholes.items (vec_capacity home.wholes) }
    requires parts { IsRoomFor (length home.locks.items) home.parts.items (vec_capacity home.parts) }
    requires books { IsRoomFor (length home.locks.items) home.books.items (vec_capacity home.books) }
    requires some { 0 < length seats.items }
    // The clients have the seats that were dealt to them, which have all numbers of the locks.
    requires dealt { map client_view seats.items ≡ map (new_client (map (λ lock. lock.id) home.locks.items))
        (range_with_len 0 (length seats.items)) }
    requires numbers { All (λ lock. HaveEachNumber (map (λ client. client.number) seats.items) lock.id.callers)
        home.locks.items }
    // No client has a turn in a book.
    ensures unserved { HaveNoTurns (length seats.items) result.books.items }
    ensures names { result.names ≡ home.names }
    ensures many { length result.books.items ≡ length home.locks.items }
    // The board is that of a device to which the chain of all accounts' steps led. Each entry moved its account by its own
    // stretch of the account's steps in the chain. Where the first one's board told its content, one place is read in all
    // books at each moment, and all their changes are in at the end, also in each image that a crash may leave then.
    ensures settled { (device : BoardDevice B) × (chain : List Step)
        × (result.board ≡ board_of device)
        × IsServed (seen_by B.faults) (StandsTo B.disk) home.shared.first.device device chain
        × UsersMoved home.shared.first.device
        (map (λ lock. started_at lock.first.seat lock.first.state) home.locks.items) chain result.books.items
        × (IsOpened B.disk home.shared.first.device → UsersSettle B.disk home.shared.first.device device
        (map (λ lock. started_at lock.first.seat lock.first.state) home.locks.items) chain result.books.items) }
{
    settle_home(home, seats)
}
