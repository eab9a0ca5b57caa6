//! The end of a home: all its locks are closed.

ghost use Rattle.std.specs.Prelude.{◌≡◌, ℕ, ◌<◌, ◌≤◌, ◌+◌, ◌++◌, List, map, length, All, vec_len, vec_capacity};
ghost use Rattle.std.specs.List.{AllByRecursion};
ghost use Rattle.share_api.specs.declared.step.Step.{Step};
ghost use Rattle.turn_lock.specs.Lists.{entries_of};
ghost use Rattle.turn_lock.specs.Seats.{HasEachNumber};
ghost use Rattle.platform_lock.specs.Devices.{IsServed};
ghost use Rattle.board_device.specs.Device.{board_of, era_of, seen_by};
ghost use Rattle.board_device.specs.Standing.{IsOpened, StandsTo};
ghost use Rattle.client_seats.specs.Clients.{client_view, known_at, HasItsSeats};
ghost use Rattle.client_seats.specs.Gathering.{EachAt, HaveEachNumber, IsWholeSeat};
ghost use Rattle.home_locks.specs.Accounts.{started_at};
ghost use Rattle.home_locks.specs.Closing.{AreRecalled};
ghost use Rattle.home_locks.specs.Meanings.{client_of};
ghost use Rattle.user_accounts.specs.Settled.{UsersMoved, UsersSettle};
ghost use Rattle.home_seats.specs.Seats.{lock_seen};
ghost use Rattle.home_opening.specs.Locks.{account_seen};
ghost use Rattle.user_home.specs.Ending.{AreAccountLocks, CanEnd, IsRoomFor};

use crate::home::UserHome;
use board_device::BoardDevice;
use board_model::Board;
use client_seats::{ClientSeats, WholeLock, gather_seats, known_entries_are_in_the_book};
use ct_bytes::Text;
use home_locks::{Account, Books, Entry, Part, settle};
use platform_lock::{Shared, SharedDevice};
use turn_lock::{Chain, Seat, Turnstile};
use turn_meaning::TurnTaken;
use user_accounts::UserTurns;

/// What is left of a home: its board, and the accounts' names with their books in the same order.
#[derive(Drop)]
pub struct HomeBooks<B: Board + Drop> {
    pub board: B,
    pub names: Vec<Text>,
    pub books: Vec<Chain<Entry<TurnTaken>>>,
}

// Puts the locks with their joined seats behind others, in order.
fn add_parts<B: Board + Drop>(
    mut wholes: Vec<WholeLock<Account<UserTurns<B>>>>,
    parts: &mut Vec<Part<UserTurns<B>>>,
)
    requires room { vec_len parts.old + length wholes.items ≤ vec_capacity parts.old }
    ensures room { vec_capacity parts.new ≡ vec_capacity parts.old }
    ensures len { vec_len parts.new ≡ vec_len parts.old + length wholes.items }
    ensures parts { map (λ part. account_seen part.lock.id part.lock.first.seat part.lock.first.state
        part.lock.first.era part.seat) parts.new.items
        ≡ map (λ part. account_seen part.lock.id part.lock.first.seat part.lock.first.state part.lock.first.era
        part.seat) parts.old.items
        ++ map (λ whole. account_seen whole.lock.id whole.lock.first.seat whole.lock.first.state whole.lock.first.era
        whole.seat) wholes.items }
{
    let Some(WholeLock { lock, seat }) = wholes.pop() else {
        return;
    };
    add_parts(wholes, parts);
    parts.push_reserved(Part { lock, seat });
}

// Closes the platform's lock, where there is no account.
fn close_idle<B: Board + Drop>(
    shared: Shared<BoardDevice<B>>,
    seat: Seat<SharedDevice<BoardDevice<B>>>,
) -> BoardDevice<B>
    requires of { seat.lock ≡ shared.id }
    requires numbers { HasEachNumber seat }
    ensures { (chain : List Step)
        × IsServed (seen_by B.faults) (StandsTo B.disk) shared.first.device result chain }
{
    let (platform, _chain) = shared.close(seat);
    platform.device
}

// Closes the accounts' locks, and the platform's with the seats that they had of it.
fn settle_accounts<B: Board + Drop>(
    shared: Shared<BoardDevice<B>>,
    wholes: Vec<WholeLock<Account<UserTurns<B>>>>,
    parts: Vec<Part<UserTurns<B>>>,
    books: Vec<Chain<Entry<TurnTaken>>>,
) -> Books<UserTurns<B>>
    requires some { 0 < length wholes.items }
    requires callers { shared.id.callers ≡ length wholes.items }
    requires of { (clients : ℕ) × AreAccountLocks shared.id (era_of shared.first.device) clients 0 (map
        (λ whole. lock_seen whole.lock.id whole.lock.first.seat whole.lock.first.state whole.lock.first.era)
        wholes.items) }
    requires whole { All (λ whole. IsWholeSeat whole.lock.id whole.seat) wholes.items }
    requires parts { IsRoomFor (length wholes.items) parts.items (vec_capacity parts) }
    requires books { IsRoomFor (length wholes.items) books.items (vec_capacity books) }
    ensures settled { (chain : List Step)
        × IsServed (seen_by B.faults) (StandsTo B.disk) shared.first.device result.device chain
        × UsersMoved shared.first.device
        (map (λ whole. started_at whole.lock.first.seat whole.lock.first.state) wholes.items) chain result.books.items
        × (IsOpened B.disk shared.first.device → UsersSettle B.disk shared.first.device result.device
        (map (λ whole. started_at whole.lock.first.seat whole.lock.first.state) wholes.items) chain
        result.books.items) }
    ensures own { AreRecalled (map (λ whole. whole.seat) wholes.items) result.books.items }
{
    let mut parts = parts;
    add_parts(wholes, &mut parts);
    settle(shared, parts, books)
}

/// Closes all locks of a home, whether there are accounts or not, and gives the platform with the accounts' books.
///
/// Each account's lock comes with a seat that has all its numbers. `idle` is the seat of the platform's lock, where there
/// is no account. `parts` and `books` are empty lists with room for all accounts, so it takes no memory.
pub fn close_locks<B: Board + Drop>(
    shared: Shared<BoardDevice<B>>,
    idle: Option<Seat<SharedDevice<BoardDevice<B>>>>,
    wholes: Vec<WholeLock<Account<UserTurns<B>>>>,
    parts: Vec<Part<UserTurns<B>>>,
    books: Vec<Chain<Entry<TurnTaken>>>,
) -> Books<UserTurns<B>>
    requires can { CanEnd shared.id (era_of shared.first.device) (map
        (λ whole. lock_seen whole.lock.id whole.lock.first.seat whole.lock.first.state whole.lock.first.era)
        wholes.items) idle }
    requires whole { All (λ whole. IsWholeSeat whole.lock.id whole.seat) wholes.items }
    requires parts { IsRoomFor (length wholes.items) parts.items (vec_capacity parts) }
    requires books { IsRoomFor (length wholes.items) books.items (vec_capacity books) }
    ensures settled { (chain : List Step)
        × IsServed (seen_by B.faults) (StandsTo B.disk) shared.first.device result.device chain
        × UsersMoved shared.first.device
        (map (λ whole. started_at whole.lock.first.seat whole.lock.first.state) wholes.items) chain result.books.items
        × (IsOpened B.disk shared.first.device → UsersSettle B.disk shared.first.device result.device
        (map (λ whole. started_at whole.lock.first.seat whole.lock.first.state) wholes.items) chain
        result.books.items) }
    ensures own { AreRecalled (map (λ whole. whole.seat) wholes.items) result.books.items }
{
    match idle {
        None => settle_accounts(shared, wholes, parts, books),
        Some(seat) => Books {
            device: close_idle(shared, seat),
            books,
        },
    }
}

/// Ends a home: closes all its locks, and gives what is left. It takes no memory.
///
/// The clients may stand in any order. Each has the seats that were dealt to it, and each number of a lock is one of
/// the clients'. The home's empty lists have room for all accounts.
pub fn settle_home<B: Board + Drop>(
    home: UserHome<B>,
    clients: Vec<ClientSeats<Account<UserTurns<B>>>>,
) -> HomeBooks<B>
    requires can { CanEnd home.shared.id (era_of home.shared.first.device) (map
        (λ lock. lock_seen lock.id lock.first.seat lock.first.state lock.first.era) home.locks.items) home.idle }
    requires wholes { IsRoomFor (length home.locks.items) home.wholes.items (vec_capacity home.wholes) }
    requires parts { IsRoomFor (length home.locks.items) home.parts.items (vec_capacity home.parts) }
    requires books { IsRoomFor (length home.locks.items) home.books.items (vec_capacity home.books) }
    requires some { 0 < length clients.items }
    requires seats { All (HasItsSeats (map (λ lock. lock.id) home.locks.items)) (map client_view clients.items) }
    requires numbers { All (λ lock. HaveEachNumber (map (λ client. client.number) clients.items) lock.id.callers)
        home.locks.items }
    ensures names { result.names ≡ home.names }
    ensures many { length result.books.items ≡ length home.locks.items }
    // The board is that of a device to which the chain of all accounts' steps led. Each entry moved its account by its own
    // stretch of the account's steps in the chain. Where the first one's board told its content, one place is read in all
    // books at each moment, and all their changes are in at the end, also in each image that a crash may leave then.
    ensures settled { (device : BoardDevice B) × (chain : List Step)
        × (result.board ≡ board_of device)
        × IsServed (seen_by B.faults) (StandsTo B.disk) home.shared.first.device device chain
        × UsersMoved home.shared.first.device
        (map (λ lock. started_at lock.first.seat lock.first.state) home.locks.items) chain result.books.items
        × (IsOpened B.disk home.shared.first.device → UsersSettle B.disk home.shared.first.device device
        (map (λ lock. started_at lock.first.seat lock.first.state) home.locks.items) chain result.books.items) }
    // What each client's seat of an account knew are the client's entries in the account's book, at their places.
    ensures own { EachAt (λ account book. AllByRecursion
        (λ known. entries_of client_of known.0 book ≡ known.1) (known_at account (map client_view clients.items)))
        result.books.items }
{
    let UserHome {
        shared,
        names,
        locks,
        idle,
        wholes,
        parts,
        books,
    } = home;
    let wholes = gather_seats(locks, clients, wholes);
    known_entries_are_in_the_book::<Account<UserTurns<B>>>();
    let Books { device, books } = close_locks(shared, idle, wholes, parts, books);
    HomeBooks {
        board: device.into_platform().into_board(),
        names,
        books,
    }
}
