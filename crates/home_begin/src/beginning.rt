//! The accounts are opened, and their locks' seats dealt to the clients.

ghost use Rattle.std.specs.Prelude.{◌≡◌, ◌⊎◌, ◌<◌, ◌≤◌, ◌^◌, map, length, IfOk, IfErr, IfSome, IsTrue, vec_capacity};
ghost use Rattle.std.specs.List.{list_all, range_with_len};
ghost use Rattle.home_names.specs.Names.{is_account_name};
ghost use Rattle.turn_lock.specs.Seats.{HasEachNumber, first_seat};
ghost use Rattle.board_device.specs.Device.{board_of, seen_by};
ghost use Rattle.client_seats.specs.Clients.{client_view, new_client};
ghost use Rattle.home_seats.specs.Seats.{lock_seen};
ghost use Rattle.home_opening.specs.Locks.{AreNewLocks, account_seen};
ghost use Rattle.home_opening.specs.Opened.{AreOpenedFrom, AreOwners, CanBegin};
ghost use Rattle.user_home.specs.Ending.{IsIdle, IsRoomFor};
ghost use Rattle.home_begin.specs.Begins.{IsBegun, IsNotBegun, StopsAt, callers_for};

use crate::device::open_device;
use crate::platform::{close_platform, into_board, share_accounts, whole_seat};
use crate::rooms::{Rooms, join_accounts, part_accounts, rooms_for};
use board_device::BoardDevice;
use board_model::Board;
use client_seats::{ClientSeats, deal_seats};
use ct_bytes::{NoMemory, Text};
use home_locks::Account;
use home_opening::{HomeFault, OpenedAccount, Opening, open_accounts};
use platform_lock::{Shared, SharedDevice};
use std::alloc::Global;
use std::sync::Wait;
use turn_lock::Seat;
use user_accounts::UserTurns;
use user_home::UserHome;

/// A home that was begun, with its clients' seats in the order of the clients' numbers.
#[derive(Drop)]
pub struct BegunHome<B: Board + Drop> {
    pub home: UserHome<B>,
    pub clients: Vec<ClientSeats<Account<UserTurns<B>>>>,
}

// The accounts behind their locks. Where there is none, the first seat of the platform's lock is kept.
#[derive(Drop)]
struct OpenedLocks<B: Board + Drop> {
    shared: Shared<BoardDevice<B>>,
    accounts: Vec<OpenedAccount<B>>,
    idle: Option<Seat<SharedDevice<BoardDevice<B>>>>,
}

// Opens the accounts of these names, where there are any. After a fault the platform's lock is closed.
fn open_locks<R: Wait, B: Board + Drop>(
    rt: &R,
    alloc: Global,
    shared: Shared<BoardDevice<B>>,
    first: Seat<SharedDevice<BoardDevice<B>>>,
    names: &[Text],
    opening: &Opening<'_>,
) -> Result<OpenedLocks<B>, (HomeFault, B)>
    requires first { first ≡ first_seat shared.id }
    requires numbers { HasEachNumber first }
    requires callers { shared.id.callers ≡ callers_for (length names.now) }
    requires owners { AreOwners (seen_by B.faults shared.first.device) 0 names.now }
    requires few { length names.now ≤ 64 }
    requires begins { CanBegin (seen_by B.faults shared.first.device) opening.now }
    ensures shared { IfOk result (λ made. made.shared ≡ shared) }
    ensures opened { IfOk result (λ made. AreOpenedFrom (seen_by B.faults shared.first.device) shared.id opening.now 0
        names.now (map (λ seen. seen.at) (map (λ a. account_seen a.lock.id a.lock.first.seat a.lock.first.state
        a.lock.first.era a.seat) made.accounts.items))) }
    ensures new { IfOk result (λ made. AreNewLocks shared.id opening.now.era opening.now.clients
        (map (λ a. account_seen a.lock.id a.lock.first.seat a.lock.first.state a.lock.first.era a.seat)
        made.accounts.items)) }
    ensures idle { IfOk result (λ made. IsIdle shared.id (length names.now) made.idle) }
    ensures first { IfOk result (λ made. IfSome made.idle (λ seat. seat ≡ first_seat shared.id)) }
    ensures stops { IfErr result (λ refused. StopsAt B.disk B.faults shared.first.device opening.now refused.0
        refused.1) }
{
    if names.is_empty() {
        return Ok(OpenedLocks {
            shared,
            accounts: Vec::new(alloc),
            idle: Some(first),
        });
    }
    match open_accounts(rt, alloc, &shared, first, names, opening) {
        Ok(accounts) => Ok(OpenedLocks {
            shared,
            accounts,
            idle: None,
        }),
        Err((fault, seat)) => Err((fault, close_platform(shared, seat))),
    }
}

// Deals the first seats of the accounts' locks to the clients. Where there is no memory, all locks are closed again.
fn deal_locks<B: Board + Drop>(
    alloc: Global,
    opened: OpenedLocks<B>,
    names: Vec<Text>,
    rooms: Rooms<B>,
    opening: &Opening<'_>,
) -> Result<BegunHome<B>, B>
    requires some { 0 < opening.now.clients }
    requires opened { AreOpenedFrom (seen_by B.faults opened.shared.first.device) opened.shared.id opening.now 0
        names.items (map (λ seen. seen.at) (map (λ a. account_seen a.lock.id a.lock.first.seat a.lock.first.state
        a.lock.first.era a.seat) opened.accounts.items)) }
    requires new { AreNewLocks opened.shared.id opening.now.era opening.now.clients
        (map (λ a. account_seen a.lock.id a.lock.first.seat a.lock.first.state a.lock.first.era a.seat)
        opened.accounts.items) }
    requires idle { IsIdle opened.shared.id (length names.items) opened.idle }
    requires first { IfSome opened.idle (λ seat. seat ≡ first_seat opened.shared.id) }
    requires locks { IsRoomFor (length names.items) rooms.locks.items (vec_capacity rooms.locks) }
    requires seats { IsRoomFor (length names.items) rooms.seats.items (vec_capacity rooms.seats) }
    requires wholes { IsRoomFor (length names.items) rooms.wholes.items (vec_capacity rooms.wholes) }
    requires parts { IsRoomFor (length names.items) rooms.parts.items (vec_capacity rooms.parts) }
    requires books { IsRoomFor (length names.items) rooms.books.items (vec_capacity rooms.books) }
    ensures shared { IfOk result (λ begun. begun.home.shared ≡ opened.shared) }
    ensures names { IfOk result (λ begun. begun.home.names.items ≡ names.items) }
    ensures opened { IfOk result (λ begun. AreOpenedFrom (seen_by B.faults opened.shared.first.device)
        opened.shared.id opening.now 0 names.items (map
        (λ lock. lock_seen lock.id lock.first.seat lock.first.state lock.first.era) begun.home.locks.items)) }
    ensures idle { IfOk result (λ begun. IsIdle opened.shared.id (length begun.home.locks.items) begun.home.idle) }
    ensures wholes { IfOk result (λ begun. IsRoomFor (length begun.home.locks.items) begun.home.wholes.items
        (vec_capacity begun.home.wholes)) }
    ensures parts { IfOk result (λ begun. IsRoomFor (length begun.home.locks.items) begun.home.parts.items
        (vec_capacity begun.home.parts)) }
    ensures books { IfOk result (λ begun. IsRoomFor (length begun.home.locks.items) begun.home.books.items
        (vec_capacity begun.home.books)) }
    ensures clients { IfOk result (λ begun. map client_view begun.clients.items
        ≡ map (new_client (map (λ lock. lock.id) begun.home.locks.items)) (range_with_len 0 opening.now.clients)) }
    ensures stops { IfErr result (λ board. StopsAt B.disk B.faults opened.shared.first.device opening.now
        HomeFault.NoMemory board) }
{
    let OpenedLocks {
        shared,
        accounts,
        idle,
    } = opened;
    let Rooms {
        mut locks,
        mut seats,
        wholes,
        parts,
        books,
    } = rooms;
    let mut accounts = accounts;
    part_accounts(&mut accounts, &mut locks, &mut seats);
    match deal_seats(alloc, &locks, seats, opening.clients) {
        Ok(clients) => {
            let home = UserHome {
                shared,
                names,
                locks,
                idle,
                wholes,
                parts,
                books,
            };
            Ok(BegunHome { home, clients })
        }
        Err((NoMemory, seats)) => {
            join_accounts(locks, seats, &mut accounts);
            let seat = whole_seat(&shared, idle, accounts);
            Err(close_platform(shared, seat))
        }
    }
}

// Begins a home over a device whose accounts have these names.
fn begin_over<R: Wait, B: Board + Drop>(
    rt: &R,
    alloc: Global,
    device: BoardDevice<B>,
    names: Vec<Text>,
    opening: &Opening<'_>,
) -> Result<BegunHome<B>, (HomeFault, B)>
    requires owners { AreOwners (seen_by B.faults device) 0 names.items }
    requires few { length names.items ≤ 64 }
    requires begins { CanBegin (seen_by B.faults device) opening.now }
    ensures device { IfOk result (λ begun. begun.home.shared.first.device ≡ device) }
    ensures names { IfOk result (λ begun. begun.home.names.items ≡ names.items) }
    ensures opened { IfOk result (λ begun. AreOpenedFrom (seen_by B.faults device) begun.home.shared.id opening.now 0
        names.items (map (λ lock. lock_seen lock.id lock.first.seat lock.first.state lock.first.era)
        begun.home.locks.items)) }
    ensures idle { IfOk result (λ begun. IsIdle begun.home.shared.id (length begun.home.locks.items)
        begun.home.idle) }
    ensures wholes { IfOk result (λ begun. IsRoomFor (length begun.home.locks.items) begun.home.wholes.items
        (vec_capacity begun.home.wholes)) }
    ensures parts { IfOk result (λ begun. IsRoomFor (length begun.home.locks.items) begun.home.parts.items
        (vec_capacity begun.home.parts)) }
    ensures books { IfOk result (λ begun. IsRoomFor (length begun.home.locks.items) begun.home.books.items
        (vec_capacity begun.home.books)) }
    ensures clients { IfOk result (λ begun. map client_view begun.clients.items
        ≡ map (new_client (map (λ lock. lock.id) begun.home.locks.items)) (range_with_len 0 opening.now.clients)) }
    ensures stops { IfErr result (λ refused.
        ((refused.0 ≡ HomeFault.NoMemory) × (refused.1 ≡ board_of device))
        ⊎ StopsAt B.disk B.faults device opening.now refused.0 refused.1) }
{
    let rooms = match rooms_for(alloc, names.len()) {
        Ok(rooms) => rooms,
        Err(NoMemory) => return Err((HomeFault::NoMemory, into_board(device))),
    };
    let (shared, first) = match share_accounts(alloc, device, names.len()) {
        Ok(made) => made,
        Err(board) => return Err((HomeFault::NoMemory, board)),
    };
    let opened = match open_locks(rt, alloc, shared, first, &names, opening) {
        Ok(opened) => opened,
        Err(refused) => return Err(refused),
    };
    match deal_locks(alloc, opened, names, rooms, opening) {
        Ok(begun) => Ok(begun),
        Err(board) => Err((HomeFault::NoMemory, board)),
    }
}

/// Begins the home of a board, for so many clients as the opening has: opens its platform, recovers all accounts, those
/// that are named and those that are found, and deals the clients' seats.
///
/// The faults are `Failed`, where the board failed, `TooMany` with the number of accounts, `Damaged` with a record of
/// an account that can't be opened, and `NoMemory`. After a fault all locks are closed, and the board comes back.
pub fn begin_home<R: Wait, B: Board + Drop>(
    rt: &R,
    alloc: Global,
    board: B,
    named: Vec<Text>,
    opening: &Opening<'_>,
) -> Result<BegunHome<B>, (HomeFault, B)>
    requires plain { IsTrue (list_all is_account_name named.items) }
    requires least { 1 ≤ opening.now.cost }
    requires most { opening.now.cost ≤ 16 }
    requires moment { opening.now.moment < 2 ^ 40 }
    requires clients { 0 < opening.now.clients }
    ensures begun { IfOk result (λ begun. IsBegun B.disk B.faults board named.items opening.now
        begun.home.shared.first.device begun.home.shared.id begun.home.names.items
        (map (λ lock. lock_seen lock.id lock.first.seat lock.first.state lock.first.era) begun.home.locks.items)
        begun.home.idle) }
    // The lists that the home's end fills are empty, and have room for all accounts.
    ensures wholes { IfOk result (λ begun. IsRoomFor (length begun.home.locks.items) begun.home.wholes.items
        (vec_capacity begun.home.wholes)) }
    ensures parts { IfOk result (λ begun. IsRoomFor (length begun.home.locks.items) begun.home.parts.items
        (vec_capacity begun.home.parts)) }
    ensures books { IfOk result (λ begun. IsRoomFor (length begun.home.locks.items) begun.home.books.items
        (vec_capacity begun.home.books)) }
    // The clients have the numbers from 0, and each has one seat of each lock, with its number.
    ensures clients { IfOk result (λ begun. map client_view begun.clients.items
        ≡ map (new_client (map (λ lock. lock.id) begun.home.locks.items)) (range_with_len 0 opening.now.clients)) }
    ensures many { IfOk result (λ begun. length begun.clients.items ≡ opening.now.clients) }
    ensures refused { IfErr result (λ refused. IsNotBegun B.disk B.faults board named.items opening.now refused.0
        refused.1) }
{
    let (device, names) = match open_device(alloc, board, named, opening.era) {
        Ok(opened) => opened,
        Err(refused) => return Err(refused),
    };
    begin_over(rt, alloc, device, names, opening)
}
