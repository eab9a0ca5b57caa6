//! The platform of a home, behind its lock.

ghost use Rattle.std.specs.Prelude.{◌≡◌, ◌≤◌, ℕ, IfOk, IfErr, IfNone, IfSome, length, map, reverse};
ghost use Rattle.std.specs.List.{range_with_len};
ghost use Rattle.pw_types.specs.declared.era.Era.{Era};
ghost use Rattle.turn_lock.specs.Seats.{HasEachNumber, first_seat};
ghost use Rattle.board_device.specs.Device.{board_of};
ghost use Rattle.home_opening.specs.Locks.{AreNewLocks, account_seen};
ghost use Rattle.home_opening.specs.Numbers.{known_at, known_by, numbers_at};
ghost use Rattle.user_home.specs.Ending.{IsIdle};
ghost use Rattle.home_begin.specs.Begins.{Closes, callers_for};

use board_device::BoardDevice;
use board_model::Board;
use ct_bytes::NoMemory;
use home_opening::{OpenedAccount, close_opened};
use platform_lock::{Shared, SharedDevice, share_device};
use std::alloc::Global;
use turn_lock::Seat;

/// The board of a device.
pub(crate) fn into_board<B: Board + Drop>(device: BoardDevice<B>) -> B
    ensures { result ≡ board_of device }
{
    device.into_platform().into_board()
}

/// The device behind a lock for so many accounts, with the lock's first seat. Where there is no memory, its board comes
/// back.
pub(crate) fn share_accounts<B: Board + Drop>(
    alloc: Global,
    device: BoardDevice<B>,
    accounts: usize,
) -> Result<(Shared<BoardDevice<B>>, Seat<SharedDevice<BoardDevice<B>>>), B>
    requires { accounts ≤ 64 }
    ensures device { IfOk result (λ made. made.0.first.device ≡ device) }
    ensures callers { IfOk result (λ made. made.0.id.callers ≡ callers_for accounts) }
    ensures first { IfOk result (λ made. made.1 ≡ first_seat made.0.id) }
    ensures numbers { IfOk result (λ made. HasEachNumber made.1) }
    ensures err { IfErr result (λ board. board ≡ board_of device) }
{
    let callers = (accounts as u32).max(1);
    match share_device(alloc, device, callers) {
        Ok(made) => Ok(made),
        Err((NoMemory, device)) => Err(into_board(device)),
    }
}

/// The seat of the platform's lock with all its numbers: the one that is there, or else the one to which the seats of
/// all accounts are joined once their locks are closed. Nobody has taken a turn of them.
pub(crate) fn whole_seat<B: Board + Drop>(
    shared: &Shared<BoardDevice<B>>,
    idle: Option<Seat<SharedDevice<BoardDevice<B>>>>,
    accounts: Vec<OpenedAccount<B>>,
) -> Seat<SharedDevice<BoardDevice<B>>>
    requires idle { IsIdle shared.now.id (length accounts.items) idle }
    requires order { numbers_at (map (λ a. account_seen a.lock.id a.lock.first.seat a.lock.first.state
        a.lock.first.era a.seat) accounts.items) ≡ range_with_len 0 (length accounts.items) }
    requires new { (era : Era) × (clients : ℕ) × AreNewLocks shared.now.id era clients
        (map (λ a. account_seen a.lock.id a.lock.first.seat a.lock.first.state a.lock.first.era a.seat)
        accounts.items) }
    ensures of { result.lock ≡ shared.now.id }
    ensures numbers { HasEachNumber result }
    ensures idle { IfSome idle (λ seat. result ≡ seat) }
    ensures known { IfNone idle (known_by result ≡ reverse (known_at
        (map (λ a. account_seen a.lock.id a.lock.first.seat a.lock.first.state a.lock.first.era a.seat)
        accounts.items))) }
{
    match idle {
        Some(seat) => seat,
        None => close_opened(shared, accounts),
    }
}

/// Ends the platform's lock, and gives the board. What the seat knew of the accounts are their steps in the chain.
pub(crate) fn close_platform<B: Board + Drop>(
    shared: Shared<BoardDevice<B>>,
    seat: Seat<SharedDevice<BoardDevice<B>>>,
) -> B
    requires of { seat.lock ≡ shared.id }
    requires numbers { HasEachNumber seat }
    ensures { Closes B.disk B.faults shared.first.device seat result }
{
    let (platform, _chain) = shared.close(seat);
    into_board(platform.device)
}
