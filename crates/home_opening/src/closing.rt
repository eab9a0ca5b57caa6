//! After a fault the accounts that were opened are closed.

ghost use Rattle.std.specs.Prelude.{◌≡◌, ◌++◌, ◌<◌, ℕ, IfSome, IsSome, length, map, reverse};
ghost use Rattle.pw_types.specs.declared.era.Era.{Era};
ghost use Rattle.turn_lock.specs.Seats.{numbers_of};
ghost use Rattle.home_opening.specs.Locks.{AreNewLocks, IsFirstSeat, account_seen};
ghost use Rattle.home_opening.specs.Numbers.{AreSameNumbers, known_at, known_by, numbers_at};

use crate::account::OpenedAccount;
use board_device::BoardDevice;
use board_model::Board;
use platform_lock::{Shared, SharedDevice};
use turn_lock::Seat;

// Closes the lock of an account of which nobody has taken a turn, and gives the account's seat of the platform's lock
// back as it was.
fn close_account<B: Board + Drop>(account: OpenedAccount<B>) -> Seat<SharedDevice<BoardDevice<B>>>
    requires first { IsFirstSeat account.lock.id account.seat }
    requires some { IsSome account.lock.first.seat }
    ensures { IfSome account.lock.first.seat (λ own. result ≡ own.seat) }
{
    let OpenedAccount { lock, seat } = account;
    let (account, _book) = lock.close(seat);
    account.seat.unwrap().into_seat()
}

/// Closes the locks of the accounts, and joins their seats of the platform's lock to this one.
pub(crate) fn close_accounts<B: Board + Drop>(
    shared: &Shared<BoardDevice<B>>,
    seat: Seat<SharedDevice<BoardDevice<B>>>,
    mut accounts: Vec<OpenedAccount<B>>,
) -> Seat<SharedDevice<BoardDevice<B>>>
    requires of { seat.lock ≡ shared.now.id }
    requires new { (era : Era) × (clients : ℕ) × AreNewLocks shared.now.id era clients (map (λ a. account_seen a.lock.id a.lock.first.seat a.lock.first.state a.lock.first.era a.seat)
        accounts.items) }
    ensures of { result.lock ≡ shared.now.id }
    ensures numbers { AreSameNumbers (numbers_of result) (numbers_of seat ++ numbers_at (map (λ a. account_seen a.lock.id a.lock.first.seat a.lock.first.state a.lock.first.era a.seat)
        accounts.items)) }
    // The last account is closed first.
    ensures known { known_by result ≡ known_by seat ++ reverse (known_at (map (λ a. account_seen a.lock.id a.lock.first.seat a.lock.first.state a.lock.first.era a.seat)
        accounts.items)) }
{
    let Some(account) = accounts.pop() else {
        return seat;
    };
    let own = close_account(account);
    close_accounts(shared, shared.join(seat, own), accounts)
}

/// Closes the locks of accounts of which nobody has taken a turn, and joins their seats of the platform's lock. There
/// is at least one.
pub fn close_opened<B: Board + Drop>(
    shared: &Shared<BoardDevice<B>>,
    mut accounts: Vec<OpenedAccount<B>>,
) -> Seat<SharedDevice<BoardDevice<B>>>
    requires some { 0 < length accounts.items }
    requires new { (era : Era) × (clients : ℕ) × AreNewLocks shared.now.id era clients (map (λ a. account_seen a.lock.id a.lock.first.seat a.lock.first.state a.lock.first.era a.seat)
        accounts.items) }
    ensures of { result.lock ≡ shared.now.id }
    ensures numbers { AreSameNumbers (numbers_of result) (numbers_at (map (λ a. account_seen a.lock.id a.lock.first.seat a.lock.first.state a.lock.first.era a.seat)
        accounts.items)) }
    ensures known { known_by result ≡ reverse (known_at (map (λ a. account_seen a.lock.id a.lock.first.seat a.lock.first.state a.lock.first.era a.seat)
        accounts.items)) }
{
    let last = accounts.pop().unwrap();
    let first = close_account(last);
    close_accounts(shared, first, accounts)
}
