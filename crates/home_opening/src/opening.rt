//! All accounts are opened.

ghost use Rattle.std.specs.Prelude.{◌≡◌, ◌≤◌, ◌<◌, ◌+◌, ◌-◌, ◌++◌, List, [], IfOk, IfErr, length, map, vec_len, vec_capacity};
ghost use Rattle.std.specs.List.{range_with_len};
ghost use Rattle.turn_lock.specs.Seats.{HasEachNumber, first_seat, new_seat, numbers_of};
ghost use Rattle.board_device.specs.Device.{seen_by};
ghost use Rattle.home_opening.specs.Locks.{AccountSeen, AreNewLocks, account_seen};
ghost use Rattle.home_opening.specs.Numbers.{AreSameNumbers, numbers_at};
ghost use Rattle.home_opening.specs.Opened.{AreOwners, AreOpenedLocks, CanBegin, AreOpenedFrom, IsRefused, KnowsOpenings};

use crate::account::{OpenedAccount, open_account};
use crate::closing::close_accounts;
use crate::fault::HomeFault;
use board_device::BoardDevice;
use board_model::Board;
use ct_bytes::Text;
use platform_lock::{Shared, SharedDevice};
use pw_types::Era;
use std::alloc::Global;
use std::sync::Wait;
use turn_lock::Seat;

/// What the accounts of a run are opened with.
///
/// `entropy` is the run's, `cost` the cost exponent of new factors, from 1 to 16, `moment` that of the opening, in
/// seconds, and `clients` how many clients the run has.
pub struct Opening<'a> {
    pub entropy: &'a [u8; 32],
    pub cost: u8,
    pub moment: u64,
    pub era: Era,
    pub clients: u32,
}

// Opens the accounts of these names, whose numbers are those that the seat has to give away, and gives back the seat
// without them. After a fault it gives back the seat with those that weren't taken.
fn open_others<R: Wait, B: Board + Drop>(
    rt: &R,
    alloc: Global,
    shared: &Shared<BoardDevice<B>>,
    rest: Seat<SharedDevice<BoardDevice<B>>>,
    names: &[Text],
    opening: &Opening<'_>,
    accounts: &mut Vec<OpenedAccount<B>>,
) -> Result<Seat<SharedDevice<BoardDevice<B>>>, (HomeFault, Seat<SharedDevice<BoardDevice<B>>>)>
    requires rest { rest ≡ new_seat shared.now.id 0 (range_with_len (vec_len accounts.old + 1) (length names.now)) }
    requires owners { AreOwners (seen_by B.faults shared.now.first.device) (vec_len accounts.old + 1) names.now }
    requires small { vec_len accounts.old + length names.now < 255 }
    requires begins { CanBegin (seen_by B.faults shared.now.first.device) opening.now }
    requires new { AreNewLocks shared.now.id opening.now.era opening.now.clients (map (λ a. account_seen a.lock.id a.lock.first.seat a.lock.first.state a.lock.first.era a.seat)
        accounts.old.items) }
    requires each { AreOpenedLocks (seen_by B.faults shared.now.first.device) shared.now.id opening.now
        (map (λ a. account_seen a.lock.id a.lock.first.seat a.lock.first.state a.lock.first.era a.seat)
        accounts.old.items) }
    requires room { vec_len accounts.old + length names.now + 1 ≤ vec_capacity accounts.old }
    ensures room { IfOk result (λ rest. vec_len accounts.new + 1 ≤ vec_capacity accounts.new) }
    ensures rest { IfOk result (λ rest. rest ≡ new_seat shared.now.id 0 []) }
    ensures opened { IfOk result (λ rest. (more : List AccountSeen)
        × ((map (λ a. account_seen a.lock.id a.lock.first.seat a.lock.first.state a.lock.first.era a.seat)
        accounts.new.items) ≡ (map (λ a. account_seen a.lock.id a.lock.first.seat a.lock.first.state a.lock.first.era a.seat)
        accounts.old.items) ++ more)
        × AreOpenedFrom (seen_by B.faults shared.now.first.device) shared.now.id opening.now (vec_len accounts.old + 1)
        names.now (map (λ seen. seen.at) more)) }
    ensures new { AreNewLocks shared.now.id opening.now.era opening.now.clients (map (λ a. account_seen a.lock.id a.lock.first.seat a.lock.first.state a.lock.first.era a.seat)
        accounts.new.items) }
    ensures each { AreOpenedLocks (seen_by B.faults shared.now.first.device) shared.now.id opening.now
        (map (λ a. account_seen a.lock.id a.lock.first.seat a.lock.first.state a.lock.first.era a.seat)
        accounts.new.items) }
    ensures of { IfErr result (λ refused. refused.1.lock ≡ shared.now.id) }
    ensures numbers { IfErr result (λ refused. AreSameNumbers (numbers_of refused.1 ++ numbers_at (map (λ a. account_seen a.lock.id a.lock.first.seat a.lock.first.state a.lock.first.era a.seat)
        accounts.new.items))
        (numbers_of rest ++ numbers_at (map (λ a. account_seen a.lock.id a.lock.first.seat a.lock.first.state a.lock.first.era a.seat)
        accounts.old.items))) }
    ensures knows { IfErr result (λ refused. KnowsOpenings (seen_by B.faults shared.now.first.device) shared.now.id
        opening.now refused.1) }
    ensures refused { IfErr result (λ refused. IsRefused (seen_by B.faults shared.now.first.device) shared.now.id
        opening.now refused.0 refused.1) }
{
    let Some((name, names)) = names.split_first() else {
        return Ok(rest);
    };
    let (rest, given) = shared.split(rest);
    match open_account(rt, alloc, shared, given, name, opening) {
        Ok(account) => {
            accounts.push_reserved(account);
            open_others(rt, alloc, shared, rest, names, opening, accounts)
        }
        Err((fault, given)) => Err((fault, shared.join(rest, given))),
    }
}

// Opens all accounts, the first one last, since its seat is the one that gives the others' numbers away.
fn open_all<R: Wait, B: Board + Drop>(
    rt: &R,
    alloc: Global,
    shared: &Shared<BoardDevice<B>>,
    first: Seat<SharedDevice<BoardDevice<B>>>,
    names: &[Text],
    opening: &Opening<'_>,
    accounts: &mut Vec<OpenedAccount<B>>,
) -> Result<(), (HomeFault, Seat<SharedDevice<BoardDevice<B>>>)>
    requires first { first ≡ new_seat shared.now.id 0 (range_with_len 1 (length names.now - 1)) }
    requires owners { AreOwners (seen_by B.faults shared.now.first.device) 0 names.now }
    requires some { 0 < length names.now }
    requires small { length names.now < 256 }
    requires begins { CanBegin (seen_by B.faults shared.now.first.device) opening.now }
    requires none { accounts.old.items ≡ [] }
    requires room { length names.now ≤ vec_capacity accounts.old }
    ensures opened { IfOk result (λ done. AreOpenedFrom (seen_by B.faults shared.now.first.device) shared.now.id
        opening.now 0 names.now (map (λ seen. seen.at) (map (λ a. account_seen a.lock.id a.lock.first.seat a.lock.first.state a.lock.first.era a.seat)
        accounts.new.items))) }
    ensures new { AreNewLocks shared.now.id opening.now.era opening.now.clients (map (λ a. account_seen a.lock.id a.lock.first.seat a.lock.first.state a.lock.first.era a.seat)
        accounts.new.items) }
    ensures each { IfErr result (λ refused. AreOpenedLocks (seen_by B.faults shared.now.first.device) shared.now.id
        opening.now (map (λ a. account_seen a.lock.id a.lock.first.seat a.lock.first.state a.lock.first.era a.seat)
        accounts.new.items)) }
    ensures of { IfErr result (λ refused. refused.1.lock ≡ shared.now.id) }
    ensures numbers { IfErr result (λ refused. AreSameNumbers (numbers_of refused.1 ++ numbers_at (map (λ a. account_seen a.lock.id a.lock.first.seat a.lock.first.state a.lock.first.era a.seat)
        accounts.new.items))
        (numbers_of first)) }
    ensures knows { IfErr result (λ refused. KnowsOpenings (seen_by B.faults shared.now.first.device) shared.now.id
        opening.now refused.1) }
    ensures refused { IfErr result (λ refused. IsRefused (seen_by B.faults shared.now.first.device) shared.now.id
        opening.now refused.0 refused.1) }
{
    let (name, others) = names.split_first().unwrap();
    let rest = open_others(rt, alloc, shared, first, others, opening, accounts)?;
    match open_account(rt, alloc, shared, rest, name, opening) {
        Ok(account) => {
            accounts.push_reserved(account);
            accounts.rotate_right(1);
            Ok(())
        }
        Err(refused) => Err(refused),
    }
}

/// Opens the accounts of these names behind locks, in the order of the platform's accounts, and takes from `first` the
/// numbers of its lock for them.
///
/// After a fault the locks that were made are closed, and the platform's seat comes back with all its numbers, so that
/// its lock can be closed. The faults are those of `user_opening::open_user`.
pub fn open_accounts<R: Wait, B: Board + Drop>(
    rt: &R,
    alloc: Global,
    shared: &Shared<BoardDevice<B>>,
    first: Seat<SharedDevice<BoardDevice<B>>>,
    names: &[Text],
    opening: &Opening<'_>,
) -> Result<Vec<OpenedAccount<B>>, (HomeFault, Seat<SharedDevice<BoardDevice<B>>>)>
    requires first { first ≡ first_seat shared.now.id }
    requires numbers { HasEachNumber first }
    requires callers { shared.now.id.callers ≡ length names.now }
    requires owners { AreOwners (seen_by B.faults shared.now.first.device) 0 names.now }
    requires some { 0 < length names.now }
    requires small { length names.now < 256 }
    requires begins { CanBegin (seen_by B.faults shared.now.first.device) opening.now }
    ensures opened { IfOk result (λ accounts. AreOpenedFrom (seen_by B.faults shared.now.first.device) shared.now.id
        opening.now 0 names.now (map (λ seen. seen.at) (map (λ a. account_seen a.lock.id a.lock.first.seat a.lock.first.state a.lock.first.era a.seat)
        accounts.items))) }
    ensures new { IfOk result (λ accounts. AreNewLocks shared.now.id opening.now.era opening.now.clients (map (λ a. account_seen a.lock.id a.lock.first.seat a.lock.first.state a.lock.first.era a.seat)
        accounts.items)) }
    ensures of { IfErr result (λ refused. refused.1.lock ≡ shared.now.id) }
    ensures numbers { IfErr result (λ refused. HasEachNumber refused.1) }
    ensures knows { IfErr result (λ refused. KnowsOpenings (seen_by B.faults shared.now.first.device) shared.now.id
        opening.now refused.1) }
    ensures refused { IfErr result (λ refused. IsRefused (seen_by B.faults shared.now.first.device) shared.now.id
        opening.now refused.0 refused.1) }
{
    let mut accounts = match Vec::with_capacity(alloc, names.len()) {
        Ok(accounts) => accounts,
        Err(_) => return Err((HomeFault::NoMemory, first)),
    };
    match open_all(rt, alloc, shared, first, names, opening, &mut accounts) {
        Ok(()) => Ok(accounts),
        Err((fault, seat)) => Err((fault, close_accounts(shared, seat, accounts))),
    }
}
