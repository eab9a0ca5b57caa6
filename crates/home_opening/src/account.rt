//! One account is opened behind its lock.

ghost use Rattle.std.specs.Prelude.{◌≡◌, ◌<◌, Some, IfOk, IfErr, []};
ghost use Rattle.turn_lock.specs.Seats.{new_seat};
ghost use Rattle.board_device.specs.Device.{seen_by};
ghost use Rattle.home_opening.specs.Locks.{IsFirstSeat, account_seen};
ghost use Rattle.home_opening.specs.Opened.{CanBegin, IsOwner, IsOpenedAt, IsRefused, KnowsOpenings};

use crate::fault::{HomeFault, told_fault};
use crate::opening::Opening;
use board_device::BoardDevice;
use board_model::Board;
use ct_bytes::{NoMemory, Text};
use home_locks::Account;
use platform_lock::{AccountSeat, AccountShare, Shared, SharedDevice};
use std::alloc::Global;
use std::sync::Wait;
use turn_lock::{Seat, Turnstile};
use user_accounts::UserTurns;
use user_opening::open_user;
use user_state::UserState;

/// An account behind its lock, with the first seat of that lock.
#[derive(Drop)]
pub struct OpenedAccount<B: Board + Drop> {
    pub lock: Turnstile<Account<UserTurns<B>>>,
    pub seat: Seat<Account<UserTurns<B>>>,
}

// Puts an account's state behind a lock for so many clients, with its seat of the platform's lock.
fn lock_account<B: Board + Drop>(
    alloc: Global,
    own: AccountSeat<BoardDevice<B>>,
    state: UserState,
    opening: &Opening<'_>,
) -> Result<OpenedAccount<B>, Seat<SharedDevice<BoardDevice<B>>>>
    requires clients { 0 < opening.now.clients }
    ensures seat { IfOk result (λ made. made.lock.first.seat ≡ Some own) }
    ensures state { IfOk result (λ made. made.lock.first.state ≡ state) }
    ensures era { IfOk result (λ made. made.lock.first.era ≡ opening.now.era) }
    ensures callers { IfOk result (λ made. made.lock.id.callers ≡ opening.now.clients) }
    ensures first { IfOk result (λ made. IsFirstSeat made.lock.id made.seat) }
    ensures err { IfErr result (λ seat. seat ≡ own.seat) }
{
    let account = Account {
        seat: Some(own),
        state,
        era: opening.era,
    };
    match Turnstile::new(alloc, account, opening.clients) {
        Ok((lock, seat)) => Ok(OpenedAccount { lock, seat }),
        Err((_, account)) => Err(account.seat.unwrap().into_seat()),
    }
}

/// Opens the account whose seat of the platform's lock it is, and puts it behind a lock. After a fault the seat comes
/// back, with the steps that were made.
pub(crate) fn open_account<R: Wait, B: Board + Drop>(
    rt: &R,
    alloc: Global,
    shared: &Shared<BoardDevice<B>>,
    seat: Seat<SharedDevice<BoardDevice<B>>>,
    name: &Text,
    opening: &Opening<'_>,
) -> Result<OpenedAccount<B>, (HomeFault, Seat<SharedDevice<BoardDevice<B>>>)>
    requires new { seat ≡ new_seat shared.now.id seat.caller [] }
    requires small { seat.caller < 256 }
    requires owner { IsOwner (seen_by B.faults shared.now.first.device) seat.caller name.now }
    requires begins { CanBegin (seen_by B.faults shared.now.first.device) opening.now }
    ensures opened { IfOk result (λ made. IsOpenedAt (seen_by B.faults shared.now.first.device) shared.now.id
        opening.now seat.caller name.now
        (account_seen made.lock.id made.lock.first.seat made.lock.first.state made.lock.first.era made.seat).at) }
    ensures first { IfOk result (λ made. IsFirstSeat made.lock.id made.seat) }
    ensures kept { IfErr result (λ refused. refused.1 ≡ record seat { own = refused.1.own }) }
    ensures knows { IfErr result (λ refused. KnowsOpenings (seen_by B.faults shared.now.first.device) shared.now.id
        opening.now refused.1) }
    ensures refused { IfErr result (λ refused. IsRefused (seen_by B.faults shared.now.first.device) shared.now.id
        opening.now refused.0 refused.1) }
{
    let name = match name.copy() {
        Ok(name) => name,
        Err(NoMemory) => return Err((HomeFault::NoMemory, seat)),
    };
    let own = AccountSeat::new(alloc, seat);
    let mut share = AccountShare::new(rt, alloc, shared, own);
    let opened = open_user(
        alloc,
        name,
        &mut share,
        opening.entropy,
        opening.cost,
        opening.moment,
    );
    let own = share.into_seat();
    match opened {
        Ok(state) => match lock_account(alloc, own, state, opening) {
            Ok(made) => Ok(made),
            Err(seat) => Err((HomeFault::NoMemory, seat)),
        },
        Err(fault) => Err((told_fault(fault), own.into_seat())),
    }
}
