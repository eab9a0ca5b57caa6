//! A turn of a client behind an account's lock.

ghost use Rattle.std.specs.Prelude.{◌≡◌, IfSome, IfNone};
ghost use Rattle.home_locks.specs.Accounts.{IsPlaced, AddsTurn};

use crate::account::{Account, Entry};
use crate::kind::AccountTurns;
use ct_bytes::NoMemory;
use platform_lock::{AccountShare, Shared};
use share_api::Share;
use std::alloc::Global;
use std::sync::Wait;
use turn_lock::{Link, Receipt, Seat, Turnstile};

/// A turn that was taken: where its entry stands in the account's book, and what is told of it.
#[derive(Drop)]
pub struct Taken<T> {
    pub receipt: Receipt,
    pub told: T,
}

/// The memory for the entry of one turn.
pub fn blank_entry<K: AccountTurns>(alloc: Global) -> Result<Link<Entry<K::Turn>>, NoMemory> {
    let turn = K::blank();
    let entry = Entry {
        client: 0,
        turn,
        place: 0,
    };
    Link::new(alloc, entry)
}

/// One turn of the client whose seat it is, with the memory for its entry.
pub fn take_turn<R: Wait, K: AccountTurns>(
    rt: &R,
    alloc: Global,
    shared: &Shared<K::Platform>,
    lock: &Turnstile<Account<K>>,
    seat: Seat<Account<K>>,
    link: Link<Entry<K::Turn>>,
    asked: K::Asked,
) -> (Seat<Account<K>>, Taken<K::Told>)
    requires of { seat.lock ≡ lock.now.id }
    requires shared { IsPlaced K.ready (K.Platform.seen shared.now.first.device) shared.now.id lock.now.first.seat
        lock.now.first.state }
    requires era { lock.now.first.era ≡ (K.Platform.seen shared.now.first.device).era }
    ensures lock { result.0.lock ≡ seat.lock }
    // The entry at the receipt's place is the turn that was asked, and what is told is told of this entry.
    ensures turn { AddsTurn K.tells seat result.0 asked result.1.told result.1.receipt.place }
{
    let client = seat.caller();
    let mut held = lock.enter(rt, seat, link);
    let account = held.value();
    let own = account.seat.take().unwrap();
    let mut share = AccountShare::new(rt, alloc, shared, own);
    let (done, told) = K::act(alloc, &mut share, &mut account.state, asked);
    let place = share.place();
    account.seat = Some(share.into_seat());
    let entry = held.entry();
    entry.client = client;
    entry.turn = done;
    entry.place = place;
    let (seat, receipt) = lock.leave(held);
    (seat, Taken { receipt, told })
}

/// One turn of the client whose seat it is. Without memory for its entry there is none.
pub fn call<R: Wait, K: AccountTurns>(
    rt: &R,
    alloc: Global,
    shared: &Shared<K::Platform>,
    lock: &Turnstile<Account<K>>,
    seat: Seat<Account<K>>,
    asked: K::Asked,
) -> (Seat<Account<K>>, Option<Taken<K::Told>>)
    requires of { seat.lock ≡ lock.now.id }
    requires shared { IsPlaced K.ready (K.Platform.seen shared.now.first.device) shared.now.id lock.now.first.seat
        lock.now.first.state }
    requires era { lock.now.first.era ≡ (K.Platform.seen shared.now.first.device).era }
    ensures lock { result.0.lock ≡ seat.lock }
    ensures none { IfNone result.1 (result.0 ≡ seat) }
    ensures turn { IfSome result.1 (λ taken. AddsTurn K.tells seat result.0 asked taken.told taken.receipt.place) }
{
    let Ok(link) = blank_entry::<K>(alloc) else {
        return (seat, None);
    };
    let (seat, taken) = take_turn(rt, alloc, shared, lock, seat, link, asked);
    (seat, Some(taken))
}
