//! The memory of a home's lists.

ghost use Rattle.std.specs.Prelude.{◌≡◌, ◌≤◌, ◌+◌, ◌++◌, [], map, length, IfOk, vec_len, vec_capacity};
ghost use Rattle.user_home.specs.Ending.{IsRoomFor};

use board_model::Board;
use client_seats::WholeLock;
use ct_bytes::NoMemory;
use home_locks::{Account, Entry, Part};
use home_opening::OpenedAccount;
use std::alloc::Global;
use turn_lock::{Chain, Seat, Turnstile};
use turn_meaning::TurnTaken;
use user_accounts::UserTurns;

/// Empty lists with room for all accounts: their locks, the first seats of these, and what is gathered at the end.
#[derive(Drop)]
pub(crate) struct Rooms<B: Board + Drop> {
    pub locks: Vec<Turnstile<Account<UserTurns<B>>>>,
    pub seats: Vec<Seat<Account<UserTurns<B>>>>,
    pub wholes: Vec<WholeLock<Account<UserTurns<B>>>>,
    pub parts: Vec<Part<UserTurns<B>>>,
    pub books: Vec<Chain<Entry<TurnTaken>>>,
}

/// Lists with room for so many accounts.
pub(crate) fn rooms_for<B: Board + Drop>(
    alloc: Global,
    accounts: usize,
) -> Result<Rooms<B>, NoMemory>
    ensures locks { IfOk result (λ rooms. IsRoomFor accounts rooms.locks.items (vec_capacity rooms.locks)) }
    ensures seats { IfOk result (λ rooms. IsRoomFor accounts rooms.seats.items (vec_capacity rooms.seats)) }
    ensures wholes { IfOk result (λ rooms. IsRoomFor accounts rooms.wholes.items (vec_capacity rooms.wholes)) }
    ensures parts { IfOk result (λ rooms. IsRoomFor accounts rooms.parts.items (vec_capacity rooms.parts)) }
    ensures books { IfOk result (λ rooms. IsRoomFor accounts rooms.books.items (vec_capacity rooms.books)) }
{
    Ok(Rooms {
        locks: Vec::with_capacity(alloc, accounts)?,
        seats: Vec::with_capacity(alloc, accounts)?,
        wholes: Vec::with_capacity(alloc, accounts)?,
        parts: Vec::with_capacity(alloc, accounts)?,
        books: Vec::with_capacity(alloc, accounts)?,
    })
}

/// Puts the accounts' locks and the first seats of these behind others, in order. The accounts' list keeps its memory.
pub(crate) fn part_accounts<B: Board + Drop>(
    accounts: &mut Vec<OpenedAccount<B>>,
    locks: &mut Vec<Turnstile<Account<UserTurns<B>>>>,
    seats: &mut Vec<Seat<Account<UserTurns<B>>>>,
)
    requires locks { vec_len locks.old + length accounts.old.items ≤ vec_capacity locks.old }
    requires seats { vec_len seats.old + length accounts.old.items ≤ vec_capacity seats.old }
    ensures none { accounts.new.items ≡ [] }
    ensures room { vec_capacity accounts.new ≡ vec_capacity accounts.old }
    ensures locks_room { vec_capacity locks.new ≡ vec_capacity locks.old }
    ensures seats_room { vec_capacity seats.new ≡ vec_capacity seats.old }
    ensures locks_len { vec_len locks.new ≡ vec_len locks.old + length accounts.old.items }
    ensures seats_len { vec_len seats.new ≡ vec_len seats.old + length accounts.old.items }
    ensures locks { locks.new.items ≡ locks.old.items ++ map (λ account. account.lock) accounts.old.items }
    ensures seats { seats.new.items ≡ seats.old.items ++ map (λ account. account.seat) accounts.old.items }
{
    let Some(OpenedAccount { lock, seat }) = accounts.pop() else {
        return;
    };
    part_accounts(accounts, locks, seats);
    locks.push_reserved(lock);
    seats.push_reserved(seat);
}

/// Puts the locks, each with its seat, behind other accounts, in order.
pub(crate) fn join_accounts<B: Board + Drop>(
    mut locks: Vec<Turnstile<Account<UserTurns<B>>>>,
    mut seats: Vec<Seat<Account<UserTurns<B>>>>,
    accounts: &mut Vec<OpenedAccount<B>>,
)
    requires many { length seats.items ≡ length locks.items }
    requires room { vec_len accounts.old + length locks.items ≤ vec_capacity accounts.old }
    ensures room { vec_capacity accounts.new ≡ vec_capacity accounts.old }
    ensures len { vec_len accounts.new ≡ vec_len accounts.old + length locks.items }
    ensures locks { map (λ account. account.lock) accounts.new.items
        ≡ map (λ account. account.lock) accounts.old.items ++ locks.items }
    ensures seats { map (λ account. account.seat) accounts.new.items
        ≡ map (λ account. account.seat) accounts.old.items ++ seats.items }
{
    let Some(lock) = locks.pop() else {
        return;
    };
    let seat = seats.pop().unwrap();
    join_accounts(locks, seats, accounts);
    accounts.push_reserved(OpenedAccount { lock, seat });
}
