//! Seats that are dealt to clients, and gathered again.
ghost use Rattle.std.specs.Prelude.{◌≡◌, ◌≤◌, ℕ, List, [], map, length, All, vec_capacity};
ghost use Rattle.turn_lock.specs.Seats.{LockId};
ghost use Rattle.client_seats.specs.Clients.{client_view, HasItsSeats};
ghost use Rattle.client_seats.specs.Gathering.{HaveEachNumber};

use client_seats::{ClientSeats, WholeLock, deal_seats, gather_seats};
use std::test::Fail;
use turn_lock::{Tale, Turnstile};

// What lies behind an account's lock: a number of turns. An entry is the client's number.
#[derive(Drop)]
struct Tally {
    turns: u64,
}

impl Tale for Tally {
    type Entry = u32;

    ghost caller = { λ entry. entry };

    ghost stands = { λ first now book. Unit {0} };
}

// The clients in the opposite order. `room` is an empty list with room for all.
fn turned_round(
    mut clients: Vec<ClientSeats<Tally>>,
    room: Vec<ClientSeats<Tally>>,
) -> Vec<ClientSeats<Tally>>
    requires room { length clients.items ≤ vec_capacity room }
    requires empty { room.items ≡ [] }
    ensures len { length result.items ≡ length clients.items }
    ensures seats { (locks : List LockId) → All (HasItsSeats locks) (map client_view clients.items)
        → All (HasItsSeats locks) (map client_view result.items) }
    ensures numbers { (bound : ℕ) → HaveEachNumber (map (λ client. client.number) clients.items) bound
        → HaveEachNumber (map (λ client. client.number) result.items) bound }
{
    let mut turned = room;
    while let Some(client) = clients.pop() {
        turned.push_reserved(client);
    }
    turned
}

#[test]
fn seats_are_dealt_and_gathered_in_the_opposite_order(rt: HostRuntime) -> Result<(), Fail> {
    let Ok((one, first)) = Turnstile::new(rt.alloc(), Tally { turns: 7 }, 3) else {
        panic!(rt; "no memory for the first lock")
    };
    let Ok((two, second)) = Turnstile::new(rt.alloc(), Tally { turns: 9 }, 3) else {
        panic!(rt; "no memory for the second lock")
    };
    let Ok(locks) = vec![in rt.alloc(); one, two] else {
        panic!(rt; "no memory for the locks")
    };
    let Ok(seats) = vec![in rt.alloc(); first, second] else {
        panic!(rt; "no memory for the seats")
    };
    let Ok(dealt) = deal_seats(rt.alloc(), locks.as_slice(), seats, 3) else {
        panic!(rt; "no memory for three clients")
    };
    let Ok(room) = Vec::with_capacity(rt.alloc(), dealt.len()) else {
        panic!(rt; "no memory to turn the clients round")
    };
    let turned = turned_round(dealt, room);
    assert!(rt; turned.len() == 3 && turned[0].number == 2);
    let Ok(room) = Vec::with_capacity(rt.alloc(), locks.len()) else {
        panic!(rt; "no memory for the gathered locks")
    };
    let mut wholes = gather_seats(locks, turned, room);
    let Some(WholeLock { lock, seat }) = wholes.pop() else {
        panic!(rt; "the second lock is missing")
    };
    let (second, _chain) = lock.close(seat);
    let Some(WholeLock { lock, seat }) = wholes.pop() else {
        panic!(rt; "the first lock is missing")
    };
    let (first, _chain) = lock.close(seat);
    assert!(rt; first.turns == 7 && second.turns == 9);
    Ok(())
}
