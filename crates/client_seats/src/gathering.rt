//! The clients' seats are joined, account by account.

ghost use Rattle.std.specs.Prelude.{◌≡◌, ◌<◌, ◌≤◌, ◌+◌, [], map, length, All, vec_len, vec_capacity};
ghost use Rattle.std.specs.List.{AllByRecursion};
ghost use Rattle.client_seats.specs.Clients.{client_view, known_at, HasItsSeats};
ghost use Rattle.client_seats.specs.Gathering.{HaveEachNumber, HasLast, JoinsLast, Gathers, EachAt, IsWholeSeat, Knows};

use crate::seats::{ClientSeats, WholeLock};
use turn_lock::{Seat, Tale, Turnstile};

// Takes the last seat of each client, and joins them in the clients' order.
fn join_last<T: Tale + Drop>(lock: &Turnstile<T>, clients: &mut [ClientSeats<T>]) -> Seat<T>
where
    T::Entry: Drop,
    requires some { 0 < length clients.old }
    requires last { AllByRecursion (HasLast lock.now.id)
        (map client_view clients.old) }
    ensures { JoinsLast lock.now.id (map client_view clients.old)
        (map client_view clients.new) result }
{
    let (client, others) = clients.split_first_mut().unwrap();
    let own = client.seats.pop().unwrap().unwrap();
    if others.is_empty() {
        return own;
    }
    let joined = join_last(lock, others);
    lock.join(own, joined)
}

// Joins the clients' seats of each lock, and puts the locks with these seats behind others, in order.
fn gather_all<T: Tale + Drop>(
    mut locks: Vec<Turnstile<T>>,
    clients: &mut [ClientSeats<T>],
    wholes: &mut Vec<WholeLock<T>>,
)
where
    T::Entry: Drop,
    requires some { 0 < length clients.old }
    requires seats { AllByRecursion (HasItsSeats (map (λ lock. lock.id) locks.items))
        (map client_view clients.old) }
    requires numbers { All (λ lock. HaveEachNumber (map (λ client. client.number) (map client_view clients.old))
        lock.id.callers) locks.items }
    requires room { vec_len wholes.old + length locks.items ≤ vec_capacity wholes.old }
    ensures room { vec_capacity wholes.new ≡ vec_capacity wholes.old }
    ensures len { vec_len wholes.new ≡ vec_len wholes.old + length locks.items }
    ensures gathers { Gathers (map client_view clients.old) locks.items
        wholes.old.items
        wholes.new.items }
{
    let Some(lock) = locks.pop() else {
        return;
    };
    let seat = join_last(&lock, clients);
    gather_all(locks, clients, wholes);
    wholes.push_reserved(WholeLock { lock, seat });
}

/// Joins the clients' seats of each account's lock, and gives the locks with the joined seats, in order.
///
/// The clients may stand in any order, in which their seats are joined. `room` is an empty list with room for all
/// locks, so it takes no memory.
pub fn gather_seats<T: Tale + Drop>(
    locks: Vec<Turnstile<T>>,
    clients: Vec<ClientSeats<T>>,
    room: Vec<WholeLock<T>>,
) -> Vec<WholeLock<T>>
where
    T::Entry: Drop,
    requires some { 0 < length clients.items }
    // Each client has the seats that were dealt to it, and each number of a lock is one of the clients'.
    requires seats { All (HasItsSeats (map (λ lock. lock.id) locks.items)) (map client_view clients.items) }
    requires numbers { All (λ lock. HaveEachNumber (map (λ client. client.number) clients.items) lock.id.callers)
        locks.items }
    requires room { length locks.items ≤ vec_capacity room }
    requires empty { room.items ≡ [] }
    ensures locks { map (λ whole. whole.lock) result.items ≡ locks.items }
    ensures whole { All (λ whole. IsWholeSeat whole.lock.id whole.seat) result.items }
    // What each client's seat of an account knew, the joined seat knows of the client's number.
    ensures knows { EachAt (λ account whole. Knows (known_at account (map client_view clients.items)) whole.seat)
        result.items }
{
    let mut clients = clients;
    let mut wholes = room;
    gather_all(locks, clients.as_mut_slice(), &mut wholes);
    wholes
}
