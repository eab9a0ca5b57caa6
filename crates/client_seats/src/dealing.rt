//! The accounts' locks' seats, split among the clients.

ghost use Rattle.std.specs.Prelude.{◌≡◌, ◌<◌, ℕ, [], map, length, All, IfOk, IfErr};
ghost use Rattle.std.specs.List.{AllByRecursion, range_with_len};
ghost use Rattle.turn_lock.specs.Seats.{first_seat};
ghost use Rattle.client_seats.specs.Clients.{client_view, new_client, HasItsSeats};
ghost use Rattle.client_seats.specs.Dealing.{room_view, without_seats, with_seat, with_seats, HasRoom};
ghost use Rattle.client_seats.specs.Gathering.{HaveEachNumber};

use crate::seats::ClientSeats;
use std::alloc::Global;
use turn_lock::{NoMemory, Seat, Tale, Turnstile};

// So many clients without seats, with room for one of each account's lock.
fn clients_without_seats<T: Tale + Drop>(
    alloc: Global,
    clients: u32,
    accounts: usize,
) -> Result<Vec<ClientSeats<T>>, NoMemory>
where
    T::Entry: Drop,
    ensures { IfOk result (λ made. map room_view made.items
        ≡ map (without_seats accounts) (range_with_len 0 clients)) }
{
    let mut made = Vec::with_capacity(alloc, clients as usize)?;
    for number in 0..clients {
        let seats = Vec::with_capacity(alloc, accounts)?;
        made.push(ClientSeats { number, seats })?;
    }
    Ok(made)
}

// Gives each client the seat's next number, and gives back the seat without them.
fn split_among<T: Tale>(
    lock: &Turnstile<T>,
    seat: Seat<T>,
    clients: &mut [ClientSeats<T>],
) -> Seat<T>
    requires of { seat.lock ≡ lock.now.id }
    requires numbers { seat.spare ≡ map (λ client. client.number) clients.old }
    requires room { AllByRecursion (HasRoom 1) (map room_view clients.old) }
    ensures seat { result ≡ record seat { spare = [] } }
    ensures clients { map room_view clients.new ≡ map (with_seat lock.now.id) (map room_view clients.old) }
{
    let Some((client, others)) = clients.split_first_mut() else {
        return seat;
    };
    let (kept, given) = lock.split(seat);
    client.seats.push_reserved(Some(given));
    split_among(lock, kept, others)
}

// Gives each client its number of the lock. The first client has the first seat.
fn deal_seat<T: Tale>(lock: &Turnstile<T>, first: Seat<T>, clients: &mut [ClientSeats<T>])
    requires first { first ≡ first_seat lock.now.id }
    requires some { 0 < length clients.old }
    requires numbers { map (λ client. client.number) clients.old ≡ range_with_len 0 lock.now.id.callers }
    requires room { AllByRecursion (HasRoom 1) (map room_view clients.old) }
    ensures { map room_view clients.new ≡ map (with_seat lock.now.id) (map room_view clients.old) }
{
    let (client, others) = clients.split_first_mut().unwrap();
    let kept = split_among(lock, first, others);
    client.seats.push_reserved(Some(kept));
}

// Gives each client its number of each lock, in the order of the locks.
fn deal_all<T: Tale + Drop>(
    locks: &[Turnstile<T>],
    mut seats: Vec<Seat<T>>,
    clients: &mut [ClientSeats<T>],
)
where
    T::Entry: Drop,
    requires seats { seats.items ≡ map (λ lock. first_seat lock.id) locks.now }
    requires callers { All (λ lock. lock.id.callers ≡ length clients.old) locks.now }
    requires some { 0 < length clients.old }
    requires numbers { map (λ client. client.number) clients.old ≡ range_with_len 0 (length clients.old) }
    requires room { AllByRecursion (HasRoom (length locks.now)) (map room_view clients.old) }
    ensures { map room_view clients.new
        ≡ map (with_seats (map (λ lock. lock.id) locks.now)) (map room_view clients.old) }
{
    let Some((lock, others)) = locks.split_last() else {
        return;
    };
    let seat = seats.pop().unwrap();
    deal_all(others, seats, clients);
    deal_seat(lock, seat, clients);
}

/// Splits the first seat of each account's lock among the clients: each client gets its number of each lock.
///
/// `seats` are those of the locks just made, in the same order. All memory is taken before the first seat is split, so
/// where there is none, the seats come back as they were.
pub fn deal_seats<T: Tale + Drop>(
    alloc: Global,
    locks: &[Turnstile<T>],
    seats: Vec<Seat<T>>,
    clients: u32,
) -> Result<Vec<ClientSeats<T>>, (NoMemory, Vec<Seat<T>>)>
where
    T::Entry: Drop,
    requires some { 0 < clients }
    requires callers { All (λ lock. lock.id.callers ≡ clients) locks.now }
    requires seats { seats.items ≡ map (λ lock. first_seat lock.id) locks.now }
    // The clients have the numbers from 0, and each has one seat of each lock, with its number.
    ensures dealt { IfOk result (λ dealt. map client_view dealt.items
        ≡ map (new_client (map (λ lock. lock.id) locks.now)) (range_with_len 0 clients)) }
    // So the seats can be gathered.
    ensures seats { IfOk result (λ dealt. All (HasItsSeats (map (λ lock. lock.id) locks.now))
        (map client_view dealt.items)) }
    ensures numbers { IfOk result (λ dealt. All (λ lock. HaveEachNumber (map (λ client. client.number) dealt.items)
        lock.id.callers) locks.now) }
    ensures err { IfErr result (λ fault. fault.1.items ≡ seats.items) }
{
    let mut dealt = match clients_without_seats(alloc, clients, locks.len()) {
        Ok(made) => made,
        Err(NoMemory) => return Err((NoMemory, seats)),
    };
    deal_all(locks, seats, dealt.as_mut_slice());
    Ok(dealt)
}
