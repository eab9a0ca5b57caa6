//! The end: all locks are closed, and one place is read in all books.

ghost use Rattle.std.specs.Prelude.{◌≡◌, ◌≤◌, ◌<◌, ◌+◌, List, [], map, length, All, IfSome, vec_len, vec_capacity};
ghost use Rattle.std.specs.List.{range_with_len};
ghost use Rattle.share_api.specs.declared.step.Step.{Step};
ghost use Rattle.platform_lock.specs.Devices.{IsServed};
ghost use Rattle.home_locks.specs.Accounts.{started_at};
ghost use Rattle.home_locks.specs.Closing.{IsWhole, Closes, AreRecalled, account_at, JoinsOn};
ghost use Rattle.home_locks.specs.Settled.{AreMoved, Settles};

use crate::account::{Account, Entry};
use crate::kind::AccountTurns;
use platform_lock::{Device, Shared, SharedDevice};
use turn_lock::{Chain, Seat, Turnstile};

/// An account's lock, with the joined seat of all its clients.
#[derive(Drop)]
pub struct Part<K: AccountTurns> {
    pub lock: Turnstile<Account<K>>,
    pub seat: Seat<Account<K>>,
}

/// What is left of a home: its platform, and the accounts' books in the order of their numbers.
#[derive(Drop)]
pub struct Books<K: AccountTurns> {
    pub device: K::Platform,
    pub books: Vec<Chain<Entry<K::Turn>>>,
}

// The seat, joined to the first one where there is one.
fn joined_on<D: Device>(
    shared: &Shared<D>,
    first: Option<Seat<SharedDevice<D>>>,
    own: Seat<SharedDevice<D>>,
) -> Seat<SharedDevice<D>>
    requires own { own.lock ≡ shared.now.id }
    requires first { IfSome first (λ seat. seat.lock ≡ shared.now.id) }
    ensures { JoinsOn first own result }
{
    match first {
        None => own,
        Some(seat) => shared.join(seat, own),
    }
}

// Closes the accounts' locks in order, and joins their seats of the platform's lock.
fn close_all<K: AccountTurns>(
    shared: &Shared<K::Platform>,
    mut parts: Vec<Part<K>>,
    books: &mut Vec<Chain<Entry<K::Turn>>>,
) -> Option<Seat<SharedDevice<K::Platform>>>
    requires parts { All (λ part. IsWhole (K.Platform.seen shared.now.first.device).era shared.now.id part.lock.id
        part.lock.first.seat part.lock.first.era part.seat) parts.items }
    requires room { vec_len books.old + length parts.items ≤ vec_capacity books.old }
    ensures room { vec_capacity books.new ≡ vec_capacity books.old }
    ensures len { vec_len books.new ≡ vec_len books.old + length parts.items }
    ensures closes { Closes (K.rules (K.Platform.seen shared.now.first.device).era) shared.now.id
        (map (λ part. account_at part.lock.first.seat) parts.items) (map (λ part. part.seat) parts.items)
        (map (λ part. started_at part.lock.first.seat part.lock.first.state) parts.items) books.old.items
        books.new.items result }
{
    let Some(part) = parts.pop() else {
        return None;
    };
    let Part { lock, seat } = part;
    let first = close_all(shared, parts, books);
    let (account, chain) = lock.close(seat);
    books.push_reserved(chain);
    let own = account.seat.unwrap().into_seat();
    Some(joined_on(shared, first, own))
}

/// Closes all locks. `room` is an empty list with room for all books, so it takes no memory.
///
/// The steps that an account's first seat knew are those that opened it. They are no steps of its book.
pub fn settle<K: AccountTurns>(
    shared: Shared<K::Platform>,
    parts: Vec<Part<K>>,
    room: Vec<Chain<Entry<K::Turn>>>,
) -> Books<K>
    requires parts { All (λ part. IsWhole (K.Platform.seen shared.first.device).era shared.id part.lock.id
        part.lock.first.seat part.lock.first.era part.seat) parts.items }
    // The accounts' numbers are all those of the platform's lock, in order.
    requires numbers { map (λ part. account_at part.lock.first.seat) parts.items
        ≡ range_with_len 0 shared.id.callers }
    requires some { 0 < length parts.items }
    requires room { length parts.items ≤ vec_capacity room }
    requires empty { room.items ≡ [] }
    // Whatever the platform tells, the account's steps in the chain are those that opened it and those of its book's
    // entries, and each entry moved the account by its own.
    ensures settled { (chain : List Step)
        × IsServed K.Platform.seen K.Platform.stands shared.first.device result.device chain
        × AreMoved (K.rules (K.Platform.seen shared.first.device).era).moves chain 0
        (map (λ part. started_at part.lock.first.seat part.lock.first.state) parts.items) result.books.items
        × (K.opened shared.first.device → Settles (K.rules (K.Platform.seen shared.first.device).era)
        (map (λ part. started_at part.lock.first.seat part.lock.first.state) parts.items)
        (K.contents shared.first.device) (K.contents result.device)
        (K.images shared.first.device result.device) (K.images_now result.device) chain result.books.items) }
    // What the joined seats know of each client's turns are that client's entries, at their places.
    ensures own { AreRecalled (map (λ part. part.seat) parts.items) result.books.items }
{
    let mut books = room;
    let seat = close_all(&shared, parts, &mut books).unwrap();
    let (platform, _chain) = shared.close(seat);
    Books {
        device: platform.device,
        books,
    }
}
