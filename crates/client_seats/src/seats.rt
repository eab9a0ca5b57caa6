//! A client's seats, and a lock with the joined seat of all clients.

use turn_lock::{Seat, Tale, Turnstile};

/// What a client has of a home: one seat of each account's lock, in the order of the accounts.
#[derive(Drop)]
pub struct ClientSeats<T: Tale> {
    /// The client's number from 0, which each of its seats has.
    pub number: u32,
    /// A seat is away only during a turn.
    pub seats: Vec<Option<Seat<T>>>,
}

/// An account's lock, with the joined seat of all its clients.
#[derive(Drop)]
pub struct WholeLock<T: Tale> {
    pub lock: Turnstile<T>,
    pub seat: Seat<T>,
}
