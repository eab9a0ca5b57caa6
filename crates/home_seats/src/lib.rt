//! A client's seat of an account's lock, as the turns of a request take it.
#![tactic(auto)]

mod keys;
mod prepared;
mod seat;

pub use seat::SeatAtLock;
