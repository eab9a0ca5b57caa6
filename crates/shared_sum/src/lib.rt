//! A sum under a ticket lock, to which callers on threads add.
#![tactic(auto)]

mod callers;
mod seats;
mod sum;
mod threads;

pub use callers::{Caller, add};
pub use seats::{callers_of, joined_seat_of};
pub use sum::{Added, Sum};
pub use threads::{add_all, add_on_threads, closed, lock_after_turns};
