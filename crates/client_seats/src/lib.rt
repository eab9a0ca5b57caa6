//! The seats that a home's clients have of its accounts' locks: dealt at the start, and joined at the end.
#![tactic(auto)]

mod dealing;
mod gathering;
mod laws;
mod seats;

pub use dealing::deal_seats;
pub use gathering::gather_seats;
pub use laws::known_entries_are_in_the_book;
pub use seats::{ClientSeats, WholeLock};
