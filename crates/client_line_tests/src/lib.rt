//! A home in memory whose accounts stand behind locks: what the lines of clients need of a home can be met.
#![tactic(auto)]

mod home;
mod ledger;
mod seat;

pub use home::LedgerHome;
pub use ledger::{Ledger, answer_to};
pub use seat::LedgerSeat;
