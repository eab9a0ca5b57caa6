//! The locks of a home: one round the platform, and one round each account, whose value has the account's seat of
//! the platform's lock.
#![tactic(auto)]

mod account;
mod ending;
mod kind;
mod laws;
mod turns;

pub use account::{Account, Entry};
pub use ending::{Books, Part, settle};
pub use kind::AccountTurns;
pub use laws::known_turns_are_in_the_book;
pub use turns::{Taken, blank_entry, call, take_turn};
