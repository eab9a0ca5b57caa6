//! A file that is replaced or removed whole or not at all, whenever a crash comes.
#![tactic(auto)]

mod putting;
mod removing;

pub use putting::put;
pub use removing::remove;
