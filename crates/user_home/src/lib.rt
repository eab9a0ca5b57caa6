//! A home of many accounts and clients over a board.
#![tactic(auto)]

mod calling;
mod home;
mod open_home;
mod settling;

pub use home::UserHome;
pub use open_home::OpenHome;
pub use settling::{HomeBooks, close_locks, settle_home};
