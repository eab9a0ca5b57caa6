//! What a run finds outside: its moment, its entropy, a board and the clients' ends.
#![tactic(auto)]

mod clients;
mod desk;
mod mem_desk;

pub use clients::open_clients;
pub use desk::{Client, Desk, DeskFault};
pub use mem_desk::MemDesk;
