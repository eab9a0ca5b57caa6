//! A board in memory that stores its calls, with the images that a crash may leave of it.
#![tactic(auto)]

mod as_board;
mod board;
mod change;
mod content;
mod crash;
mod fail;
mod file_map;

pub use board::MemBoard;
pub use fail::Fail;
