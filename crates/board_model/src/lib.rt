//! One device with a directory of files and a chip store, and what a crash may leave of it.
#![tactic(auto)]

mod board;
mod file_board;
mod lock_file;
mod made_folder;
mod real_folder;

pub use board::{Board, BoardFault};
pub use file_board::FileBoard;
pub use lock_file::LockFile;
