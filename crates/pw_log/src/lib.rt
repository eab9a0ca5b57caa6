//! The chip's log of two: the last changes of the tree's root.
#![tactic(auto)]

mod answer;
mod entries;
mod entry;
mod laws;

pub use answer::LogAnswer;
pub use entries::Log;
pub use entry::{
    BLANK, INSERT, LogEntry, NO_VERDICT, REMOVE, RESET, RESET_TREE, RIGHT, TRY, WRONG,
};
pub use laws::pushed_entry_is_told;
