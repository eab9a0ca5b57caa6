//! Calls on leaves over a board: the chip's answer, and the writes that it asks for.
#![tactic(auto)]

mod calls;
mod due;
mod host;
mod keeping;

pub use calls::{insert_leaf, remove_leaf, reset_leaf, try_leaf};
pub use due::Due;
pub use host::{ChipHost, LeafPlace};
