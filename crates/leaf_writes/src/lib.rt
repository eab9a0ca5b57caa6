//! The two writes of a call on a leaf: the chip's words, and then the leaf's record.
#![tactic(auto)]

mod putting;
mod removing;

pub use putting::store_and_put;
pub use removing::store_and_remove;
