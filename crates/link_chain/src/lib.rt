//! A chain of boxes with an entry each, to which a box is hung without taking memory.
#![tactic(auto)]

mod chain;
mod link;
mod stack;

pub use chain::Chain;
pub use link::Link;
