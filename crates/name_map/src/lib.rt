//! Maps from names to values, in the order of the names' bytes.
#![tactic(auto)]

mod copied;
mod map;

pub use copied::Copied;
pub use map::NameMap;
