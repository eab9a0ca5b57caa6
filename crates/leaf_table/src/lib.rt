//! All leaf records, in memory.
#![tactic(auto)]

mod rows;
mod table;

pub use table::LeafTable;
