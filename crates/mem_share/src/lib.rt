//! A share in memory, which tells all that it holds.
#![tactic(auto)]

mod calls;
mod contents;
mod fail;
mod failing;
mod leaf;
mod leaf_key;
mod log;
mod ops;
mod replies;
mod share;

pub use fail::Fail;
pub use share::MemShare;
