//! One turn of an account, over any share.
#![tactic(auto)]

mod acting;
mod rows;

pub use acting::{Acted, act};
