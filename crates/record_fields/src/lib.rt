//! Fields that records of several kinds have: accounts and factor labels, each named by its place where it
//! breaks its rule.
#![tactic(auto)]

mod fault;
mod names;

pub use fault::BadField;
pub use names::{take_account, take_label};
