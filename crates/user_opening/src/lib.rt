//! The opening of an account: its records are recovered, and its first state is made.
#![tactic(auto)]

mod opening;

pub use opening::open_user;
