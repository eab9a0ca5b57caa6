//! The reload at the start of a turn of an account that is unsettled.
#![tactic(auto)]

mod editions;
mod reloading;
mod telling;

pub use reloading::reload;
