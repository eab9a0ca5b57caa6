//! How an object outside the program fails: the count of its faults, and what it tells of its content.
#![tactic(auto)]

mod count;

pub use count::{Failed, FaultCount};
