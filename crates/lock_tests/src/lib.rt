//! Tests of the lock, of its chain and of a sum that threads share under it.
#![tactic(auto)]

#[cfg(test)]
mod chains;
#[cfg(test)]
mod sums;
