//! The tests of records' names and of the share in memory. There is nothing else in this library.
#![tactic(auto)]

#[cfg(test)]
mod names;
#[cfg(test)]
mod shares;
#[cfg(test)]
mod support;
