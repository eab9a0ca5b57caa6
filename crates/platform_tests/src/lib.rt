//! The tests of the platform over a board in memory. There is nothing else in this library.
#![tactic(auto)]

#[cfg(test)]
mod crashes;
#[cfg(test)]
mod faults;
#[cfg(test)]
mod openings;
#[cfg(test)]
mod support;
