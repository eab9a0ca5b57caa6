//! The tests of calls on leaves and of their two writes. There is nothing else in this library.
#![tactic(auto)]

#[cfg(test)]
mod calls;
#[cfg(test)]
mod two_writes;
