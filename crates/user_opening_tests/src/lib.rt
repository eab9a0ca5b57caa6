//! The tests of `user_opening`, with turns of `user_turn` between openings. There is nothing else in this library.
#![tactic(auto)]

#[cfg(test)]
mod leftovers;
#[cfg(test)]
mod openings;
#[cfg(test)]
mod support;
