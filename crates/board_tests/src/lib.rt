//! The tests of the boards and of files that are staged on them. There is nothing else in this library.
#![tactic(auto)]

#[cfg(test)]
mod both_boards;
#[cfg(test)]
mod memory_board;
#[cfg(test)]
mod real_board;
#[cfg(test)]
mod staged_put;
#[cfg(test)]
mod support;
