//! Tests of the host's tree, and of calls and replays over it.
#![tactic(auto)]

#[cfg(test)]
mod pins;
#[cfg(test)]
mod tree;
