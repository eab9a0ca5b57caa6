//! Tests of the crates at the base, and of the chip's types, paths and log.
#![tactic(auto)]

#[cfg(test)]
mod faults;
#[cfg(test)]
mod logs;
#[cfg(test)]
mod names;
#[cfg(test)]
mod owned;
#[cfg(test)]
mod paths;
#[cfg(test)]
mod pieces;
#[cfg(test)]
mod schedules;
