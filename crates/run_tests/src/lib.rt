//! Tests of whole runs, over boards, clients and desks in memory.
#![tactic(auto)]

#[cfg(test)]
mod outside;
#[cfg(test)]
mod statuses;
#[cfg(test)]
mod use_of_homes;
