//! Tests of clients' seats.
#![tactic(auto)]

#[cfg(test)]
mod seats;
