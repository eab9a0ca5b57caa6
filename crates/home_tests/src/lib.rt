//! Tests of whole homes whose clients wait for each other.
#![tactic(auto)]

#[cfg(test)]
mod board;
#[cfg(test)]
mod handshakes;
#[cfg(test)]
mod homes;
#[cfg(test)]
mod kdf;
#[cfg(test)]
mod lines;
#[cfg(test)]
mod many_turns;
#[cfg(test)]
mod sign;
#[cfg(test)]
mod source;
