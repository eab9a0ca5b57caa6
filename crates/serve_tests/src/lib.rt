//! Tests of the words of `serve`, and of clients on threads.
#![tactic(auto)]

#[cfg(test)]
mod threads;
#[cfg(test)]
mod words;
