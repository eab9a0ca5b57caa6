//! Tests of the chip crates: leaf records, calls and words.
#![tactic(auto)]

#[cfg(test)]
mod calls;
#[cfg(test)]
mod records;
#[cfg(test)]
mod words;
