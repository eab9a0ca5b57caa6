//! The tests of `pin_edits`, with loads of `home_recovery` after them. There is nothing else in this library.
#![tactic(auto)]

#[cfg(test)]
mod bench;
#[cfg(test)]
mod edits;
#[cfg(test)]
mod limits;
#[cfg(test)]
mod paths;
#[cfg(test)]
mod shown;
