//! The tests of `home_edits`, with loads of `home_recovery` after them. There is nothing else in this library.
#![tactic(auto)]

#[cfg(test)]
mod damage;
#[cfg(test)]
mod edits;
#[cfg(test)]
mod limits;
#[cfg(test)]
mod old_blocks;
#[cfg(test)]
mod paths;
#[cfg(test)]
mod records;
#[cfg(test)]
mod shown;
#[cfg(test)]
mod stops;
