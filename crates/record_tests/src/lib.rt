//! Tests of the records: factor records, stashes, vault files.
#![tactic(auto)]

#[cfg(test)]
mod factors;
#[cfg(test)]
mod files;
#[cfg(test)]
mod limits;
#[cfg(test)]
mod made;
#[cfg(test)]
mod stashes;
