//! Tests of the clients' loop and of a desk's clients, over objects in memory.
#![tactic(auto)]

#[cfg(test)]
mod desk;
#[cfg(test)]
mod lines;
#[cfg(test)]
mod made;
#[cfg(test)]
mod objects;
