//! What a home's clients were answered is what the accounts' books have of them.
//!
//! The definitions stand in `specs/Books.antt`, and the lemmas that join seats and books in `proofs/Output.antt`.
#![tactic(auto)]
