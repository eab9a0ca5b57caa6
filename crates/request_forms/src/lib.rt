//! The form of requests: labels and file names are in their grammars.
//!
//! The definitions stand in `specs/Formed.antt`.
#![tactic(auto)]
