//! An account's sessions, with the main keys that were proved in them.
#![tactic(auto)]

mod laws;
mod table;

pub use laws::{
    end_is_the_machines, extension_is_the_machines, first_proof_is_the_machines,
    proof_is_the_machines, start_is_the_machines,
};
pub use table::{Kept, SessionFault, SessionTable};
