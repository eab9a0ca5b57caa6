//! One turn of an account as the composition of all accounts takes it.
#![tactic(auto)]

mod laws;
mod taken;

pub use laws::{
    act_stands, books_keep_to_the_first_state, faults_have_failed_steps, opened_user_stands,
    secrets_come_with_requests,
};
pub use taken::TurnTaken;
