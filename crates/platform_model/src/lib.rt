//! The platform as data: both devices with the records of all accounts, device steps, and recovery.
#![tactic(auto)]

mod failing_laws;
mod laws;

pub use failing_laws::{
    each_account_has_its_own_tries, each_standing_is_reopened, settling_ends_in_step,
    settling_goes_on,
};
pub use laws::{
    each_account_has_its_own_steps, every_crash_is_recovered, other_accounts_make_no_difference,
};
