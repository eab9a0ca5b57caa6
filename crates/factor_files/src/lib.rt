//! Records of factors: what is public of a password or a PIN.
#![tactic(auto)]

mod factor;
mod fault;
mod fields;

pub use factor::FactorRecord;
pub use fault::FactorFault;
