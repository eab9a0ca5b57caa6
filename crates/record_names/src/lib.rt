//! The names of records: how each is spelled, and which texts are such names.
#![tactic(auto)]

mod laws;
mod name;
mod name_bytes;
mod reading;
mod spelling;

pub use laws::{different_parts_have_different_names, name_tells_its_account};
pub use name::RecordName;
