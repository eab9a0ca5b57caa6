//! What an account's records and leaves hold, and that each edit of a home is done whole or not at all.
#![tactic(auto)]

mod derived;
mod fault;
mod laws;
mod stored;

pub use derived::Derived;
pub use fault::StoreFault;
pub use laws::{
    block_is_sealed_anew, factor_is_added, factor_is_removed, factor_is_updated, home_is_made,
    pin_is_added, pin_is_counted, pin_is_removed, pin_is_updated, unnamed_leaf_is_removed,
    unnamed_record_is_removed, vault_file_is_put,
};
pub use stored::{Kept, LostTree, Stored};
