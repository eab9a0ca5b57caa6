//! Recovery of the two devices, a chip's words and the host's leaf records, as laws over `pin_ops`.
#![tactic(auto)]

mod call_laws;
mod crash_laws;

pub use call_laws::{
    answers_are_to_the_own_leaf, redone_values_are_told, tree_follows_the_leaves,
    unchanged_words_mean_unchanged_leaves,
};
pub use crash_laws::{
    leaf_step_is_crash_atomic, opening_is_crash_atomic, settling_is_crash_atomic,
};
