//! Credential labels, and the tree of hashes over them.
#![tactic(auto)]

mod label;
mod laws;
mod path;

pub use label::{LABELS, Label};
pub use laws::{
    changed_value_gives_new_root, equal_roots_have_equal_values, only_true_path_gives_root,
    siblings_stay, true_path_gives_root,
};
pub use path::{Aux, Hash, LEVELS, empty_roots, root_of};
