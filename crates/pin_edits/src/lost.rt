//! A lost tree, as it was loaded.

ghost use Rattle.std.specs.Prelude.{◌≡◌};
ghost use Rattle.pin_edits.specs.Faults.{tree_test};

use stored_home::{StoreFault, Stored};

/// Refuses the edit of a PIN where the tree of leaves is lost.
pub(crate) fn in_step(stored: &Stored) -> Result<(), StoreFault>
    ensures value { result ≡ tree_test stored.now.lost }
{
    match &stored.lost {
        None => Ok(()),
        Some(tree) => Err(StoreFault::TreeLost {
            host: tree.host,
            chip: tree.chip,
        }),
    }
}
