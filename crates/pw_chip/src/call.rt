//! What a host asks of a chip.

use pw_path::{Aux, Hash};
use pw_types::Schedule;

/// A call. Every byte of it is the host's.
#[derive(Clone, Copy)]
pub enum Call<'a> {
    /// Empties the tree.
    ResetTree,

    /// Makes a leaf at an unused label, whose value `mac` is zero bytes.
    Insert {
        label: u16,
        aux: Aux,
        mac: Hash,
        les: Hash,
        hes: Hash,
        reset: Hash,
        schedule: Schedule,
        iv: [u8; 16],
    },

    /// Removes the leaf whose MAC this is.
    Remove {
        label: u16,
        aux: Aux,
        mac: Hash,
    },

    /// Shows the low-entropy secret of a leaf.
    Try {
        label: u16,
        aux: Aux,
        leaf: &'a [u8],
        les: Hash,
    },

    /// Shows the reset secret of a leaf.
    Reset {
        label: u16,
        aux: Aux,
        leaf: &'a [u8],
        reset: Hash,
    },

    /// Asks where a host stands whose tree has this root.
    GetLog {
        host: Hash,
    },

    /// Asks for the record that the newest entry made of this older one.
    Replay {
        label: u16,
        aux: Aux,
        leaf: &'a [u8],
    },
}
