//! A chip's keys, and the secrets of a new leaf.

use pw_path::Hash;

/// The keys that never leave a chip.
#[derive(Clone, Copy, Debug, PartialEq, Eq)]
pub struct ChipKeys {
    /// Of the MAC of leaf records.
    pub mac: [u8; 32],

    /// Of the cipher that hides a leaf's secrets.
    pub enc: [u8; 32],
}

/// The secrets of a new leaf.
#[derive(Clone, Copy, Debug, PartialEq, Eq)]
pub struct NewLeafSecrets {
    /// The low-entropy secret, which a try has to show.
    pub les: Hash,

    /// The high-entropy secret, which a right try releases.
    pub hes: Hash,

    /// The reset secret, which sets the count of wrong tries back.
    pub reset: Hash,
}
