//! Leaves as they are read.

use pw_path::{Hash, Label};
use pw_types::{Schedule, Stamp};

/// The bytes of a leaf record.
pub const LEAF_BYTES: usize = 296;

/// A leaf that was read and whose MAC is right.
#[derive(Clone, Copy, Debug, PartialEq, Eq)]
pub struct Leaf {
    pub label: Label,
    pub schedule: Schedule,
    /// How many wrong tries there were since it was last released or reset.
    pub wrong: u32,
    /// When the last of them came, and boot 0 and moment 0 where there were none.
    pub last: Stamp,
    /// The low-entropy secret.
    pub les: Hash,
    /// The high-entropy secret.
    pub hes: Hash,
    /// The reset secret.
    pub reset: Hash,
    /// The MAC of the record.
    pub mac: Hash,
}

/// What anybody can read of a leaf record.
#[derive(Clone, Copy, Debug, PartialEq, Eq)]
pub struct PublicLeaf {
    pub label: Label,
    pub schedule: Schedule,
    pub wrong: u32,
    pub last: Stamp,
    pub mac: Hash,
}
