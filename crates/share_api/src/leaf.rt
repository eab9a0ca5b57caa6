//! Leaves, as calls of a share show them.

use pw_path::Hash;
use pw_types::{Schedule, Stamp};

/// What a new leaf holds. Its count of wrong tries is 0.
#[derive(Clone, Copy, Debug, PartialEq, Eq)]
pub struct NewLeaf {
    /// The low-entropy secret, which a try has to show.
    pub les: Hash,
    /// The high-entropy secret, which a right try releases.
    pub hes: Hash,
    /// The reset secret, which sets the count of wrong tries back.
    pub reset: Hash,
    /// The delay schedule.
    pub schedule: Schedule,
}

/// A leaf as plain data.
#[derive(Clone, Copy, Debug, PartialEq, Eq)]
pub struct Leaf {
    /// The low-entropy secret.
    pub les: Hash,
    /// The high-entropy secret.
    pub hes: Hash,
    /// The reset secret.
    pub reset: Hash,
    /// The delay schedule.
    pub schedule: Schedule,
    /// How many wrong tries there were since it was last released or reset.
    pub wrong: u32,
    /// When the last of them came, and boot 0 and moment 0 where there were none.
    pub last: Stamp,
}

/// What anybody may know of a leaf.
#[derive(Clone, Copy, Debug, PartialEq, Eq)]
pub struct LeafView {
    /// How many wrong tries there were since it was last released or reset.
    pub wrong: u32,
    /// When the last of them came, and boot 0 and moment 0 where there were none.
    pub last: Stamp,
    /// The delay schedule.
    pub schedule: Schedule,
}

/// What a try of a leaf answers.
#[derive(Clone, Copy, Debug, PartialEq, Eq)]
pub enum TryAnswer {
    /// The secret was right. This is the high-entropy secret, and the count of wrong tries is 0 again.
    Right(Hash),
    /// The secret was wrong, and the count is one higher.
    Wrong,
    /// No try may come before this moment. Nothing changed.
    Delayed(u64),
    /// No try may come until a reset. Nothing changed.
    Locked,
}
