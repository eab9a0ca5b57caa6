//! What a chip replies.

use pw_leaf::{LEAF_BYTES, LeafFault};
use pw_log::LogAnswer;
use pw_path::Hash;

/// The reply to a call. Of the refusals only `Wrong` changes the words.
#[derive(Clone, Copy, Debug, PartialEq, Eq)]
pub enum Reply {
    /// A leaf was removed, or the tree was emptied.
    Done,
    /// The record of the new leaf.
    Inserted([u8; LEAF_BYTES]),
    /// The low-entropy secret was right: the record without wrong tries, and the high-entropy secret.
    Released { leaf: [u8; LEAF_BYTES], hes: Hash },
    /// The reset secret was right: the record without wrong tries.
    Cleared([u8; LEAF_BYTES]),
    /// Where the host stands.
    Log(LogAnswer),
    /// The record that the newest entry made.
    Replayed([u8; LEAF_BYTES]),

    /// There is no such label.
    LabelInvalid,
    /// The path doesn't give the tree's root.
    PathAuthFailed,
    /// The record is none of this chip, or of another label.
    LeafInvalid(LeafFault),
    /// The low-entropy secret was wrong: the record with one more wrong try.
    Wrong([u8; LEAF_BYTES]),
    /// No try may come before this moment.
    Delayed(u64),
    /// No try may come until the leaf is reset.
    Locked,
    /// The reset secret was wrong.
    ResetWrong,
    /// The log doesn't have the host's root, or no entry to replay.
    RootUnknown,
    /// There is a leaf at the label.
    LabelUsed,
    /// There is no leaf at the label.
    LabelEmpty,
}
