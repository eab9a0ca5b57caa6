//! Device steps as data: what is asked, and what is replied.

use crate::leaf::{LeafView, NewLeaf, TryAnswer};
use crate::listing::Listing;
use ct_bytes::Blob;
use pw_path::{Hash, Label};
use record_names::RecordName;

/// A change whose only good reply is that it is done.
#[derive(Debug, Drop)]
pub enum Write {
    /// The record has these bytes.
    Put(RecordName, Blob),
    /// There is no such record.
    Remove(RecordName),
    /// There is no such leaf.
    RemoveLeaf(Label),
}

/// What a device step asks.
#[derive(Debug, Drop)]
pub enum Op {
    /// The names of the account's records, and the labels of its leaves.
    Names,
    /// The bytes of a record.
    Get(RecordName),
    /// A change.
    Do(Write),
    /// A new leaf, at a label that is free.
    InsertLeaf(NewLeaf),
    /// A try of a leaf, with a low-entropy secret.
    TryLeaf(Label, Hash),
    /// A reset of a leaf's count, with a reset secret.
    ResetLeaf(Label, Hash),
    /// What anybody may know of a leaf.
    LookLeaf(Label),
}

/// What a device step replies.
#[derive(Debug, Drop)]
pub enum Reply {
    /// The change is done.
    Done,
    /// The record's bytes, and `None` where there is no such record.
    Found(Option<Blob>),
    /// The names and the labels.
    Listed(Listing),
    /// The new leaf has this label.
    Labelled(Label),
    /// The try's answer.
    Tried(TryAnswer),
    /// Whether the reset secret is the leaf's.
    Fits(bool),
    /// The leaf, and `None` where there is no such leaf.
    Viewed(Option<LeafView>),
    /// The host's tree is lost. Nothing changed.
    TreeLost,
    /// The leaf's record is refused. Nothing changed.
    Damaged,
    /// The device failed. What the step changes is done or not.
    Failed,
    /// There was no memory. Nothing changed.
    NoMemory,
}

/// One device step of one account.
///
/// `account` is the account's place in the run, from 0. `moment` is the moment of a step on a leaf, in
/// seconds, and 0 where none is given.
#[derive(Debug, Drop)]
pub struct Step {
    pub account: u8,
    pub moment: u64,
    pub op: Op,
    pub reply: Reply,
}
