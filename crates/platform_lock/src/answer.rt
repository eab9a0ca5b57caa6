//! What a device step gives back.

use ct_bytes::Blob;
use pw_path::Label;
use record_names::RecordName;
use share_api::{LeafView, ShareFault, Step, TryAnswer};

/// What a device step answers where it has no fault.
#[derive(Debug, Drop)]
pub enum Answer {
    /// The change is done.
    Done,
    /// The record's bytes, and `None` where there is no such record.
    Found(Option<Blob>),
    /// The names of the account's records, with a leaf name for each of its leaves, in rising order of bytes.
    Names(Vec<RecordName>),
    /// The new leaf has this label.
    Labelled(Label),
    /// The try's answer.
    Tried(TryAnswer),
    /// Whether the reset secret is the leaf's.
    Fits(bool),
    /// The leaf, and `None` where the account has no such leaf.
    Viewed(Option<LeafView>),
}

/// A device step that was made, with its reply, and its answer for who asked.
#[derive(Debug, Drop)]
pub struct Outcome {
    pub step: Step,
    pub answer: Result<Answer, ShareFault>,
}

impl Answer {
    ghost use Rattle.std.specs.Prelude.{◌≡◌, ℕ, Bool, Option, List};
    ghost use Rattle.share_api.specs.Contents.{Bytes};
    ghost use Rattle.share_api.specs.declared.leaf.TryAnswer.{TryAnswer};
    ghost use Rattle.share_api.specs.declared.leaf.LeafView.{LeafView};

    // The bytes found, where bytes were asked for.
    pub(crate) fn into_found(self) -> Option<Blob>
        requires { (found : Option Bytes) × (self ≡ Answer.Found found) }
        ensures { self ≡ Answer.Found result }
    {
        let Answer::Found(found) = self else {
            unreachable!()
        };
        found
    }

    // The names, where names were asked for.
    pub(crate) fn into_names(self) -> Vec<RecordName>
        requires { (names : _) × (self ≡ Answer.Names names) }
        ensures { self ≡ Answer.Names result }
    {
        let Answer::Names(names) = self else {
            unreachable!()
        };
        names
    }

    // The label, where a leaf was inserted.
    pub(crate) fn into_label(self) -> Label
        requires { (label : ℕ) × (self ≡ Answer.Labelled label) }
        ensures { self ≡ Answer.Labelled result }
    {
        let Answer::Labelled(label) = self else {
            unreachable!()
        };
        label
    }

    // The try's answer, where a leaf was tried.
    pub(crate) fn into_tried(self) -> TryAnswer
        requires { (tried : TryAnswer) × (self ≡ Answer.Tried tried) }
        ensures { self ≡ Answer.Tried result }
    {
        let Answer::Tried(tried) = self else {
            unreachable!()
        };
        tried
    }

    // Whether the secret is the leaf's, where one was reset.
    pub(crate) fn into_fits(self) -> bool
        requires { (fits : Bool) × (self ≡ Answer.Fits fits) }
        ensures { self ≡ Answer.Fits result }
    {
        let Answer::Fits(fits) = self else {
            unreachable!()
        };
        fits
    }

    // The leaf, where it was looked at.
    pub(crate) fn into_view(self) -> Option<LeafView>
        requires { (view : Option LeafView) × (self ≡ Answer.Viewed view) }
        ensures { self ≡ Answer.Viewed result }
    {
        let Answer::Viewed(view) = self else {
            unreachable!()
        };
        view
    }
}
