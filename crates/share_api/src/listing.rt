//! What an account has, by name and by label.

ghost use Rattle.std.specs.Prelude.{◌≡◌};

use pw_path::Label;
use record_names::RecordName;
use std::marker::Model;

/// The names of an account's records and the labels of its leaves, seen as the two lists.
#[derive(Debug, Drop)]
pub struct Listing {
    names: Vec<RecordName>,
    labels: Vec<Label>,
}

impl Model for Listing {
    ghost use Rattle.std.specs.Prelude.{List, ℕ};

    ghost Value = { List (List ℕ) × List ℕ };

    ghost view = { λ listing. (listing.names.items, listing.labels.items) };
}

impl Listing {
    /// These names and labels.
    pub fn new(names: Vec<RecordName>, labels: Vec<Label>) -> Listing
        ensures value { result ≡ (names.items, labels.items) }
    {
        Listing { names, labels }
    }

    /// The names of the records.
    pub fn names(&self) -> &[RecordName]
        ensures value { result.now ≡ self.now.0 }
    {
        &self.names
    }

    /// The labels of the leaves.
    pub fn labels(&self) -> &[Label]
        ensures value { result.now ≡ self.now.1 }
    {
        &self.labels
    }
}
