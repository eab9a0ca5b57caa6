//! What an account keeps in memory of its records.

use ct_bytes::NoMemory;
use factor_files::FactorRecord;
use name_map::{Copied, NameMap};
use pw_path::Hash;
use secret_stash::Stash;

/// That a vault file is there.
#[derive(Clone, Copy, Debug, PartialEq, Eq)]
pub struct Kept;

impl Copied for Kept {
    fn copy(&self) -> Result<Kept, NoMemory> {
        Ok(*self)
    }
}

/// The roots of a lost tree.
#[derive(Clone, Copy, Debug, PartialEq, Eq)]
pub struct LostTree {
    /// The root of the host's tree.
    pub host: Hash,
    /// The root of the chip's.
    pub chip: Hash,
}

/// What an account keeps in memory of its records: the stash, the record of each factor that a block of
/// the stash names, by its label, and which vault files are there, by name. `lost` is there where the
/// tree of leaves is lost.
#[derive(Debug, Drop)]
pub struct Stored {
    pub stash: Option<Stash>,
    pub factors: NameMap<FactorRecord>,
    pub files: NameMap<Kept>,
    pub lost: Option<LostTree>,
}
