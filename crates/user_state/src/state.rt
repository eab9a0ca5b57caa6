//! What an account keeps in memory between its turns.

use auth_session::SessionTable;
use ct_bytes::{Blob, Text};
use pw_path::Label;
use random_values::Generator;
use share_api::LeafView;
use stored_home::Stored;

/// What tells the two possible durable parts of an unsettled account from each other, once the records
/// are read again.
#[derive(Debug, Drop)]
pub enum Doubt {
    /// The next edition, and the editions by label: they are those of the stash that is kept, or others.
    Editions,
    /// The record of the vault file of this name: it is this one, or another.
    File {
        /// The file's name.
        name: Text,
        /// The record that the turn put.
        record: Blob,
    },
    /// What the leaf of this factor shows: it is this, or something else.
    Leaf {
        /// The factor's label.
        label: Text,
        /// The leaf's label.
        tree: Label,
        /// What the leaf showed before the turn.
        view: LeafView,
    },
}

/// One account's state.
///
/// `cost` is the cost exponent of new factors, from 1 to 16. While the account is unsettled `doubt` is
/// there, and `stored` is what was loaded before the turn that failed. `vault` is the vault key while the
/// vault is mounted. `last` is the last moment, in seconds.
#[derive(Drop)]
pub struct UserState {
    pub account: Text,
    pub cost: u8,
    pub stored: Stored,
    pub doubt: Option<Doubt>,
    pub sessions: SessionTable,
    pub vault: Option<[u8; 32]>,
    pub last: u64,
    pub generator: Generator,
}

/// What a look shows, so that a key can be derived while no lock is held: the edition, the salt and the
/// cost of the label's factor, and a new salt. Where there is no such factor there is no edition, the
/// salt is the new one and the cost that of new factors.
#[derive(Clone, Copy, Debug, PartialEq, Eq)]
pub struct Seen {
    pub edition: Option<u64>,
    pub salt: [u8; 16],
    pub cost: u8,
    pub fresh: [u8; 16],
}
