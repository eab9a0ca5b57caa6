//! A secret is tried at a password's block.

ghost use Rattle.std.specs.Prelude.{◌≡◌, ◌≤◌, IfOk, IfSome, IsSome, option_copied};
ghost use Rattle.std.specs.FinMap.{get};
ghost use Rattle.scrypt_kdf.specs.Derive.{derive};
ghost use Rattle.turn_secrets.specs.Checked.{HaveRows, IsPasswordAt, IsOfSecret, IsChecked, IsOpened};

use ct_bytes::{NoMemory, Text};
use factor_files::FactorRecord;
use home_edits::wrap_of;
use scrypt_kdf::derive;
use secret_stash::{Stash, StashFault};
use std::alloc::Global;
use stored_home::{Derived, Stored};

/// How a password's block was found under a secret.
#[derive(Clone, Copy)]
pub enum Checked {
    /// The key that is derived of the secret, and the main key that the block opens to.
    Right { key: [u8; 64], main: [u8; 32] },
    /// The block's tag is another one.
    Wrong,
    /// There was no memory.
    Starved,
}

// The key of the secret with the record's salt and cost. A derived key with others isn't used.
fn key_of(
    alloc: Global,
    row: &FactorRecord,
    secret: &Text,
    derived: Option<&Derived>,
) -> Result<[u8; 64], NoMemory>
    requires least { 1 ≤ row.now.cost }
    requires most { row.now.cost ≤ 16 }
    requires derived { IfSome (option_copied derived) (IsOfSecret secret.now) }
    ensures { IfOk result (λ key. key ≡ derive secret.now row.now.salt row.now.cost) }
{
    if let Some(known) = derived {
        if known.salt == row.salt && known.cost == row.cost {
            return Ok(known.key);
        }
    }
    derive(alloc, secret.as_str().as_bytes(), &row.salt, row.cost)
}

// What the label's block is under a key.
fn opened(stash: &Stash, label: &Text, key: [u8; 64]) -> Checked
    requires { IsSome (get stash.now.blocks label.now) }
    ensures { IsOpened stash.now label.now key result }
{
    match stash.open_with(label.as_str(), &wrap_of(&key)) {
        Ok(main) => Checked::Right { key, main },
        Err(StashFault::BadTag) => Checked::Wrong,
        Err(StashFault::NoMemory) => Checked::Starved,
        Err(StashFault::NoBlock | StashFault::BadStash(_)) => unreachable!(),
    }
}

/// Tries a secret at the block of the label's password.
pub(crate) fn check(
    alloc: Global,
    stored: &Stored,
    label: &Text,
    secret: &Text,
    derived: Option<&Derived>,
) -> Checked
    requires rows { HaveRows stored.now }
    requires password { IsPasswordAt stored.now label.now }
    requires derived { IfSome (option_copied derived) (IsOfSecret secret.now) }
    ensures { IsChecked stored.now label.now secret.now result }
{
    let Some(stash) = &stored.stash else {
        unreachable!()
    };
    let Some(row) = stored.factors.get(label) else {
        unreachable!()
    };
    match key_of(alloc, row, secret, derived) {
        Ok(key) => opened(stash, label, key),
        Err(NoMemory) => Checked::Starved,
    }
}
