//! Why the record of a vault file isn't opened.

ghost use Rattle.std.specs.Prelude.{◌≡◌};
ghost use Rattle.vault_crypt.specs.declared.fault.VaultFault.TheVariants as faults;

use ct_bytes::NoMemory;

/// Why the record of a vault file isn't made or opened.
#[derive(Clone, Copy, Debug, PartialEq, Eq)]
pub enum VaultFault {
    /// The bytes have another form. So many stand before the first field that is cut short or breaks
    /// a rule, or before the first byte too many.
    BadFile(usize),
    /// The tag isn't that of the vault key, the account, the file's name and the encrypted bytes.
    BadTag,
    /// There was no memory.
    NoMemory,
}

impl From<NoMemory> for VaultFault {
    ghost from_gives = { λ _ e. e ≡ faults.NoMemory };

    fn from(_: NoMemory) -> VaultFault {
        VaultFault::NoMemory
    }
}
