//! Records that are made before the first device step.

ghost use Rattle.std.specs.Prelude.{◌≡◌, ◌≤◌, length, IsTrue, IfOk};
ghost use Rattle.record_names.specs.Names.{is_account_name, AreParts, File, file_name};
ghost use Rattle.stash_format.specs.Kept.{HasBoth};
ghost use Rattle.stash_format.specs.Sizes.{payload_size, most_payload};
ghost use Rattle.vault_crypt.specs.VaultFile.{IsFileName};
ghost use Rattle.stored_home.specs.Holds.{IsFileOf};
ghost use Rattle.home_edits.specs.Puts.{IsStashPut};

use ct_bytes::{Blob, NoMemory};
use record_names::RecordName;
use secret_stash::Stash;
use std::alloc::Global;
use vault_crypt::{MAX_FILE, seal_file};

/// A record that is to be put.
#[derive(Debug, Drop)]
pub(crate) struct RecordPut {
    pub name: RecordName,
    pub bytes: Blob,
}

/// The stash's record.
pub(crate) fn stash_put(account: &str, stash: &Stash) -> Result<RecordPut, NoMemory>
    requires plain { IsTrue (is_account_name account.now) }
    requires both { HasBoth stash.now }
    requires short { payload_size stash.now ≤ most_payload }
    ensures value { IfOk result (λ put. IsStashPut account.now stash.now put) }
{
    match stash.write() {
        Ok(bytes) => Ok(RecordPut {
            name: RecordName::stash(account),
            bytes,
        }),
        Err(_) => Err(NoMemory),
    }
}

/// The name of a vault file's record.
pub(crate) fn file_record(account: &str, name: &str) -> RecordName
    requires plain { IsTrue (is_account_name account.now) }
    requires name { IsFileName name.now }
    ensures value { result ≡ file_name account.now name.now }
    ensures are { AreParts (File account.now name.now) }
{
    RecordName::file(account, name)
}

/// A vault file's bytes as its record has them.
pub(crate) fn file_bytes(
    alloc: Global,
    account: &str,
    name: &str,
    vault: &[u8; 32],
    iv: &[u8; 12],
    bytes: &[u8],
) -> Result<Blob, NoMemory>
    requires plain { IsTrue (is_account_name account.now) }
    requires name { IsFileName name.now }
    requires size { length bytes.now ≤ MAX_FILE }
    ensures opens { IfOk result (λ sealed. IsFileOf vault.now account.now name.now sealed bytes.now) }
    ensures size { IfOk result (λ sealed. length sealed ≤ 49181) }
{
    match seal_file(alloc, vault, account, name, *iv, bytes) {
        Ok(sealed) => Ok(sealed),
        Err(_) => Err(NoMemory),
    }
}
