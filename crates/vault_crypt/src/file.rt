//! Sealing and opening a vault file.

ghost use Rattle.std.specs.Prelude.{◌≡◌, ◌≤◌, ◌<◌, length, IsTrue, IfOk, IsOkUnless};
ghost use Rattle.home_names.specs.Names.{is_account_name};
ghost use Rattle.sealed_text.specs.Sealing.{sealed_under};
ghost use Rattle.vault_crypt.specs.VaultFile.{IsFileName, file_bytes, file_extra, opened_file, text_or_fault, Gives};
ghost use Rattle.sealed_text.specs.Opening.{opened_parts};

use crate::fault::VaultFault;
use crate::parts::{Parts, VERSION, parts_of};
use ct_bytes::{Blob, NoMemory};
use sealed_text::{OpenFault, Sealed, open_parts};
use std::alloc::Global;

/// The most bytes of a vault file.
pub const MAX_FILE: usize = 49_152;

// The associated data of an account's file of a name.
fn extra_of(alloc: Global, account: &str, name: &str) -> Result<Blob, NoMemory>
    requires account { IsTrue (is_account_name account.now) }
    requires name { IsFileName name.now }
    ensures value { IfOk result (λ extra. extra ≡ file_extra account.now name.now) }
    ensures size { IfOk result (λ extra. length extra < 128) }
{
    let mut extra = Blob::from_slice(alloc, b"file")?;
    extra.push_slice(account.as_bytes())?;
    extra.push_slice(&[0])?;
    extra.push_slice(name.as_bytes())?;
    Ok(extra)
}

// The record of a sealed text.
fn spelled(alloc: Global, sealed: &Sealed) -> Result<Blob, NoMemory>
    ensures value { IfOk result (λ file. file ≡ file_bytes sealed.now) }
{
    let mut file = Blob::from_slice(alloc, &[VERSION])?;
    file.push_slice(&sealed.iv)?;
    file.push_slice(sealed.text.as_slice())?;
    file.push_slice(&sealed.tag)?;
    Ok(file)
}

/// The record of an account's vault file: its bytes under the vault key (docs/FORMATS.md, "Vault
/// file record"; SP 800-38D, 7.1). No two records may be made under one key and IV.
///
/// The only fault is `NoMemory`.
pub fn seal_file(
    alloc: Global,
    key: &[u8; 32],
    account: &str,
    name: &str,
    iv: [u8; 12],
    bytes: &[u8],
) -> Result<Blob, VaultFault>
    requires account { IsTrue (is_account_name account.now) }
    requires name { IsFileName name.now }
    requires size { length bytes.now ≤ MAX_FILE }
    ensures value { IfOk result (λ file. file
        ≡ file_bytes (sealed_under key.now iv (file_extra account.now name.now) bytes.now)) }
    ensures fault { IsOkUnless result VaultFault.NoMemory }
{
    let extra = extra_of(alloc, account, name)?;
    let sealed = Sealed::seal(alloc, key, iv, extra.as_slice(), bytes)?;
    Ok(spelled(alloc, &sealed)?)
}

/// The bytes of an account's vault file of this name, from its record (docs/FORMATS.md, "Vault file
/// record"; SP 800-38D, 7.2).
///
/// The faults, in order: `BadFile` with the first place, `BadTag`.
pub fn open_file(
    alloc: Global,
    key: &[u8; 32],
    account: &str,
    name: &str,
    sealed: &[u8],
) -> Result<Blob, VaultFault>
    requires account { IsTrue (is_account_name account.now) }
    requires name { IsFileName name.now }
    ensures exact { Gives result (opened_file key.now account.now name.now sealed.now) }
{
    match parts_of(sealed) {
        Ok(parts) => {
            let extra = extra_of(alloc, account, name)?;
            opened(alloc, key, extra.as_slice(), &parts)
        }
        Err(place) => Err(VaultFault::BadFile(place)),
    }
}

// The text of a record's fields.
fn opened(
    alloc: Global,
    key: &[u8; 32],
    extra: &[u8],
    parts: &Parts<'_>,
) -> Result<Blob, VaultFault>
    requires extra { length extra.now < 128 }
    requires text { length parts.now.text.now < 65536 }
    ensures exact { Gives result (text_or_fault
        (opened_parts key.now parts.now.iv extra.now parts.now.text.now parts.now.tag)) }
{
    match open_parts(alloc, key, &parts.iv, extra, parts.text, &parts.tag) {
        Ok(plain) => Ok(plain),
        Err(OpenFault::BadTag) => Err(VaultFault::BadTag),
        Err(OpenFault::NoMemory) => Err(VaultFault::NoMemory),
    }
}
