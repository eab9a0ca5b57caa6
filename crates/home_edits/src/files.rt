//! Putting and reading a vault file.

ghost use Rattle.std.specs.Prelude.{◌≡◌, ◌≤◌, ◌<◌, ℕ, List, None, length, IsTrue, IsOk, IsErr, IsErrOf, IfOk, IfErr, OnErr};
ghost use Rattle.std.specs.FinMap.{get, len};
ghost use Rattle.record_names.specs.Names.{is_account_name};
ghost use Rattle.share_api.specs.Conditions.{IsOf};
ghost use Rattle.vault_crypt.specs.VaultFile.{IsFileName};
ghost use Rattle.stored_home.specs.Loaded.{HasFactors};
ghost use Rattle.stored_home.specs.Sizes.{IsShort};
ghost use Rattle.stored_home.specs.Coherent.{IsCoherent};
ghost use Rattle.home_edits.specs.Costs.{PutsCost};
ghost use Rattle.home_edits.specs.Files.{EditsFile, IsFilePut, ReadsFile, Shows, IsReadFileFault, file_in, with_file};

use crate::commit::{put_one, told_fault};
use crate::record_put::{RecordPut, file_bytes, file_record};
use ct_bytes::{Blob, NoMemory, Text};
use name_map::{Copied, NameMap};
use record_names::RecordName;
use share_api::Share;
use std::alloc::Global;
use stored_home::{Kept, StoreFault, Stored};
use vault_crypt::{MAX_FILE, VaultFault, open_file};

// The files with one of this name.
fn one_more(alloc: Global, files: &NameMap<Kept>, name: &str) -> Result<NameMap<Kept>, NoMemory>
    ensures value { IfOk result (λ made. made ≡ with_file files.now name.now) }
{
    let mut made = files.copy()?;
    made.insert(Text::from_str(alloc, name)?, Kept)?;
    Ok(made)
}

/// A vault file that is to be put, made before the first device step.
#[derive(Debug, Drop)]
pub struct FilePut {
    /// The file's name.
    pub name: Text,
    /// The file's record: its bytes under the vault key.
    pub sealed: Blob,
    /// The loaded files with this one.
    pub files: NameMap<Kept>,
}

/// Makes what gives a vault file these bytes, at most 49,152.
///
/// `vault` is the home's vault key; no two files may be sealed under one key and IV. The file's name has 1 to
/// 64 bytes. Nothing is put yet.
pub fn seal_file_put(
    alloc: Global,
    files: &NameMap<Kept>,
    account: &str,
    name: &Text,
    vault: &[u8; 32],
    iv: [u8; 12],
    bytes: &[u8],
) -> Result<FilePut, NoMemory>
    requires plain { IsTrue (is_account_name account.now) }
    requires name { IsFileName name.now }
    requires size { length bytes.now ≤ MAX_FILE }
    ensures value { IfOk result (λ put. IsFilePut vault.now account.now bytes.now files.now put) }
    ensures name { IfOk result (λ put. put.name ≡ name.now) }
{
    let text = name.as_str();
    let sealed = file_bytes(alloc, account, text, vault, &iv, bytes)?;
    let files = one_more(alloc, files, text)?;
    let name = name.copy()?;
    Ok(FilePut {
        name,
        sealed,
        files,
    })
}

/// Puts a vault file. The put of its record is the one device step.
///
/// The one fault is `Failed`. After it `stored` is as it was, and whether the file was put shows in its record.
pub fn put_file<S: Share>(
    stored: &mut Stored,
    share: &mut S,
    account: &str,
    put: FilePut,
) -> Result<(), StoreFault>
    requires plain { IsTrue (is_account_name account.now) }
    requires own { IsOf (S.seen share.old).owner account.now }
    requires spare { 1 ≤ (S.seen share.old).spare }
    requires home { HasFactors stored.old }
    requires name { IsFileName put.name }
    requires size { length put.sealed ≤ 49181 }
    ensures edits { (vault bytes : List ℕ) → IsFilePut vault account.now bytes stored.old.files put
        → EditsFile (S.seen share.old) (S.seen share.new) account.now stored.old stored.new
        (IsOk result) (IsErrOf result StoreFault.Failed) vault bytes put }
    ensures cost { (cost : ℕ) → PutsCost (S.seen share.old) (S.seen share.new) account.now cost }
    ensures lost { stored.new.lost ≡ stored.old.lost }
    ensures err { OnErr result (stored.new ≡ stored.old) }
    ensures short { IsShort stored.old → IsShort stored.new }
    ensures coherent { put.files ≡ with_file stored.old.files put.name
        → (get stored.old.files put.name ≡ None → len stored.old.files < 256)
        → IsCoherent account.now stored.old → IsCoherent account.now stored.new }
    ensures only { IsErr result → IsErrOf result StoreFault.Failed }
    ensures goes { S.goes share.old share.new }
{
    let FilePut {
        name,
        sealed,
        files,
    } = put;
    let name = file_record(account, name.as_str());
    put_one(
        share,
        RecordPut {
            name,
            bytes: sealed,
        },
    )?;
    stored.files = files;
    Ok(())
}

/// The bytes of a vault file, by one device step. Nothing changes.
///
/// `vault` is the home's vault key. The faults are `Failed`, `NoMemory`, and `Damaged` with the name of the
/// file's record, where it isn't there, breaks its form or has another tag.
pub fn get_file<S: Share>(
    alloc: Global,
    share: &mut S,
    account: &str,
    name: &str,
    vault: &[u8; 32],
) -> Result<Blob, StoreFault>
    requires plain { IsTrue (is_account_name account.now) }
    requires own { IsOf (S.seen share.old).owner account.now }
    requires spare { 1 ≤ (S.seen share.old).spare }
    requires name { IsFileName name.now }
    ensures reads { ReadsFile (S.seen share.old) (S.seen share.new) account.now vault.now name.now result }
    ensures cost { (cost : ℕ) → PutsCost (S.seen share.old) (S.seen share.new) account.now cost }
    ensures only { IfErr result IsReadFileFault }
    ensures goes { S.goes share.old share.new }
{
    let named = file_record(account, name);
    match share.get(alloc, &named) {
        Ok(found) => opened(alloc, account, name, vault, &named, &found),
        Err(fault) => Err(told_fault(fault)),
    }
}

// The bytes of a file from its record.
fn opened(
    alloc: Global,
    account: &str,
    name: &str,
    vault: &[u8; 32],
    named: &RecordName,
    found: &Option<Blob>,
) -> Result<Blob, StoreFault>
    requires plain { IsTrue (is_account_name account.now) }
    requires name { IsFileName name.now }
    ensures value { Shows named.now result (file_in vault.now account.now name.now found.now) }
{
    let Some(sealed) = found else {
        return Err(StoreFault::Damaged(*named));
    };
    match open_file(alloc, vault, account, name, sealed.as_slice()) {
        Ok(bytes) => Ok(bytes),
        Err(VaultFault::NoMemory) => Err(StoreFault::NoMemory),
        Err(_) => Err(StoreFault::Damaged(*named)),
    }
}
