//! The vault files that are listed.

ghost use Rattle.std.specs.Prelude.{◌≡◌, ◌↔◌, ◌/◌, ◌≤◌, ◌++◌, ℕ, List, length, codes, Some, IsTrue, IfOk, IfSome};
ghost use Rattle.std.specs.Str.{IsUtf8};
ghost use Rattle.hex.specs.Hex.{encode_lower, IsBytes};
ghost use Rattle.record_names.specs.Names.{is_account_name, account_of, AreParts, File, file_name};
ghost use Rattle.home_recovery.specs.Parts.{AreFiles};
ghost use Rattle.home_recovery.specs.Sweeps.{IsFileRecord};

use ct_bytes::{NoMemory, Text};
use name_map::NameMap;
use share_api::RecordName;
use std::alloc::Global;
use stored_home::Kept;

/// The most bytes of a vault file's name.
const MAX_FILE_NAME: usize = 64;

/// How many bytes a vault file's name has between the account and the file.
const FILE_END: usize = 6;

// Decodes hex that is text, and says whether it is.
fn decode_text(digits: &[u8], text: &mut [u8]) -> bool
    requires { length text.old ≡ length digits.now / 2 }
    ensures found { (name : List ℕ) → IsBytes name → IsUtf8 name → digits.now ≡ encode_lower name
        → IsTrue result × (text.new ≡ name) }
    ensures text { IsTrue result → IsUtf8 text.new }
{
    let Ok(()) = hex::decode_to_slice(digits, text) else {
        return false;
    };
    str::from_utf8(text).is_ok()
}

// The text of these hex digits, if it has at most 64 bytes.
fn text_of(alloc: Global, digits: &[u8]) -> Result<Option<Text>, NoMemory>
    ensures { (name : List ℕ) → length name ≤ 64 → IsBytes name → IsUtf8 name → digits.now ≡ encode_lower name
        → IfOk result (λ text. text ≡ Some name) }
{
    let size = digits.len() / 2;
    if size > MAX_FILE_NAME {
        return Ok(None);
    }
    let mut room = [0u8; MAX_FILE_NAME];
    let name = &mut room[..size];
    if !decode_text(digits, name) {
        return Ok(None);
    }
    let Ok(text) = str::from_utf8(name) else {
        unreachable!()
    };
    Ok(Some(Text::from_str(alloc, text)?))
}

// The hex digits behind the account, where the name is a vault file's.
fn digits_of<'a>(account: &str, name: &'a RecordName) -> &'a [u8]
    requires { IsTrue (is_account_name account.now) }
    ensures { (file : List ℕ) → name.now ≡ file_name account.now file → result.now ≡ encode_lower file }
{
    let bytes = name.as_str().as_bytes();
    let start = account.len() + FILE_END;
    if start > bytes.len() {
        return &[];
    }
    &bytes[start..]
}

// Whether the name is that of this vault file.
fn is_name_of(account: &str, file: &str, name: &RecordName) -> bool
    requires { IsTrue (is_account_name account.now) }
    ensures is { IsTrue result → AreParts (File account.now file.now) × (name.now ≡ file_name account.now file.now) }
    ensures found { AreParts (File account.now file.now) → name.now ≡ file_name account.now file.now → IsTrue result }
{
    let size = file.len();
    1 <= size && size <= MAX_FILE_NAME && RecordName::file(account, file) == *name
}

// The vault file whose record's name this is, and `None` where it is another name.
fn file_of(alloc: Global, account: &str, name: &RecordName) -> Result<Option<Text>, NoMemory>
    requires { IsTrue (is_account_name account.now) }
    ensures is { IfOk result (λ file. IfSome file (λ f. AreParts (File account.now f) × (name.now ≡ file_name account.now f))) }
    ensures found { (file : List ℕ) → AreParts (File account.now file) → name.now ≡ file_name account.now file
        → IfOk result (λ found. found ≡ Some file) }
{
    let Some(file) = text_of(alloc, digits_of(account, name))? else {
        return Ok(None);
    };
    if is_name_of(account, file.as_str(), name) {
        Ok(Some(file))
    } else {
        Ok(None)
    }
}

/// Whether a record of the account is a vault file's, by its name.
pub(crate) fn is_file_record(account: &str, name: &RecordName) -> bool
    requires plain { IsTrue (is_account_name account.now) }
    requires own { account_of name.now ≡ account.now }
    ensures { IsTrue result ↔ IsFileRecord account.now name.now }
{
    let bytes = name.as_str().as_bytes();
    let start = account.len();
    let end = start + FILE_END;
    end <= bytes.len() && &bytes[start..end] == b".file.".as_slice()
}

/// The vault files whose records are listed, by name.
pub(crate) fn list_files(
    alloc: Global,
    account: &str,
    listed: &[RecordName],
) -> Result<NameMap<Kept>, NoMemory>
    requires { IsTrue (is_account_name account.now) }
    ensures files { IfOk result (λ files. AreFiles account.now listed.now files) }
{
    let mut files = NameMap::new(alloc);
    for name in listed {
        if let Some(file) = file_of(alloc, account, name)? {
            files.insert(file, Kept)?;
        }
    }
    Ok(files)
}
