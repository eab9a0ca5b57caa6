//! Reading a text as a name.

ghost use Rattle.std.specs.Prelude.{◌≡◌, ℕ, ◌/◌, ◌^◌, ◌<◌, ◌≤◌, ◌∷◌, ◌++◌, length, Some, IsTrue, codes};
ghost use Rattle.std.specs.Option.{IsSomeAnd};
ghost use Rattle.std.specs.List.{list_all, position};
ghost use Rattle.std.specs.Str.{IsUtf8};
ghost use Rattle.std.specs.Fmt.{decimal};
ghost use Rattle.hex.specs.Hex.{encode_lower, IsBytes};
ghost use Rattle.record_names.specs.Names.{Bytes, Parts, AreParts, owner_of, name_of, tail_of};
ghost use Rattle.record_names.specs.Names.{is_full_stop, is_name_byte, is_account_name, is_factor_label, five_digits};
ghost use Rattle.record_names.specs.Names.{stash_name, factor_name, leaf_name, file_name};

use crate::name::RecordName;
use crate::spelling::{spell_factor, spell_file, spell_leaf, spell_stash};
use home_names::is_account_name;
use pw_path::Label;

/// The most bytes of a factor's label.
const MAX_FACTOR_LABEL: usize = 16;

/// The most bytes of a vault file's name.
const MAX_FILE_NAME: usize = 64;

// The index of the first full stop.
fn full_stop_at(bytes: &[u8]) -> Option<usize>
    ensures { result ≡ position is_full_stop bytes.now }
{
    bytes.iter().position(|byte| *byte == b'.')
}

// What stands before the first full stop, and what stands behind it.
fn split_at_full_stop(bytes: &[u8]) -> Option<(&[u8], &[u8])>
    ensures { (front rest : Bytes) → IsTrue (list_all is_name_byte front) → bytes.now ≡ front ++ 46 ∷ rest
        → IsSomeAnd result (λ both. (both.0.now ≡ front) × (both.1.now ≡ rest)) }
{
    let at = full_stop_at(bytes)?;
    Some((&bytes[..at], &bytes[at + 1..]))
}

// Whether this is an account's name.
fn is_account(bytes: &[u8]) -> bool
    ensures { result ≡ is_account_name bytes.now }
{
    match str::from_utf8(bytes) {
        Ok(text) => is_account_name(text),
        Err(_) => false,
    }
}

// Whether this is a factor's label: its bytes are those of an account's name, and there are fewer.
fn is_factor_label(label: &[u8]) -> bool
    ensures { result ≡ is_factor_label label.now }
{
    label.len() <= MAX_FACTOR_LABEL && is_account(label)
}

// The number that is written in decimal.
fn edition_of(digits: &[u8]) -> Option<u64>
    ensures { (edition : ℕ) → edition < 2 ^ 64 → digits.now ≡ decimal edition → result ≡ Some edition }
{
    let Ok(text) = str::from_utf8(digits) else {
        return None;
    };
    text.parse::<u64>().ok()
}

// The label that is written in five digits.
fn label_of(digits: &[u8]) -> Option<Label>
    ensures { (label : ℕ) → label < 16384 → digits.now ≡ five_digits label → result ≡ Some label }
{
    let Ok(text) = str::from_utf8(digits) else {
        return None;
    };
    let Ok(number) = text.parse::<u16>() else {
        return None;
    };
    Label::new(number)
}

// The name of a factor's record, by what follows `ACCOUNT.fac.`.
fn read_factor(account: &[u8], rest: &[u8]) -> Option<RecordName>
    requires { IsTrue (is_account_name account.now) }
    ensures { (label : Bytes) (edition : ℕ) → IsTrue (is_factor_label label) → edition < 2 ^ 64
        → rest.now ≡ label ++ 46 ∷ decimal edition → result ≡ Some (factor_name account.now label edition) }
{
    let (label, digits) = split_at_full_stop(rest)?;
    if !is_factor_label(label) {
        return None;
    }
    let edition = edition_of(digits)?;
    Some(spell_factor(account, label, edition))
}

// The name of a leaf's record, by what follows `ACCOUNT.leaf.`.
fn read_leaf(account: &[u8], digits: &[u8]) -> Option<RecordName>
    requires { IsTrue (is_account_name account.now) }
    ensures { (label : ℕ) → label < 16384 → digits.now ≡ five_digits label → result ≡ Some (leaf_name account.now label) }
{
    let label = label_of(digits)?;
    Some(spell_leaf(account, label))
}

// Decodes hex that is text, and says whether it is.
fn decode_text(digits: &[u8], text: &mut [u8]) -> bool
    requires { length text.old ≡ length digits.now / 2 }
    ensures found { (name : Bytes) → IsBytes name → IsUtf8 name → digits.now ≡ encode_lower name
        → IsTrue result × (text.new ≡ name) }
    ensures text { IsTrue result → IsUtf8 text.new }
{
    let Ok(()) = hex::decode_to_slice(digits, text) else {
        return false;
    };
    str::from_utf8(text).is_ok()
}

// The name of a vault file's record, by what follows `ACCOUNT.file.`.
fn read_file(account: &[u8], digits: &[u8]) -> Option<RecordName>
    requires { IsTrue (is_account_name account.now) }
    ensures { (name : Bytes) → 1 ≤ length name → length name ≤ 64 → IsBytes name → IsUtf8 name
        → digits.now ≡ encode_lower name → result ≡ Some (file_name account.now name) }
{
    let size = digits.len() / 2;
    if size < 1 || size > MAX_FILE_NAME {
        return None;
    }
    let mut room = [0u8; MAX_FILE_NAME];
    let name = &mut room[..size];
    if !decode_text(digits, name) {
        return None;
    }
    Some(spell_file(account, name))
}

// The name by what follows the account and its full stop.
fn read_rest(account: &[u8], rest: &[u8]) -> Option<RecordName>
    requires { IsTrue (is_account_name account.now) }
    ensures { (parts : Parts) → AreParts parts → owner_of parts ≡ account.now → rest.now ≡ tail_of parts → result ≡ Some (name_of parts) }
{
    if rest == b"stash".as_slice() {
        return Some(spell_stash(account));
    }
    if let Some(factor) = rest.strip_prefix(b"fac.") {
        return read_factor(account, factor);
    }
    if let Some(digits) = rest.strip_prefix(b"leaf.") {
        return read_leaf(account, digits);
    }
    let digits = rest.strip_prefix(b"file.")?;
    read_file(account, digits)
}

// The name whose parts the text shows, if it is one. A text that shows them in another way, as with a
// leading zero, is another text than its name.
pub(crate) fn read_parts(text: &str) -> Option<RecordName>
    ensures { (parts : Parts) → AreParts parts → text.now ≡ name_of parts → result ≡ Some text.now }
{
    let (account, rest) = split_at_full_stop(text.as_bytes())?;
    if !is_account(account) {
        return None;
    }
    read_rest(account, rest)
}

// The label of a leaf's name.
pub(crate) fn read_label(name: &[u8]) -> Option<Label>
    ensures { (account : Bytes) (label : ℕ) → IsTrue (is_account_name account) → label < 16384
        → name.now ≡ leaf_name account label → result ≡ Some label }
{
    let (_, rest) = split_at_full_stop(name)?;
    let digits = rest.strip_prefix(b"leaf.")?;
    label_of(digits)
}
