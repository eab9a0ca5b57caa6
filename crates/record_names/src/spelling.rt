//! How the names are spelled.

ghost use Rattle.std.specs.Prelude.{◌≡◌, ◌+◌, ◌*◌, ◌≤◌, ◌<◌, ◌++◌, length, IsTrue};
ghost use Rattle.std.specs.Fmt.{decimal};
ghost use Rattle.std.specs.Str.{IsUtf8};
ghost use Rattle.hex.specs.Hex.{encode_lower};
ghost use Rattle.record_names.specs.Names.{is_account_name, is_factor_label, five_digits};
ghost use Rattle.record_names.specs.Names.{stash_name, factor_name, leaf_name, file_name};

use crate::name::RecordName;
use crate::name_bytes::NameBytes;
use itoa::Buffer;
use pw_path::Label;

// Adds a number in decimal.
fn push_decimal(bytes: &mut NameBytes, number: u64)
    requires { length bytes.old ≤ 146 }
    ensures { bytes.new ≡ bytes.old ++ decimal number }
{
    let mut buffer = Buffer::new();
    bytes.push(buffer.format(number).as_bytes());
}

// Adds a number below 100,000 in five decimal digits.
fn push_five_digits(bytes: &mut NameBytes, number: u32)
    requires number { number < 100000 }
    requires room { length bytes.old ≤ 161 }
    ensures { bytes.new ≡ bytes.old ++ five_digits number }
{
    bytes.push(&[
        b'0' + (number / 10_000) as u8,
        b'0' + (number / 1_000 % 10) as u8,
        b'0' + (number / 100 % 10) as u8,
        b'0' + (number / 10 % 10) as u8,
        b'0' + (number % 10) as u8,
    ]);
}

// Adds bytes in lower-case hex.
fn push_hex(bytes: &mut NameBytes, name: &[u8])
    requires few { length name.now ≤ 64 }
    requires room { length bytes.old + 2 * length name.now ≤ 166 }
    ensures { bytes.new ≡ bytes.old ++ encode_lower name.now }
{
    let mut room = [0u8; 128];
    let digits = &mut room[..2 * name.len()];
    let Ok(()) = hex::encode_to_slice(name, digits) else {
        unreachable!()
    };
    bytes.push(digits);
}

// The name of the account's stash.
pub(crate) fn spell_stash(account: &[u8]) -> RecordName
    requires { IsTrue (is_account_name account.now) }
    ensures { result ≡ stash_name account.now }
{
    let mut bytes = NameBytes::new();
    bytes.push(account);
    bytes.push(b".stash");
    RecordName { bytes }
}

// The name of a factor's record.
pub(crate) fn spell_factor(account: &[u8], label: &[u8], edition: u64) -> RecordName
    requires account { IsTrue (is_account_name account.now) }
    requires label { IsTrue (is_factor_label label.now) }
    ensures { result ≡ factor_name account.now label.now edition }
{
    let mut bytes = NameBytes::new();
    bytes.push(account);
    bytes.push(b".fac.");
    bytes.push(label);
    bytes.push(b".");
    push_decimal(&mut bytes, edition);
    RecordName { bytes }
}

// The name of a leaf's record.
pub(crate) fn spell_leaf(account: &[u8], label: Label) -> RecordName
    requires { IsTrue (is_account_name account.now) }
    ensures { result ≡ leaf_name account.now label }
{
    let mut bytes = NameBytes::new();
    bytes.push(account);
    bytes.push(b".leaf.");
    push_five_digits(&mut bytes, u32::from(label.number()));
    RecordName { bytes }
}

// The name of a vault file's record.
pub(crate) fn spell_file(account: &[u8], name: &[u8]) -> RecordName
    requires account { IsTrue (is_account_name account.now) }
    requires least { 1 ≤ length name.now }
    requires most { length name.now ≤ 64 }
    requires text { IsUtf8 name.now }
    ensures { result ≡ file_name account.now name.now }
{
    let mut bytes = NameBytes::new();
    bytes.push(account);
    bytes.push(b".file.");
    push_hex(&mut bytes, name);
    RecordName { bytes }
}
