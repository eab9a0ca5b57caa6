//! The fields of request lines.

ghost use Rattle.std.specs.Prelude.{◌≡◌, ℕ, length, IfOk, option_map, codes};
ghost use Rattle.std.specs.List.{list_all};
ghost use Rattle.serde_json.specs.View.{view};
ghost use Rattle.home_names.specs.Names.{is_name_byte};
ghost use Rattle.client_lang.specs.Fields.{text_of, is_label, is_file_name, account_in, label_in, name_in, secret_in, intent_in, kind_in, token_of, token_in, whole, seconds_in};

use account_machine::{Intent, Kind, Token};
use hex::FromHex;
use home_names::is_account_name;
use serde_json::Value;

/// A member that is a text.
pub fn text<'a>(value: &'a Value, name: &str) -> Option<&'a str>
    ensures { option_map (λ t. t.now) result ≡ text_of name.now (view value.now) }
{
    value.get(name).and_then(Value::as_str)
}

// Whether all bytes are a to z and 0 to 9.
fn are_name_bytes(bytes: &[u8]) -> bool
    ensures { result ≡ list_all is_name_byte bytes.now }
{
    bytes
        .iter()
        .all(|byte| byte.is_ascii_lowercase() || byte.is_ascii_digit())
}

fn is_label(text: &str) -> bool
    ensures { result ≡ is_label text.now }
{
    let bytes = text.as_bytes();
    1 <= bytes.len() && bytes.len() <= 16 && are_name_bytes(bytes)
}

fn is_file_name(text: &str) -> bool
    ensures { result ≡ is_file_name text.now }
{
    1 <= text.len() && text.len() <= 64
}

pub fn account(value: &Value) -> Option<&str>
    ensures { option_map (λ t. t.now) result ≡ account_in (view value.now) }
{
    match text(value, "account") {
        Some(account) if is_account_name(account) => Some(account),
        _ => None,
    }
}

pub fn label(value: &Value) -> Option<&str>
    ensures { option_map (λ t. t.now) result ≡ label_in (view value.now) }
{
    match text(value, "label") {
        Some(label) if is_label(label) => Some(label),
        _ => None,
    }
}

pub fn name(value: &Value) -> Option<&str>
    ensures { option_map (λ t. t.now) result ≡ name_in (view value.now) }
{
    match text(value, "name") {
        Some(name) if is_file_name(name) => Some(name),
        _ => None,
    }
}

pub fn secret(value: &Value) -> Option<&str>
    ensures { option_map (λ t. t.now) result ≡ secret_in (view value.now) }
{
    text(value, "secret")
}

pub fn intent(value: &Value) -> Option<Intent>
    ensures { result ≡ intent_in (view value.now) }
{
    match text(value, "intent") {
        Some("decrypt") => Some(Intent::Decrypt),
        Some("verify") => Some(Intent::Verify),
        _ => None,
    }
}

pub fn kind(value: &Value) -> Option<Kind>
    ensures { result ≡ kind_in (view value.now) }
{
    match text(value, "kind") {
        Some("password") => Some(Kind::Password),
        Some("pin") => Some(Kind::Pin),
        _ => None,
    }
}

// A token of its bytes.
fn token_of(bytes: &[u8; 24]) -> Token
    ensures { result ≡ token_of bytes.now }
{
    let mut number = [0; 8];
    number.copy_from_slice(&bytes[..8]);
    let mut tail = [0; 16];
    tail.copy_from_slice(&bytes[8..]);
    Token {
        number: u64::from_be_bytes(number),
        tail,
    }
}

pub fn token(value: &Value) -> Option<Token>
    ensures { result ≡ token_in (view value.now) }
{
    match <[u8; 24] as FromHex>::from_hex(text(value, "token")?) {
        Ok(bytes) => Some(token_of(&bytes)),
        Err(_) => None,
    }
}

/// A whole number, without fraction and exponent.
pub fn whole(value: &Value) -> Option<u64>
    ensures { result ≡ whole (view value.now) }
{
    value.as_u64()
}

pub fn seconds(value: &Value) -> Option<u64>
    ensures { result ≡ seconds_in (view value.now) }
{
    let seconds = whole(value.get("seconds")?)?;
    if 1 <= seconds && seconds <= 300 {
        Some(seconds)
    } else {
        None
    }
}
