//! The grammars of account names and of factor labels.

ghost use Rattle.std.specs.Prelude.{◌≡◌};
ghost use Rattle.std.specs.List.{list_all};
ghost use Rattle.home_names.specs.Names.{is_name_byte, is_account_name, is_factor_label};

/// The most bytes of an account name.
const MAX_ACCOUNT_NAME: usize = 32;

/// The most bytes of a factor label.
const MAX_FACTOR_LABEL: usize = 16;

// Whether the byte is one of `a` to `z` and `0` to `9`.
fn is_name_byte(byte: u8) -> bool
    ensures value { result ≡ is_name_byte byte }
{
    byte.is_ascii_lowercase() || byte.is_ascii_digit()
}

// Whether all bytes are such.
fn are_name_bytes(bytes: &[u8]) -> bool
    ensures value { result ≡ list_all is_name_byte bytes.now }
{
    bytes.iter().all(|byte| is_name_byte(*byte))
}

/// Whether this is an account name: 1 to 32 of `a` to `z` and `0` to `9`.
pub fn is_account_name(name: &str) -> bool
    ensures value { result ≡ is_account_name name.now }
{
    let bytes = name.as_bytes();
    if bytes.is_empty() || bytes.len() > MAX_ACCOUNT_NAME {
        return false;
    }
    are_name_bytes(bytes)
}

/// Whether this is a factor label: 1 to 16 of `a` to `z` and `0` to `9`.
pub fn is_factor_label(label: &str) -> bool
    ensures value { result ≡ is_factor_label label.now }
{
    let bytes = label.as_bytes();
    if bytes.is_empty() || bytes.len() > MAX_FACTOR_LABEL {
        return false;
    }
    are_name_bytes(bytes)
}
