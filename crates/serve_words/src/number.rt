//! The numbers of options.

ghost use Rattle.std.specs.Prelude.{◌≡◌, ◌<◌, ◌^◌};
ghost use Rattle.std.specs.Char.{is_ascii_digit};
ghost use Rattle.std.specs.List.{list_all};
ghost use Rattle.serve_words.specs.Words.{number_of, clients_of, cost_of};

/// The most digits of a number of clients.
const CLIENT_DIGITS: usize = 10;

/// The most digits of a cost.
const COST_DIGITS: usize = 2;

// Whether these are decimal digits.
fn are_digits(bytes: &[u8]) -> bool
    ensures { result ≡ list_all is_ascii_digit bytes.now }
{
    bytes.iter().all(|byte| byte.is_ascii_digit())
}

// The number that 1 to `most` decimal digits write.
fn number_of(most: usize, digits: &[u8]) -> Option<u64>
    requires { 10 ^ most < 2 ^ 64 }
    ensures { result ≡ number_of most digits.now }
{
    if digits.is_empty() || digits.len() > most || !are_digits(digits) {
        return None;
    }
    let Ok(text) = str::from_utf8(digits) else {
        return None;
    };
    text.parse::<u64>().ok()
}

/// The number of clients that 1 to 10 digits write.
pub fn clients_of(digits: &[u8]) -> Option<u64>
    ensures value { result ≡ clients_of digits.now }
{
    number_of(CLIENT_DIGITS, digits)
}

/// The cost that 1 or 2 digits write, from 1 to 16.
pub fn cost_of(digits: &[u8]) -> Option<u8>
    ensures value { result ≡ cost_of digits.now }
{
    let cost = number_of(COST_DIGITS, digits)?;
    if cost >= 1 && cost <= 16 {
        Some(cost as u8)
    } else {
        None
    }
}
