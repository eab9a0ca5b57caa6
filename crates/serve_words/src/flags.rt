//! The options in front of the directory.

ghost use Rattle.std.specs.Prelude.{◌≡◌, ℕ, map, string_bytes, Option, option_map};
ghost use Rattle.serve_words.specs.Words.{behind, value_in, option_at, options_at};

// What follows `front` in a word that begins with it.
fn behind<'a>(front: &[u8], word: &'a [u8]) -> Option<&'a [u8]>
    ensures { option_map (λ rest. rest.now) result ≡ behind front.now word.now }
{
    word.strip_prefix(front)
}

// The value in a word that begins with the option's name and `=`.
fn value_in<'a>(name: &[u8], word: &'a [u8]) -> Option<&'a [u8]>
    ensures { option_map (λ value. value.now) result ≡ value_in name.now word.now }
{
    behind(b"=", behind(name, word)?)
}

// The value of an option that stands first, and the words behind it. Where it doesn't, all the words.
fn option_at<'a>(name: &[u8], words: &'a [String]) -> (Option<&'a [u8]>, &'a [String])
    ensures { (option_map (λ value. value.now) result.0, map string_bytes result.1.now)
        ≡ option_at name.now (map string_bytes words.now) }
{
    let Some((first, rest)) = words.split_first() else {
        return (None, words);
    };
    if first.as_bytes() == name {
        return match rest.split_first() {
            Some((value, rest)) => (Some(value.as_bytes()), rest),
            None => (None, words),
        };
    }
    match value_in(name, first.as_bytes()) {
        Some(value) => (Some(value), rest),
        None => (None, words),
    }
}

/// The options in front of words, and the words behind them.
#[derive(Clone, Copy)]
pub struct Options<'a> {
    pub clients: Option<&'a [u8]>,
    pub cost: Option<&'a [u8]>,
    pub rest: &'a [String],
}

/// The values of `--clients` and of `--cost`, in either order and each at most once, and the words behind them.
pub fn options_at(words: &[String]) -> Options<'_>
    ensures clients { option_map (λ value. value.now) result.clients
        ≡ (options_at (map string_bytes words.now)).clients }
    ensures cost { option_map (λ value. value.now) result.cost
        ≡ (options_at (map string_bytes words.now)).cost }
    ensures rest { map string_bytes result.rest.now ≡ (options_at (map string_bytes words.now)).rest }
{
    let (first, rest) = option_at(b"--clients", words);
    let (cost, rest) = option_at(b"--cost", rest);
    let (clients, rest) = match first {
        Some(value) => (Some(value), rest),
        None => option_at(b"--clients", rest),
    };
    Options {
        clients,
        cost,
        rest,
    }
}
