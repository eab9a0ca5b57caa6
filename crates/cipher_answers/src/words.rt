//! The words of a line.

ghost use Rattle.std.specs.Prelude.{◌<◌, ◌^◌, length, IfOk};

use anyhow::{Context, bail};
use std::alloc::Global;
use std::str::SplitWhitespace;

/// A word's bytes are fewer than these.
pub const MOST_BYTES: usize = 1 << 20;

/// The bytes of the next word.
pub fn bytes(alloc: Global, words: &mut SplitWhitespace) -> anyhow::Result<Vec<u8>>
    ensures { IfOk result (λ bytes. length bytes.items < 2 ^ 20) }
{
    let word = words.next().context("a word is missing")?;
    if word == "-" {
        return Ok(Vec::new(alloc));
    }
    let found = hex::decode(alloc, word).ok().context("a word isn't hex")?;
    if found.len() >= MOST_BYTES {
        bail!("a word is too long");
    }
    Ok(found)
}

/// The bytes of the next word, which are `N`.
pub fn array<const N: usize>(
    alloc: Global,
    words: &mut SplitWhitespace,
) -> anyhow::Result<[u8; N]> {
    let found = bytes(alloc, words)?;
    if found.len() != N {
        bail!("a word has another length");
    }
    let mut array = [0u8; N];
    array.copy_from_slice(&found);
    Ok(array)
}

/// The number that the next word is.
pub fn number(words: &mut SplitWhitespace) -> anyhow::Result<u32> {
    let word = words.next().context("a number is missing")?;
    word.parse::<u32>().ok().context("a word is no number")
}
