//! What each primitive answers to its words.

ghost use Rattle.std.specs.Prelude.{◌<◌, ◌^◌, length, IfOk};

use crate::words::{MOST_BYTES, array, bytes, number};
use aes_core::{Aes128, Aes192, Aes256};
use anyhow::{Context, bail};
use gcm_seal::{KeySize, open_in_place, tag_with};
use hmac_sha::{mac, pbkdf2_one};
use scrypt_kdf::{Params, scrypt};
use sha2::{Digest, Sha256};
use std::alloc::Global;
use std::str::SplitWhitespace;

/// The answer to a line: bytes, or none where the primitive refused.
pub fn answer(alloc: Global, line: &str) -> anyhow::Result<Option<Vec<u8>>> {
    let mut words = line.split_whitespace();
    let name = words.next().context("a line is empty")?;
    if name == "aes" {
        block(alloc, &mut words).map(Some)
    } else if name == "ctr" {
        counter(alloc, &mut words).map(Some)
    } else if name == "seal" {
        sealed(alloc, &mut words).map(Some)
    } else if name == "open" {
        opened(alloc, &mut words)
    } else if name == "sha256" {
        digest(alloc, &mut words).map(Some)
    } else if name == "hmac" {
        code(alloc, &mut words).map(Some)
    } else if name == "pbkdf2" {
        filled(alloc, &mut words).map(Some)
    } else if name == "scrypt" {
        derived(alloc, &mut words)
    } else {
        bail!("no such primitive")
    }
}

// A copy of the bytes.
fn owned(alloc: Global, bytes: &[u8]) -> anyhow::Result<Vec<u8>> {
    let mut copy = Vec::new(alloc);
    copy.extend_from_slice(bytes)?;
    Ok(copy)
}

// Zeros, as many as a word says.
fn room(alloc: Global, words: &mut SplitWhitespace) -> anyhow::Result<Vec<u8>>
    ensures { IfOk result (λ out. length out.items < 2 ^ 20) }
{
    let len = number(words)? as usize;
    if len >= MOST_BYTES {
        bail!("too many bytes are asked for");
    }
    Ok(vec![in alloc; 0u8; len]?)
}

// aes KEY BLOCK: the block's encryption.
fn block(alloc: Global, words: &mut SplitWhitespace) -> anyhow::Result<Vec<u8>> {
    let key = bytes(alloc, words)?;
    let block = array::<16>(alloc, words)?;
    let encrypted = match key.len() {
        16 => Aes128::expand(&key).encrypt(block),
        24 => Aes192::expand(&key).encrypt(block),
        32 => Aes256::expand(&key).encrypt(block),
        _ => bail!("a key has another length"),
    };
    owned(alloc, &encrypted)
}

// ctr KEY FIRST TEXT: the text in counter mode.
fn counter(alloc: Global, words: &mut SplitWhitespace) -> anyhow::Result<Vec<u8>> {
    let key = bytes(alloc, words)?;
    let first = array::<16>(alloc, words)?;
    let mut text = bytes(alloc, words)?;
    match key.len() {
        16 => Aes128::expand(&key).ctr_xor(first, &mut text),
        24 => Aes192::expand(&key).ctr_xor(first, &mut text),
        32 => Aes256::expand(&key).ctr_xor(first, &mut text),
        _ => bail!("a key has another length"),
    }
    Ok(text)
}

// seal KEY IV AAD TEXT: the ciphertext and its tag.
fn sealed(alloc: Global, words: &mut SplitWhitespace) -> anyhow::Result<Vec<u8>> {
    let key = bytes(alloc, words)?;
    let iv = array::<12>(alloc, words)?;
    let aad = bytes(alloc, words)?;
    let mut text = bytes(alloc, words)?;
    let tag = match key.len() {
        16 => tag_with(KeySize::K128, &key, &iv, &aad, &mut text),
        24 => tag_with(KeySize::K192, &key, &iv, &aad, &mut text),
        32 => tag_with(KeySize::K256, &key, &iv, &aad, &mut text),
        _ => bail!("a key has another length"),
    };
    text.extend_from_slice(&tag)?;
    Ok(text)
}

// open KEY IV AAD TEXT TAG: the text of a ciphertext, under a key of 32 bytes.
fn opened(alloc: Global, words: &mut SplitWhitespace) -> anyhow::Result<Option<Vec<u8>>> {
    let key = array::<32>(alloc, words)?;
    let iv = array::<12>(alloc, words)?;
    let aad = bytes(alloc, words)?;
    let mut text = bytes(alloc, words)?;
    let tag = array::<16>(alloc, words)?;
    match open_in_place(&key, &iv, &aad, &mut text, &tag) {
        Ok(()) => Ok(Some(text)),
        Err(_) => Ok(None),
    }
}

// sha256 TEXT: the digest.
fn digest(alloc: Global, words: &mut SplitWhitespace) -> anyhow::Result<Vec<u8>> {
    let text = bytes(alloc, words)?;
    let digest: [u8; 32] = Sha256::digest(&text);
    owned(alloc, &digest)
}

// hmac KEY TEXT: the code of the text.
fn code(alloc: Global, words: &mut SplitWhitespace) -> anyhow::Result<Vec<u8>> {
    let key = bytes(alloc, words)?;
    let text = bytes(alloc, words)?;
    owned(alloc, &mac(&key, &text))
}

// pbkdf2 PASSWORD SALT LENGTH: so many bytes, by one turn.
fn filled(alloc: Global, words: &mut SplitWhitespace) -> anyhow::Result<Vec<u8>> {
    let password = bytes(alloc, words)?;
    let salt = bytes(alloc, words)?;
    let mut out = room(alloc, words)?;
    pbkdf2_one(&password, &salt, &mut out);
    Ok(out)
}

// scrypt PASSWORD SALT N R P LENGTH: so many bytes.
fn derived(alloc: Global, words: &mut SplitWhitespace) -> anyhow::Result<Option<Vec<u8>>> {
    let password = bytes(alloc, words)?;
    let salt = bytes(alloc, words)?;
    let params = Params {
        n: u64::from(number(words)?),
        r: number(words)?,
        p: number(words)?,
    };
    let mut out = room(alloc, words)?;
    match scrypt(alloc, &password, &salt, params, &mut out) {
        Ok(()) => Ok(Some(out)),
        Err(_) => Ok(None),
    }
}
