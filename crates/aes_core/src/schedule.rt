//! The key schedule (FIPS 197, 5.2).

ghost use Rattle.std.specs.Prelude.{◌≡◌, ◌+◌, ◌*◌, ◌%◌, ◌<◌, ◌≤◌, [], ◌∷◌, length, take, slice_index};
ghost use Rattle.std.specs.Int.{w32, to_be_bytes};
ghost use Rattle.aes_core.specs.Aes.{word_at, sub_word, round_constant, added, key_words, IsKeySize};
ghost use Rattle.aes_core.specs.Words.{key_of};

use crate::columns::s_box;
use crate::tables::ROUND_CONSTANTS;

// The word at byte `i`.
#[inline(always)]
pub(crate) fn load_word(bytes: &[u8], i: usize) -> u32
    requires { i + 4 ≤ length bytes.now }
    ensures value { result ≡ word_at bytes.now i }
    ensures bytes { to_be_bytes w32 result
        ≡ slice_index bytes.now i ∷ slice_index bytes.now (i + 1)
        ∷ slice_index bytes.now (i + 2) ∷ slice_index bytes.now (i + 3) ∷ [] }
{
    u32::from_be_bytes([bytes[i], bytes[i + 1], bytes[i + 2], bytes[i + 3]])
}

// SubWord.
fn sub_word(word: u32) -> u32
    ensures { result ≡ sub_word word }
{
    u32::from_be_bytes([
        s_box((word >> 24) as u8),
        s_box(((word >> 16) & 255) as u8),
        s_box(((word >> 8) & 255) as u8),
        s_box((word & 255) as u8),
    ])
}

// The round constant of step `j`, from 1.
#[tactic(auto, using(crate::proofs::TableRules::ROUND_CONSTANTS_rule))]
fn round_constant(j: usize) -> u32
    requires { (0 < j) × (j ≤ 14) }
    ensures { result ≡ round_constant j }
{
    ROUND_CONSTANTS[j - 1]
}

// What word `n` adds to the word `nk` before it, from the word before it.
#[tactic(auto, using(std::proofs::lemmas::Bool::Decides::nat_tests))]
fn added(nk: usize, before: u32, n: usize) -> u32
    requires { (4 ≤ nk) × (nk ≤ n) × (n < 60) }
    ensures { result ≡ added nk before n }
{
    if n % nk == 0 {
        sub_word(before.rotate_left(8)) ^ round_constant(n / nk)
    } else if nk > 6 && n % nk == 4 {
        sub_word(before)
    } else {
        before
    }
}

// The key schedule: `4 * (nr + 1)` words, and zeros after them.
pub(crate) fn expanded(nk: usize, nr: usize, key: &[u8]) -> [u32; 60]
    requires size { IsKeySize nk nr }
    requires key { length key.now ≡ 4 * nk }
    ensures words { take (4 * (nr + 1)) result ≡ key_words nk key.now (4 * (nr + 1)) }
    ensures key { key_of nk result ≡ key.now }
{
    let mut words = [0u32; 60];
    'first: for i in 0..nk {
        words[i] = load_word(key, 4 * i);
    }
    'more: for i in nk..4 * (nr + 1) {
        let before = words[i - 1];
        words[i] = words[i - nk] ^ added(nk, before, i);
    }
    words
}
