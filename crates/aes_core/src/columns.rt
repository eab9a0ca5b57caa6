//! One column of a round (FIPS 197, 5.1), by a table for each row.

ghost use Rattle.std.specs.Prelude.{◌≡◌, [], ◌∷◌};
ghost use Rattle.std.specs.Int.{w32, to_be_bytes, byte_at};
ghost use Rattle.aes_core.specs.Field.{s_box};
ghost use Rattle.aes_core.specs.Aes.{mix_column, xor_bytes};

use crate::tables::{S_BOX, T0, T1, T2, T3};

// The S-box at a byte.
#[inline(always)]
#[tactic(auto, using(crate::proofs::TableRules::S_BOX_rule))]
pub(crate) fn s_box(byte: u8) -> u8
    ensures { result ≡ s_box byte }
{
    S_BOX[byte as usize]
}

// A column of a round: SubBytes, ShiftRows, MixColumns and AddRoundKey.
#[inline(always)]
pub(crate) fn column(a: u32, b: u32, c: u32, d: u32, key: u32) -> u32
    ensures { to_be_bytes w32 result ≡ xor_bytes
        (mix_column (s_box (byte_at 3 a)) (s_box (byte_at 2 b)) (s_box (byte_at 1 c)) (s_box (byte_at 0 d)))
        (to_be_bytes w32 key) }
{
    let t0 = T0[(a >> 24) as usize];
    let t1 = T1[((b >> 16) & 255) as usize];
    let t2 = T2[((c >> 8) & 255) as usize];
    let t3 = T3[(d & 255) as usize];
    t0 ^ t1 ^ t2 ^ t3 ^ key
}

// A column of the last round, which has no MixColumns.
#[inline(always)]
pub(crate) fn last_column(a: u32, b: u32, c: u32, d: u32, key: u32) -> u32
    ensures { to_be_bytes w32 result ≡ xor_bytes
        (s_box (byte_at 3 a) ∷ s_box (byte_at 2 b) ∷ s_box (byte_at 1 c) ∷ s_box (byte_at 0 d) ∷ [])
        (to_be_bytes w32 key) }
{
    let word = u32::from_be_bytes([
        s_box((a >> 24) as u8),
        s_box(((b >> 16) & 255) as u8),
        s_box(((c >> 8) & 255) as u8),
        s_box((d & 255) as u8),
    ]);
    word ^ key
}
