//! ROMix on blocks of bytes.

ghost use Rattle.std.specs.Prelude.{◌≡◌, ◌+◌, ◌*◌, ◌^◌, ◌<◌, ◌≤◌, length, vec_capacity};
ghost use Rattle.std.specs.Int.{IsPowerOfTwo};
ghost use Rattle.scrypt_kdf.specs.Scrypt.{mixed_block, mixed_blocks};

use crate::romix::romix;
use crate::words::{load, store};

// ROMix of a block of 128 r bytes, in place.
fn mix_block(rows: &mut Vec<u32>, r: usize, n: usize, block: &mut [u8])
    requires r { (0 < r) × (r ≤ 8) }
    requires power { IsPowerOfTwo n }
    requires n { n ≤ 2 ^ 20 }
    requires block { length block.old ≡ 128 * r }
    requires room { 32 * r * n ≤ vec_capacity rows.old }
    ensures value { block.new ≡ mixed_block r n block.old }
    ensures room { 32 * r * n ≤ vec_capacity rows.new }
{
    let mut buffer = [0u32; 256];
    let words = &mut buffer[..32 * r];
    load(block, words);
    romix(rows, r, n, words);
    store(words, block);
}

// ROMix of each of p blocks, in place.
#[tactic(auto, using(std::proofs::lemmas::Nat::rows))]
pub(crate) fn mix_blocks(rows: &mut Vec<u32>, r: usize, n: usize, p: usize, blocks: &mut [u8])
    requires r { (0 < r) × (r ≤ 8) }
    requires p { p ≤ 64 }
    requires power { IsPowerOfTwo n }
    requires n { n ≤ 2 ^ 20 }
    requires blocks { length blocks.old ≡ 128 * r * p }
    requires room { 32 * r * n ≤ vec_capacity rows.old }
    ensures { blocks.new ≡ mixed_blocks r n blocks.old p }
{
    let size = 128 * r;
    'mixed: for i in 0..p {
        mix_block(rows, r, n, &mut blocks[size * i..size * i + size]);
    }
}
