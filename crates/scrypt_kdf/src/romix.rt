//! ROMix on a block of 128 r bytes, as 32 r words.

ghost use Rattle.std.specs.Prelude.{◌≡◌, ℕ, ◌+◌, ◌-◌, ◌*◌, ◌%◌, ◌^◌, ◌<◌, ◌≤◌, List, length, slice_index, take, drop, bit_xor, vec_capacity};
ghost use Rattle.std.specs.Int.{IsPowerOfTwo};
ghost use Rattle.scrypt_kdf.specs.Lists.{joined, xor_words};
ghost use Rattle.scrypt_kdf.specs.Romix.{filled, turned_by, romix};

use crate::block_mix::block_mix;

// b under xor with the words of row.
fn xor_row(b: &mut [u32], row: &[u32])
    requires { length b.old ≡ length row.now }
    ensures { b.new ≡ xor_words b.old row.now }
{
    'words: for k in 0..b.len() {
        b[k] ^= row[k];
    }
}

// Row j of n rows.
#[tactic(auto, using(std::proofs::lemmas::Nat::rows))]
fn row(rows: &[u32], width: usize, n: usize, j: usize) -> &[u32]
    requires j { j < n }
    requires rows { length rows.now ≡ width * n }
    ensures row { result.now ≡ take width (drop (width * j) rows.now) }
    ensures len { length result.now ≡ width }
{
    &rows[width * j..width * j + width]
}

// ROMix of b, in place. The rows are those of V, one after another, and have room for all.
pub(crate) fn romix(rows: &mut Vec<u32>, r: usize, n: usize, b: &mut [u32])
    requires r { (0 < r) × (r ≤ 8) }
    requires power { IsPowerOfTwo n }
    requires n { n ≤ 2 ^ 20 }
    requires b { length b.old ≡ 32 * r }
    requires room { 32 * r * n ≤ vec_capacity rows.old }
    ensures value { b.new ≡ romix r b.old n }
    ensures room { 32 * r * n ≤ vec_capacity rows.new }
{
    let width = 32 * r;
    let mut y = [0u32; 256];
    rows.clear();
    'fill: for i in 0..n {
        rows.extend_from_slice(b).unwrap();
        block_mix(r, b, &mut y[..width]);
        b.copy_from_slice(&y[..width]);
    }
    'mix: for i in 0..n {
        // The number of the last block modulo a power of two is that of its first word.
        let j = (b[width - 16] as usize) % n;
        xor_row(b, row(rows, width, n, j));
        block_mix(r, b, &mut y[..width]);
        b.copy_from_slice(&y[..width]);
    }
}
