//! BlockMix on 2 r blocks of 16 words.

ghost use Rattle.std.specs.Prelude.{◌≡◌, ℕ, ◌+◌, ◌-◌, ◌*◌, ◌<◌, ◌≤◌, length};
ghost use Rattle.scrypt_kdf.specs.Lists.{joined};
ghost use Rattle.scrypt_kdf.specs.BlockMix.{chained, block_mix};

use crate::salsa::{block_of, salsa, words_of, xored};

// The blocks of BlockMix: those of even numbers, and those of odd ones.
fn mix_halves(r: usize, b: &[u32], evens: &mut [u32], odds: &mut [u32])
    requires r { (0 < r) × (r ≤ 8) }
    requires b { length b.now ≡ 32 * r }
    requires evens { length evens.old ≡ 16 * r }
    requires odds { length odds.old ≡ 16 * r }
    ensures evens { evens.new ≡ joined (λ i. chained r b.now (2 * i + 1)) r }
    ensures odds { odds.new ≡ joined (λ i. chained r b.now (2 * i + 2)) r }
{
    let mut x = block_of(&b[16 * (2 * r - 1)..]);
    'pairs: for i in 0..r {
        x = salsa(xored(x, &b[16 * (2 * i)..16 * (2 * i) + 16]));
        evens[16 * i..16 * i + 16].copy_from_slice(&words_of(x));
        x = salsa(xored(x, &b[16 * (2 * i + 1)..16 * (2 * i + 1) + 16]));
        odds[16 * i..16 * i + 16].copy_from_slice(&words_of(x));
    }
}

// BlockMix of b, into y.
pub(crate) fn block_mix(r: usize, b: &[u32], y: &mut [u32])
    requires r { (0 < r) × (r ≤ 8) }
    requires b { length b.now ≡ 32 * r }
    requires y { length y.old ≡ 32 * r }
    ensures { y.new ≡ block_mix r b.now }
{
    let (evens, odds) = y.split_at_mut(16 * r);
    mix_halves(r, b, evens, odds);
}
