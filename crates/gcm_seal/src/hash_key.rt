//! A hash key with its products by four bits.

ghost use Rattle.std.specs.Prelude.{◌≡◌, ◌*◌, ◌<◌, bit_xor};
ghost use Rattle.std.specs.Int.{bit_at};
ghost use Rattle.gcm_seal.specs.Field128.{shifted, product};
ghost use Rattle.gcm_seal.specs.Horner.{horner, IsTable};

use crate::field::shifted;
use std::marker::Model;

// What four bits that fall off at once leave in the 16 high bits: the reductions of their four shifts.
#[rattlefmt::skip]
const REDUCTIONS: [u16; 16] = [
    0x0000, 0x1c20, 0x3840, 0x2460, 0x7080, 0x6ca0, 0x48c0, 0x54e0,
    0xe100, 0xfd20, 0xd940, 0xc560, 0x9180, 0x8da0, 0xa9c0, 0xb5e0,
];

// One more bit of Horner's rule, bit `k` of `x`.
fn step(x: u128, h: u128, z: u128, k: u32) -> u128
    requires { k < 128 }
    ensures { result ≡ bit_xor (bit_at x k * h) (shifted z) }
{
    let added = if (x >> k) & 1 == 1 { h } else { 0 };
    added ^ shifted(z)
}

// The product of `h` with the four lowest bits of `n`.
fn entry(n: u128, h: u128) -> u128
    ensures { result ≡ horner n h 4 }
{
    let z0 = step(n, h, 0, 0);
    let z1 = step(n, h, z0, 1);
    let z2 = step(n, h, z1, 2);
    step(n, h, z2, 3)
}

// The products of `h` with each four bits.
fn table(h: u128) -> [u128; 16]
    ensures { IsTable result h }
{
    let mut products = [0u128; 16];
    'entries: for n in 0..16usize {
        products[n] = entry(n as u128, h);
    }
    products
}

/// A hash key (SP 800-38D, 7.1, step 1), ready for fast products.
///
/// Contracts see it as the key's block, read as a big-endian number.
#[derive(Drop)]
pub struct HashKey {
    // Entry `n` is the product with the four bits of `n`; entry 8 is the key itself.
    products: [u128; 16],
}

impl Model for HashKey {
    ghost use Rattle.std.specs.Prelude.{ℕ, slice_index};
    ghost use Rattle.gcm_seal.specs.Horner.{IsTable};

    ghost Value = { ℕ };

    ghost view = { λ k. slice_index k.products 8 };

    ghost invariant = { λ k. IsTable k.products (slice_index k.products 8) };
}

impl HashKey {
    /// The key of a block.
    pub fn new(block: u128) -> HashKey
        ensures { result ≡ block }
    {
        HashKey {
            products: table(block),
        }
    }

    /// The product of a block with the key in GF(2^128), four bits at a time.
    pub fn product(&self, x: u128) -> u128
        ensures { result ≡ product x self.now }
    {
        let mut z = 0u128;
        'parts: for i in 0..32u32 {
            let low = (z & 15) as usize;
            let next = ((x >> (4 * i)) & 15) as usize;
            let reduction = u128::from(REDUCTIONS[low]) << 112;
            z = (z >> 4) ^ reduction ^ self.products[next];
        }
        z
    }
}
