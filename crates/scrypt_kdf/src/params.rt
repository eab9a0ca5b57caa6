//! The parameters of scrypt.

ghost use Rattle.std.specs.Prelude.{◌≡◌, ℕ, ◌+◌, ◌*◌, ◌^◌, ◌<◌, ◌≤◌, ◌↔◌, IsTrue};

/// The parameters of scrypt (RFC 7914, section 2).
#[derive(Clone, Copy, Debug, PartialEq, Eq)]
pub struct Params {
    /// The cost N in memory and time: a power of two.
    pub n: u64,
    /// The block size r: a block has 128 r bytes.
    pub r: u32,
    /// The number of blocks p.
    pub p: u32,
}

impl Params {
    ghost use Rattle.scrypt_kdf.specs.Params.{IsAllowed};

    /// Whether `scrypt` takes these for an output of `len` bytes.
    pub fn is_allowed(&self, len: usize) -> bool
        ensures { IsTrue result ↔ IsAllowed self.now len }
    {
        if self.r < 1 || 8 < self.r || self.p < 1 || 64 < self.p || len < 1 || 1024 < len {
            return false;
        }
        // Of the two bounds on n above, the one that depends on r is the lower one at r = 1 alone.
        if self.n < 2 || 1 << 20 < self.n || (self.r == 1 && 1 << 16 <= self.n) {
            return false;
        }
        self.n.is_power_of_two()
    }
}
