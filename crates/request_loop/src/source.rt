//! Where the bytes of a client come from.

ghost use Rattle.std.specs.Prelude.{◌≡◌, ◌+◌, ◌-◌, ◌^◌, ◌<◌, ◌≤◌, ◌↔◌, min, ℕ, List, [], ◌++◌, length, take, IfOk, OnErr, IsErr, Option};
ghost use Rattle.fault_count.specs.Causes.{HasCause};
ghost use Rattle.fault_count.specs.Told.{Becomes};

use fault_count::Failed;

/// A source that counts its bytes and its faults, and tells which bytes are left where it can.
pub trait Source {
    /// The bytes that are left, where they are told.
    ghost left: { Self → Option (List ℕ) };

    /// How many bytes it has given. Stays at the top of a `u64`, where one that doesn't count stands.
    ghost taken: { Self → ℕ } = { λ _. 2 ^ 64 - 1 };

    /// How often it has failed. Never falls; stays at the top of a `u64`.
    ghost faults: { Self → ℕ };

    /// Takes bytes into the front of `buf`, which isn't empty, and answers how many.
    ///
    /// 0 is the end of the input. A fault takes nothing.
    fn read(&mut self, buf: &mut [u8]) -> Result<usize, Failed>
        requires { 0 < length buf.old }
        ensures within { IfOk result (λ count. count ≤ length buf.new) }
        // The bytes that were left begin with those that are read.
        ensures ok { IfOk result (λ count.
            Becomes (left self.old) (left self.new) (λ old new. old ≡ take count buf.new ++ new)) }
        // 0 comes exactly where nothing is left.
        ensures end { IfOk result (λ count.
            Becomes (left self.old) (left self.new) (λ old new. (count ≡ 0) ↔ (old ≡ []))) }
        ensures taken { IfOk result (λ count. taken self.new ≡ min (taken self.old + count) (2 ^ 64 - 1)) }
        ensures err { OnErr result (left self.new ≡ left self.old) }
        ensures none_taken { OnErr result (taken self.new ≡ taken self.old) }
        ensures cause { HasCause (faults self.old) (faults self.new) (IsErr result) };
}
