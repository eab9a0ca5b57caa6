//! Where the replies to a client go.

ghost use Rattle.std.specs.Prelude.{◌≡◌, ℕ, List, ◌++◌, take, OnOk, OnErr, IsErr, Option};
ghost use Rattle.fault_count.specs.Causes.{HasCause};
ghost use Rattle.fault_count.specs.Told.{Becomes};

use fault_count::Failed;

/// A sink that counts its faults, and tells what was written where it can.
pub trait Sink {
    /// The bytes that were written, where they are told.
    ghost written: { Self → Option (List ℕ) };

    /// How often it has failed. Never falls; stays at the top of a `u64`.
    ghost faults: { Self → ℕ };

    /// Writes all of `bytes`, or at a fault the first of them.
    ///
    /// A sink over a real stream hands them on before it answers, since the client may wait for them.
    fn write(&mut self, bytes: &[u8]) -> Result<(), Failed>
        ensures ok { OnOk result (
            Becomes (written self.old) (written self.new) (λ old new. new ≡ old ++ bytes.now)) }
        ensures err { OnErr result (
            Becomes (written self.old) (written self.new) (λ old new. (count : ℕ) × (new ≡ old ++ take count bytes.now))) }
        ensures cause { HasCause (faults self.old) (faults self.new) (IsErr result) };
}
