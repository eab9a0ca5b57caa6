//! What a locked value means.
ghost use Rattle.std.specs.Prelude.{ℕ, List};

/// A value that a lock keeps, with an entry for each turn that a caller had.
pub trait Tale {
    /// What a caller leaves behind with its turn.
    type Entry;

    /// The number of the caller who left the entry.
    ghost caller: { Self.Entry → ℕ };

    /// What the value that the lock was made with, the present value, and the entries so far are to
    /// one another.
    ghost stands: { Self → Self → List Self.Entry → Type 0 };
}
