//! What gives each line its moment.

ghost use Rattle.std.specs.Prelude.{ℕ, List, [], ◌∷◌, Option};
ghost use Rattle.fault_count.specs.Told.{Gives};

/// A clock that tells the numbers that it gave where it can.
pub trait Clock {
    /// The numbers that it gave so far, in order, where they are told.
    ghost given: { Self → Option (List ℕ) };

    /// A number of seconds. It may be any number, and may be less than the last.
    fn now(&mut self) -> u64
        ensures { Gives (given self.old) (given self.new) (result ∷ []) };
}
