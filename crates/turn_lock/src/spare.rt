//! The spare numbers of a seat that joined another.
ghost use Rattle.std.specs.Prelude.{◌≡◌, ℕ, ◌-◌, ◌≤◌, ◌++◌};
ghost use Rattle.std.specs.List.{range_with_len};
ghost use Rattle.turn_lock.specs.Lists.{count_of};

// The first spare number of two seats, of which one has none.
pub(crate) fn spare_of_both(spare: u32, theirs: u32, end: u32) -> u32
    // No number is spare at both seats.
    requires { (number : ℕ) → count_of number
        (range_with_len spare (end - spare) ++ range_with_len theirs (end - theirs)) ≤ 1 }
    ensures { range_with_len spare (end - spare) ++ range_with_len theirs (end - theirs)
        ≡ range_with_len result (end - result) }
{
    if spare < end {
        return spare;
    }
    theirs
}
