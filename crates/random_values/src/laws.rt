//! Laws of stretches. Each function has an empty body: its contract is the law.

ghost use Rattle.std.specs.Prelude.{◌≡◌, ◌+◌, ◌++◌, ℕ, List};
ghost use Rattle.random_values.specs.Stretches.{Place, moved, stretch};

/// A stretch is followed by the stretch that begins where it ends.
pub fn stretch_after_stretch()
    ensures { (key : List ℕ) (position one two : ℕ)
        → stretch key position (one + two) ≡ stretch key position one ++ stretch key (position + one) two }
{}

/// Some words and then more words move the place by all of them.
pub fn places_after_places()
    ensures { (place : Place) (one two : ℕ) → moved (moved place one) two ≡ moved place (one + two) }
{}
