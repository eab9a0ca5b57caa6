//! A law of what turns draw. Its function has an empty body: the contract is the law.

ghost use Rattle.std.specs.Prelude.{◌≡◌, ◌≤◌, ◌<◌, ◌+◌, ◌^◌, ℕ};
ghost use Rattle.random_values.specs.Stretches.{Place};
ghost use Rattle.turn_edits.specs.Endings.{Draws};

/// Words that are drawn leave the generator's key, and its place doesn't fall before the stream's end.
pub fn drawing_goes_on()
    ensures { (least most : ℕ) (before after : Place) → Draws least most before after
        → before.position + most < 2 ^ 68 → (after.key ≡ before.key) × (before.position ≤ after.position) }
{}
