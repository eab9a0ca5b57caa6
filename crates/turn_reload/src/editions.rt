//! The editions of two stashes, side by side.

ghost use Rattle.std.specs.Prelude.{◌≡◌, ◌≢◌, ◌<◌, false, slice_get, Some, IsTrue};
ghost use Rattle.std.specs.FinMap.{len};
ghost use Rattle.user_state.specs.Fits.{tally_in};
ghost use Rattle.turn_reload.specs.Editions.{editions_in};

use secret_stash::Stash;

// Whether the blocks at a place have one label and one edition.
fn is_same_block(one: &Stash, other: &Stash, at: usize) -> bool
    requires first { at < len one.now.blocks }
    requires second { at < len other.now.blocks }
    ensures same { IsTrue result → slice_get (editions_in one.now) at ≡ slice_get (editions_in other.now) at }
    ensures differ { result ≡ false → slice_get (editions_in one.now) at ≢ slice_get (editions_in other.now) at }
{
    let (label, edition) = one.block(at);
    let (another, later) = other.block(at);
    label == another && edition == later
}

// Whether two stashes have the same editions by label.
fn are_same_blocks(one: &Stash, other: &Stash) -> bool
    ensures same { IsTrue result → editions_in one.now ≡ editions_in other.now }
    ensures differ { result ≡ false → editions_in one.now ≢ editions_in other.now }
{
    if one.count() != other.count() {
        return false;
    }
    'places: for at in 0..one.count() {
        if !is_same_block(one, other, at) {
            return false;
        }
    }
    true
}

// Whether two stashes have one next edition and the same editions by label.
fn is_same_stash(one: &Stash, other: &Stash) -> bool
    ensures same { IsTrue result → tally_in (Some one.now) ≡ tally_in (Some other.now) }
    ensures differ { result ≡ false → tally_in (Some one.now) ≢ tally_in (Some other.now) }
{
    one.next() == other.next() && are_same_blocks(one, other)
}

/// Whether two accounts' stashes, where they are there, have one next edition and the same editions by label.
pub(crate) fn are_same(one: &Option<Stash>, other: &Option<Stash>) -> bool
    ensures same { IsTrue result → tally_in one.now ≡ tally_in other.now }
    ensures differ { result ≡ false → tally_in one.now ≢ tally_in other.now }
{
    match one {
        None => other.is_none(),
        Some(stash) => match other {
            None => false,
            Some(another) => is_same_stash(stash, another),
        },
    }
}
