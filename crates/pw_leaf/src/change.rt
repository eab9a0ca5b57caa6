//! Changing the count of wrong tries in a leaf record.

ghost use Rattle.std.specs.Prelude.{◌≡◌, ◌<◌, ◌^◌, IsOk, IfOk};
ghost use Rattle.pw_types.specs.Schedule.{limit_of};
ghost use Rattle.pw_leaf.specs.Contents.{bumped, cleared};
ghost use Rattle.pw_leaf.specs.LeafBytes.{leaf_bytes};
ghost use Rattle.pw_leaf.specs.Reading.{check_at};

use crate::keys::ChipKeys;
use crate::leaf::{LEAF_BYTES, Leaf};
use crate::read::{check, iv_in};
use crate::write::written;
use pw_types::Stamp;

/// The record with one more wrong try, at `now`. Nothing else changes but the MAC.
pub fn bump(keys: &ChipKeys, bytes: &[u8; LEAF_BYTES], now: Stamp) -> [u8; LEAF_BYTES]
    requires accepted { IsOk (check_at keys.now bytes.now) }
    requires room { IfOk (check_at keys.now bytes.now) (λ x. x.wrong < limit_of x.schedule) }
    requires moment { now.at < 2 ^ 40 }
    ensures { IfOk (check_at keys.now bytes.now) (λ x. result ≡ leaf_bytes keys.now (bumped now x)) }
{
    let Ok(leaf) = check(keys, bytes) else {
        unreachable!();
    };
    let bumped = Leaf {
        wrong: leaf.wrong + 1,
        last: now,
        ..leaf
    };
    written(keys, &bumped, iv_in(bytes))
}

/// The record with no wrong try. Nothing else changes but the MAC.
pub fn clear(keys: &ChipKeys, bytes: &[u8; LEAF_BYTES]) -> [u8; LEAF_BYTES]
    requires { IsOk (check_at keys.now bytes.now) }
    ensures { IfOk (check_at keys.now bytes.now) (λ x. result ≡ leaf_bytes keys.now (cleared x)) }
{
    let Ok(leaf) = check(keys, bytes) else {
        unreachable!();
    };
    let cleared = Leaf {
        wrong: 0,
        last: Stamp { boot: 0, at: 0 },
        ..leaf
    };
    written(keys, &cleared, iv_in(bytes))
}
