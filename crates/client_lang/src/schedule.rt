//! Schedules of request lines.

ghost use Rattle.std.specs.Prelude.{◌≡◌, Some, None, false, length, IsTrue, option_map};
ghost use Rattle.serde_json.specs.View.{view, items_view};
ghost use Rattle.client_lang.specs.Fields.{word_in, pair_in, pairs_of, schedule_of, schedule_in};

use crate::fields::whole;
use account_machine::Kind;
use pw_types::{MOST_PAIRS, Schedule};
use serde_json::Value;

// A whole number below 2^32.
fn word(value: &Value) -> Option<u32>
    ensures { result ≡ word_in (view value.now) }
{
    u32::try_from(whole(value)?).ok()
}

// Two of them.
fn pair(value: &Value) -> Option<(u32, u32)>
    ensures { result ≡ pair_in (view value.now) }
{
    let items = value.as_array()?.as_slice();
    if items.len() != 2 {
        return None;
    }
    Some((word(&items[0])?, word(&items[1])?))
}

// Reads the pairs one after another into the room, which they fill.
fn read_pairs(items: &[Value], pairs: &mut [(u32, u32)]) -> bool
    requires { length items.now ≡ length pairs.old }
    ensures read { IsTrue result → pairs_of (items_view items.now) ≡ Some pairs.new }
    ensures none { result ≡ false → pairs_of (items_view items.now) ≡ None }
{
    for (at, item) in items.iter().enumerate() {
        let Some(found) = pair(item) else {
            return false;
        };
        pairs[at] = found;
    }
    true
}

// A schedule.
fn schedule_of(value: &Value) -> Option<Schedule>
    ensures { result ≡ schedule_of (view value.now) }
{
    let items = value.as_array()?.as_slice();
    if items.len() > MOST_PAIRS {
        return None;
    }
    let mut pairs = [(0, 0); MOST_PAIRS];
    let pairs = &mut pairs[..items.len()];
    if !read_pairs(items, pairs) {
        return None;
    }
    match Schedule::new(pairs) {
        Ok(schedule) => Some(schedule),
        Err(_) => None,
    }
}

/// A PIN's schedule, which may be absent. That of a password is ignored.
pub fn schedule(kind: Kind, value: &Value) -> Option<Option<Schedule>>
    ensures { result ≡ schedule_in kind (view value.now) }
{
    match (kind, value.get("schedule")) {
        (Kind::Pin, Some(schedule)) => Some(Some(schedule_of(schedule)?)),
        _ => Some(None),
    }
}
