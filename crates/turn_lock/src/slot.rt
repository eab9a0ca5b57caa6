//! The one slot of a lock's table, before it is shared, and once it is no more.
ghost use Rattle.std.specs.Prelude.{◌≡◌, ℕ, ◌<◌, true, [], ◌∷◌, Some, IfOk, IfErr};
ghost use Rattle.turn_lock.specs.Insides.{IsAtRest};
ghost use Rattle.turn_lock.specs.Lists.{count_of};
ghost use Rattle.turn_lock.specs.Rule.{numbers_if, IsLeft};
ghost use Rattle.turn_lock.specs.Slots.{blank, HasBlank, IsBlank};

use crate::table::{Content, LockTable, Place};
use crate::tale::Tale;
use ct_bytes::NoMemory;
use link_chain::Chain;
use std::alloc::Global;

// The slot with the value, and a chain with no entry.
pub(crate) fn filled_slot<T, E>(
    alloc: Global,
    value: T,
) -> Result<Vec<Option<Content<T, E>>>, (NoMemory, T)>
    ensures ok { IfOk result (λ slots. HasBlank slots.items value) }
    ensures err { IfErr result (λ fault. fault.1 ≡ value) }
{
    let mut slots = Vec::new(alloc);
    let content = Content {
        value,
        chain: Chain::empty(),
    };
    match slots.push(Some(content)) {
        Ok(()) => Ok(slots),
        Err(failed) => {
            slots.destroy_empty();
            Err((NoMemory, value_of(failed.value)))
        }
    }
}

// The value of a slot with no entry.
fn value_of<T, E>(slot: Option<Content<T, E>>) -> T
    requires { IsBlank slot }
    ensures { (value : T) → slot ≡ Some (blank value) → result ≡ value }
{
    let Content { value, chain } = slot.unwrap();
    chain.destroy_empty();
    value
}

// The value, out of the slot that no table took.
pub(crate) fn emptied_slot<T, E>(mut slots: Vec<Option<Content<T, E>>>) -> T
    requires { (value : T) × HasBlank slots.items value }
    ensures { HasBlank slots.items result }
{
    let slot = slots.pop().unwrap();
    slots.destroy_empty();
    value_of(slot)
}

// The value with its chain, where the seat has every number.
pub(crate) fn last_content<T: Tale>(
    table: LockTable<T>,
    place: Place<T, T::Entry>,
) -> Content<T, T::Entry>
    requires table { (place.table_id ≡ table.shared.table_id) × (table.shared.table_id.slots ≡ 1) }
    requires rests { IsAtRest place }
    requires numbers { (number : ℕ) → number < table.shared.key.callers
        → 0 < count_of number (numbers_if true place.me.0) }
    ensures { IsLeft T.caller (T.stands table.shared.key.value.value) table.shared.key.callers
        place.me.0 result }
{
    let mut closed = table.close_with(place);
    let content = closed.take(0).unwrap();
    closed.free();
    content
}
