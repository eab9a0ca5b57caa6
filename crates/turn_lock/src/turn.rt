//! A turn: the wait for one's ticket, and the passing on.
ghost use Rattle.std.specs.Prelude.{◌≡◌, ◌%◌, ◌^◌, List, [], ◌∷◌, ◌++◌, length, None};
ghost use Rattle.turn_lock.specs.Insides.{HasLock};
ghost use Rattle.turn_lock.specs.Rule.{IsKnown};
ghost use Rattle.turn_lock.specs.declared.table.SeatState.{SeatState};
ghost use Rattle.turn_lock.specs.Steps.{at_stage, after_turn, IsWaiting};
ghost use Rattle.turn_lock.specs.declared.table.Stage.TheVariants.{Serving};

use crate::steps::{LookAtServing, Meaning, PassOn};
use crate::table::{Content, Place, SharedTable};
use crate::tale::Tale;
use link_chain::{Chain, Link};
use std::sync::Wait;

// Waits until the ticket is served, and takes the value with its chain.
pub(crate) fn wait<T: Tale, R: Wait, M: Meaning<T, T::Entry>>(
    rt: &R,
    table: &SharedTable<T>,
    place: &mut Place<T, T::Entry>,
    ticket: u64,
) -> Content<T, T::Entry>
    requires table { (place.old.table_id ≡ table.now.table_id)
        × (table.now.table_id.words ≡ 2)
        × (table.now.table_id.slots ≡ 1) }
    requires waits { IsWaiting place.old.me ticket }
    requires meaning { (seat : SeatState T.Entry) (value : T) (entries : List T.Entry)
        → T.stands table.now.key.value.value value entries
        → IsKnown T.caller entries seat
        → M.holds seat value entries }
    ensures taken { (place.new.table_id ≡ place.old.table_id)
        × (place.new.me ≡ (at_stage (Serving result.chain) place.old.me.0, (0, None) ∷ [])) }
    ensures holds { M.holds place.old.me.0 result.value result.chain }
{
    for _ in rt.forever() {
        let serving = table.load::<LookAtServing<M>>(place, 1);
        if serving == ticket {
            return table.exchange(place, 0, None).unwrap();
        }
        // Each turn passed on changes these bits, so a wake between the look and here isn't missed.
        table.park(rt, 1, (serving % (1 << 32)) as u32);
    }
    unreachable!()
}

// Puts the value back with the entry behind those before it, and passes the turn on. It answers the
// ticket that was served.
pub(crate) fn pass_on<T: Tale>(
    table: &SharedTable<T>,
    place: &mut Place<T, T::Entry>,
    value: T,
    before: Chain<T::Entry>,
    link: Link<T::Entry>,
) -> u64
    requires table { (place.old.table_id ≡ table.now.table_id)
        × (table.now.table_id.words ≡ 2)
        × (table.now.table_id.slots ≡ 1) }
    requires lock { HasLock place.old before }
    requires caller { T.caller link ≡ place.old.me.0.caller }
    requires stands { T.stands table.now.key.value.value value (before ++ link ∷ []) }
    ensures table { place.new.table_id ≡ place.old.table_id }
    ensures seat { place.new.me ≡ (after_turn link place.old.me.0, []) }
    ensures ticket { result ≡ length before % 2 ^ 64 }
{
    let content = Content {
        value,
        chain: before.hang(link),
    };
    let taken = table.exchange(place, 0, Some(content));
    let None = taken else { unreachable!() };
    let ticket = table.fetch_add::<PassOn>(place, 1, 1);
    // Those who wait sleep on different tickets, so all have to look.
    table.wake_all(1);
    ticket
}
