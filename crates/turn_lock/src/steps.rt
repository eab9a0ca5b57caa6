//! What each step on the table tells, and how seats are split and joined.
ghost use Rattle.std.specs.Prelude.{List};
ghost use Rattle.turn_lock.specs.Steps.{DrewTicket, LookedAtServing, PassedOn, CountedNumbers, kept_part, given_part, both_parts, spent_seat};

use crate::table::{Content, SeatState};
use atomic_table::{Join, Play, Split};
use std::marker::{Brand, PhantomData};

/// What a value under the lock is to the entries so far, and to the seat that takes it.
pub(crate) trait Meaning<T, E> {
    ghost use Rattle.turn_lock.specs.declared.table.SeatState.{SeatState};

    ghost holds: { SeatState E → T → List E → Type 0 };
}

// A call at `Brand` picks the meaning that its lock has.
impl<T, E> Meaning<T, E> for Brand {
    ghost holds = { λ _ _ _. Unit {0} };
}

pub(crate) struct DrawTicket;

impl<T, E> Play<Option<Content<T, E>>, SeatState<E>> for DrawTicket {
    ghost then = { DrewTicket };
}

pub(crate) struct LookAtServing<M> {
    marker: PhantomData<M>,
}

impl<T, E, M: Meaning<T, E>> Play<Option<Content<T, E>>, SeatState<E>> for LookAtServing<M> {
    ghost then = { LookedAtServing M.holds };
}

pub(crate) struct PassOn;

impl<T, E> Play<Option<Content<T, E>>, SeatState<E>> for PassOn {
    ghost then = { PassedOn };
}

pub(crate) struct CountNumbers;

impl<T, E> Play<Option<Content<T, E>>, SeatState<E>> for CountNumbers {
    ghost then = { CountedNumbers };
}

pub(crate) struct GiveNumber;

impl<E> Split<SeatState<E>> for GiveNumber {
    ghost left = { kept_part };

    ghost right = { given_part };
}

pub(crate) struct TakeNumbers;

impl<E> Join<SeatState<E>> for TakeNumbers {
    ghost both = { both_parts };

    ghost spent = { spent_seat };
}
