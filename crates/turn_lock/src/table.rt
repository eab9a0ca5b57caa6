//! The table that the callers share.
//!
//! Word 0 counts the tickets drawn, and word 1 the turns passed on, both modulo 2^64. The one slot
//! has the value with its chain, and is empty while a seat has the lock.
use crate::tale::Tale;
use atomic_table::{Seat, Shared, Table, TableRule};
use link_chain::Chain;
use std::alloc::Global;
use std::collections::LinkedList;
use std::snapshot::Snapshot;

/// What lies in the slot.
#[derive(Drop)]
pub struct Content<T, E> {
    pub value: T,
    pub chain: Chain<E>,
}

/// How far a seat's turn is. No value of it is made: it is what proofs know.
pub enum Stage<E> {
    Idle,
    /// The ticket, not reduced.
    Waiting(u64),
    /// The entries so far.
    Serving(LinkedList<E, Global>),
}

/// What the table's rule says of a seat. No value of it is made.
///
/// Each list has a size that doesn't depend on the entry's type, as the table asks.
pub struct SeatState<E> {
    /// A seat that another joined is spent.
    pub live: bool,
    pub stage: Stage<E>,
    pub caller: u64,
    pub own: LinkedList<(u64, E), Global>,
    pub joined: LinkedList<(u64, LinkedList<(u64, E), Global>), Global>,
    pub spare: LinkedList<u64, Global>,
}

/// What the table is told when it is made.
#[derive(Drop)]
pub struct MadeWith<T> {
    pub value: Snapshot<T>,
    pub callers: u32,
}

/// The rule of the table.
pub struct TicketRule;

impl<T: Tale> TableRule<Option<Content<T, T::Entry>>, SeatState<T::Entry>, MadeWith<T>>
    for TicketRule {
    ghost use Rattle.turn_lock.specs.Rule.{HoldsOf};
    ghost use Rattle.turn_lock.specs.Steps.{opening_seat};

    ghost holds = { λ made. HoldsOf T.caller (T.stands made.value.value) made.callers };

    ghost first = { λ made. opening_seat made.callers };
}

pub(crate) type LockTable<T> = Table<
    Option<Content<T, <T as Tale>::Entry>>,
    SeatState<<T as Tale>::Entry>,
    MadeWith<T>,
    TicketRule,
    Global,
>;

pub(crate) type SharedTable<T> = Shared<
    Option<Content<T, <T as Tale>::Entry>>,
    SeatState<<T as Tale>::Entry>,
    MadeWith<T>,
    TicketRule,
>;

pub(crate) type Place<T, E> = Seat<Option<Content<T, E>>, SeatState<E>>;
