//! The memory for the turns of a request, which is taken before the first of them.

ghost use Rattle.std.specs.Prelude.{◌≡◌, IfOk, length};
ghost use Rattle.account_machine.specs.declared.request.Turn.TheVariants as turns;
ghost use Rattle.request_turns.specs.Taken.{most_clearings};

use crate::TurnSeat;
use account_machine::{Request, Turn};
use ct_bytes::{NoMemory, Text};
use name_map::Copied;
use std::alloc::Global;

/// How many clearings may follow a right password.
const MOST_CLEARINGS: usize = 8;

// A turn, with the memory for its entry.
#[derive(Drop)]
pub(crate) struct TurnRoom<B> {
    pub(crate) turn: Turn,
    pub(crate) blank: B,
}

// The act of a request, with the memory for its entry and for those of the clearings behind it.
#[derive(Drop)]
pub(crate) struct ActRoom<B> {
    pub(crate) act: TurnRoom<B>,
    pub(crate) clearings: Vec<B>,
}

// The memory for so many entries.
fn blanks<S: TurnSeat>(alloc: Global, seat: &S, count: usize) -> Result<Vec<S::Blank>, NoMemory>
    ensures { IfOk result (λ blanks. length blanks.items ≡ count) }
{
    let mut blanks = Vec::with_capacity(alloc, count)?;
    for _ in 0..count {
        blanks.push(seat.blank(alloc)?)?;
    }
    Ok(blanks)
}

// The number of clearings for which there is to be memory.
fn most_clearings(request: &Request) -> usize
    ensures { result ≡ most_clearings request.now }
{
    match request {
        Request::Authenticate { .. } => MOST_CLEARINGS,
        _ => 0,
    }
}

// The memory for a look at the label.
pub(crate) fn look_room<S: TurnSeat>(
    alloc: Global,
    seat: &S,
    label: &Text,
) -> Result<TurnRoom<S::Blank>, NoMemory>
    ensures { IfOk result (λ room. room.turn ≡ turns.Look label.now) }
{
    let turn = Turn::Look(label.copy()?);
    let blank = seat.blank(alloc)?;
    Ok(TurnRoom { turn, blank })
}

// The memory for the act of a request, and for the clearings behind it.
pub(crate) fn act_room<S: TurnSeat>(
    alloc: Global,
    seat: &S,
    request: &Request,
) -> Result<ActRoom<S::Blank>, NoMemory>
    ensures act { IfOk result (λ room. room.act.turn ≡ turns.Act request.now) }
    ensures clearings { IfOk result (λ room. length room.clearings.items ≡ most_clearings request.now) }
{
    let turn = Turn::Act(request.copy()?);
    let blank = seat.blank(alloc)?;
    let clearings = blanks(alloc, seat, most_clearings(request))?;
    Ok(ActRoom {
        act: TurnRoom { turn, blank },
        clearings,
    })
}
