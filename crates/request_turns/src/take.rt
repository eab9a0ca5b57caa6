//! The turns of a request, one after another.

ghost use Rattle.std.specs.Prelude.{◌≡◌, ◌<◌, IsSomeAnd, length};
ghost use Rattle.pw_types.specs.Moment.{cut_moment};
ghost use Rattle.account_machine.specs.declared.request.Turn.TheVariants as turns;
ghost use Rattle.client_output.specs.Output.{NamesPlainly};
ghost use Rattle.request_forms.specs.Formed.{IsFormedRequest};
ghost use Rattle.client_output.specs.Turns.{Acts, AreClearings, Makes, label_looked};
ghost use Rattle.request_turns.specs.Taken.{Gives, GrowsBy, most_clearings};

use crate::TurnSeat;
use crate::room::{ActRoom, TurnRoom, act_room, look_room};
use account_machine::{Answer, Request, Token, Turn};
use client_output::{has_cleared, has_seen, label_looked, token_cleared};
use ct_bytes::NoMemory;
use std::alloc::Global;
use std::sync::Wait;

// Clearings in a session, until one clears no PIN or there is no room for another.
fn clear<R: Wait, S: TurnSeat>(
    rt: &R,
    alloc: Global,
    seat: &mut S,
    token: Token,
    mut blanks: Vec<S::Blank>,
    moment: u64,
)
    requires some { 0 < length blanks.items }
    ensures bare { S.bare seat.new ≡ S.bare seat.old }
    ensures clears { GrowsBy (AreClearings (S.bare seat.old).caller (cut_moment moment) (length blanks.items) token)
        (S.own seat.old) (S.own seat.new) }
{
    let Some(blank) = blanks.pop() else {
        return;
    };
    let answer = seat.turn(rt, alloc, blank, Turn::Clear(token), moment);
    if !has_cleared(&answer) || blanks.is_empty() {
        return;
    }
    clear(rt, alloc, seat, token, blanks, moment);
}

// The act of a request, and the clearings behind it. It tells the act's answer.
fn act<R: Wait, S: TurnSeat>(
    rt: &R,
    alloc: Global,
    seat: &mut S,
    request: &Request,
    room: ActRoom<S::Blank>,
    moment: u64,
) -> Answer
    requires formed { IsFormedRequest request.now }
    requires act { room.act.turn ≡ turns.Act request.now }
    requires clearings { length room.clearings.items ≡ most_clearings request.now }
    ensures bare { S.bare seat.new ≡ S.bare seat.old }
    ensures acts { Gives (Acts (S.bare seat.old).caller (cut_moment moment) request.now) (S.own seat.old)
        (S.own seat.new) result }
    ensures named { NamesPlainly result }
{
    let ActRoom { act, clearings } = room;
    let answer = seat.turn(rt, alloc, act.blank, act.turn, moment);
    let Some(token) = token_cleared(request, &answer) else {
        return answer;
    };
    clear(rt, alloc, seat, token, clearings, moment);
    answer
}

// A look, and the act behind it where the look saw. Else the look's answer is told.
fn look<R: Wait, S: TurnSeat>(
    rt: &R,
    alloc: Global,
    seat: &mut S,
    request: &Request,
    first: TurnRoom<S::Blank>,
    room: ActRoom<S::Blank>,
    moment: u64,
) -> Answer
    requires look { IsSomeAnd (label_looked request.now) (λ label. first.turn ≡ turns.Look label) }
    requires formed { IsFormedRequest request.now }
    requires act { room.act.turn ≡ turns.Act request.now }
    requires clearings { length room.clearings.items ≡ most_clearings request.now }
    ensures bare { S.bare seat.new ≡ S.bare seat.old }
    ensures looks { Gives (Makes (S.bare seat.old).caller (cut_moment moment) request.now) (S.own seat.old)
        (S.own seat.new) result }
    ensures named { NamesPlainly result }
{
    let answer = seat.turn(rt, alloc, first.blank, first.turn, moment);
    if !has_seen(&answer) {
        return answer;
    }
    match seat.prepare(alloc, request) {
        Ok(()) => act(rt, alloc, seat, request, room, moment),
        Err(NoMemory) => Answer::NoMemory,
    }
}

/// Makes the turns of a request, and tells its answer. The moment is the number that the clock gave, in seconds.
///
/// The memory for all entries is taken before the first turn. Where there is none for them, no turn is made, and where
/// there is none to get ready for the act, the look stays alone; the answer is then that of no memory.
pub fn take_turns<R: Wait, S: TurnSeat>(
    rt: &R,
    alloc: Global,
    seat: &mut S,
    request: &Request,
    moment: u64,
) -> Answer
    requires formed { IsFormedRequest request.now }
    ensures bare { S.bare seat.new ≡ S.bare seat.old }
    ensures makes { Gives (Makes (S.bare seat.old).caller (cut_moment moment) request.now) (S.own seat.old)
        (S.own seat.new) result }
    ensures named { NamesPlainly result }
{
    let room = match act_room(alloc, seat, request) {
        Ok(room) => room,
        Err(NoMemory) => return Answer::NoMemory,
    };
    let Some(label) = label_looked(request) else {
        return act(rt, alloc, seat, request, room, moment);
    };
    match look_room(alloc, seat, label) {
        Ok(first) => look(rt, alloc, seat, request, first, room, moment),
        Err(NoMemory) => Answer::NoMemory,
    }
}
