//! The account that a request asks, among others.

ghost use Rattle.std.specs.Prelude.{◌≡◌, ℕ, true, false, map, length, IfSome, IfNone};
ghost use Rattle.std.specs.List.{AllByRecursion};
ghost use Rattle.account_machine.specs.Asked.{account_of};
ghost use Rattle.client_output.specs.Grown.{Calls, MakesTurns};
ghost use Rattle.client_output.specs.Output.{NamesPlainly, is_among};
ghost use Rattle.request_forms.specs.Formed.{IsFormedRequest};
ghost use Rattle.request_turns.specs.Named.{are_apart, seats_seen};

use crate::{TurnSeat, take_turns};
use account_machine::{Answer, Request};
use ct_bytes::Text;
use std::alloc::Global;
use std::sync::Wait;

// The turns of a request at the account that it asks, where that is one of these.
fn take_turns_among<R: Wait, S: TurnSeat>(
    rt: &R,
    alloc: Global,
    names: &[Text],
    seats: &mut [S],
    request: &Request,
    moment: u64,
) -> Option<Answer>
    requires many { length seats.old ≡ length names.now }
    requires apart { are_apart names.now ≡ true }
    requires formed { IsFormedRequest request.now }
    ensures bare { map S.bare seats.new ≡ map S.bare seats.old }
    ensures none { IfNone result (seats.new ≡ seats.old) }
    ensures unknown { IfNone result (is_among (account_of request.now) names.now ≡ false) }
    ensures known { IfSome result (λ told. is_among (account_of request.now) names.now ≡ true) }
    ensures makes { IfSome result (λ told. (caller : ℕ)
        → AllByRecursion (λ seat. (S.bare seat).caller ≡ caller) seats.old
        → MakesTurns (seats_seen caller names.now (map S.own seats.old))
        (seats_seen caller names.now (map S.own seats.new)) request.now moment told) }
    ensures named { IfSome result (λ told. NamesPlainly told) }
{
    let (name, names) = names.split_first()?;
    let (seat, seats) = seats.split_first_mut().unwrap();
    if name == request.account() {
        return Some(take_turns(rt, alloc, seat, request, moment));
    }
    take_turns_among(rt, alloc, names, seats, request, moment)
}

/// Makes the turns of a request by a client's seats of these accounts, and tells the answer.
///
/// The seats stand in the order of the names, no name comes twice, and all seats have the client's number. Where the
/// account isn't one of these, there is no turn, and the answer is unknown_account. The moment is the number that the
/// clock gave, in seconds.
pub fn call_by_seats<R: Wait, S: TurnSeat>(
    rt: &R,
    alloc: Global,
    names: &[Text],
    seats: &mut [S],
    request: &Request,
    moment: u64,
) -> Answer
    requires many { length seats.old ≡ length names.now }
    requires apart { are_apart names.now ≡ true }
    requires formed { IsFormedRequest request.now }
    ensures bare { map S.bare seats.new ≡ map S.bare seats.old }
    ensures calls { (caller : ℕ) → AllByRecursion (λ seat. (S.bare seat).caller ≡ caller) seats.old
        → Calls (seats_seen caller names.now (map S.own seats.old)) (seats_seen caller names.now (map S.own seats.new))
        request.now moment result }
    ensures named { NamesPlainly result }
{
    match take_turns_among(rt, alloc, names, seats, request, moment) {
        Some(answer) => answer,
        None => Answer::UnknownAccount,
    }
}
