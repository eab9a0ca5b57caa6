//! Laws of what a client's seat knows. Each function has an empty body: its contract is the law.

ghost use Rattle.std.specs.Prelude.{◌≡◌, ◌⊎◌, ℕ, Bool, List, [], ◌∷◌, ◌++◌, map, Ok, Err};
ghost use Rattle.std.specs.List.{AllByRecursion};
ghost use Rattle.request_loop.specs.Exchange.{Exchange};
ghost use Rattle.account_machine.specs.declared.answer.Answer.{Answer};
ghost use Rattle.account_machine.specs.declared.answer.Answer.TheVariants as answers;
ghost use Rattle.account_machine.specs.declared.request.Request.{Request};
ghost use Rattle.client_lang.specs.declared.line.LineFault.{LineFault};
ghost use Rattle.client_lang.specs.Replies.{Replies, answer_text, fault_text};
ghost use Rattle.client_output.specs.Books.{BookSeen, own_in};
ghost use Rattle.client_output.specs.Grown.{SeatSeen, Calls, Grew};
ghost use Rattle.client_output.specs.Output.{IsOutput, NamesPlainly, Refuses, Tells, asked_by};

/// A seat that has answered no line knows what it knew.
pub fn no_lines()
    ensures { (pins : Bool) (seat : SeatSeen) → Grew pins seat seat [] }
{}

/// Lines that were answered, and then more of them, were answered in this order.
pub fn lines_and_then_more()
    ensures { (pins : Bool) (start mid now : SeatSeen) (lines more : List Exchange)
        → Grew pins start mid lines
        → Grew pins mid now more
        → Grew pins start now (lines ++ more) }
{}

/// A line without a request leaves the seat, and its reply says why, or that there was no memory.
pub fn one_refused_line()
    ensures { (pins : Bool) (seat : SeatSeen) (line : Exchange) (fault : LineFault)
        → asked_by pins line.line ≡ Err fault
        → (line.reply ≡ fault_text fault) ⊎ (line.reply ≡ answer_text answers.NoMemory)
        → Grew pins seat seat (line ∷ []) }
{}

/// A line for whose request there was no memory.
pub fn one_line_without_memory()
    ensures { (pins : Bool) (seat : SeatSeen) (line : Exchange) → line.reply ≡ answer_text answers.NoMemory
        → Grew pins seat seat (line ∷ []) }
{}

/// A line whose request was called, and whose reply tells what the call told.
pub fn one_request()
    ensures { (pins : Bool) (old new : SeatSeen) (line : Exchange) (request : Request) (told : Answer)
        → asked_by pins line.line ≡ Ok request
        → Tells told line.reply
        → Calls old new request line.moment told
        → Grew pins old new (line ∷ []) }
{}

/// What is written for an answer tells it, where damage is of what has a name like a record's.
pub fn replies_tell_the_answer()
    ensures { (answer : Answer) (reply : List ℕ) → NamesPlainly answer → Replies answer [] reply → Tells answer reply }
{}

/// A seat that began with no entries, and knows of each book the caller's own, answered the output of these entries.
pub fn own_entries_are_the_output()
    ensures { (pins : Bool) (start now : SeatSeen) (books : List BookSeen) (lines : List Exchange)
        → AllByRecursion (λ own. own.entries ≡ []) start.owned
        → now.owned ≡ map (own_in start.caller) books
        → Grew pins start now lines
        → IsOutput pins start.caller (map (own_in start.caller) books) lines }
{}
