//! What the turns of a request need of a client's seat.

ghost use Rattle.std.specs.Prelude.{◌≡◌, List};
ghost use Rattle.pw_types.specs.Moment.{cut_moment};
ghost use Rattle.account_machine.specs.declared.entry.Entry.{Entry};
ghost use Rattle.client_output.specs.Output.{NamesPlainly};
ghost use Rattle.client_output.specs.Seats.{BareSeat};
ghost use Rattle.request_forms.specs.Formed.{IsFormed};
ghost use Rattle.request_turns.specs.Taken.{Takes};

use account_machine::{Answer, Request, Turn};
use ct_bytes::NoMemory;
use std::alloc::Global;
use std::sync::Wait;

/// A client's seat of one account's lock.
pub trait TurnSeat {
    /// The memory for the entry of one turn.
    type Blank: Drop;

    /// All but what the seat knows. No turn changes it.
    ghost bare: { Self → BareSeat };

    /// The client's own entries of the account.
    ghost own: { Self → List Entry };

    /// The memory for the entry of one turn.
    fn blank(&self, alloc: Global) -> Result<Self::Blank, NoMemory>;

    /// Gets ready for the act of a request whose look saw. No lock is held.
    fn prepare(&mut self, alloc: Global, request: &Request) -> Result<(), NoMemory>
        ensures bare { bare self.new ≡ bare self.old }
        ensures own { own self.new ≡ own self.old };

    /// Takes a turn, and tells its answer. The moment is the number that the clock gave, in seconds.
    ///
    /// Where there is no memory to tell a list, that of no memory is told.
    fn turn<R: Wait>(
        &mut self,
        rt: &R,
        alloc: Global,
        blank: Self::Blank,
        turn: Turn,
        moment: u64,
    ) -> Answer
        requires formed { IsFormed turn }
        ensures bare { bare self.new ≡ bare self.old }
        ensures takes { Takes (bare self.old).caller (cut_moment moment) turn (own self.old) (own self.new) result }
        ensures named { NamesPlainly result };
}
