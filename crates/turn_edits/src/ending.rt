//! How a turn with an edit ends.

ghost use Rattle.std.specs.Prelude.{◌≡◌};
ghost use Rattle.turn_edits.specs.Endings.{answer_of, doubt_of};

use account_machine::Answer;
use stored_home::StoreFault;
use user_state::Doubt;

/// Answers an edit. After a fault what tells the two durable parts apart is kept.
pub(crate) fn told(kept: &mut Option<Doubt>, edit: Result<(), StoreFault>, doubt: Doubt) -> Answer
    ensures answer { result ≡ answer_of edit }
    ensures doubt { kept.new ≡ doubt_of doubt kept.old edit }
{
    match edit {
        Ok(()) => Answer::Ok,
        Err(StoreFault::Failed) => {
            *kept = Some(doubt);
            Answer::StorageFault
        }
        Err(_) => Answer::NoMemory,
    }
}
