//! How a turn with an edit of a PIN ends.

ghost use Rattle.std.specs.Prelude.{◌≡◌, IfErr};
ghost use Rattle.pin_edits.specs.Faults.{IsPinFault};
ghost use Rattle.turn_edits.specs.Endings.{doubt_of};
ghost use Rattle.turn_pins.specs.Endings.{pin_answer};

use account_machine::Answer;
use stored_home::StoreFault;
use user_state::Doubt;

/// Answers an edit that reads nothing. After a fault the editions tell the two durable parts apart.
pub(crate) fn told(kept: &mut Option<Doubt>, edit: Result<(), StoreFault>) -> Answer
    requires { IfErr edit IsPinFault }
    ensures answer { result ≡ pin_answer edit }
    ensures doubt { kept.new ≡ doubt_of Doubt.Editions kept.old edit }
{
    match edit {
        Ok(()) => Answer::Ok,
        Err(StoreFault::Failed) => {
            *kept = Some(Doubt::Editions);
            Answer::StorageFault
        }
        Err(StoreFault::TreeLost { host, chip }) => Answer::TreeLost { host, chip },
        Err(StoreFault::NoMemory) => Answer::NoMemory,
        Err(StoreFault::Damaged(_)) => unreachable!(),
    }
}
