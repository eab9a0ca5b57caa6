//! Why a cabinet has no answer.

ghost use Rattle.std.specs.Prelude.{◌≡◌};
ghost use Rattle.cabinet.specs.Faults.{fault_of};

use board_model::BoardFault;

/// Why a cabinet has no answer.
#[derive(Clone, Copy, Debug, PartialEq, Eq)]
pub enum CabinetFault {
    /// The board failed, and its count of faults rose.
    Failed,
    /// There are more accounts than a run may have, or more names than there is to be room for.
    TooMany {
        /// The accounts, named or found.
        accounts: usize,
        /// The names that were found.
        names: usize,
    },
    /// There was no memory.
    NoMemory,
}

/// The fault of a board's call.
pub fn fault_of(fault: BoardFault) -> CabinetFault
    ensures { result ≡ fault_of fault }
{
    match fault {
        BoardFault::Failed => CabinetFault::Failed,
        BoardFault::NoMemory => CabinetFault::NoMemory,
    }
}
