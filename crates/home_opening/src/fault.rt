//! Why a home can't be opened.

ghost use Rattle.std.specs.Prelude.{◌≡◌};
ghost use Rattle.home_opening.specs.Opened.{told_fault};

use record_names::RecordName;
use stored_home::StoreFault;

/// Why a home can't be opened.
#[derive(Debug, PartialEq, Eq, Drop)]
pub enum HomeFault {
    /// The board failed, and its count of faults rose.
    Failed,
    /// This record is outside its form, or another record doesn't fit it.
    Damaged(RecordName),
    /// There are more than 64 accounts, named or found.
    TooMany {
        /// How many there are.
        accounts: usize,
    },
    /// There was no memory.
    NoMemory,
}

/// A store's fault as that of a home.
pub(crate) fn told_fault(fault: StoreFault) -> HomeFault
    ensures { result ≡ told_fault fault }
{
    match fault {
        StoreFault::Failed => HomeFault::Failed,
        StoreFault::Damaged(name) => HomeFault::Damaged(name),
        StoreFault::NoMemory | StoreFault::TreeLost { .. } => HomeFault::NoMemory,
    }
}
