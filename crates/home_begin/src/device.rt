//! The device of a board.

ghost use Rattle.std.specs.Prelude.{◌≡◌, ◌≤◌, true, length, IfOk, IfErr, IsTrue};
ghost use Rattle.std.specs.List.{list_all};
ghost use Rattle.home_names.specs.Names.{is_account_name};
ghost use Rattle.request_turns.specs.Named.{are_apart};
ghost use Rattle.board_device.specs.Device.{accounts_of, board_of, era_of};
ghost use Rattle.home_begin.specs.Begins.{OpensDevice, IsUnopened, told_open_fault};

use crate::names::copied_names;
use board_device::{BoardDevice, found_accounts_have_names};
use board_model::Board;
use ct_bytes::{NoMemory, Text};
use home_opening::HomeFault;
use platform_core::{OpenFault, Platform};
use pw_types::Era;
use std::alloc::Global;

// The fault of a platform as that of a home.
fn told_open_fault(fault: OpenFault) -> HomeFault
    ensures { result ≡ told_open_fault fault }
{
    match fault {
        OpenFault::Failed => HomeFault::Failed,
        OpenFault::TooMany { accounts } => HomeFault::TooMany { accounts },
        OpenFault::NoMemory => HomeFault::NoMemory,
    }
}

/// The device of a board in an era, with the names of its accounts: those that are named, each once, and then the
/// others that are found. After a fault the board is given back.
pub fn open_device<B: Board + Drop>(
    alloc: Global,
    board: B,
    named: Vec<Text>,
    era: Era,
) -> Result<(BoardDevice<B>, Vec<Text>), (HomeFault, B)>
    requires plain { IsTrue (list_all is_account_name named.items) }
    ensures names { IfOk result (λ opened. opened.1.items ≡ accounts_of opened.0) }
    ensures era { IfOk result (λ opened. era_of opened.0 ≡ era) }
    ensures plain { IfOk result (λ opened. IsTrue (list_all is_account_name opened.1.items)) }
    ensures apart { IfOk result (λ opened. are_apart opened.1.items ≡ true) }
    ensures few { IfOk result (λ opened. length opened.1.items ≤ 64) }
    ensures opened { IfOk result (λ opened. OpensDevice B.disk B.faults board named.items opened.0) }
    ensures unopened { IfErr result (λ refused. IsUnopened B.disk B.faults board named.items refused.0 refused.1) }
{
    found_accounts_have_names::<B>();
    let platform = match Platform::begin(alloc, board, named) {
        Ok(platform) => platform,
        Err((fault, board)) => return Err((told_open_fault(fault), board)),
    };
    match copied_names(alloc, platform.accounts()) {
        Ok(names) => Ok((BoardDevice::new(platform, era), names)),
        Err(NoMemory) => Err((HomeFault::NoMemory, platform.into_board())),
    }
}
