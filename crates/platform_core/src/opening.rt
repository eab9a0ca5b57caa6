//! How a platform is opened.

ghost use Rattle.std.specs.Prelude.{◌≡◌, ◌⊎◌, ◌↔◌, ℕ, ◌+◌, ◌<◌, length, false};
ghost use Rattle.std.specs.Prelude.{IfOk, IfErr, IfSome, IsErrOf, MatchResult};
ghost use Rattle.std.specs.FinMap.{keys};
ghost use Rattle.fault_count.specs.Causes.{HasCause};
ghost use Rattle.board_model.specs.Disk.{Image, Leaves, Goes, Unchanged};
ghost use Rattle.staged_file.specs.Staged.{Kept};
ghost use Rattle.cabinet.specs.Edits.{Agrees};
ghost use Rattle.cabinet.specs.Opening.{Opened};
ghost use Rattle.cabinet.specs.declared.fault.CabinetFault.{CabinetFault};
ghost use Rattle.platform_core.specs.Records.{Shows};
ghost use Rattle.platform_core.specs.Standing.{IsTold, IsRight};
ghost use Rattle.platform_core.specs.Opening.{IsOpenFault};
ghost use Rattle.platform_core.specs.Held.{board_of, accounts_of, names_of, most_of, memory_of, contents_of};
ghost use Rattle.platform_core.specs.Held.{is_unsettled};

use crate::fault::OpenFault;
use crate::platform::Platform;
use crate::records::Records;
use crate::unsure::Unsure;
use board_model::{Board, BoardFault};
use cabinet::{Cabinet, CabinetFault};
use ct_bytes::Text;
use std::alloc::Global;

/// The most accounts that a run has.
const MOST_ACCOUNTS: usize = 64;

/// How many names 64 accounts may add: 284 each.
const ROOM: usize = 18_176;

// Room for the names that may be there, and for those that all accounts may add.
fn room_for_names<B: Board>(alloc: Global, board: &mut B) -> Result<usize, OpenFault>
    ensures room { IfOk result (λ most. IfSome (B.disk board.old).now (λ now. most ≡ length (keys now.files) + 18176)) }
    ensures unchanged { Unchanged (B.disk board.old) (B.disk board.new) }
    ensures fault { IfErr result (λ fault. (fault ≡ OpenFault.Failed) ⊎ (fault ≡ OpenFault.NoMemory)) }
    ensures cause { HasCause (B.faults board.old) (B.faults board.new) (IsErrOf result OpenFault.Failed) }
{
    match board.list(alloc) {
        Ok(files) => Ok(files.len() + ROOM),
        Err(BoardFault::Failed) => Err(OpenFault::Failed),
        Err(BoardFault::NoMemory) => Err(OpenFault::NoMemory),
    }
}

// The fault of a cabinet's opening.
fn fault_of(fault: CabinetFault) -> OpenFault
    ensures failed { (result ≡ OpenFault.Failed) ↔ (fault ≡ CabinetFault.Failed) }
    ensures many { (accounts : ℕ) → result ≡ OpenFault.TooMany accounts
        → (64 < accounts) × ((names : ℕ) × (fault ≡ CabinetFault.TooMany accounts names)) }
{
    match fault {
        CabinetFault::Failed => OpenFault::Failed,
        CabinetFault::TooMany { accounts, .. } if accounts > MOST_ACCOUNTS => OpenFault::TooMany {
            accounts,
        },
        _ => OpenFault::NoMemory,
    }
}

impl<B: Board> Platform<B> {
    /// Opens the platform of a board.
    ///
    /// It lists the board, removes the temporary files, finds the names of records and their accounts, takes all
    /// memory for names, and makes certain what an earlier run left. The accounts are those that are named, each
    /// once, in the order given, and then the others of the records, in rising order of bytes. The faults are
    /// `Failed`, `TooMany` with the number of accounts, and `NoMemory`. After a fault the board is given back.
    pub fn begin(
        alloc: Global,
        board: B,
        accounts: Vec<Text>,
    ) -> Result<Platform<B>, (OpenFault, B)>
        ensures opened { IfOk result (λ platform. Opened (B.disk board) (B.disk (board_of platform)) accounts.items
            (most_of platform) (names_of platform) (accounts_of platform)) }
        // There is room for 18,176 names more than there are files.
        ensures room { IfOk result (λ platform. IfSome (B.disk board).now
            (λ now. most_of platform ≡ length (keys now.files) + 18176)) }
        // Whatever steps an earlier run left in doubt, each image now has what is there.
        ensures right { IfOk result (λ platform. IsTold (B.disk board) → Agrees (B.disk board)
            → IsRight (B.disk (board_of platform)) (memory_of platform) (is_unsettled platform)) }
        ensures settled { IfOk result (λ platform. is_unsettled platform ≡ false) }
        // And each shows contents of the accounts: those under the names that are held.
        ensures shown { IfOk result (λ platform. IsTold (B.disk board) → Agrees (B.disk board)
            → (image : Image) → (B.disk (board_of platform)).may_leave image
            → Shows (accounts_of platform) image (contents_of (B.disk (board_of platform)) platform)) }
        ensures fault { IfErr result (λ refused. IsOpenFault (B.disk board) accounts.items refused.0) }
        // At each moment the files that aren't temporary and the words are as they were.
        ensures any_moment { MatchResult result
            (λ platform. Leaves (B.disk board) (B.disk (board_of platform)) Kept)
            (λ refused. Leaves (B.disk board) (B.disk refused.1) Kept) }
        ensures kept { MatchResult result
            (λ platform. Goes (B.disk board) (B.disk (board_of platform)) Kept)
            (λ refused. Goes (B.disk board) (B.disk refused.1) Kept) }
        ensures cause { MatchResult result
            (λ platform. B.faults (board_of platform) ≡ B.faults board)
            (λ refused. HasCause (B.faults board) (B.faults refused.1) (refused.0 ≡ OpenFault.Failed)) }
    {
        let mut board = board;
        let most = match room_for_names(alloc, &mut board) {
            Ok(most) => most,
            Err(fault) => return Err((fault, board)),
        };
        match Cabinet::begin(alloc, board, accounts, most) {
            Ok(mut cabinet) => match cabinet.settle() {
                Ok(()) => Ok(Platform {
                    records: Records {
                        cabinet,
                        unsure: Unsure::Nothing,
                    },
                    unsettled: false,
                }),
                Err(_) => Err((OpenFault::Failed, cabinet.into_board())),
            },
            Err((fault, board)) => Err((fault_of(fault), board)),
        }
    }

    /// The accounts: those that were named, in the order given, then those that were found.
    pub fn accounts(&self) -> &[Text]
        ensures value { result.now ≡ accounts_of self.now }
    {
        self.records.cabinet.accounts()
    }

    /// The board.
    pub fn into_board(self) -> B
        ensures value { result ≡ board_of self }
    {
        let Platform { records, unsettled } = self;
        let Records { cabinet, unsure } = records;
        let _ = (unsure, unsettled);
        cabinet.into_board()
    }
}
