//! Turns that do nothing, over a platform of records.

use board_device::{AccountContents, BoardDevice};
use board_model::Board;
use home_locks::AccountTurns;
use share_api::Share;
use std::alloc::Global;

/// Turns that do nothing, over a platform of records. What the locks ask of a platform is met by it.
pub struct RecordTurns<B> {
    pub board: B,
}

impl<B: Board + Drop> AccountTurns for RecordTurns<B> {
    ghost use Rattle.board_device.specs.Device.{board_of};
    ghost use Rattle.board_device.specs.Standing.{IsOpened, contents_of, images_now, images_since};
    ghost use Rattle.home_lock_tests.specs.Looks.{TellsNumber};
    ghost use Rattle.home_lock_tests.specs.Records.{record_rules, records_last, records_recover};

    type Platform = BoardDevice<B>;

    type Contents = AccountContents;

    type Durable = u8;

    type User = u8;

    type Asked = u64;

    type Turn = u64;

    type Told = u64;

    type State = u8;

    ghost rules = { record_rules };

    ghost tells = { TellsNumber };

    ghost ready = { λ owner lost state. Unit {0} };

    ghost contents = { contents_of B.disk };

    ghost opened = { IsOpened B.disk };

    ghost images = { images_since B.disk };

    ghost images_now = { images_now B.disk };

    ghost recovers = { λ first now chain opened stands. records_recover B.disk first now chain opened stands
        (B.synced_now (board_of now)) (B.is_image (board_of now)) };

    ghost lasts = { records_last B.disk };

    fn blank() -> u64 {
        0
    }

    fn act<S: Share>(alloc: Global, share: &mut S, state: &mut u8, asked: u64) -> (u64, u64) {
        let _ = (alloc, share.spare());
        let _ = state;
        (asked, asked)
    }
}
