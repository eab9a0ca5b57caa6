//! Turns that look and change nothing.

use crate::device::CountingDevice;
use home_locks::AccountTurns;
use pw_path::Label;
use share_api::Share;
use std::alloc::Global;

/// Turns that look at one leaf, over a platform that holds nothing.
pub struct LookTurns;

impl AccountTurns for LookTurns {
    ghost use Rattle.home_lock_tests.specs.Looks.{look_rules, IsBlankImage, TellsNumber, looks_last, looks_recover};

    type Platform = CountingDevice;

    type Contents = u8;

    type Durable = u8;

    type User = u8;

    type Asked = u64;

    type Turn = u64;

    type Told = u64;

    type State = u8;

    ghost rules = { λ era. look_rules };

    ghost tells = { TellsNumber };

    ghost ready = { λ owner lost state. Unit {0} };

    ghost contents = { λ device account. 0 };

    ghost opened = { λ device. Unit {0} };

    ghost images = { λ first now. IsBlankImage };

    ghost images_now = { λ device. IsBlankImage };

    ghost recovers = { λ first now chain opened stands. looks_recover chain };

    ghost lasts = { λ first now chain opened stands. looks_last chain };

    fn blank() -> u64 {
        0
    }

    fn act<S: Share>(alloc: Global, share: &mut S, state: &mut u8, asked: u64) -> (u64, u64) {
        let _ = state;
        if share.stock(alloc, 1).is_err() {
            return (asked, asked);
        }
        let _ = share.leaf(Label::new(0).unwrap());
        (asked, asked)
    }
}
