//! The device.

ghost use Rattle.std.specs.Prelude.{IsTrue};
ghost use Rattle.std.specs.List.{list_all};
ghost use Rattle.home_names.specs.Names.{is_account_name};
ghost use Rattle.platform_core.specs.Held.{accounts_of};

use fault_count::FaultCount;
use platform_core::Platform;
use pw_types::Era;

/// A platform of records over a board, as its lock takes it.
///
/// It has no chip, and so no leaves. It counts the steps that it refuses: a new leaf, and a put for whose name there
/// is no room.
#[derive(Drop)]
pub struct BoardDevice<B> {
    pub(crate) platform: Platform<B>,
    pub(crate) era: Era,
    pub(crate) refused: FaultCount,
    ghost named: { IsTrue (list_all is_account_name (accounts_of platform)) },
}
