//! Reloading.

ghost use Rattle.std.specs.Prelude.{◌≡◌, ◌<◌, ◌^◌, IsTrue, IsSome, IfErr};
ghost use Rattle.record_names.specs.Names.{is_account_name};
ghost use Rattle.share_api.specs.Conditions.{IsOf};
ghost use Rattle.home_recovery.specs.Told.{lost_tree, IsLoadFault};
ghost use Rattle.user_state.specs.Sound.{IsTellable};
ghost use Rattle.turn_reload.specs.Reloads.{Reloads};

use crate::telling::tell;
use account_machine::Told;
use home_recovery::recover;
use share_api::Share;
use std::alloc::Global;
use stored_home::StoreFault;
use user_state::UserState;

/// Reloads an unsettled account, and says whether its records hold the durable part (`Before`) or the second
/// possible one (`After`). The account is then settled.
///
/// The records are recovered as by `home_recovery::recover`, at the state's last moment; a doubt of a vault
/// file or a leaf takes one more step, a read. The faults are those of `recover`, and after a fault the state
/// is as it was.
pub fn reload<S: Share>(
    alloc: Global,
    state: &mut UserState,
    share: &mut S,
) -> Result<Told, StoreFault>
    requires plain { IsTrue (is_account_name state.old.account) }
    requires own { IsOf (S.seen share.old).owner state.old.account }
    requires last { state.old.last < 2 ^ 40 }
    requires lost { state.old.stored.lost ≡ lost_tree (S.seen share.old).lost }
    requires unsettled { IsSome state.old.doubt }
    requires tellable { IsTellable state.old.doubt state.old }
    // Of whatever contents and user the state fits.
    ensures reloads { Reloads (S.seen share.old) (S.seen share.new) state.old state.new result }
    ensures only { IfErr result IsLoadFault }
    ensures goes { S.goes share.old share.new }
{
    let stored = recover(alloc, state.account.as_str(), share, state.last)?;
    let told = tell(alloc, state, share, &stored)?;
    state.stored = stored;
    state.doubt = None;
    Ok(told)
}
