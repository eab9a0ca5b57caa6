//! Adding a PIN.

ghost use Rattle.std.specs.Prelude.{◌≡◌, ◌≤◌, ◌<◌, ◌^◌, IsTrue, IsErr, IsErrOf, IfErr, OnErr, IsSome, IsSomeAnd, None, is_some};
ghost use Rattle.std.specs.FinMap.{get};
ghost use Rattle.record_names.specs.Names.{is_account_name, is_factor_label};
ghost use Rattle.share_api.specs.Conditions.{IsOf};
ghost use Rattle.stored_home.specs.Coherent.{IsCoherent, pin_rows};
ghost use Rattle.stored_home.specs.Sizes.{IsShort};
ghost use Rattle.home_edits.specs.Costs.{PutsCost};
ghost use Rattle.home_edits.specs.Passwords.{TakesFactor};
ghost use Rattle.pin_edits.specs.Faults.{IsSetFault, TellsLost};
ghost use Rattle.pin_edits.specs.Pins.{SetsPin, EditsPin, ComesToNothing};

use crate::lost::in_step;
use crate::pin_stash::NewPin;
use crate::setting::set_held;
use ct_bytes::Text;
use home_edits::Ivs;
use share_api::Share;
use std::alloc::Global;
use stored_home::{StoreFault, Stored};

/// Adds a PIN to a home that has factors, with its leaf, its record and its block. The steps are the insert of the
/// leaf, the put of the record and the put of the stash, which is the commit point.
///
/// `main` is the home's main key, and `pin` has what is derived of the new secret. No two texts may be sealed under one
/// key and IV. `moment` is in seconds. The faults are `TreeLost` exactly where the tree is lost, and `Damaged` with the
/// stash's name where its payload doesn't open or has 16 other reset secrets, both with no step made, `Damaged` with
/// the name of the new leaf where a loaded record names it already, `Failed`, and `NoMemory`: where the record couldn't
/// be named once the leaf was inserted, the leaf was removed again. After a fault `stored` is as it was.
pub fn add_pin<S: Share>(
    alloc: Global,
    stored: &mut Stored,
    share: &mut S,
    account: &str,
    label: &Text,
    pin: &NewPin,
    main: &[u8; 32],
    ivs: &Ivs,
    moment: u64,
) -> Result<(), StoreFault>
    requires plain { IsTrue (is_account_name account.now) }
    requires own { IsOf (S.seen share.old).owner account.now }
    requires spare { 3 ≤ (S.seen share.old).spare }
    requires moment { moment < 2 ^ 40 }
    requires lost { is_some (S.seen share.old).lost ≡ is_some stored.old.lost }
    requires home { IsSomeAnd stored.old.stash (TakesFactor label.now) }
    requires label { IsTrue (is_factor_label label.now) }
    requires absent { get stored.old.factors label.now ≡ None }
    requires least { 1 ≤ pin.now.derived.cost }
    requires most { pin.now.derived.cost ≤ 16 }
    ensures edits { EditsPin (S.seen share.old) (S.seen share.new) account.now stored.old stored.new result
        (SetsPin label.now pin.now main.now) }
    ensures cost { PutsCost (S.seen share.old) (S.seen share.new) account.now pin.now.derived.cost }
    ensures lost { stored.new.lost ≡ stored.old.lost }
    ensures err { OnErr result (stored.new ≡ stored.old) }
    ensures short { IsShort stored.old → IsShort stored.new }
    ensures coherent { pin_rows stored.old.factors < 8 → IsCoherent account.now stored.old
        → IsCoherent account.now stored.new }
    ensures only { IfErr result (IsSetFault account.now) }
    ensures tree { TellsLost stored.old.lost result }
    ensures still { IsSome stored.old.lost → S.seen share.new ≡ S.seen share.old }
    ensures calm { IsErr result → (IsErrOf result StoreFault.Failed → ⊥)
        → ComesToNothing (S.seen share.old) (S.seen share.new) }
    ensures goes { S.goes share.old share.new }
{
    in_step(stored)?;
    set_held(
        alloc, stored, share, account, label, pin, main, ivs, None, moment,
    )
}
