//! Giving a PIN another secret.

ghost use Rattle.std.specs.Prelude.{◌≡◌, ◌≤◌, ◌<◌, ◌^◌, IsTrue, IsErr, IsErrOf, IfErr, OnErr, IsSome, IsSomeAnd, is_some};
ghost use Rattle.std.specs.FinMap.{get};
ghost use Rattle.record_names.specs.Names.{is_account_name, is_factor_label};
ghost use Rattle.share_api.specs.Conditions.{IsOf};
ghost use Rattle.stored_home.specs.Coherent.{IsCoherent};
ghost use Rattle.stored_home.specs.Sizes.{IsShort};
ghost use Rattle.home_edits.specs.Costs.{PutsCost};
ghost use Rattle.home_edits.specs.Passwords.{TakesFactor};
ghost use Rattle.pin_edits.specs.Faults.{IsSetFault, TellsLost};
ghost use Rattle.pin_edits.specs.Pins.{SetsPin, EditsPin, ComesToNothing};

use crate::lost::in_step;
use crate::pin_stash::NewPin;
use crate::removal::removals_of;
use crate::setting::set_held;
use ct_bytes::Text;
use home_edits::Ivs;
use share_api::Share;
use std::alloc::Global;
use stored_home::{StoreFault, Stored};

/// Gives a PIN another secret, under the next edition, with a new leaf. The steps are the insert of the new leaf, the
/// put of its new record, the put of the stash, which is the commit point, and the removals of its old leaf and of its
/// old record.
///
/// `main` is the home's main key, and `pin` has what is derived of the new secret, and the schedule from then on. No
/// two texts may be sealed under one key and IV. `moment` is in seconds. The faults are those of `add_pin`; `Failed`
/// comes also after the commit point. After a fault `stored` is as it was.
pub fn update_pin<S: Share>(
    alloc: Global,
    stored: &mut Stored,
    share: &mut S,
    account: &str,
    label: &Text,
    pin: &NewPin,
    main: &[u8; 32],
    ivs: &Ivs,
    moment: u64,
) -> Result<(), StoreFault>
    requires plain { IsTrue (is_account_name account.now) }
    requires own { IsOf (S.seen share.old).owner account.now }
    requires spare { 5 ≤ (S.seen share.old).spare }
    requires moment { moment < 2 ^ 40 }
    requires lost { is_some (S.seen share.old).lost ≡ is_some stored.old.lost }
    requires home { IsSomeAnd stored.old.stash (TakesFactor label.now) }
    requires label { IsTrue (is_factor_label label.now) }
    requires known { IsSomeAnd (get stored.old.factors label.now) (λ row. IsSome row.leaf) }
    requires least { 1 ≤ pin.now.derived.cost }
    requires most { pin.now.derived.cost ≤ 16 }
    ensures edits { EditsPin (S.seen share.old) (S.seen share.new) account.now stored.old stored.new result
        (SetsPin label.now pin.now main.now) }
    ensures cost { PutsCost (S.seen share.old) (S.seen share.new) account.now pin.now.derived.cost }
    ensures lost { stored.new.lost ≡ stored.old.lost }
    ensures err { OnErr result (stored.new ≡ stored.old) }
    ensures short { IsShort stored.old → IsShort stored.new }
    ensures coherent { IsCoherent account.now stored.old → IsCoherent account.now stored.new }
    ensures only { IfErr result (IsSetFault account.now) }
    ensures tree { TellsLost stored.old.lost result }
    ensures still { IsSome stored.old.lost → S.seen share.new ≡ S.seen share.old }
    ensures calm { IsErr result → (IsErrOf result StoreFault.Failed → ⊥)
        → ComesToNothing (S.seen share.old) (S.seen share.new) }
    ensures goes { S.goes share.old share.new }
{
    in_step(stored)?;
    let old = removals_of(account, &stored.factors, label);
    set_held(
        alloc,
        stored,
        share,
        account,
        label,
        pin,
        main,
        ivs,
        Some(old),
        moment,
    )
}
