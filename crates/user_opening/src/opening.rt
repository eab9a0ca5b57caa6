//! Opening.

ghost use Rattle.std.specs.Prelude.{◌≡◌, ◌≤◌, ◌<◌, ◌^◌, ◌++◌, codes, IfOk, IfErr, IsTrue};
ghost use Rattle.hmac_sha.specs.Hmac.{hmac};
ghost use Rattle.home_recovery.specs.Told.{IsLoadFault};
ghost use Rattle.random_values.specs.Stretches.{begun};
ghost use Rattle.record_names.specs.Names.{is_account_name};
ghost use Rattle.share_api.specs.Conditions.{IsOf};
ghost use Rattle.user_opening.specs.Opens.{OpensUser};

use auth_session::SessionTable;
use ct_bytes::Text;
use home_recovery::recover;
use random_values::Generator;
use share_api::Share;
use std::alloc::Global;
use stored_home::StoreFault;
use user_state::UserState;

/// Opens an account: recovers its records, as `home_recovery::recover` does, and gives its first state. The account
/// is settled, with no session and nothing mounted.
///
/// `account` is in its grammar, and the share is the account's. `entropy` is the run's, for the account's generator.
/// `cost` is the cost exponent of new factors, from 1 to 16. `moment` is that of the opening, in seconds: it is the
/// account's last moment, and that of the removals of leaves.
///
/// The faults are those of `recover`. Where there is no memory for the sessions it is `NoMemory`, and no step is made.
pub fn open_user<S: Share>(
    alloc: Global,
    account: Text,
    share: &mut S,
    entropy: &[u8; 32],
    cost: u8,
    moment: u64,
) -> Result<UserState, StoreFault>
    requires plain { IsTrue (is_account_name account) }
    requires own { IsOf (S.seen share.old).owner account }
    requires least { 1 ≤ cost }
    requires most { cost ≤ 16 }
    requires moment { moment < 2 ^ 40 }
    // Of whatever contents the device steps fit.
    ensures opens { OpensUser (S.seen share.old) (S.seen share.new) account cost moment
        (begun (hmac entropy.now (codes "account" ++ account))) result }
    ensures only { IfErr result IsLoadFault }
    ensures goes { S.goes share.old share.new }
{
    let sessions = SessionTable::new(alloc)?;
    let stored = recover(alloc, account.as_str(), share, moment)?;
    let generator = Generator::of_account(entropy, account.as_str());
    Ok(UserState {
        account,
        cost,
        stored,
        doubt: None,
        sessions,
        vault: None,
        last: moment,
        generator,
    })
}
