//! Trying a PIN.

ghost use Rattle.std.specs.Prelude.{◌≡◌, ℕ, ◌≤◌, ◌<◌, ◌^◌, List, IsSome, IfErr, IsSomeAnd, Some, is_some};
ghost use Rattle.std.specs.FinMap.{get};
ghost use Rattle.factor_files.specs.declared.factor.FactorRecord.{FactorRecord as RowSeen};
ghost use Rattle.home_edits.specs.Edits.{told_fault};
ghost use Rattle.pin_edits.specs.Faults.{IsTryFault, TellsLost};
ghost use Rattle.pin_edits.specs.Tries.{EditsByTry, told_try};

use crate::lost::in_step;
use ct_bytes::Text;
use factor_files::FactorRecord;
use home_edits::wrap_of;
use name_map::NameMap;
use pw_path::Label;
use share_api::{Share, ShareFault, TryAnswer};
use stored_home::{StoreFault, Stored};

/// A share's fault, as an edit tells it.
pub(crate) fn told(fault: ShareFault) -> StoreFault
    ensures value { result ≡ told_fault fault }
{
    match fault {
        ShareFault::Failed => StoreFault::Failed,
        ShareFault::TreeLost { host, chip } => StoreFault::TreeLost { host, chip },
        ShareFault::Damaged(name) => StoreFault::Damaged(name),
        ShareFault::NoMemory => StoreFault::NoMemory,
    }
}

// How the try of a leaf ended, as an edit tells it.
fn answered(tried: Result<TryAnswer, ShareFault>) -> Result<TryAnswer, StoreFault>
    ensures value { result ≡ told_try tried }
{
    match tried {
        Ok(answer) => Ok(answer),
        Err(fault) => Err(told(fault)),
    }
}

/// The label of a PIN's leaf.
pub(crate) fn leaf_of(rows: &NameMap<FactorRecord>, label: &Text) -> Label
    requires known { IsSomeAnd (get rows.now label.now) (λ row. IsSome row.leaf) }
    ensures value { (row : RowSeen) → get rows.now label.now ≡ Some row → row.leaf ≡ Some result }
{
    let Some(row) = rows.get(label) else {
        unreachable!()
    };
    let Some(tree) = row.leaf else { unreachable!() };
    tree
}

/// Tries a PIN with what was derived of a secret, of which the first half is the low-entropy secret. The try of its
/// leaf is the one device step. After a wrong secret the PIN's count is one higher, and after a right one it is 0.
///
/// `key` is derived with the record's salt and cost, and `moment` is in seconds. `Right` has the leaf's high-entropy
/// secret. The faults are `TreeLost` exactly where the tree is lost, with no step made, `Failed`, and `Damaged` with
/// the leaf's name, after which nothing has changed.
pub fn try_pin<S: Share>(
    stored: &Stored,
    share: &mut S,
    label: &Text,
    key: &[u8; 64],
    moment: u64,
) -> Result<TryAnswer, StoreFault>
    requires spare { 1 ≤ (S.seen share.old).spare }
    requires moment { moment < 2 ^ 40 }
    requires lost { is_some (S.seen share.old).lost ≡ is_some stored.now.lost }
    requires known { IsSomeAnd (get stored.now.factors label.now) (λ row. IsSome row.leaf) }
    ensures edits { (account : List ℕ) → EditsByTry (S.seen share.old) (S.seen share.new) account stored.now label.now
        key.now moment result }
    ensures only { (row : RowSeen) (tree : ℕ) → get stored.now.factors label.now ≡ Some row → row.leaf ≡ Some tree
        → IfErr result (IsTryFault tree) }
    ensures tree { TellsLost stored.now.lost result }
    ensures still { IsSome stored.now.lost → S.seen share.new ≡ S.seen share.old }
    ensures goes { S.goes share.old share.new }
{
    in_step(stored)?;
    let tree = leaf_of(&stored.factors, label);
    answered(share.try_leaf(tree, &wrap_of(key), moment))
}
