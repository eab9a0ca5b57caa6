//! The factors are listed.

ghost use Rattle.std.specs.Prelude.{◌≡◌, ◌≤◌, ℕ, List, IsTrue, IsOk, IsErrOf, IfErr, is_some, length, None};
ghost use Rattle.std.specs.FinMap.{len, entries};
ghost use Rattle.account_machine.specs.declared.answer.Answer.TheVariants as answers;
ghost use Rattle.account_machine.specs.declared.request.Request.TheVariants.{ListFactors};
ghost use Rattle.account_machine.specs.declared.request.Turn.TheVariants.{Act};
ghost use Rattle.record_names.specs.Names.{is_account_name};
ghost use Rattle.home_edits.specs.Edits.{told_fault};
ghost use Rattle.user_state.specs.Fits.{is_lost};
ghost use Rattle.user_state.specs.Sound.{IsSound};
ghost use Rattle.user_state.specs.Turns.{IsGiven};
ghost use Rattle.turn_rows.specs.Due.{IsReady, IsDue};
ghost use Rattle.turn_secrets.specs.Listing.{count_told, counted_leaf, Looks, TellsLook, TellsCount, TellsLine};
ghost use Rattle.turn_secrets.specs.Listing.{TellsLines, IsListFault, TellsList, FailsSo, IsListAnswer, after_list};

use crate::damaged::damaged;
use account_machine::{Answer, FactorLine, FactorLines, Kind};
use ct_bytes::Text;
use factor_files::FactorRecord;
use pw_path::Label;
use record_names::RecordName;
use share_api::{LeafView, Share, ShareFault};
use std::alloc::Global;
use stored_home::StoreFault;
use user_state::{Doubt, UserState};

// A share's fault, as a store's.
fn fault_told(fault: ShareFault) -> StoreFault
    ensures { result ≡ told_fault fault }
{
    match fault {
        ShareFault::Failed => StoreFault::Failed,
        ShareFault::TreeLost { host, chip } => StoreFault::TreeLost { host, chip },
        ShareFault::Damaged(name) => StoreFault::Damaged(name),
        ShareFault::NoMemory => StoreFault::NoMemory,
    }
}

// The count that the answer of a look shows. A leaf that isn't there is damaged.
fn count_told(
    account: &str,
    label: Label,
    answer: Result<Option<LeafView>, ShareFault>,
) -> Result<Option<u32>, StoreFault>
    requires { IsTrue (is_account_name account.now) }
    ensures { result ≡ count_told account.now label answer }
{
    match answer {
        Ok(Some(view)) => Ok(Some(view.wrong)),
        Ok(None) => Err(StoreFault::Damaged(RecordName::leaf(account, label))),
        Err(fault) => Err(fault_told(fault)),
    }
}

// The count of wrong tries that a leaf shows.
fn look<S: Share>(account: &str, share: &mut S, label: Label) -> Result<Option<u32>, StoreFault>
    requires plain { IsTrue (is_account_name account.now) }
    requires spare { 1 ≤ (S.seen share.old).spare }
    requires whole { (S.seen share.old).lost ≡ None }
    ensures looks { Looks (S.seen share.old) (S.seen share.new) (IsErrOf result StoreFault.Failed) 1
        (TellsLook account.now label result) }
    ensures only { IfErr result IsListFault }
    ensures goes { S.goes share.old share.new }
{
    count_told(account, label, share.leaf(label))
}

// The leaf that has a factor's count: a PIN's, unless the tree is lost.
fn counted_leaf(row: &FactorRecord, lost: bool) -> Option<Label>
    ensures { result ≡ counted_leaf row.now.kind lost row.now.leaf }
{
    if lost {
        return None;
    }
    match row.kind {
        Kind::Password => None,
        Kind::Pin => row.leaf,
    }
}

// The count of a PIN's leaf, unless the tree is lost. A password has none.
fn count_of<S: Share>(
    account: &str,
    share: &mut S,
    lost: bool,
    row: &FactorRecord,
) -> Result<Option<u32>, StoreFault>
    requires plain { IsTrue (is_account_name account.now) }
    requires spare { 1 ≤ (S.seen share.old).spare }
    requires lost { lost ≡ is_some (S.seen share.old).lost }
    ensures looks { Looks (S.seen share.old) (S.seen share.new) (IsErrOf result StoreFault.Failed) 1
        (TellsCount account.now lost row.now result) }
    ensures only { IfErr result IsListFault }
    ensures goes { S.goes share.old share.new }
{
    match counted_leaf(row, lost) {
        Some(label) => look(account, share, label),
        None => Ok(None),
    }
}

// The line of a factor.
fn line_of<S: Share>(
    account: &str,
    share: &mut S,
    lost: bool,
    row: &(Text, FactorRecord),
) -> Result<FactorLine, StoreFault>
    requires plain { IsTrue (is_account_name account.now) }
    requires spare { 1 ≤ (S.seen share.old).spare }
    requires lost { lost ≡ is_some (S.seen share.old).lost }
    ensures looks { Looks (S.seen share.old) (S.seen share.new) (IsErrOf result StoreFault.Failed) 1
        (TellsLine account.now lost row.now result) }
    ensures only { IfErr result IsListFault }
    ensures goes { S.goes share.old share.new }
{
    let wrong = count_of(account, share, lost, &row.1)?;
    let label = row.0.copy()?;
    Ok(FactorLine {
        label,
        kind: row.1.kind,
        wrong,
    })
}

// The lines of all factors, in order of label.
fn lines_of<S: Share>(
    alloc: Global,
    account: &str,
    share: &mut S,
    lost: bool,
    rows: &[(Text, FactorRecord)],
) -> Result<FactorLines, StoreFault>
    requires plain { IsTrue (is_account_name account.now) }
    requires spare { length rows.now ≤ (S.seen share.old).spare }
    requires lost { lost ≡ is_some (S.seen share.old).lost }
    ensures looks { Looks (S.seen share.old) (S.seen share.new) (IsErrOf result StoreFault.Failed) (length rows.now)
        (TellsLines account.now lost rows.now result) }
    ensures only { IfErr result IsListFault }
    ensures goes { S.goes share.old share.new }
{
    let mut lines = FactorLines::new(alloc);
    'rows: for row in rows {
        let line = line_of(account, share, lost, row)?;
        lines.push(line)?;
    }
    Ok(lines)
}

// The lines of the loaded factors.
fn listed<S: Share>(
    alloc: Global,
    state: &UserState,
    share: &mut S,
) -> Result<FactorLines, StoreFault>
    requires plain { IsTrue (is_account_name state.now.account) }
    requires lost { is_some (S.seen share.old).lost ≡ is_lost state.now }
    requires spare { len state.now.stored.factors ≤ (S.seen share.old).spare }
    ensures looks { Looks (S.seen share.old) (S.seen share.new) (IsErrOf result StoreFault.Failed)
        (len state.now.stored.factors)
        (TellsLines state.now.account (is_lost state.now) (entries state.now.stored.factors) result) }
    ensures only { IfErr result IsListFault }
    ensures goes { S.goes share.old share.new }
{
    let lost = state.stored.lost.is_some();
    let rows = state.stored.factors.rows();
    lines_of(alloc, state.account.as_str(), share, lost, rows)
}

// The answer to a list whose looks have a fault. After a failed look the account is unsettled.
fn fail(alloc: Global, state: &mut UserState, fault: StoreFault) -> Answer
    requires { IsListFault fault }
    ensures { FailsSo state.old fault state.new result }
{
    match fault {
        StoreFault::Failed => {
            state.doubt = Some(Doubt::Editions);
            Answer::StorageFault
        }
        StoreFault::Damaged(name) => damaged(alloc, &name),
        StoreFault::NoMemory => Answer::NoMemory,
        StoreFault::TreeLost { .. } => unreachable!(),
    }
}

/// Lists the factors in order of label, a PIN with its count of wrong tries.
///
/// Each PIN's leaf is looked at, in one device step, unless the tree is lost: then the counts are left out, and no step
/// is made. The other answers are `StorageFault` where a look failed, and the account is then unsettled; `Damaged` with
/// the name of a PIN's leaf that isn't there; and `NoMemory`.
pub fn list_factors<S: Share>(alloc: Global, state: &mut UserState, share: &mut S) -> Answer
    requires ready { IsReady state.old }
    requires sound { IsSound state.old }
    requires due { IsDue state.old (Act (ListFactors state.old.account)) }
    requires lost { is_some (S.seen share.old).lost ≡ is_lost state.old }
    requires spare { len state.old.stored.factors ≤ (S.seen share.old).spare }
    ensures given { (account : List ℕ) → IsGiven (S.seen share.old) (S.seen share.new) state.old state.new
        (Act (ListFactors account)) result }
    ensures sound { IsSound state.new }
    ensures looks { Looks (S.seen share.old) (S.seen share.new) (result ≡ answers.StorageFault)
        (len state.old.stored.factors) (TellsList state.old result) }
    ensures known { IsListAnswer result }
    ensures after { state.new ≡ after_list result state.old }
    ensures goes { S.goes share.old share.new }
{
    match listed(alloc, state, share) {
        Ok(lines) => Answer::OkFactors(lines),
        Err(fault) => fail(alloc, state, fault),
    }
}
