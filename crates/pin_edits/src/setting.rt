//! Setting a PIN, which is new or gets another secret.

ghost use Rattle.std.specs.Prelude.{◌≡◌, ℕ, ◌≤◌, ◌<◌, ◌^◌, IsTrue, IsOk, IsErr, IsErrOf, IfOk, IfErr, OnOk, OnErr, IsSome, IsSomeAnd, None, Some, ◌∷◌};
ghost use Rattle.std.specs.List.{list_any};
ghost use Rattle.std.specs.FinMap.{get, insert, entries};
ghost use Rattle.record_names.specs.Names.{is_account_name, is_factor_label};
ghost use Rattle.factor_files.specs.declared.factor.FactorRecord.{FactorRecord as RowSeen};
ghost use Rattle.share_api.specs.Conditions.{IsOf};
ghost use Rattle.share_api.specs.Contents.{Bytes};
ghost use Rattle.share_api.specs.Seen.{Tries};
ghost use Rattle.share_api.specs.declared.step.Write.{Write};
ghost use Rattle.stored_home.specs.Coherent.{IsCoherent};
ghost use Rattle.stored_home.specs.Sizes.{IsShort};
ghost use Rattle.home_edits.specs.Costs.{PutsCost};
ghost use Rattle.home_edits.specs.Passwords.{TakesFactor};
ghost use Rattle.pin_edits.specs.Faults.{IsStashFault, IsNamedFault, IsHeldFault};
ghost use Rattle.pin_edits.specs.Pins.{pin_leaf, pin_row, names_tree, IsFreeLeaf, IsTakenLeaf, IsOldPin, HasRoom, IsPinStash, SetsPin, PutsPin, EditsPin, ComesToNothing};
ghost use Rattle.pin_edits.specs.Writes.{IsOwnWrite, IsOwnRest, IsRowWrite, IsStashWrite, rest_of};

use crate::pin_stash::{NewPin, leaf_of_pin, pin_stash};
use crate::records::{row_write, stash_write};
use crate::steps::{change_set, give_back, insert};
use account_machine::Kind;
use ct_bytes::{NoMemory, Text};
use factor_files::FactorRecord;
use home_edits::Ivs;
use name_map::{Copied, NameMap};
use pw_path::Label;
use record_names::RecordName;
use secret_stash::Stash;
use share_api::{Share, Write};
use std::alloc::Global;
use stored_home::{Derived, StoreFault, Stored};

// The record of a PIN.
fn new_row(
    label: &Text,
    edition: u64,
    derived: &Derived,
    tree: Label,
) -> Result<FactorRecord, NoMemory>
    ensures value { IfOk result (λ row. row ≡ pin_row label.now edition derived.now tree) }
{
    let label = label.copy()?;
    Ok(FactorRecord {
        kind: Kind::Pin,
        label,
        edition,
        cost: derived.cost,
        salt: derived.salt,
        leaf: Some(tree),
    })
}

// The loaded factors with a PIN, and the put of its record.
fn with_row(
    alloc: Global,
    account: &str,
    rows: &NameMap<FactorRecord>,
    label: &Text,
    edition: u64,
    derived: &Derived,
    tree: Label,
) -> Result<(NameMap<FactorRecord>, Write), NoMemory>
    requires plain { IsTrue (is_account_name account.now) }
    requires label { IsTrue (is_factor_label label.now) }
    requires from { 1 ≤ edition }
    requires least { 1 ≤ derived.now.cost }
    requires most { derived.now.cost ≤ 16 }
    ensures factors { IfOk result (λ made. made.0
        ≡ insert rows.now label.now (pin_row label.now edition derived.now tree)) }
    ensures put { IfOk result (λ made. IsRowWrite account.now (pin_row label.now edition derived.now tree) made.1) }
{
    let row = new_row(label, edition, derived, tree)?;
    let put = row_write(alloc, account, &row)?;
    let name = label.copy()?;
    let mut made = rows.copy()?;
    made.insert(name, row)?;
    Ok((made, put))
}

// Whether the record names this leaf.
fn names_tree(row: &FactorRecord, tree: Label) -> bool
    ensures value { result ≡ names_tree tree row.now.leaf }
{
    match row.leaf {
        Some(leaf) => leaf == tree,
        None => false,
    }
}

// Whether a loaded record names this leaf.
fn names_leaf(rows: &NameMap<FactorRecord>, tree: Label) -> bool
    ensures value { result ≡ list_any (λ (row : Bytes × RowSeen). names_tree tree row.1.leaf) (entries rows.now) }
{
    rows.rows().iter().any(|row| names_tree(&row.1, tree))
}

// The loaded factors with a PIN, and the put of its record. A leaf that a loaded record names already is damaged: it
// should have been there.
fn named_row(
    alloc: Global,
    account: &str,
    rows: &NameMap<FactorRecord>,
    label: &Text,
    edition: u64,
    derived: &Derived,
    tree: Label,
) -> Result<(NameMap<FactorRecord>, Write), StoreFault>
    requires plain { IsTrue (is_account_name account.now) }
    requires label { IsTrue (is_factor_label label.now) }
    requires from { 1 ≤ edition }
    requires least { 1 ≤ derived.now.cost }
    requires most { derived.now.cost ≤ 16 }
    ensures free { IsOk result → IsFreeLeaf rows.now tree }
    ensures factors { IfOk result (λ made. made.0
        ≡ insert rows.now label.now (pin_row label.now edition derived.now tree)) }
    ensures put { IfOk result (λ made. IsRowWrite account.now (pin_row label.now edition derived.now tree) made.1) }
    ensures only { IfErr result (IsNamedFault account.now tree) }
    ensures taken { (name : Bytes) → IsErrOf result (StoreFault.Damaged name) → IsTakenLeaf rows.now tree }
{
    if names_leaf(rows, tree) {
        return Err(StoreFault::Damaged(RecordName::leaf(account, tree)));
    }
    let made = with_row(alloc, account, rows, label, edition, derived, tree)?;
    Ok(made)
}

// The two puts, the removal of what the PIN had, and the loaded state after them. The second put is the commit point.
fn commit<S: Share>(
    stored: &mut Stored,
    share: &mut S,
    stash: Stash,
    factors: NameMap<FactorRecord>,
    row_put: Write,
    stash_put: Write,
    old: Option<(Write, Write)>,
    moment: u64,
) -> Result<(), StoreFault>
    requires spare { 2 ≤ (S.seen share.old).spare }
    requires more { IsSome old → 4 ≤ (S.seen share.old).spare }
    requires row_own { IsOwnWrite (S.seen share.old).owner row_put }
    requires stash_own { IsOwnWrite (S.seen share.old).owner stash_put }
    requires rest_own { IsOwnRest (S.seen share.old).owner old }
    requires moment { moment < 2 ^ 40 }
    requires tree { (S.seen share.old).lost ≡ None }
    ensures tried { Tries (S.seen share.old) (S.seen share.new) (row_put ∷ stash_put ∷ rest_of old)
        (IsOk result) (IsErr result) }
    ensures ok { OnOk result (stored.new ≡ record stored.old { stash = Some stash; factors = factors }) }
    ensures err { OnErr result (stored.new ≡ stored.old) }
    ensures lost { stored.new.lost ≡ stored.old.lost }
    ensures only { IsErr result → IsErrOf result StoreFault.Failed }
    ensures goes { S.goes share.old share.new }
{
    change_set(share, row_put, stash_put, old, moment)?;
    stored.stash = Some(stash);
    stored.factors = factors;
    Ok(())
}

// What comes once a PIN's leaf is inserted: its record is named and put, then the stash is put, and then what the PIN
// had is removed. Where the record can't be named, the leaf is removed again.
fn put_named<S: Share>(
    alloc: Global,
    stored: &mut Stored,
    share: &mut S,
    account: &str,
    label: &Text,
    edition: u64,
    derived: &Derived,
    tree: Label,
    stash: Stash,
    put: Write,
    old: Option<(Write, Write)>,
    moment: u64,
) -> Result<(), StoreFault>
    requires plain { IsTrue (is_account_name account.now) }
    requires own { IsOf (S.seen share.old).owner account.now }
    requires put_own { IsOwnWrite (S.seen share.old).owner put }
    requires rest_own { IsOwnRest (S.seen share.old).owner old }
    requires spare { 2 ≤ (S.seen share.old).spare }
    requires more { IsSome old → 4 ≤ (S.seen share.old).spare }
    requires moment { moment < 2 ^ 40 }
    requires tree { (S.seen share.old).lost ≡ None }
    requires label { IsTrue (is_factor_label label.now) }
    requires from { 1 ≤ edition }
    requires least { 1 ≤ derived.now.cost }
    requires most { derived.now.cost ≤ 16 }
    ensures puts { PutsPin (S.seen share.old) (S.seen share.new) account.now
        (pin_row label.now edition derived.now tree) tree put old result }
    ensures free { IsOk result → IsFreeLeaf stored.old.factors tree }
    ensures taken { (name : Bytes) → IsErrOf result (StoreFault.Damaged name)
        → IsTakenLeaf stored.old.factors tree }
    ensures ok { OnOk result (stored.new ≡ record stored.old {
      stash = Some stash;
      factors = insert stored.old.factors label.now (pin_row label.now edition derived.now tree);
    }) }
    ensures err { OnErr result (stored.new ≡ stored.old) }
    ensures lost { stored.new.lost ≡ stored.old.lost }
    ensures only { IfErr result (IsHeldFault account.now) }
    ensures goes { S.goes share.old share.new }
{
    match named_row(
        alloc,
        account,
        &stored.factors,
        label,
        edition,
        derived,
        tree,
    ) {
        Ok((factors, row_put)) => {
            commit(stored, share, stash, factors, row_put, put, old, moment)
        }
        Err(fault) => give_back(share, tree, fault, moment),
    }
}

// The stash with a new PIN, and its put.
fn prepare(
    account: &str,
    stash: &Stash,
    label: &Text,
    pin: &NewPin,
    main: &[u8; 32],
    ivs: &Ivs,
) -> Result<(Stash, Write), StoreFault>
    requires plain { IsTrue (is_account_name account.now) }
    requires label { IsTrue (is_factor_label label.now) }
    requires takes { TakesFactor label.now stash.now }
    ensures stash { IfOk result (λ made. IsPinStash stash.now label.now pin.now main.now ivs.now.block made.0) }
    ensures put { IfOk result (λ made. IsStashWrite account.now made.0 made.1) }
    ensures only { IfErr result (IsStashFault account.now) }
{
    let made = pin_stash(account, stash, label, pin, main, ivs)?;
    let put = stash_write(account, &made)?;
    Ok((made, put))
}

/// Sets a PIN where the tree isn't lost. `old` has the removals of what the label's PIN had, and is `None` where the
/// label is new.
pub(crate) fn set_held<S: Share>(
    alloc: Global,
    stored: &mut Stored,
    share: &mut S,
    account: &str,
    label: &Text,
    pin: &NewPin,
    main: &[u8; 32],
    ivs: &Ivs,
    old: Option<(Write, Write)>,
    moment: u64,
) -> Result<(), StoreFault>
    requires plain { IsTrue (is_account_name account.now) }
    requires own { IsOf (S.seen share.old).owner account.now }
    requires spare { 3 ≤ (S.seen share.old).spare }
    requires more { IsSome old → 5 ≤ (S.seen share.old).spare }
    requires moment { moment < 2 ^ 40 }
    requires tree { (S.seen share.old).lost ≡ None }
    requires home { IsSomeAnd stored.old.stash (TakesFactor label.now) }
    requires label { IsTrue (is_factor_label label.now) }
    requires had { IsOldPin account.now stored.old.factors label.now old }
    requires least { 1 ≤ pin.now.derived.cost }
    requires most { pin.now.derived.cost ≤ 16 }
    ensures edits { EditsPin (S.seen share.old) (S.seen share.new) account.now stored.old stored.new result
        (SetsPin label.now pin.now main.now) }
    ensures cost { PutsCost (S.seen share.old) (S.seen share.new) account.now pin.now.derived.cost }
    ensures lost { stored.new.lost ≡ stored.old.lost }
    ensures err { OnErr result (stored.new ≡ stored.old) }
    ensures short { IsShort stored.old → IsShort stored.new }
    ensures coherent { HasRoom stored.old.factors old → IsCoherent account.now stored.old
        → IsCoherent account.now stored.new }
    ensures only { IfErr result (IsHeldFault account.now) }
    ensures calm { IsErr result → (IsErrOf result StoreFault.Failed → ⊥)
        → ComesToNothing (S.seen share.old) (S.seen share.new) }
    ensures goes { S.goes share.old share.new }
{
    let Some(stash) = &stored.stash else {
        unreachable!()
    };
    let edition = stash.next();
    let (made, put) = prepare(account, stash, label, pin, main, ivs)?;
    let tree = insert(share, &leaf_of_pin(pin), moment)?;
    put_named(
        alloc,
        stored,
        share,
        account,
        label,
        edition,
        &pin.derived,
        tree,
        made,
        put,
        old,
        moment,
    )
}
