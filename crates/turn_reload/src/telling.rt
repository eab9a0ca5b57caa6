//! What tells the two possible durable parts of an account apart.

ghost use Rattle.std.specs.Prelude.{◌≡◌, ◌≢◌, ◌↔◌, ◌⊎◌, None, Some, false, IsOk, IsErrOf, IfOk, IfErr, IsSomeAnd, IsTrue};
ghost use Rattle.account_machine.specs.declared.entry.Told.TheVariants as told_as;
ghost use Rattle.record_names.specs.Names.{AreParts, File};
ghost use Rattle.stored_home.specs.declared.fault.StoreFault.{StoreFault};
ghost use Rattle.home_recovery.specs.Parts.{Serves};
ghost use Rattle.home_recovery.specs.Reading.{Reads};
ghost use Rattle.home_recovery.specs.Told.{IsStepFault};
ghost use Rattle.turn_reload.specs.Evidence.{CanTell, TellsRecord, TellsShown, Tells, Says};

use crate::editions::are_same;
use account_machine::Told;
use ct_bytes::{Blob, Text};
use home_recovery::{find_bytes, find_view};
use pw_path::Label;
use pw_types::{Schedule, Stamp};
use secret_stash::Stash;
use share_api::{LeafView, RecordName, Share};
use std::alloc::Global;
use stored_home::{StoreFault, Stored};
use user_state::{Doubt, UserState};

// Whether these are the bytes that were found.
fn is_record(found: &Option<Blob>, bytes: &Blob) -> bool
    ensures same { IsTrue result → found.now ≡ Some bytes.now }
    ensures differ { result ≡ false → found.now ≢ Some bytes.now }
{
    match found {
        Some(known) => known.as_slice() == bytes.as_slice(),
        None => false,
    }
}

// Whether two moments are one.
fn is_same_stamp(one: &Stamp, other: &Stamp) -> bool
    ensures { IsTrue result ↔ (one.now ≡ other.now) }
{
    one.boot == other.boot && one.at == other.at
}

// Whether two schedules are one.
fn is_same_schedule(one: &Schedule, other: &Schedule) -> bool
    ensures { IsTrue result ↔ (one.now ≡ other.now) }
{
    one.pairs() == other.pairs()
}

// Whether two views are one.
fn is_same_view(one: &LeafView, other: &LeafView) -> bool
    ensures { IsTrue result ↔ (one.now ≡ other.now) }
{
    one.wrong == other.wrong
        && is_same_stamp(&one.last, &other.last)
        && is_same_schedule(&one.schedule, &other.schedule)
}

// Whether this is the view that was seen.
fn is_view(seen: Option<LeafView>, view: &LeafView) -> bool
    ensures same { IsTrue result → seen ≡ Some view.now }
    ensures differ { result ≡ false → seen ≢ Some view.now }
{
    match seen {
        Some(seen) => is_same_view(&seen, view),
        None => false,
    }
}

// Whether the vault file has another record than this one, or none.
fn has_other_record<S: Share>(
    alloc: Global,
    account: &str,
    share: &mut S,
    name: &Text,
    bytes: &Blob,
) -> Result<bool, StoreFault>
    requires serves { Serves account.now (S.seen share.old) }
    requires name { AreParts (File account.now name.now) }
    ensures read { Reads (S.seen share.old) (S.seen share.new) (IsOk result) (IsErrOf result StoreFault.Failed) 1
        (TellsRecord account.now name.now bytes.now result) }
    ensures only { IfErr result IsStepFault }
    ensures goes { S.goes share.old share.new }
{
    share.stock(alloc, 1)?;
    let named = RecordName::file(account, name.as_str());
    let found = find_bytes(alloc, share, &named)?;
    Ok(!is_record(&found, bytes))
}

// Whether the leaf shows this. The tree isn't lost.
fn shows<S: Share>(
    alloc: Global,
    share: &mut S,
    tree: Label,
    view: &LeafView,
) -> Result<bool, StoreFault>
    requires whole { (S.seen share.old).lost ≡ None }
    ensures read { Reads (S.seen share.old) (S.seen share.new) (IsOk result) (IsErrOf result StoreFault.Failed) 1
        (TellsShown tree view.now result) }
    ensures only { IfErr result IsStepFault }
    ensures goes { S.goes share.old share.new }
{
    share.stock(alloc, 1)?;
    let seen = find_view(share, tree)?;
    Ok(is_view(seen, view))
}

// Whether what is read is what the first of the two durable parts shows. `before` is the stash in memory,
// and `stored` what was loaded now.
fn is_first<S: Share>(
    alloc: Global,
    account: &str,
    share: &mut S,
    before: &Option<Stash>,
    stored: &Stored,
    doubt: &Doubt,
) -> Result<bool, StoreFault>
    requires serves { Serves account.now (S.seen share.old) }
    requires tellable { CanTell doubt.now account.now (S.seen share.old).lost }
    ensures read { Reads (S.seen share.old) (S.seen share.new) (IsOk result) (IsErrOf result StoreFault.Failed) 1
        (Tells doubt.now account.now before.now stored.now result) }
    ensures only { IfErr result IsStepFault }
    ensures goes { S.goes share.old share.new }
{
    match doubt {
        Doubt::Editions => Ok(are_same(before, &stored.stash)),
        Doubt::File { name, record } => has_other_record(alloc, account, share, name, record),
        Doubt::Leaf { tree, view, .. } => shows(alloc, share, *tree, view),
    }
}

/// Tells which of the two possible durable parts of the account is there, once `stored` is loaded.
pub(crate) fn tell<S: Share>(
    alloc: Global,
    state: &UserState,
    share: &mut S,
    stored: &Stored,
) -> Result<Told, StoreFault>
    requires serves { Serves state.now.account (S.seen share.old) }
    requires doubt { IsSomeAnd state.now.doubt (λ doubt. CanTell doubt state.now.account (S.seen share.old).lost) }
    ensures read { IsSomeAnd state.now.doubt (λ doubt. Reads (S.seen share.old) (S.seen share.new) (IsOk result)
        (IsErrOf result StoreFault.Failed) 1 (Says doubt state.now.account state.now.stored.stash stored.now result)) }
    ensures either { IfOk result (λ told. (told ≡ told_as.Before) ⊎ (told ≡ told_as.After)) }
    ensures only { IfErr result IsStepFault }
    ensures goes { S.goes share.old share.new }
{
    let Some(doubt) = &state.doubt else {
        unreachable!()
    };
    if is_first(
        alloc,
        state.account.as_str(),
        share,
        &state.stored.stash,
        stored,
        doubt,
    )? {
        Ok(Told::Before)
    } else {
        Ok(Told::After)
    }
}
