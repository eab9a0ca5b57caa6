//! A PIN's count is cleared once a password was right.

ghost use Rattle.std.specs.Prelude.{◌≡◌, ◌≤◌, ◌<◌, ◌+◌, ◌^◌, ◌⊎◌, ℕ, List, true, Ok, None, Some, IsTrue, IsSome, IsSomeAnd, IfErr, IsErrOf, Contains, length, is_some};
ghost use Rattle.std.specs.FinMap.{get, len, entries};
ghost use Rattle.account_machine.specs.Outline.{pins};
ghost use Rattle.account_machine.specs.declared.answer.Answer.TheVariants as answers;
ghost use Rattle.account_machine.specs.declared.factor.Kind.TheVariants.{Pin};
ghost use Rattle.account_machine.specs.declared.request.Turn.TheVariants.{Clear};
ghost use Rattle.factor_files.specs.declared.factor.FactorRecord.{FactorRecord as RowSeen};
ghost use Rattle.record_names.specs.Names.{is_account_name, is_factor_label};
ghost use Rattle.stored_home.specs.Loaded.{HasFactors};
ghost use Rattle.user_state.specs.Fits.{is_lost};
ghost use Rattle.user_state.specs.Outlines.{outline_in};
ghost use Rattle.user_state.specs.Sound.{IsSound, IsTellable};
ghost use Rattle.user_state.specs.Turns.{IsGiven};
ghost use Rattle.turn_rows.specs.Due.{IsReady, IsDue};
ghost use Rattle.turn_edits.specs.Endings.{KeepsState, IsEnded};
ghost use Rattle.turn_edits.specs.Sessions.{main_in};
ghost use Rattle.turn_secrets.specs.Listing.{Looks, IsListFault};
ghost use Rattle.turn_pins.specs.Clearing.{TellsCounted, TellsFirst, ClearsFirst, cleared_answer};
ghost use Rattle.turn_pins.specs.Endings.{TellsTree};
ghost use Rattle.turn_pins.specs.Looking.{IsOfLeaf};
ghost use Rattle.turn_pins.specs.Resetting.{ResetsLeaf};

use crate::keys::main_key;
use crate::looking::{look, refused};
use crate::reset::prepare;
use crate::resetting::reset_held;
use account_machine::{Answer, Kind, Outlined, Token};
use ct_bytes::Text;
use factor_files::FactorRecord;
use share_api::Share;
use std::alloc::Global;
use stored_home::StoreFault;
use user_state::UserState;

// Whether a factor is a PIN with a count of wrong tries, which its leaf shows.
fn is_counted<S: Share>(
    account: &str,
    share: &mut S,
    row: &FactorRecord,
) -> Result<bool, StoreFault>
    requires plain { IsTrue (is_account_name account.now) }
    requires spare { 1 ≤ (S.seen share.old).spare }
    requires whole { (S.seen share.old).lost ≡ None }
    ensures looks { Looks (S.seen share.old) (S.seen share.new) (IsErrOf result StoreFault.Failed) 1
        (TellsCounted row.now result) }
    ensures pin { result ≡ Ok true → row.now.kind ≡ Pin }
    ensures only { IfErr result IsListFault }
    ensures goes { S.goes share.old share.new }
{
    match (row.kind, row.leaf) {
        (Kind::Pin, Some(tree)) => {
            let view = look(share, account, tree)?;
            Ok(view.wrong != 0)
        }
        _ => Ok(false),
    }
}

// The label of the first PIN with a count of wrong tries.
fn first_counted<S: Share>(
    account: &str,
    share: &mut S,
    rows: &[(Text, FactorRecord)],
) -> Result<Option<Text>, StoreFault>
    requires plain { IsTrue (is_account_name account.now) }
    requires spare { length rows.now ≤ (S.seen share.old).spare }
    requires whole { (S.seen share.old).lost ≡ None }
    ensures looks { Looks (S.seen share.old) (S.seen share.new) (IsErrOf result StoreFault.Failed) (length rows.now)
        (TellsFirst rows.now result) }
    ensures pin { (label : List ℕ) → result ≡ Ok (Some label)
        → (row : RowSeen) × Contains rows.now (label, row) × (row.kind ≡ Pin) }
    ensures only { IfErr result IsListFault }
    ensures goes { S.goes share.old share.new }
{
    'rows: for row in rows {
        if is_counted(account, share, &row.1)? {
            return Ok(Some(row.0.copy()?));
        }
    }
    Ok(None)
}

// The label of the first loaded PIN with a count of wrong tries.
fn first_loaded<S: Share>(state: &UserState, share: &mut S) -> Result<Option<Text>, StoreFault>
    requires plain { IsTrue (is_account_name state.now.account) }
    requires spare { len state.now.stored.factors ≤ (S.seen share.old).spare }
    requires whole { (S.seen share.old).lost ≡ None }
    ensures looks { Looks (S.seen share.old) (S.seen share.new) (IsErrOf result StoreFault.Failed)
        (len state.now.stored.factors) (TellsFirst (entries state.now.stored.factors) result) }
    ensures pin { (label : List ℕ) → result ≡ Ok (Some label)
        → (row : RowSeen) × (get state.now.stored.factors label ≡ Some row) × (row.kind ≡ Pin) }
    ensures only { IfErr result IsListFault }
    ensures goes { S.goes share.old share.new }
{
    first_counted(state.account.as_str(), share, state.stored.factors.rows())
}

// Looks at the leaf of a loaded PIN and resets it, under the session's main key.
fn reset_found<S: Share>(
    alloc: Global,
    state: &mut UserState,
    share: &mut S,
    token: &Token,
    label: &Text,
) -> Answer
    requires plain { IsTrue (is_account_name state.old.account) }
    requires moment { state.old.last < 2 ^ 40 }
    requires spare { 2 ≤ (S.seen share.old).spare }
    requires whole { (S.seen share.old).lost ≡ None }
    requires main { IsSome (main_in state.old.sessions.kept token.now) }
    requires label { IsTrue (is_factor_label label.now) }
    requires home { HasFactors state.old.stored }
    requires known { IsSomeAnd (get state.old.stored.factors label.now) (λ row. IsSome row.leaf) }
    ensures resets { ResetsLeaf (S.seen share.old) (S.seen share.new) token.now label.now state.old state.new result }
    ensures goes { S.goes share.old share.new }
{
    let Some(main) = main_key(&state.sessions, token) else {
        unreachable!()
    };
    match prepare(&state.stored, state.account.as_str(), label, &main) {
        Ok(reset) => reset_held(alloc, state, share, reset),
        Err(fault) => refused(alloc, fault),
    }
}

// A PIN that was set back is told as cleared.
fn cleared(answer: Answer) -> Answer
    ensures { result ≡ cleared_answer answer }
{
    match answer {
        Answer::Ok => Answer::PinCleared,
        other => other,
    }
}

// Clears the first PIN with a count, where there are PINs and the tree isn't lost.
fn clear_held<S: Share>(
    alloc: Global,
    state: &mut UserState,
    share: &mut S,
    token: &Token,
) -> Answer
    requires ready { IsReady state.old }
    requires sound { IsSound state.old }
    requires due { IsDue state.old (Clear token.now) }
    requires lost { is_some (S.seen share.old).lost ≡ is_lost state.old }
    requires whole { state.old.stored.lost ≡ None }
    requires some { 1 ≤ pins (outline_in state.old).home.marks }
    requires spare { len state.old.stored.factors + 2 ≤ (S.seen share.old).spare }
    ensures given { IsGiven (S.seen share.old) (S.seen share.new) state.old state.new (Clear token.now) result }
    ensures sound { IsSound state.new }
    ensures keeps { KeepsState state.old state.new }
    ensures ended { IsEnded IsOfLeaf state.old state.new result }
    ensures tellable { IsTellable state.new.doubt state.new }
    ensures generator { state.new.generator ≡ state.old.generator }
    ensures stored { state.new.stored ≡ state.old.stored }
    ensures clears { ClearsFirst (S.seen share.old) (S.seen share.new) token.now state.old state.new result }
    ensures tree { TellsTree None result }
    ensures goes { S.goes share.old share.new }
{
    match first_loaded(state, share) {
        Ok(None) => Answer::PinsClear,
        Ok(Some(label)) => cleared(reset_found(alloc, state, share, token, &label)),
        Err(fault) => refused(alloc, fault),
    }
}

/// Sets back the count of the first PIN, in order of label, that has one. A turn of this kind follows a right password,
/// and it is made again until it doesn't answer `PinCleared`.
///
/// The PINs' leaves are looked at in order up to the first with a count, and that is looked at again and reset. The
/// answers:
/// - `PinCleared` where a count was set back, and `PinsClear` where none was left.
/// - `StorageFault` where the reset failed: then what the leaf showed is kept, which tells whether it was reset.
/// - `NoMemory` before the reset, also where a look failed.
/// - `Damaged` with the name of a leaf that isn't there, and as a reset tells it. Want of memory may stand for it.
/// - `TreeLost` exactly where the tree of leaves was lost when the account was loaded, with its roots and no step made.
pub fn clear_pin<S: Share>(
    alloc: Global,
    state: &mut UserState,
    share: &mut S,
    token: &Token,
) -> Answer
    requires ready { IsReady state.old }
    requires sound { IsSound state.old }
    requires due { IsDue state.old (Clear token.now) }
    requires lost { is_some (S.seen share.old).lost ≡ is_lost state.old }
    requires spare { len state.old.stored.factors + 2 ≤ (S.seen share.old).spare }
    ensures given { IsGiven (S.seen share.old) (S.seen share.new) state.old state.new (Clear token.now) result }
    ensures sound { IsSound state.new }
    ensures keeps { KeepsState state.old state.new }
    ensures ended { IsEnded IsOfLeaf state.old state.new result }
    ensures tellable { IsTellable state.new.doubt state.new }
    ensures generator { state.new.generator ≡ state.old.generator }
    ensures stored { state.new.stored ≡ state.old.stored }
    ensures clears { state.old.stored.lost ≡ None → 1 ≤ pins (outline_in state.old).home.marks
        → ClearsFirst (S.seen share.old) (S.seen share.new) token.now state.old state.new result }
    ensures none { state.old.stored.lost ≡ None → pins (outline_in state.old).home.marks ≡ 0
        → result ≡ answers.PinsClear }
    ensures tree { TellsTree state.old.stored.lost result }
    ensures still { IsSome state.old.stored.lost → S.seen share.new ≡ S.seen share.old }
    ensures goes { S.goes share.old share.new }
{
    if let Some(tree) = &state.stored.lost {
        return Answer::TreeLost {
            host: tree.host,
            chip: tree.chip,
        };
    }
    if state.pins() == 0 {
        return Answer::PinsClear;
    }
    clear_held(alloc, state, share, token)
}
