//! The rows of all requests of a settled account.

ghost use Rattle.std.specs.Prelude.{◌≡◌, ◌≤◌, ℕ, List, Option, None, IfSome, IsSomeAnd, IsTrue, is_some, option_copied};
ghost use Rattle.std.specs.FinMap.{get, len};
ghost use Rattle.account_machine.specs.declared.factor.Kind.TheVariants.{Password};
ghost use Rattle.account_machine.specs.declared.request.Request.TheVariants.{Authenticate, AddFactor, UpdateFactor, RemoveFactor};
ghost use Rattle.account_machine.specs.declared.request.Turn.TheVariants.{Act};
ghost use Rattle.factor_files.specs.declared.factor.FactorRecord.{FactorRecord as RowSeen};
ghost use Rattle.record_names.specs.Names.{is_factor_label};
ghost use Rattle.share_api.specs.Conditions.{IsOf};
ghost use Rattle.user_state.specs.Fits.{is_lost};
ghost use Rattle.user_state.specs.Sound.{IsSound};
ghost use Rattle.user_state.specs.Turns.{asked_secret};
ghost use Rattle.turn_rows.specs.Due.{IsReady, IsDue};
ghost use Rattle.turn_secrets.specs.Checked.{IsOfSecret};
ghost use Rattle.request_forms.specs.Formed.{IsFormedRequest};
ghost use Rattle.user_turn.specs.Acts.{GivenOver, IsDerivedOf, IsMade, RestsOn};

use account_machine::{Answer, Kind, Request, Token};
use ct_bytes::{NoMemory, Text};
use share_api::Share;
use std::alloc::Global;
use stored_home::{Derived, Stored};
use turn_edits::{add_password, create, get_file, put_file, remove_password, update_password};
use turn_rows::{end_session, extend_session, list_files, start_session, unmount};
use turn_secrets::{authenticate_password, list_factors, mount};
use user_state::UserState;

/// The most device steps of an edit: two puts and a removal.
const EDIT_STEPS: usize = 3;

// Whether the label's factor is a password.
fn is_password(stored: &Stored, label: &Text) -> bool
    ensures { IsTrue result → IsSomeAnd (get stored.now.factors label.now) (λ (row : RowSeen). row.kind ≡ Password) }
{
    match stored.factors.get(label) {
        Some(row) => matches!(row.kind, Kind::Password),
        None => false,
    }
}

// A try of a factor. That of a PIN isn't built: it answers that there was no memory.
fn authenticate_row<S: Share>(
    alloc: Global,
    state: &mut UserState,
    share: &mut S,
    token: &Token,
    label: &Text,
    secret: &Text,
    derived: Option<&Derived>,
) -> Answer
    requires ready { IsReady state.old }
    requires sound { IsSound state.old }
    requires due { IsDue state.old (Act (Authenticate state.old.account token.now label.now secret.now)) }
    requires own { IsOf (S.seen share.old).owner state.old.account }
    requires lost { is_some (S.seen share.old).lost ≡ is_lost state.old }
    requires spare { 1 ≤ (S.seen share.old).spare }
    requires derived { IfSome (option_copied derived) (IsOfSecret secret.now) }
    ensures made { (account : List ℕ) → IsMade (S.seen share.old) (S.seen share.new) state.old state.new
        (Act (Authenticate account token.now label.now secret.now)) result }
    ensures rests { RestsOn state.old state.new }
    ensures goes { S.goes share.old share.new }
{
    if is_password(&state.stored, label) {
        authenticate_password(alloc, state, share, token, label, secret, derived)
    } else {
        Answer::NoMemory
    }
}

// A new factor. A new PIN isn't built: it answers that there was no memory.
fn add_row<S: Share>(
    alloc: Global,
    state: &mut UserState,
    share: &mut S,
    token: &Token,
    label: &Text,
    kind: Kind,
    secret: &Text,
    derived: Option<Derived>,
) -> Answer
    requires ready { IsReady state.old }
    requires sound { IsSound state.old }
    requires due { IsDue state.old (Act (AddFactor state.old.account token.now label.now kind secret.now None)) }
    requires own { IsOf (S.seen share.old).owner state.old.account }
    requires lost { is_some (S.seen share.old).lost ≡ is_lost state.old }
    requires spare { 3 ≤ (S.seen share.old).spare }
    requires label { IsTrue (is_factor_label label.now) }
    requires derived { IfSome derived (IsOfSecret secret.now) }
    ensures made { (account : List ℕ) (schedule : Option (List (ℕ × ℕ)))
        → IsMade (S.seen share.old) (S.seen share.new) state.old state.new
        (Act (AddFactor account token.now label.now kind secret.now schedule)) result }
    ensures rests { RestsOn state.old state.new }
    ensures goes { S.goes share.old share.new }
{
    match kind {
        Kind::Password => add_password(alloc, state, share, token, label, secret, derived),
        Kind::Pin => Answer::NoMemory,
    }
}

// Another secret of a factor. That of a PIN isn't built: it answers that there was no memory.
fn update_row<S: Share>(
    alloc: Global,
    state: &mut UserState,
    share: &mut S,
    token: &Token,
    label: &Text,
    secret: &Text,
    derived: Option<Derived>,
) -> Answer
    requires ready { IsReady state.old }
    requires sound { IsSound state.old }
    requires due { IsDue state.old (Act (UpdateFactor state.old.account token.now label.now secret.now)) }
    requires own { IsOf (S.seen share.old).owner state.old.account }
    requires lost { is_some (S.seen share.old).lost ≡ is_lost state.old }
    requires spare { 3 ≤ (S.seen share.old).spare }
    requires derived { IfSome derived (IsOfSecret secret.now) }
    ensures made { (account : List ℕ) → IsMade (S.seen share.old) (S.seen share.new) state.old state.new
        (Act (UpdateFactor account token.now label.now secret.now)) result }
    ensures rests { RestsOn state.old state.new }
    ensures goes { S.goes share.old share.new }
{
    if is_password(&state.stored, label) {
        update_password(alloc, state, share, token, label, secret, derived)
    } else {
        Answer::NoMemory
    }
}

// The removal of a factor. That of a PIN isn't built: it answers that there was no memory.
fn remove_row<S: Share>(state: &mut UserState, share: &mut S, token: &Token, label: &Text) -> Answer
    requires ready { IsReady state.old }
    requires sound { IsSound state.old }
    requires due { IsDue state.old (Act (RemoveFactor state.old.account token.now label.now)) }
    requires own { IsOf (S.seen share.old).owner state.old.account }
    requires lost { is_some (S.seen share.old).lost ≡ is_lost state.old }
    requires spare { 2 ≤ (S.seen share.old).spare }
    ensures made { (account : List ℕ) → IsMade (S.seen share.old) (S.seen share.new) state.old state.new
        (Act (RemoveFactor account token.now label.now)) result }
    ensures rests { RestsOn state.old state.new }
    ensures goes { S.goes share.old share.new }
{
    if is_password(&state.stored, label) {
        remove_password(state, share, token, label)
    } else {
        Answer::NoMemory
    }
}

// A request that makes device steps. A new PIN and the reset of one aren't built: they answer that there was no memory.
fn stepping_row<S: Share>(
    alloc: Global,
    state: &mut UserState,
    share: &mut S,
    request: &Request,
    derived: Option<Derived>,
) -> Answer
    requires ready { IsReady state.old }
    requires sound { IsSound state.old }
    requires due { IsDue state.old (Act request.now) }
    requires own { IsOf (S.seen share.old).owner state.old.account }
    requires lost { is_some (S.seen share.old).lost ≡ is_lost state.old }
    requires spare { 3 ≤ (S.seen share.old).spare }
    requires looks { len state.old.stored.factors ≤ (S.seen share.old).spare }
    requires formed { IsFormedRequest request.now }
    requires derived { IfSome derived (IsDerivedOf (asked_secret request.now)) }
    ensures made { IsMade (S.seen share.old) (S.seen share.new) state.old state.new (Act request.now) result }
    ensures rests { RestsOn state.old state.new }
    ensures goes { S.goes share.old share.new }
{
    match request {
        Request::Create { .. } => create(alloc, state, share),
        Request::Authenticate {
            token,
            label,
            secret,
            ..
        } => authenticate_row(alloc, state, share, token, label, secret, derived.as_ref()),
        Request::AddFactor {
            token,
            label,
            kind,
            secret,
            ..
        } => add_row(alloc, state, share, token, label, *kind, secret, derived),
        Request::UpdateFactor {
            token,
            label,
            secret,
            ..
        } => update_row(alloc, state, share, token, label, secret, derived),
        Request::RemoveFactor { token, label, .. } => remove_row(state, share, token, label),
        Request::ListFactors { .. } => list_factors(alloc, state, share),
        Request::PutFile { name, bytes, .. } => put_file(alloc, state, share, name, bytes),
        Request::GetFile { name, .. } => get_file(alloc, state, share, name),
        _ => Answer::NoMemory,
    }
}

// A request that makes device steps, with memory for its calls: an edit's, or a look at each factor's leaf.
fn stocked_row<S: Share>(
    alloc: Global,
    state: &mut UserState,
    share: &mut S,
    request: &Request,
    derived: Option<Derived>,
) -> Answer
    requires ready { IsReady state.old }
    requires sound { IsSound state.old }
    requires due { IsDue state.old (Act request.now) }
    requires own { IsOf (S.seen share.old).owner state.old.account }
    requires lost { is_some (S.seen share.old).lost ≡ is_lost state.old }
    requires formed { IsFormedRequest request.now }
    requires derived { IfSome derived (IsDerivedOf (asked_secret request.now)) }
    ensures given { GivenOver (S.seen share.old) (S.seen share.new) state.old state.new (Act request.now) result }
    ensures rests { RestsOn state.old state.new }
    ensures goes { S.goes share.old share.new }
{
    let calls = state.stored.factors.len().max(EDIT_STEPS);
    match share.stock(alloc, calls) {
        Ok(()) => stepping_row(alloc, state, share, request, derived),
        Err(NoMemory) => Answer::NoMemory,
    }
}

/// A request of a settled account that no refusal applies to.
pub(crate) fn request_row<S: Share>(
    alloc: Global,
    state: &mut UserState,
    share: &mut S,
    request: &Request,
    derived: Option<Derived>,
) -> Answer
    requires ready { IsReady state.old }
    requires sound { IsSound state.old }
    requires due { IsDue state.old (Act request.now) }
    requires own { IsOf (S.seen share.old).owner state.old.account }
    requires lost { is_some (S.seen share.old).lost ≡ is_lost state.old }
    requires formed { IsFormedRequest request.now }
    requires derived { IfSome derived (IsDerivedOf (asked_secret request.now)) }
    ensures given { GivenOver (S.seen share.old) (S.seen share.new) state.old state.new (Act request.now) result }
    ensures rests { RestsOn state.old state.new }
    ensures goes { S.goes share.old share.new }
{
    match request {
        Request::StartSession { intent, .. } => start_session(state, *intent),
        Request::ExtendSession { token, seconds, .. } => extend_session(state, token, *seconds),
        Request::EndSession { token, .. } => end_session(state, token),
        Request::Mount { token, .. } => mount(alloc, state, token),
        Request::Unmount { .. } => unmount(state),
        Request::ListFiles { .. } => list_files(alloc, state),
        _ => stocked_row(alloc, state, share, request, derived),
    }
}
