//! The refusals of the table, over whatever has an account's outline.

ghost use Rattle.std.specs.Prelude.{◌≡◌, length};
ghost use Rattle.std.specs.List.{list_all};
ghost use Rattle.std.specs.FinMap.{get};
ghost use Rattle.account_machine.specs.Outline.{session_at, is_pin_kind};
ghost use Rattle.account_machine.specs.Row.{first_refusal, refusals_of, turn_refusals, clear_row, is_digit, is_secret, is_full, is_expired, is_wrong_intent, is_not_authorised, is_bad_secret, is_password_mark, is_pin_mark, extend_row, authenticate_row, add_row, update_row, remove_row, reset_row, mount_row, put_row, get_row, names_tree, turn_names_tree};

use crate::{Intent, Kind, Mark, Outlined, Refused, Request, Session, Token, Turn};
use ct_bytes::{Blob, Text};

/// The most factors of a home, and the most PINs among them.
pub const MOST_FACTORS: usize = 32;

pub const MOST_PINS: usize = 8;

/// The most files of a vault, and the most bytes of each.
pub const MOST_FILES: usize = 256;

pub const MOST_FILE_BYTES: usize = 49_152;

// The first refusal that applies.
fn first(refusals: &[(bool, Refused)]) -> Option<Refused>
    ensures { result ≡ first_refusal refusals.now }
{
    for refusal in refusals {
        if refusal.0 {
            return Some(refusal.1);
        }
    }
    None
}

// Whether all bytes are digits.
fn are_digits(bytes: &[u8]) -> bool
    ensures { result ≡ list_all is_digit bytes.now }
{
    bytes.iter().all(|byte| byte.is_ascii_digit())
}

/// Whether a secret is in the grammar of its kind: 1 to 256 bytes, or 4 to 12 digits.
pub fn is_secret(kind: Kind, secret: &Text) -> bool
    ensures { result ≡ is_secret kind secret.now }
{
    let bytes = secret.as_str().as_bytes();
    match kind {
        Kind::Password => 1 <= bytes.len() && bytes.len() <= 256,
        Kind::Pin => 4 <= bytes.len() && bytes.len() <= 12 && are_digits(bytes),
    }
}

// Whether the session is there, and at or past its end.
fn expired(session: &Option<Session>, moment: u64) -> bool
    ensures { result ≡ is_expired moment session.now }
{
    match session {
        None => false,
        Some(session) => session.ends <= moment,
    }
}

// Whether it is there, and for verifying alone.
fn wrong_intent(session: &Option<Session>) -> bool
    ensures { result ≡ is_wrong_intent session.now }
{
    match session {
        None => false,
        Some(session) => matches!(session.intent, Intent::Verify),
    }
}

// Whether it is there, and no secret was proved in it.
fn not_authorised(session: &Option<Session>) -> bool
    ensures { result ≡ is_not_authorised session.now }
{
    match session {
        None => false,
        Some(session) => !session.authenticated,
    }
}

// Whether the factor is there, and the secret outside the grammar of its kind.
fn bad_secret(mark: &Option<Mark>, secret: &Text) -> bool
    ensures { result ≡ is_bad_secret secret.now mark.now }
{
    match mark {
        None => false,
        Some(mark) => !is_secret(mark.kind, secret),
    }
}

// Whether the factor is there, and a PIN.
fn is_pin(mark: &Option<Mark>) -> bool
    ensures { result ≡ is_pin_mark mark.now }
{
    match mark {
        None => false,
        Some(mark) => matches!(mark.kind, Kind::Pin),
    }
}

// Whether it is there, and a password.
fn is_password(mark: &Option<Mark>) -> bool
    ensures { result ≡ is_password_mark mark.now }
{
    match mark {
        None => false,
        Some(mark) => matches!(mark.kind, Kind::Password),
    }
}

// Whether the kind is PIN.
fn is_pin_sort(kind: Kind) -> bool
    ensures { result ≡ is_pin_kind kind }
{
    matches!(kind, Kind::Pin)
}

// Whether the home has no room for another factor of the kind.
fn is_full<O: Outlined>(of: &O, kind: Kind) -> bool
    ensures { result ≡ is_full (O.outline of.now) kind }
{
    of.factors() >= MOST_FACTORS || (is_pin_sort(kind) && of.pins() >= MOST_PINS)
}

// The rows that name a session or a factor.
fn extend<O: Outlined>(of: &O, token: &Token, moment: u64) -> Option<Refused>
    ensures { result ≡ first_refusal (extend_row (O.outline of.now) (session_at (O.outline of.now).sessions token.now) moment) }
{
    let session = of.session(token);
    first(&[
        (!of.is_made(), Refused::NoHome),
        (session.is_none(), Refused::UnknownSession),
        (expired(&session, moment), Refused::Expired),
        (not_authorised(&session), Refused::NotAuthorised),
    ])
}

fn authenticate<O: Outlined>(
    of: &O,
    token: &Token,
    label: &Text,
    secret: &Text,
    moment: u64,
) -> Option<Refused>
    ensures { result ≡ first_refusal (authenticate_row (O.outline of.now) (session_at (O.outline of.now).sessions token.now) (get (O.outline of.now).home.marks label.now) secret.now moment) }
{
    let session = of.session(token);
    let mark = of.mark(label);
    first(&[
        (!of.is_made(), Refused::NoHome),
        (session.is_none(), Refused::UnknownSession),
        (expired(&session, moment), Refused::Expired),
        (mark.is_none(), Refused::UnknownFactor),
        (bad_secret(&mark, secret), Refused::BadSecret),
    ])
}

fn add<O: Outlined>(
    of: &O,
    token: &Token,
    label: &Text,
    kind: Kind,
    secret: &Text,
    moment: u64,
) -> Option<Refused>
    ensures { result ≡ first_refusal (add_row (O.outline of.now) (session_at (O.outline of.now).sessions token.now) (get (O.outline of.now).home.marks label.now) kind secret.now moment) }
{
    let session = of.session(token);
    let mark = of.mark(label);
    let bare = of.factors() == 0;
    let pin = is_pin_sort(kind);
    first(&[
        (!of.is_made(), Refused::NoHome),
        (session.is_none(), Refused::UnknownSession),
        (expired(&session, moment), Refused::Expired),
        (wrong_intent(&session), Refused::WrongIntent),
        (not_authorised(&session) && !bare, Refused::NotAuthorised),
        (mark.is_some(), Refused::FactorExists),
        (pin && bare, Refused::PasswordFirst),
        (is_full(of, kind), Refused::TooManyFactors),
        (!is_secret(kind, secret), Refused::BadSecret),
        (of.next() == u64::MAX, Refused::EditionsSpent),
    ])
}

fn update<O: Outlined>(
    of: &O,
    token: &Token,
    label: &Text,
    secret: &Text,
    moment: u64,
) -> Option<Refused>
    ensures { result ≡ first_refusal (update_row (O.outline of.now) (session_at (O.outline of.now).sessions token.now) (get (O.outline of.now).home.marks label.now) secret.now moment) }
{
    let session = of.session(token);
    let mark = of.mark(label);
    first(&[
        (!of.is_made(), Refused::NoHome),
        (session.is_none(), Refused::UnknownSession),
        (expired(&session, moment), Refused::Expired),
        (wrong_intent(&session), Refused::WrongIntent),
        (not_authorised(&session), Refused::NotAuthorised),
        (mark.is_none(), Refused::UnknownFactor),
        (bad_secret(&mark, secret), Refused::BadSecret),
        (of.next() == u64::MAX, Refused::EditionsSpent),
    ])
}

fn remove<O: Outlined>(of: &O, token: &Token, label: &Text, moment: u64) -> Option<Refused>
    ensures { result ≡ first_refusal (remove_row (O.outline of.now) (session_at (O.outline of.now).sessions token.now) (get (O.outline of.now).home.marks label.now) moment) }
{
    let session = of.session(token);
    let mark = of.mark(label);
    first(&[
        (!of.is_made(), Refused::NoHome),
        (session.is_none(), Refused::UnknownSession),
        (expired(&session, moment), Refused::Expired),
        (wrong_intent(&session), Refused::WrongIntent),
        (not_authorised(&session), Refused::NotAuthorised),
        (mark.is_none(), Refused::UnknownFactor),
        (
            is_password(&mark) && of.passwords() == 1,
            Refused::LastPassword,
        ),
    ])
}

fn reset<O: Outlined>(of: &O, token: &Token, label: &Text, moment: u64) -> Option<Refused>
    ensures { result ≡ first_refusal (reset_row (O.outline of.now) (session_at (O.outline of.now).sessions token.now) (get (O.outline of.now).home.marks label.now) moment) }
{
    let session = of.session(token);
    let mark = of.mark(label);
    first(&[
        (!of.is_made(), Refused::NoHome),
        (session.is_none(), Refused::UnknownSession),
        (expired(&session, moment), Refused::Expired),
        (wrong_intent(&session), Refused::WrongIntent),
        (not_authorised(&session), Refused::NotAuthorised),
        (!is_pin(&mark), Refused::UnknownFactor),
    ])
}

fn mount<O: Outlined>(of: &O, token: &Token, moment: u64) -> Option<Refused>
    ensures { result ≡ first_refusal (mount_row (O.outline of.now) (session_at (O.outline of.now).sessions token.now) moment) }
{
    let session = of.session(token);
    first(&[
        (!of.is_made(), Refused::NoHome),
        (session.is_none(), Refused::UnknownSession),
        (expired(&session, moment), Refused::Expired),
        (wrong_intent(&session), Refused::WrongIntent),
        (not_authorised(&session), Refused::NotAuthorised),
        (of.is_mounted(), Refused::AlreadyMounted),
    ])
}

fn put<O: Outlined>(of: &O, name: &Text, bytes: &Blob) -> Option<Refused>
    ensures { result ≡ first_refusal (put_row (O.outline of.now) name.now (length bytes.now)) }
{
    let size = bytes.as_slice().len();
    first(&[
        (!of.is_made(), Refused::NoHome),
        (!of.is_mounted(), Refused::NotMounted),
        (!(size <= MOST_FILE_BYTES), Refused::TooLarge),
        (
            !of.has_file(name) && of.files() >= MOST_FILES,
            Refused::TooManyFiles,
        ),
    ])
}

fn read<O: Outlined>(of: &O, name: &Text) -> Option<Refused>
    ensures { result ≡ first_refusal (get_row (O.outline of.now) name.now) }
{
    first(&[
        (!of.is_made(), Refused::NoHome),
        (!of.is_mounted(), Refused::NotMounted),
        (!of.has_file(name), Refused::UnknownFile),
    ])
}

/// The first refusal of the request's row that applies at a moment.
pub fn refusal<O: Outlined>(of: &O, request: &Request, moment: u64) -> Option<Refused>
    ensures { result ≡ first_refusal (refusals_of (O.outline of.now) request.now moment) }
{
    match request {
        Request::Create { .. } => first(&[(of.is_made(), Refused::Exists)]),
        Request::StartSession { .. } => first(&[
            (!of.is_made(), Refused::NoHome),
            (of.next_session() == u64::MAX, Refused::SessionsSpent),
        ]),
        Request::ExtendSession { token, .. } => extend(of, token, moment),
        Request::EndSession { token, .. } => first(&[
            (!of.is_made(), Refused::NoHome),
            (of.session(token).is_none(), Refused::UnknownSession),
        ]),
        Request::Authenticate {
            token,
            label,
            secret,
            ..
        } => authenticate(of, token, label, secret, moment),
        Request::AddFactor {
            token,
            label,
            kind,
            secret,
            ..
        } => add(of, token, label, *kind, secret, moment),
        Request::UpdateFactor {
            token,
            label,
            secret,
            ..
        } => update(of, token, label, secret, moment),
        Request::RemoveFactor { token, label, .. } => remove(of, token, label, moment),
        Request::ResetPin { token, label, .. } => reset(of, token, label, moment),
        Request::ListFactors { .. } => first(&[(!of.is_made(), Refused::NoHome)]),
        Request::Mount { token, .. } => mount(of, token, moment),
        Request::Unmount { .. } | Request::ListFiles { .. } => first(&[
            (!of.is_made(), Refused::NoHome),
            (!of.is_mounted(), Refused::NotMounted),
        ]),
        Request::PutFile { name, bytes, .. } => put(of, name, bytes),
        Request::GetFile { name, .. } => read(of, name),
    }
}

// The first refusal of a clearing that applies.
fn clearing<O: Outlined>(of: &O, token: &Token, moment: u64) -> Option<Refused>
    ensures { result ≡ first_refusal (clear_row (O.outline of.now) (session_at (O.outline of.now).sessions token.now) moment) }
{
    let session = of.session(token);
    first(&[
        (session.is_none(), Refused::UnknownSession),
        (expired(&session, moment), Refused::Expired),
        (not_authorised(&session), Refused::NotAuthorised),
    ])
}

/// The first refusal of a turn that applies at a moment. A look has none.
pub fn turn_refusal<O: Outlined>(of: &O, turn: &Turn, moment: u64) -> Option<Refused>
    ensures { result ≡ first_refusal (turn_refusals (O.outline of.now) turn.now moment) }
{
    match turn {
        Turn::Look(_) => None,
        Turn::Act(request) => refusal(of, request, moment),
        Turn::Clear(token) => clearing(of, token, moment),
    }
}

/// Whether the turn is answered `tree_lost` while the tree is lost, where no refusal applies.
pub fn names_tree<O: Outlined>(of: &O, turn: &Turn) -> bool
    ensures { result ≡ turn_names_tree (O.outline of.now) turn.now }
{
    match turn {
        Turn::Look(_) => false,
        Turn::Act(request) => request_names_tree(of, request),
        Turn::Clear(_) => true,
    }
}

fn request_names_tree<O: Outlined>(of: &O, request: &Request) -> bool
    ensures { result ≡ names_tree (O.outline of.now) request.now }
{
    match request {
        Request::Authenticate { label, .. }
        | Request::UpdateFactor { label, .. }
        | Request::RemoveFactor { label, .. } => is_pin(&of.mark(label)),
        Request::AddFactor { kind, .. } => is_pin_sort(*kind),
        Request::ResetPin { .. } => true,
        _ => false,
    }
}
