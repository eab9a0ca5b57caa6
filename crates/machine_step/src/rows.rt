//! The effects of the table, row by row. Each changes the user as its row says, and tells whether an
//! answer is the row's.

ghost use Rattle.std.specs.Prelude.{◌≡◌, ◌↔◌, ℕ, ◌+◌, ◌<◌, ◌-◌, ◌^◌, IfOk, OnOk, IsTrue, List, None, Some, false, option_copied};
ghost use Rattle.std.specs.FinMap.{entries};
ghost use Rattle.pw_types.specs.Delay.{readiness};
ghost use Rattle.account_machine.specs.Sessions.{ended};
ghost use Rattle.account_machine.specs.User.{new_home};
ghost use Rattle.account_machine.specs.Outline.{session_at};
ghost use Rattle.account_machine.specs.Row.{is_spent};
ghost use Rattle.account_machine.specs.Step.{refusal_now};
ghost use Rattle.account_machine.specs.Effect.{proved, proved_end, extended_end, gives, started, extended, right_password, right_pin, password_tried, pin_compared, pin_tried, readiness_now, tried, authenticated, no_stamp, cleared, missed, set_factor, new_factor, schedule_of, with_factor, first_proved, added, updated, removed, reset, file_put, file_read, edition_of, first_counted, cleared_by, effect, turn_effect};
ghost use Rattle.machine_step.specs.Done.{tail_in, IsDone};
ghost use Rattle.machine_step.specs.Timely.{IsTimely, AreTimely};

use crate::fits::{
    is_bytes, is_clear, is_cleared, is_delayed, is_ends, is_factors, is_files, is_locked, is_ok,
    is_password, is_seen, is_session, is_wrong, tail_of,
};
use account_machine::{Answer, Durable, Factor, Intent, Kind, Request, Session, Token, Turn, User};
use ct_bytes::{Blob, NoMemory, Text};
use name_map::Copied;
use pw_types::{Era, Readiness, Schedule, Stamp, limit_locks, ready};
use std::alloc::Global;

/// How long a new session lasts, and how long one at least lasts after a right secret, in seconds.
const SESSION_SECONDS: u64 = 300;

/// How far ahead an extended session's end may be.
const EXTENDED_SECONDS: u64 = 600;

const NO_STAMP: Stamp = Stamp { boot: 0, at: 0 };

// ---- sessions

fn start(user: &mut User, intent: Intent, answer: &Answer) -> Result<bool, NoMemory>
    requires last { user.old.last < 2 ^ 40 }
    requires room { is_spent user.old.next_session ≡ false }
    ensures { IfOk result (λ fits. IsDone (started (tail_in answer.now) user.old intent) answer.now user.new (Some fits)) }
{
    let number = user.next_session;
    let ends = user.last + SESSION_SECONDS;
    user.sessions.start(Session {
        number,
        tail: tail_of(answer),
        intent,
        ends,
        authenticated: false,
    })?;
    user.next_session = number + 1;
    Ok(is_session(answer, ends, number))
}

fn extend(user: &mut User, token: &Token, seconds: u64, answer: &Answer) -> Option<bool>
    requires { user.old.last < 2 ^ 40 }
    ensures { IsDone (extended user.old token.now seconds) answer.now user.new result }
{
    let session = user.sessions.find(token)?;
    let ends = session
        .ends
        .saturating_add(seconds)
        .min(user.last + EXTENDED_SECONDS);
    user.sessions.replace(token, Session { ends, ..session });
    Some(is_ends(answer, ends))
}

// ---- tries

// The session after a right secret.
fn proved(session: &Session, moment: u64) -> Session
    requires { moment < 2 ^ 40 }
    ensures { result ≡ proved moment session.now }
{
    Session {
        ends: session.ends.max(moment + SESSION_SECONDS),
        authenticated: true,
        ..*session
    }
}

// The factor with count and stamp set back.
fn cleared(factor: &Factor) -> Result<Factor, NoMemory>
    ensures { IfOk result (λ after. after ≡ cleared factor.now) }
{
    let mut after = factor.copy()?;
    after.wrong = 0;
    after.stamp = NO_STAMP;
    Ok(after)
}

fn right_password(user: &mut User, token: &Token, session: &Session, answer: &Answer) -> bool
    requires last { user.old.last < 2 ^ 40 }
    requires there { session_at user.old.sessions token.now ≡ Some session.now }
    ensures { IsDone (right_password user.old token.now session.now) answer.now user.new (Some result) }
{
    let after = proved(session, user.last);
    user.sessions.replace(token, after);
    is_password(answer, after.ends)
}

fn right_pin(
    user: &mut User,
    token: &Token,
    label: &Text,
    session: &Session,
    factor: &Factor,
    answer: &Answer,
) -> Result<bool, NoMemory>
    requires last { user.old.last < 2 ^ 40 }
    requires there { session_at user.old.sessions token.now ≡ Some session.now }
    ensures { IfOk result (λ fits. IsDone (right_pin user.old token.now label.now session.now factor.now) answer.now user.new (Some fits)) }
{
    let after = proved(session, user.last);
    user.durable
        .factors
        .insert(label.copy()?, cleared(factor)?)?;
    user.sessions.replace(token, after);
    Ok(is_ends(answer, after.ends))
}

// The factor with one wrong try more, where a try was ready.
fn missed(factor: &Factor, now: Stamp, start: u64) -> Result<Factor, NoMemory>
    requires { readiness factor.now.schedule factor.now.wrong factor.now.stamp now start ≡ Readiness.Ready }
    ensures { IfOk result (λ after. after ≡ missed now factor.now) }
{
    let wrong = one_more(&factor.schedule, factor.wrong, factor.stamp, now, start);
    let mut after = factor.copy()?;
    after.wrong = wrong;
    after.stamp = now;
    Ok(after)
}

// One wrong try more. Where a try is ready there are at most 1,000.
fn one_more(schedule: &Schedule, wrong: u32, last: Stamp, now: Stamp, start: u64) -> u32
    requires { readiness schedule.now wrong last now start ≡ Readiness.Ready }
    ensures { result ≡ wrong + 1 }
{
    limit_locks();
    let _rules = schedule.pairs();
    wrong + 1
}

// A try of a PIN that is due.
fn compare_pin(
    user: &mut User,
    era: Era,
    token: &Token,
    label: &Text,
    secret: &Text,
    session: &Session,
    factor: &Factor,
    answer: &Answer,
) -> Result<bool, NoMemory>
    requires last { user.old.last < 2 ^ 40 }
    requires there { session_at user.old.sessions token.now ≡ Some session.now }
    requires ready { readiness_now era user.old.last factor.now ≡ Readiness.Ready }
    ensures { IfOk result (λ fits. IsDone (pin_compared era user.old token.now label.now secret.now session.now factor.now) answer.now user.new (Some fits)) }
{
    if *secret == factor.secret {
        return right_pin(user, token, label, session, factor, answer);
    }
    let now = Stamp {
        boot: era.boot,
        at: user.last,
    };
    let after = missed(factor, now, era.start)?;
    user.durable.factors.insert(label.copy()?, after)?;
    Ok(is_wrong(answer))
}

fn try_pin(
    user: &mut User,
    era: Era,
    token: &Token,
    label: &Text,
    secret: &Text,
    session: &Session,
    factor: &Factor,
    answer: &Answer,
) -> Result<bool, NoMemory>
    requires last { user.old.last < 2 ^ 40 }
    requires there { session_at user.old.sessions token.now ≡ Some session.now }
    requires start { era.start < 2 ^ 40 }
    requires stamp { factor.now.stamp.at < 2 ^ 40 }
    ensures { IfOk result (λ fits. IsDone (pin_tried (readiness_now era user.old.last factor.now) era user.old token.now label.now secret.now session.now factor.now) answer.now user.new (Some fits)) }
{
    let now = Stamp {
        boot: era.boot,
        at: user.last,
    };
    match ready(&factor.schedule, factor.wrong, factor.stamp, now, era.start) {
        Readiness::Ready => compare_pin(user, era, token, label, secret, session, factor, answer),
        Readiness::Delayed(until) => Ok(is_delayed(answer, until.saturating_sub(user.last))),
        Readiness::Locked => Ok(is_locked(answer)),
    }
}

fn try_password(
    user: &mut User,
    token: &Token,
    secret: &Text,
    session: &Session,
    factor: &Factor,
    answer: &Answer,
) -> bool
    requires last { user.old.last < 2 ^ 40 }
    requires there { session_at user.old.sessions token.now ≡ Some session.now }
    ensures { IsDone (password_tried user.old token.now secret.now session.now factor.now) answer.now user.new (Some result) }
{
    if *secret == factor.secret {
        right_password(user, token, session, answer)
    } else {
        is_wrong(answer)
    }
}

fn authenticate(
    user: &mut User,
    era: Era,
    token: &Token,
    label: &Text,
    secret: &Text,
    answer: &Answer,
) -> Result<Option<bool>, NoMemory>
    requires { IsTimely era user.old }
    ensures { IfOk result (IsDone (authenticated era user.old token.now label.now secret.now) answer.now user.new) }
{
    let Some(session) = user.sessions.find(token) else {
        return Ok(None);
    };
    let Some(factor) = user.durable.factors.get(label) else {
        return Ok(None);
    };
    let factor = factor.copy()?;
    match factor.kind {
        Kind::Password => Ok(Some(try_password(user, token, secret, &session, &factor, answer))),
        Kind::Pin => Ok(Some(try_pin(user, era, token, label, secret, &session, &factor, answer)?)),
    }
}

// ---- factors

// Gives the label a new factor, of the next edition.
fn put_factor(
    durable: &mut Durable,
    label: &Text,
    kind: Kind,
    secret: &Text,
    schedule: Schedule,
) -> Result<(), NoMemory>
    requires { is_spent durable.old.next ≡ false }
    ensures { OnOk result (durable.new ≡ with_factor durable.old label.now kind secret.now schedule) }
{
    let factor = Factor {
        kind,
        secret: secret.copy()?,
        edition: durable.next,
        wrong: 0,
        stamp: NO_STAMP,
        schedule,
    };
    durable.factors.insert(label.copy()?, factor)?;
    durable.next += 1;
    Ok(())
}

// The schedule of a new factor.
fn schedule_of(kind: Kind, given: &Option<Schedule>) -> Schedule
    ensures { result ≡ schedule_of kind given.now }
{
    match (kind, given) {
        (Kind::Pin, Some(schedule)) => *schedule,
        _ => Schedule::usual(),
    }
}

// The session in which a home gets its first factor is authenticated.
fn prove_first(user: &mut User, count: usize, token: &Token)
    ensures { user.new ≡ record user.old { sessions = first_proved count token.now user.old.sessions } }
{
    if count > 0 {
        return;
    }
    if let Some(session) = user.sessions.find(token) {
        user.sessions.replace(
            token,
            Session {
                authenticated: true,
                ..session
            },
        );
    }
}

fn add(
    user: &mut User,
    token: &Token,
    label: &Text,
    kind: Kind,
    secret: &Text,
    schedule: &Option<Schedule>,
    answer: &Answer,
) -> Result<bool, NoMemory>
    requires { is_spent user.old.durable.next ≡ false }
    ensures { IfOk result (λ fits. IsDone (added user.old token.now label.now kind secret.now schedule.now) answer.now user.new (Some fits)) }
{
    let count = user.durable.factors.len();
    put_factor(
        &mut user.durable,
        label,
        kind,
        secret,
        schedule_of(kind, schedule),
    )?;
    prove_first(user, count, token);
    Ok(is_ok(answer))
}

fn update(
    user: &mut User,
    label: &Text,
    secret: &Text,
    answer: &Answer,
) -> Result<Option<bool>, NoMemory>
    requires { is_spent user.old.durable.next ≡ false }
    ensures { IfOk result (IsDone (updated user.old label.now secret.now) answer.now user.new) }
{
    let Some(factor) = user.durable.factors.get(label) else {
        return Ok(None);
    };
    let (kind, schedule) = (factor.kind, factor.schedule);
    put_factor(&mut user.durable, label, kind, secret, schedule)?;
    Ok(Some(is_ok(answer)))
}

fn remove(user: &mut User, label: &Text, answer: &Answer) -> bool
    ensures { IsDone (removed user.old label.now) answer.now user.new (Some result) }
{
    user.durable.factors.remove(label);
    is_ok(answer)
}

fn reset(user: &mut User, label: &Text, answer: &Answer) -> Result<Option<bool>, NoMemory>
    ensures { IfOk result (IsDone (reset user.old label.now) answer.now user.new) }
{
    let Some(factor) = user.durable.factors.get(label) else {
        return Ok(None);
    };
    let after = cleared(factor)?;
    user.durable.factors.insert(label.copy()?, after)?;
    Ok(Some(is_ok(answer)))
}

// ---- files

fn put_file(user: &mut User, name: &Text, bytes: &Blob, answer: &Answer) -> Result<bool, NoMemory>
    ensures { IfOk result (λ fits. IsDone (file_put user.old name.now bytes.now) answer.now user.new (Some fits)) }
{
    user.durable.files.insert(name.copy()?, bytes.copy()?)?;
    Ok(is_ok(answer))
}

fn read_file(user: &User, name: &Text, answer: &Answer) -> Option<bool>
    ensures { IsDone (file_read user.now name.now) answer.now user.now result }
{
    Some(is_bytes(answer, user.durable.files.get(name)?))
}

// ---- all requests

fn act(
    alloc: Global,
    user: &mut User,
    era: Era,
    request: &Request,
    answer: &Answer,
) -> Result<Option<bool>, NoMemory>
    requires timely { IsTimely era user.old }
    requires none { refusal_now user.old (Turn.Act request.now) ≡ None }
    ensures { IfOk result (IsDone (effect era (tail_in answer.now) user.old request.now) answer.now user.new) }
{
    Ok(Some(match request {
        Request::Create { .. } => {
            user.durable = Durable::new_home(alloc);
            is_ok(answer)
        }
        Request::StartSession { intent, .. } => start(user, *intent, answer)?,
        Request::ExtendSession { token, seconds, .. } => return Ok(extend(
            user, token, *seconds, answer,
        )),
        Request::EndSession { token, .. } => {
            user.sessions.end(token);
            is_ok(answer)
        }
        Request::Authenticate {
            token,
            label,
            secret,
            ..
        } => return authenticate(user, era, token, label, secret, answer),
        Request::AddFactor {
            token,
            label,
            kind,
            secret,
            schedule,
            ..
        } => add(user, token, label, *kind, secret, schedule, answer)?,
        Request::UpdateFactor { label, secret, .. } => return update(user, label, secret, answer),
        Request::RemoveFactor { label, .. } => remove(user, label, answer),
        Request::ResetPin { label, .. } => return reset(user, label, answer),
        Request::ListFactors { .. } => is_factors(answer, user.durable.factors.rows()),
        Request::Mount { .. } => {
            user.mounted = true;
            is_ok(answer)
        }
        Request::Unmount { .. } => {
            user.mounted = false;
            is_ok(answer)
        }
        Request::PutFile { name, bytes, .. } => put_file(user, name, bytes, answer)?,
        Request::GetFile { name, .. } => return Ok(read_file(user, name, answer)),
        Request::ListFiles { .. } => is_files(answer, user.durable.files.rows()),
    }))
}

// ---- looks and clearings

fn look(user: &User, label: &Text, answer: &Answer) -> bool
    ensures { IsTrue result ↔ (answer.now ≡ Answer.Seen (edition_of user.now label.now)) }
{
    let edition = match user.durable.factors.get(label) {
        None => None,
        Some(factor) => Some(factor.edition),
    };
    is_seen(answer, edition)
}

// The first PIN with a count, in order of label.
fn first_counted(rows: &[(Text, Factor)]) -> Option<&(Text, Factor)>
    ensures { option_copied result ≡ first_counted rows.now }
{
    for row in rows {
        if row.1.kind == Kind::Pin && row.1.wrong != 0 {
            return Some(row);
        }
    }
    None
}

fn clear(user: &mut User, answer: &Answer) -> Result<bool, NoMemory>
    ensures { IfOk result (λ fits. IsDone (cleared_by (first_counted (entries user.old.durable.factors)) user.old) answer.now user.new (Some fits)) }
{
    let Some(row) = first_counted(user.durable.factors.rows()) else {
        return Ok(is_clear(answer));
    };
    let label = row.0.copy()?;
    let after = cleared(&row.1)?;
    user.durable.factors.insert(label, after)?;
    Ok(is_cleared(answer))
}

/// Changes the user as the turn's row says where no refusal applies, and tells whether the answer is the
/// row's. A row that names a session or a factor that isn't there gives nothing.
pub fn perform(
    alloc: Global,
    user: &mut User,
    era: Era,
    turn: &Turn,
    answer: &Answer,
) -> Result<Option<bool>, NoMemory>
    requires timely { IsTimely era user.old }
    requires none { refusal_now user.old turn.now ≡ None }
    ensures { IfOk result (IsDone (turn_effect era (tail_in answer.now) user.old turn.now) answer.now user.new) }
{
    match turn {
        Turn::Look(label) => Ok(Some(look(user, label, answer))),
        Turn::Act(request) => act(alloc, user, era, request, answer),
        Turn::Clear(_) => Ok(Some(clear(user, answer)?)),
    }
}
