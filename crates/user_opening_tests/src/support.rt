//! An account over a share in memory, and its answers as text.

ghost use Rattle.std.specs.Prelude.{◌≡◌, ◌≤◌, None, IfOk, IfSome};
ghost use Rattle.mem_share.specs.Mem.{seen_of};
ghost use Rattle.share_api.specs.Conditions.{IsOwnName};
ghost use Rattle.request_forms.specs.Formed.{IsFormed, IsFormedRequest};
ghost use Rattle.user_opening_tests.specs.Ready.{IsReady};

use account_machine::{Answer, Intent, Kind, Request, Token, Turn};
use ct_bytes::{Blob, Text};
use home_names::{is_account_name, is_factor_label};
use mem_share::{Fail, MemShare};
use pw_types::Schedule;
use record_names::RecordName;
use share_api::{NewLeaf, Share, ShareFault};
use std::alloc::Global;
use std::test;
use stored_home::StoreFault;
use user_opening::open_user;
use user_state::UserState;
use user_turn::act;

pub type Outcome = Result<(), test::Fail>;

/// What is asked of the account `ann`, in the session that was started last: labels with secrets, and files' names
/// with texts.
#[derive(Clone, Copy)]
pub enum Ask {
    /// Drops the state, and opens the account again.
    Open,
    Create,
    StartSession,
    /// Moves the session's end by 60 seconds.
    ExtendSession,
    EndSession,
    AddPassword(&'static str, &'static str),
    UpdatePassword(&'static str, &'static str),
    RemoveFactor(&'static str),
    Authenticate(&'static str, &'static str),
    ListFactors,
    Mount,
    Unmount,
    PutFile(&'static str, &'static str),
    GetFile(&'static str),
    ListFiles,
}

/// A record or a leaf that no turn made.
#[derive(Clone, Copy)]
pub enum Piece {
    /// The stash, outside its grammar.
    BadStash,
    /// The record of the factor `main`, of edition 3.
    Factor,
    /// The vault file `list`.
    File,
    Leaf,
}

/// The moment of each opening, turn and call.
const MOMENT: u64 = 1_000;

/// A share with nothing, whose listed calls fail.
pub fn share_of(alloc: Global, fails: &[Fail]) -> Result<MemShare, test::Fail> {
    Ok(MemShare::new(alloc, 0, fails.to_vec(alloc)?)?)
}

/// Opens the account.
pub fn open(alloc: Global, share: &mut MemShare) -> Result<UserState, StoreFault>
    ensures ready { IfOk result (λ state. IsReady state share.new) }
    ensures lost { (seen_of share.new).lost ≡ (seen_of share.old).lost }
{
    let account = Text::from_str(alloc, "ann")?;
    if !is_account_name(account.as_str()) {
        return Err(StoreFault::Failed);
    }
    open_user(alloc, account, share, &[5; 32], 1, MOMENT)
}

/// What an opened state has.
pub fn state_text(alloc: Global, state: &UserState) -> Result<String, test::Fail> {
    let home = match state.stored.stash {
        None => "no home",
        Some(_) => "a home",
    };
    let factors = state.stored.factors.len();
    let files = state.stored.files.len();
    let sessions = state.sessions.count();
    Ok(format!(in alloc; "{home}, {factors} factors, {files} files, {sessions} sessions")?)
}

/// The fault of an opening.
pub fn fault_text(alloc: Global, fault: &StoreFault) -> Result<String, test::Fail> {
    let text = match fault {
        StoreFault::Failed => format!(in alloc; "failed")?,
        StoreFault::Damaged(name) => format!(in alloc; "{} is damaged", name.as_str())?,
        StoreFault::NoMemory => format!(in alloc; "no memory")?,
        StoreFault::TreeLost { .. } => format!(in alloc; "tree lost")?,
    };
    Ok(text)
}

// An answer, or a file's text.
fn answer_text(alloc: Global, answer: &Answer) -> Result<String, test::Fail> {
    let text = match answer {
        Answer::Ok => "ok",
        Answer::OkSession { .. } => "started",
        Answer::OkEnds(_) => "extended",
        Answer::OkPassword(_) => "right",
        Answer::OkBytes(bytes) => str::from_utf8(bytes.as_slice())?,
        Answer::OkFactors(lines) => return Ok(format!(in alloc;
            "{} factors",
            lines.as_slice().len()
        )?),
        Answer::OkFiles(names) => return Ok(format!(in alloc; "{} files", names.as_slice().len())?),
        Answer::Exists => "exists",
        Answer::LastPassword => "last password",
        Answer::Wrong => "wrong",
        Answer::UnknownSession => "unknown session",
        Answer::NotMounted => "not mounted",
        Answer::StorageFault => "storage fault",
        Answer::NoMemory => "no memory",
        _ => "another answer",
    };
    Ok(format!(in alloc; "{text}")?)
}

// What is asked of a factor, as a request.
fn factor_request(
    alloc: Global,
    token: Token,
    ask: Ask,
    label: &str,
    secret: &str,
) -> Result<Request, test::Fail>
    ensures { IfOk result IsFormedRequest }
{
    if !is_factor_label(label) {
        return Err(test::Fail::new(label));
    }
    let account = Text::from_str(alloc, "ann")?;
    let label = Text::from_str(alloc, label)?;
    let secret = Text::from_str(alloc, secret)?;
    Ok(match ask {
        Ask::AddPassword(_, _) => Request::AddFactor {
            account,
            token,
            label,
            kind: Kind::Password,
            secret,
            schedule: None,
        },
        Ask::UpdatePassword(_, _) => Request::UpdateFactor {
            account,
            token,
            label,
            secret,
        },
        Ask::RemoveFactor(_) => Request::RemoveFactor {
            account,
            token,
            label,
        },
        _ => Request::Authenticate {
            account,
            token,
            label,
            secret,
        },
    })
}

// The request that writes a file, or that reads it.
fn file_request(alloc: Global, name: &str, text: Option<&str>) -> Result<Request, test::Fail>
    ensures { IfOk result IsFormedRequest }
{
    if name.is_empty() || name.len() > 64 {
        return Err(test::Fail::new(name));
    }
    let account = Text::from_str(alloc, "ann")?;
    let name = Text::from_str(alloc, name)?;
    match text {
        None => Ok(Request::GetFile { account, name }),
        Some(text) => Ok(Request::PutFile {
            account,
            name,
            bytes: Blob::from_slice(alloc, text.as_bytes())?,
        }),
    }
}

// What is asked without a text, as a request.
fn plain_request(alloc: Global, token: Token, ask: Ask) -> Result<Request, test::Fail>
    ensures { IfOk result IsFormedRequest }
{
    let account = Text::from_str(alloc, "ann")?;
    match ask {
        Ask::Create => Ok(Request::Create { account }),
        Ask::StartSession => Ok(Request::StartSession {
            account,
            intent: Intent::Decrypt,
        }),
        Ask::ExtendSession => Ok(Request::ExtendSession {
            account,
            token,
            seconds: 60,
        }),
        Ask::EndSession => Ok(Request::EndSession { account, token }),
        Ask::ListFactors => Ok(Request::ListFactors { account }),
        Ask::Mount => Ok(Request::Mount { account, token }),
        Ask::Unmount => Ok(Request::Unmount { account }),
        Ask::ListFiles => Ok(Request::ListFiles { account }),
        _ => Err(test::Fail::new("an opening is no request")),
    }
}

// What is asked, as a request. An opening is none.
fn request_of(alloc: Global, token: Token, ask: Ask) -> Result<Request, test::Fail>
    ensures { IfOk result IsFormedRequest }
{
    match ask {
        Ask::AddPassword(label, secret)
        | Ask::UpdatePassword(label, secret)
        | Ask::Authenticate(label, secret) => factor_request(alloc, token, ask, label, secret),
        Ask::RemoveFactor(label) => factor_request(alloc, token, ask, label, ""),
        Ask::PutFile(name, text) => file_request(alloc, name, Some(text)),
        Ask::GetFile(name) => file_request(alloc, name, None),
        _ => plain_request(alloc, token, ask),
    }
}

// One turn.
fn take_turn(alloc: Global, state: &mut UserState, share: &mut MemShare, turn: &Turn) -> Answer
    requires ready { IsReady state.old share.old }
    requires formed { IsFormed turn.now }
    ensures ready { IsReady state.new share.new }
{
    act(alloc, state, share, turn, None, MOMENT).answer
}

// Opens the account again.
fn open_again(
    alloc: Global,
    state: &mut UserState,
    share: &mut MemShare,
) -> Result<String, test::Fail>
    requires ready { IsReady state.old share.old }
    ensures ready { IsReady state.new share.new }
{
    match open(alloc, share) {
        Ok(opened) => {
            *state = opened;
            state_text(alloc, state)
        }
        Err(fault) => fault_text(alloc, &fault),
    }
}

// What is answered. A new session is the one that further questions are in.
fn answer(
    alloc: Global,
    state: &mut UserState,
    share: &mut MemShare,
    token: &mut Token,
    ask: Ask,
) -> Result<String, test::Fail>
    requires ready { IsReady state.old share.old }
    ensures ready { IsReady state.new share.new }
{
    if let Ask::Open = ask {
        return open_again(alloc, state, share);
    }
    let asked = Turn::Act(request_of(alloc, *token, ask)?);
    let answer = take_turn(alloc, state, share, &asked);
    if let Answer::OkSession { token: started, .. } = &answer {
        *token = *started;
    }
    answer_text(alloc, &answer)
}

/// Opens the account over the share, and asks it, each of which must be answered so.
pub fn check(alloc: Global, mut share: MemShare, rows: &[(Ask, &str)]) -> Outcome {
    let Ok(mut state) = open(alloc, &mut share) else {
        return Err(test::Fail::new("the account doesn't open"));
    };
    let mut token = Token {
        number: 0,
        tail: [0; 16],
    };
    for (ask, want) in rows {
        let text = answer(alloc, &mut state, &mut share, &mut token, *ask)?;
        if text.as_str() != *want {
            return Err(test::Fail::new(format_args!("{text} and not {want}")));
        }
    }
    Ok(())
}

// The name of a record of the account.
fn name_of(piece: Piece) -> Option<RecordName>
    ensures { IfSome result (λ name. IsOwnName None name) }
{
    if !is_account_name("ann") || !is_factor_label("main") {
        return None;
    }
    match piece {
        Piece::BadStash => Some(RecordName::stash("ann")),
        Piece::Factor => Some(RecordName::factor("ann", "main", 3)),
        Piece::File => Some(RecordName::file("ann", "list")),
        Piece::Leaf => None,
    }
}

// A leaf of the account.
fn put_leaf(share: &mut MemShare) -> Result<(), ShareFault>
    requires { 1 ≤ (seen_of share.old).spare }
{
    let leaf = NewLeaf {
        les: [1; 32],
        hes: [2; 32],
        reset: [3; 32],
        schedule: Schedule::usual(),
    };
    share.insert_leaf(&leaf, MOMENT)?;
    Ok(())
}

/// Puts a piece: records have one byte.
pub fn put(alloc: Global, share: &mut MemShare, piece: Piece) -> Outcome {
    share.stock(alloc, 1)?;
    let done = match name_of(piece) {
        None => put_leaf(share),
        Some(name) => share.put(&name, Blob::from_slice(alloc, b"?")?),
    };
    if done.is_err() {
        return Err(test::Fail::new("the piece isn't put"));
    }
    Ok(())
}

/// The names of what is there, each with a space behind it.
pub fn names_text(alloc: Global, share: &mut MemShare) -> Result<String, test::Fail> {
    share.stock(alloc, 1)?;
    let Ok(names) = share.names(alloc) else {
        return Err(test::Fail::new("the names aren't listed"));
    };
    let mut text = String::new(alloc);
    for name in &names {
        text.push_str(name.as_str())?;
        text.push(' ')?;
    }
    Ok(text)
}
