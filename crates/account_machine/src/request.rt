//! What is asked of an account.

ghost use Rattle.std.specs.Prelude.{◌≡◌, IfOk};
ghost use Rattle.account_machine.specs.Asked.{account_of};

use crate::{Intent, Kind, Token};
use ct_bytes::{Blob, NoMemory, Text};
use name_map::Copied;
use pw_types::Schedule;

/// What a client asks of an account.
///
/// Accounts, labels and file names are of their grammars. `seconds` are those by which a session's end
/// moves. A schedule that is absent is the default one.
#[derive(Debug, PartialEq, Eq, Drop)]
pub enum Request {
    /// Makes the account's home.
    Create {
        account: Text,
    },
    /// Starts a session.
    StartSession {
        account: Text,
        intent: Intent,
    },
    /// Moves a session's end.
    ExtendSession {
        account: Text,
        token: Token,
        seconds: u64,
    },
    /// Ends a session.
    EndSession {
        account: Text,
        token: Token,
    },
    /// Proves a factor's secret.
    Authenticate {
        account: Text,
        token: Token,
        label: Text,
        secret: Text,
    },
    /// Adds a factor.
    AddFactor {
        account: Text,
        token: Token,
        label: Text,
        kind: Kind,
        secret: Text,
        schedule: Option<Schedule>,
    },
    /// Gives a factor another secret.
    UpdateFactor {
        account: Text,
        token: Token,
        label: Text,
        secret: Text,
    },
    /// Removes a factor.
    RemoveFactor {
        account: Text,
        token: Token,
        label: Text,
    },
    /// Sets a PIN's count of wrong tries back.
    ResetPin {
        account: Text,
        token: Token,
        label: Text,
    },
    /// Lists the factors.
    ListFactors {
        account: Text,
    },
    /// Opens the vault.
    Mount {
        account: Text,
        token: Token,
    },
    /// Closes the vault.
    Unmount {
        account: Text,
    },
    /// Writes a file of the vault.
    PutFile {
        account: Text,
        name: Text,
        bytes: Blob,
    },
    /// Reads a file of the vault.
    GetFile {
        account: Text,
        name: Text,
    },
    /// Lists the files of the vault.
    ListFiles {
        account: Text,
    },
}

/// One turn of one account's lock.
#[derive(Debug, PartialEq, Eq, Drop)]
pub enum Turn {
    /// Looks which edition the label's factor has.
    Look(Text),
    /// One request.
    Act(Request),
    /// Sets back the count of the first PIN that has one, after a right password in the token's session.
    Clear(Token),
}

impl Request {
    /// The account that is asked.
    pub fn account(&self) -> &Text
        ensures { result.now ≡ account_of self.now }
    {
        match self {
            Request::Create { account }
            | Request::StartSession { account, .. }
            | Request::ExtendSession { account, .. }
            | Request::EndSession { account, .. }
            | Request::Authenticate { account, .. }
            | Request::AddFactor { account, .. }
            | Request::UpdateFactor { account, .. }
            | Request::RemoveFactor { account, .. }
            | Request::ResetPin { account, .. }
            | Request::ListFactors { account }
            | Request::Mount { account, .. }
            | Request::Unmount { account }
            | Request::PutFile { account, .. }
            | Request::GetFile { account, .. }
            | Request::ListFiles { account } => account,
        }
    }
}

impl Copied for Request {
    fn copy(&self) -> Result<Request, NoMemory> {
        let account = self.account().copy()?;
        Ok(match self {
            Request::Create { .. } => Request::Create { account },
            Request::StartSession { intent, .. } => Request::StartSession {
                account,
                intent: *intent,
            },
            Request::ExtendSession { token, seconds, .. } => Request::ExtendSession {
                account,
                token: *token,
                seconds: *seconds,
            },
            Request::EndSession { token, .. } => Request::EndSession {
                account,
                token: *token,
            },
            Request::Authenticate {
                token,
                label,
                secret,
                ..
            } => Request::Authenticate {
                account,
                token: *token,
                label: label.copy()?,
                secret: secret.copy()?,
            },
            Request::AddFactor {
                token,
                label,
                kind,
                secret,
                schedule,
                ..
            } => Request::AddFactor {
                account,
                token: *token,
                label: label.copy()?,
                kind: *kind,
                secret: secret.copy()?,
                schedule: *schedule,
            },
            Request::UpdateFactor {
                token,
                label,
                secret,
                ..
            } => Request::UpdateFactor {
                account,
                token: *token,
                label: label.copy()?,
                secret: secret.copy()?,
            },
            Request::RemoveFactor { token, label, .. } => Request::RemoveFactor {
                account,
                token: *token,
                label: label.copy()?,
            },
            Request::ResetPin { token, label, .. } => Request::ResetPin {
                account,
                token: *token,
                label: label.copy()?,
            },
            Request::ListFactors { .. } => Request::ListFactors { account },
            Request::Mount { token, .. } => Request::Mount {
                account,
                token: *token,
            },
            Request::Unmount { .. } => Request::Unmount { account },
            Request::PutFile { name, bytes, .. } => Request::PutFile {
                account,
                name: name.copy()?,
                bytes: bytes.copy()?,
            },
            Request::GetFile { name, .. } => Request::GetFile {
                account,
                name: name.copy()?,
            },
            Request::ListFiles { .. } => Request::ListFiles { account },
        })
    }
}

impl Copied for Turn {
    fn copy(&self) -> Result<Turn, NoMemory> {
        Ok(match self {
            Turn::Look(label) => Turn::Look(label.copy()?),
            Turn::Act(request) => Turn::Act(request.copy()?),
            Turn::Clear(token) => Turn::Clear(*token),
        })
    }
}
