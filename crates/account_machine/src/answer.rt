//! What is answered.

ghost use Rattle.std.specs.Prelude.{◌≡◌, [], ◌∷◌, ◌++◌, IfOk, OnOk, OnErr};
ghost use Rattle.account_machine.specs.Answers.{answer_of, refused_in};

use crate::{Kind, Token};
use ct_bytes::{Blob, NoMemory, Text};
use name_map::Copied;
use std::alloc::Global;
use std::marker::Model;

/// A plain refusal of the table.
#[derive(Clone, Copy, Debug, PartialEq, Eq)]
pub enum Refused {
    /// The home is made already.
    Exists,
    /// The home isn't made.
    NoHome,
    /// The last session number is given.
    SessionsSpent,
    /// No session has the token.
    UnknownSession,
    /// The session is at or past its end.
    Expired,
    /// The session is for verifying alone.
    WrongIntent,
    /// No secret was proved in the session.
    NotAuthorised,
    /// No factor has the label, or it isn't a PIN where one is asked.
    UnknownFactor,
    /// A factor has the label already.
    FactorExists,
    /// A home's first factor is a password.
    PasswordFirst,
    /// A home keeps a password.
    LastPassword,
    /// The home has as many factors, or PINs, as it may.
    TooManyFactors,
    /// The secret isn't in the grammar of its kind.
    BadSecret,
    /// The last edition is given.
    EditionsSpent,
    /// The vault is open.
    AlreadyMounted,
    /// The vault isn't open.
    NotMounted,
    /// No file has the name.
    UnknownFile,
    /// The vault has as many files as it may.
    TooManyFiles,
    /// The file has more bytes than it may.
    TooLarge,
}

/// A factor as it is listed. `wrong` is there exactly for a PIN while the tree isn't lost.
#[derive(Debug, PartialEq, Eq, Drop)]
pub struct FactorLine {
    pub label: Text,
    pub kind: Kind,
    pub wrong: Option<u32>,
}

/// Lines of factors, seen as their list.
#[derive(Debug, Drop)]
pub struct FactorLines {
    alloc: Global,
    lines: Vec<FactorLine>,
}

impl Model for FactorLines {
    ghost use Rattle.std.specs.Prelude.{List};
    ghost use Rattle.account_machine.specs.declared.answer.FactorLine.{FactorLine};

    ghost Value = { List FactorLine };

    ghost view = { λ f. f.lines.items };
}

/// Names of files, seen as their list.
#[derive(Debug, Drop)]
pub struct FileNames {
    alloc: Global,
    names: Vec<Text>,
}

impl Model for FileNames {
    ghost use Rattle.std.specs.Prelude.{List, ℕ};

    ghost Value = { List (List ℕ) };

    ghost view = { λ f. f.names.items };
}

/// What the daemon answers. Ends, seconds and moments are in seconds.
#[derive(Debug, Drop)]
pub enum Answer {
    Ok,
    /// The session's end.
    OkEnds(u64),
    /// The session's end, after a password was right.
    OkPassword(u64),
    /// A new session's end and token.
    OkSession { ends: u64, token: Token },
    /// The factors, in order of label.
    OkFactors(FactorLines),
    /// The files' names, in order of bytes.
    OkFiles(FileNames),
    /// A file's bytes.
    OkBytes(Blob),
    /// A PIN's count was set back.
    PinCleared,
    /// No PIN has a count.
    PinsClear,
    /// The edition of a label's factor, where there is one.
    Seen(Option<u64>),
    Exists,
    NoHome,
    SessionsSpent,
    UnknownSession,
    Expired,
    WrongIntent,
    NotAuthorised,
    UnknownFactor,
    FactorExists,
    PasswordFirst,
    LastPassword,
    TooManyFactors,
    BadSecret,
    EditionsSpent,
    AlreadyMounted,
    NotMounted,
    UnknownFile,
    TooManyFiles,
    TooLarge,
    /// The account isn't one of the run's.
    UnknownAccount,
    /// The secret isn't the factor's.
    Wrong,
    /// The PIN is locked until its count is set back.
    Locked,
    /// The PIN may be tried in so many seconds.
    Delayed(u64),
    /// The host's records and the chip have come apart: the host's root and the chip's.
    TreeLost { host: [u8; 32], chip: [u8; 32] },
    /// This record is outside its form, and nothing changed.
    Damaged(Text),
    /// A device failed in this turn. The change stands or doesn't.
    StorageFault,
    /// There was no memory, and nothing changed.
    NoMemory,
}

impl Copied for FactorLine {
    fn copy(&self) -> Result<FactorLine, NoMemory> {
        Ok(FactorLine {
            label: self.label.copy()?,
            kind: self.kind,
            wrong: self.wrong,
        })
    }
}

// Equal values.
fn copies<T: Copied + Drop>(alloc: Global, from: &[T]) -> Result<Vec<T>, NoMemory>
    ensures value { IfOk result (λ copies. copies.items ≡ from.now) }
{
    let mut copies = Vec::with_capacity(alloc, from.len())?;
    for value in from {
        copies.push(value.copy()?)?;
    }
    Ok(copies)
}

impl FactorLines {
    /// No line.
    pub fn new(alloc: Global) -> FactorLines
        ensures { result ≡ [] }
    {
        FactorLines {
            alloc,
            lines: Vec::new(alloc),
        }
    }

    /// Adds a line at the end. A refusal leaves the lines as they are.
    pub fn push(&mut self, line: FactorLine) -> Result<(), NoMemory>
        ensures ok { OnOk result (self.new ≡ self.old ++ line ∷ []) }
        ensures err { OnErr result (self.new ≡ self.old) }
    {
        self.lines.push(line)?;
        Ok(())
    }

    /// The lines.
    pub fn as_slice(&self) -> &[FactorLine]
        ensures { result.now ≡ self.now }
    {
        &self.lines
    }
}

impl Copied for FactorLines {
    fn copy(&self) -> Result<FactorLines, NoMemory> {
        Ok(FactorLines {
            alloc: self.alloc,
            lines: copies(self.alloc, &self.lines)?,
        })
    }
}

impl FileNames {
    /// No name.
    pub fn new(alloc: Global) -> FileNames
        ensures { result ≡ [] }
    {
        FileNames {
            alloc,
            names: Vec::new(alloc),
        }
    }

    /// Adds a name at the end. A refusal leaves the names as they are.
    pub fn push(&mut self, name: Text) -> Result<(), NoMemory>
        ensures ok { OnOk result (self.new ≡ self.old ++ name ∷ []) }
        ensures err { OnErr result (self.new ≡ self.old) }
    {
        self.names.push(name)?;
        Ok(())
    }

    /// The names.
    pub fn as_slice(&self) -> &[Text]
        ensures { result.now ≡ self.now }
    {
        &self.names
    }
}

impl Copied for FileNames {
    fn copy(&self) -> Result<FileNames, NoMemory> {
        Ok(FileNames {
            alloc: self.alloc,
            names: copies(self.alloc, &self.names)?,
        })
    }
}

impl Refused {
    /// The answer that says so.
    pub fn answer(self) -> Answer
        ensures { result ≡ answer_of self }
    {
        match self {
            Refused::Exists => Answer::Exists,
            Refused::NoHome => Answer::NoHome,
            Refused::SessionsSpent => Answer::SessionsSpent,
            Refused::UnknownSession => Answer::UnknownSession,
            Refused::Expired => Answer::Expired,
            Refused::WrongIntent => Answer::WrongIntent,
            Refused::NotAuthorised => Answer::NotAuthorised,
            Refused::UnknownFactor => Answer::UnknownFactor,
            Refused::FactorExists => Answer::FactorExists,
            Refused::PasswordFirst => Answer::PasswordFirst,
            Refused::LastPassword => Answer::LastPassword,
            Refused::TooManyFactors => Answer::TooManyFactors,
            Refused::BadSecret => Answer::BadSecret,
            Refused::EditionsSpent => Answer::EditionsSpent,
            Refused::AlreadyMounted => Answer::AlreadyMounted,
            Refused::NotMounted => Answer::NotMounted,
            Refused::UnknownFile => Answer::UnknownFile,
            Refused::TooManyFiles => Answer::TooManyFiles,
            Refused::TooLarge => Answer::TooLarge,
        }
    }
}

impl Answer {
    /// The refusal of the table that this answer is.
    pub fn refused(&self) -> Option<Refused>
        ensures { result ≡ refused_in self.now }
    {
        Some(match self {
            Answer::Exists => Refused::Exists,
            Answer::NoHome => Refused::NoHome,
            Answer::SessionsSpent => Refused::SessionsSpent,
            Answer::UnknownSession => Refused::UnknownSession,
            Answer::Expired => Refused::Expired,
            Answer::WrongIntent => Refused::WrongIntent,
            Answer::NotAuthorised => Refused::NotAuthorised,
            Answer::UnknownFactor => Refused::UnknownFactor,
            Answer::FactorExists => Refused::FactorExists,
            Answer::PasswordFirst => Refused::PasswordFirst,
            Answer::LastPassword => Refused::LastPassword,
            Answer::TooManyFactors => Refused::TooManyFactors,
            Answer::BadSecret => Refused::BadSecret,
            Answer::EditionsSpent => Refused::EditionsSpent,
            Answer::AlreadyMounted => Refused::AlreadyMounted,
            Answer::NotMounted => Refused::NotMounted,
            Answer::UnknownFile => Refused::UnknownFile,
            Answer::TooManyFiles => Refused::TooManyFiles,
            Answer::TooLarge => Refused::TooLarge,
            _ => return None,
        })
    }
}

impl Copied for Answer {
    fn copy(&self) -> Result<Answer, NoMemory> {
        if let Some(refused) = self.refused() {
            return Ok(refused.answer());
        }
        Ok(match self {
            Answer::Ok => Answer::Ok,
            Answer::OkEnds(ends) => Answer::OkEnds(*ends),
            Answer::OkPassword(ends) => Answer::OkPassword(*ends),
            Answer::OkSession { ends, token } => Answer::OkSession {
                ends: *ends,
                token: *token,
            },
            Answer::OkFactors(lines) => Answer::OkFactors(lines.copy()?),
            Answer::OkFiles(names) => Answer::OkFiles(names.copy()?),
            Answer::OkBytes(bytes) => Answer::OkBytes(bytes.copy()?),
            Answer::PinCleared => Answer::PinCleared,
            Answer::PinsClear => Answer::PinsClear,
            Answer::Seen(edition) => Answer::Seen(*edition),
            Answer::UnknownAccount => Answer::UnknownAccount,
            Answer::Wrong => Answer::Wrong,
            Answer::Locked => Answer::Locked,
            Answer::Delayed(seconds) => Answer::Delayed(*seconds),
            Answer::TreeLost { host, chip } => Answer::TreeLost {
                host: *host,
                chip: *chip,
            },
            Answer::Damaged(name) => Answer::Damaged(name.copy()?),
            Answer::StorageFault => Answer::StorageFault,
            _ => Answer::NoMemory,
        })
    }
}
