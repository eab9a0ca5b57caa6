//! The state of one account, in plain data: no hash, no key, no record.

ghost use Rattle.std.specs.Prelude.{◌≡◌, IfOk};
ghost use Rattle.account_machine.specs.User.{no_home, new_home, opened};

use crate::{Factor, Sessions};
use ct_bytes::{Blob, NoMemory};
use name_map::{Copied, NameMap};
use std::alloc::Global;

/// What an account keeps over a restart: whether its home is made, the edition that its next factor
/// gets, from 1, its factors by label, and the files of its vault by name.
#[derive(Debug, Drop)]
pub struct Durable {
    pub made: bool,
    pub next: u64,
    pub factors: NameMap<Factor>,
    pub files: NameMap<Blob>,
}

/// An account. Where `other` is there the account is unsettled: the records may hold either durable
/// part. `next_session` is the number of its next session, `mounted` says whether its vault is open,
/// and `last` is its last moment, in seconds.
#[derive(Debug, Drop)]
pub struct User {
    pub durable: Durable,
    pub other: Option<Durable>,
    pub sessions: Sessions,
    pub next_session: u64,
    pub mounted: bool,
    pub last: u64,
}

impl Durable {
    /// No home.
    pub fn no_home(alloc: Global) -> Durable
        ensures { result ≡ no_home }
    {
        Durable {
            made: false,
            next: 1,
            factors: NameMap::new(alloc),
            files: NameMap::new(alloc),
        }
    }

    /// A new home, without factors and files.
    pub fn new_home(alloc: Global) -> Durable
        ensures { result ≡ new_home }
    {
        Durable {
            made: true,
            next: 1,
            factors: NameMap::new(alloc),
            files: NameMap::new(alloc),
        }
    }
}

impl Copied for Durable {
    fn copy(&self) -> Result<Durable, NoMemory> {
        Ok(Durable {
            made: self.made,
            next: self.next,
            factors: self.factors.copy()?,
            files: self.files.copy()?,
        })
    }
}

impl User {
    /// An account with this durable part, as an opening at this moment leaves it: settled, with no
    /// session and no mount.
    pub fn opened(alloc: Global, durable: Durable, moment: u64) -> User
        ensures { result ≡ opened durable moment }
    {
        User {
            durable,
            other: None,
            sessions: Sessions::new(alloc),
            next_session: 1,
            mounted: false,
            last: moment,
        }
    }

    /// An account without a home, opened at this moment.
    pub fn fresh(alloc: Global, moment: u64) -> User
        ensures { result ≡ opened no_home moment }
    {
        User::opened(alloc, Durable::no_home(alloc), moment)
    }
}

impl Copied for User {
    fn copy(&self) -> Result<User, NoMemory> {
        let other = match &self.other {
            None => None,
            Some(other) => Some(other.copy()?),
        };
        Ok(User {
            durable: self.durable.copy()?,
            other,
            sessions: self.sessions.copy()?,
            next_session: self.next_session,
            mounted: self.mounted,
            last: self.last,
        })
    }
}
