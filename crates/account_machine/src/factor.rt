//! Factors of a home, in plain data.

ghost use Rattle.std.specs.Prelude.{◌≡◌, IfOk};
ghost use Rattle.account_machine.specs.User.{mark_of};

use ct_bytes::{NoMemory, Text};
use name_map::Copied;
use pw_types::{Schedule, Stamp};

/// What kind of secret a factor has.
#[derive(Clone, Copy, Debug, PartialEq, Eq)]
pub enum Kind {
    /// 1 to 256 bytes of UTF-8. Tries aren't counted.
    Password,
    /// 4 to 12 digits. Wrong tries are counted, and delay the next one.
    Pin,
}

/// What may be told of a factor without its secret.
#[derive(Clone, Copy, Debug, PartialEq, Eq)]
pub struct Mark {
    pub kind: Kind,
    /// Which of the home's factors it is, counted from 1 in the order in which they were made.
    pub edition: u64,
}

/// A factor. A home keeps it by its label.
///
/// `wrong` counts the wrong tries since the last right one or reset, and `stamp` is the last wrong
/// try's boot and moment. A password has count 0, stamp 0 and the default schedule.
#[derive(Debug, PartialEq, Eq, Drop)]
pub struct Factor {
    pub kind: Kind,
    pub secret: Text,
    pub edition: u64,
    pub wrong: u32,
    pub stamp: Stamp,
    pub schedule: Schedule,
}

impl Factor {
    /// Its kind and edition.
    pub fn mark(&self) -> Mark
        ensures { result ≡ mark_of self.now }
    {
        Mark {
            kind: self.kind,
            edition: self.edition,
        }
    }
}

impl Copied for Factor {
    fn copy(&self) -> Result<Factor, NoMemory> {
        Ok(Factor {
            kind: self.kind,
            secret: self.secret.copy()?,
            edition: self.edition,
            wrong: self.wrong,
            stamp: self.stamp,
            schedule: self.schedule,
        })
    }
}
