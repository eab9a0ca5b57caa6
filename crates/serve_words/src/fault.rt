//! Why words aren't served.

ghost use Rattle.std.specs.Prelude.{◌≡◌};
ghost use Rattle.serve_words.specs.Limits.{status_of};

use ct_bytes::NoMemory;
use std::alloc::AllocError;

/// Why words aren't served.
#[derive(Clone, Copy, Debug, PartialEq, Eq, Drop)]
pub enum UsageFault {
    /// The words aren't in the grammar of `serve`.
    BadWords,
    /// More than 64 accounts are named, or more than 16 clients are asked.
    TooMany { accounts: u64, clients: u64 },
    /// There was no memory.
    NoMemory,
}

impl UsageFault {
    /// The status that the program ends with.
    pub fn status(&self) -> u8
        ensures value { result ≡ status_of self.now }
    {
        match self {
            UsageFault::BadWords => 2,
            UsageFault::NoMemory => 5,
            UsageFault::TooMany { .. } => 7,
        }
    }
}

impl From<NoMemory> for UsageFault {
    ghost use Rattle.std.specs.Prelude.{◌≡◌};
    ghost use Rattle.serve_words.specs.declared.fault.UsageFault.TheVariants as faults;

    ghost from_gives = { λ _ fault. fault ≡ faults.NoMemory };

    fn from(_fault: NoMemory) -> UsageFault {
        UsageFault::NoMemory
    }
}

impl From<AllocError> for UsageFault {
    ghost use Rattle.std.specs.Prelude.{◌≡◌};
    ghost use Rattle.serve_words.specs.declared.fault.UsageFault.TheVariants as faults;

    ghost from_gives = { λ _ fault. fault ≡ faults.NoMemory };

    fn from(_fault: AllocError) -> UsageFault {
        UsageFault::NoMemory
    }
}
