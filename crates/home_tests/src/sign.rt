//! Signs that one thread gives and others wait for.

use std::sync::OnceLock;

// How often a waiting thread looks before it gives up: some seconds.
const LOOKS: u64 = 4_000_000_000;

/// What clients tell each other.
#[derive(Clone, Copy, Debug, PartialEq, Eq)]
pub enum Sign {
    /// A client is ready.
    Ready,
    /// A key is being derived.
    KeyBegun,
    /// A change is inside its turn, at the board.
    Inside,
    /// Another client was answered.
    Answered,
    /// The answer didn't come while a change waited for it.
    Missed,
}

/// Which signs were given.
#[derive(Drop)]
pub struct Signs {
    ready: OnceLock<bool>,
    key_begun: OnceLock<bool>,
    inside: OnceLock<bool>,
    answered: OnceLock<bool>,
    missed: OnceLock<bool>,
}

impl Signs {
    /// No sign is given yet.
    pub fn new() -> Signs {
        Signs {
            ready: OnceLock::new(),
            key_begun: OnceLock::new(),
            inside: OnceLock::new(),
            answered: OnceLock::new(),
            missed: OnceLock::new(),
        }
    }

    fn at(&self, sign: Sign) -> &OnceLock<bool> {
        match sign {
            Sign::Ready => &self.ready,
            Sign::KeyBegun => &self.key_begun,
            Sign::Inside => &self.inside,
            Sign::Answered => &self.answered,
            Sign::Missed => &self.missed,
        }
    }

    /// Gives a sign.
    pub fn give(&self, sign: Sign) {
        let _ = self.at(sign).try_set(true);
    }

    /// Whether a sign was given.
    pub fn has(&self, sign: Sign) -> bool {
        self.at(sign).get().is_some()
    }

    /// Waits until a sign is given, and says whether it was before the patience ended.
    pub fn comes(&self, sign: Sign) -> bool {
        for _ in 0..LOOKS {
            if self.has(sign) {
                return true;
            }
        }
        false
    }
}
