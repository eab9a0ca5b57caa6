//! The value behind an account's lock.

use crate::kind::AccountTurns;
use platform_lock::AccountSeat;
use pw_types::Era;
use turn_lock::Tale;

/// One turn of a client.
#[derive(Drop)]
pub struct Entry<T> {
    /// The client's number from 0.
    pub client: u32,
    /// What was asked, with the answer.
    pub turn: T,
    /// The number of the platform's steps up to and with the turn's last one, and 0 where it made none.
    pub place: u64,
}

/// An account's state, with its seat of the platform's lock.
#[derive(Drop)]
pub struct Account<K: AccountTurns> {
    /// It is away only during a turn.
    pub seat: Option<AccountSeat<K::Platform>>,
    pub state: K::State,
    /// The era of the run.
    pub era: Era,
}

impl<K: AccountTurns> Tale for Account<K> {
    ghost use Rattle.home_locks.specs.Meanings.{client_of};
    ghost use Rattle.home_locks.specs.Accounts.{AccountStands};

    type Entry = Entry<K::Turn>;

    ghost caller = { client_of };

    ghost stands = { λ first now book.
        AccountStands (K.rules first.era) K.ready first.seat first.state now.seat now.state book };
}
