//! A home as its clients' requests find it.

use board_device::BoardDevice;
use board_model::Board;
use ct_bytes::Text;
use home_locks::Account;
use platform_lock::Shared;
use std::marker::Model;
use turn_lock::Turnstile;
use user_accounts::UserTurns;

/// A home that clients' requests are made at, and that threads may share.
///
/// `kdf` derives keys between a look and its act, and `cost` is the cost exponent of new factors.
#[derive(Drop)]
pub struct OpenHome<'a, B: Board + Drop, F: Drop> {
    pub(crate) shared: &'a Shared<BoardDevice<B>>,
    pub(crate) names: &'a [Text],
    pub(crate) locks: &'a [Turnstile<Account<UserTurns<B>>>],
    pub(crate) kdf: F,
    pub(crate) cost: u8,
}

impl<'a, B: Board + Drop, F: Drop> Model for OpenHome<'a, B, F> {
    ghost use Rattle.std.specs.Prelude.{map};
    ghost use Rattle.board_device.specs.Device.{seen_by};
    ghost use Rattle.home_seats.specs.Seats.{lock_seen};
    ghost use Rattle.user_home.specs.Open.{HomeView, IsServable};

    ghost Value = { HomeView };

    ghost view = { λ home. record { names = home.names.now; locks = map (λ lock. lock.id) home.locks.now } };

    ghost invariant = { λ home. IsServable (seen_by B.faults home.shared.now.first.device) home.shared.now.id
        home.names.now (map (λ lock. lock_seen lock.id lock.first.seat lock.first.state lock.first.era) home.locks.now) };
}

impl<'a, B: Board + Drop, F: Drop> OpenHome<'a, B, F> {
    ghost use Rattle.std.specs.Prelude.{◌≡◌, map};
    ghost use Rattle.board_device.specs.Device.{seen_by};
    ghost use Rattle.home_seats.specs.Seats.{lock_seen};
    ghost use Rattle.user_home.specs.Open.{IsServable};

    /// The home of these accounts, with their locks in the same order.
    pub fn new(
        shared: &'a Shared<BoardDevice<B>>,
        names: &'a [Text],
        locks: &'a [Turnstile<Account<UserTurns<B>>>],
        kdf: F,
        cost: u8,
    ) -> OpenHome<'a, B, F>
        requires servable { IsServable (seen_by B.faults shared.now.first.device) shared.now.id names.now
            (map (λ lock. lock_seen lock.id lock.first.seat lock.first.state lock.first.era) locks.now) }
        ensures value { result ≡ record { names = names.now; locks = map (λ lock. lock.id) locks.now } }
    {
        OpenHome {
            shared,
            names,
            locks,
            kdf,
            cost,
        }
    }
}
