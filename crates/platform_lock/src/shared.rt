//! The value behind the platform's lock.

ghost use Rattle.std.specs.Prelude.{◌≡◌, ◌<◌, ◌+◌, length, IfOk, IfErr};
ghost use Rattle.turn_lock.specs.Seats.{first_seat, HasEachNumber};

use crate::device::Device;
use share_api::Step;
use std::alloc::Global;
use turn_lock::{NoMemory, Seat, Tale, Turnstile};

/// The platform behind its lock.
///
/// A caller is an account, and its entries are the account's device steps.
#[derive(Drop)]
pub struct SharedDevice<D> {
    pub device: D,
}

impl<D: Device> Tale for SharedDevice<D> {
    ghost use Rattle.platform_lock.specs.Devices.{IsServed, account_of};

    type Entry = Step;

    ghost caller = { account_of };

    ghost stands = { λ first now chain. IsServed D.seen D.stands first.device now.device chain };
}

/// The platform's lock.
pub type Shared<D> = Turnstile<SharedDevice<D>>;

/// A lock round the platform for so many accounts, and its first seat, which has the number 0 and all others to
/// give away. A platform with no account has a lock for one.
///
/// Where there is no memory, the platform comes back.
pub fn share_device<D: Device>(
    alloc: Global,
    device: D,
    accounts: u32,
) -> Result<(Shared<D>, Seat<SharedDevice<D>>), (NoMemory, D)>
    requires { 0 < accounts }
    ensures made { IfOk result (λ made. (made.0.first.device ≡ device) × (made.0.id.callers ≡ accounts)) }
    ensures seat { IfOk result (λ made. made.1 ≡ first_seat made.0.id) }
    ensures spare { IfOk result (λ made. length made.1.spare + 1 ≡ accounts) }
    ensures numbers { IfOk result (λ made. HasEachNumber made.1) }
    ensures err { IfErr result (λ fault. fault.1 ≡ device) }
{
    match Turnstile::new(alloc, SharedDevice { device }, accounts) {
        Ok(made) => Ok(made),
        Err((no_memory, SharedDevice { device })) => Err((no_memory, device)),
    }
}
