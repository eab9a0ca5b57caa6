//! The system's clock.

ghost use Rattle.std.specs.Prelude.{None};

use request_loop::Clock;
use std::time::SystemTime;

/// The system's clock, in seconds since 1970.
#[derive(Drop)]
pub struct SystemClock {
    rt: HostRuntime,
}

impl SystemClock {
    /// The clock of this system.
    pub fn new(rt: HostRuntime) -> SystemClock {
        SystemClock { rt }
    }
}

/// The seconds since 1970, or 0 where the clock gives none.
pub fn seconds(rt: &HostRuntime) -> u64 {
    let Ok(now) = SystemTime::now(rt) else {
        return 0;
    };
    match now.duration_since(SystemTime::UNIX_EPOCH) {
        Ok(since) => since.as_secs(),
        Err(_) => 0,
    }
}

impl Clock for SystemClock {
    ghost given = { λ s. None };

    fn now(&mut self) -> u64 {
        seconds(&self.rt)
    }
}
