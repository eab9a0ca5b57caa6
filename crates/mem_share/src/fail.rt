//! The calls that a share in memory is told to fail.

ghost use Rattle.std.specs.Prelude.{◌≡◌, ◌+◌, ◌-◌, ◌^◌, min};
ghost use Rattle.mem_share.specs.Fails.{listed_at};

/// The number of a call, from 1, that fails, and whether its change is done.
#[derive(Clone, Copy, Debug, PartialEq, Eq)]
pub struct Fail {
    pub call: u64,
    pub done: bool,
}

/// Whether the call of a number fails, and if so whether its change is done. Of several entries for it
/// the first counts.
pub fn listed_at(fails: &[Fail], number: u64) -> Option<bool>
    ensures value { result ≡ listed_at fails.now number }
{
    for fail in fails {
        if fail.call == number {
            return Some(fail.done);
        }
    }
    None
}
