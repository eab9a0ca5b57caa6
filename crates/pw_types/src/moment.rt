//! Moments, in seconds.

ghost use Rattle.std.specs.Prelude.{◌≡◌, ◌<◌, ◌^◌};
ghost use Rattle.pw_types.specs.Moment.{cut_moment};

/// The last moment, in seconds.
pub const LAST_MOMENT: u64 = (1 << 40) - 1;

/// The moment at which a clock gave this number of seconds. A later number than `LAST_MOMENT` is cut to it.
pub fn cut_moment(number: u64) -> u64
    ensures value { result ≡ cut_moment number }
    ensures last { result < 2 ^ 40 }
{
    number.min(LAST_MOMENT)
}
