//! The locked value, and what its callers leave.
use turn_lock::Tale;

/// A sum, modulo 2^64.
#[derive(Drop)]
pub struct Sum {
    pub total: u64,
}

/// What a caller added, and the sum after that.
#[derive(Drop)]
pub struct Added {
    pub caller: u32,
    pub amount: u64,
    pub total: u64,
}

impl Tale for Sum {
    ghost use Rattle.shared_sum.specs.Summed.{caller_of, IsSumOf};

    type Entry = Added;

    ghost caller = { caller_of };

    ghost stands = { IsSumOf };
}
