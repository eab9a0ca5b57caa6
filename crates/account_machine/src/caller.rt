//! Whoever answers requests.

ghost use Rattle.std.specs.Prelude.{ℕ, List, [], ◌∷◌, ◌++◌};
ghost use Rattle.account_machine.specs.Called.{Call};

use crate::{Answer, Request};
use std::alloc::Global;

/// Whoever answers requests, as a client of a home does.
pub trait Caller {
    /// Whether these calls, with their moments and answers, are the ones that led here.
    ghost called: { Self → List Call → Type 0 };

    /// Answers a request at a moment in seconds, which any number may be.
    fn call(&mut self, alloc: Global, request: &Request, moment: u64) -> Answer
        ensures { (calls : List Call) → called self.old calls
            → called self.new (calls ++ record { request = request.now; moment = moment; answer = result } ∷ []) };
}
