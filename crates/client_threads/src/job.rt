//! What a thread has to do.

ghost use Rattle.std.specs.Prelude.{◌≡◌};
ghost use Rattle.request_loop.specs.declared.serve.LoopEnd.{LoopEnd as LoopEndSeen};

use request_loop::LoopEnd;
use std::alloc::Global;
use std::sync::Wait;

/// A client, with all that serving it takes and changes.
pub trait Job {
    /// The client can be served.
    ghost ready: { Self → Type 0 };

    /// The first of these was served once, and is then the second.
    ghost serves: { Self → Self → Type 0 };

    /// How its loop ended, once it was served.
    ghost end: { Self → LoopEndSeen };

    /// Serves the client until its loop ends.
    fn serve<R: Wait>(&mut self, rt: &R, alloc: Global)
        requires ready { ready self.old }
        ensures serves { serves self.old self.new };

    /// How its loop ended.
    fn end(&self) -> LoopEnd
        ensures value { result ≡ end self.now };
}
