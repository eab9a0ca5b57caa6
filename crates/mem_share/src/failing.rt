//! Which replies say that the device failed.

ghost use Rattle.std.specs.Prelude.{◌≡◌};
ghost use Rattle.mem_share.specs.Failing.{is_failed};

use share_api::Reply;

/// Whether the step failed.
pub fn is_failed(reply: &Reply) -> bool
    ensures { result ≡ is_failed reply.now }
{
    match reply {
        Reply::Failed => true,
        _ => false,
    }
}
