//! Which requests are let in.

ghost use Rattle.std.specs.Prelude.{◌≡◌};
ghost use Rattle.client_output.specs.Output.{request_let_in};

use account_machine::{Kind, Request};
use client_lang::{Field, LineFault};

/// The request, or where there are no PINs, what is said against one that speaks of them.
///
/// Then the kind `pin` is outside the form of a kind, and there is no op reset_pin.
pub fn let_in(pins: bool, request: Request) -> Result<Request, LineFault>
    ensures exact { result ≡ request_let_in pins request }
{
    match request {
        Request::AddFactor {
            kind: Kind::Pin,
            ..
        } if !pins => Err(LineFault::BadField(Field::Kind)),
        Request::ResetPin { .. } if !pins => Err(LineFault::UnknownOp),
        request => Ok(request),
    }
}
