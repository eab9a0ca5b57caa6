//! Which turns a request makes.

ghost use Rattle.std.specs.Prelude.{◌≡◌, None, Some, MatchOption};
ghost use Rattle.client_output.specs.Turns.{label_looked, token_cleared, has_seen, has_cleared};

use account_machine::{Answer, Request, Token};
use ct_bytes::Text;

/// The label at which a request looks before it acts, where it does.
pub fn label_looked(request: &Request) -> Option<&Text>
    ensures value { MatchOption result (label_looked request.now ≡ None)
        (λ label. label_looked request.now ≡ Some label.now) }
{
    match request {
        Request::Authenticate { label, .. }
        | Request::AddFactor { label, .. }
        | Request::UpdateFactor { label, .. } => Some(label),
        _ => None,
    }
}

/// The token of the clearings that follow an act with this answer: an authenticate's, where a password was right.
pub fn token_cleared(request: &Request, answer: &Answer) -> Option<Token>
    ensures value { result ≡ token_cleared request.now answer.now }
{
    match request {
        Request::Authenticate { token, .. } if matches!(answer, Answer::OkPassword(_)) => Some(
            *token,
        ),
        _ => None,
    }
}

/// Whether a look saw, so that the act follows.
pub fn has_seen(answer: &Answer) -> bool
    ensures value { result ≡ has_seen answer.now }
{
    matches!(answer, Answer::Seen(_))
}

/// Whether a clearing set a PIN's count back, so that another follows.
pub fn has_cleared(answer: &Answer) -> bool
    ensures value { result ≡ has_cleared answer.now }
{
    matches!(answer, Answer::PinCleared)
}
