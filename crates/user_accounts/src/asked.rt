//! What a client asks of an account.

ghost use Rattle.std.specs.Prelude.{◌≡◌, ◌<◌, ◌^◌};
ghost use Rattle.request_forms.specs.Formed.{IsFormed};
ghost use Rattle.user_accounts.specs.Asked.{IsOwnKey, IsFormed-prop, IsOwnKey-prop};

use account_machine::Turn;
use stored_home::Derived;

/// A turn that is asked of an account.
///
/// `derived` is what was derived of the turn's secret before, where it was, and of no other secret. `moment` is the
/// number that the clock gave, cut to 2^40 - 1, in seconds.
#[derive(Drop)]
pub struct TurnAsked {
    pub turn: Turn,
    pub derived: Option<Derived>,
    pub moment: u64,
    ghost formed: { IsFormed turn } by { IsFormed-prop turn },
    ghost own_key: { IsOwnKey turn derived } by { IsOwnKey-prop turn derived },
    ghost given: { moment < 2 ^ 40 },
}

impl TurnAsked {
    /// The turn, with what was derived of its secret, at this number of the clock.
    pub fn new(turn: Turn, derived: Option<Derived>, moment: u64) -> TurnAsked
        requires formed { IsFormed turn }
        requires own_key { IsOwnKey turn derived }
        requires moment { moment < 2 ^ 40 }
        ensures turn { result.turn ≡ turn }
        ensures derived { result.derived ≡ derived }
        ensures moment { result.moment ≡ moment }
    {
        TurnAsked {
            turn,
            derived,
            moment,
        }
    }
}
