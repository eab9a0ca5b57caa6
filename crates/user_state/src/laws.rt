//! The law that joins a state and a user. Its function has an empty body: the contract is the law.

ghost use Rattle.user_state.specs.SameOutline.{OutlineLaw};

/// A settled state has the outline of its user, whatever contents it is settled over, so refusals that
/// are decided on the state are the user's.
pub fn settled_state_has_the_users_outline()
    ensures { OutlineLaw }
{}
