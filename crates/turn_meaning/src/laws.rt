//! The laws that join a turn to all accounts. Each function has an empty body: its contract is the law.

ghost use Rattle.std.specs.Prelude.{◌≡◌, ℕ, List, Result};
ghost use Rattle.account_machine.specs.declared.entry.Entry.{Entry};
ghost use Rattle.home_locks.specs.Turns.{ActStands};
ghost use Rattle.random_values.specs.Stretches.{Place};
ghost use Rattle.share_api.specs.Seen.{ShareSeen};
ghost use Rattle.stored_home.specs.declared.fault.StoreFault.{StoreFault};
ghost use Rattle.user_opening.specs.Opens.{OpensUser};
ghost use Rattle.user_state.specs.declared.state.UserState.{UserState};
ghost use Rattle.user_turn.specs.Acts.{IsAct};
ghost use Rattle.turn_meaning.specs.Failures.{FaultsLaw};
ghost use Rattle.turn_meaning.specs.Meanings.{user_rules, entry_of};
ghost use Rattle.turn_meaning.specs.Openings.{OpenStands};
ghost use Rattle.turn_meaning.specs.Secrets.{SecretsLaw, CleanLaw};
ghost use Rattle.turn_meaning.specs.Words.{CostsLaw, TailsLaw};
ghost use Rattle.turn_meaning.specs.declared.taken.TurnTaken.{TurnTaken as Taken};

/// What one turn of an account promises over any share is what the composition needs of a turn.
pub fn act_stands()
    ensures { (old new : ShareSeen) (before after : UserState) (taken : Taken)
        → IsAct old new before after (entry_of taken)
        → ActStands (user_rules old.era) before after taken old new }
{}

/// What opening an account promises over any share is what the composition needs of an account's first steps.
pub fn opened_user_stands()
    ensures { (old new : ShareSeen) (account : List ℕ) (cost moment : ℕ) (generator : Place)
        (result : Result UserState StoreFault)
        → OpensUser old new account cost moment generator result
        → OpenStands old new account moment result }
{}

/// No secret comes to a user but with a request. So where no two inputs coincide that are recorded of the user at
/// first, of the book and of the contents seen, each turn of the book is clean.
pub fn secrets_come_with_requests()
    ensures secrets { SecretsLaw }
    ensures clean { CleanLaw }
{}

/// Of an account's book, each of whose entries moved the account by its own device steps, at most as many entries tell
/// a storage fault as of these steps failed.
pub fn faults_have_failed_steps()
    ensures { FaultsLaw }
{}

/// Of an account's book, each of whose entries moved the account by its own device steps: each factor's record that is
/// put has the cost that new factors had at first, and each token's tail is a stretch of the first state's generator.
pub fn books_keep_to_the_first_state()
    ensures costs { CostsLaw }
    ensures tails { TailsLaw }
{}
