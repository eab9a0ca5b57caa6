//! Laws of the machine. Each function has an empty body: its contract is the law.

ghost use Rattle.std.specs.Prelude.{◌≡◌, ℕ, ◌<◌, ◌^◌};
ghost use Rattle.account_machine.specs.User.{no_home, opened};
ghost use Rattle.account_machine.specs.declared.entry.Entry.{Entry};
ghost use Rattle.pw_types.specs.declared.era.Era.{Era};
ghost use Rattle.account_machine.specs.declared.user.User.{User};
ghost use Rattle.account_machine.specs.Step.{Step};
ghost use Rattle.machine_step.specs.Timely.{IsTimely};

/// A step from an account whose moments are below 2^40 leads to one.
pub fn steps_keep_moments()
    ensures { (era : Era) (before : User) (entry : Entry) (after : User)
        → IsTimely era before → Step era before entry after → IsTimely era after }
{}

/// An account without a home that is opened at such a moment has such moments.
pub fn a_fresh_account_has_such_moments()
    ensures { (era : Era) (moment : ℕ) → era.start < 2 ^ 40 → moment < 2 ^ 40 → IsTimely era (opened no_home moment) }
{}

/// An entry leads to one account: what is answered tells what comes after it.
pub fn an_entry_leads_to_one_account()
    ensures { (era : Era) (before : User) (entry : Entry) (after other : User)
        → Step era before entry after → Step era before entry other → after ≡ other }
{}
