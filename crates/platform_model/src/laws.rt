//! The laws of the two devices with many accounts. Each function has an empty body: its contract is the law.

ghost use Rattle.std.specs.Prelude.{◌≡◌, ℕ, List};
ghost use Rattle.pin_recovery.specs.Devices.{AreInStep};
ghost use Rattle.platform_model.specs.Views.{Platform, view_of, era_of};
ghost use Rattle.platform_model.specs.Steps.{Op, Step, run, done_by, fold, AreAllowed, IsAllowedOp};
ghost use Rattle.platform_model.specs.Crashes.{SurvivesEach};

/// After every list of device steps of any accounts, in any order, each account's contents are what its own
/// steps make of the contents that it had.
pub fn each_account_has_its_own_steps()
    ensures { (s : Platform) (steps : List Step) (account : ℕ)
        → AreInStep s.devices
        → AreAllowed s steps
        → view_of (run s steps) account ≡ fold (era_of s) account (view_of s account) steps }
{}

/// A crash at any moment of any step, and at any moment of the openings after it, leaves what opens to each
/// other account's contents, and to the step's account's with or without that step. Both devices are then in
/// step.
pub fn every_crash_is_recovered()
    ensures { (s : Platform) (steps : List Step)
        → AreInStep s.devices
        → AreAllowed s steps
        → SurvivesEach s steps }
{}

/// Two platforms in which an account has the same contents and era are changed alike by its next device step,
/// whatever else they hold. An insert is taken at one label.
pub fn other_accounts_make_no_difference()
    ensures { (s other : Platform) (account : ℕ) (op : Op) (now : ℕ)
        → AreInStep s.devices
        → AreInStep other.devices
        → IsAllowedOp s account op now
        → IsAllowedOp other account op now
        → view_of s account ≡ view_of other account
        → era_of s ≡ era_of other
        → view_of (done_by s account op now) account ≡ view_of (done_by other account op now) account }
{}
