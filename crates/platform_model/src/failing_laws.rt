//! The laws of steps that failed. Each function has an empty body: its contract is the law.

ghost use Rattle.std.specs.Prelude.{◌<◌, ◌^◌, ℕ, List};
ghost use Rattle.pin_recovery.specs.Devices.{AreInStep};
ghost use Rattle.platform_model.specs.Views.{Platform, View, view_of, era_of};
ghost use Rattle.platform_model.specs.Steps.{Step, IsAllowed};
ghost use Rattle.platform_model.specs.Settling.{IsUnsettledBy, IsSettlingImage, IsSettledTo, Reopens, settled};
ghost use Rattle.platform_model.specs.Runs.{Standing, Stands, Try, AreTried, Folds, MaySee, at_rest};

/// Whatever a step that failed has left, settling brings both devices in step. Each other account has what it had, and
/// the step's account has what it had before the step or what it has after it. An insert that failed isn't there.
pub fn settling_ends_in_step()
    ensures { (moment : ℕ) (s q : Platform) (step : Step)
        → moment < 2 ^ 40
        → AreInStep s.devices
        → IsAllowed s step
        → IsUnsettledBy moment s step q
        → IsSettledTo s step (settled moment step.op q) }
{}

/// What a failure or a crash in settling leaves is again what the step that failed may have left, so settling may begin
/// anew any number of times.
pub fn settling_goes_on()
    ensures { (moment : ℕ) (s q image : Platform) (step : Step)
        → moment < 2 ^ 40
        → AreInStep s.devices
        → IsAllowed s step
        → IsUnsettledBy moment s step q
        → IsSettlingImage moment step.op q image
        → IsUnsettledBy moment s step image }
{}

/// Whatever a step that failed, or settling after it, has left, each opening after it brings both devices in step, and
/// gives each other account what it had, and the step's account what it had before the step or what it has after it,
/// however many openings were cut off before.
pub fn each_standing_is_reopened()
    ensures { (moment : ℕ) (s q : Platform) (step : Step)
        → moment < 2 ^ 40
        → AreInStep s.devices
        → IsAllowed s step
        → IsUnsettledBy moment s step q
        → Reopens s step q }
{}

/// Over every list of device steps of any accounts, of which any fail, and after any of which settling may fail: the
/// platform stands, and what each account may have is what its own steps make of what it had, each failed one of them
/// done or not.
pub fn each_account_has_its_own_tries()
    ensures stands { (moment : ℕ) (s : Platform) (tries : List Try) (end : Standing)
        → moment < 2 ^ 40
        → AreInStep s.devices
        → AreTried moment (at_rest s) tries end
        → Stands moment end }
    ensures folds { (moment : ℕ) (s : Platform) (tries : List Try) (end : Standing) (account : ℕ) (view : View)
        → moment < 2 ^ 40
        → AreInStep s.devices
        → AreTried moment (at_rest s) tries end
        → MaySee end account view
        → Folds (era_of s) account (view_of s account) tries view }
{}
