//! What a crash leaves of the two devices. Each function has an empty body: its contract is the law.

ghost use Rattle.std.specs.Prelude.{◌≡◌, ◌<◌, ◌^◌, ℕ};
ghost use Rattle.pin_recovery.specs.Devices.{Leaves, Devices, AreInStep};
ghost use Rattle.pin_recovery.specs.LeafCalls.{LeafOp, IsLeafOp, stepped};
ghost use Rattle.pin_recovery.specs.Recovery.{IsCrashAtomic, Recovers, RecoversEither, IsOpeningImage, IsSettlingImage, IsSettled, recovered, between};

/// A chip call whose words are stored before its leaf record is put or removed is there whole or not at
/// all, whatever moment a crash comes at.
pub fn leaf_step_is_crash_atomic()
    ensures { (d : Devices) (op : LeafOp) (now : ℕ)
        → AreInStep d
        → IsLeafOp op
        → now < 2 ^ 40
        → IsCrashAtomic d (stepped d op now) }
{}

/// A crash in opening leaves what opens to the same leaves.
pub fn opening_is_crash_atomic()
    ensures { (d : Devices) (leaves : Leaves) (moment : ℕ) (image : Devices)
        → Recovers d leaves
        → moment < 2 ^ 40
        → IsOpeningImage d moment image
        → Recovers image leaves }
{}

/// Settling after a chip call that failed brings both devices in step, with the leaves before the call or
/// after it, and a crash in it leaves what opens to one of these.
pub fn settling_is_crash_atomic()
    ensures images { (d : Devices) (op : LeafOp) (now moment : ℕ) (image : Devices)
        → AreInStep d
        → IsLeafOp op
        → now < 2 ^ 40
        → moment < 2 ^ 40
        → IsSettlingImage d (stepped d op now) moment image
        → RecoversEither d (stepped d op now) image }
    ensures ends { (d : Devices) (op : LeafOp) (now moment : ℕ)
        → AreInStep d
        → IsLeafOp op
        → now < 2 ^ 40
        → moment < 2 ^ 40
        → IsSettled d (stepped d op now) (recovered d moment)
        × IsSettled d (stepped d op now) (recovered (between d (stepped d op now)) moment) }
{}
