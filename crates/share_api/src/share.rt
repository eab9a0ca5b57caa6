//! The share of one account.

ghost use Rattle.std.specs.Prelude.{◌≡◌, ◌≤◌, ◌^◌, ◌<◌, ◌+◌, length, Some, OnOk, OnErr, IfOk, IfErr, IsErr, IsErrOf};
ghost use Rattle.share_api.specs.Seen.{ShareSeen, Makes, step_of};
ghost use Rattle.share_api.specs.Replies.{done_reply, found_reply, label_reply, try_reply, fits_reply, view_reply};
ghost use Rattle.share_api.specs.Replies.{IsNamesReply};
ghost use Rattle.share_api.specs.Conditions.{IsOwnName, IsReadFault, IsLeafFault, IsTryFault, TellsLoss};
ghost use Rattle.share_api.specs.declared.step.Op.{Op};
ghost use Rattle.share_api.specs.declared.step.Write.{Write};
ghost use Rattle.share_api.specs.declared.step.Reply.{Reply};

use crate::fault::ShareFault;
use crate::leaf::{LeafView, NewLeaf, TryAnswer};
use ct_bytes::{Blob, NoMemory};
use pw_path::{Hash, Label};
use record_names::RecordName;
use std::alloc::Global;

/// One account's share of a platform, for the length of a turn.
///
/// Each call but `stock`, `place` and `spare` is one device step, and needs and uses one that was
/// stocked. What a share holds is told by the steps that it made and by their replies: each contract
/// above speaks of whatever contents these steps fit. Moments are in seconds.
pub trait Share {
    /// What a contract sees of the share.
    ghost seen: { Self → ShareSeen };

    /// That the one is the other after some steps: of the same account, and of the same platform.
    ghost goes: { Self → Self → Type 0 };

    /// Makes `spare` at least `turns`. Where there is no memory nothing changes.
    fn stock(&mut self, alloc: Global, turns: usize) -> Result<(), NoMemory>
        ensures stocked { OnOk result (turns ≤ (seen self.new).spare) }
        ensures more { (seen self.old).spare ≤ (seen self.new).spare }
        ensures kept { OnErr result (seen self.new ≡ seen self.old) }
        ensures same { seen self.new ≡ record (seen self.old) { spare = (seen self.new).spare } }
        ensures goes { goes self.old self.new };

    /// The names of the account's records, with a leaf name for each of its leaves, in rising order of
    /// bytes. The faults are `Failed` and `NoMemory`.
    fn names(&mut self, alloc: Global) -> Result<Vec<RecordName>, ShareFault>
        requires { 1 ≤ (seen self.old).spare }
        ensures made { (reply : Reply) × IsNamesReply result reply
            × Makes (seen self.old) (seen self.new)
            (step_of (seen self.old) 0 Op.Names reply) }
        ensures only { IfErr result IsReadFault }
        ensures goes { goes self.old self.new };

    /// The bytes of a record, and `None` where there is no such record. The faults are `Failed` and
    /// `NoMemory`.
    fn get(&mut self, alloc: Global, name: &RecordName) -> Result<Option<Blob>, ShareFault>
        requires spare { 1 ≤ (seen self.old).spare }
        requires own { IsOwnName (seen self.old).owner name.now }
        ensures made { Makes (seen self.old) (seen self.new)
            (step_of (seen self.old) 0 (Op.Get name.now) (found_reply result)) }
        ensures only { IfErr result IsReadFault }
        ensures goes { goes self.old self.new };

    /// Makes or replaces a record of at most 49,181 bytes. The fault is `Failed`.
    fn put(&mut self, name: &RecordName, bytes: Blob) -> Result<(), ShareFault>
        requires spare { 1 ≤ (seen self.old).spare }
        requires own { IsOwnName (seen self.old).owner name.now }
        requires size { length bytes ≤ 49181 }
        ensures made { Makes (seen self.old) (seen self.new)
            (step_of (seen self.old) 0 (Op.Do (Write.Put name.now bytes)) (done_reply result)) }
        ensures only { IsErr result → IsErrOf result ShareFault.Failed }
        ensures goes { goes self.old self.new };

    /// Removes a record. Where there is no such record that is `Ok`. The fault is `Failed`.
    fn remove(&mut self, name: &RecordName) -> Result<(), ShareFault>
        requires spare { 1 ≤ (seen self.old).spare }
        requires own { IsOwnName (seen self.old).owner name.now }
        ensures made { Makes (seen self.old) (seen self.new)
            (step_of (seen self.old) 0 (Op.Do (Write.Remove name.now)) (done_reply result)) }
        ensures only { IsErr result → IsErrOf result ShareFault.Failed }
        ensures goes { goes self.old self.new };

    /// Makes a leaf, at a label that is free. The faults are `Failed` and `TreeLost`.
    fn insert_leaf(&mut self, leaf: &NewLeaf, moment: u64) -> Result<Label, ShareFault>
        requires spare { 1 ≤ (seen self.old).spare }
        requires moment { moment < 2 ^ 40 }
        ensures made { Makes (seen self.old) (seen self.new)
            (step_of (seen self.old) moment (Op.InsertLeaf leaf.now) (label_reply result)) }
        ensures only { IfErr result IsLeafFault }
        ensures lost { TellsLoss (seen self.old).lost result }
        ensures goes { goes self.old self.new };

    /// Tries a leaf of the account with a low-entropy secret. The faults are `Failed`, `TreeLost` and
    /// `Damaged` with the leaf's name.
    fn try_leaf(&mut self, label: Label, les: &Hash, moment: u64) -> Result<TryAnswer, ShareFault>
        requires spare { 1 ≤ (seen self.old).spare }
        requires moment { moment < 2 ^ 40 }
        ensures made { Makes (seen self.old) (seen self.new)
            (step_of (seen self.old) moment (Op.TryLeaf label les.now) (try_reply result)) }
        ensures only { IfErr result (IsTryFault label) }
        ensures lost { TellsLoss (seen self.old).lost result }
        ensures goes { goes self.old self.new };

    /// Sets the count of a leaf of the account back, and says whether the reset secret is the leaf's.
    /// Where it isn't nothing changes. The faults are those of `try_leaf`.
    fn reset_leaf(&mut self, label: Label, reset: &Hash, moment: u64) -> Result<bool, ShareFault>
        requires spare { 1 ≤ (seen self.old).spare }
        requires moment { moment < 2 ^ 40 }
        ensures made { Makes (seen self.old) (seen self.new)
            (step_of (seen self.old) moment (Op.ResetLeaf label reset.now) (fits_reply result)) }
        ensures only { IfErr result (IsTryFault label) }
        ensures lost { TellsLoss (seen self.old).lost result }
        ensures goes { goes self.old self.new };

    /// Removes a leaf. Where the account has no such leaf that is `Ok`. The faults are `Failed` and
    /// `TreeLost`.
    fn remove_leaf(&mut self, label: Label, moment: u64) -> Result<(), ShareFault>
        requires spare { 1 ≤ (seen self.old).spare }
        requires moment { moment < 2 ^ 40 }
        ensures made { Makes (seen self.old) (seen self.new)
            (step_of (seen self.old) moment (Op.Do (Write.RemoveLeaf label)) (done_reply result)) }
        ensures only { IfErr result IsLeafFault }
        ensures lost { TellsLoss (seen self.old).lost result }
        ensures goes { goes self.old self.new };

    /// What anybody may know of a leaf, and `None` where the account has no such leaf. The faults are
    /// `Failed` and `TreeLost`.
    fn leaf(&mut self, label: Label) -> Result<Option<LeafView>, ShareFault>
        requires { 1 ≤ (seen self.old).spare }
        ensures made { Makes (seen self.old) (seen self.new)
            (step_of (seen self.old) 0 (Op.LookLeaf label) (view_reply result)) }
        ensures only { IfErr result IsLeafFault }
        ensures lost { TellsLoss (seen self.old).lost result }
        ensures goes { goes self.old self.new };

    /// The number of device steps of all accounts up to and with this share's last one, and 0 where it
    /// made none. It is a u64, and begins again at 0 after 2^64 - 1.
    fn place(&self) -> u64
        ensures { result ≡ (seen self.now).place };

    /// How many calls can be made before the next `stock`.
    fn spare(&self) -> usize
        ensures { result ≡ (seen self.now).spare };

    /// A share is itself after no steps.
    ghost goes_nowhere: { (share : Self) → goes share share };

    /// Some steps and then more steps.
    ghost goes_on: { (one two three : Self) → goes one two → goes two three → goes one three };
}
