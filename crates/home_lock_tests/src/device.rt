//! A platform that holds nothing and counts its steps.

ghost use Rattle.std.specs.Prelude.{◌≡◌, ◌≢◌, true, None};
ghost use Rattle.fault_count.specs.Causes.{HasCause};
ghost use Rattle.platform_lock.specs.Answers.{IsAnswerTo};
ghost use Rattle.share_api.specs.Replies.{AreListed};
ghost use Rattle.share_api.specs.declared.step.Reply.{Reply};

use ct_bytes::Text;
use fault_count::FaultCount;
use platform_lock::{Answer, Device, Outcome};
use pw_path::Label;
use pw_types::Era;
use record_names::RecordName;
use share_api::{Listing, Op, Reply, ShareFault, Step, TryAnswer};
use std::alloc::Global;

/// A platform that holds no records and no leaves, whatever it is asked, and counts its steps modulo 2^64.
///
/// The step with the number `fails` fails, from 1 on.
#[derive(Drop)]
pub struct CountingDevice {
    pub owners: Vec<Option<Text>>,
    pub era: Era,
    pub faults: FaultCount,
    pub made: u64,
    pub fails: u64,
}

// No names, and the listing of no names and no labels.
fn no_names(alloc: Global) -> (Vec<RecordName>, Listing)
    ensures { AreListed result.1.0 result.1.1 result.0.items }
{
    (
        Vec::new(alloc),
        Listing::new(Vec::new(alloc), Vec::new(alloc)),
    )
}

// What a step answers over a platform that holds nothing, and its reply.
fn answer_to(alloc: Global, op: &Op) -> (Result<Answer, ShareFault>, Reply)
    ensures answer { IsAnswerTo None op.now result.0 result.1 }
    ensures calm { result.1 ≢ Reply.Failed }
{
    match op {
        Op::Names => {
            let (names, listing) = no_names(alloc);
            (Ok(Answer::Names(names)), Reply::Listed(listing))
        }
        Op::Get(_) => (Ok(Answer::Found(None)), Reply::Found(None)),
        Op::Do(_) => (Ok(Answer::Done), Reply::Done),
        Op::InsertLeaf(_) => {
            let label = Label::new(0).unwrap();
            (Ok(Answer::Labelled(label)), Reply::Labelled(label))
        }
        Op::TryLeaf(_, _) => (
            Ok(Answer::Tried(TryAnswer::Wrong)),
            Reply::Tried(TryAnswer::Wrong),
        ),
        Op::ResetLeaf(_, _) => (Ok(Answer::Fits(false)), Reply::Fits(false)),
        Op::LookLeaf(_) => (Ok(Answer::Viewed(None)), Reply::Viewed(None)),
    }
}

// Whether this step is the one that fails; then the count rises.
fn has_failed(faults: &mut FaultCount, made: u64, fails: u64) -> bool
    ensures { HasCause faults.old faults.new (result ≡ true) }
{
    if made != fails {
        return false;
    }
    let _ = faults.raise();
    true
}

// What the step answers, and its reply.
fn answered(
    alloc: Global,
    faults: &mut FaultCount,
    made: u64,
    fails: u64,
    op: &Op,
) -> (Result<Answer, ShareFault>, Reply)
    ensures answer { IsAnswerTo None op.now result.0 result.1 }
    ensures cause { HasCause faults.old faults.new (result.1 ≡ Reply.Failed) }
{
    if has_failed(faults, made, fails) {
        return (Err(ShareFault::Failed), Reply::Failed);
    }
    answer_to(alloc, op)
}

impl Device for CountingDevice {
    ghost use Rattle.std.specs.Prelude.{◌≡◌, ◌+◌, ◌%◌, ◌^◌, length, None};
    ghost use Rattle.std.proofs.Common.{arith};

    ghost seen = { λ device. record {
      owners = device.owners.items;
      era = device.era;
      lost = None;
      faults = device.faults;
    } };

    ghost stands = { λ first now chain. now.made % 2 ^ 64 ≡ (first.made + length chain) % 2 ^ 64 };

    ghost begins = { λ device. Prim.omega arith };

    fn step(&mut self, alloc: Global, account: u8, moment: u64, op: Op) -> Outcome {
        self.made = self.made.wrapping_add(1);
        let (answer, reply) = answered(alloc, &mut self.faults, self.made, self.fails, &op);
        let step = Step {
            account,
            moment,
            op,
            reply,
        };
        Outcome { step, answer }
    }
}
