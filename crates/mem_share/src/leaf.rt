//! A leaf in memory, and what a try and a reset do to it.

ghost use Rattle.std.specs.Prelude.{◌≡◌};
ghost use Rattle.share_api.specs.Steps.{cleared};

use pw_path::Hash;
use pw_types::{Readiness, Stamp, limit_locks, ready};
use share_api::{Leaf, LeafView, NewLeaf, TryAnswer};
use std::marker::Model;

/// The boot in which a share in memory lives.
const BOOT: u64 = 1;

/// The moment at which that boot began.
const START: u64 = 0;

const NO_STAMP: Stamp = Stamp { boot: 0, at: 0 };

/// A leaf, seen as plain data, whose count and stamp a try may go on from.
#[derive(Clone, Copy, Debug)]
pub struct MemLeaf {
    leaf: Leaf,
}

impl Model for MemLeaf {
    ghost use Rattle.share_api.specs.declared.leaf.Leaf.{Leaf};

    ghost Value = { Leaf };

    ghost view = { λ kept. kept.leaf };

    ghost use Rattle.mem_share.specs.Leaves.{IsCounted};

    ghost invariant = { λ kept. IsCounted kept.leaf };

    ghost inverse = { λ leaf. record { leaf = leaf } };
}

// The leaf without wrong tries.
fn cleared(leaf: &Leaf) -> Leaf
    ensures { result ≡ cleared leaf.now }
{
    Leaf {
        wrong: 0,
        last: NO_STAMP,
        ..*leaf
    }
}

impl MemLeaf {
    ghost use Rattle.std.specs.Prelude.{◌≡◌, ◌<◌, ◌^◌, bytes_eq};
    ghost use Rattle.share_api.specs.Steps.{tried, reset_to, leaf_of, view_of};
    ghost use Rattle.mem_share.specs.Era.{mem_era};

    /// A new leaf.
    pub fn new(new: &NewLeaf) -> MemLeaf
        ensures value { result ≡ leaf_of new.now }
    {
        let leaf = Leaf {
            les: new.les,
            hes: new.hes,
            reset: new.reset,
            schedule: new.schedule,
            wrong: 0,
            last: NO_STAMP,
        };
        MemLeaf { leaf }
    }

    /// What anybody may know of it.
    pub fn view(&self) -> LeafView
        ensures value { result ≡ view_of self.now }
    {
        LeafView {
            wrong: self.leaf.wrong,
            last: self.leaf.last,
            schedule: self.leaf.schedule,
        }
    }

    /// What a try with this secret at this moment answers, and the leaf after it.
    pub fn tried(&self, les: &Hash, moment: u64) -> (TryAnswer, MemLeaf)
        requires { moment < 2 ^ 40 }
        ensures value { result ≡ tried mem_era moment les.now self.now }
    {
        let leaf = &self.leaf;
        let now = Stamp {
            boot: BOOT,
            at: moment,
        };
        // A schedule locks at 1,000 wrong tries at the latest.
        let _pairs = leaf.schedule.pairs();
        limit_locks();
        match ready(&leaf.schedule, leaf.wrong, leaf.last, now, START) {
            Readiness::Delayed(until) => (TryAnswer::Delayed(until), *self),
            Readiness::Locked => (TryAnswer::Locked, *self),
            Readiness::Ready => {
                if les == &leaf.les {
                    let leaf = cleared(leaf);
                    (TryAnswer::Right(leaf.hes), MemLeaf { leaf })
                } else {
                    let wrong = leaf.wrong + 1;
                    let leaf = Leaf {
                        wrong,
                        last: now,
                        ..*leaf
                    };
                    (TryAnswer::Wrong, MemLeaf { leaf })
                }
            }
        }
    }

    /// Whether the reset secret is the leaf's, and the leaf after the reset.
    pub fn reset(&self, secret: &Hash) -> (bool, MemLeaf)
        ensures fits { result.0 ≡ bytes_eq secret.now self.now.reset }
        ensures leaf { result.1 ≡ reset_to secret.now self.now }
    {
        if secret == &self.leaf.reset {
            let leaf = cleared(&self.leaf);
            (true, MemLeaf { leaf })
        } else {
            (false, *self)
        }
    }
}
