//! Opening a presented leaf.

ghost use Rattle.std.specs.Prelude.{◌≡◌, ◌<◌, ◌≤◌, ◌^◌, Ok, Err, IfOk, IfErr};
ghost use Rattle.pw_leaf.specs.Reading.{check_at};
ghost use Rattle.pw_types.specs.Schedule.{IsSchedule, limit_of};
ghost use Rattle.pw_chip.specs.Step.{refused, opened};
ghost use Rattle.pw_chip.specs.Held.{held};

use crate::reply::Reply;
use pw_leaf::{ChipKeys, LEAF_BYTES, Leaf, LeafFault, check};
use pw_path::{Aux, Hash, Label, root_of};

/// Why a presented leaf isn't opened.
#[derive(Clone, Copy)]
pub(crate) enum Refusal {
    NoLabel,
    NoLeaf(LeafFault),
    NoPath,
}

/// A leaf that stands in the tree, with its record.
#[derive(Clone, Copy)]
pub(crate) struct Opened {
    pub(crate) leaf: Leaf,
    pub(crate) bytes: [u8; LEAF_BYTES],
}

impl Refusal {
    pub(crate) fn reply(self) -> Reply
        ensures { result ≡ refused self }
    {
        match self {
            Refusal::NoLabel => Reply::LabelInvalid,
            Refusal::NoLeaf(fault) => Reply::LeafInvalid(fault),
            Refusal::NoPath => Reply::PathAuthFailed,
        }
    }
}

// The leaf of a record that stands at this label in the tree of this root.
pub(crate) fn open(
    keys: &ChipKeys,
    tree_root: &Hash,
    number: u16,
    aux: &Aux,
    leaf: &[u8],
) -> Result<Opened, Refusal>
    ensures found { IfOk result (λ o. opened keys.now tree_root.now number aux.now leaf.now ≡ Ok (held o)) }
    ensures checked { IfOk result (λ o. check_at keys.now o.bytes ≡ Ok (held o)) }
    ensures label { IfOk result (λ o. (o.leaf.label ≡ number) × (number < 16384)) }
    ensures moment { IfOk result (λ o. o.leaf.last.at < 2 ^ 40) }
    ensures room { IfOk result (λ o. o.leaf.wrong ≤ limit_of o.leaf.schedule) }
    ensures schedule { IfOk result (λ o. IsSchedule o.leaf.schedule) }
    ensures refusal { IfErr result (λ r. opened keys.now tree_root.now number aux.now leaf.now ≡ Err r) }
{
    let Some(label) = Label::new(number) else {
        return Err(Refusal::NoLabel);
    };
    let read = match check(keys, leaf) {
        Ok(read) => read,
        Err(fault) => return Err(Refusal::NoLeaf(fault)),
    };
    if read.label.number() != number {
        return Err(Refusal::NoLeaf(LeafFault::BadShape(1)));
    }
    if root_of(label, &read.mac, aux) != *tree_root {
        return Err(Refusal::NoPath);
    }
    let mut bytes = [0; LEAF_BYTES];
    bytes.copy_from_slice(leaf);
    Ok(Opened { leaf: read, bytes })
}
