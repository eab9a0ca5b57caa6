//! The label of a leaf as a key.

use pw_path::Label;
use std::cmp::Ordering;
use std::marker::Model;

/// A label, seen as its number, in the order of numbers.
#[derive(Clone, Copy, Debug)]
pub struct LeafKey {
    pub label: Label,
}

impl Model for LeafKey {
    ghost use Rattle.std.specs.Prelude.{ℕ};

    ghost Value = { ℕ };

    ghost view = { λ key. key.label };

    ghost inverse = { λ n. record { label = n } };
}

impl PartialEq for LeafKey {
    ghost use Rattle.std.specs.Prelude.{nat_eq};
    ghost use Rattle.std.specs.Cmp.{partial_equiv_from_equiv, nat_eq_equiv};

    ghost eq = { nat_eq };

    ghost laws = { partial_equiv_from_equiv nat_eq_equiv };

    fn eq(&self, other: &LeafKey) -> bool {
        self.label.number() == other.label.number()
    }
}

impl Eq for LeafKey {
    ghost use Rattle.std.specs.Cmp.{nat_eq_equiv};

    ghost laws = { nat_eq_equiv };
}

impl Ord for LeafKey {
    ghost use Rattle.std.specs.Ordering.{nat_cmp};
    ghost use Rattle.std.specs.Cmp.{nat_cmp_total};
    ghost use Rattle.std.specs.Cmp.Rules.{comparing};
    ghost use Rattle.std.proofs.Common.{rules};

    ghost cmp = { nat_cmp };

    ghost total = { nat_cmp_total };

    ghost matches_partial_cmp = { Prim.search (comparing, rules) };

    ghost matches_eq = { Prim.search (comparing, rules) };

    fn cmp(&self, other: &LeafKey) -> Ordering {
        self.label.number().cmp(&other.label.number())
    }
}

impl PartialOrd for LeafKey {
    ghost use Rattle.std.specs.Ordering.{nat_cmp, as_partial_cmp};
    ghost use Rattle.std.specs.Cmp.{partial_order_from_own_ties};
    ghost use Rattle.std.specs.Cmp.Rules.{comparing};
    ghost use Rattle.std.proofs.Common.{rules};

    ghost partial_cmp = { as_partial_cmp nat_cmp };

    ghost laws = { partial_order_from_own_ties (Prim.search (comparing, rules)) (Prim.search (comparing, rules)) };

    fn partial_cmp(&self, other: &LeafKey) -> Option<Ordering> {
        Some(self.cmp(other))
    }
}
