//! Sets of the numbers below 256. A clause sees a set as the number whose bits it is.

ghost use Rattle.std.specs.Prelude.{◌≡◌, ◌==◌, ℕ, ◌<◌, ◌≤◌, false, true, MatchOption};
ghost use Rattle.ap_sharing.specs.VarSet.{has, empty, just, union, both, without, meets, within};

use std::cmp::Ordering;
use std::marker::Model;

#[derive(Debug, Clone, Copy)]
pub struct VarSet {
    high: u128,
    low: u128,
}

impl Model for VarSet {
    ghost use Rattle.std.specs.Coded.{coded_ℕ};
    ghost use Rattle.std.specs.Prelude.{ℕ, ◌<◌, ◌+◌, ◌*◌, ◌^◌, ◌/◌, ◌%◌};

    ghost Value = { ℕ };

    ghost coded = { coded_ℕ };

    ghost view = { λ s. s.high * 2 ^ 128 + s.low };

    ghost invariant = { λ s. (s.high < 2 ^ 128) × (s.low < 2 ^ 128) };

    ghost inverse = { λ n. record { high = n / 2 ^ 128; low = n % 2 ^ 128 } };
}

#[tactic(auto, using(crate::proofs::Words::words))]
impl VarSet {
    pub fn new() -> VarSet
        ensures { result ≡ empty }
    {
        VarSet { high: 0, low: 0 }
    }

    /// The set of one number.
    pub fn just(x: u64) -> VarSet
        requires { x < 256 }
        ensures { result ≡ just x }
    {
        if x < 128 {
            VarSet {
                high: 0,
                low: 1 << x,
            }
        } else {
            VarSet {
                high: 1 << (x - 128),
                low: 0,
            }
        }
    }

    pub fn insert(&mut self, x: u64)
        requires { x < 256 }
        ensures { self.new ≡ union self.old (just x) }
    {
        *self = self.union(VarSet::just(x));
    }

    pub fn remove(&mut self, x: u64)
        requires { x < 256 }
        ensures { self.new ≡ without self.old (just x) }
    {
        *self = self.without(VarSet::just(x));
    }

    pub fn contains(self, x: u64) -> bool
        ensures { result ≡ has self x }
    {
        if x < 128 {
            (self.low >> x) & 1 == 1
        } else if x < 256 {
            (self.high >> (x - 128)) & 1 == 1
        } else {
            false
        }
    }

    pub fn is_empty(self) -> bool
        ensures { result ≡ (self == empty) }
    {
        self == VarSet::new()
    }

    pub fn union(self, other: VarSet) -> VarSet
        ensures { result ≡ union self other }
    {
        VarSet {
            high: self.high | other.high,
            low: self.low | other.low,
        }
    }

    /// What both have.
    pub fn both(self, other: VarSet) -> VarSet
        ensures { result ≡ both self other }
    {
        VarSet {
            high: self.high & other.high,
            low: self.low & other.low,
        }
    }

    /// What this set has and the other has not.
    pub fn without(self, other: VarSet) -> VarSet
        ensures { result ≡ without self other }
    {
        VarSet {
            high: self.high ^ (self.high & other.high),
            low: self.low ^ (self.low & other.low),
        }
    }

    /// Whether they have a number in common.
    pub fn intersects(self, other: VarSet) -> bool
        ensures { result ≡ meets self other }
    {
        self.both(other) != VarSet::new()
    }

    pub fn is_subset(self, other: VarSet) -> bool
        ensures { result ≡ within self other }
    {
        self.both(other) == self
    }

    /// The least number of the set from x on: to go over a set in order.
    pub fn next_from(self, x: u64) -> Option<u64>
        ensures found { MatchOption result ((y : ℕ) → x ≤ y → has self y ≡ false) (λ y. (x ≤ y) × (has self y ≡ true)) }
        ensures least { MatchOption result (Unit {0}) (λ y. (z : ℕ) → x ≤ z → z < y → has self z ≡ false) }
    {
        let _ = &self.high;
        for y in x..256 {
            if self.contains(y) {
                return Some(y);
            }
        }
        None
    }
}

impl PartialEq for VarSet {
    ghost use Rattle.std.specs.Prelude.{nat_eq};
    ghost use Rattle.std.specs.Cmp.{nat_eq_equiv, partial_equiv_from_equiv};

    ghost eq = { nat_eq };

    ghost laws = { partial_equiv_from_equiv nat_eq_equiv };

    fn eq(&self, other: &VarSet) -> bool {
        self.high == other.high && self.low == other.low
    }
}

impl Eq for VarSet {
    ghost use Rattle.std.specs.Cmp.{nat_eq_equiv};

    ghost laws = { nat_eq_equiv };
}

impl Ord for VarSet {
    ghost use Rattle.std.specs.Ordering.{nat_cmp};
    ghost use Rattle.std.specs.Cmp.Rules.{comparing};
    ghost use Rattle.std.proofs.Common.{rules};

    ghost cmp = { nat_cmp };

    ghost total = { Prim.search (comparing, rules) };

    ghost matches_partial_cmp = { Prim.search (comparing, rules) };

    ghost matches_eq = { Prim.search (comparing, rules) };

    fn cmp(&self, other: &VarSet) -> Ordering {
        self.high.cmp(&other.high).then(self.low.cmp(&other.low))
    }
}

impl PartialOrd for VarSet {
    ghost use Rattle.std.specs.Ordering.{nat_cmp, as_partial_cmp};
    ghost use Rattle.std.specs.Cmp.{partial_order_from_own_ties};
    ghost use Rattle.std.specs.Cmp.Rules.{comparing};
    ghost use Rattle.std.proofs.Common.{rules};

    ghost partial_cmp = { as_partial_cmp nat_cmp };

    ghost laws = { partial_order_from_own_ties (Prim.search (comparing, rules)) (Prim.search (comparing, rules)) };

    fn partial_cmp(&self, other: &VarSet) -> Option<Ordering> {
        Some(self.cmp(other))
    }
}
