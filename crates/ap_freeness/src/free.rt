//! The variables that are surely free. A clause sees them as a set of variables.

ghost use Rattle.std.specs.Prelude.{◌≡◌};
ghost use Rattle.ap_sharing.specs.VarSet.{has};
ghost use Rattle.ap_freeness.specs.Free.{unite_free, project_free, remove_free};

use ap_sharing::VarSet;
use std::marker::Model;

#[derive(Debug, Clone, Copy, PartialEq, Eq)]
pub struct Free {
    vars: VarSet,
}

impl Model for Free {
    ghost use Rattle.std.specs.Coded.{coded_ℕ};
    ghost use Rattle.std.specs.Prelude.{ℕ};

    ghost Value = { ℕ };

    ghost coded = { coded_ℕ };

    ghost view = { λ a. a.vars };

    ghost inverse = { λ n. record { vars = n } };
}

impl Free {
    pub fn new(vars: VarSet) -> Free
        ensures { result ≡ vars }
    {
        Free { vars }
    }

    pub fn vars(&self) -> VarSet
        ensures { result ≡ self.now }
    {
        self.vars
    }

    pub fn is_free(&self, x: u64) -> bool
        ensures { result ≡ has self.now x }
    {
        self.vars.contains(x)
    }

    /// What is free in both.
    pub fn unite(&self, other: &Free) -> Free
        ensures { result ≡ unite_free self.now other.now }
    {
        Free {
            vars: self.vars.both(other.vars),
        }
    }

    pub fn project(&self, keep: &VarSet) -> Free
        ensures { result ≡ project_free self.now keep.now }
    {
        Free {
            vars: self.vars.both(*keep),
        }
    }

    /// What is still free once the variables of v may be bound.
    pub fn remove(&self, v: &VarSet) -> Free
        ensures { result ≡ remove_free self.now v.now }
    {
        Free {
            vars: self.vars.without(*v),
        }
    }
}
