//! A Share: which sets of variables may have a variable in common at run time.

ghost use Rattle.std.specs.Prelude.{◌≡◌, IfOk};
ghost use Rattle.ap_sharing.specs.VarSet.{within};
ghost use Rattle.ap_sharing.specs.Share.{IsNormal, nonground, met, is_member, may_share, norm, widen, ground_share, unite_shares, project_share};

use crate::sets::{MAX_SETS, Sets};
use crate::var_set::VarSet;
use ap_term::NoMemory;
use std::alloc::Global;
use std::marker::Model;

/// The members are the sets, and every subset of `any` that isn't empty. No set is within `any`, and there are at most
/// 4,096 sets.
#[derive(Drop)]
pub struct Share {
    sets: Sets,
    any: VarSet,
}

impl Model for Share {
    ghost use Rattle.ap_sharing.specs.Share.{Share, IsNormal};
    ghost use Rattle.ap_sharing.specs.ShareCode.{share_code};

    ghost Value = { Share };

    ghost coded = { share_code };

    ghost view = { λ a. record { sets = a.sets; any = a.any } };

    ghost invariant = { λ a. IsNormal (record { sets = a.sets; any = a.any }) };
}

/// Shares with the same members of both kinds are equal.
impl PartialEq for Share {
    ghost use Rattle.std.specs.Cmp.{nat_eq_equiv, partial_equiv_from_equiv, on_per, and_per};
    ghost use Rattle.std.specs.Cmp.Lexicographic.{lists_per};
    ghost use Rattle.ap_sharing.specs.Share.{same_share};

    ghost eq = { same_share };

    ghost laws = { and_per (on_per (λ a. a.sets) (lists_per (partial_equiv_from_equiv nat_eq_equiv))) (on_per (λ a. a.any) (partial_equiv_from_equiv nat_eq_equiv)) };

    fn eq(&self, other: &Share) -> bool {
        self.sets == other.sets && self.any == other.any
    }
}

impl Share {
    /// The Share of these members, in the one form in which it is kept.
    pub fn new(mut sets: Sets, any: VarSet) -> Share
        ensures { result ≡ norm (record { sets = sets; any = any }) }
    {
        sets.drop_within(any);
        if sets.len() <= MAX_SETS {
            return Share { sets, any };
        }
        let any = any.union(sets.union_of_all());
        sets.clear();
        Share { sets, any }
    }

    pub fn sets(&self) -> &Sets
        ensures sets { result.now ≡ self.now.sets }
        ensures normal { IsNormal self.now }
    {
        &self.sets
    }

    pub fn any(&self) -> VarSet
        ensures { result ≡ self.now.any }
    {
        self.any
    }

    pub fn copy(&self) -> Result<Share, NoMemory>
        ensures { IfOk result (λ r. r ≡ self.now) }
    {
        let sets = self.sets.copy()?;
        Ok(Share {
            sets,
            any: self.any,
        })
    }

    /// The variables of all members. Every other variable is surely ground.
    pub fn nonground(&self) -> VarSet
        ensures { result ≡ nonground self.now }
    {
        self.any.union(self.sets.union_of_all())
    }

    /// The variables of the members that meet v.
    pub fn met(&self, v: VarSet) -> VarSet
        ensures { result ≡ met self.now v }
    {
        let any = if self.any.intersects(v) {
            self.any
        } else {
            VarSet::new()
        };
        any.union(self.sets.union_of_meeting(v))
    }

    /// Whether the set, which isn't empty, is a member.
    pub fn is_member(&self, s: VarSet) -> bool
        ensures { result ≡ is_member s self.now }
    {
        self.sets.contains(s) || s.is_subset(self.any)
    }

    /// Whether a member has both.
    pub fn may_share(&self, x: u64, y: u64) -> bool
        ensures { result ≡ may_share self.now x y }
    {
        (self.any.contains(x) && self.any.contains(y)) || self.sets.any_with_both(x, y)
    }

    /// What is left once the variables of v are ground.
    pub fn ground(&self, v: &VarSet) -> Result<Share, NoMemory>
        ensures { IfOk result (λ r. r ≡ ground_share self.now v.now) }
    {
        let mut sets = self.sets.copy()?;
        sets.drop_meeting(*v);
        Ok(Share::new(sets, self.any.without(*v)))
    }

    pub fn unite(&self, other: &Share) -> Result<Share, NoMemory>
        ensures { IfOk result (λ r. r ≡ unite_shares self.now other.now) }
    {
        let mut sets = self.sets.copy()?;
        sets.join(&other.sets)?;
        Ok(Share::new(sets, self.any.union(other.any)))
    }

    pub fn project(&self, alloc: Global, keep: &VarSet) -> Result<Share, NoMemory>
        ensures { IfOk result (λ r. r ≡ project_share self.now keep.now) }
    {
        let sets = self.sets.cut_to(alloc, *keep)?;
        Ok(Share::new(sets, self.any.both(*keep)))
    }

    /// The Share that says no more than which variables aren't surely ground.
    pub fn widen(&self, alloc: Global) -> Result<Share, NoMemory>
        ensures { IfOk result (λ r. r ≡ widen self.now) }
    {
        Ok(Share {
            sets: Sets::new(alloc),
            any: self.nonground(),
        })
    }
}
