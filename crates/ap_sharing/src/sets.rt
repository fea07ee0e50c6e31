//! Sets of sets of variables. A clause sees them as the list of the sets, ascending as numbers.

ghost use Rattle.std.specs.Prelude.{◌≡◌, ◌==◌, ◌++◌, ◌∷◌, true, false, not, ◌&&◌, map, IfOk, IfSome, is_ok, length, [], if◌then◌else◌, Some, None};
ghost use Rattle.std.specs.Bool.{OnTrue, OnFalse};
ghost use Rattle.std.specs.List.{filter, list_any};
ghost use Rattle.ap_sharing.specs.VarSet.{has, union, meets, within, both};
ghost use Rattle.ap_sharing.specs.Sets.{IsAscending, listed, insert_set, join_sets, sets_of, all_of, with_each, pairs, closure, grown, too_many};

use crate::var_set::VarSet;
use ap_term::NoMemory;
use std::alloc::Global;
use std::marker::Model;

/// How many sets a Share keeps at most.
pub const MAX_SETS: usize = 4096;

#[derive(Drop)]
pub struct Sets {
    held: Vec<VarSet>,
}

impl Model for Sets {
    ghost use Rattle.std.specs.Prelude.{ℕ, List};
    ghost use Rattle.ap_sharing.specs.Sets.{IsAscending};

    ghost Value = { List ℕ };

    ghost view = { λ s. s.held.items };

    ghost invariant = { λ s. IsAscending s.held.items };
}

impl PartialEq for Sets {
    ghost use Rattle.std.specs.Prelude.{nat_eq};
    ghost use Rattle.std.specs.Cmp.{nat_eq_equiv, partial_equiv_from_equiv};
    ghost use Rattle.std.specs.Cmp.Lexicographic.{pointwise, lists_per};

    ghost eq = { pointwise nat_eq };

    ghost laws = { lists_per (partial_equiv_from_equiv nat_eq_equiv) };

    fn eq(&self, other: &Sets) -> bool {
        self.held == other.held
    }
}

impl Sets {
    /// No sets. Takes no memory.
    pub fn new(alloc: Global) -> Sets
        ensures { result ≡ [] }
    {
        Sets {
            held: Vec::new(alloc),
        }
    }

    /// The sets of a list, in any order and as often as they stand there. A list that ascends already is gone through once.
    pub fn of(mut listed: Vec<VarSet>) -> Result<Sets, NoMemory>
        ensures { IfOk result (λ r. r ≡ sets_of listed.items) }
    {
        listed.sort()?;
        listed.dedup();
        Ok(Sets { held: listed })
    }

    pub fn len(&self) -> usize
        ensures len { result ≡ length self.now }
        ensures ascending { IsAscending self.now }
    {
        self.held.len()
    }

    pub fn is_empty(&self) -> bool
        ensures { result ≡ (length self.now == 0) }
    {
        self.held.is_empty()
    }

    /// The sets, ascending.
    pub fn as_slice(&self) -> &[VarSet]
        ensures { result.now ≡ self.now }
    {
        self.held.as_slice()
    }

    pub fn contains(&self, s: VarSet) -> bool
        ensures { result ≡ listed s self.now }
    {
        self.held.binary_search(&s).is_ok()
    }

    pub fn insert(&mut self, s: VarSet) -> Result<(), NoMemory>
        ensures { self.new ≡ (if is_ok result then insert_set self.old s else self.old) }
    {
        match self.held.binary_search(&s) {
            Ok(_) => Ok(()),
            Err(place) => {
                self.held.insert(place, s)?;
                Ok(())
            }
        }
    }

    pub fn clear(&mut self)
        ensures { self.new ≡ [] }
    {
        self.held.clear();
    }

    pub fn copy(&self) -> Result<Sets, NoMemory>
        ensures { IfOk result (λ r. r ≡ self.now) }
    {
        let held = Vec::from_slice(*self.held.allocator(), &self.held)?;
        Ok(Sets { held })
    }

    /// Drops the sets that are within v.
    pub fn drop_within(&mut self, v: VarSet)
        ensures { self.new ≡ filter (λ s. not (within s v)) self.old }
    {
        self.held.retain(|s| !s.is_subset(v));
    }

    /// Drops the sets that meet v.
    pub fn drop_meeting(&mut self, v: VarSet)
        ensures { self.new ≡ filter (λ s. not (meets s v)) self.old }
    {
        self.held.retain(|s| !s.intersects(v));
    }

    /// Drops the sets that don't meet v.
    pub fn keep_meeting(&mut self, v: VarSet)
        ensures { self.new ≡ filter (λ s. meets s v) self.old }
    {
        self.held.retain(|s| s.intersects(v));
    }

    /// The union of all sets.
    pub fn union_of_all(&self) -> VarSet
        ensures { result ≡ all_of self.now }
    {
        let mut all = VarSet::new();
        for s in self.as_slice() {
            all = all.union(*s);
        }
        all
    }

    /// The union of the sets that meet v.
    pub fn union_of_meeting(&self, v: VarSet) -> VarSet
        ensures { result ≡ all_of (filter (λ s. meets s v) self.now) }
    {
        let mut all = VarSet::new();
        for s in self.as_slice() {
            if s.intersects(v) {
                all = all.union(*s);
            }
        }
        all
    }

    /// Whether a set has both.
    pub fn any_with_both(&self, x: u64, y: u64) -> bool
        ensures { result ≡ list_any (λ s. has s x && has s y) self.now }
    {
        for s in self.as_slice() {
            if s.contains(x) && s.contains(y) {
                return true;
            }
        }
        false
    }

    /// The sets, and behind them others.
    fn list_with(&self, more: &[VarSet]) -> Result<Vec<VarSet>, NoMemory>
        ensures { IfOk result (λ v. v.items ≡ self.now ++ more.now) }
    {
        let room = self.len().saturating_add(more.len());
        let mut all = Vec::with_capacity(*self.held.allocator(), room)?;
        all.extend_from_slice(&self.held)?;
        all.extend_from_slice(more)?;
        Ok(all)
    }

    /// Puts in the sets of a list, in any order.
    pub fn extend(&mut self, more: &[VarSet]) -> Result<(), NoMemory>
        ensures { IfOk result (λ _. self.new ≡ join_sets self.old more.now) }
    {
        let all = self.list_with(more)?;
        *self = Sets::of(all)?;
        Ok(())
    }

    /// Puts all sets of the other in.
    pub fn join(&mut self, other: &Sets) -> Result<(), NoMemory>
        ensures { IfOk result (λ _. self.new ≡ join_sets self.old other.now) }
    {
        self.extend(other.as_slice())
    }

    /// What each set has of v.
    pub fn cut_to(&self, alloc: Global, v: VarSet) -> Result<Sets, NoMemory>
        ensures { IfOk result (λ r. r ≡ sets_of (map (λ s. both s v) self.now)) }
    {
        Sets::of(self.held.iter().map(|s| s.both(v)).collect(alloc)?)
    }

    /// All unions of one set of each, and None where these are too many. The shorter list is gone through once.
    pub fn pairs(&self, alloc: Global, other: &Sets) -> Result<Option<Sets>, NoMemory>
        ensures { IfOk result (λ r. r ≡ (if too_many (pairs self.now other.now) then None else Some (pairs self.now other.now))) }
    {
        if self.len() <= other.len() {
            self.unions_with(alloc, other)
        } else {
            other.unions_with(alloc, self)
        }
    }

    /// All unions of one set of each, and None as soon as these are too many.
    fn unions_with(&self, alloc: Global, other: &Sets) -> Result<Option<Sets>, NoMemory>
        ensures { IfOk result (λ r. r ≡ (if too_many (pairs self.now other.now) then None else Some (pairs self.now other.now))) }
    {
        let mut unions = Sets::new(alloc);
        for s in self.as_slice() {
            unions.add_unions(alloc, *s, other.as_slice())?;
            if unions.len() > MAX_SETS {
                return Ok(None);
            }
        }
        Ok(Some(unions))
    }

    /// Puts in the union of s and each of the others.
    fn add_unions(&mut self, alloc: Global, s: VarSet, others: &[VarSet]) -> Result<(), NoMemory>
        ensures { IfOk result (λ _. self.new ≡ join_sets self.old (with_each s others.now)) }
    {
        let unions: Vec<VarSet> = others.iter().map(|t| s.union(*t)).collect(alloc)?;
        self.extend(&unions)
    }

    /// All unions of one or more of the sets, and None as soon as these are too many.
    pub fn closure(&self, alloc: Global) -> Result<Option<Sets>, NoMemory>
        ensures { IfOk result (λ r. r ≡ (if too_many (closure self.now) then None else Some (closure self.now))) }
    {
        let mut closed = Sets::new(alloc);
        for s in self.as_slice() {
            // Its unions are there too.
            if closed.contains(*s) {
                continue;
            }
            closed = closed.grown(alloc, *s)?;
            if closed.len() > MAX_SETS {
                return Ok(None);
            }
        }
        Ok(Some(closed))
    }

    /// The sets, s, and the unions of s and one of the sets.
    fn grown(&self, alloc: Global, s: VarSet) -> Result<Sets, NoMemory>
        ensures { IfOk result (λ r. r ≡ grown self.now s) }
    {
        let room = self.len().saturating_mul(2).saturating_add(1);
        let mut all = Vec::with_capacity(alloc, room)?;
        all.extend_from_slice(&self.held)?;
        all.push(s)?;
        for t in self.as_slice() {
            all.push(s.union(*t))?;
        }
        Sets::of(all)
    }

    /// The set that meets v, where there is just one.
    pub fn only_meeting(&self, v: VarSet) -> Option<VarSet>
        ensures { IfSome result (λ r. filter (λ s. meets s v) self.now ≡ r ∷ []) }
    {
        let mut found = None;
        for s in self.as_slice() {
            if s.intersects(v) {
                if found.is_some() {
                    return None;
                }
                found = Some(*s);
            }
        }
        found
    }

    /// The sets where the one set that meets b has become part of each that meets a. So the order stays, mostly.
    pub fn with_one(
        &self,
        alloc: Global,
        a: VarSet,
        b: VarSet,
        one: VarSet,
    ) -> Result<Sets, NoMemory>
        ensures { IfOk result (λ r. r ≡ join_sets (pairs (filter (λ s. meets s a) self.now) (one ∷ [])) (filter (λ s. not (meets s (union a b))) self.now)) }
    {
        let sides = a.union(b);
        let mut sets = Vec::with_capacity(alloc, self.len())?;
        for s in self.as_slice() {
            if s.intersects(a) {
                sets.push(s.union(one))?;
            } else if !s.intersects(sides) {
                sets.push(*s)?;
            }
        }
        Sets::of(sets)
    }
}
