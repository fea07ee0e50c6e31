//! Substitutions: what stands in the place of each variable.

ghost use Rattle.std.specs.Prelude.{◌≡◌, ◌+◌, ◌-◌, ◌^◌, min, [], ◌∷◌, map, is_ok, if◌then◌else◌};
ghost use Rattle.ap_term.specs.Tree.{var};
ghost use Rattle.ap_term.specs.TermView.{tree_of};
ghost use Rattle.ap_term.specs.Substitution.{value, one};

use ap_term::{Bindings, NoMemory, Term, copy_term};
use std::alloc::Global;
use std::marker::Model;

/// A variable, and the term in its place.
#[derive(Drop)]
pub struct Binding {
    pub variable: u64,
    pub term: Term,
}

/// A finite map from variables to terms, as its pairs. The first pair of a variable counts.
#[derive(Drop)]
pub struct Subst {
    pairs: Vec<Binding>,
}

impl Model for Subst {
    ghost use Rattle.std.specs.Coded.{coded_list, coded×, coded_ℕ};
    ghost use Rattle.std.specs.Prelude.{map};
    ghost use Rattle.ap_term.specs.TreeCode.{tree_code};
    ghost use Rattle.ap_term.specs.Substitution.{Subst as Pairs};

    ghost Value = { Pairs };

    ghost coded = { coded_list (coded× coded_ℕ tree_code) };

    ghost use Rattle.ap_spec.specs.Pairs.{pair_of};

    ghost view = { λ a. map pair_of a.pairs.items };
}

impl Subst {
    pub fn new(alloc: Global) -> Subst
        ensures { result ≡ [] }
    {
        Subst {
            pairs: Vec::new(alloc),
        }
    }

    /// Puts a pair before the others.
    pub fn bind(&mut self, variable: u64, term: Term) -> Result<(), NoMemory>
        ensures { self.new ≡ (if is_ok result then (variable, tree_of term) ∷ self.old else self.old) }
    {
        self.pairs.insert(0, Binding { variable, term })?;
        Ok(())
    }
}

impl Bindings for Subst {
    ghost use Rattle.ap_term.specs.Substitution.{value};

    ghost term_at = { value };

    fn term_for(&self, alloc: Global, variable: u64) -> Result<Term, NoMemory> {
        for pair in &self.pairs {
            if pair.variable == variable {
                return copy_term(alloc, &pair.term);
            }
        }
        Ok(Term::Var(variable))
    }
}

/// The substitution of one variable.
#[derive(Drop)]
pub struct One<'a> {
    pub binding: &'a Binding,
}

impl Bindings for One<'_> {
    ghost use Rattle.ap_term.specs.TermView.{tree_of};
    ghost use Rattle.ap_term.specs.Substitution.{value, one};

    ghost term_at = { λ s. value (one s.binding.now.variable (tree_of s.binding.now.term)) };

    fn term_for(&self, alloc: Global, variable: u64) -> Result<Term, NoMemory> {
        if self.binding.variable == variable {
            copy_term(alloc, &self.binding.term)
        } else {
            Ok(Term::Var(variable))
        }
    }
}

/// Each variable moved up by a number, at most to the greatest one.
#[derive(Drop)]
pub struct Shift {
    pub by: u64,
}

impl Bindings for Shift {
    ghost use Rattle.ap_spec.specs.Shifts.{shift_within};

    ghost term_at = { λ s. shift_within s.by };

    fn term_for(&self, _alloc: Global, variable: u64) -> Result<Term, NoMemory> {
        Ok(Term::Var(variable.saturating_add(self.by)))
    }
}
