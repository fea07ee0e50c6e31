//! The type of certified programs. A clause sees one as its program and its scope.

ghost use Rattle.std.specs.Prelude.{◌≡◌};
ghost use Rattle.ap_term.specs.WellFormed.{IsProgram};
ghost use Rattle.ap_certify.specs.Certificate.{IsCertified};

use ap_cge::Annotated;
use ap_patterns::Entries;
use ap_term::Clause;
use std::marker::Model;

/// For which queries a program is certified.
#[derive(Debug, Drop)]
pub enum Scope {
    /// Every call.
    Every,
    /// The queries of entries.
    Of(Entries),
}

/// An annotated program each of whose groups may be run by its written checks alone, for every query within its scope.
#[derive(Drop)]
pub struct Certified {
    annotated: Annotated,
    scope: Scope,
}

impl Model for Certified {
    ghost use Rattle.ap_certify.specs.Certificate.{Certificate, IsCertified};
    ghost use Rattle.std.specs.Coded.{codes};
    ghost use Rattle.ap_term.specs.GoalCode.{clause_code};

    ghost Value = { Certificate };

    ghost coded = { Prim.hlevel (codes, clause_code) };

    ghost view = { λ a. record { program = a.annotated; scope = a.scope } };

    ghost invariant = { λ a. IsCertified (record { program = a.annotated; scope = a.scope }) };
}

impl Certified {
    /// The program with its groups and checks.
    pub fn annotated(&self) -> &Annotated
        ensures { result.now ≡ self.now.program }
    {
        &self.annotated
    }

    /// The clauses with their groups and checks.
    pub fn clauses(&self) -> &[Clause]
        ensures clauses { result.now ≡ self.now.program }
        ensures kept { IsProgram self.now.program }
        ensures certified { IsCertified self.now }
    {
        self.annotated.program().as_slice()
    }

    pub fn scope(&self) -> &Scope
        ensures { result.now ≡ self.now.scope }
    {
        &self.scope
    }

    /// A program of which that is known.
    pub fn new(annotated: Annotated, scope: Scope) -> Certified
        requires { IsCertified (record { program = annotated; scope = scope }) }
        ensures { result ≡ record { program = annotated; scope = scope } }
    {
        Certified { annotated, scope }
    }
}
