//! Programs of which no clause has two goals in a row that aren't built in, so that there is nothing to group.

ghost use Rattle.std.specs.Prelude.{◌≡◌, true, IfOk};
ghost use Rattle.ap_certify.specs.declared.certified.Scope.TheVariants.{Of};
ghost use Rattle.ap_certify.specs.Certificate.{IsSoundAnnotation};
ghost use Rattle.ap_certify.specs.Scopes.{IsScopeOf};
ghost use Rattle.ap_mel.specs.declared.annotations.Kind.{Kind};
ghost use Rattle.ap_mel.specs.Lone.{is_lone_body, is_lone};
ghost use Rattle.ap_mel.specs.Made.{IsMade};

use crate::entries::certified;
use ap_certify::Certified;
use ap_cge::hand_written;
use ap_patterns::Entries;
use ap_term::{Clause, NoMemory, Program};
use ap_udg::is_lone_body;
use std::alloc::Global;

/// Whether a clause has no group, and of two goals in a row one is built in.
pub fn is_lone_clause(clause: &Clause) -> bool
    ensures { result ≡ is_lone_body clause.now.body }
{
    is_lone_body(clause.body().as_slice())
}

/// Whether no clause has a group, or two goals in a row that aren't built in.
pub fn is_lone(clauses: &[Clause]) -> bool
    ensures { result ≡ is_lone clauses.now }
{
    clauses.iter().all(|clause| is_lone_clause(clause))
}

/// The program as it is, where there is nothing to group.
pub fn as_written(
    alloc: Global,
    program: &Program,
    entries: &Entries,
) -> Result<Certified, NoMemory>
    requires { is_lone program.now ≡ true }
    ensures made { IfOk result (λ c. (k : Kind) → IsMade k entries.now program.now c.program) }
    ensures scope { IfOk result (λ c. IsScopeOf entries.now c.scope) }
    ensures sound { IfOk result (λ c. IsSoundAnnotation program.now c.program (Of entries.now)) }
{
    let _good = program.as_slice();
    let written = hand_written(alloc, program)?;
    certified(written, entries)
}
