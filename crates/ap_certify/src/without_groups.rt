//! The program without groups, which is sound for every query.

ghost use Rattle.std.specs.Prelude.{◌≡◌, IfOk};
ghost use Rattle.ap_cge.specs.Stripped.{stripped};
ghost use Rattle.ap_certify.specs.declared.certified.Scope.TheVariants.{Every};

use crate::certified::{Certified, Scope};
use ap_cge::{Annotated, hand_written, strip};
use ap_term::{NoMemory, Program};
use std::alloc::Global;

/// The program that calls the goals of each group one after another.
pub fn plain(alloc: Global, program: &Program) -> Result<Certified, NoMemory>
    ensures { IfOk result (λ c. c ≡ record { program = stripped program.now; scope = Every }) }
{
    let written = hand_written(alloc, program)?;
    let stripped = strip(alloc, &written)?;
    Ok(Certified::new(Annotated::new(stripped), Scope::Every))
}
