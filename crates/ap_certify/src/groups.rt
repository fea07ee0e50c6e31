//! Whether what is known at a fork gives the checks that a group leaves out.

ghost use Rattle.std.specs.Prelude.{◌≡◌, IfOk, IfErr, IsTrue};
ghost use Rattle.ap_term.specs.WellFormed.{numbered_all};
ghost use Rattle.ap_certify.specs.Written.{same_check, is_written};
ghost use Rattle.ap_certify.specs.Held.{GivesMissing};
ghost use Rattle.ap_certify.specs.Refused.{IsLeftOutAt};

use crate::faults::{CertErr, Place};
use crate::sights::Sight;
use ap_conditions::full;
use ap_term::{Args, Check, Checks};
use std::alloc::Global;

fn same_check(a: &Check, b: &Check) -> bool
    ensures { result ≡ same_check a.now b.now }
{
    match (a, b) {
        (Check::Ground(x), Check::Ground(y)) => x == y,
        (Check::Indep(x, y), Check::Indep(z, w)) => (x == z && y == w) || (x == w && y == z),
        _ => false,
    }
}

/// Whether a check is among those that are written, `indep` either way round.
pub fn is_written(check: &Check, checks: &[Check]) -> bool
    ensures { result ≡ is_written check.now checks.now }
{
    checks.iter().any(|written| same_check(check, written))
}

/// Whether each check of the group's full condition is written or given at the fork.
pub fn give_group(
    alloc: Global,
    at: Place,
    s: &Sight,
    checks: &Checks,
    goals: &Args,
) -> Result<(), CertErr>
    requires { IsTrue (numbered_all 255 goals.now) }
    ensures given { IfOk result (λ _. GivesMissing s.now checks.now goals.now) }
    ensures fault { IfErr result (IsLeftOutAt at.clause at.goal s.now checks.now goals.now) }
{
    let condition = full(alloc, goals.as_slice())?;
    for check in condition.as_slice() {
        let is_there = is_written(check, checks.as_slice()) || s.gives(check);
        if !is_there {
            return Err(CertErr::MissingCheck {
                clause: at.clause,
                place: at.goal,
                check: *check,
            });
        }
    }
    Ok(())
}
