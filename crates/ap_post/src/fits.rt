//! Which outcomes fit a job.

ghost use Rattle.ap_post.specs.Jobs.{IsOf, cause_of};

use crate::job::Job;
use crate::outcome::Outcome;
use ap_board::Fits;

/// An outcome is one of the goal, whatever its variables are named.
impl<'a> Fits<Outcome> for Job<'a> {
    ghost fits = { λ j o. IsOf j o };

    ghost cause = { λ o. cause_of o.ending };
}
