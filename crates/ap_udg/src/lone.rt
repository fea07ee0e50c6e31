//! Bodies that have nothing to group.

ghost use Rattle.std.specs.Prelude.{◌≡◌, map};
ghost use Rattle.ap_term.specs.GoalView.{part_of};
ghost use Rattle.ap_udg.specs.Lone.{is_call, is_lone_body};

use crate::runs::is_user_call;
use ap_term::Part;

fn is_call(part: &Part) -> bool
    ensures { result ≡ is_call (part_of part.now) }
{
    match part {
        Part::Call(_) => true,
        Part::Group { .. } => false,
    }
}

/// Whether a body has no group, and of two goals in a row one is built in.
pub fn is_lone_body(parts: &[Part]) -> bool
    ensures { result ≡ is_lone_body (map part_of parts.now) }
{
    let mut is_behind = false;
    for part in parts {
        if !is_call(part) {
            return false;
        }
        let is_user = is_user_call(part);
        if is_behind && is_user {
            return false;
        }
        is_behind = is_user;
    }
    true
}
