//! Goals that the analysis can't tell apart.

ghost use Rattle.std.specs.Prelude.{◌≡◌, true, IfOk};
ghost use Rattle.ap_term.specs.Independence.{IsGround};
ghost use Rattle.ap_term.specs.TermView.{tree_of, trees_of};
ghost use Rattle.ap_alike.specs.Alike.{IsAlikeArgument, AreAlikeArguments, IsAlikeGoal, AreAlikeGoals};

use ap_patterns::is_builtin;
use ap_term::{NoMemory, Term, vars};
use std::alloc::Global;

/// Whether a term has no variable.
fn is_bare(alloc: Global, term: &Term) -> Result<bool, NoMemory>
    ensures { IfOk result (λ b. b ≡ true → IsGround (tree_of term.now)) }
{
    let found = vars(alloc, term)?;
    Ok(found.as_slice().len() == 0)
}

/// Whether two arguments are the same variable, or have none.
fn is_alike_argument(alloc: Global, left: &Term, right: &Term) -> Result<bool, NoMemory>
    ensures { IfOk result (λ b. b ≡ true → IsAlikeArgument (tree_of left.now) (tree_of right.now)) }
{
    if let Term::Var(x) = left {
        return Ok(matches!(right, Term::Var(y) if x == y));
    }
    Ok(is_bare(alloc, left)? && is_bare(alloc, right)?)
}

/// Whether as many arguments are alike, place by place.
fn are_alike_arguments(alloc: Global, left: &[Term], right: &[Term]) -> Result<bool, NoMemory>
    ensures { IfOk result (λ b. b ≡ true → AreAlikeArguments (trees_of left.now) (trees_of right.now)) }
{
    if left.len() != right.len() {
        return Ok(false);
    }
    for i in 0..left.len() {
        if !is_alike_argument(alloc, &left[i], &right[i])? {
            return Ok(false);
        }
    }
    Ok(true)
}

/// Whether two goals are the same atom, or call one predicate that isn't built in with arguments that are alike.
pub fn is_alike_goal(alloc: Global, left: &Term, right: &Term) -> Result<bool, NoMemory>
    ensures { IfOk result (λ b. b ≡ true → IsAlikeGoal (tree_of left.now) (tree_of right.now)) }
{
    match (left, right) {
        (Term::Atom(own), Term::Atom(other)) => Ok(own.number() == other.number()),
        (Term::Node(own, left_arguments), Term::Node(other, right_arguments)) => {
            if own.number() != other.number() || is_builtin(left) {
                return Ok(false);
            }
            are_alike_arguments(alloc, left_arguments.as_slice(), right_arguments.as_slice())
        }
        _ => Ok(false),
    }
}

/// Whether as many goals are alike, place by place.
pub fn are_alike_goals(alloc: Global, left: &[Term], right: &[Term]) -> Result<bool, NoMemory>
    ensures { IfOk result (λ b. b ≡ true → AreAlikeGoals (trees_of left.now) (trees_of right.now)) }
{
    if left.len() != right.len() {
        return Ok(false);
    }
    for i in 0..left.len() {
        if !is_alike_goal(alloc, &left[i], &right[i])? {
            return Ok(false);
        }
    }
    Ok(true)
}
