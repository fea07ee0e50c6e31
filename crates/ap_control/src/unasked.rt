//! Clauses whose heads ask nothing of the arguments of a call. Which of them it may enter is told with no look at those.

ghost use Rattle.std.specs.Prelude.{◌≡◌, ℕ, ◌∷◌, List, Some, IfSome};
ghost use Rattle.ap_cells.specs.declared.cells.Raw.{Raw};
ghost use Rattle.ap_standing.specs.Machine.{places_from};
ghost use Rattle.ap_control.specs.Choosing.{IsChosen, IsSure};

use crate::alternatives::Alternative;
use crate::choosing::{Chosen, Possible};
use ap_codecheck::Sound;
use ap_index::{Choice, Named};

/// Whether no clause from a choice on asks a key of an argument, of those that were looked at.
#[inline(always)]
pub(crate) fn is_unasked(choice: &Choice) -> bool {
    !choice.asks_first && choice.other == 0
}

/// The clause that a choice names, and those behind it.
#[inline(always)]
pub(crate) fn alternative_of(named: &Named) -> Alternative
    ensures place { result.place ≡ named.now.place }
    ensures behind { result.behind ≡ named.now.behind }
{
    Alternative {
        place: named.place,
        behind: named.behind,
    }
}

/// The clause of the choice at a place, where its head asks nothing.
#[inline(always)]
pub(crate) fn free_at(sound: &Sound, at: usize) -> Option<Possible>
    ensures places { IfSome result (λ p. places_from sound.now (Some at) ≡ p.alternative.place ∷ places_from sound.now p.alternative.behind) }
    ensures sure { (n : ℕ) (cs : List Raw) (x : ℕ → ℕ) → IfSome result (IsSure sound.now cs x n) }
{
    let Some(choice) = sound.choice(at) else {
        return None;
    };
    if choice.named.is_first || choice.head.asks().len() > 0 {
        return None;
    }
    Some(Possible {
        alternative: alternative_of(&choice.named),
        sure: choice.head.is_whole(),
    })
}

/// The first two clauses from a choice on, where their heads ask nothing.
#[inline(always)]
pub(crate) fn chosen_unasked(sound: &Sound, found: &Choice) -> Option<Chosen>
    ensures { (n : ℕ) (cs : List Raw) (x : ℕ → ℕ) → IfSome result (IsChosen sound.now cs x n (found.now.named.place ∷ places_from sound.now found.now.named.behind)) }
{
    let Some(at) = found.named.behind else {
        return None;
    };
    if found.head.asks().len() > 0 {
        return None;
    }
    match free_at(sound, at) {
        Some(next) => Some(Chosen::First(alternative_of(&found.named), next)),
        None => None,
    }
}
