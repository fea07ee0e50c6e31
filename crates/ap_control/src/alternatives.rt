//! The clauses of a predicate, one after another.

ghost use Rattle.std.specs.Prelude.{◌≡◌, ◌∷◌, [], slice_get, None, Some, IfSome};
ghost use Rattle.ap_instr.specs.StandsFor.{clause_places};
ghost use Rattle.ap_standing.specs.Machine.{places_from};

use ap_instr::{Code, Instr, Predicate};

/// The instruction at a place.
pub fn instruction_at(code: &Code, at: usize) -> Option<Instr>
    ensures { result ≡ slice_get code.now.instructions at }
{
    code.instructions().get(at).copied()
}

/// A clause to try: where it begins, and where the choice stands that names the others, if there are others.
#[derive(Clone, Copy)]
pub struct Alternative {
    pub place: u32,
    pub behind: Option<usize>,
}

/// A predicate's first clause.
pub fn first(code: &Code, predicate: &Predicate) -> Option<Alternative>
    ensures none { result ≡ None → clause_places code.now predicate.now ≡ [] }
    ensures some { IfSome result (λ a. clause_places code.now predicate.now ≡ a.place ∷ places_from code.now a.behind) }
{
    let start = predicate.start;
    let only = Alternative {
        place: start,
        behind: None,
    };
    match instruction_at(code, start as usize) {
        None => Some(only),
        Some(instr) => match instr {
            Instr::Try(place) => Some(Alternative {
                place,
                behind: Some(start as usize + 1),
            }),
            Instr::Fail => None,
            _ => Some(only),
        },
    }
}

/// The clause that the choice at a place names.
fn named_at(code: &Code, at: usize) -> Option<Alternative>
    ensures none { result ≡ None → places_from code.now (Some at) ≡ [] }
    ensures some { IfSome result (λ a. places_from code.now (Some at) ≡ a.place ∷ places_from code.now a.behind) }
{
    if at >= code.instructions().len() {
        return None;
    }
    match instruction_at(code, at) {
        None => None,
        Some(instr) => match instr {
            Instr::Retry(place) => Some(Alternative {
                place,
                behind: Some(at + 1),
            }),
            Instr::Trust(place) => Some(Alternative {
                place,
                behind: None,
            }),
            _ => None,
        },
    }
}

/// The next clause that a choice names.
pub fn following(code: &Code, behind: Option<usize>) -> Option<Alternative>
    ensures none { result ≡ None → places_from code.now behind ≡ [] }
    ensures some { IfSome result (λ a. places_from code.now behind ≡ a.place ∷ places_from code.now a.behind) }
{
    match behind {
        None => None,
        Some(at) => named_at(code, at),
    }
}
