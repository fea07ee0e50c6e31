//! Which clauses of a predicate a call may enter: told by the index of the first argument, and by what their heads ask. For that
//! nothing is bound, nothing undone, and no head is gone through.

ghost use Rattle.std.specs.Prelude.{◌≡◌, ℕ, ◌+◌, ◌<◌, List, [], ◌∷◌, length, true, None, Some, IfSome};
ghost use Rattle.ap_term.specs.Tree.{Tree};
ghost use Rattle.ap_cells.specs.declared.cells.Raw.{Raw};
ghost use Rattle.ap_instr.specs.declared.compiled.Predicate.{Predicate as PredicateOf};
ghost use Rattle.ap_instr.specs.StandsFor.{clause_places};
ghost use Rattle.ap_index.specs.Keys.{same_key, IsKeyOf};
ghost use Rattle.ap_instr.specs.Code.{Compiled};
ghost use Rattle.ap_index.specs.declared.key.Key.TheVariants.{Structure};
ghost use Rattle.ap_index.specs.Index.{IsChoiceOf};
ghost use Rattle.ap_match.specs.Fits.{Fits};
ghost use Rattle.ap_steps.specs.Moves.{held, HoldPlaces};
ghost use Rattle.ap_standing.specs.Machine.{places_from};
ghost use Rattle.ap_control.specs.Heads.{PassesOver};
ghost use Rattle.ap_control.specs.Taking.{CanTake};
ghost use Rattle.ap_control.specs.Choosing.{both, chance_by, fit_known, IsFit, IsAskFit, AreFit, IsChance, HasKey, Alike, IsWordAt, IsArgument, IsFirst, IsKnown, IsWordFit, IsOtherFit, AreWordsFit, IsSure, AreLeftFrom, IsChosen, IsLeft, possible_places, left_places};

use crate::alternatives::{Alternative, first, following};
use crate::unasked::{alternative_of, chosen_unasked, free_at, is_unasked};
use ap_cells::{Cells, Top};
use ap_codecheck::Sound;
use ap_index::{Ask, Choice, Hashed, Head, Key, NOTHING, Next, Short, UNBOUND, Word};
use ap_instr::Predicate;
use ap_steps::registers::place_in;

/// How what there is stands to what is asked.
#[derive(Clone, Copy)]
pub(crate) enum Fit {
    /// It is so.
    Has,
    /// It is so once an unbound variable is bound.
    Takes,
    /// It can't be so.
    Lacks,
    /// That isn't told.
    Open,
}

/// Whether two keys are the same.
#[inline(always)]
fn is_same_key(own: Key, asked: Key) -> bool
    ensures { result ≡ same_key own asked }
{
    match own {
        Key::Atom(name) => matches!(asked, Key::Atom(other) if name == other),
        Key::Integer(value) => matches!(asked, Key::Integer(other) if value == other),
        Key::Structure(name, count) => {
            matches!(asked, Key::Structure(other, others) if name == other && count == others)
        }
    }
}

/// How a term of a known key stands to one that is asked.
#[inline(always)]
fn fit_known(own: Key, asked: Key) -> Fit
    ensures { result ≡ fit_known own asked }
{
    if is_same_key(own, asked) {
        Fit::Has
    } else {
        Fit::Lacks
    }
}

/// How a place's term stands to a key. Its chain is followed once, whatever is asked; of more arguments than code has it isn't told.
#[inline(always)]
fn fit_key(cells: &Cells, place: usize, asked: Key) -> Fit
    requires { place < length cells.now.cells }
    ensures { IsFit cells.now.cells place asked result }
{
    match cells.top(place) {
        Top::Free(_) => Fit::Takes,
        Top::Atom(name) => fit_known(Key::Atom(name.number()), asked),
        Top::Int(value) => fit_known(Key::Integer(value), asked),
        Top::Node(name, _, count) => {
            if count > 255 {
                return Fit::Open;
            }
            fit_known(Key::Structure(name.number(), count as u8), asked)
        }
    }
}

/// How an argument of a call with so many stands to what it is asked.
#[inline(always)]
fn fit_ask(cells: &Cells, x: &[u32], arity: u8, ask: &Ask) -> Fit
    requires holds { HoldPlaces (length cells.now.cells) x.now }
    ensures { IsAskFit cells.now.cells (held x.now) arity ask.now result }
{
    if ask.argument > arity as u32 {
        return Fit::Open;
    }
    fit_key(cells, place_in(x, ask.argument), ask.key)
}

/// How all of what is asked is, where some of it was so and one more is so. Of two that take a variable it isn't told, since that may be
/// the same one.
#[inline(always)]
fn both(some: Fit, one: Fit) -> Fit
    ensures { result ≡ both some one }
{
    match (some, one) {
        (Fit::Lacks, _) => Fit::Lacks,
        (_, Fit::Lacks) => Fit::Lacks,
        (Fit::Has, fit) => fit,
        (fit, Fit::Has) => fit,
        _ => Fit::Open,
    }
}

/// How the arguments of a call stand to what they are asked.
#[inline(always)]
fn fit_all(cells: &Cells, x: &[u32], arity: u8, asks: &[Ask]) -> Fit
    requires holds { HoldPlaces (length cells.now.cells) x.now }
    ensures { AreFit cells.now.cells (held x.now) arity asks.now result }
{
    let mut fit = Fit::Has;
    for ask in asks {
        match fit_ask(cells, x, arity, ask) {
            Fit::Has => {}
            Fit::Lacks => return Fit::Lacks,
            other => fit = both(fit, other),
        }
    }
    fit
}

/// Whether the clause at a place can be entered.
#[derive(Clone, Copy)]
pub(crate) enum Chance {
    Never,
    Sure,
    Open,
}

/// Whether a clause can be entered, by how a call stands to what its head asks.
#[inline(always)]
fn chance_by(fit: Fit, head: &Head) -> Chance
    ensures { result ≡ chance_by fit head.now.whole }
{
    match fit {
        Fit::Lacks => Chance::Never,
        Fit::Open => Chance::Open,
        _ => {
            if head.is_whole() {
                Chance::Sure
            } else {
                Chance::Open
            }
        }
    }
}

/// Whether a clause can surely be entered.
#[inline(always)]
fn is_sure(chance: Chance) -> bool
    ensures { (code : Compiled) (cs : List Raw) (x : ℕ → ℕ) (n at : ℕ) → IsChance code cs x n at chance → result ≡ true → (z : ℕ → ℕ) → Alike n x z → CanTake code cs z at }
{
    matches!(chance, Chance::Sure)
}

/// What is at a place, as a word.
#[inline(always)]
fn word_at(cells: &Cells, place: usize) -> Word
    requires { place < length cells.now.cells }
    ensures { IsWordAt cells.now.cells place result }
{
    match cells.top(place) {
        Top::Free(_) => Word::unbound(),
        Top::Atom(name) => Word::atom(name.number()),
        Top::Int(value) => Word::integer(value),
        Top::Node(name, _, count) => Word::structure(name.number(), count),
    }
}

/// What an argument is: as a word, and as what is looked up.
#[derive(Clone, Copy)]
pub(crate) struct First {
    pub(crate) word: Word,
    pub(crate) key: Option<Hashed>,
}

/// What is at a place.
#[inline(always)]
fn first_at(cells: &Cells, place: usize) -> First
    requires { place < length cells.now.cells }
    ensures word { IsWordAt cells.now.cells place result.word }
    ensures key { IfSome result.key (λ own. (k : ℕ → Tree) → Fits cells.now.cells k → IsKeyOf own.key (k place)) }
{
    match cells.top(place) {
        Top::Free(_) => First {
            word: Word::unbound(),
            key: None,
        },
        Top::Atom(name) => First {
            word: Word::atom(name.number()),
            key: Some(Hashed::new(Key::Atom(name.number()))),
        },
        Top::Int(value) => First {
            word: Word::integer(value),
            key: Some(Hashed::new(Key::Integer(value))),
        },
        Top::Node(name, _, count) => First {
            word: Word::structure(name.number(), count),
            key: structure_of(name.number(), count),
        },
    }
}

/// What is looked up of a structure; none of one that has more arguments than code has.
#[inline(always)]
fn structure_of(name: u32, count: u32) -> Option<Hashed>
    ensures { IfSome result (λ own. own.key ≡ Structure name count) }
{
    if count > 255 {
        return None;
    }
    Some(Hashed::new(Key::Structure(name, count as u8)))
}

impl First {
    /// Nothing is told.
    #[inline(always)]
    fn nothing() -> First
        ensures { (cs : List Raw) (x : ℕ → ℕ) (n : ℕ) → IsFirst cs x n result }
    {
        First {
            word: Word::nothing(),
            key: None,
        }
    }

    /// Of a call with so many arguments.
    #[inline(always)]
    fn of(cells: &Cells, x: &[u32], arity: u8) -> First
        requires { HoldPlaces (length cells.now.cells) x.now }
        ensures { IsFirst cells.now.cells (held x.now) arity result }
    {
        if arity == 0 {
            return First::nothing();
        }
        first_at(cells, place_in(x, 1))
    }

    /// Of a call with so many arguments, where a key of the first one is asked from a choice on.
    #[inline(always)]
    fn for_choice(cells: &Cells, x: &[u32], arity: u8, choice: &Choice) -> First
        requires { HoldPlaces (length cells.now.cells) x.now }
        ensures { IsFirst cells.now.cells (held x.now) arity result }
    {
        if choice.asks_first {
            First::of(cells, x, arity)
        } else {
            First::nothing()
        }
    }
}

/// What the other argument of which a key is asked from a choice on is in a call with so many, as a word.
#[inline(always)]
fn other_for(cells: &Cells, x: &[u32], arity: u8, choice: &Choice) -> Word
    requires { HoldPlaces (length cells.now.cells) x.now }
    ensures { IsArgument cells.now.cells (held x.now) arity choice.now.other result }
{
    if choice.other == 0 || choice.other > arity as u32 {
        return Word::nothing();
    }
    word_at(cells, place_in(x, choice.other))
}

/// What is known of the first argument of a call, and of another one.
#[derive(Clone, Copy)]
pub(crate) struct Known {
    pub(crate) first: First,
    pub(crate) argument: u32,
    pub(crate) second: Word,
}

impl Known {
    /// Of a call with so many arguments, where keys are asked from a choice on.
    #[inline(always)]
    fn for_choice(cells: &Cells, x: &[u32], arity: u8, choice: &Choice) -> Known
        requires { HoldPlaces (length cells.now.cells) x.now }
        ensures { IsKnown cells.now.cells (held x.now) arity result }
    {
        Known {
            first: First::for_choice(cells, x, arity, choice),
            argument: choice.other,
            second: other_for(cells, x, arity, choice),
        }
    }
}

/// How what there is stands to what is asked, by words.
#[inline(always)]
fn fit_word(own: Word, asked: Word) -> Fit
    ensures { IsWordFit own asked result }
{
    if asked.kind == NOTHING {
        return Fit::Has;
    }
    if own.kind == NOTHING {
        return Fit::Open;
    }
    if own.kind == UNBOUND {
        return Fit::Takes;
    }
    if own.kind == asked.kind && own.value == asked.value {
        Fit::Has
    } else {
        Fit::Lacks
    }
}

/// How the argument that is known besides the first one stands to what is asked of another one than the first.
#[inline(always)]
fn fit_other(known: &Known, asked: &Short) -> Fit
    ensures { IsOtherFit known.now asked.now result }
{
    if asked.second.kind == NOTHING {
        return Fit::Has;
    }
    if asked.argument != known.argument {
        return Fit::Open;
    }
    fit_word(known.second, asked.second)
}

/// Whether another argument is asked than the one that is known.
#[inline(always)]
fn is_untold(known: &Known, asked: &Short) -> bool {
    asked.second.kind != NOTHING && asked.argument != known.argument
}

/// How the arguments stand to what they are asked in short.
#[inline(always)]
fn fit_words(known: &Known, asked: &Short) -> Fit
    ensures { AreWordsFit known.now asked.now result }
{
    match fit_word(known.first.word, asked.first) {
        Fit::Lacks => Fit::Lacks,
        Fit::Has => fit_other(known, asked),
        some => both(some, fit_other(known, asked)),
    }
}

/// Whether the clause of a choice can be entered by a call on so many argument registers, by all that its head asks of them.
#[inline(never)]
fn chance_by_all(cells: &Cells, x: &[u32], arity: u8, choice: &Choice) -> Chance
    requires holds { HoldPlaces (length cells.now.cells) x.now }
    ensures { (code : Compiled) → IsChoiceOf code choice.now → IsChance code cells.now.cells (held x.now) arity choice.now.named.place result }
{
    chance_by(fit_all(cells, x, arity, choice.head.asks()), &choice.head)
}

/// Whether the clause of a choice can be entered by a call on so many argument registers, by what its head asks of them.
#[inline(always)]
fn chance_of(cells: &Cells, x: &[u32], arity: u8, known: &Known, choice: &Choice) -> Chance
    requires holds { HoldPlaces (length cells.now.cells) x.now }
    requires known { IsKnown cells.now.cells (held x.now) arity known.now }
    ensures { (code : Compiled) → IsChoiceOf code choice.now → IsChance code cells.now.cells (held x.now) arity choice.now.named.place result }
{
    match fit_words(known, &choice.short) {
        Fit::Lacks => Chance::Never,
        fit => {
            if choice.short.more || is_untold(known, &choice.short) {
                chance_by_all(cells, x, arity, choice)
            } else {
                chance_by(fit, &choice.head)
            }
        }
    }
}

/// From a place behind a choice the next choice for the first argument, by the row that may go on there.
#[inline(always)]
fn next_of_row(sound: &Sound, own: Hashed, at: usize) -> Option<usize>
    ensures { (cs : List Raw) (x : ℕ → ℕ) → HasKey cs x (Some own) → PassesOver sound.now cs x (places_from sound.now (Some at)) (places_from sound.now result) }
{
    match sound.rest(at) {
        Some(row) => row.first(own),
        None => Some(at),
    }
}

/// From a choice the next one for the first argument, by what is known there.
#[inline(always)]
fn next_choice(sound: &Sound, key: Option<Hashed>, choice: &Choice) -> Option<usize>
    requires { IsChoiceOf sound.now choice.now }
    ensures { (cs : List Raw) (x : ℕ → ℕ) → HasKey cs x key → PassesOver sound.now cs x (places_from sound.now choice.now.named.behind) (places_from sound.now result) }
{
    let Some(at) = choice.named.behind else {
        return None;
    };
    let Some(own) = key else {
        return Some(at);
    };
    match choice.next {
        Next::Linked(link) => link.next(own, at),
        Next::Row => next_of_row(sound, own, at),
        Next::Any => Some(at),
    }
}

/// A clause that isn't passed over, and whether its head surely unifies with the call.
#[derive(Clone, Copy)]
pub struct Possible {
    pub alternative: Alternative,
    pub sure: bool,
}

/// The next clause from a choice on, of which nothing is known.
#[inline(always)]
fn next_unknown(sound: &Sound, from: Option<usize>) -> Option<Possible>
    ensures passes { (cs : List Raw) (x : ℕ → ℕ) → PassesOver sound.now cs x (places_from sound.now from) (possible_places sound.now result) }
    ensures sure { (n : ℕ) (cs : List Raw) (x : ℕ → ℕ) → IfSome result (λ p. p.sure ≡ true → (z : ℕ → ℕ) → Alike n x z → CanTake sound.now cs z p.alternative.place) }
{
    match following(sound.code(), from) {
        Some(alternative) => Some(Possible {
            alternative,
            sure: false,
        }),
        None => None,
    }
}

/// A clause that isn't passed over, and the choice from which on the others are left.
#[derive(Clone, Copy)]
pub(crate) struct Left {
    pub(crate) possible: Possible,
    pub(crate) rest: Option<usize>,
}

/// The next clause from a choice on, of which nothing is known, with those behind it.
#[inline(never)]
fn left_unknown(sound: &Sound, from: Option<usize>) -> Option<Left>
    ensures passes { (cs : List Raw) (x : ℕ → ℕ) → PassesOver sound.now cs x (places_from sound.now from) (left_places sound.now result) }
    ensures rest { (cs : List Raw) (x : ℕ → ℕ) → IfSome result (IsLeft sound.now cs x) }
    ensures sure { (n : ℕ) (cs : List Raw) (x : ℕ → ℕ) → IfSome result (λ l. IsSure sound.now cs x n l.possible) }
{
    match next_unknown(sound, from) {
        Some(possible) => Some(Left {
            possible,
            rest: possible.alternative.behind,
        }),
        None => None,
    }
}

/// The clause of a choice, with those behind it for the first argument.
#[inline(always)]
fn left_at(sound: &Sound, key: Option<Hashed>, choice: &Choice, sure: bool) -> Left
    requires { IsChoiceOf sound.now choice.now }
    ensures place { result.possible.alternative.place ≡ choice.now.named.place }
    ensures behind { result.possible.alternative.behind ≡ choice.now.named.behind }
    ensures sure { result.possible.sure ≡ sure }
    ensures rest { (cs : List Raw) (x : ℕ → ℕ) → HasKey cs x key → IsLeft sound.now cs x result }
{
    let alternative = alternative_of(&choice.named);
    Left {
        possible: Possible { alternative, sure },
        rest: next_choice(sound, key, choice),
    }
}

/// The first clause from a choice on that isn't passed over.
#[inline(always)]
fn left_from(
    cells: &Cells,
    x: &[u32],
    arity: u8,
    known: &Known,
    sound: &Sound,
    from: Option<usize>,
) -> Option<Left>
    requires holds { HoldPlaces (length cells.now.cells) x.now }
    requires known { IsKnown cells.now.cells (held x.now) arity known.now }
    ensures passes { PassesOver sound.now cells.now.cells (held x.now) (places_from sound.now from) (left_places sound.now result) }
    ensures rest { IfSome result (IsLeft sound.now cells.now.cells (held x.now)) }
    ensures sure { IfSome result (λ l. IsSure sound.now cells.now.cells (held x.now) arity l.possible) }
{
    let mut rest = from;
    while let Some(at) = rest {
        let Some(choice) = sound.choice(at) else {
            return left_unknown(sound, rest);
        };
        if choice.named.is_first {
            return left_unknown(sound, rest);
        }
        match chance_of(cells, x, arity, known, choice) {
            Chance::Never => rest = next_choice(sound, known.first.key, choice),
            chance => return Some(left_at(sound, known.first.key, choice, is_sure(chance))),
        }
    }
    None
}

/// The first clause from a choice on that isn't passed over, alone.
#[inline(always)]
fn possible_from(
    cells: &Cells,
    x: &[u32],
    arity: u8,
    known: &Known,
    sound: &Sound,
    from: Option<usize>,
) -> Option<Possible>
    requires holds { HoldPlaces (length cells.now.cells) x.now }
    requires known { IsKnown cells.now.cells (held x.now) arity known.now }
    ensures passes { PassesOver sound.now cells.now.cells (held x.now) (places_from sound.now from) (possible_places sound.now result) }
    ensures sure { IfSome result (IsSure sound.now cells.now.cells (held x.now) arity) }
{
    match left_from(cells, x, arity, known, sound, from) {
        Some(left) => Some(left.possible),
        None => None,
    }
}

/// The choice before a place, where that is the place behind it.
#[inline(always)]
fn choice_before(sound: &Sound, at: usize) -> Option<&Choice>
    ensures { IfSome result (λ choice. IsChoiceOf sound.now choice.now × (choice.now.named.behind ≡ Some at)) }
{
    if at == 0 {
        return None;
    }
    match sound.choice(at - 1) {
        Some(choice) => match choice.named.behind {
            Some(after) if after == at => Some(choice),
            _ => None,
        },
        None => None,
    }
}

/// The next clause behind a choice that isn't passed over, for a call on so many argument registers.
pub fn next_possible(
    cells: &Cells,
    x: &[u32],
    arity: u8,
    sound: &Sound,
    behind: Option<usize>,
) -> Option<Possible>
    requires { HoldPlaces (length cells.now.cells) x.now }
    ensures passes { PassesOver sound.now cells.now.cells (held x.now) (places_from sound.now behind) (possible_places sound.now result) }
    ensures sure { IfSome result (λ p. p.sure ≡ true → (z : ℕ → ℕ) → Alike arity (held x.now) z → CanTake sound.now cells.now.cells z p.alternative.place) }
{
    let Some(at) = behind else {
        return None;
    };
    let Some(choice) = choice_before(sound, at) else {
        return next_unknown(sound, behind);
    };
    if is_unasked(choice) {
        if let Some(next) = free_at(sound, at) {
            return Some(next);
        }
    }
    let known = Known::for_choice(cells, x, arity, choice);
    let from = next_choice(sound, known.first.key, choice);
    possible_from(cells, x, arity, &known, sound, from)
}

/// The clauses that a call may enter.
#[derive(Clone, Copy)]
pub enum Chosen {
    /// The one at a place, and no other.
    Only(u32),
    /// The first one, and the next one that isn't passed over.
    First(Alternative, Possible),
}

impl Chosen {
    /// The first one, and the next one, if there is one.
    #[inline(always)]
    fn of(first: Alternative, next: Option<Possible>) -> Chosen
        ensures { (code : Compiled) (cs : List Raw) (x : ℕ → ℕ) (n : ℕ) (ls : List ℕ) → PassesOver code cs x ls (first.place ∷ places_from code first.behind) → PassesOver code cs x (places_from code first.behind) (possible_places code next) → IfSome next (IsSure code cs x n) → IsChosen code cs x n ls result }
    {
        match next {
            Some(second) => Chosen::First(first, second),
            None => Chosen::Only(first.place),
        }
    }
}

/// The first clause behind a choice that isn't passed over.
#[inline(always)]
fn left_behind(
    cells: &Cells,
    x: &[u32],
    arity: u8,
    known: &Known,
    sound: &Sound,
    found: &Choice,
) -> Option<Left>
    requires holds { HoldPlaces (length cells.now.cells) x.now }
    requires known { IsKnown cells.now.cells (held x.now) arity known.now }
    requires found { IsChoiceOf sound.now found.now }
    ensures passes { PassesOver sound.now cells.now.cells (held x.now) (places_from sound.now found.now.named.behind) (left_places sound.now result) }
    ensures rest { IfSome result (IsLeft sound.now cells.now.cells (held x.now)) }
{
    let from = next_choice(sound, known.first.key, found);
    left_from(cells, x, arity, known, sound, from)
}

/// The first clause from a choice on that isn't passed over, where the choice may be a `try`.
#[inline(always)]
fn left_with(
    cells: &Cells,
    x: &[u32],
    arity: u8,
    known: &Known,
    sound: &Sound,
    found: &Choice,
) -> Option<Left>
    requires holds { HoldPlaces (length cells.now.cells) x.now }
    requires known { IsKnown cells.now.cells (held x.now) arity known.now }
    requires found { IsChoiceOf sound.now found.now }
    ensures passes { PassesOver sound.now cells.now.cells (held x.now) (found.now.named.place ∷ places_from sound.now found.now.named.behind) (left_places sound.now result) }
    ensures rest { IfSome result (IsLeft sound.now cells.now.cells (held x.now)) }
{
    match chance_of(cells, x, arity, known, found) {
        Chance::Never => left_behind(cells, x, arity, known, sound, found),
        _ => Some(left_at(sound, known.first.key, found, false)),
    }
}

/// The clauses that are left from a choice on, by what their heads ask.
#[inline(always)]
fn chosen_asked(
    cells: &Cells,
    x: &[u32],
    arity: u8,
    sound: &Sound,
    found: &Choice,
) -> Option<Chosen>
    requires holds { HoldPlaces (length cells.now.cells) x.now }
    requires found { IsChoiceOf sound.now found.now }
    ensures none { result ≡ None → PassesOver sound.now cells.now.cells (held x.now) (found.now.named.place ∷ places_from sound.now found.now.named.behind) [] }
    ensures some { IfSome result (IsChosen sound.now cells.now.cells (held x.now) arity (found.now.named.place ∷ places_from sound.now found.now.named.behind)) }
{
    let known = Known::for_choice(cells, x, arity, found);
    let Some(one) = left_with(cells, x, arity, &known, sound, found) else {
        return None;
    };
    let next = possible_from(cells, x, arity, &known, sound, one.rest);
    Some(Chosen::of(one.possible.alternative, next))
}

/// The clauses that are left from a choice on.
#[inline(always)]
fn chosen_from(cells: &Cells, x: &[u32], arity: u8, sound: &Sound, found: &Choice) -> Option<Chosen>
    requires holds { HoldPlaces (length cells.now.cells) x.now }
    requires found { IsChoiceOf sound.now found.now }
    ensures none { result ≡ None → PassesOver sound.now cells.now.cells (held x.now) (found.now.named.place ∷ places_from sound.now found.now.named.behind) [] }
    ensures some { IfSome result (IsChosen sound.now cells.now.cells (held x.now) arity (found.now.named.place ∷ places_from sound.now found.now.named.behind)) }
{
    if is_unasked(found) {
        if let Some(chosen) = chosen_unasked(sound, found) {
            return Some(chosen);
        }
    }
    chosen_asked(cells, x, arity, sound, found)
}

/// A predicate's first clause, with the next one, of neither of which anything is known.
#[inline(never)]
fn chosen_plainly(sound: &Sound, predicate: &Predicate) -> Option<Chosen>
    ensures none { result ≡ None → (cs : List Raw) (x : ℕ → ℕ) → PassesOver sound.now cs x (clause_places sound.now predicate.now) [] }
    ensures some { (n : ℕ) (cs : List Raw) (x : ℕ → ℕ) → IfSome result (IsChosen sound.now cs x n (clause_places sound.now predicate.now)) }
{
    match first(sound.code(), predicate) {
        Some(found) => Some(Chosen::of(found, next_unknown(sound, found.behind))),
        None => None,
    }
}

/// Whether a choice at a place names a predicate's clauses from there on: at the predicate's start it has to be a `try`.
#[inline(always)]
fn names_clauses(predicate: &Predicate, from: usize, found: &Choice) -> bool
    ensures { result ≡ true → from ≡ predicate.now.start → found.now.named.is_first ≡ true }
{
    from != predicate.start as usize || found.named.is_first
}

/// The clauses of a predicate that a call on its argument registers may enter, where those from a choice on are left.
#[inline(always)]
pub fn choose(
    cells: &Cells,
    x: &[u32],
    sound: &Sound,
    predicate: &Predicate,
    from: usize,
) -> Option<Chosen>
    requires holds { HoldPlaces (length cells.now.cells) x.now }
    requires from { AreLeftFrom sound.now cells.now.cells (held x.now) predicate.now from }
    ensures none { result ≡ None → PassesOver sound.now cells.now.cells (held x.now) (clause_places sound.now predicate.now) [] }
    ensures some { IfSome result (IsChosen sound.now cells.now.cells (held x.now) predicate.now.arity (clause_places sound.now predicate.now)) }
{
    match sound.choice(from) {
        Some(found) if names_clauses(predicate, from, found) => {
            chosen_from(cells, x, predicate.arity, sound, found)
        }
        // what comes by way of memory is a value of its own here, so that what is told above stays in registers
        _ => Some(chosen_plainly(sound, predicate)?),
    }
}
