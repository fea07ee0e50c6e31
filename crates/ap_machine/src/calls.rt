//! Calls, and the clauses that are tried.

ghost use Rattle.std.specs.Prelude.{◌≡◌, ℕ, ◌+◌, ◌<◌, ◌≤◌, List, [], ◌∷◌, length, take, drop, slice_get, Some, None, Ok, true, false, IfOk, IfSome, OnOk, OnErr};
ghost use Rattle.ap_term.specs.Goals.{Program};
ghost use Rattle.ap_term.specs.WellFormed.{IsProgram};
ghost use Rattle.ap_instr.specs.declared.compiled.Predicate.{Predicate as PredicateOf};
ghost use Rattle.ap_instr.specs.StandsFor.{StandsFor, clause_places};
ghost use Rattle.ap_environments.specs.Kept.{Moment};
ghost use Rattle.ap_cells.specs.Store.{Store, Keeps};
ghost use Rattle.ap_steps.specs.Moves.{held, HoldPlaces, IsStuck};
ghost use Rattle.ap_instr.specs.Steps.{steps_from};
ghost use Rattle.ap_needs.specs.Needs.{AllHaveTargets, room, IsRoomOf};
ghost use Rattle.ap_standing.specs.Machine.{Point, calling, inside, failed, places_from};
ghost use Rattle.ap_standing.specs.Laws.{IsTurn, KeepsStanding};
ghost use Rattle.ap_control.specs.Heads.{PassesOver};
ghost use Rattle.ap_control.specs.Taking.{CanTake};
ghost use Rattle.ap_control.specs.Choosing.{AreLeftFrom, IsTold, IsChosen, possible_places};
ghost use Rattle.ap_machine.specs.View.{IsFor};
ghost use Rattle.ap_machine.specs.Live.{UnifiesAtNewest, KeepsLive};
ghost use Rattle.ap_machine.specs.Choices.{Stays, AtNewest, Returned, LeavesOut, places_of, called_point, points_left};
ghost use Rattle.ap_machine.specs.Lasting.{moves_left};
ghost use Rattle.ap_machine.specs.Back.{CanGoBack, WentBack};

use crate::state::{Now, Search};
use crate::words::{narrow, narrow_some, widen_some};
use ap_cells::{CellMark, Cells};
use ap_codecheck::Sound;
use ap_control::{Alternative, Chosen, Possible, Told, can_take, choose, next_possible, only};
use ap_environments::{Choice, Environments, clear_y};
use ap_instr::{Code, Predicate};
use ap_needs::Room;
use ap_term::NoMemory;
use ap_unify::Work;

/// A predicate of the table.
pub(crate) fn predicate_at(code: &Code, number: u32) -> Option<Predicate>
    ensures { result ≡ slice_get code.now.predicates number }
{
    code.predicates().get(number as usize).copied()
}

/// Goes back to the newest choice point.
#[inline(always)]
fn back_to_newest(cells: &mut Cells, environments: &mut Environments, x: &mut [u32], y: &mut [u32])
    requires { CanGoBack cells.old environments.old.moments (length x.old) }
    ensures back { (m : Moment) (ms : List Moment) → environments.old.moments ≡ m ∷ ms → WentBack cells.old cells.new environments.old environments.new x.new y.new m }
    ensures x_len { length x.new ≡ length x.old }
    ensures y_len { length y.new ≡ length y.old }
{
    if let Some(choice) = environments.newest() {
        cells.undo_to(CellMark {
            cells: choice.cells as usize,
            trail: choice.trail as usize,
        });
        environments.go_back(x);
        clear_y(y);
    }
}

/// Whether the clause at a place can be taken, and back to the newest choice point.
#[inline(never)]
fn run_and_go_back(
    cells: &mut Cells,
    environments: &mut Environments,
    x: &mut [u32],
    y: &mut [u32],
    code: &Code,
    at: usize,
    work: &mut Work,
) -> Result<bool, NoMemory>
    requires room { room (drop at code.now.instructions) ≤ cells.old.spare }
    requires targets { (p : ℕ) → AllHaveTargets (drop p code.now.instructions) (length x.old) (length y.old) }
    requires holds_x { HoldPlaces (length cells.old.cells) x.old }
    requires holds_y { HoldPlaces (length cells.old.cells) y.old }
    requires back { CanGoBack cells.old environments.old.moments (length x.old) }
    ensures taken { IfOk result (λ b. b ≡ true → CanTake code.now cells.old.cells (held x.old) at) }
    ensures stuck { IfOk result (λ b. b ≡ false → IsStuck cells.old.cells (held x.old) (held y.old) (steps_from code.now at)) }
    ensures back { (w : Store) × Keeps cells.old w × ((m : Moment) (ms : List Moment) → environments.old.moments ≡ m ∷ ms → WentBack w cells.new environments.old environments.new x.new y.new m) }
    ensures x_len { length x.new ≡ length x.old }
    ensures y_len { length y.new ≡ length y.old }
{
    let outcome = can_take(cells, x, y, code, at, work);
    back_to_newest(cells, environments, x, y);
    outcome
}

impl Search {
    /// The clauses of a predicate that a call on the argument registers may enter, where those from a choice on are left.
    fn chosen(&self, sound: &Sound, predicate: &Predicate, from: usize) -> Option<Chosen>
        requires { AreLeftFrom sound.now self.now.machine.cells (held self.now.machine.x) predicate.now from }
        ensures none { result ≡ None → PassesOver sound.now self.now.machine.cells (held self.now.machine.x) (clause_places sound.now predicate.now) [] }
        ensures some { IfSome result (IsChosen sound.now self.now.machine.cells (held self.now.machine.x) predicate.now.arity (clause_places sound.now predicate.now)) }
    {
        choose(&self.cells, &self.x, sound, predicate, from)
    }

    /// The next clause behind a choice that isn't passed over on the argument registers.
    fn possible(&self, sound: &Sound, behind: Option<usize>) -> Option<Possible>
        ensures passes { PassesOver sound.now self.now.machine.cells (held self.now.machine.x) (places_from sound.now behind) (possible_places sound.now result) }
        ensures sure { IfSome result (λ p. p.sure ≡ true → CanTake sound.now self.now.machine.cells (held self.now.machine.x) p.alternative.place) }
    {
        next_possible(&self.cells, &self.x, u8::MAX, sound, behind)
    }

    /// Keeps a choice point for the call of a predicate of so many arguments.
    fn keep(&mut self, number: u32, arity: u8, left: Alternative) -> Result<(), NoMemory>
        requires { arity < length self.old.machine.x }
        ensures ok { OnOk result (self.new ≡ record self.old { machine = record self.old.machine { points = called_point number arity left self.old.machine ∷ self.old.machine.points } }) }
        ensures err { OnErr result (self.new ≡ self.old) }
    {
        self.cells.is_store();
        let mark = self.cells.mark();
        let choice = Choice {
            cells: narrow(mark.cells)?,
            trail: narrow(mark.trail)?,
            predicate: number,
            place: left.place,
            behind: narrow_some(left.behind)?,
        };
        let arguments = &self.x[..arity as usize + 1];
        self.environments.keep(choice, arguments)?;
        Ok(())
    }

    /// The clauses of a predicate that are left for a call on the argument registers, as far as that is told at once.
    #[inline(always)]
    fn only(&self, sound: &Sound, predicate: &Predicate) -> Told
        ensures { IsTold sound.now self.now.machine.cells (held self.now.machine.x) predicate.now result }
    {
        only(&self.cells, &self.x, sound, predicate)
    }

    /// Enters a predicate of the table of which several clauses may be left for the call, from a choice on.
    #[inline(never)]
    fn enter_chosen(
        &mut self,
        sound: &Sound,
        number: u32,
        predicate: Predicate,
        from: usize,
    ) -> Result<(), NoMemory>
        requires due { self.old.machine.now ≡ calling number }
        requires is_for { IsFor sound.now self.old }
        requires known { slice_get sound.now.predicates number ≡ Some predicate }
        requires from { AreLeftFrom sound.now self.old.machine.cells (held self.old.machine.x) predicate from }
        ensures turn { OnOk result ((p : Program) (q : PredicateOf) → slice_get sound.now.predicates number ≡ Some q → IsProgram p → StandsFor sound.now p → IsTurn sound.now p self.old.machine self.new.machine) }
        ensures kept { OnErr result (self.new ≡ self.old) }
        ensures stays { Stays self.old self.new }
        ensures live { KeepsLive sound.now self.old.machine self.new.machine }
    {
        match self.chosen(sound, &predicate, from) {
            None => self.fail(),
            Some(Chosen::Only(place)) => self.resume(place as usize),
            Some(Chosen::First(first, second)) => {
                if second.sure {
                    self.keep(number, predicate.arity, second.alternative)?;
                    self.resume(first.place as usize);
                } else {
                    self.keep(number, predicate.arity, first)?;
                    self.fail();
                }
            }
        }
        Ok(())
    }

    /// Enters a predicate of the table, which is a turn. Clauses that fail at once are passed over, and control goes right
    /// inside the first one that is left; a choice point keeps the next one, where its head surely unifies with the call.
    /// Where that isn't sure, the choice point keeps both, and is gone back to. Without memory nothing changes.
    #[inline(always)]
    pub(crate) fn enter(&mut self, sound: &Sound, number: u32) -> Result<(), NoMemory>
        requires due { self.old.machine.now ≡ calling number }
        requires is_for { IsFor sound.now self.old }
        ensures turn { OnOk result ((p : Program) (q : PredicateOf) → slice_get sound.now.predicates number ≡ Some q → IsProgram p → StandsFor sound.now p → IsTurn sound.now p self.old.machine self.new.machine) }
        ensures kept { OnErr result (self.new ≡ self.old) }
        ensures stays { Stays self.old self.new }
        ensures live { KeepsLive sound.now self.old.machine self.new.machine }
    {
        let code = sound.code();
        let Some(predicate) = predicate_at(code, number) else {
            self.fail();
            return Ok(());
        };
        match self.only(sound, &predicate) {
            Told::Only(place) => {
                self.resume(place as usize);
                Ok(())
            }
            Told::From(from) => self.enter_chosen(sound, number, predicate, from),
            Told::Never => {
                self.fail();
                Ok(())
            }
        }
    }

    /// The newest choice point.
    fn newest(&self) -> Option<Choice>
        ensures none { result ≡ None → self.now.machine.points ≡ [] }
        ensures some { IfSome result (λ c. (q : Point) × (qs : List Point) × (self.now.machine.points ≡ q ∷ qs) × (q.place ≡ c.place) × (q.behind ≡ c.behind)) }
    {
        self.environments.newest()
    }

    /// Goes back to the newest choice point.
    fn go_back(&mut self)
        requires { (q : Point) × (qs : List Point) × (self.old.machine.points ≡ q ∷ qs) }
        ensures { Returned self.old self.new }
    {
        back_to_newest(
            &mut self.cells,
            &mut self.environments,
            &mut self.x,
            &mut self.y,
        );
    }

    /// Whether the clause at a place can be taken at the newest choice point, where the search stands.
    fn try_clause(&mut self, code: &Code, room: &Room, place: u32) -> Result<bool, NoMemory>
        requires is_for { IsFor code.now self.old }
        requires room { IsRoomOf code.now room.now }
        requires at { AtNewest self.old.machine }
        ensures taken { IfOk result (λ b. b ≡ true → CanTake code.now self.old.machine.cells (held self.old.machine.x) place) }
        ensures stuck { IfOk result (λ b. b ≡ false → IsStuck self.old.machine.cells (held self.old.machine.x) (held self.old.machine.y) (steps_from code.now place)) }
        ensures back { Returned self.old self.new }
    {
        self.cells.reserve(room.cells)?;
        run_and_go_back(
            &mut self.cells,
            &mut self.environments,
            &mut self.x,
            &mut self.y,
            code,
            place as usize,
            &mut self.work,
        )
    }

    /// The first clause behind a choice whose head unifies with the call of the newest choice point. A head that surely does isn't
    /// run for that.
    fn next_match(
        &mut self,
        sound: &Sound,
        behind: Option<usize>,
    ) -> Result<Option<Alternative>, NoMemory>
        requires is_for { IsFor sound.now self.old }
        requires at { AtNewest self.old.machine }
        ensures left { IfOk result (λ found. LeavesOut sound.now self.old.machine (places_from sound.now behind) (places_of sound.now found)) }
        ensures live { IfOk result (λ found. IfSome found (λ a. UnifiesAtNewest sound.now self.old.machine a.place)) }
        ensures back { Returned self.old self.new }
    {
        let code = sound.code();
        let mut rest = behind;
        while let Some(found) = self.possible(sound, rest) {
            let alternative = found.alternative;
            if found.sure {
                return Ok(Some(alternative));
            }
            if self.try_clause(code, sound.room(), alternative.place)? {
                return Ok(Some(alternative));
            }
            rest = alternative.behind;
        }
        Ok(None)
    }

    /// The newest choice point names these clauses. Without memory nothing changes.
    fn set_place(&mut self, place: u32, behind: Option<usize>) -> Result<(), NoMemory>
        requires { (q : Point) × (qs : List Point) × (self.old.machine.points ≡ q ∷ qs) }
        ensures ok { OnOk result ((q : Point) (qs : List Point) → self.old.machine.points ≡ q ∷ qs → self.new ≡ record self.old { machine = record self.old.machine { points = record q { place = place; behind = behind } ∷ qs } }) }
        ensures err { OnErr result (self.new ≡ self.old) }
    {
        let behind = narrow_some(behind)?;
        self.environments.set_place(place, behind);
        Ok(())
    }

    /// Forgets the newest choice point.
    fn forget(&mut self)
        requires { (q : Point) × (qs : List Point) × (self.old.machine.points ≡ q ∷ qs) }
        ensures { (q : Point) (qs : List Point) → self.old.machine.points ≡ q ∷ qs → self.new ≡ record self.old { machine = record self.old.machine { points = qs } } }
    {
        self.environments.forget();
    }

    /// Leaves an alternative of the newest choice point, with those behind it. Without memory nothing changes.
    fn leave(&mut self, found: Option<Alternative>) -> Result<(), NoMemory>
        requires { (q : Point) × (qs : List Point) × (self.old.machine.points ≡ q ∷ qs) }
        ensures ok { OnOk result ((q : Point) (qs : List Point) → self.old.machine.points ≡ q ∷ qs → self.new ≡ record self.old { machine = record self.old.machine { points = points_left found q qs } }) }
        ensures err { OnErr result (self.new ≡ self.old) }
    {
        match found {
            Some(alternative) => self.set_place(alternative.place, alternative.behind),
            None => {
                self.forget();
                Ok(())
            }
        }
    }

    /// Control is at a place in a clause.
    #[inline(always)]
    pub(crate) fn resume(&mut self, place: usize)
        ensures { self.new ≡ record self.old { machine = record self.old.machine { now = inside place } } }
    {
        self.next = Now::Inside(place);
    }

    /// Takes the next clause of the newest choice point, which stays only where the head of another one unifies. False
    /// where there is no choice point. Without memory the search is at the newest choice point, with all its clauses left.
    pub(crate) fn retry(&mut self, sound: &Sound) -> Result<bool, NoMemory>
        requires due { self.old.machine.now ≡ failed }
        requires is_for { IsFor sound.now self.old }
        ensures holds { KeepsStanding sound.now self.old.machine self.new.machine }
        ensures ended { result ≡ Ok false → (self.new ≡ self.old) × (self.old.machine.points ≡ []) }
        ensures live { KeepsLive sound.now self.old.machine self.new.machine }
        ensures fewer { result ≡ Ok true → moves_left sound.now self.new.machine < moves_left sound.now self.old.machine }
        ensures still { OnErr result (self.new.machine.now ≡ failed) }
        ensures stays { Stays self.old self.new }
    {
        let Some(choice) = self.newest() else {
            return Ok(false);
        };
        self.go_back();
        let found = self.next_match(sound, widen_some(choice.behind))?;
        self.leave(found)?;
        self.resume(choice.place as usize);
        Ok(true)
    }
}
