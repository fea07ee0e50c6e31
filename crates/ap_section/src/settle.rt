//! The frame at which a section stands is settled, or one of its slots redone.

ghost use Rattle.std.specs.Prelude.{◌≡◌, ℕ, ◌+◌, ◌-◌, ◌<◌, ◌≤◌, ◌^◌, [], true, false, length, take, Some, IfOk, IfSome, IfNone, OnErr};
ghost use Rattle.std.specs.List.{list_any, list_all};
ghost use Rattle.ap_instr.specs.Code.{Compiled};
ghost use Rattle.ap_frames.specs.declared.frame.Round.TheVariants.{Closed as ClosedRound};
ghost use Rattle.ap_frames.specs.declared.verdict.Verdict.TheVariants.{Wait as WaitVerdict, Joined as JoinedBy, Broken as BrokenBy};
ghost use Rattle.ap_frames.specs.Slots.{is_running, has_answer};
ghost use Rattle.ap_frames.specs.Verdicts.{next_redo};
ghost use Rattle.ap_tie.specs.Sections.{rows};
ghost use Rattle.ap_tied.specs.Ties.{Goes, stack_in};
ghost use Rattle.ap_tied.specs.Settling.{AreAnswersOf, IsRedoable};
ghost use Rattle.ap_tied.specs.SlotCalls.{held_in, gone_on};
ghost use Rattle.ap_section.specs.Views.{view_of, spent_in, budget_in};
ghost use Rattle.ap_section.specs.Ready.{IsReady, IsShut};
ghost use Rattle.ap_section.specs.Slots.{IsAtFrame, IsPlaceIn, verdict_in, slots_in, told_of, round_in, taken_in, held_spent, is_held, IsGoneOn};
ghost use Rattle.ap_section.specs.Settles.{HasCharged, IsSettled, lacks_section};
ghost use Rattle.ap_section.specs.Owed.{OwesNoMore};
ghost use Rattle.ap_section.specs.Closes.{IsStandAnswer, AreSlotAnswers, HasFrame, IsAtFirst, closed_in, charged_in, IsForgotten, IsBack, IsRejoined, stays_by, stays_in, IsNearlyReady, MayBreak, CannotBreak, IsOutcome};

use crate::pool::Pool;
use crate::section::Section;
use ap_copy::Parcelled;
use ap_frames::{Round, Slot, Stand, Verdict};
use ap_term::NoMemory;
use ap_tied::settling_law;

/// What became of a frame.
#[derive(Debug, Clone, Copy, PartialEq, Eq)]
pub enum Settled {
    /// Nothing: it can't be settled yet.
    Open,
    /// Its answers were copied in, and the section goes on behind the group.
    Joined,
    /// It has failed, and the section goes on where it was forked.
    Broken,
    /// Nothing: the budget is spent.
    Spent,
    /// Nothing: its round is closed, and that slot is to be redone.
    Redo(usize),
}

/// Copies out the answer at which the section of a slot stands; None where it holds none.
fn answer_of(slot: &Slot<Section, Parcelled>) -> Result<Option<Parcelled>, NoMemory>
    ensures answer { IfOk result (λ found. IfSome found (λ parcel. IsStandAnswer slot.now.stand parcel)) }
    ensures none { IfOk result (λ found. IfNone found (lacks_section slot.now ≡ true)) }
{
    match &slot.stand {
        Stand::Answered(answer) => match &answer.section {
            Some(section) => Ok(Some(section.answer()?)),
            None => Ok(None),
        },
        _ => Ok(None),
    }
}

/// Copies out the answers of all slots into a list; None where one holds none.
fn answers_of(
    mut answers: Vec<Parcelled>,
    slots: &[Slot<Section, Parcelled>],
) -> Result<Option<Vec<Parcelled>>, NoMemory>
    requires { answers.items ≡ [] }
    ensures answers { IfOk result (λ found. IfSome found (λ answers. AreSlotAnswers slots.now answers.items)) }
    ensures none { IfOk result (λ found. IfNone found (list_any lacks_section slots.now ≡ true)) }
{
    for slot in slots {
        let Some(answer) = answer_of(slot)? else {
            return Ok(None);
        };
        answers.push(answer)?;
    }
    Ok(Some(answers))
}

/// Whether a slot runs.
fn some_run(slots: &[Slot<Section, Parcelled>]) -> bool
    ensures { result ≡ list_any is_running slots.now }
{
    slots.iter().any(|x| matches!(x.stand, Stand::Running(_)))
}

/// Whether each slot has an answer.
fn all_answered(slots: &[Slot<Section, Parcelled>]) -> bool
    ensures { result ≡ list_all has_answer slots.now }
{
    slots.iter().all(|x| matches!(x.stand, Stand::Answered(_) | Stand::Replayed(_)))
}

/// Whether each slot left of slot i has an answer.
fn left_answered(slots: &[Slot<Section, Parcelled>], i: usize) -> bool
    requires { (0 < i) × (i ≤ length slots.now) }
    ensures { result ≡ list_all has_answer (take (i - 1) slots.now) }
{
    all_answered(&slots[..i - 1])
}

/// Whether a frame stays when its round fails, by the slot that is redone next.
fn stays_by(round: Round, next: Option<usize>) -> bool
    ensures { result ≡ stays_by round next }
{
    matches!(round, Round::Later(_)) && next.is_some()
}

impl Section {
    /// Counts calls that were made in slots.
    fn charge(&mut self, cost: u64)
        requires { spent_in (view_of self.old) + cost < 2 ^ 64 }
        ensures charged { view_of self.new ≡ charged_in cost (view_of self.old) }
        ensures nearly { (code : Compiled) → IsNearlyReady code self.old → IsNearlyReady code self.new }
    {
        self.search.charge(cost);
    }

    /// Closes the round of the newest frame.
    fn close(&mut self)
        requires { HasFrame (stack_in (view_of self.old)) }
        ensures closed { view_of self.new ≡ closed_in (view_of self.old) }
        ensures ready { (code : Compiled) → IsNearlyReady code self.old → IsReady code self.new }
    {
        let newest = self.frames.len() - 1;
        self.frames[newest].close();
    }

    /// Forgets the newest frame with its fork.
    fn forget(&mut self, pool: &mut Pool)
        requires { IsAtFirst (view_of self.old) }
        ensures forgotten { IsForgotten (view_of self.old) (view_of self.new) }
        ensures ready { (code : Compiled) → IsNearlyReady code self.old → IsReady code self.new }
    {
        self.search.forget_fork();
        pool.put_frame(self.frames.pop());
    }

    /// Copies answers of the newest frame's goals in. Where they can't be met, and without memory, the search is at the fork.
    fn rejoin(&mut self, answers: &[Parcelled]) -> Result<bool, NoMemory>
        requires { IsAtFirst (view_of self.old) }
        ensures met { IfOk result (λ met. IsRejoined (view_of self.old) answers.now (view_of self.new) met) }
        ensures back { OnErr result (IsBack (view_of self.old) (view_of self.new)) }
        ensures nearly { (code : Compiled) → IsNearlyReady code self.old → IsNearlyReady code self.new }
    {
        self.search.rejoin(answers)
    }

    /// Whether so many calls more can be counted.
    fn has_room(&self, cost: u64) -> bool
        ensures { result ≡ true → spent_in (view_of self.now) + cost < 2 ^ 64 }
    {
        cost <= u64::MAX - self.spent()
    }

    /// Copies out the answers of the newest frame's slots into a list; None where a slot holds none.
    fn answers(&self, list: Vec<Parcelled>) -> Result<Option<Vec<Parcelled>>, NoMemory>
        requires at { IsAtFrame (view_of self.now) }
        requires none { list.items ≡ [] }
        ensures answers { IfOk result (λ found. IfSome found (λ answers. AreAnswersOf (slots_in (view_of self.now)) answers.items)) }
        ensures none { IfOk result (λ found. IfNone found (list_any lacks_section (rows (slots_in (view_of self.now))) ≡ true)) }
    {
        let newest = self.frames.len() - 1;
        answers_of(list, &self.frames[newest].slots)
    }

    /// Whether a slot of the newest frame runs.
    fn runs(&self) -> bool
        requires { IsAtFrame (view_of self.now) }
        ensures { result ≡ list_any is_running (rows (slots_in (view_of self.now))) }
    {
        let newest = self.frames.len() - 1;
        some_run(&self.frames[newest].slots)
    }

    /// Whether the newest frame stays when its round fails.
    fn stays(&self) -> bool
        requires { IsAtFrame (view_of self.now) }
        ensures { result ≡ stays_in (view_of self.now) }
    {
        let newest = self.frames.len() - 1;
        let frame = &self.frames[newest];
        stays_by(frame.round, frame.next_redo())
    }

    /// Whether each slot left of the one that is redone next has an answer.
    fn is_redoable(&self) -> bool
        requires { IsAtFrame (view_of self.now) }
        ensures redoable { result ≡ true → IsRedoable (rows (slots_in (view_of self.now))) }
        ensures none { result ≡ false → IsRedoable (rows (slots_in (view_of self.now))) → ⊥ }
    {
        let newest = self.frames.len() - 1;
        let frame = &self.frames[newest];
        match frame.next_redo() {
            Some(i) => left_answered(&frame.slots, i),
            None => true,
        }
    }

    /// Whether no slot of the newest frame runs, and a frame that stays can be redone.
    fn may_break(&self, stays: bool) -> bool
        requires { IsAtFrame (view_of self.now) }
        ensures done { result ≡ true → MayBreak stays (slots_in (view_of self.now)) }
        ensures waits { result ≡ false → CannotBreak stays (slots_in (view_of self.now)) }
    {
        if self.runs() {
            return false;
        }
        if !stays {
            return true;
        }
        self.is_redoable()
    }

    /// Joins the newest frame, each of whose goals has an answer.
    fn settle_joined(&mut self, pool: &mut Pool, cost: u64) -> Result<Settled, NoMemory>
        requires at { IsAtFrame (view_of self.old) }
        requires joined { verdict_in (view_of self.old) ≡ JoinedBy cost }
        ensures { IsOutcome self.old self.new result }
    {
        settling_law();
        if !self.has_room(cost) {
            return Err(NoMemory);
        }
        let Some(answers) = self.answers(pool.take_list())? else {
            return Ok(Settled::Open);
        };
        if !self.rejoin(&answers)? {
            return Ok(Settled::Open);
        }
        pool.give_list(answers);
        self.charge(cost);
        self.close();
        Ok(Settled::Joined)
    }

    /// Breaks the newest frame, where no slot runs: it is forgotten, or closed where a slot is redone again.
    fn settle_broken(&mut self, pool: &mut Pool, cost: u64) -> Result<Settled, NoMemory>
        requires at { IsAtFrame (view_of self.old) }
        requires broken { verdict_in (view_of self.old) ≡ BrokenBy cost }
        ensures { IsOutcome self.old self.new result }
    {
        settling_law();
        if !self.has_room(cost) {
            return Err(NoMemory);
        }
        let stays = self.stays();
        if !self.may_break(stays) {
            return Ok(Settled::Open);
        }
        self.charge(cost);
        if stays {
            self.close();
            return Ok(Settled::Broken);
        }
        self.forget(pool);
        Ok(Settled::Broken)
    }

    /// Finds the slot of a closed frame that is redone next, whose section can count all calls that are left.
    fn find_redo(&self) -> Result<Settled, NoMemory>
        requires at { IsAtFrame (view_of self.now) }
        requires waits { verdict_in (view_of self.now) ≡ WaitVerdict }
        ensures { IsOutcome self.now self.now result }
    {
        let newest = self.frames.len() - 1;
        let frame = &self.frames[newest];
        if frame.round != Round::Closed {
            return Ok(Settled::Open);
        }
        let Some(i) = frame.next_redo() else {
            return Ok(Settled::Open);
        };
        let Some(section) = frame.section(i) else {
            return Ok(Settled::Open);
        };
        if section.spent() > u64::MAX - self.rest() {
            return Err(NoMemory);
        }
        Ok(Settled::Redo(i))
    }

    /// Settles the newest frame by the verdict on its round.
    fn settle_by(&mut self, pool: &mut Pool, verdict: Verdict) -> Result<Settled, NoMemory>
        requires at { IsAtFrame (view_of self.old) }
        requires verdict { verdict ≡ verdict_in (view_of self.old) }
        ensures { IsOutcome self.old self.new result }
    {
        match verdict {
            Verdict::Joined(cost) => self.settle_joined(pool, cost),
            Verdict::Broken(cost) => self.settle_broken(pool, cost),
            Verdict::Spent => Ok(Settled::Spent),
            Verdict::Wait => self.find_redo(),
            _ => Ok(Settled::Open),
        }
    }

    /// Settles the frame at which the section stands, and charges what its round cost. Without memory the section is still
    /// there.
    pub fn settle(&mut self, pool: &mut Pool) -> Result<Settled, NoMemory>
        requires { IsAtFrame (view_of self.old) }
        ensures goes { (code : Compiled) → IsReady code self.old → Goes code (view_of self.old) (view_of self.new) }
        ensures settled { IfOk result (λ settled. IsSettled (view_of self.old) (view_of self.new) settled) }
        ensures err { OnErr result (IsAtFrame (view_of self.new) × (stack_in (view_of self.new) ≡ stack_in (view_of self.old)) × HasCharged 0 (view_of self.old) (view_of self.new)) }
        ensures ready { (code : Compiled) → IsReady code self.old → IsReady code self.new }
        ensures owes { (code : Compiled) → IsReady code self.old → OwesNoMore (view_of self.old) (view_of self.new) }
    {
        self.settle_by(pool, self.verdict())
    }

    /// Goes on behind the answer at which it stands, with so many calls to make.
    fn leave_answer(&mut self, rest: u64)
        requires { spent_in (view_of self.old) + rest < 2 ^ 64 }
        ensures goes_on { view_of self.new ≡ gone_on rest (view_of self.old) }
        ensures ready { (code : Compiled) → IsShut code self.old → IsReady code self.new }
    {
        self.search.redo();
        self.search.grant(rest);
    }

    /// Takes the section of a slot that is redone. It goes on behind its answer, with all calls that are left.
    pub fn take_section(&mut self, i: usize) -> Section
        requires at { IsAtFrame (view_of self.old) }
        requires closed { round_in (view_of self.old) ≡ ClosedRound }
        requires redo { next_redo (rows (slots_in (view_of self.old))) ≡ Some i }
        requires there { is_held (held_in i (slots_in (view_of self.old))) ≡ true }
        requires fits { held_spent (held_in i (slots_in (view_of self.old))) + (budget_in (view_of self.old) - spent_in (view_of self.old)) < 2 ^ 64 }
        ensures taken { view_of self.new ≡ taken_in i (view_of self.old) }
        ensures section { IsGoneOn (budget_in (view_of self.old) - spent_in (view_of self.old)) (held_in i (slots_in (view_of self.old))) (view_of result) }
        ensures at_frame { IsAtFrame (view_of self.new) }
        ensures place { IsPlaceIn i (view_of self.new) }
        ensures runs { told_of is_running i (view_of self.new) ≡ true }
        ensures ready { (code : Compiled) → IsReady code self.old → IsReady code self.new × IsReady code result }
    {
        let newest = self.frames.len() - 1;
        let rest = self.search.rest();
        let mut section = self.frames[newest].take_section(i, rest);
        section.leave_answer(rest);
        section
    }
}
