//! The search, one call after another.

ghost use Rattle.std.specs.Prelude.{◌≡◌, ◌+◌, ◌-◌, ◌^◌, ◌<◌, ◌≤◌, List, [], max, Bool, true, false, None, Some, Ok, IfOk, IfSome, IfNone, OnErr, slice_get};
ghost use Rattle.ap_tracked.specs.Tracked.{Tracked};
ghost use Rattle.ap_ledger.specs.Counts.{capped};
ghost use Rattle.ap_instr.specs.declared.instruction.Instr.TheVariants.{Builtin as builtin_instr};
ghost use Rattle.ap_instr.specs.declared.compiled.Predicate.{Predicate};
ghost use Rattle.ap_standing.specs.Machine.{calling, inside};
ghost use Rattle.ap_standing.specs.Holds.{Holds};
ghost use Rattle.ap_machine.specs.View.{Paused, IsFor};
ghost use Rattle.ap_machine.specs.Direct.{IsDirectDue};
ghost use Rattle.ap_machine.specs.Due.{IsDue};
ghost use Rattle.ap_machine.specs.Advanced.{Advanced};
ghost use Rattle.ap_machine.specs.Past.{AdvancedPast};
ghost use Rattle.ap_machine.specs.Ends.{IsHeldUp, Ends, AreStates};

use crate::direct::Value;
use crate::due::Due;
use crate::state::Search;
use ap_codecheck::Sound;
use ap_instr::{Builtin, Code};
use ap_ledger::Share;
use ap_term::NoMemory;

/// Why the search came back.
#[derive(Debug, Clone, Copy, PartialEq, Eq)]
pub enum Turn {
    /// The search stands at an answer.
    Answer,
    /// No alternative is left.
    Failed,
    /// The budget is spent, and another call is due.
    Spent,
    /// As many calls were made as were asked for, and another one is due.
    More,
    /// The hook asked for it.
    Stopped,
    /// The search stands at a group of goals.
    Group,
}

/// What asks a search to stop, and for its goals.
pub trait Hook {
    /// It was asked to stop, which stays so.
    ghost asked: { Self → Type 0 };

    /// Goals of groups are wanted, or they aren't, which stays so.
    ghost is_wanted: { Self → Bool };

    /// Whether it was asked to stop.
    fn poll(&mut self) -> bool
        ensures yes { result ≡ true → asked self.new }
        ensures no { result ≡ false → asked self.new → asked self.old }
        ensures stays { asked self.old → asked self.new }
        ensures wish { is_wanted self.new ≡ is_wanted self.old };

    /// Whether goals of groups are wanted by others. Where they aren't, a group runs its goals in turn.
    fn wants(&self) -> bool
        ensures { result ≡ is_wanted self.now };
}

impl Search {
    /// Makes a call of a predicate, and counts it.
    #[inline(always)]
    fn make_call(&mut self, sound: &Sound, number: u32) -> Result<(), NoMemory>
        requires is_for { IsFor sound.now self.old }
        requires due { (self.old.machine.now ≡ calling number) × ((q : Predicate) × (slice_get sound.now.predicates number ≡ Some q)) }
        requires fits { self.old.spent < 2 ^ 64 - 1 }
        ensures advanced { Advanced sound.now self.old self.new }
        ensures counted { IfOk result (λ _. self.new.spent ≡ self.old.spent + 1) }
        ensures err { OnErr result (self.new ≡ self.old) }
    {
        self.enter(sound, number)?;
        self.count();
        Ok(())
    }

    /// Solves a built-in goal, and counts it.
    #[inline(always)]
    fn make_goal(&mut self, code: &Code, builtin: Builtin, at: usize) -> Result<(), NoMemory>
        requires is_for { IsFor code.now self.old }
        requires due { (self.old.machine.now ≡ inside at) × (slice_get code.now.instructions at ≡ Some (builtin_instr builtin)) }
        requires fits { self.old.spent < 2 ^ 64 - 1 }
        ensures advanced { Advanced code.now self.old self.new }
        ensures counted { IfOk result (λ _. self.new.spent ≡ self.old.spent + 1) }
        ensures err { OnErr result (self.new ≡ self.old) }
    {
        self.solve_builtin(code, builtin, at)?;
        self.count();
        Ok(())
    }

    /// Solves a goal of arithmetic, and counts it.
    #[inline(always)]
    fn make_direct(&mut self, code: &Code, value: Value, to: usize) -> Result<(), NoMemory>
        requires is_for { IsFor code.now self.old }
        requires due { IsDirectDue code.now self.old.machine value to }
        requires fits { self.old.spent < 2 ^ 64 - 1 }
        ensures advanced { Advanced code.now self.old self.new }
        ensures counted { IfOk result (λ _. self.new.spent ≡ self.old.spent + 1) }
        ensures err { OnErr result (self.new ≡ self.old) }
    {
        self.solve_direct(code, value, to)?;
        self.count();
        Ok(())
    }

    /// Why no call is made where one is due, if none is: the budget is spent, or as many calls were made as were asked for, or the hook
    /// asks for a stop.
    #[inline(always)]
    fn held_up<H: Hook>(&self, left: u64, hook: &mut H) -> Option<Turn>
        ensures held { IfSome result (λ end. IsHeldUp left self.now end) }
        ensures stopped { result ≡ Some Turn.Stopped → H.asked hook.new }
        ensures within { result ≡ None → self.now.spent < self.now.budget }
        ensures left { result ≡ None → 0 < left }
        ensures fits { self.now.budget < 2 ^ 64 }
        ensures asked { H.asked hook.old → H.asked hook.new }
        ensures wish { H.is_wanted hook.new ≡ H.is_wanted hook.old }
    {
        if self.is_spent() {
            return Some(Turn::Spent);
        }
        if left == 0 {
            return Some(Turn::More);
        }
        if hook.poll() {
            return Some(Turn::Stopped);
        }
        None
    }

    /// Goes on to what is due, and makes the call, or tells why not. So many calls may be made. Each kind of call asks for itself whether it is
    /// held up, so that what is due needn't be kept while that is asked.
    #[inline(always)]
    fn turn<H: Hook>(
        &mut self,
        sound: &Sound,
        left: u64,
        hook: &mut H,
    ) -> Result<Option<Turn>, NoMemory>
        requires { IsFor sound.now self.old }
        ensures advanced { Advanced sound.now self.old self.new }
        ensures within { self.new.spent ≤ max self.old.budget self.old.spent }
        ensures made { IfOk result (λ found. IfNone found ((self.new.spent ≡ self.old.spent + 1) × (0 < left))) }
        ensures none_made { IfOk result (λ found. IfSome found (λ _. self.new.spent ≡ self.old.spent)) }
        ensures few { self.new.spent ≤ self.old.spent + left }
        ensures end { IfOk result (λ found. IfSome found (λ end. Ends sound.now left self.old self.new end)) }
        ensures stopped { result ≡ Ok (Some Turn.Stopped) → H.asked hook.new }
        ensures asked { H.asked hook.old → H.asked hook.new }
        ensures wish { H.is_wanted hook.new ≡ H.is_wanted hook.old }
    {
        match self.find_due(sound)? {
            Due::Call(number) => {
                if let Some(end) = self.held_up(left, hook) {
                    return Ok(Some(end));
                }
                self.make_call(sound, number)?;
                Ok(None)
            }
            Due::Goal(builtin, at) => {
                if let Some(end) = self.held_up(left, hook) {
                    return Ok(Some(end));
                }
                self.make_goal(sound.code(), builtin, at)?;
                Ok(None)
            }
            Due::Direct(to, value) => {
                if let Some(end) = self.held_up(left, hook) {
                    return Ok(Some(end));
                }
                self.make_direct(sound.code(), value, to)?;
                Ok(None)
            }
            Due::Answer => Ok(Some(Turn::Answer)),
            Due::Nothing => Ok(Some(Turn::Failed)),
            Due::Group(_) => Ok(Some(Turn::Group)),
        }
    }

    /// Searches on, without a share. It goes past groups whose goals aren't wanted.
    fn advance_by<H: Hook>(
        &mut self,
        sound: &Sound,
        inferences: u64,
        hook: &mut H,
    ) -> Result<Turn, NoMemory>
        requires { IsFor sound.now self.old }
        ensures advanced { (past : List Paused) × (H.is_wanted hook.old ≡ true → past ≡ []) × AdvancedPast sound.now self.old past self.new }
        ensures is_for { IsFor sound.now self.new }
        ensures within { self.new.spent ≤ max self.old.budget self.old.spent }
        ensures few { self.new.spent ≤ self.old.spent + inferences }
        ensures more { self.old.spent ≤ self.new.spent }
        ensures end { IfOk result (λ turn. Ends sound.now inferences self.old self.new turn) }
        ensures wanted { result ≡ Ok Turn.Group → H.is_wanted hook.old ≡ true }
        ensures stopped { result ≡ Ok Turn.Stopped → H.asked hook.new }
        ensures asked { H.asked hook.old → H.asked hook.new }
        ensures wish { H.is_wanted hook.new ≡ H.is_wanted hook.old }
    {
        let mut left = inferences;
        // More groups than that are never passed.
        'groups: for _ in 0..u64::MAX {
            'turns: loop {
                match self.turn(sound, left, hook)? {
                    None => left -= 1,
                    Some(Turn::Group) if !hook.wants() => break,
                    Some(end) => return Ok(end),
                }
            }
            self.go_past(sound)?;
        }
        Err(NoMemory)
    }

    /// Searches on. It makes at most so many calls, before each of which it asks the hook, and adds their number to the share. Where goals
    /// of groups are wanted it stops at each group; else it goes past it, and calls its goals one after another. Without memory the search
    /// stands where its last call was made.
    pub fn advance<H: Hook>(
        &mut self,
        sound: &Sound,
        inferences: u64,
        hook: &mut H,
        share: &mut Share,
    ) -> Result<Turn, NoMemory>
        requires { IsFor sound.now self.old }
        // Whatever comes out, as many turns of the model were made as calls were counted.
        ensures advanced { (past : List Paused) × (H.is_wanted hook.old ≡ true → past ≡ []) × AdvancedPast sound.now self.old past self.new }
        ensures is_for { IsFor sound.now self.new }
        ensures within { self.new.spent ≤ max self.old.budget self.old.spent }
        ensures few { self.new.spent ≤ self.old.spent + inferences }
        ensures share { share.new ≡ capped (share.old + (self.new.spent - self.old.spent)) }
        ensures end { IfOk result (λ turn. Ends sound.now inferences self.old self.new turn) }
        ensures states { IfOk result (λ turn. (ss : List Tracked) → Holds sound.now self.new.machine ss → AreStates self.new.machine ss turn) }
        ensures wanted { result ≡ Ok Turn.Group → H.is_wanted hook.old ≡ true }
        ensures stopped { result ≡ Ok Turn.Stopped → H.asked hook.new }
        ensures asked { H.asked hook.old → H.asked hook.new }
        ensures wish { H.is_wanted hook.new ≡ H.is_wanted hook.old }
    {
        let before = self.spent();
        let turn = self.advance_by(sound, inferences, hook);
        share.add(self.spent() - before);
        self.roots_are_cells();
        turn
    }
}
