//! Moves that are no calls, up to what is due.

ghost use Rattle.std.specs.Prelude.{◌≡◌, ◌≤◌, ◌<◌, ◌⊎◌, length, Some, None, true, false, IfOk, IfSome, IfNone};
ghost use Rattle.ap_standing.specs.Machine.{calling, inside};
ghost use Rattle.ap_standing.specs.Laws.{KeepsStanding};
ghost use Rattle.ap_machine.specs.View.{IsFor};
ghost use Rattle.ap_machine.specs.Advanced.{GoesOn};
ghost use Rattle.ap_machine.specs.Live.{KeepsLive};
ghost use Rattle.ap_machine.specs.Choices.{Stays};
ghost use Rattle.ap_machine.specs.Lasting.{moves_left};
ghost use Rattle.ap_machine.specs.Due.{IsDue};

use crate::control::{is_known, jump_from};
use crate::direct::Value;
use crate::state::{Now, Search};
use ap_codecheck::Sound;
use ap_instr::{Builtin, Code};
use ap_term::NoMemory;

/// What is due.
#[derive(Clone, Copy)]
pub(crate) enum Due {
    /// A call of a predicate of the table.
    Call(u32),
    /// A built-in goal, which stands at a place.
    Goal(Builtin, usize),
    /// A goal of arithmetic behind which the code goes on at a place, and what it comes to.
    Direct(usize, Value),
    /// The search stands at an answer.
    Answer,
    /// No alternative is left.
    Nothing,
    /// A group, which begins at a place.
    Group(usize),
}

/// Where a run stops that begins at a place: the first place behind it, before the next transfer of control, at which a goal of arithmetic
/// begins. `first` is the first such place from it on; where that is the place itself, its goal is put as a whole.
#[inline(always)]
fn stop_behind(sound: &Sound, at: usize, first: usize) -> usize
    ensures { (at < result) ⊎ (length sound.now.instructions ≤ result) }
{
    if first > at {
        return first;
    }
    let places = sound.code().instructions().len();
    if at >= places {
        return places;
    }
    sound.stop(at + 1).max(at + 1)
}

impl Search {
    /// A predicate is to be called, which is due if the table has it.
    #[inline(always)]
    fn at_call(&mut self, code: &Code, number: u32) -> Option<Due>
        requires here { self.old.machine.now ≡ calling number }
        ensures holds { KeepsStanding code.now self.old.machine self.new.machine }
        ensures stays { Stays self.old self.new }
        ensures fewer { IfNone result (moves_left code.now self.new.machine < moves_left code.now self.old.machine) }
        ensures due { IfSome result (λ due. IsDue code.now self.new.machine due) }
        ensures points { self.new.machine.points ≡ self.old.machine.points }
    {
        if is_known(code, number) {
            return Some(Due::Call(number));
        }
        self.fail();
        None
    }

    /// Control is at a place in a clause, and goes on to a goal of arithmetic that can be solved straight from registers, or else to
    /// an instruction of control.
    #[inline(always)]
    fn go_inside(&mut self, sound: &Sound, at: usize) -> Result<Option<Due>, NoMemory>
        requires here { self.old.machine.now ≡ inside at }
        requires is_for { IsFor sound.now self.old }
        ensures holds { GoesOn sound.now self.old.machine self.new.machine }
        ensures stays { Stays self.old self.new }
        ensures fewer { IfOk result (λ found. IfNone found (moves_left sound.now self.new.machine < moves_left sound.now self.old.machine)) }
        ensures due { IfOk result (λ found. IfSome found (λ due. IsDue sound.now self.new.machine due)) }
        ensures points { self.new.machine.points ≡ self.old.machine.points }
    {
        let code = sound.code();
        let mut place = at;
        'goals: loop {
            let first = sound.stop(place);
            if first <= place {
                if let Some(due) = self.direct_due(sound, place) {
                    return Ok(Some(due));
                }
            }
            let stop = stop_behind(sound, place, first);
            let Some(to) = self.run(code, sound.room(), place, stop)? else {
                return Ok(None);
            };
            if to == stop {
                place = to;
                continue;
            }
            let Some(next) = jump_from(code, to) else {
                return self.transfer(code, to);
            };
            self.resume(next);
            place = next;
        }
    }

    /// One move that is no call, or what is due.
    #[inline(always)]
    fn go_on(&mut self, sound: &Sound) -> Result<Option<Due>, NoMemory>
        requires { IsFor sound.now self.old }
        ensures holds { GoesOn sound.now self.old.machine self.new.machine }
        ensures stays { Stays self.old self.new }
        ensures fewer { IfOk result (λ found. IfNone found (moves_left sound.now self.new.machine < moves_left sound.now self.old.machine)) }
        ensures due { IfOk result (λ found. IfSome found (λ due. IsDue sound.now self.new.machine due)) }
        ensures live { KeepsLive sound.now self.old.machine self.new.machine }
    {
        let code = sound.code();
        match self.now() {
            Now::Calling(number) => Ok(self.at_call(code, number)),
            Now::Inside(at) => self.go_inside(sound, at),
            Now::Returning => {
                if self.come_back() {
                    return Ok(None);
                }
                Ok(Some(Due::Answer))
            }
            Now::Failed => {
                if self.retry(sound)? {
                    return Ok(None);
                }
                Ok(Some(Due::Nothing))
            }
        }
    }

    /// Goes on, without a call, to what is due.
    #[inline(always)]
    pub(crate) fn find_due(&mut self, sound: &Sound) -> Result<Due, NoMemory>
        requires { IsFor sound.now self.old }
        ensures holds { GoesOn sound.now self.old.machine self.new.machine }
        ensures stays { Stays self.old self.new }
        ensures due { IfOk result (λ due. IsDue sound.now self.new.machine due) }
        ensures live { KeepsLive sound.now self.old.machine self.new.machine }
    {
        'moves: loop {
            if let Some(due) = self.go_on(sound)? {
                return Ok(due);
            }
        }
    }
}
