//! The section, one move after another.

ghost use Rattle.std.specs.Prelude.{◌≡◌, ◌+◌, ◌-◌, ◌<◌, ◌≤◌, max, length, true, false, Ok, Some, None, IfOk, IfSome};
ghost use Rattle.ap_term.specs.Blocks.{IsPrefix};
ghost use Rattle.ap_instr.specs.Code.{Compiled};
ghost use Rattle.ap_machine.specs.View.{Paused};
ghost use Rattle.ap_machine.specs.Stands.{IsAtEnd, IsAtGroup};
ghost use Rattle.ap_machine.specs.Forking.{HasForked, HasGoneOn};
ghost use Rattle.ap_tie.specs.Sections.{machine_in};
ghost use Rattle.ap_ledger.specs.Counts.{capped};
ghost use Rattle.ap_tied.specs.Ties.{Goes};
ghost use Rattle.ap_section.specs.Views.{view_of, spent_in, budget_in};
ghost use Rattle.ap_section.specs.declared.section.Section.{out-Section};
ghost use Rattle.ap_section.specs.Ready.{IsReady, IsShut};
ghost use Rattle.ap_section.specs.Slots.{IsAtDueFrame};
ghost use Rattle.ap_section.specs.Lending.{frames_in, count_in};
ghost use Rattle.ap_section.specs.Moving.{HasMoved, IsOpened, IsEndedBy, IsRested, GoesPast};
ghost use Rattle.ap_section.specs.Ends.{Ends};
ghost use Rattle.ap_section.specs.Owed.{owed};

use crate::pool::Pool;
use crate::section::Section;
use ap_codecheck::Sound;
use ap_copy::Parcelled;
use ap_frames::{Frame, Round};
use ap_ledger::Share;
use ap_machine::{Hook, Turn as SearchTurn};
use ap_term::NoMemory;
use ap_tied::reaching_law;

/// No group has more goals.
const MOST_GOALS: usize = 255;

/// Why the section came back.
#[derive(Debug, Clone, Copy, PartialEq, Eq)]
pub enum Turn {
    /// It stands at an answer.
    Answer,
    /// No alternative is left.
    Failed,
    /// The budget is spent, and another call is due.
    Spent,
    /// As many calls were made as were asked for, and another one is due.
    More,
    /// The hook asked for it.
    Stopped,
    /// It stands at its newest frame, which is to be settled.
    Fork,
}

/// Whether a round is over.
pub(crate) fn is_over(round: Round) -> bool
    ensures over { result ≡ true → round ≡ Round.Closed }
    ensures open { result ≡ false → round ≡ Round.Closed → ⊥ }
{
    match round {
        Round::Closed => true,
        _ => false,
    }
}

impl Section {
    /// Whether the newest frame's round is open.
    fn is_open(&self) -> bool
        ensures open { result ≡ true → (code : Compiled) → IsReady code self.now → IsAtDueFrame (view_of self.now) }
        ensures shut { result ≡ false → (code : Compiled) → IsReady code self.now → IsShut code self.now }
    {
        match self.frames.last() {
            Some(frame) => !is_over(frame.round),
            None => false,
        }
    }

    /// Makes a frame for the group at which the search stands, in memory of the pool.
    fn open_frame(
        &self,
        sound: &Sound,
        pool: &mut Pool,
    ) -> Result<Frame<Section, Parcelled>, NoMemory>
        requires here { IsAtGroup sound.now (out-Section self.now).search.machine }
        ensures { IfOk result (λ frame. (t : Paused) → (forked : HasForked sound.now (out-Section self.now).search t) → IsOpened (length forked.forked.goals) ((out-Section self.now).search.budget - (out-Section self.now).search.spent) frame) }
    {
        let goals = self.search.group_goals(sound);
        if goals > MOST_GOALS {
            return Err(NoMemory);
        }
        // None of them meets a fault.
        let quiet = [false; MOST_GOALS];
        Frame::open(
            pool.take_slots(),
            goals,
            self.search.rest(),
            &quiet[..goals],
        )
    }

    /// Forks the group at which the search stands, or goes past it. The frame comes first, so that no fork is without one.
    fn fork(&mut self, sound: &Sound, pool: &mut Pool) -> Result<bool, NoMemory>
        requires shut { IsShut sound.now self.old }
        requires here { IsAtGroup sound.now (machine_in (view_of self.old)) }
        ensures moved { HasMoved sound.now (view_of self.old) (view_of self.new) }
        ensures spent { spent_in (view_of self.new) ≡ spent_in (view_of self.old) }
        ensures ready { IsReady sound.now self.new }
        ensures forked { result ≡ Ok true → IsAtDueFrame (view_of self.new) }
        ensures gone_on { result ≡ Ok false → HasGoneOn sound.now (out-Section self.old).search (out-Section self.new).search }
        ensures frames { result ≡ Ok false → frames_in self.new ≡ frames_in self.old }
    {
        reaching_law();
        let frame = self.open_frame(sound, pool)?;
        self.frames.reserve(1)?;
        let forked = self.search.fork(sound)?;
        if forked {
            self.frames.push_reserved(frame);
        } else {
            pool.put_frame(Some(frame));
        }
        Ok(forked)
    }

    /// Comes back to the newest frame, where nothing newer is left to do. One that has no slot to redo is dropped.
    fn come_back(&mut self, pool: &mut Pool) -> Option<Turn>
        requires end { IsAtEnd (machine_in (view_of self.old)) }
        ensures moved { (code : Compiled) → IsShut code self.old → HasMoved code (view_of self.old) (view_of self.new) }
        ensures spent { (code : Compiled) → IsShut code self.old → spent_in (view_of self.new) ≡ spent_in (view_of self.old) }
        ensures ready { (code : Compiled) → IsShut code self.old → IsReady code self.new }
        ensures end { IfSome result (λ turn. (code : Compiled) → IsShut code self.old → IsRested code (view_of self.new) turn) }
        ensures running { result ≡ Some Turn.Stopped → ⊥ }
        ensures frames { IsPrefix (frames_in self.new) (frames_in self.old) }
        ensures dropped { result ≡ None → count_in self.new < count_in self.old }
    {
        reaching_law();
        let Some(frame) = self.frames.last() else {
            return Some(Turn::Failed);
        };
        if frame.next_redo().is_some() {
            self.search.come_to_fork();
            return Some(Turn::Fork);
        }
        self.search.forget_fork();
        pool.put_frame(self.frames.pop());
        None
    }

    /// Searches on up to where the search comes to rest, past groups whose goals aren't wanted.
    fn search_on<H: Hook>(
        &mut self,
        sound: &Sound,
        left: u64,
        hook: &mut H,
    ) -> Result<SearchTurn, NoMemory>
        requires { IsShut sound.now self.old }
        ensures moved { HasMoved sound.now (view_of self.old) (view_of self.new) }
        ensures shut { IsShut sound.now self.new }
        ensures within { spent_in (view_of self.new) ≤ max (budget_in (view_of self.old)) (spent_in (view_of self.old)) }
        ensures few { spent_in (view_of self.new) ≤ spent_in (view_of self.old) + left }
        ensures end { IfOk result (λ turn. IsEndedBy sound.now left (view_of self.old) (view_of self.new) turn) }
        ensures frames { frames_in self.new ≡ frames_in self.old }
        ensures group { result ≡ Ok SearchTurn.Group → H.is_wanted hook.old ≡ true }
        ensures stopped { result ≡ Ok SearchTurn.Stopped → H.asked hook.new }
        ensures asked { H.asked hook.old → H.asked hook.new }
        ensures wish { H.is_wanted hook.new ≡ H.is_wanted hook.old }
    {
        reaching_law();
        let mut counted = Share::new();
        self.search.advance(sound, left, hook, &mut counted)
    }

    /// Goes on to where it comes to rest, or past a group or a frame.
    fn move_on<H: Hook>(
        &mut self,
        sound: &Sound,
        left: u64,
        hook: &mut H,
        pool: &mut Pool,
    ) -> Result<Option<Turn>, NoMemory>
        requires { IsReady sound.now self.old }
        ensures moved { HasMoved sound.now (view_of self.old) (view_of self.new) }
        ensures ready { IsReady sound.now self.new }
        ensures within { spent_in (view_of self.new) ≤ max (budget_in (view_of self.old)) (spent_in (view_of self.old)) }
        ensures few { spent_in (view_of self.new) ≤ spent_in (view_of self.old) + left }
        ensures end { IfOk result (λ found. IfSome found (λ turn. Ends sound.now left (view_of self.old) (view_of self.new) turn)) }
        ensures stopped { result ≡ Ok (Some Turn.Stopped) → H.asked hook.new }
        ensures asked { H.asked hook.old → H.asked hook.new }
        ensures wish { H.is_wanted hook.new ≡ H.is_wanted hook.old }
        ensures wanted { result ≡ Ok None → H.is_wanted hook.old ≡ true → GoesPast sound.now self.old self.new }
        ensures unwanted { H.is_wanted hook.old ≡ false → IfOk result (λ _. IsPrefix (frames_in self.new) (frames_in self.old)) }
        ensures frames { result ≡ Ok None → IsPrefix (frames_in self.new) (frames_in self.old) }
    {
        reaching_law();
        if self.is_open() {
            return Ok(Some(Turn::Fork));
        }
        match self.search_on(sound, left, hook)? {
            SearchTurn::Answer => Ok(Some(Turn::Answer)),
            SearchTurn::Failed => Ok(self.come_back(pool)),
            SearchTurn::Spent => Ok(Some(Turn::Spent)),
            SearchTurn::More => Ok(Some(Turn::More)),
            SearchTurn::Stopped => Ok(Some(Turn::Stopped)),
            SearchTurn::Group => {
                if self.fork(sound, pool)? {
                    return Ok(Some(Turn::Fork));
                }
                Ok(None)
            }
        }
    }

    /// Goes on, without a share.
    fn advance_by<H: Hook>(
        &mut self,
        sound: &Sound,
        inferences: u64,
        hook: &mut H,
        pool: &mut Pool,
    ) -> Result<Turn, NoMemory>
        requires { IsReady sound.now self.old }
        ensures moved { HasMoved sound.now (view_of self.old) (view_of self.new) }
        ensures ready { IsReady sound.now self.new }
        ensures within { spent_in (view_of self.new) ≤ max (budget_in (view_of self.old)) (spent_in (view_of self.old)) }
        ensures few { spent_in (view_of self.new) ≤ spent_in (view_of self.old) + inferences }
        ensures end { IfOk result (λ turn. Ends sound.now inferences (view_of self.old) (view_of self.new) turn) }
        ensures stopped { result ≡ Ok Turn.Stopped → H.asked hook.new }
        ensures asked { H.asked hook.old → H.asked hook.new }
        ensures wish { H.is_wanted hook.new ≡ H.is_wanted hook.old }
        ensures unwanted { H.is_wanted hook.old ≡ false → IfOk result (λ _. IsPrefix (frames_in self.new) (frames_in self.old)) }
    {
        reaching_law();
        let before = self.spent();
        // More moves than that are never made.
        'moves: for _ in 0..u64::MAX {
            let left = inferences - (self.spent() - before);
            if let Some(turn) = self.move_on(sound, left, hook, pool)? {
                return Ok(turn);
            }
        }
        Err(NoMemory)
    }

    /// Goes on. It makes at most so many calls, before each of which it asks the hook, and adds their number to the share.
    /// Frames lie in memory of the pool, which is given back. Without memory it stands where its last move was made.
    pub fn advance<H: Hook>(
        &mut self,
        sound: &Sound,
        inferences: u64,
        hook: &mut H,
        share: &mut Share,
        pool: &mut Pool,
    ) -> Result<Turn, NoMemory>
        requires { IsReady sound.now self.old }
        ensures ready { IsReady sound.now self.new }
        // Whatever comes out, events of the core lead there.
        ensures goes { Goes sound.now (view_of self.old) (view_of self.new) }
        ensures more { spent_in (view_of self.old) ≤ spent_in (view_of self.new) }
        ensures budget { budget_in (view_of self.new) ≡ budget_in (view_of self.old) }
        ensures within { spent_in (view_of self.new) ≤ max (budget_in (view_of self.old)) (spent_in (view_of self.old)) }
        ensures few { spent_in (view_of self.new) ≤ spent_in (view_of self.old) + inferences }
        ensures owes { owed (view_of self.new) ≤ owed (view_of self.old) + (spent_in (view_of self.new) - spent_in (view_of self.old)) }
        ensures share { share.new ≡ capped (share.old + (spent_in (view_of self.new) - spent_in (view_of self.old))) }
        ensures end { IfOk result (λ turn. Ends sound.now inferences (view_of self.old) (view_of self.new) turn) }
        ensures stopped { result ≡ Ok Turn.Stopped → H.asked hook.new }
        ensures asked { H.asked hook.old → H.asked hook.new }
        ensures wish { H.is_wanted hook.new ≡ H.is_wanted hook.old }
        ensures unwanted { H.is_wanted hook.old ≡ false → IfOk result (λ _. IsPrefix (frames_in self.new) (frames_in self.old)) }
    {
        let before = self.spent();
        let turn = self.advance_by(sound, inferences, hook, pool);
        share.add(self.spent() - before);
        turn
    }
}
