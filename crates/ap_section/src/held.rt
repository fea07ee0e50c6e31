//! A search in a box, so that a section is moved in a few words. Its methods are the search's.

ghost use Rattle.std.specs.Prelude.{◌≡◌, ◌+◌, ◌-◌, ◌^◌, ◌<◌, ◌≤◌, List, [], ◌∷◌, length, false, true, IfOk, slice_get, Some, OnOk, OnErr, Ok, max};
ghost use Rattle.ap_term.specs.UpToNames.{SameUpToNames};
ghost use Rattle.ap_term.specs.Tree.{count_trees};
ghost use Rattle.ap_tracked.specs.Tracked.{Tracked};
ghost use Rattle.ap_instr.specs.Code.{Compiled};
ghost use Rattle.ap_standing.specs.Machine.{failed};
ghost use Rattle.ap_standing.specs.Holds.{Holds};
ghost use Rattle.ap_machine.specs.View.{IsFor, Segment, Paused};
ghost use Rattle.ap_machine.specs.Stands.{IsAtAnswer, tuple_of, IsAtGroup};
ghost use Rattle.ap_machine.specs.Lent.{terms_of};
ghost use Rattle.ap_cells.specs.Trees.{tree_at, trees};
ghost use Rattle.ap_group.specs.Groups.{Pushed};
ghost use Rattle.ap_term.specs.Tuples.{tuple_under};
ghost use Rattle.ap_machine.specs.Forks.{newest_goals, IsAtFork, IsBehindFork, Rejoined};
ghost use Rattle.ap_machine.specs.Forking.{HasForked, HasGoneOn};
ghost use Rattle.ap_ledger.specs.Counts.{capped};
ghost use Rattle.ap_machine.specs.Past.{AdvancedPast};
ghost use Rattle.ap_machine.specs.Ends.{Ends, AreStates};
ghost use Rattle.ap_instr.specs.declared.compiled.Predicate.{Predicate as PredicateOf};
ghost use Rattle.ap_machine.specs.Started.{Started};

use ap_codecheck::Sound;
use ap_copy::Parcelled;
use ap_ledger::Share;
use ap_machine::{Hook, Search, Tuple, Turn};
use ap_term::NoMemory;
use std::alloc::Global;
use std::marker::Model;

/// A search, seen as without its box.
#[derive(Drop)]
pub struct Held {
    search: Box<Search>,
}

impl Model for Held {
    ghost use Rattle.ap_machine.specs.View.{Paused};

    ghost Value = { Paused };

    ghost view = { λ a. a.search.value };
}

impl Held {
    /// A search for a goal of the code's table on the terms of a tuple, with so many calls to make. The query is entered
    /// without a call, and so is a built-in goal's predicate: the goal is the call.
    pub fn start(
        alloc: Global,
        sound: &Sound,
        tuple: &Parcelled,
        predicate: u32,
        rest: u64,
    ) -> Result<Held, NoMemory>
        requires { (q : PredicateOf) × (slice_get sound.now.predicates predicate ≡ Some q) × (q.arity ≡ count_trees tuple.now) }
        ensures { IfOk result (λ found. Started sound.now tuple.now predicate rest found) }
    {
        let search = Search::start(alloc, sound, tuple, predicate, rest)?;
        Ok(Held {
            search: Box::new(alloc, search)?,
        })
    }

    /// Begins a search as `start` does, in the memory of one that is done with.
    pub fn begin_anew(
        &mut self,
        sound: &Sound,
        tuple: &Parcelled,
        predicate: u32,
        rest: u64,
    ) -> Result<(), NoMemory>
        requires { (q : PredicateOf) × (slice_get sound.now.predicates predicate ≡ Some q) × (q.arity ≡ count_trees tuple.now) }
        ensures { OnOk result (Started sound.now tuple.now predicate rest self.new) }
    {
        self.search.begin_anew(sound, tuple, predicate, rest)
    }

    /// How many calls were made.
    pub fn spent(&self) -> u64
        ensures { result ≡ self.now.spent }
    {
        self.search.spent()
    }

    /// Counts the cells of its store, by which it is known how much a copy has cost.
    pub fn cells(&self) -> usize
        ensures { result ≡ length self.now.machine.cells }
    {
        self.search.cells()
    }

    /// Leaves so many calls to make.
    pub fn grant(&mut self, rest: u64)
        requires { self.old.spent + rest < 2 ^ 64 }
        ensures budget { self.new ≡ record self.old { budget = self.old.spent + rest } }
        ensures is_for { (code : Compiled) → IsFor code self.old → IsFor code self.new }
    {
        self.search.grant(rest);
    }

    /// Whether an alternative is left. At an answer that says whether another state is.
    pub fn has_more(&self) -> bool
        ensures none { result ≡ false → self.now.machine.points ≡ [] }
        ensures more { result ≡ true → (code : Compiled) → IsFor code self.now → IsAtAnswer self.now.machine → (s : Tracked) (ss : List Tracked) → Holds code self.now.machine (s ∷ ss) → ss ≡ [] → ⊥ }
        ensures last { result ≡ false → (code : Compiled) → IsAtAnswer self.now.machine → (s : Tracked) (ss : List Tracked) → Holds code self.now.machine (s ∷ ss) → ss ≡ [] }
    {
        self.search.has_more()
    }

    /// Leaves the answer at which it stands; the search goes on behind it.
    pub fn redo(&mut self)
        ensures failed { self.new ≡ record self.old { machine = record self.old.machine { now = failed } } }
        ensures is_for { (code : Compiled) → IsFor code self.old → IsFor code self.new }
        ensures left { IsAtAnswer self.old.machine → (code : Compiled) (s : Tracked) (ss : List Tracked) → Holds code self.old.machine (s ∷ ss) → Holds code self.new.machine ss }
    {
        self.search.redo();
    }

    /// Lends the tuple of the answer at which it stands.
    pub fn tuple(&self) -> Tuple<'_>
        ensures cells { result.cells.now.cells ≡ self.now.machine.cells }
        ensures roots { result.roots.now ≡ self.now.machine.roots }
        ensures tuple { terms_of result ≡ tuple_of self.now.machine }
        ensures answered { IsAtAnswer self.now.machine → (code : Compiled) (s : Tracked) (ss : List Tracked) → Holds code self.now.machine (s ∷ ss) → SameUpToNames (terms_of result) s.tuple }
    {
        self.search.tuple()
    }

    /// The tuple of the answer at which it stands.
    pub fn answer(&self) -> Result<Parcelled, NoMemory>
        ensures tuple { IfOk result (λ parcel. SameUpToNames parcel (tuple_of self.now.machine)) }
        ensures width { IfOk result (λ parcel. count_trees parcel ≡ length self.now.machine.roots) }
        ensures answered { IfOk result (λ parcel. IsAtAnswer self.now.machine → (code : Compiled) (s : Tracked) (ss : List Tracked) → Holds code self.now.machine (s ∷ ss) → SameUpToNames parcel s.tuple) }
    {
        self.search.answer()
    }

    /// Goes back to the newest fork, where nothing newer is left to do.
    pub fn come_to_fork(&mut self)
        requires failed { self.old.machine.now ≡ failed }
        requires newest { self.old.machine.points ≡ [] }
        ensures some { (g : Segment) (gs : List Segment) → self.old.older ≡ g ∷ gs → IsAtFork g (g ∷ gs) self.old self.new }
        ensures none { self.old.older ≡ [] → self.new ≡ self.old }
        ensures newest { self.new.machine.points ≡ [] }
        ensures is_for { (code : Compiled) → IsFor code self.old → IsFor code self.new }
    {
        self.search.come_to_fork();
    }

    /// Forgets the newest fork, where nothing newer is left to do: the choice points behind it are the newest then.
    pub fn forget_fork(&mut self)
        requires failed { self.old.machine.now ≡ failed }
        requires newest { self.old.machine.points ≡ [] }
        ensures some { (g : Segment) (gs : List Segment) → self.old.older ≡ g ∷ gs → IsBehindFork g gs self.old self.new }
        ensures none { self.old.older ≡ [] → self.new ≡ self.old }
        ensures is_for { (code : Compiled) → IsFor code self.old → IsFor code self.new }
    {
        self.search.forget_fork();
    }

    /// The predicate of a goal of the newest fork.
    pub fn predicate(&self, i: usize) -> u32
        requires newest { self.now.machine.points ≡ [] }
        requires place { i < length (newest_goals self.now.older) }
        ensures { (p : Pushed) × (slice_get (newest_goals self.now.older) i ≡ Some p) × (p.predicate ≡ result) }
    {
        self.search.predicate(i)
    }

    /// Copies out the arguments of a goal of the newest fork.
    pub fn parcel(&self, i: usize) -> Result<Parcelled, NoMemory>
        requires newest { self.now.machine.points ≡ [] }
        requires place { i < length (newest_goals self.now.older) }
        ensures { IfOk result (λ parcel. (p : Pushed) × (slice_get (newest_goals self.now.older) i ≡ Some p) × SameUpToNames parcel (tuple_under (tree_at (trees self.now.machine.cells)) p.arguments) × (count_trees parcel ≡ length p.arguments)) }
    {
        self.search.parcel(i)
    }

    /// Counts so many calls, which were made elsewhere.
    pub fn charge(&mut self, calls: u64)
        requires { self.old.spent + calls < 2 ^ 64 }
        ensures spent { self.new ≡ record self.old { spent = self.old.spent + calls } }
        ensures is_for { (code : Compiled) → IsFor code self.old → IsFor code self.new }
    {
        self.search.charge(calls);
    }

    /// How many calls are left to make.
    pub fn rest(&self) -> u64
        ensures { result ≡ self.now.budget - self.now.spent }
    {
        self.search.rest()
    }

    /// Copies answers of the newest fork's goals in, one of each goal. If they can all be met, the search goes on behind the
    /// group. Else, and without memory, it is at the fork.
    pub fn rejoin(&mut self, answers: &[Parcelled]) -> Result<bool, NoMemory>
        requires failed { self.old.machine.now ≡ failed }
        requires newest { self.old.machine.points ≡ [] }
        requires fork { 0 < length self.old.older }
        ensures met { IfOk result (λ met. (g : Segment) (gs : List Segment) → self.old.older ≡ g ∷ gs → Rejoined g answers.now self.old self.new met) }
        ensures err { OnErr result ((g : Segment) (gs : List Segment) → self.old.older ≡ g ∷ gs → IsAtFork g (g ∷ gs) self.old self.new) }
        ensures is_for { (code : Compiled) → IsFor code self.old → IsFor code self.new }
    {
        self.search.rejoin(answers)
    }

    /// Counts the goals of the group at which the search stands, as many as a fork there has.
    pub fn group_goals(&self, sound: &Sound) -> usize
        requires here { IsAtGroup sound.now self.now.machine }
        ensures { (t : Paused) (h : HasForked sound.now self.now t) → length h.forked.goals ≡ result }
    {
        self.search.group_goals(sound)
    }

    /// Runs the group at which the search stands: pushes its goals where its checks hold, and forks; else goes on to its
    /// goals one after another, or fails. Without memory nothing changes.
    pub fn fork(&mut self, sound: &Sound) -> Result<bool, NoMemory>
        requires is_for { IsFor sound.now self.old }
        requires here { IsAtGroup sound.now self.old.machine }
        ensures is_for { IsFor sound.now self.new }
        ensures forked { result ≡ Ok true → HasForked sound.now self.old self.new }
        ensures gone_on { result ≡ Ok false → HasGoneOn sound.now self.old self.new }
        ensures err { OnErr result (self.new ≡ self.old) }
    {
        self.search.fork(sound)
    }

    /// Searches on. It makes at most so many calls, before each of which it asks the hook, and adds their number to the share. Where goals
    /// of groups are wanted it stops at each group; else it goes past it, and calls its goals one after another. Without memory the search
    /// stands where its last call was made.
    pub fn advance<H: Hook>(
        &mut self,
        sound: &Sound,
        inferences: u64,
        hook: &mut H,
        share: &mut Share,
    ) -> Result<Turn, NoMemory>
        requires { IsFor sound.now self.old }
        // Whatever comes out, as many turns of the model were made as calls were counted.
        ensures advanced { (past : List Paused) × (H.is_wanted hook.old ≡ true → past ≡ []) × AdvancedPast sound.now self.old past self.new }
        ensures is_for { IsFor sound.now self.new }
        ensures within { self.new.spent ≤ max self.old.budget self.old.spent }
        ensures few { self.new.spent ≤ self.old.spent + inferences }
        ensures share { share.new ≡ capped (share.old + (self.new.spent - self.old.spent)) }
        ensures end { IfOk result (λ turn. Ends sound.now inferences self.old self.new turn) }
        ensures states { IfOk result (λ turn. (ss : List Tracked) → Holds sound.now self.new.machine ss → AreStates self.new.machine ss turn) }
        ensures wanted { result ≡ Ok Turn.Group → H.is_wanted hook.old ≡ true }
        ensures stopped { result ≡ Ok Turn.Stopped → H.asked hook.new }
        ensures asked { H.asked hook.old → H.asked hook.new }
        ensures wish { H.is_wanted hook.new ≡ H.is_wanted hook.old }
    {
        self.search.advance(sound, inferences, hook, share)
    }
}
