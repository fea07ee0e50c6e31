//! What the core knows of a program: which of its goals may meet a fault.

ghost use Rattle.std.specs.Prelude.{◌≡◌, Some, map, IfOk, OnOk, MatchOption};
ghost use Rattle.std.specs.List.{list_any};
ghost use Rattle.ap_term.specs.TermView.{tree_of, trees_of};
ghost use Rattle.ap_term.specs.Tree.{node};
ghost use Rattle.ap_term.specs.GoalView.{part_of};
ghost use Rattle.ap_term.specs.Goals.{plain_goals};
ghost use Rattle.ap_term.specs.Loud.{same_predicate, is_arithmetic, predicate_of, calls_one};
ghost use Rattle.ap_core.specs.Telling.{told};
ghost use Rattle.ap_core.specs.Heeding.{Tells, TellsJust};
ghost use Rattle.ap_core.specs.Passes.{some_calls, calls_in, AreLoud, IsClosed, IsMissing, Adds, Passes};

use ap_term::{Args, Atom, Clause, NoMemory, Part, Program, Relation, Term};
use std::alloc::Global;
use std::marker::Model;

/// A predicate: its name, and how many arguments its goals have.
pub type Predicate = (Atom, usize);

/// The predicates whose goals may meet a fault.
#[derive(Drop)]
pub struct Loud {
    predicates: Vec<Predicate>,
}

impl Model for Loud {
    ghost use Rattle.std.specs.Prelude.{List, map};
    ghost use Rattle.ap_term.specs.Loud.{Predicate};

    ghost Value = { List Predicate };

    ghost view = { λ a. a.predicates.items };
}

/// A program, and which of its goals may meet a fault.
#[derive(Drop)]
pub struct Rules {
    pub program: Program,
    pub loud: Loud,
    ghost complete: { Tells (told loud) program },
}

fn is_arithmetic(name: Atom, args: &Args) -> bool
    ensures { result ≡ is_arithmetic (node name args.now) }
{
    args.len() == 2
        && matches!(
            Relation::named(name),
            Some(Relation::Is | Relation::Compare(_))
        )
}

fn predicate_of(goal: &Term) -> Option<Predicate>
    ensures { result ≡ predicate_of (tree_of goal.now) }
{
    match goal {
        Term::Var(_) | Term::Int(_) => None,
        Term::Atom(name) => Some((*name, 0)),
        Term::Node(name, args) => Some((*name, args.len())),
    }
}

impl Loud {
    fn has(&self, name: Atom, count: usize) -> bool
        ensures { result ≡ list_any (same_predicate (Some (name, count))) self.now }
    {
        self.predicates.iter().any(|p| p.0 == name && p.1 == count)
    }

    /// Whether a goal is arithmetic, or of one of the predicates.
    #[tactic(auto, using(crate::proofs::Passes::unnamed))]
    fn calls_one(&self, goal: &Term) -> bool
        ensures { result ≡ calls_one self.now (tree_of goal.now) }
    {
        match goal {
            Term::Var(_) | Term::Int(_) => false,
            Term::Atom(name) => self.has(*name, 0),
            Term::Node(name, args) => is_arithmetic(*name, args) || self.has(*name, args.len()),
        }
    }

    /// Whether a goal may meet a fault, or can't be called.
    pub fn tells(&self, goal: &Term) -> bool
        ensures { result ≡ told self.now (tree_of goal.now) }
    {
        match goal {
            Term::Var(_) | Term::Int(_) => true,
            Term::Atom(_) => self.calls_one(goal),
            Term::Node(_, args) => args.len() == 0 || args.len() > 255 || self.calls_one(goal),
        }
    }

    #[tactic(auto, using(crate::proofs::Passes::call_rows))]
    fn some_calls(&self, goals: &[Term]) -> bool
        ensures { result ≡ some_calls self.now (trees_of goals.now) }
    {
        for goal in goals {
            if self.calls_one(goal) {
                return true;
            }
        }
        false
    }

    fn calls_in(&self, part: &Part) -> bool
        ensures { result ≡ calls_in self.now (part_of part.now) }
    {
        match part {
            Part::Call(goal) => self.calls_one(goal),
            Part::Group { calls, .. } => self.some_calls(calls.as_slice()),
        }
    }

    #[tactic(auto, using(crate::proofs::Passes::call_rows))]
    fn are_called_in(&self, parts: &[Part]) -> bool
        ensures { result ≡ some_calls self.now (plain_goals (map part_of parts.now)) }
    {
        for part in parts {
            if self.calls_in(part) {
                return true;
            }
        }
        false
    }

    /// The predicate of a clause that calls an arithmetic goal or one of the predicates, where it isn't one of them.
    fn missing(&self, clause: &Clause) -> Option<Predicate>
        ensures { MatchOption result (IsClosed self.now clause.now) (IsMissing self.now clause.now) }
    {
        let (name, count) = predicate_of(clause.head())?;
        if self.has(name, count) || !self.are_called_in(clause.body().as_slice()) {
            return None;
        }
        Some((name, count))
    }

    /// Adds the predicate that a clause misses; whether there is one.
    fn add(&mut self, clause: &Clause) -> Result<bool, NoMemory>
        ensures { IfOk result (λ b. Adds clause.now b self.old self.new) }
    {
        match self.missing(clause) {
            Some(predicate) => {
                self.predicates.push(predicate)?;
                Ok(true)
            }
            None => Ok(false),
        }
    }

    /// Adds what each of the clauses misses, in turn; whether there was such a predicate.
    fn pass(&mut self, program: &Program) -> Result<bool, NoMemory>
        ensures loud { OnOk result (AreLoud program.now self.old → AreLoud program.now self.new) }
        ensures fewer { IfOk result (λ b. Passes program.now program.now b self.old self.new) }
    {
        let mut has_added = false;
        for clause in program.as_slice() {
            has_added |= self.add(clause)?;
        }
        Ok(has_added)
    }

    /// The predicates of a program whose goals may meet a fault: passes over its clauses add them, until one adds none.
    pub fn of(alloc: Global, program: &Program) -> Result<Loud, NoMemory>
        ensures { IfOk result (λ l. TellsJust (told l) program.now) }
    {
        let mut loud = Loud {
            predicates: Vec::new(alloc),
        };
        while loud.pass(program)? {}
        Ok(loud)
    }
}
