//! A program's clauses, found by the name and arity of their heads, and by constants that are arguments.

ghost use Rattle.std.specs.Prelude.{◌≡◌, ◌<◌, true, ◌||◌, ◌&&◌, Some, [], ◌∷◌, ◌++◌, length, if◌then◌else◌, map, IfOk, OnOk};
ghost use Rattle.std.specs.List.{list_any};
ghost use Rattle.ap_term.specs.Tree.{node};
ghost use Rattle.ap_term.specs.TermView.{tree_of, trees_of};
ghost use Rattle.ap_reach.specs.declared.called.Called.{Called as Call};
ghost use Rattle.ap_reach.specs.Reached.{Place, is_place, is_variable, is_called, is_near, is_for, leads, leads_before, heads_open, is_open_before, Extends, CallsAmong};
ghost use Rattle.ap_reach.specs.Index.{clauses_of, clauses_at, Indexes, AreOpen};

use crate::called::{Called, Calls, PLACES};
use crate::calls::{add_all_calls, add_body, add_copies};
use ap_term::{Clause, NoMemory, Program, Term, copy_clause};
use indexmap::{IndexMap, IndexSet};
use std::alloc::Global;
use std::marker::Model;

/// The clauses that are called together, in their order. Most constants have one alone, which takes no list.
#[derive(Drop)]
pub(crate) enum Own<'a> {
    None,
    One(&'a Clause),
    Several(Box<Vec<&'a Clause>>),
}

/// The clauses of each predicate that has one, and of these those for each constant, in their order.
type Index<'a> = IndexMap<Called, Own<'a>>;

/// The names and arities of predicates, each with the place of an argument that is a variable in one of its clauses.
type Open = IndexSet<((u32, usize), usize)>;

/// The list of two clauses.
fn both<'a>(alloc: Global, first: &'a Clause, second: &'a Clause) -> Result<Own<'a>, NoMemory>
    ensures { IfOk result (λ own. clauses_of own ≡ first.now ∷ second.now ∷ []) }
{
    let mut list = Vec::with_capacity(alloc, 2)?;
    list.push(first)?;
    list.push(second)?;
    Ok(Own::Several(Box::new(alloc, list)?))
}

/// One more clause behind others.
fn put<'a>(alloc: Global, own: &mut Own<'a>, clause: &'a Clause) -> Result<(), NoMemory>
    ensures { OnOk result (clauses_of own.new ≡ clauses_of own.old ++ clause.now ∷ []) }
{
    match own {
        Own::None => *own = Own::One(clause),
        Own::One(first) => *own = both(alloc, *first, clause)?,
        Own::Several(list) => list.push(clause)?,
    }
    Ok(())
}

/// One more clause at a key.
fn add_clause<'a>(
    alloc: Global,
    index: &mut Index<'a>,
    key: Called,
    clause: &'a Clause,
) -> Result<(), NoMemory>
    ensures { OnOk result ((k : Call) → clauses_at index.new k ≡ (if is_called key k then clauses_at index.old k ++ clause.now ∷ [] else clauses_at index.old k)) }
{
    let own = index.entry(key)?.or_insert(Own::None);
    put(alloc, own, clause)?;
    Ok(())
}

/// One more clause, for its argument at a place, where that is a constant.
fn add_by_argument<'a>(
    alloc: Global,
    index: &mut Index<'a>,
    name: u32,
    arity: usize,
    place: usize,
    arg: &Term,
    clause: &'a Clause,
) -> Result<(), NoMemory>
    ensures { OnOk result ((k : Call) → clauses_at index.new k ≡ (if is_for name arity place (tree_of arg.now) k then clauses_at index.old k ++ clause.now ∷ [] else clauses_at index.old k)) }
{
    match arg {
        Term::Atom(a) => {
            let key = Called::Atom(name, arity, place, a.number());
            add_clause(alloc, index, key, clause)
        }
        Term::Int(z) => {
            let key = Called::integer(name, arity, place, *z);
            add_clause(alloc, index, key, clause)
        }
        _ => Ok(()),
    }
}

/// One more clause, for each of its first arguments that is a constant.
fn add_by_arguments<'a>(
    alloc: Global,
    index: &mut Index<'a>,
    name: u32,
    args: &[Term],
    clause: &'a Clause,
) -> Result<(), NoMemory>
    ensures { OnOk result ((k : Call) → is_near k ≡ true → clauses_at index.new k ≡ (if leads_before (length args.now) k (node name (trees_of args.now)) then clauses_at index.old k ++ clause.now ∷ [] else clauses_at index.old k)) }
{
    let arity = args.len();
    for place in 0..arity.min(PLACES) {
        add_by_argument(alloc, index, name, arity, place, &args[place], clause)?;
    }
    Ok(())
}

/// One more clause.
fn add_by_head<'a>(alloc: Global, index: &mut Index<'a>, clause: &'a Clause) -> Result<(), NoMemory>
    ensures { OnOk result ((k : Call) → is_near k ≡ true → clauses_at index.new k ≡ (if leads k clause.now.head then clauses_at index.old k ++ clause.now ∷ [] else clauses_at index.old k)) }
{
    match clause.head() {
        Term::Var(_) | Term::Int(_) => Ok(()),
        Term::Atom(a) => add_clause(alloc, index, Called::All(a.number(), 0), clause),
        Term::Node(a, args) => {
            let key = Called::All(a.number(), args.len());
            add_clause(alloc, index, key, clause)?;
            add_by_arguments(alloc, index, a.number(), args.as_slice(), clause)
        }
    }
}

/// The clauses by their predicates and constants.
fn index_of(alloc: Global, clauses: &[Clause]) -> Result<Index<'_>, NoMemory>
    ensures { IfOk result (λ index. Indexes index clauses.now) }
{
    let mut index = IndexMap::with_capacity(alloc, clauses.len())?;
    for clause in clauses {
        add_by_head(alloc, &mut index, clause)?;
    }
    Ok(index)
}

/// The place of an argument, where that is a variable.
fn add_open_place(
    found: &mut Open,
    name: u32,
    arity: usize,
    place: usize,
    arg: &Term,
) -> Result<(), NoMemory>
    ensures { OnOk result ((k : Place) → list_any (is_place k) found.new.keys ≡ (list_any (is_place k) found.old.keys || (is_variable (Some (tree_of arg.now)) && is_place ((name, arity), place) k))) }
{
    if let Term::Var(_) = arg {
        found.insert(((name, arity), place))?;
    }
    Ok(())
}

/// The places of a head's arguments that are variables.
fn add_open_places(found: &mut Open, name: u32, args: &[Term]) -> Result<(), NoMemory>
    ensures { OnOk result ((k : Place) → list_any (is_place k) found.new.keys ≡ (list_any (is_place k) found.old.keys || is_open_before (length args.now) k (node name (trees_of args.now)))) }
{
    let arity = args.len();
    for place in 0..arity {
        add_open_place(found, name, arity, place, &args[place])?;
    }
    Ok(())
}

/// The places of one more clause's arguments that are variables.
fn add_open(found: &mut Open, clause: &Clause) -> Result<(), NoMemory>
    ensures { OnOk result ((k : Place) → list_any (is_place k) found.new.keys ≡ (list_any (is_place k) found.old.keys || heads_open k clause.now.head)) }
{
    match clause.head() {
        Term::Node(a, args) => add_open_places(found, a.number(), args.as_slice()),
        _ => Ok(()),
    }
}

/// The places at which clauses of a predicate have variables.
fn open_of(alloc: Global, clauses: &[Clause]) -> Result<Open, NoMemory>
    ensures { IfOk result (λ found. AreOpen found clauses.now) }
{
    let mut found = IndexSet::new(alloc);
    for clause in clauses {
        add_open(&mut found, clause)?;
    }
    Ok(found)
}

/// A program, with the clauses that goals can call at hand.
#[derive(Drop)]
pub struct Predicates<'a> {
    program: &'a Program,
    index: Index<'a>,
    with_variable: Open,
}

impl<'a> Model for Predicates<'a> {
    ghost use Rattle.ap_term.specs.Goals.{Program as Clauses};
    ghost use Rattle.ap_term.specs.GoalCode.{program_code};
    ghost use Rattle.ap_reach.specs.Index.{Indexes, AreOpen};

    ghost Value = { Clauses };

    ghost coded = { program_code };

    ghost view = { λ a. a.program.now };

    ghost invariant = { λ a. Indexes a.index a.program.now × AreOpen a.with_variable a.program.now };
}

/// Adds what the goals of clauses call that are called together.
fn add_own_calls(program: &Predicates<'_>, calls: &mut Calls, own: &Own) -> Result<(), NoMemory>
    ensures extends { OnOk result (Extends calls.old calls.new) }
    ensures among { OnOk result (CallsAmong program.now calls.new (clauses_of own.now)) }
{
    match own {
        Own::None => Ok(()),
        Own::One(clause) => add_body(program, calls, clause),
        Own::Several(list) => add_all_calls(program, calls, list.as_slice()),
    }
}

/// Puts copies of clauses that are called together behind a part.
fn add_own_copies(alloc: Global, own: &Own, part: &mut Program) -> Result<(), NoMemory>
    ensures { OnOk result (part.new ≡ part.old ++ clauses_of own.now) }
{
    match own {
        Own::None => Ok(()),
        Own::One(clause) => {
            part.push(copy_clause(alloc, clause)?)?;
            Ok(())
        }
        Own::Several(list) => add_copies(alloc, list.as_slice(), part),
    }
}

impl<'a> Predicates<'a> {
    ghost use Rattle.std.specs.Prelude.{◌≡◌, ◌<◌, true, ◌++◌, Some, OnOk, IfOk, IfSome};
    ghost use Rattle.ap_term.specs.Tree.{Tree, node};
    ghost use Rattle.ap_term.specs.TermView.{tree_of, trees_of};
    ghost use Rattle.ap_reach.specs.Reached.{Extends, CallsAmong, is_near, clauses_for, heads, argument_of, answers};

    /// Puts a program's clauses in order by predicate and constant.
    pub fn of(alloc: Global, program: &'a Program) -> Result<Predicates<'a>, NoMemory>
        ensures { IfOk result (λ predicates. predicates ≡ program.now) }
    {
        let index = index_of(alloc, program.as_slice())?;
        let with_variable = open_of(alloc, program.as_slice())?;
        Ok(Predicates {
            program,
            index,
            with_variable,
        })
    }

    /// The program itself.
    pub fn program(&self) -> &'a Program
        ensures { result.now ≡ self.now }
    {
        self.program
    }

    /// What a goal with this argument at a place calls, where that is a constant and no clause has a variable in its place.
    fn called_by_argument(
        &self,
        name: u32,
        arity: usize,
        place: usize,
        arg: &Term,
    ) -> Option<Called>
        requires near { place < PLACES }
        ensures answers { IfSome result (λ k. (t : Tree) → heads (name, arity) t ≡ true → argument_of t place ≡ Some (tree_of arg.now) → answers self.now k t ≡ true) }
        ensures near { IfSome result (λ k. is_near k ≡ true) }
    {
        if self.with_variable.contains(&((name, arity), place)) {
            return None;
        }
        match arg {
            Term::Atom(a) => Some(Called::Atom(name, arity, place, a.number())),
            Term::Int(z) => Some(Called::integer(name, arity, place, *z)),
            _ => None,
        }
    }

    /// What a goal of this name and these arguments calls. The first constant at one of the first places that may leave clauses out does so.
    pub fn called(&self, name: u32, args: &[Term]) -> Called
        ensures answers { answers self.now result (node name (trees_of args.now)) ≡ true }
        ensures near { is_near result ≡ true }
    {
        let arity = args.len();
        for place in 0..arity.min(PLACES) {
            if let Some(call) = self.called_by_argument(name, arity, place, &args[place]) {
                return call;
            }
        }
        Called::All(name, arity)
    }

    /// Adds what the goals of the clauses that are called call.
    pub fn add_calls(&self, call: Called, calls: &mut Calls) -> Result<(), NoMemory>
        requires near { is_near call ≡ true }
        ensures extends { OnOk result (Extends calls.old calls.new) }
        ensures among { OnOk result (CallsAmong self.now calls.new (clauses_for call self.now)) }
    {
        match self.index.get(&call) {
            Some(own) => add_own_calls(self, calls, own),
            None => Ok(()),
        }
    }

    /// Puts copies of the clauses that are called behind a part.
    pub fn add_clauses(
        &self,
        alloc: Global,
        call: Called,
        part: &mut Program,
    ) -> Result<(), NoMemory>
        requires near { is_near call ≡ true }
        ensures { OnOk result (part.new ≡ part.old ++ clauses_for call self.now) }
    {
        match self.index.get(&call) {
            Some(own) => add_own_copies(alloc, own, part),
            None => Ok(()),
        }
    }
}
