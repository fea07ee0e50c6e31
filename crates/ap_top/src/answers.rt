//! Printing the block of a query. Each line is one put.

ghost use Rattle.std.specs.Prelude.{◌≡◌, ℕ, List, ◌<◌, ◌≤◌, ◌^◌, length, IfOk, IfSome};
ghost use Rattle.ap_outside.specs.Halting.{Finishes, SinkCount};
ghost use Rattle.ap_outside.specs.Pieces.{Puts};
ghost use Rattle.ap_term.specs.Tree.{Trees};
ghost use Rattle.ap_machine.specs.Lent.{terms_of};
ghost use Rattle.ap_worker.specs.Ends.{end_of};
ghost use Rattle.ap_worker.specs.Sought.{MayBeAsked};
ghost use Rattle.ap_worker.specs.Totals.{NoneTaken};
ghost use Rattle.ap_top.specs.Counted.{IsCountedBlock};
ghost use Rattle.ap_top.specs.Output.{line_of, fault_line, end_line, is_spent, AreAnswers, IsCounted, IsQueryBlock};
ghost use Rattle.ap_top.specs.Last.{IsLast};
ghost use Rattle.ap_top.specs.Lines.{line_same};

use crate::last::{Last, prepare};
use ap_lines::answer_line;
use ap_machine::Tuple;
use ap_mel::Kind;
use ap_outside::{Gate, Halt, Sink, put_line};
use ap_reach::Predicates;
use ap_term::{Atoms, Fault, NoMemory, Query};
use ap_worker::{Answers, Crew, End, Ended, PADS, solve_with_pads};
use std::alloc::Global;
use std::sync::Wait;
use std::thread::Threads;

/// How far the search of a query goes, and which groups it has.
#[derive(Clone, Copy, Debug, PartialEq, Eq)]
pub struct Bounds {
    /// How many calls it may make.
    pub budget: u64,
    /// How many of its answers are printed at most.
    pub answers: u64,
    /// Which of its goals may run side by side.
    pub kind: Kind,
}

/// The bounds where none are given.
pub const BOUNDS: Bounds = Bounds {
    budget: 10_000_000,
    answers: 1_000_000,
    kind: Kind::Mel,
};

fn fault_line(fault: Fault) -> &'static [u8]
    ensures { result.now ≡ fault_line fault }
{
    match fault {
        Fault::Instantiation => b"error: instantiation\n",
        Fault::WrongType => b"error: type\n",
        Fault::ZeroDivisor => b"error: zero_divisor\n",
        Fault::Overflow => b"error: overflow\n",
    }
}

fn end_line(end: End) -> &'static [u8]
    ensures { result.now ≡ end_line (end_of end) }
{
    match end {
        End::NoMore => b"no more.\n",
        End::Spent => b"budget spent.\n",
        End::Stopped => b"stopped.\n",
        End::Error(fault) => fault_line(fault),
    }
}

fn is_spent(end: End) -> bool
    ensures { result ≡ is_spent (end_of end) }
{
    matches!(end, End::Spent)
}

// The line of an answer, with its line feed.
fn make_line(
    alloc: Global,
    query: &Query,
    tuple: &Tuple<'_>,
    atoms: &Atoms,
) -> Result<Vec<u8>, NoMemory>
    requires { length tuple.now.roots.now ≡ length query.now.names }
    ensures { IfOk result (λ line. line.items ≡ line_of atoms.now query.now (terms_of tuple.now)) }
{
    let mut line = answer_line(alloc, query, tuple.cells, tuple.roots, atoms)?;
    line.push(b'\n')?;
    Ok(line)
}

/// A query beside the table of names, by which its answers are written.
#[derive(Drop)]
struct Lines<'a> {
    query: &'a Query,
    atoms: &'a Atoms,
}

impl Answers for Lines<'_> {
    ghost width = { λ a. length a.query.now.names };

    ghost line = { λ a. line_of a.atoms.now a.query.now };

    fn line(&self, alloc: Global, tuple: &Tuple<'_>) -> Result<Vec<u8>, NoMemory> {
        make_line(alloc, self.query, tuple, self.atoms)
    }

    ghost names = { λ a t u h. line_same a.atoms.now a.query.now t u h };
}

/// Puts the lines of a query's answers as they are found, and gives how they end, what was charged for them, which calls were made and how
/// many goals workers took from one another. What is annotated, compiled and searched is the part of the program that the query can call; it
/// is that of the query before it, with its groups, where this one calls the same and is alike.
pub fn put_answers<R: Threads + Wait + Sync, G: Gate, K: Sink>(
    alloc: Global,
    crew: &Crew<R, G>,
    program: &Predicates<'_>,
    kept: &mut Option<Last>,
    query: &Query,
    bounds: Bounds,
    atoms: &Atoms,
    out: &mut K,
    pads: u32,
) -> Result<Ended, Halt>
    requires asked { MayBeAsked program.now query.now }
    requires kept { IfSome kept.old (IsLast program.now bounds.kind) }
    requires pads { (0 < pads) × (pads ≤ 1024) }
    ensures lines { Finishes (K.pieces out.old) (K.pieces out.new) (AreAnswers bounds.budget bounds.answers program.now atoms.now query.now) result }
    ensures counted { IfOk result (λ e. Puts (K.pieces out.old) (K.pieces out.new) (IsCounted bounds.kind bounds.budget bounds.answers program.now atoms.now query.now e)) }
    ensures total { IfOk result (λ e. e.charged ≤ e.total.sum) }
    ensures one { crew.now.workers ≡ 1 → IfOk result NoneTaken }
    ensures count { SinkCount (K.faults out.old) (K.faults out.new) result }
    ensures kept { IfSome kept.new (IsLast program.now bounds.kind) }
{
    let lines = Lines { query, atoms };
    let Bounds {
        budget,
        answers,
        kind,
    } = bounds;
    let Ok((mut last, beside)) = prepare(alloc, program, query, kind, kept.take()) else {
        return Err(Halt::NoMemory);
    };
    let _whole = program.program().as_slice();
    let _asked = query.question();
    let ended = solve_with_pads(
        alloc,
        crew,
        &beside.sound,
        &last.grouped.program,
        &last.grouped.query,
        budget,
        answers,
        &lines,
        out,
        pads,
    );
    last.code.take_back(beside);
    *kept = Some(last);
    ended
}

/// Prints the block of a query, each answer as it is found. Whether its budget was spent.
pub fn print_query<R: Threads + Wait + Sync, G: Gate, K: Sink>(
    alloc: Global,
    crew: &Crew<R, G>,
    program: &Predicates<'_>,
    kept: &mut Option<Last>,
    query: &Query,
    bounds: Bounds,
    atoms: &Atoms,
    out: &mut K,
) -> Result<bool, Halt>
    requires asked { MayBeAsked program.now query.now }
    requires kept { IfSome kept.old (IsLast program.now bounds.kind) }
    ensures lines { Finishes (K.pieces out.old) (K.pieces out.new) (IsQueryBlock bounds.budget bounds.answers program.now atoms.now query.now) result }
    ensures counted { IfOk result (λ _. Puts (K.pieces out.old) (K.pieces out.new) (IsCountedBlock bounds crew.now.workers program.now atoms.now query.now)) }
    ensures count { SinkCount (K.faults out.old) (K.faults out.new) result }
    ensures kept { IfSome kept.new (IsLast program.now bounds.kind) }
{
    let ended = put_answers(alloc, crew, program, kept, query, bounds, atoms, out, PADS)?;
    put_line(end_line(ended.end), out)?;
    Ok(is_spent(ended.end))
}
