//! Running a generated program.

ghost use Rattle.std.specs.Prelude.{◌≡◌, ◌<◌, ◌≤◌, ◌^◌, false, length, map, IfOk};
ghost use Rattle.ap_outside.specs.Halting.{Finishes, Prints, SinkCount};
ghost use Rattle.ap_gen.specs.Generator.{workload};
ghost use Rattle.ap_gen.specs.Summary.{summary};
ghost use Rattle.ap_outside.specs.Pieces.{Puts};
ghost use Rattle.ap_top.specs.Counted.{HasAnswered, LoadCounted, QuestionCounted};
ghost use Rattle.ap_top.specs.Loads.{IsSummed, LoadEnds, QuestionEnds};
ghost use Rattle.ap_top.specs.Unasked.{LeavesQuery};

use crate::answers::BOUNDS;
use crate::queries::print_refusal;
use crate::status::Status;
use crate::texts::print_text;
use ap_clause::{Refusal, program};
use ap_gen::{QUESTION, answers_line, seed_line, workload};
use ap_outside::{Gate, Halt, Sink, SteadySink, put_lines};
use ap_term::{Atoms, Program};
use ap_worker::Crew;
use std::alloc::{AllocError, Global};
use std::sync::Wait;
use std::thread::Threads;

// The summary of a block that has these answer lines and this last line.
fn summary(
    alloc: Global,
    seed: u32,
    size: u32,
    answers: &[Vec<u8>],
    end: &[u8],
) -> Result<Vec<Vec<u8>>, AllocError>
    requires { length answers.now ≤ 2 ^ 32 }
    ensures { IfOk result (λ v. map (λ line. line.items) v.items ≡ summary seed size (map (λ line. line.items) answers.now) end.now) }
{
    let mut lines = Vec::new(alloc);
    lines.push(seed_line(alloc, seed, size)?)?;
    lines.push(answers_line(alloc, answers)?)?;
    lines.push(end.to_vec(alloc)?)?;
    Ok(lines)
}

// Prints what the lines that the question came to are summed up as.
fn print_summed<K: Sink>(
    alloc: Global,
    seed: u32,
    size: u32,
    refused: bool,
    block: &[Vec<u8>],
    out: &mut K,
) -> Result<(), Halt>
    requires few { length block.now ≤ 2 ^ 32 }
    requires ended { refused ≡ false → 0 < length block.now }
    ensures lines { Prints (K.pieces out.old) (K.pieces out.new) (IsSummed seed size refused (map (λ line. line.items) block.now)) result }
    ensures count { SinkCount (K.faults out.old) (K.faults out.new) result }
{
    if refused {
        return put_lines(block, out);
    }
    let Some((end, answers)) = block.split_last() else {
        unreachable!()
    };
    let Ok(lines) = summary(alloc, seed, size, answers, end) else {
        return Err(Halt::NoMemory);
    };
    put_lines(&lines, out)
}

// An accepted program. The block is kept in memory, which never fails as a sink.
fn load_program<R: Threads + Wait + Sync, G: Gate, K: Sink>(
    alloc: Global,
    crew: &Crew<R, G>,
    seed: u32,
    size: u32,
    program: &Program,
    atoms: &mut Atoms,
    out: &mut K,
) -> Result<Status, Halt>
    requires query { LeavesQuery program.now atoms.old }
    ensures lines { Finishes (K.pieces out.old) (K.pieces out.new) (QuestionEnds seed size program.now atoms.old) result }
    ensures counted { IfOk result (λ _. Puts (K.pieces out.old) (K.pieces out.new) (QuestionCounted seed size crew.now.workers program.now atoms.old)) }
    ensures sink { SinkCount (K.faults out.old) (K.faults out.new) result }
{
    let mut block = SteadySink::new(alloc);
    match print_text(
        alloc, crew, QUESTION, true, program, BOUNDS, atoms, &mut block,
    ) {
        Err(Halt::Sink) => unreachable!(),
        Err(Halt::NoMemory) => Err(Halt::NoMemory),
        Ok(tally) => {
            print_summed(alloc, seed, size, tally.refused, block.pieces(), out)?;
            Ok(tally.status())
        }
    }
}

// The text of the program.
fn load_text<R: Threads + Wait + Sync, G: Gate, K: Sink>(
    alloc: Global,
    crew: &Crew<R, G>,
    seed: u32,
    size: u32,
    text: &[u8],
    out: &mut K,
) -> Result<Status, Halt>
    requires { text.now ≡ workload seed size }
    ensures lines { Finishes (K.pieces out.old) (K.pieces out.new) (LoadEnds seed size) result }
    ensures counted { IfOk result (λ s. HasAnswered s → Puts (K.pieces out.old) (K.pieces out.new) (LoadCounted seed size crew.now.workers)) }
    ensures sink { SinkCount (K.faults out.old) (K.faults out.new) result }
{
    let Ok(mut atoms) = Atoms::new(alloc) else {
        return Err(Halt::NoMemory);
    };
    match program(alloc, text, &mut atoms) {
        Ok(program) => load_program(alloc, crew, seed, size, &program, &mut atoms, out),
        Err(Refusal::NoMemory) => Err(Halt::NoMemory),
        Err(refusal) => {
            print_refusal(alloc, &refusal, &atoms, out)?;
            Ok(Status::ProgramRefused)
        }
    }
}

/// Runs the program of a seed and a size, and puts three lines: these two, how many answer lines there are with their
/// bytes and the sum of these, and how the block ends.
pub fn load<R: Threads + Wait + Sync, G: Gate, K: Sink>(
    alloc: Global,
    crew: &Crew<R, G>,
    seed: u32,
    size: u32,
    out: &mut K,
) -> Result<Status, Halt>
    ensures lines { Finishes (K.pieces out.old) (K.pieces out.new) (LoadEnds seed size) result }
    ensures counted { IfOk result (λ s. HasAnswered s → Puts (K.pieces out.old) (K.pieces out.new) (LoadCounted seed size crew.now.workers)) }
    ensures sink { SinkCount (K.faults out.old) (K.faults out.new) result }
{
    let Ok(text) = workload(alloc, seed, size) else {
        return Err(Halt::NoMemory);
    };
    load_text(alloc, crew, seed, size, &text, out)
}
