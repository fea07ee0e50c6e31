//! From a query to the lines of its answers, by workers that run its goals side by side.

ghost use Rattle.std.specs.Prelude.{◌≡◌, ◌+◌, ◌-◌, ◌^◌, ◌<◌, ◌≤◌, ℕ, true, min, [], All, length, IfOk};
ghost use Rattle.std.specs.List.{list_any};
ghost use Rattle.ap_outside.specs.Halting.{Finishes, SinkCount};
ghost use Rattle.ap_outside.specs.Pieces.{Puts};
ghost use Rattle.ap_term.specs.Goals as goals;
ghost use Rattle.ap_term.specs.Goals.{Query as Asked, joined};
ghost use Rattle.ap_term.specs.Search.{start};
ghost use Rattle.ap_term.specs.Blocks.{IsBlock};
ghost use Rattle.ap_term.specs.WellFormed.{IsProgram, IsQuery};
ghost use Rattle.ap_core.specs.Relation.{Rules};
ghost use Rattle.ap_graft.specs.Starts.{tracked_start};
ghost use Rattle.ap_instr.specs.StandsFor.{StandsForQuery};
ghost use Rattle.ap_machine.specs.Started.{IsAsked};
ghost use Rattle.ap_tied.specs.Ties.{IsSearched};
ghost use Rattle.ap_board.specs.Seats.{IsNewSeat};
ghost use Rattle.ap_open.specs.Away.{IsSolvingBeside};
ghost use Rattle.ap_open.specs.Opened.{IsSolving};
ghost use Rattle.ap_section.specs.Views.{spent_in, view_of};
ghost use Rattle.ap_section.specs.Ready.{IsReady};
ghost use Rattle.ap_open.specs.Reading.{AreRead, IsSafeQuery, rules_beside};
ghost use Rattle.ap_open.specs.Ungrouped.{AreCalls, IsUngrouped};
ghost use Rattle.ap_post.specs.Posts.{posted_in};
ghost use Rattle.ap_stack.specs.Counts.{Counts};
ghost use Rattle.ap_stack.specs.Stacks.{code_in, section_in};
ghost use Rattle.ap_worker.specs.Charged.{IsChargedBlock, IsChargedEnd};
ghost use Rattle.ap_worker.specs.Ends.{end_of};
ghost use Rattle.ap_worker.specs.Grouped.{is_grouped};
ghost use Rattle.ap_worker.specs.Leads.{IsAlone, IsLeading, MadeNoMore};
ghost use Rattle.ap_worker.specs.Totals.{IsFresh, NoneTaken, shares_in, shares_of};
ghost use Rattle.ap_worker.specs.Workers.{IsStaffed, IsIdle};
ghost use Rattle.ap_worker.specs.Sought.{MayBeAsked};

use crate::answers::Answers;
use crate::bounds::Bounds;
use crate::coding::sound_code;
use crate::crew::Crew;
use crate::emission::{Answered, Ended, with_total};
use crate::found::put_found;
use crate::groups::has_groups;
use crate::lead::Lead;
use crate::serving::serve_all;
use crate::worker::Worker;
use ap_board::{BoardSeat, open_board};
use ap_codecheck::Sound;
use ap_copy::new_variables;
use ap_ledger::{Total, gather};
use ap_open::{outcome_law, reading_law, solving_law};
use ap_outside::{Gate, Halt, Sink};
use ap_post::{Common, Job, JobBoard, Outcome, open_posts};
use ap_section::Section;
use ap_stack::Stack;
use ap_term::{NoMemory, Program, Query};
use std::alloc::Global;
use std::sync::Wait;
use std::thread::{Threads, join_mut};

/// How many pads a worker has, and so how many of its goals may be out at a time, where that isn't told.
pub const PADS: u32 = 64;

/// The search of a query where it begins.
fn begun(alloc: Global, sound: &Sound, query: &Query, budget: u64) -> Result<Section, NoMemory>
    requires { (p : goals.Program) × IsAsked sound.now p query.now }
    ensures ready { IfOk result (λ section. IsReady sound.now section) }
    ensures fresh { IfOk result (λ section. IsFresh budget (view_of section)) }
    ensures solves { IfOk result (λ section. (p : goals.Program) → IsAsked sound.now p query.now → IsSearched sound.now (rules_beside p query.now) (tracked_start query.now) → IsSolving sound.now (rules_beside p query.now) (tracked_start query.now) (start query.now) budget [] (view_of section) []) }
{
    solving_law();
    let tuple = new_variables(alloc, query.names().len())?;
    let Some(number) = sound.code().query() else {
        unreachable!()
    };
    let newest = Section::start(alloc, sound, &tuple, number, budget)?;
    Ok(newest)
}

/// The worker that leads, with the query's search.
fn leading<'a, 'b>(
    alloc: Global,
    sound: &'a Sound,
    section: Section,
    mut worker: Worker<'a, 'b>,
) -> Result<Lead<'a, 'b>, NoMemory>
    requires idle { IsIdle worker }
    requires ready { IsReady sound.now section }
    ensures leads { IfOk result (λ lead. IsLeading lead) }
    ensures alone { IfOk result (λ lead. (lead.query.outer.items ≡ []) × (posted_in lead.worker.post lead.query.frame ≡ [])) }
    ensures share { IfOk result (λ lead. lead.query.share ≡ 0) }
    ensures query { IfOk result (λ lead. (code_in lead.query ≡ sound.now) × (section_in lead.query ≡ view_of section)) }
    ensures lone { IfOk result (λ lead. spent_in (view_of section) ≡ 0 → IsAlone lead) }
{
    let frame = worker.post.number()?;
    let query = Stack::new(alloc, sound, section, frame, 0);
    Ok(Lead { worker, query })
}

/// How many workers run a query: one where it and its program have no group, since it offers no goal.
#[tactic(auto, using(crate::proofs::Grouping::rules_of_workers))]
fn workers_for(workers: u32, program: &Program, query: &Query) -> u32
    requires some { 0 < workers }
    ensures some { (0 < result) × (result ≤ workers) }
    ensures one { IsUngrouped (joined program.now query.now) → result ≡ 1 }
    ensures all { list_any is_grouped (joined program.now query.now) ≡ true → result ≡ workers }
{
    if has_groups(program, query) {
        workers
    } else {
        1
    }
}

/// Workers for all seats of a new board.
fn workers_of<'a, 'b>(
    alloc: Global,
    board: &'b JobBoard<'a>,
    seats: Vec<BoardSeat<Job<'a>, Outcome>>,
    common: &'b Common,
) -> Result<Vec<Worker<'a, 'b>>, NoMemory>
    requires table { All (λ s. s.0 ≡ board.now.table.shared.table_id) seats.items }
    requires new { All (λ s. (pads : ℕ) × IsNewSeat pads s.1.number s.1) seats.items }
    ensures idle { IfOk result (λ workers. All IsIdle workers.items) }
    ensures count { IfOk result (λ workers. length workers.items ≡ length seats.entry.items) }
{
    let posts = open_posts(alloc, board, seats, common)?;
    let mut workers = Vec::new(alloc);
    for post in posts {
        workers.push(Worker::new(alloc, post))?;
    }
    Ok(workers)
}

/// Puts what is found, and then tells the other workers that the search has ended.
fn lead_on<R: Wait, G: Gate, A: Answers, K: Sink>(
    rt: &R,
    alloc: Global,
    gate: &G,
    lead: &mut Lead<'_, '_>,
    width: usize,
    bounds: Bounds,
    answers: &A,
    out: &mut K,
) -> Result<Answered, Halt>
    requires width { A.width answers.now ≡ width }
    requires leads { IsLeading lead.old }
    requires alone { lead.old.query.outer.items ≡ [] }
    requires none { posted_in lead.old.worker.post lead.old.query.frame ≡ [] }
    ensures lines { (p : Rules) (q : Asked) → IsQuery q → IsSolvingBeside (code_in lead.old.query) p (tracked_start q) (start q) bounds.budget [] (section_in lead.old.query) [] [] → Finishes (K.pieces out.old) (K.pieces out.new) (λ e put. IsBlock (A.line answers.now) p.program (start q) bounds.budget bounds.limit put (end_of e.end)) result }
    ensures charged { (p : Rules) (q : Asked) → IsQuery q → IsSolvingBeside (code_in lead.old.query) p (tracked_start q) (start q) bounds.budget [] (section_in lead.old.query) [] [] → IfOk result (λ e. Puts (K.pieces out.old) (K.pieces out.new) (IsChargedEnd (A.line answers.now) p.program (start q) bounds.budget bounds.limit (IsUngrouped p.program × AreCalls q.question.body) e.end e.charged)) }
    ensures paid { (p : Rules) (q : Asked) → IsQuery q → IsSolvingBeside (code_in lead.old.query) p (tracked_start q) (start q) bounds.budget [] (section_in lead.old.query) [] [] → Counts bounds.budget lead.old.query → IfOk result (λ e. e.charged ≤ lead.new.query.share) }
    ensures count { SinkCount (K.faults out.old) (K.faults out.new) result }
{
    let found = put_found(rt, alloc, gate, lead, width, bounds, answers, out);
    lead.worker.post.end();
    found
}

/// Puts what is found, while the other workers serve. The calling thread leads, so that the search goes on where no thread can be made.
fn search_beside<R: Threads + Wait + Sync, G: Gate, A: Answers, K: Sink>(
    alloc: Global,
    crew: &Crew<R, G>,
    others: &mut Vec<Worker<'_, '_>>,
    lead: &mut Lead<'_, '_>,
    width: usize,
    bounds: Bounds,
    answers: &A,
    out: &mut K,
) -> Result<Answered, Halt>
    requires width { A.width answers.now ≡ width }
    requires idle { All IsIdle others.old.items }
    requires leads { IsLeading lead.old }
    requires alone { lead.old.query.outer.items ≡ [] }
    requires none { posted_in lead.old.worker.post lead.old.query.frame ≡ [] }
    ensures lines { (p : Rules) (q : Asked) → IsQuery q → IsSolvingBeside (code_in lead.old.query) p (tracked_start q) (start q) bounds.budget [] (section_in lead.old.query) [] [] → Finishes (K.pieces out.old) (K.pieces out.new) (λ e put. IsBlock (A.line answers.now) p.program (start q) bounds.budget bounds.limit put (end_of e.end)) result }
    ensures charged { (p : Rules) (q : Asked) → IsQuery q → IsSolvingBeside (code_in lead.old.query) p (tracked_start q) (start q) bounds.budget [] (section_in lead.old.query) [] [] → IfOk result (λ e. Puts (K.pieces out.old) (K.pieces out.new) (IsChargedEnd (A.line answers.now) p.program (start q) bounds.budget bounds.limit (IsUngrouped p.program × AreCalls q.question.body) e.end e.charged)) }
    ensures paid { (p : Rules) (q : Asked) → IsQuery q → IsSolvingBeside (code_in lead.old.query) p (tracked_start q) (start q) bounds.budget [] (section_in lead.old.query) [] [] → Counts bounds.budget lead.old.query → IfOk result (λ e. e.charged ≤ lead.new.query.share) }
    ensures count { SinkCount (K.faults out.old) (K.faults out.new) result }
{
    let rt = crew.rt;
    let gate = crew.gate;
    // Each closure borrows one of its own.
    let there = alloc;
    let (_, found) = join_mut(
        rt,
        &mut ||
            requires { All IsIdle others.now.items }
        { serve_all(rt, there, gate, others) },
        &mut || -> Result<Answered, Halt>
            requires { (A.width answers.now ≡ width) × IsLeading lead.now × (lead.now.query.outer.items ≡ []) × (posted_in lead.now.worker.post lead.now.query.frame ≡ []) }
            ensures lines { (p : Rules) (q : Asked) → IsQuery q → IsSolvingBeside (code_in lead.entry.now.query) p (tracked_start q) (start q) bounds.budget [] (section_in lead.entry.now.query) [] [] → Finishes (K.pieces out.entry.now) (K.pieces out.exit.now) (λ e put. IsBlock (A.line answers.entry.now) p.program (start q) bounds.budget bounds.limit put (end_of e.end)) result }
            ensures charged { (p : Rules) (q : Asked) → IsQuery q → IsSolvingBeside (code_in lead.entry.now.query) p (tracked_start q) (start q) bounds.budget [] (section_in lead.entry.now.query) [] [] → IfOk result (λ e. Puts (K.pieces out.entry.now) (K.pieces out.exit.now) (IsChargedEnd (A.line answers.entry.now) p.program (start q) bounds.budget bounds.limit (IsUngrouped p.program × AreCalls q.question.body) e.end e.charged)) }
            ensures paid { (p : Rules) (q : Asked) → IsQuery q → IsSolvingBeside (code_in lead.entry.now.query) p (tracked_start q) (start q) bounds.budget [] (section_in lead.entry.now.query) [] [] → Counts bounds.budget lead.entry.now.query → IfOk result (λ e. e.charged ≤ lead.exit.now.query.share) }
            ensures count { SinkCount (K.faults out.entry.now) (K.faults out.exit.now) result }
        { lead_on(rt, alloc, gate, lead, width, bounds, answers, out) },
    );
    found
}

/// Puts what is found, while the other workers serve, where there are any.
fn search<R: Threads + Wait + Sync, G: Gate, A: Answers, K: Sink>(
    alloc: Global,
    crew: &Crew<R, G>,
    others: &mut Vec<Worker<'_, '_>>,
    lead: &mut Lead<'_, '_>,
    width: usize,
    bounds: Bounds,
    answers: &A,
    out: &mut K,
) -> Result<Answered, Halt>
    requires width { A.width answers.now ≡ width }
    requires idle { All IsIdle others.old.items }
    requires leads { IsLeading lead.old }
    requires alone { lead.old.query.outer.items ≡ [] }
    requires none { posted_in lead.old.worker.post lead.old.query.frame ≡ [] }
    ensures lines { (p : Rules) (q : Asked) → IsQuery q → IsSolvingBeside (code_in lead.old.query) p (tracked_start q) (start q) bounds.budget [] (section_in lead.old.query) [] [] → Finishes (K.pieces out.old) (K.pieces out.new) (λ e put. IsBlock (A.line answers.now) p.program (start q) bounds.budget bounds.limit put (end_of e.end)) result }
    ensures charged { (p : Rules) (q : Asked) → IsQuery q → IsSolvingBeside (code_in lead.old.query) p (tracked_start q) (start q) bounds.budget [] (section_in lead.old.query) [] [] → IfOk result (λ e. Puts (K.pieces out.old) (K.pieces out.new) (IsChargedEnd (A.line answers.now) p.program (start q) bounds.budget bounds.limit (IsUngrouped p.program × AreCalls q.question.body) e.end e.charged)) }
    ensures paid { (p : Rules) (q : Asked) → IsQuery q → IsSolvingBeside (code_in lead.old.query) p (tracked_start q) (start q) bounds.budget [] (section_in lead.old.query) [] [] → Counts bounds.budget lead.old.query → IfOk result (λ e. e.charged ≤ lead.new.query.share) }
    ensures exact { (p : Rules) (q : Asked) → IsQuery q → IsSolvingBeside (code_in lead.old.query) p (tracked_start q) (start q) bounds.budget [] (section_in lead.old.query) [] [] → IsUngrouped p.program → AreCalls q.question.body → IsAlone lead.old → lead.old.query.share ≡ 0 → others.old.items ≡ [] → IfOk result (λ e. MadeNoMore lead.new e.charged) }
    ensures none { others.old.items ≡ [] → others.new.items ≡ [] }
    ensures count { SinkCount (K.faults out.old) (K.faults out.new) result }
{
    if others.is_empty() {
        return put_found(crew.rt, alloc, crew.gate, lead, width, bounds, answers, out);
    }
    search_beside(alloc, crew, others, lead, width, bounds, answers, out)
}

/// Gathers the calls that all workers made, those of the search that leads among them.
fn gathered(alloc: Global, lead: Lead<'_, '_>, others: Vec<Worker<'_, '_>>) -> Total
    ensures all { result.sum ≡ min (lead.entry.query.share + shares_of lead.entry.worker.taken.items + shares_in others.entry.items) (2 ^ 64 - 1) }
    ensures least { min lead.entry.query.share (2 ^ 64 - 1) ≤ result.sum }
    ensures alone { others.entry.items ≡ [] → lead.entry.worker.taken.items ≡ [] → result.sum ≤ lead.entry.query.share }
{
    let mut share = lead.release(alloc);
    for worker in others {
        share.merge(worker.release(alloc));
    }
    gather(&[share])
}

/// So much of what workers do for one another; nothing where the one that leads has no others.
fn among(others: &Vec<Worker<'_, '_>>, count: u64) -> u64
    ensures none { others.now.items ≡ [] → result ≡ 0 }
    ensures some { 0 < length others.now.items → result ≡ count }
{
    if others.is_empty() {
        return 0;
    }
    count
}

/// Searches a query beside a program by code for both, with their groups, and puts the lines of its answers as they are found, as many as
/// the limit at most. They are a block of any query and program that these are without their groups, however many workers there are
/// however many goals each may have out (1 to 1,024, its pads), and however they take turns. With fewer calls than were charged for them sequential search hasn't ended, and all calls that were
/// charged were made, and no other ones where neither has a group. One worker, and several where there is no group, take nothing
/// from one another.
pub fn solve_with_pads<R: Threads + Wait + Sync, G: Gate, A: Answers, K: Sink>(
    alloc: Global,
    crew: &Crew<R, G>,
    sound: &Sound,
    program: &Program,
    query: &Query,
    budget: u64,
    limit: u64,
    answers: &A,
    out: &mut K,
    pads: u32,
) -> Result<Ended, Halt>
    requires code { StandsForQuery sound.now program.now query.now }
    requires pads { (0 < pads) × (pads ≤ 1024) }
    requires width { A.width answers.now ≡ length query.now.names }
    requires asked { MayBeAsked program.now query.now }
    requires safe { IsSafeQuery program.now query.now }
    ensures lines { (p : goals.Program) (q : Asked) → IsProgram p → IsQuery q → AreRead p q program.now query.now → Finishes (K.pieces out.old) (K.pieces out.new) (λ e put. IsBlock (A.line answers.now) (joined p q) (start q) budget limit put (end_of e.end)) result }
    ensures charged { (p : goals.Program) (q : Asked) → IsProgram p → IsQuery q → AreRead p q program.now query.now → IfOk result (λ e. Puts (K.pieces out.old) (K.pieces out.new) (IsChargedBlock (A.line answers.now) (joined p q) (start q) budget limit (IsUngrouped (joined program.now query.now)) e)) }
    ensures total { IfOk result (λ e. e.charged ≤ e.total.sum) }
    ensures exact { IsUngrouped (joined program.now query.now) → IfOk result (λ e. e.total.sum ≡ e.charged) }
    ensures one { crew.now.workers ≡ 1 → IfOk result NoneTaken }
    ensures plain { IsUngrouped (joined program.now query.now) → IfOk result NoneTaken }
    ensures count { SinkCount (K.faults out.old) (K.faults out.new) result }
{
    reading_law();
    outcome_law();
    let _good = program.as_slice();
    let _asked = query.question();
    let count = workers_for(crew.workers, program, query);
    let common = Common::new(count);
    let Ok((board, seats)) = open_board(alloc, count, pads) else {
        return Err(Halt::NoMemory);
    };
    let Ok(mut workers) = workers_of(alloc, &board, seats, &common) else {
        return Err(Halt::NoMemory);
    };
    let Some(first) = workers.pop() else {
        return Err(Halt::NoMemory);
    };
    let Ok(section) = begun(alloc, sound, query, budget) else {
        return Err(Halt::NoMemory);
    };
    let Ok(mut lead) = leading(alloc, sound, section, first) else {
        return Err(Halt::NoMemory);
    };
    let width = query.names().len();
    let bounds = Bounds { budget, limit };
    let found = search(
        alloc,
        crew,
        &mut workers,
        &mut lead,
        width,
        bounds,
        answers,
        out,
    );
    let taken = among(&workers, common.taken());
    let stolen = among(&workers, common.stolen());
    with_total(found, gathered(alloc, lead, workers), taken, stolen)
}

/// The same by code that is compiled for it, where each worker has 64 pads.
pub fn solve<R: Threads + Wait + Sync, G: Gate, A: Answers, K: Sink>(
    alloc: Global,
    crew: &Crew<R, G>,
    program: &Program,
    query: &Query,
    budget: u64,
    limit: u64,
    answers: &A,
    out: &mut K,
) -> Result<Ended, Halt>
    requires width { A.width answers.now ≡ length query.now.names }
    requires asked { MayBeAsked program.now query.now }
    requires safe { IsSafeQuery program.now query.now }
    ensures lines { (p : goals.Program) (q : Asked) → IsProgram p → IsQuery q → AreRead p q program.now query.now → Finishes (K.pieces out.old) (K.pieces out.new) (λ e put. IsBlock (A.line answers.now) (joined p q) (start q) budget limit put (end_of e.end)) result }
    ensures charged { (p : goals.Program) (q : Asked) → IsProgram p → IsQuery q → AreRead p q program.now query.now → IfOk result (λ e. Puts (K.pieces out.old) (K.pieces out.new) (IsChargedBlock (A.line answers.now) (joined p q) (start q) budget limit (IsUngrouped (joined program.now query.now)) e)) }
    ensures total { IfOk result (λ e. e.charged ≤ e.total.sum) }
    ensures exact { IsUngrouped (joined program.now query.now) → IfOk result (λ e. e.total.sum ≡ e.charged) }
    ensures one { crew.now.workers ≡ 1 → IfOk result NoneTaken }
    ensures plain { IsUngrouped (joined program.now query.now) → IfOk result NoneTaken }
    ensures count { SinkCount (K.faults out.old) (K.faults out.new) result }
{
    let Ok(sound) = sound_code(alloc, program, query) else {
        return Err(Halt::NoMemory);
    };
    solve_with_pads(
        alloc, crew, &sound, program, query, budget, limit, answers, out, PADS,
    )
}
