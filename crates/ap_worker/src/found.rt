//! The answers of a query, as the searches of workers find them.

ghost use Rattle.std.specs.Prelude.{◌≡◌, ◌≤◌, ℕ, List, [], ◌∷◌, OnOk, IfOk, false};
ghost use Rattle.ap_outside.specs.Halting.{Finishes, Prints, SinkCount};
ghost use Rattle.ap_outside.specs.Pieces.{Puts};
ghost use Rattle.ap_term.specs.Goals.{Query};
ghost use Rattle.ap_term.specs.Search.{start};
ghost use Rattle.ap_term.specs.WellFormed.{IsQuery};
ghost use Rattle.ap_term.specs.Blocks.{IsBlock};
ghost use Rattle.ap_core.specs.Relation.{Rules};
ghost use Rattle.ap_graft.specs.Starts.{tracked_start};
ghost use Rattle.ap_instr.specs.Code.{Compiled};
ghost use Rattle.ap_open.specs.Away.{IsSolvingBeside};
ghost use Rattle.ap_open.specs.Solving.{past_answer};
ghost use Rattle.ap_open.specs.Ungrouped.{AreCalls, IsUngrouped};
ghost use Rattle.ap_post.specs.declared.post.Post.{Post as Posting};
ghost use Rattle.ap_post.specs.Posts.{posted_in};
ghost use Rattle.ap_stack.specs.Counts.{Counts};
ghost use Rattle.ap_stack.specs.Stacks.{code_in, section_in, IsGood, IsStep};
ghost use Rattle.ap_worker.specs.Charged.{IsChargedEnd, charge_after};
ghost use Rattle.ap_worker.specs.Ends.{end_of};
ghost use Rattle.ap_worker.specs.Leads.{IsAlone, IsLeading, IsLineAt, MadeNoMore, end_after};

use crate::answers::Answers;
use crate::bounds::Bounds;
use crate::emission::{Answered, End};
use crate::lead::Lead;
use crate::patience::Patience;
use ap_open::{block_law, outcome_law, solving_law};
use ap_outside::{Gate, Halt, Sink, put_line};
use ap_stack::{Ending, Stack, Step};
use std::alloc::Global;
use std::sync::Wait;

// How answers end by how their search did, and what it is charged, where it has made so many calls itself.
fn ended(ending: Ending, made: u64, budget: u64) -> Answered
    ensures end { result.end ≡ end_after ending }
    ensures charged { result.charged ≡ charge_after ending made budget }
{
    match ending {
        Ending::Failed => Answered {
            end: End::NoMore,
            charged: made,
        },
        Ending::Spent => Answered {
            end: End::Spent,
            charged: made.max(budget),
        },
    }
}

// Puts the line of the answer at which the query's search stands, and goes on behind it.
fn put_answer<A: Answers, K: Sink>(
    alloc: Global,
    query: &mut Stack<'_>,
    width: usize,
    answers: &A,
    out: &mut K,
) -> Result<(), Halt>
    requires width { A.width answers.now ≡ width }
    ensures lines { Prints (K.pieces out.old) (K.pieces out.new) (IsLineAt (A.line answers.now) (section_in query.old)) result }
    ensures count { SinkCount (K.faults out.old) (K.faults out.new) result }
    ensures past { OnOk result (section_in query.new ≡ past_answer (section_in query.old)) }
    ensures share { query.new.share ≡ query.old.share }
    ensures same { (code_in query.new ≡ code_in query.old) × (query.new.outer ≡ query.old.outer) × (query.new.frame ≡ query.old.frame) × (query.new.first ≡ query.old.first) × (query.new.tends ≡ query.old.tends) }
    ensures good { (p : Posting) → IsGood p query.old → query.old.tends ≡ false → IsGood p query.new }
{
    let tuple = query.tuple();
    // Each answer has a place for each of the query's variables.
    if tuple.roots.len() != width {
        return Err(Halt::NoMemory);
    }
    let Ok(line) = answers.line(alloc, &tuple) else {
        return Err(Halt::NoMemory);
    };
    put_line(&line, out)?;
    query.redo();
    Ok(())
}

/// Puts the lines of a query's answers as its search finds them, as many as the limit at most, and says how they end and what is
/// charged for them. While the search waits its worker helps others, or sleeps.
pub(crate) fn put_found<R: Wait, G: Gate, A: Answers, K: Sink>(
    rt: &R,
    alloc: Global,
    gate: &G,
    lead: &mut Lead<'_, '_>,
    width: usize,
    bounds: Bounds,
    answers: &A,
    out: &mut K,
) -> Result<Answered, Halt>
    requires width { A.width answers.now ≡ width }
    requires leads { IsLeading lead.old }
    requires alone { lead.old.query.outer.items ≡ [] }
    requires none { posted_in lead.old.worker.post lead.old.query.frame ≡ [] }
    ensures lines { (p : Rules) (q : Query) → IsQuery q → IsSolvingBeside (code_in lead.old.query) p (tracked_start q) (start q) bounds.budget [] (section_in lead.old.query) [] [] → Finishes (K.pieces out.old) (K.pieces out.new) (λ e put. IsBlock (A.line answers.now) p.program (start q) bounds.budget bounds.limit put (end_of e.end)) result }
    ensures charged { (p : Rules) (q : Query) → IsQuery q → IsSolvingBeside (code_in lead.old.query) p (tracked_start q) (start q) bounds.budget [] (section_in lead.old.query) [] [] → IfOk result (λ e. Puts (K.pieces out.old) (K.pieces out.new) (IsChargedEnd (A.line answers.now) p.program (start q) bounds.budget bounds.limit (IsUngrouped p.program × AreCalls q.question.body) e.end e.charged)) }
    ensures paid { (p : Rules) (q : Query) → IsQuery q → IsSolvingBeside (code_in lead.old.query) p (tracked_start q) (start q) bounds.budget [] (section_in lead.old.query) [] [] → Counts bounds.budget lead.old.query → IfOk result (λ e. e.charged ≤ lead.new.query.share) }
    ensures exact { (p : Rules) (q : Query) → IsQuery q → IsSolvingBeside (code_in lead.old.query) p (tracked_start q) (start q) bounds.budget [] (section_in lead.old.query) [] [] → IsUngrouped p.program → AreCalls q.question.body → IsAlone lead.old → lead.old.query.share ≡ 0 → IfOk result (λ e. MadeNoMore lead.new e.charged) }
    ensures count { SinkCount (K.faults out.old) (K.faults out.new) result }
{
    solving_law();
    outcome_law();
    block_law();
    if bounds.limit == 0 {
        return Ok(Answered {
            end: End::Stopped,
            charged: 0,
        });
    }
    let mut count = 0;
    let mut patience = Patience::new();
    for _step in 0..u64::MAX {
        let Ok(step) = lead.turn(rt, alloc, gate, &mut patience) else {
            return Err(Halt::NoMemory);
        };
        match step {
            Step::Ended(ending) => return Ok(ended(ending, lead.query.spent(), bounds.budget)),
            Step::Answer => {
                put_answer(alloc, &mut lead.query, width, answers, out)?;
                count += 1;
                if count == bounds.limit {
                    return Ok(Answered {
                        end: End::Stopped,
                        charged: lead.query.spent(),
                    });
                }
            }
            _ => {}
        }
    }
    Err(Halt::NoMemory)
}
