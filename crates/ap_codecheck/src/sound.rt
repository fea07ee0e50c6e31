//! Code that keeps every rule.

ghost use Rattle.std.specs.Prelude.{◌≡◌, ℕ, ◌<◌, Some, IsSome, IfOk, OnOk, IfErr, IfSome, length, slice_get};
ghost use Rattle.ap_index.specs.Index.{IsRowOf, IsRestOf, IsChoiceAt};
ghost use Rattle.ap_needs.specs.Needs.{IsRoomOf, AreWidthsOf};
ghost use Rattle.ap_direct.specs.Goals.{AsksFirst};
ghost use Rattle.ap_instr.specs.Code.{Compiled};
ghost use Rattle.ap_codecheck.specs.Rules.{IsSound};
ghost use Rattle.ap_codecheck.specs.Tables.{GoesOnBehind, IsExtentOf, IsKeptOf};
ghost use Rattle.ap_codecheck.specs.Judged.{KeepsAll, KeepsAllAt, BreaksIn, Breaks};

use crate::operands::check_operands;
use crate::paths::check_paths;
use crate::rule::{CodeErr, Rule};
use crate::tables::{Extent, KeptTables, Mark, Tables};
use crate::walk::Walk;
use ap_direct::Direct;
use ap_index::{Choice, Row};
use ap_instr::{Code, Predicate};
use ap_needs::{Room, Widths};
use ap_term::NoMemory;
use std::alloc::Global;
use std::marker::Model;

/// Code that keeps every rule at every place, with what is known of its places. Where it goes on behind code that is kept, it has the mark
/// to which the tables are cut back.
#[derive(Drop)]
pub struct Sound {
    code: Code,
    tables: Tables,
    kept: Option<Mark>,
}

impl Model for Sound {
    ghost use Rattle.ap_instr.specs.Code.{Compiled};
    ghost use Rattle.std.specs.Prelude.{IfSome};
    ghost use Rattle.ap_codecheck.specs.Rules.{IsSound};
    ghost use Rattle.ap_codecheck.specs.Tables.{AreTablesOf, WasKept};

    ghost Value = { Compiled };

    ghost view = { λ a. a.code };

    ghost invariant = { λ a. IsSound a.code × AreTablesOf a.code a.tables × IfSome a.kept (WasKept a.code a.tables) };
}

fn check_query(code: &Code) -> Result<(), CodeErr>
    ensures ok { OnOk result (IfSome code.now.query (λ q. q < length code.now.predicates)) }
    ensures bad { IfErr result (Breaks code.now) }
{
    if let Some(q) = code.query() {
        if q as usize >= code.predicates().len() {
            return Err(CodeErr::Bad {
                at: code.instructions().len(),
                rule: Rule::Called,
            });
        }
    }
    Ok(())
}

fn check_predicate(code: &Code, p: &Predicate, walk: &mut Walk) -> Result<(), CodeErr>
    ensures ok { OnOk result (KeepsAll code.now p.now) }
    ensures bad { IfErr result (BreaksIn code.now p.now) }
{
    check_operands(code, p)?;
    check_paths(code, p, walk)
}

fn check_numbered(code: &Code, number: usize, walk: &mut Walk) -> Result<(), CodeErr>
    requires { number < length code.now.predicates }
    ensures ok { OnOk result (KeepsAllAt code.now number) }
    ensures bad { IfErr result (Breaks code.now) }
{
    let p = code.predicates()[number];
    check_predicate(code, &p, walk)
}

fn check_predicates(alloc: Global, code: &Code) -> Result<(), CodeErr>
    ensures ok { OnOk result ((number : ℕ) → KeepsAllAt code.now number) }
    ensures bad { IfErr result (Breaks code.now) }
{
    let mut walk = Walk::new(alloc);
    for number in 0..code.predicates().len() {
        check_numbered(code, number, &mut walk)?;
    }
    Ok(())
}

/// The code, if no place of it breaks a rule; else a place and a rule that it breaks.
pub fn check(alloc: Global, code: Code) -> Result<Sound, CodeErr>
    ensures same { IfOk result (λ sound. sound ≡ code) }
    ensures sound { OnOk result (IsSound code) }
    ensures bad { IfErr result (Breaks code) }
{
    check_query(&code)?;
    check_predicates(alloc, &code)?;
    Ok(Sound::of_sound(alloc, code)?)
}

impl Sound {
    /// Makes the tables of sound code. Code that was compiled is sound, so it isn't checked.
    pub fn of_sound(alloc: Global, code: Code) -> Result<Sound, NoMemory>
        requires { IsSound code }
        ensures { IfOk result (λ sound. sound ≡ code) }
    {
        let tables = Tables::of(alloc, &code)?;
        Ok(Sound {
            code,
            tables,
            kept: None,
        })
    }

    /// Makes the tables of sound code that goes on behind code whose tables are kept, from the end of that on.
    pub fn beside(alloc: Global, code: Code, kept: KeptTables) -> Result<Sound, NoMemory>
        requires sound { IsSound code }
        requires kept { (base : Compiled) × GoesOnBehind code base × IsKeptOf base kept }
        ensures { IfOk result (λ sound. sound ≡ code) }
    {
        let KeptTables { mut tables, extent } = kept;
        let mark = tables.mark(extent);
        tables.grow(alloc, &code, extent)?;
        Ok(Sound {
            code,
            tables,
            kept: Some(mark),
        })
    }

    /// The tables of the code that it goes on behind, which is so long. None where it was made without them.
    pub fn into_kept(self, extent: Extent) -> Option<KeptTables>
        ensures { IfSome result (λ kept. (base : Compiled) → GoesOnBehind self base → IsExtentOf base extent → IsKeptOf base kept) }
    {
        let Sound {
            code: _code,
            mut tables,
            kept,
        } = self;
        let Some(mark) = kept else {
            return None;
        };
        if !mark.is_of(extent) {
            return None;
        }
        tables.cut_to(mark);
        Some(KeptTables { tables, extent })
    }

    /// The code that it is.
    pub fn code(&self) -> &Code
        ensures same { result.now ≡ self.now }
        ensures sound { IsSound self.now }
    {
        &self.code
    }

    /// The row of choices that begins at a place, if the index has one there.
    #[inline]
    pub fn row(&self, start: usize) -> Option<&Row>
        ensures { IfSome result (λ row. IsRowOf self.now start row.now) }
    {
        self.tables.index.row(start)
    }

    /// The row of choices that goes on at a place, behind a clause that has no key, if the index has one there.
    #[inline]
    pub fn rest(&self, from: usize) -> Option<&Row>
        ensures { IfSome result (λ row. IsRestOf self.now from row.now) }
    {
        self.tables.index.rest(from)
    }

    /// What is known of the choice at a place, if the index has one there.
    #[inline(always)]
    pub fn choice(&self, at: usize) -> Option<&Choice>
        ensures { IfSome result (λ choice. IsChoiceAt self.now at choice.now) }
    {
        self.tables.index.choice(at)
    }

    /// What runs of the code need of a store.
    #[inline]
    pub fn room(&self) -> &Room
        ensures { IsRoomOf self.now result.now }
    {
        &self.tables.room
    }

    /// How many registers the code writes, with those of arguments.
    #[inline]
    pub fn widths(&self) -> Widths
        ensures { AreWidthsOf self.now result }
    {
        self.tables.widths
    }

    /// The goal of arithmetic that begins at a place, where one does that can be solved straight from registers.
    #[inline(always)]
    pub fn direct(&self, at: usize) -> Option<&Direct>
        ensures { IfSome result (λ d. AsksFirst self.now at d.now) }
    {
        self.tables.directs.goal(at)
    }

    /// The first place from this one on, before the next transfer of control, at which such a goal begins.
    #[inline(always)]
    pub fn stop(&self, at: usize) -> usize {
        self.tables.directs.stop(at)
    }

    /// The number of the query's predicate.
    pub fn query(&self) -> u32
        requires { IsSome self.now.query }
        ensures same { self.now.query ≡ Some result }
        ensures known { result < length self.now.predicates }
    {
        match self.code.query() {
            Some(number) => number,
            None => unreachable!(),
        }
    }
}
