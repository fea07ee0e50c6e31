//! What is known of code by its places, and of longer code that begins with it.

ghost use Rattle.std.specs.Prelude.{◌≡◌, true, length, IfOk, IfSome, OnOk};
ghost use Rattle.ap_instr.specs.Code.{Compiled};
ghost use Rattle.ap_codecheck.specs.Tables.{are_within, AreTablesOf, AreKeptOf, GoesOnBehind, IsExtentOf, IsKeptOf, IsMarkOf, LeadsBack, IsCutTo};

use ap_direct::Directs;
use ap_index::{Index, index_of};
use ap_instr::Code;
use ap_needs::{Room, Widths, stands_alone, widths_behind, widths_of};
use ap_term::NoMemory;
use std::alloc::Global;

/// What is known of code: its clauses by their first arguments, what its runs need, and its goals of arithmetic.
#[derive(Drop)]
pub struct Tables {
    pub(crate) index: Index,
    pub(crate) room: Room,
    pub(crate) widths: Widths,
    pub(crate) directs: Directs,
}

/// How many instructions, integers and predicates code has.
#[derive(Clone, Copy)]
pub struct Extent {
    pub instructions: usize,
    pub integers: usize,
    pub predicates: usize,
}

/// How far tables have come, to which they can be cut back.
#[derive(Clone, Copy)]
pub struct Mark {
    extent: Extent,
    choices: usize,
    cells: usize,
    places: usize,
    widths: Widths,
    goals: usize,
}

/// Tables of code that other code can go on behind, and how long that code is.
#[derive(Drop)]
pub struct KeptTables {
    pub(crate) tables: Tables,
    pub(crate) extent: Extent,
}

impl Extent {
    /// That of code.
    pub fn of(code: &Code) -> Extent
        ensures { IsExtentOf code.now result }
    {
        Extent {
            instructions: code.instructions().len(),
            integers: code.integers().len(),
            predicates: code.predicates().len(),
        }
    }

    /// Whether it is another one.
    fn is_same(self, other: Extent) -> bool
        ensures { result ≡ true → self ≡ other }
    {
        self.instructions == other.instructions
            && self.integers == other.integers
            && self.predicates == other.predicates
    }
}

impl Mark {
    /// Whether the tables were those of code that is so long.
    pub(crate) fn is_of(self, extent: Extent) -> bool
        ensures { result ≡ true → self.extent ≡ extent }
    {
        self.extent.is_same(extent)
    }
}

impl Tables {
    /// What is known of the code.
    pub(crate) fn of(alloc: Global, code: &Code) -> Result<Tables, NoMemory>
        ensures { IfOk result (AreTablesOf code.now) }
    {
        Ok(Tables {
            index: index_of(alloc, code)?,
            room: Room::of(alloc, code)?,
            widths: widths_of(code),
            directs: Directs::of(alloc, code)?,
        })
    }

    /// How far they have come, which are of code that is so long.
    pub(crate) fn mark(&self, extent: Extent) -> Mark
        ensures { IsMarkOf self.now extent result }
    {
        Mark {
            extent,
            choices: self.index.choice_count(),
            cells: self.room.cells,
            places: self.room.wanting.len(),
            widths: self.widths,
            goals: self.directs.goals.len(),
        }
    }

    /// Puts in what is known of longer code that begins with theirs.
    pub(crate) fn grow(
        &mut self,
        alloc: Global,
        code: &Code,
        extent: Extent,
    ) -> Result<(), NoMemory>
        requires { (base : Compiled) × GoesOnBehind code.now base × AreKeptOf base self.old × IsExtentOf base extent }
        ensures tables { OnOk result (AreTablesOf code.now self.new) }
        ensures back { OnOk result ((mark : Mark) → IsMarkOf self.old extent mark → LeadsBack mark self.old self.new) }
    {
        let from = u32::try_from(extent.instructions).unwrap_or(u32::MAX);
        self.index.grow(alloc, code, from)?;
        self.room.grow(code)?;
        self.widths = widths_behind(code, self.widths, extent.instructions, extent.predicates);
        self.directs.grow(alloc, code)?;
        Ok(())
    }

    /// Lets go what was put in since a mark.
    pub(crate) fn cut_to(&mut self, mark: Mark)
        ensures { IsCutTo mark self.old self.new }
    {
        self.index.cut_to(mark.places, mark.choices);
        self.room.cut_to(mark.places, mark.cells);
        self.widths = mark.widths;
        self.directs.cut_to(mark.goals);
    }

    /// Whether all that they name stands before a place.
    fn are_within(&self, places: usize) -> bool
        ensures { result ≡ are_within places self.now }
    {
        self.index.is_within(places) && self.directs.stay_within(places)
    }
}

impl KeptTables {
    /// Tables of code that other code can go on behind. None where something in the code depends on what stands behind it.
    pub fn of(alloc: Global, code: &Code) -> Result<Option<KeptTables>, NoMemory>
        ensures { IfOk result (λ o. IfSome o (IsKeptOf code.now)) }
    {
        if !stands_alone(code) {
            return Ok(None);
        }
        let tables = Tables::of(alloc, code)?;
        if !tables.are_within(code.instructions().len()) {
            return Ok(None);
        }
        let extent = Extent::of(code);
        Ok(Some(KeptTables { tables, extent }))
    }
}
