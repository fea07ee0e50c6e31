//! A section begins.

ghost use Rattle.std.specs.Prelude.{◌≡◌, slice_get, Some, IfOk};
ghost use Rattle.ap_term.specs.Tree.{count_trees};
ghost use Rattle.ap_instr.specs.declared.compiled.Predicate.{Predicate};
ghost use Rattle.ap_section.specs.Views.{view_of};
ghost use Rattle.ap_section.specs.Ready.{IsReady};
ghost use Rattle.ap_section.specs.Ends.{Begins};

use crate::held::Held;
use crate::pool::Pool;
use crate::section::Section;
use ap_codecheck::Sound;
use ap_copy::Parcelled;
use ap_term::NoMemory;
use std::alloc::Global;

impl Section {
    /// Begins a section for a goal of the code's table on the terms of a tuple, with so many calls to make.
    pub fn start(
        alloc: Global,
        sound: &Sound,
        tuple: &Parcelled,
        predicate: u32,
        rest: u64,
    ) -> Result<Section, NoMemory>
        requires { (q : Predicate) × (slice_get sound.now.predicates predicate ≡ Some q) × (q.arity ≡ count_trees tuple.now) }
        ensures begins { IfOk result (λ found. Begins sound.now tuple.now predicate rest (view_of found)) }
        ensures ready { IfOk result (λ found. IsReady sound.now found) }
    {
        let search = Held::start(alloc, sound, tuple, predicate, rest)?;
        Ok(Section {
            search,
            frames: Vec::new(alloc),
            alloc,
        })
    }

    /// Begins a section as `start` does, in the memory of one of the pool.
    pub fn start_pooled(
        pool: &mut Pool,
        alloc: Global,
        sound: &Sound,
        tuple: &Parcelled,
        predicate: u32,
        rest: u64,
    ) -> Result<Section, NoMemory>
        requires { (q : Predicate) × (slice_get sound.now.predicates predicate ≡ Some q) × (q.arity ≡ count_trees tuple.now) }
        ensures begins { IfOk result (λ found. Begins sound.now tuple.now predicate rest (view_of found)) }
        ensures ready { IfOk result (λ found. IsReady sound.now found) }
    {
        let Some(section) = pool.take() else {
            return Section::start(alloc, sound, tuple, predicate, rest);
        };
        let Section {
            mut search,
            mut frames,
            ..
        } = section;
        search.begin_anew(sound, tuple, predicate, rest)?;
        frames.clear();
        Ok(Section {
            search,
            frames,
            alloc,
        })
    }
}
