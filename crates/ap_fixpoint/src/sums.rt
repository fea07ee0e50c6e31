//! Patterns united, as one operation.

ghost use Rattle.std.specs.Prelude.{◌≡◌, IfOk, OnOk, slice_get};
ghost use Rattle.ap_absunify.specs.declared.states.State.TheVariants.{Unreachable};
ghost use Rattle.ap_fixpoint.specs.Fix.{joined, kept};
ghost use Rattle.ap_fixpoint.specs.Rounds.{joined_if, joined_at};

use ap_absunify::{State, made};
use ap_freeness::Free;
use ap_patterns::{Given, Pattern};
use ap_sharing::{Sets, Share, VarSet};
use ap_term::NoMemory;
use std::alloc::Global;
use std::marker::Model;

/// What one of several patterns says, with more sets than a Share may keep.
#[derive(Drop)]
struct Sum {
    is_reachable: bool,
    sets: Sets,
    any: VarSet,
    free: Free,
}

impl Model for Sum {
    ghost use Rattle.std.specs.Prelude.{if◌then◌else◌};
    ghost use Rattle.ap_absunify.specs.declared.states.State.{State};
    ghost use Rattle.ap_absunify.specs.declared.states.State.TheVariants.{Unreachable, Reachable};

    ghost Value = { State };

    ghost view = { λ a. if a.is_reachable then Reachable (record { sets = a.sets; any = a.any }) a.free else Unreachable };
}

impl Sum {
    fn new(alloc: Global) -> Sum
        ensures { result ≡ Unreachable }
    {
        Sum {
            is_reachable: false,
            sets: Sets::new(alloc),
            any: VarSet::new(),
            free: Free::new(VarSet::new()),
        }
    }

    fn of(alloc: Global, pattern: &Pattern) -> Result<Sum, NoMemory>
        ensures { IfOk result (λ r. r ≡ pattern.now) }
    {
        match pattern {
            State::Unreachable => Ok(Sum::new(alloc)),
            State::Reachable { share, free } => Ok(Sum {
                is_reachable: true,
                sets: share.sets().copy()?,
                any: share.any(),
                free: *free,
            }),
        }
    }

    fn join(&mut self, alloc: Global, pattern: &Pattern) -> Result<(), NoMemory>
        ensures { OnOk result (self.new ≡ joined self.old pattern.now) }
    {
        let State::Reachable { share, free } = pattern else {
            return Ok(());
        };
        if !self.is_reachable {
            let mut sets = Sets::new(alloc);
            sets.join(share.sets())?;
            *self = Sum {
                is_reachable: true,
                sets,
                any: share.any(),
                free: *free,
            };
            return Ok(());
        }
        self.sets.join(share.sets())?;
        self.any = self.any.union(share.any());
        self.free = self.free.unite(free);
        Ok(())
    }

    /// Joined with what is given at a number.
    fn join_at(&mut self, alloc: Global, given: &[Given], number: usize) -> Result<(), NoMemory>
        ensures { OnOk result (self.new ≡ joined_if self.old (slice_get given.now number)) }
    {
        match given.get(number) {
            Some(g) => self.join(alloc, &g.pattern),
            None => Ok(()),
        }
    }

    fn into_pattern(self) -> Pattern
        ensures { result ≡ kept self }
    {
        let Sum {
            is_reachable,
            sets,
            any,
            free,
        } = self;
        if is_reachable {
            made(Share::new(sets, any), free)
        } else {
            State::Unreachable
        }
    }
}

/// The pattern united with what is given at these numbers, as one operation.
pub fn united(
    alloc: Global,
    pattern: &Pattern,
    given: &[Given],
    numbers: &[usize],
) -> Result<Pattern, NoMemory>
    ensures { IfOk result (λ r. r ≡ kept (joined_at given.now numbers.now pattern.now)) }
{
    let mut sum = Sum::of(alloc, pattern)?;
    for number in numbers {
        sum.join_at(alloc, given, *number)?;
    }
    Ok(sum.into_pattern())
}
