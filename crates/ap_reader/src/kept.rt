//! The leaves that steps to come name.

ghost use Rattle.std.specs.Prelude.{◌≡◌, ◌-◌, ◌<◌, IsTrue, List, length, map, OnOk, OnErr, Err};
ghost use Rattle.ap_reader.specs.Written.{Written, leaf_of};
ghost use Rattle.ap_reader.specs.Long.{Keeps, look};
ghost use Rattle.ap_reader.specs.declared.pass.ParseErr.TheVariants.{NoMemory};

use crate::leaf::Leaf;
use crate::pass::ParseErr;
use ap_lexer::push;
use std::alloc::Global;

/// Leaves whose steps come later, each with the place of its token; the step that comes first names the last one.
#[derive(Drop)]
pub(crate) struct Kept<'a> {
    places: Vec<usize>,
    leaves: Vec<Leaf<'a>>,
}

impl<'a> Kept<'a> {
    pub(crate) fn new(alloc: Global) -> Kept<'a>
        ensures { (passed : List Written) → Keeps passed result }
    {
        Kept {
            places: Vec::new(alloc),
            leaves: Vec::new(alloc),
        }
    }

    pub(crate) fn leaves(&self) -> &[Leaf<'a>]
        ensures { result.now ≡ self.now.leaves.items }
    {
        self.leaves.as_slice()
    }

    /// Keeps the leaf of the token at a place.
    pub(crate) fn put(&mut self, at: usize, leaf: Leaf<'a>) -> Result<(), ParseErr>
        ensures keeps { OnOk result ((passed : List Written) → Keeps passed self.old → at < length passed → leaf_of leaf.entry ≡ look passed at → Keeps passed self.new) }
        ensures top { OnOk result (look (map leaf_of self.new.leaves.items) (length self.new.leaves.items - 1) ≡ leaf_of leaf.entry) }
        ensures fault { OnErr result (result ≡ Err NoMemory) }
    {
        push(&mut self.places, at)?;
        push(&mut self.leaves, leaf)?;
        Ok(())
    }

    /// Whether the last one is the leaf of the token at a place.
    pub(crate) fn ends_with(&self, at: usize) -> bool
        ensures within { IsTrue result → (passed : List Written) → Keeps passed self.now → at < length passed }
        ensures top { IsTrue result → (passed : List Written) → Keeps passed self.now → look (map leaf_of self.now.leaves.items) (length self.now.leaves.items - 1) ≡ look passed at }
    {
        self.places.last() == Some(&at)
    }

    /// The place of the last one among the leaves.
    pub(crate) fn top(&self) -> usize
        ensures { result ≡ length self.now.leaves.items - 1 }
    {
        self.leaves.len().saturating_sub(1)
    }

    /// Lets the last one go.
    pub(crate) fn let_go(&mut self)
        ensures { (passed : List Written) → Keeps passed self.old → Keeps passed self.new }
    {
        let _place = self.places.pop();
        let _leaf = self.leaves.pop();
    }
}
