//! What is kept from one term to the next, since most of a text's terms are small and alike.

ghost use Rattle.std.specs.Prelude.{◌≡◌, [], IfOk};

use crate::leaf::Leaf;
use crate::pass::{Open, Step};
use crate::recent::Recent;
use crate::terms::Stack;
use crate::written::WrittenTerm;
use std::alloc::{AllocError, Global};

/// How many elements room is kept for.
const COMMON_ROOM: usize = 1024;

/// The lists of a term that is done with, whose room the next one takes, and the atoms of names that were looked up.
#[derive(Drop)]
pub struct Room<'a> {
    pub(crate) recent: Recent,
    pub(crate) stack: Stack,
    open: Vec<Open>,
    steps: Vec<Step>,
    leaves: Vec<Leaf<'a>>,
    names: Vec<&'a str>,
}

impl<'a> Room<'a> {
    pub fn new(alloc: Global) -> Room<'a> {
        Room {
            recent: Recent::new(alloc),
            stack: Stack::new(alloc),
            open: Vec::new(alloc),
            steps: Vec::new(alloc),
            leaves: Vec::new(alloc),
            names: Vec::new(alloc),
        }
    }

    /// The room for another text.
    pub fn for_another<'b>(self, alloc: Global) -> Room<'b> {
        let Room {
            recent,
            stack,
            open,
            steps,
            ..
        } = self;
        Room {
            recent,
            stack,
            open,
            steps,
            leaves: Vec::new(alloc),
            names: Vec::new(alloc),
        }
    }

    /// The list of what is open, empty.
    pub(crate) fn open(&mut self, alloc: Global) -> Vec<Open>
        ensures { result.items ≡ [] }
    {
        let mut open = std::mem::replace(&mut self.open, Vec::new(alloc));
        open.clear();
        open
    }

    /// The list of steps, empty, with room for so many.
    pub(crate) fn steps(&mut self, alloc: Global, len: usize) -> Result<Vec<Step>, AllocError>
        ensures { IfOk result (λ v. v.items ≡ []) }
    {
        let mut steps = std::mem::replace(&mut self.steps, Vec::new(alloc));
        steps.clear();
        steps.reserve(len)?;
        Ok(steps)
    }

    /// The list of leaves, empty, with room for so many.
    pub(crate) fn leaves(&mut self, alloc: Global, len: usize) -> Result<Vec<Leaf<'a>>, AllocError>
        ensures { IfOk result (λ v. v.items ≡ []) }
    {
        let mut leaves = std::mem::replace(&mut self.leaves, Vec::new(alloc));
        leaves.clear();
        leaves.reserve(len)?;
        Ok(leaves)
    }

    /// The list of variables' names, empty.
    pub(crate) fn names(&mut self, alloc: Global) -> Vec<&'a str>
        ensures { result.items ≡ [] }
    {
        let mut names = std::mem::replace(&mut self.names, Vec::new(alloc));
        names.clear();
        names
    }

    /// Takes the lists of a term back, but for the names of its variables.
    pub fn take_back(&mut self, written: WrittenTerm<'a>) -> Vec<&'a str>
        ensures { result ≡ written.entry.names }
    {
        self.steps = written.steps;
        self.leaves = written.leaves;
        self.steps.clear();
        self.steps.shrink_to(COMMON_ROOM);
        self.leaves.clear();
        self.leaves.shrink_to(COMMON_ROOM);
        written.names
    }

    /// Takes the list of what is open back.
    pub(crate) fn take_open(&mut self, open: Vec<Open>) {
        self.open = open;
    }

    /// Takes the list of names back.
    pub fn take_names(&mut self, names: Vec<&'a str>) {
        self.names = names;
    }
}
