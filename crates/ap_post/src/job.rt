//! Goals as they go out.

ghost use Rattle.std.specs.Prelude.{◌≡◌, ◌≢◌, Some};
ghost use Rattle.ap_term.specs.Tree.{count_trees};
ghost use Rattle.ap_post.specs.Arities.{arity_at};

use ap_codecheck::Sound;
use ap_copy::Parcelled;

/// A goal for another worker: a call of a predicate of the code's table on the terms of a tuple, with so many calls to make.
#[derive(Drop)]
pub struct Job<'a> {
    pub sound: &'a Sound,
    pub predicate: u32,
    pub tuple: Parcelled,
    pub rest: u64,
    /// The goal's place in its group, from 1.
    pub place: usize,
    /// How many frames are open around the goal: so often its answer is copied.
    pub depth: usize,
    pub ghost known: { arity_at sound.now predicate ≡ Some (count_trees tuple) },
    pub ghost goal: { sound.now.query ≢ Some predicate },
}
