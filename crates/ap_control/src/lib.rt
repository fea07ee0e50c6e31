//! Floor: engine. What a machine's control needs of code: the clauses of a predicate that a call may enter, runs of instructions up to
//! one that leads elsewhere, the built-in goals on two places, and the checks of groups.
//!
//! Stands on `ap_steps` and `ap_standing`. What is used above: `only`, which tells a clause that alone can be entered; `choose` and
//! `next_possible`, which pass over clauses that can ask for nothing, and say of some that their heads surely unify with the call; `can_take`, which is so just where a clause's head does;
//! `run_to_transfer` and `run_to_stop`, behind which the code asks for the same goals; and `solve`, by which cells become what a
//! built-in goal asks.
#![tactic(auto)]

mod alternatives;
mod checks;
mod choosing;
mod relations;
mod runs;
mod taking;
mod telling;
mod unasked;

pub use alternatives::{Alternative, first, following, instruction_at};
pub use ap_codecheck::Sound;
pub use checks::{are_apart, is_ground};
pub use choosing::{Chosen, Possible, choose, next_possible};
pub use relations::solve;
pub use runs::{run_to_stop, run_to_transfer, used};
pub use taking::can_take;
pub use telling::{Told, only};
