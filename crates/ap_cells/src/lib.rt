//! Floor: store. The machine's data: a store of cells, each of which stands for a term, with a trail by which bindings are taken back.
//!
//! Stands on `ap_marks`. What the crates above use: `trees`, the trees that the cells stand for, and what each call makes
//! of them; `spare`, the cells that can be pushed without memory; `Keeps`, by which `undo_to` leads back to a mark.
#![tactic(auto)]

mod cells;
mod pace;
mod packed_cells;
mod packing;
mod pairs;
mod terms;
mod top;
mod variables;
mod walk;

pub use cells::{Cell, CellMark, Cells, MAX_CELLS, Raw};
pub use pace::{MARKED, UNMARKED, UNMARKED_PER_MARKED, has_step};
pub use pairs::Pairs;
pub use top::Top;
pub use variables::mark_variables;
pub use walk::{Range, Walk};
