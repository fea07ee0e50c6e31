//! Floor: code. What runs of code need, from any place on to a transfer of control: the cells that they make at most, whether they may
//! want memory all the same, and the registers that they write.
//!
//! Stands on `ap_instr`. The contracts used above: `Room::of` and `widths_of`, each of which goes over the code once, and `Room::grow` and
//! `widths_behind`, which go over what stands behind code whose needs are known, where that stands alone.
#![tactic(auto)]

mod alone;
mod cells;
mod room;
mod transfers;
mod wanting;
mod widths;

pub use alone::stands_alone;
pub use room::Room;
pub use widths::{Widths, widths_behind, widths_of};
