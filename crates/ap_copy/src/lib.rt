//! Floor: store. Copies of tuples from one store of cells into another, by a parcel that stands alone.
//!
//! Stands on `ap_cells`. What the crates above use: `copy_out` and then `copy_in` give a tuple that is equal up to names,
//! with fresh variables of its own; what is copied from stays as it is.
#![tactic(auto)]

mod copying;
mod memory;
mod parcels;
mod variables;

pub use parcels::{Packing, Parcelled, Roots, copy_in, copy_out, new_variables};
