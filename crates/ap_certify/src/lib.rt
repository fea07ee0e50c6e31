//! Floor: analysis. Certified programs: annotated programs whose groups run side by side only where their goals are strictly independent.
//!
//! Stands on `ap_patterns` for what a table says, and on `ap_cge` for annotated programs. The crates above use one
//! contract: at each group that a search of a query within the scope comes to, each check of the group's full condition
//! that isn't written holds.
#![tactic(auto)]

mod bodies;
mod certified;
mod clauses;
mod coverage;
mod entered;
mod faults;
mod groups;
pub mod laws;
mod programs;
mod sights;
mod without_groups;

pub use certified::{Certified, Scope};
pub use faults::CertErr;
pub use groups::is_written;
pub use programs::certify;
pub use without_groups::plain;
