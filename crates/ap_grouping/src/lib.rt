//! Floor: analysis. A query beside a program, with the groups that an annotator finds for that query.
//!
//! Stands on `ap_mel` for the groups and on `ap_certify` for what they are worth. The one contract used above: without its groups
//! it is the program and the query that were handed in, and the call of the query is safe.
#![tactic(auto)]

mod again;
mod grouping;

pub use again::{has_no_groups, regroup_query};
pub use grouping::{Grouped, group_query};
