//! Floor: engine. Answers that are copied in: the terms of a goal's places become those of its answer.
//!
//! Stands on `ap_copy`, `ap_match` and the goals of `ap_group`. What the crates above use: `meet_all`, after which the maps that
//! fit the store are those that fitted it before and under which each goal's arguments are an instance of its answer.
#![tactic(auto)]

mod meeting;

pub use meeting::{meet, meet_all};
