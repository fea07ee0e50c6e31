//! Floor: section. The tie of a section that has parcall frames to a task of the core: which task it stands for, and how that
//! moves with the core's events.
//!
//! Stands on `ap_core` for tasks and events, on `ap_tracked` and `ap_standing` for what a machine's states are, and on
//! `ap_frames` and `ap_parcall_laws` for slots. No code: each law is the contract of a function that does nothing. The crates above
//! use one contract: where the slot of an event stands for the goal as the event leaves it, so does the section for the task.
#![tactic(auto)]

mod laws;

pub use laws::{
    alike_law, answer_slot_law, break_law, fork_law, infer_law, join_law, lift_law, mark_law,
    meet_law, open_law, push_law, redo_law, rejoin_law, slot_law, verdict_law,
};
