//! Floor: section. Laws that tie parcall frames to the core: a frame whose slots stand as the core's has the core's left edge,
//! verdict and next redo, and a call that redoes or drains one of its slots is the core's event.
//!
//! Stands on `ap_core` and `ap_frames`, neither of which names the other. No code: each law is the contract of a function that
//! does nothing. The one contract used above: slots that stand alike (`specs/Alike`) have equal verdicts.
#![tactic(auto)]

mod laws;

pub use laws::{drain_law, edge_law, redo_law, replay_law, verdict_law};
