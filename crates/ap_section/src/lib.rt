//! Floor: section. The section: a search beside the parcall frames of its forks, whose slots hold sections.
//!
//! Stands on `ap_machine` for the search, on `ap_frames` for the slots, on `ap_tied` for what each call is in the core. The one
//! contract used above: whatever task of the core a section is tied to, each call leads it by events to one that it is tied to
//! then.
//!
//! Dropping a section goes down into the sections of its slots, as deep as groups are nested.
#![tactic(auto)]

mod advance;
mod emptying;
mod held;
mod pool;
mod release;
mod section;
mod settle;
mod slots;
mod start;

pub use advance::Turn;
pub use pool::Pool;
pub use section::Section;
pub use settle::Settled;
