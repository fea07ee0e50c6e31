//! What a section that is driven by hand does at its frame.

use ap_section::Section;

/// What is done at a frame.
#[derive(Drop)]
pub enum Next {
    /// The goal of a slot is run, by this section.
    Run(usize, Section),
    /// The frame was settled.
    Went,
    /// The budget is spent.
    Spent,
}
