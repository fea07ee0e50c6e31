//! Floor: section. Tests of the machine, of what it stands on, of frames and of sections, on code and rows that were written by hand.
// What it is for: what no clause says: that calls answer where memory is ample, and that searches give the answers, counts of calls
// and groups, and frames the verdicts, that were worked out by hand.
// What it stands on: `ap_control`, `ap_environments`, `ap_machine`, `ap_frames` and `ap_section`, `ap_codecheck` for sound code, and
// `ap_clause`, `ap_codegen`, `ap_spec` and the writers for programs as text. Nothing is built on it.
#![tactic(auto)]

#[cfg(test)]
mod clauses;
#[cfg(test)]
mod environments;
#[cfg(test)]
mod groups;
mod next;
#[cfg(test)]
mod openings;
#[cfg(test)]
mod reading;
#[cfg(test)]
mod searches;
#[cfg(test)]
mod sections;
#[cfg(test)]
mod verdicts;

pub use next::Next;
