//! Floor: text. Tests of searches on programs that are read from text, by the definitions' functions and by the core, and of terms.
// What it is for: what no clause says: that calls answer where memory is ample, that the definitions give the answers that
// the language's rules give, and that long terms need no deep recursion.
// What it stands on: `ap_term`, `ap_spec` and `ap_core`, with `ap_clause` and `ap_writer` for programs and answers as text.
// Nothing is built on it.
#![tactic(auto)]

#[cfg(test)]
mod explorer;
#[cfg(test)]
mod histories;
#[cfg(test)]
mod programs;
#[cfg(test)]
mod reading;
#[cfg(test)]
mod schedules;
#[cfg(test)]
mod terms;
