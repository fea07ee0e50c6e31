//! Floor: program. Tests of the reading of command lines.
// What it is for: what no clause says of `read`: that it succeeds where memory is ample, and that `clap` reads the lines
// that aren't plain as its own documents say.
// What it stands on: `ap_words`. Nothing is built on it.
#![tactic(auto)]

#[cfg(test)]
mod lines;
