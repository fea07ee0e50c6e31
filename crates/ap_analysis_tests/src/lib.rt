//! Floor: analysis. Tests of the analysis and of certified programs together, on programs that are read from text.
// What it is for: what no clause says of `analyse` and `certify`: that they answer where memory is ample, and that the
// definitions give the tables and refusals that were worked out by hand.
// What it stands on: `ap_fixpoint`, `ap_certify`, and `ap_clause` for the programs. Nothing is built on it.
#![tactic(auto)]

#[cfg(test)]
mod programs;
#[cfg(test)]
mod sequences;
#[cfg(test)]
mod tests;
