//! Floor: analysis. Tests of abstract states: rows that were worked out by hand, and states beside random instances that they cover.
// What it is for: what no clause says: that each call answers where memory is ample, that the definitions give what was found
// by hand from the rules of the analysis, and that what the unifier of `ap_spec` makes of instances is covered.
// What it stands on: `ap_sharing` to `ap_patterns`, `ap_conditions` and `ap_spec`. Nothing is built on it.
#![tactic(auto)]

#[cfg(test)]
mod building;
#[cfg(test)]
mod checks;
#[cfg(test)]
mod covering;
#[cfg(test)]
mod free;
#[cfg(test)]
mod goals;
#[cfg(test)]
mod patterns;
#[cfg(test)]
mod sets;
