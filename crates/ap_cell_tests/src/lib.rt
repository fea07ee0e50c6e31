//! Floor: store. Tests of the crates on cells together, beside the functions of the definitions.
// What it is for: what no clause says of `push`, `unify`, `undo_to`, `copy_out`, `copy_in`, `term_at`, `ground`, `indep`,
// `eval`, `test` and `answer_line` together: that they answer where memory is ample, also on terms of a great depth.
// What it stands on: `ap_cells` and the crates above it, and `ap_spec` for the answers. Nothing is built on it.
#![tactic(auto)]

#[cfg(test)]
mod building;
#[cfg(test)]
mod calls;
#[cfg(test)]
mod lines;
#[cfg(test)]
mod marks;
#[cfg(test)]
mod tests;
