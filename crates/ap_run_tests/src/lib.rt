//! Floor: program. Tests of `run` over the outside in memory: of answers, faults, limits, what is shown, listings, and loads.
// What it is for: what no clause says of `run`: that it succeeds where memory is ample, with the lines that were worked
// out by hand. The listings are the tests of the compiler, the choices those of its index.
// What it stands on: `ap_top` and `ap_outside`. Nothing is built on it.
#![tactic(auto)]

#[cfg(test)]
mod answers;
#[cfg(test)]
mod cases;
#[cfg(test)]
mod charges;
#[cfg(test)]
mod choices;
#[cfg(test)]
mod failing;
#[cfg(test)]
mod faults;
#[cfg(test)]
mod groups;
#[cfg(test)]
mod limits;
#[cfg(test)]
mod listings;
#[cfg(test)]
mod loads;
#[cfg(test)]
mod meeting;
#[cfg(test)]
mod parts;
#[cfg(test)]
mod shown;
#[cfg(test)]
mod steals;
#[cfg(test)]
mod workers;
