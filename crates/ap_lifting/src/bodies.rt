//! Bodies as they are written.

use ap_term::Term;

/// A check of a group as it is written.
#[derive(Debug, Clone, Copy, PartialEq, Eq)]
pub enum Condition {
    /// `true`, which checks nothing.
    True,
    Ground(u64),
    Indep(u64, u64),
}

/// The body of a clause as it is written. The operators nest to the right or to the left, as they were written, at
/// most 1,000 deep where a body was read.
#[derive(Drop)]
pub enum Body {
    /// A call.
    Goal(Term),
    /// `A, B`
    Conjunction(Box<Body>, Box<Body>),
    /// `A ; B`
    Disjunction(Box<Body>, Box<Body>),
    /// `A & B`
    Parallel(Box<Body>, Box<Body>),
    /// `C => B`
    Conditional(Vec<Condition>, Box<Body>),
}
