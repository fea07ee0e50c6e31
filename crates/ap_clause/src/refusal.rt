//! Why a text is no program, or a piece no query.

use ap_term::Atom;

/// What is too large.
#[derive(Clone, Copy, Debug, PartialEq, Eq)]
pub enum What {
    Variables,
    Arity,
    Goals,
    Group,
    Clauses,
}

/// Why a text is no program, or a piece no query. A line is that of the first token of the clause, counted from 1.
#[derive(Clone, Copy, Debug, PartialEq, Eq)]
pub enum Refusal {
    /// The line is that of the bad token.
    BadToken { line: u64 },
    /// The tokens are no clause, or no query.
    NotAClause { line: u64 },
    /// Too many brackets are open at once, or the term is too deep.
    TooDeep { line: u64 },
    /// The table of names has no room for the clause's and for those of the predicates that are lifted from it.
    TooManyAtoms { line: u64 },
    /// A goal or a head has a name that none may have, one of the table's fixed names.
    Outside { line: u64, name: Atom },
    /// The clause is too large, with what is lifted from it.
    TooLarge { line: u64, what: What },
    NoMemory,
}
