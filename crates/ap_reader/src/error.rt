//! Why tokens can't be read as a term.

/// Why tokens can't be read as a term. A line is that of the first token, counted from 1.
#[derive(Clone, Copy, Debug, PartialEq, Eq)]
pub enum ReadErr {
    /// The tokens spell no term.
    NotAClause { line: u64 },
    /// Too many brackets are open at once, or the term is too deep.
    TooDeep { line: u64 },
    /// The table of atoms has no room for the term's names.
    TooManyAtoms { line: u64 },
    /// There was no memory for the term.
    NoMemory,
}
