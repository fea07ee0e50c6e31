//! Texts as tests write them, and what they are read as.

use ap_lexer::{pieces, tokens};
use ap_reader::{ReadErr, ReadTerm, read_term};
use ap_term::Atoms;
use std::alloc::Global;
use std::test::Fail;

/// A table of names. Nothing is said of it, so that its callers' proofs are short.
pub(crate) fn new_atoms(alloc: Global) -> Result<Atoms, Fail> {
    Ok(Atoms::new(alloc)?)
}

/// What the first piece of a text is read as.
pub(crate) fn read(
    alloc: Global,
    text: &[u8],
    atoms: &mut Atoms,
) -> Result<Result<ReadTerm, ReadErr>, Fail> {
    let pieces = pieces(alloc, text).ok().ok_or("no memory")?;
    let piece = pieces.first().ok_or("no piece")?;
    let tokens = tokens(alloc, text, piece).ok().ok_or("bad token")?;
    Ok(read_term(alloc, &tokens, atoms))
}

/// The text of some parts, each so many times.
pub(crate) fn repeated(alloc: Global, parts: &[(&str, usize)]) -> Result<String, Fail> {
    let mut text = String::new(alloc);
    for (part, times) in parts {
        for _ in 0..*times {
            text.push_str(part)?;
        }
    }
    Ok(text)
}
