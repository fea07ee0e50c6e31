//! The lines of refusals.

ghost use Rattle.std.specs.Prelude.{◌≡◌, IfOk, OnOk, ◌++◌};
ghost use Rattle.ap_top.specs.Refusals.{what_text, reason, line_of, refusal_line};

use ap_clause::{Refusal, What};
use ap_term::{Atoms, NoMemory, Term};
use ap_writer::term_text;
use std::alloc::{AllocError, Global};

fn what_text(what: What) -> &'static [u8]
    ensures { result.now ≡ what_text what }
{
    match what {
        What::Variables => b"variables",
        What::Arity => b"arity",
        What::Goals => b"goals",
        What::Group => b"group",
        What::Clauses => b"clauses",
    }
}

// Two texts as one.
fn joined(alloc: Global, first: &[u8], second: &[u8]) -> Result<Vec<u8>, AllocError>
    ensures { IfOk result (λ v. v.items ≡ first.now ++ second.now) }
{
    let mut all = first.to_vec(alloc)?;
    all.extend_from_slice(second)?;
    Ok(all)
}

fn reason(alloc: Global, refusal: &Refusal, atoms: &Atoms) -> Result<Vec<u8>, NoMemory>
    ensures { IfOk result (λ text. text.items ≡ reason atoms.now refusal.now) }
{
    let text = match *refusal {
        Refusal::BadToken { .. } => b"bad token".to_vec(alloc)?,
        Refusal::NotAClause { .. } => b"not a clause".to_vec(alloc)?,
        Refusal::TooDeep { .. } => b"too deep".to_vec(alloc)?,
        Refusal::TooManyAtoms { .. } => b"too many atoms".to_vec(alloc)?,
        Refusal::Outside { name, .. } => {
            let name = term_text(alloc, &Term::Atom(name), atoms)?;
            joined(alloc, b"outside ", &name)?
        }
        Refusal::TooLarge { what, .. } => joined(alloc, b"too large ", what_text(what))?,
        Refusal::NoMemory => Vec::new(alloc),
    };
    Ok(text)
}

fn line_of(refusal: &Refusal) -> u64
    ensures { result ≡ line_of refusal.now }
{
    match *refusal {
        Refusal::BadToken { line } => line,
        Refusal::NotAClause { line } => line,
        Refusal::TooDeep { line } => line,
        Refusal::TooManyAtoms { line } => line,
        Refusal::Outside { line, .. } => line,
        Refusal::TooLarge { line, .. } => line,
        Refusal::NoMemory => 0,
    }
}

/// The line of a refusal, with its line feed.
pub fn refusal_line(alloc: Global, refusal: &Refusal, atoms: &Atoms) -> Result<Vec<u8>, NoMemory>
    ensures { IfOk result (λ line. line.items ≡ refusal_line atoms.now refusal.now) }
{
    let reason = reason(alloc, refusal, atoms)?;
    let mut buffer = itoa::Buffer::new();
    let mut line = b"refused: line ".to_vec(alloc)?;
    line.extend_from_slice(buffer.format(line_of(refusal)).as_bytes())?;
    line.extend_from_slice(b": ")?;
    line.extend_from_slice(&reason)?;
    line.push(b'\n')?;
    Ok(line)
}
