//! Patterns of entries.

ghost use Rattle.std.specs.Prelude.{◌≡◌, ◌++◌, codes, map, option_map, Some, IfOk, IfSome, MatchOption, Contains, IsTrue};
ghost use Rattle.ap_lexer.specs.Piece.{pieces as pieces_of};
ghost use Rattle.ap_lexer.specs.Token.{view};
ghost use Rattle.ap_term.specs.Tree.{Tree};
ghost use Rattle.ap_term.specs.TermView.{tree_of, trees_of};
ghost use Rattle.ap_patterns.specs.Table.{predicate_of};
ghost use Rattle.ap_patterns.specs.declared.entries.Entry.{Entry as Marked};
ghost use Rattle.ap_patterns.specs.declared.entries.Entries.{Entries as Calls};
ghost use Rattle.ap_patterns.specs.Entry.{IsMarked};
ghost use Rattle.ap_patterns.specs.Places.{arguments};
ghost use Rattle.ap_top.specs.Patterns.{ReadsTokens, ReadsPiece, ReadsText, ReadsWord, mark_of, marks_of, is_of, has_clause, IsEntryOf, IsMarkedBy, AreEntries};

use ap_lexer::{LexErr, Piece, Token, pieces, tokens};
use ap_patterns::{Entries, Entry, Mark, Predicate};
use ap_reader::{ReadErr, read_term};
use ap_term::{Atoms, Clause, NoMemory, Program, Term, fixed};
use std::alloc::Global;

/// The term that tokens are. The table stays as it was.
fn read_tokens(alloc: Global, tokens: &[Token], atoms: &mut Atoms) -> Result<Option<Term>, NoMemory>
    ensures read { IfOk result (λ o. MatchOption o ((t : Tree) → ReadsTokens (map view tokens.now) atoms.old t → ⊥) (λ t. ReadsTokens (map view tokens.now) atoms.old (tree_of t))) }
    ensures atoms { atoms.new ≡ atoms.old }
{
    let mark = atoms.mark();
    match read_term(alloc, tokens, atoms) {
        Ok(read) => {
            atoms.cut_to(mark);
            Ok(Some(read.term))
        }
        Err(ReadErr::NoMemory) => Err(NoMemory),
        Err(_) => Ok(None),
    }
}

/// The term that a piece is.
fn read_piece(
    alloc: Global,
    text: &[u8],
    piece: &Piece,
    atoms: &mut Atoms,
) -> Result<Option<Term>, NoMemory>
    requires { Contains (pieces_of text.now) piece.now }
    ensures read { IfOk result (λ o. MatchOption o ((t : Tree) → ReadsPiece text.now piece.now atoms.old t → ⊥) (λ t. ReadsPiece text.now piece.now atoms.old (tree_of t))) }
    ensures atoms { atoms.new ≡ atoms.old }
{
    match tokens(alloc, text, piece) {
        Ok(tokens) => read_tokens(alloc, &tokens, atoms),
        Err(LexErr::BadToken { .. }) => Ok(None),
        Err(LexErr::NoMemory) => Err(NoMemory),
    }
}

/// The term that a text is.
fn read_text(alloc: Global, text: &[u8], atoms: &mut Atoms) -> Result<Option<Term>, NoMemory>
    ensures read { IfOk result (λ o. MatchOption o ((t : Tree) → ReadsText text.now atoms.old t → ⊥) (λ t. ReadsText text.now atoms.old (tree_of t))) }
    ensures atoms { atoms.new ≡ atoms.old }
{
    let Ok(pieces) = pieces(alloc, text) else {
        return Err(NoMemory);
    };
    match pieces.as_slice() {
        [piece] => read_piece(alloc, text, piece, atoms),
        [] => Ok(None),
        [_, _, ..] => Ok(None),
    }
}

/// The term that a word is, before a blank and a full stop.
fn read_word(alloc: Global, word: &str, atoms: &mut Atoms) -> Result<Option<Term>, NoMemory>
    ensures read { IfOk result (λ o. MatchOption o ((t : Tree) → ReadsWord word.now atoms.old t → ⊥) (λ t. ReadsWord word.now atoms.old (tree_of t))) }
    ensures atoms { atoms.new ≡ atoms.old }
{
    let mut text = Vec::new(alloc);
    text.extend_from_slice(word.as_bytes())?;
    text.extend_from_slice(b" .")?;
    read_text(alloc, text.as_slice(), atoms)
}

fn mark_of(term: &Term) -> Option<Mark>
    ensures { result ≡ mark_of (tree_of term.now) }
{
    match term {
        Term::Atom(name) => match name.number() {
            fixed::GROUND_MARK => Some(Mark::Ground),
            fixed::FREE_MARK => Some(Mark::Free),
            fixed::ANY_MARK => Some(Mark::Any),
            _ => None,
        },
        _ => None,
    }
}

/// The marks that arguments are.
#[tactic(auto, using(crate::proofs::PatternWords::rules_of_marks))]
fn marks_of(alloc: Global, args: &[Term]) -> Result<Option<Vec<Mark>>, NoMemory>
    ensures { IfOk result (λ o. option_map (λ ms. ms.items) o ≡ marks_of (trees_of args.now)) }
{
    let mut marks = Vec::new(alloc);
    for arg in args {
        match mark_of(arg) {
            Some(mark) => marks.push(mark)?,
            None => return Ok(None),
        }
    }
    Ok(Some(marks))
}

fn is_of(predicate: &Predicate, clause: &Clause) -> bool
    ensures { result ≡ is_of predicate.now (predicate_of clause.now.head) }
{
    match Predicate::of(clause.head()) {
        Some(other) => *predicate == other,
        None => false,
    }
}

/// Whether a predicate has a clause.
fn has_clause(program: &Program, predicate: &Predicate) -> bool
    ensures { result ≡ has_clause program.now predicate.now }
{
    program
        .as_slice()
        .iter()
        .any(|clause| is_of(predicate, clause))
}

fn arguments(term: &Term) -> &[Term]
    ensures { trees_of result.now ≡ arguments (tree_of term.now) }
{
    match term {
        Term::Node(_, args) => args.as_slice(),
        _ => &[],
    }
}

/// The entry that a term is.
fn entry_in(alloc: Global, program: &Program, term: &Term) -> Result<Option<Entry>, NoMemory>
    ensures { IfOk result (λ o. MatchOption o ((e : Marked) → IsEntryOf program.now (tree_of term.now) e → ⊥) (λ e. IsEntryOf program.now (tree_of term.now) e)) }
{
    let Some(predicate) = Predicate::of(term) else {
        return Ok(None);
    };
    if !has_clause(program, &predicate) {
        return Ok(None);
    }
    match marks_of(alloc, arguments(term))? {
        Some(marks) => Ok(Some(Entry { predicate, marks })),
        None => Ok(None),
    }
}

/// The calls that a term marks.
fn entry_as(alloc: Global, program: &Program, term: &Term) -> Result<Option<Entries>, NoMemory>
    ensures { IfOk result (λ o. MatchOption o ((e : Marked) → IsEntryOf program.now (tree_of term.now) e → ⊥) (λ E. IsMarkedBy program.now (tree_of term.now) E)) }
{
    match entry_in(alloc, program, term)? {
        Some(entry) => Ok(Some(Entries::One(entry))),
        None => Ok(None),
    }
}

/// The entry that a word is.
fn entry_of(
    alloc: Global,
    word: &str,
    program: &Program,
    atoms: &mut Atoms,
) -> Result<Option<Entries>, NoMemory>
    ensures entries { IfOk result (λ o. MatchOption o ((E : Calls) → AreEntries (Some word.now) program.now atoms.old E → ⊥) (λ E. AreEntries (Some word.now) program.now atoms.old E)) }
    ensures atoms { atoms.new ≡ atoms.old }
{
    match read_word(alloc, word, atoms)? {
        Some(term) => entry_as(alloc, program, &term),
        None => Ok(None),
    }
}

/// The entries that a pattern asks for; without one all calls. The table stays as it was.
pub fn entries_of(
    alloc: Global,
    pattern: Option<&str>,
    program: &Program,
    atoms: &mut Atoms,
) -> Result<Option<Entries>, NoMemory>
    ensures entries { IfOk result (λ o. MatchOption o ((E : Calls) → AreEntries (option_map (λ w. w.now) pattern.entry) program.now atoms.old E → ⊥) (λ E. AreEntries (option_map (λ w. w.now) pattern.entry) program.now atoms.old E)) }
    ensures marked { IfOk result (λ o. IfSome o (λ E. IsMarked E)) }
    ensures atoms { atoms.new ≡ atoms.old }
{
    let _kept = program.as_slice();
    match pattern {
        None => Ok(Some(Entries::All)),
        Some(word) => entry_of(alloc, word, program, atoms),
    }
}
