//! Laws of printed text that is read. The function does nothing: it carries a theorem in its contract.

ghost use Rattle.std.specs.Prelude.{◌<◌, ℕ, List, All};
ghost use Rattle.std.specs.List.{AllByRecursion};
ghost use Rattle.std.specs.Str.{IsUtf8};
ghost use Rattle.ap_lexer.specs.Lexeme.{Text};
ghost use Rattle.ap_term.specs.AtomTable.{IsAtomTable};
ghost use Rattle.ap_term.specs.Goals.{Clause, Program};
ghost use Rattle.ap_term.specs.UpToNames.{place};
ghost use Rattle.ap_writer.specs.Text.{name_at};
ghost use Rattle.ap_clause.specs.Reads.{AcceptsProgram};
ghost use Rattle.ap_readback.specs.Readback.{line_vars, IsPrintable, program_text, IsReadBack};
ghost use Rattle.ap_readback.specs.Renumbering.{Renumbers};

/// A program that is printed and then read beside the same names is the same program: clause by clause the same atoms and
/// integers, goals, groups and checks in their order, with variables numbered from 1 by first occurrence in the line and
/// the pair of `indep` by its smaller number first. Only the clauses' lines are new. Names are text, and no byte is above
/// 255. The new numbers are the old ones in another order: none is given twice.
pub fn printed_again_as_program()
    ensures program { (names : List Text) (annotated program : Program) (new : List Text) → IsAtomTable names → ((a : ℕ) → IsUtf8 (name_at names a)) → All (λ b. b < 256) (program_text names annotated) → AllByRecursion (IsPrintable names) annotated → AcceptsProgram (program_text names annotated) names program new → IsReadBack names annotated program }
    ensures numbers { (names : List Text) (c : Clause) → IsPrintable names c → Renumbers c.vars (place (line_vars names c)) }
{}
