//! Laws of the limits and of texts.

ghost use Rattle.std.specs.Prelude.{List};
ghost use Rattle.ap_lexer.specs.Lexeme.{Text};
ghost use Rattle.ap_lexer.specs.declared.cut.Piece.{Piece};
ghost use Rattle.ap_term.specs.AtomTable.{IsAtomTable};
ghost use Rattle.ap_term.specs.Goals.{Program};
ghost use Rattle.ap_clause.specs.Law.{HasOneProgram, HasOneQuery};
ghost use Rattle.ap_clause.specs.Numbers.{LimitsLaw};
ghost use Rattle.ap_clause.specs.TextMeaning.{TextMeaningLaw};

use ap_lifting::meaning_law;

/// The limits of a clause, of its goals and of a program are those that are written out.
pub fn limits_law()
    ensures { LimitsLaw }
{}

/// A text is one program, or it is refused for one reason.
pub fn one_program()
    ensures { (text : Text) (table : List Text) → IsAtomTable table → HasOneProgram text table }
{}

/// A piece of a text is one query beside a program, or it is refused for one reason.
pub fn one_query()
    ensures { (text : Text) (piece : Piece) (program : Program) (table : List Text) → HasOneQuery text piece program table }
{}

/// The search of a program and a query that were read is that of their clauses as they are written.
pub fn text_meaning_law()
    ensures { TextMeaningLaw }
{
    meaning_law();
}
