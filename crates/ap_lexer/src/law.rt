ghost use Rattle.std.specs.Prelude.{◌≡◌, ◌<◌, ℕ, All, length, Contains};
ghost use Rattle.ap_lexer.specs.Lexeme.{Text, lexeme};
ghost use Rattle.ap_lexer.specs.declared.kind.TokenKind.{TokenKind};
ghost use Rattle.ap_lexer.specs.declared.kind.LexemeKind.TheVariants.{Token};
ghost use Rattle.ap_lexer.specs.Row.{IsRow, IsToken};
ghost use Rattle.ap_lexer.specs.Law.{HasOneCutting, ReadsWithoutPlaces};
ghost use Rattle.ap_lexer.specs.Piece.{pieces};
ghost use Rattle.ap_lexer.specs.declared.cut.Piece.{Piece};

/// Each text is cut into lexemes in one way, and the lexemes joined are the text.
pub fn one_cutting()
    ensures { (text : Text) → HasOneCutting text }
{}

/// The tokens of a piece without a bad token are known by the text from its first byte on: their
/// kinds, their bytes and whether the next one touches. Where they stand in the text says no more.
pub fn tokens_without_places()
    ensures { (text : Text) (p : Piece) → Contains (pieces text) p → ReadsWithoutPlaces text p }
{}

/// What stands at the front of a text is a row of the table of tokens: a longest run, a quoted name
/// made of characters, doubled quotes and escapes, a comment to its first end; and what is bad is
/// none of these, and runs to the first full stop behind its first byte. The other way round, what
/// is a row of the table at the front of a text of bytes is the token that stands there.
pub fn lexemes_are_rows()
    ensures rows { (text : Text) → 0 < length text → IsRow (lexeme text).0 text (lexeme text).1 }
    ensures tokens { (row : TokenKind) (text : Text) (n : ℕ) → All (λ b. b < 256) text → 0 < n → IsToken row text n → lexeme text ≡ (Token row, n) }
{}
