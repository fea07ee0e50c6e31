//! Laws of the tables, of the grammar and of steps.

ghost use Rattle.std.specs.Prelude.{◌≡◌, ℕ, List, [], ◌∷◌, Some, map};
ghost use Rattle.ap_lexer.specs.Token.{Placed};
ghost use Rattle.ap_reader.specs.declared.word.Word.{Word};
ghost use Rattle.ap_reader.specs.Standard.{TablesLaw};
ghost use Rattle.ap_reader.specs.Grammar.{Tree, spelled, IsWhole};
ghost use Rattle.ap_reader.specs.Machine.{parsed};
ghost use Rattle.ap_reader.specs.Step.{postfix};
ghost use Rattle.ap_reader.specs.Written.{Written, meaning};
ghost use Rattle.ap_reader.specs.Evaluated.{ATerm, evaluated};
ghost use Rattle.ap_reader.specs.Reading.{Spells, term_of};

/// The operators and the limits of terms are those that are written out.
pub fn tables_law()
    ensures { TablesLaw }
{}

/// A list of words is spelled by at most one tree that keeps the rules.
pub fn one_tree()
    ensures { (a b : Tree) → IsWhole a → IsWhole b → spelled a ≡ spelled b → a ≡ b }
{}

/// A list of tokens is at most one term.
pub fn one_term()
    ensures { (ts f g : List Placed) (a b : Tree) → Spells ts f a → Spells ts g b → term_of f a ≡ term_of g b }
{}

/// What the pass finds keeps the rules and is spelled so, and it finds each such tree.
pub fn pass_is_exact()
    ensures sound { (words : List Word) (t : Tree) → parsed words ≡ Some t → IsWhole t × (spelled t ≡ words) }
    ensures complete { (t : Tree) → IsWhole t → parsed (spelled t) ≡ Some t }
{}

/// The steps of a tree leave the term that it means, and nothing else, on an empty stack.
pub fn steps_make_the_term()
    ensures { (leaves : List Written) (t : Tree) → evaluated leaves [] (postfix t) ≡ ATerm (meaning leaves t) ∷ [] }
{}
