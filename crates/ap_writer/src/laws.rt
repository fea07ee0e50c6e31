//! Laws of lines and texts. The functions do nothing: each carries a theorem in its contract.

ghost use Rattle.std.specs.Prelude.{◌≡◌, ℕ, ◌<◌, ◌^◌, List, length};
ghost use Rattle.ap_term.specs.Tree.{Tree, Trees, none, more};
ghost use Rattle.ap_term.specs.Vars.{vars};
ghost use Rattle.ap_term.specs.UpToNames.{SameUpToNames};
ghost use Rattle.ap_term.specs.AtomTable.{IsWithoutRepeats};
ghost use Rattle.ap_writer.specs.Text.{text, term_text};
ghost use Rattle.ap_writer.specs.Line.{answer_line, printed};
ghost use Rattle.ap_writer.specs.Writable.{IsWritable, IsWritableTuple};

/// Answers that are equal up to the names of their variables have equal lines, and terms equal texts.
pub fn same_up_to_names_print_alike()
    ensures lines { (atoms names : List (List ℕ)) (ts us : Trees) → SameUpToNames ts us → answer_line atoms names ts ≡ answer_line atoms names us }
    ensures texts { (atoms : List (List ℕ)) (t u : Tree) → SameUpToNames (more t none) (more u none) → term_text atoms t ≡ term_text atoms u }
{}

/// And the other way round: where no name stands twice in the table, terms with the same text are the same, up to the
/// names of their variables where these are numbered anew; and of two answers to a query that have the same line, what
/// is printed is the same up to names.
pub fn printed_alike_are_the_same()
    ensures terms { (atoms : List (List ℕ)) (t u : Tree) → IsWithoutRepeats atoms → IsWritable atoms t → IsWritable atoms u → text atoms t ≡ text atoms u → t ≡ u }
    ensures texts { (atoms : List (List ℕ)) (t u : Tree) → IsWithoutRepeats atoms → IsWritable atoms t → IsWritable atoms u → length (vars t) < 2 ^ 63 → length (vars u) < 2 ^ 63 → term_text atoms t ≡ term_text atoms u → SameUpToNames (more t none) (more u none) }
    ensures lines { (atoms names : List (List ℕ)) (ts us : Trees) → IsWithoutRepeats atoms → IsWritableTuple atoms names ts → IsWritableTuple atoms names us → answer_line atoms names ts ≡ answer_line atoms names us → SameUpToNames (printed names ts) (printed names us) }
{}
