//! Laws of printed text. The function does nothing: it carries a theorem in its contract.

ghost use Rattle.std.specs.Prelude.{◌≡◌, ◌<◌, ◌^◌, ◌++◌, ℕ, ℤ, List, All, codes, true};
ghost use Rattle.std.specs.Str.{IsUtf8};
ghost use Rattle.std.specs.Fmt.{decimal, signed_decimal};
ghost use Rattle.ap_term.specs.Arithmetic.{fits};
ghost use Rattle.ap_term.specs.Tree.{Tree};
ghost use Rattle.ap_writer.specs.Quoted.{name_text};
ghost use Rattle.ap_writer.specs.Text.{name_at, text};
ghost use Rattle.ap_writer.specs.Writable.{IsWritable};
ghost use Rattle.ap_cge.specs.Again.{is_apart, name_tokens, integer_tokens, variable_tokens, IsReadAs};
ghost use Rattle.ap_cge.specs.TermTokens.{term_tokens};

/// A name, an integer, a variable or a term without operators that is printed before what can't go on with it is read as
/// its tokens, and what follows is read as it is by itself. Names are text, and no byte is above 255.
pub fn printed_again_as_tokens()
    ensures names { (name rest : List ℕ) → IsUtf8 name → All (λ b. b < 256) (name_text name ++ rest) → is_apart rest ≡ true → IsReadAs (name_text name) (name_tokens name) rest }
    ensures integers { (z : ℤ) (rest : List ℕ) → fits z ≡ true → is_apart rest ≡ true → IsReadAs (signed_decimal z) (integer_tokens z) rest }
    ensures terms { (names : List (List ℕ)) (t : Tree) (rest : List ℕ) → ((a : ℕ) → IsUtf8 (name_at names a)) → IsWritable names t → All (λ b. b < 256) (text names t ++ rest) → is_apart rest ≡ true → IsReadAs (text names t) (term_tokens names t) rest }
    ensures variables { (n : ℕ) (rest : List ℕ) → n < 2 ^ 64 → is_apart rest ≡ true → IsReadAs (codes "_" ++ decimal n) (variable_tokens n) rest }
{}
