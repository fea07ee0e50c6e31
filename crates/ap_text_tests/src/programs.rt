//! Programs that are printed, read and printed once more.

use crate::examples::EXAMPLES;
use crate::lines::printed;
use crate::reading::new_atoms;
use ap_cge::hand_written;
use ap_clause::program;
use ap_term::Atoms;
use std::alloc::Global;
use std::test::Fail;

/// A text, and what is printed of its program.
static PROGRAMS: [(&str, &str); 6] = [
    (
        "p(X) :- ( X = 1 ; X = 2 ).",
        "p(_1) :- lift_1(_1).\nlift_1(_1) :- =(_1,1).\nlift_1(_1) :- =(_1,2).\n",
    ),
    (
        "p(X, Y) :- (ground(X), indep(Y, X)) => a(X) & b(Y), c.",
        "p(_1,_2) :- (ground(_1), indep(_1,_2)) => a(_1) & b(_2), c.\n",
    ),
    (
        "p :- a & b & c. p :- ground(X) => a & q(Y, X).",
        "p :- a & b & c.\np :- ground(_1) => a & q(_2,_1).\n",
    ),
    (
        "(is) :- (mod), (-), [a|T] = 'X y'.",
        "(is) :- (mod), (-), =([a|_1],'X y').\n",
    ),
    (
        "p([]). q(- 1, -1, 'it''s', (;), f(,)).",
        "p([]).\nq(-(1),-1,'it\\'s',;,f(',')).\n",
    ),
    ("% nothing\n", ""),
];

/// What is printed of a text's program.
fn printed_of(alloc: Global, text: &str, atoms: &mut Atoms) -> Result<String, Fail> {
    let program = program(alloc, text.as_bytes(), atoms)
        .ok()
        .ok_or("refused")?;
    let annotated = hand_written(alloc, &program)?;
    printed(alloc, &annotated, atoms)
}

/// Whether a text's program is printed as something, and what is read of that as the same; `None` where any lines will do.
fn is_printed(alloc: Global, text: &str, wanted: Option<&str>) -> Result<bool, Fail> {
    let mut atoms = new_atoms(alloc)?;
    let first = printed_of(alloc, text, &mut atoms)?;
    let again = printed_of(alloc, first.as_str(), &mut atoms)?;
    let is_wanted = match wanted {
        Some(lines) => first.as_str() == lines,
        None => !first.is_empty(),
    };
    Ok(is_wanted && first.as_str() == again.as_str())
}

#[test]
fn a_printed_program_is_read_as_the_same(rt: HostRuntime) -> Result<(), Fail> {
    for (text, lines) in &PROGRAMS {
        assert!(rt; is_printed(rt.alloc(), text, Some(*lines))?, "{text}");
    }
    Ok(())
}

#[test]
fn the_examples_are_read_as_the_same(rt: HostRuntime) -> Result<(), Fail> {
    for text in &EXAMPLES {
        assert!(rt; is_printed(rt.alloc(), text, None)?, "{text}");
    }
    Ok(())
}
