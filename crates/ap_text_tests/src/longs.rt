//! Clauses of more tokens than are kept in a list.

use crate::clauses::{answer_beside, nearly_full};
use crate::reading::{new_atoms, repeated};
use std::test::Fail;

/// Parts of a text, each so many times, and its answer. The first line of each clause in question has more than 4,096 tokens.
static LONG: [(&[(&str, usize)], &str); 18] = [
    (&[("p([0", 1), (",1", 3000), ("]).", 1)], "a program"),
    (
        &[
            ("p([0", 1),
            (",f(-1,- 1,a+X,'b c',[],[_|T],(c:-d))", 200),
            ("]).", 1),
        ],
        "a program",
    ),
    (
        &[
            ("p :- q([0", 1),
            (",1", 3000),
            ("]), r ; s, (ground(X) => u). v.", 1),
        ],
        "a program",
    ),
    (
        &[
            ("p([0", 1),
            (",1", 3000),
            (",", 1),
            ("[", 998),
            ("]", 998),
            ("]).", 1),
        ],
        "a program",
    ),
    (
        &[
            ("p([0", 1),
            (",1", 3000),
            (",", 1),
            ("- ", 998),
            ("a]).", 1),
        ],
        "a program",
    ),
    (
        &[("q.\n\np([0", 1), (",1", 3000), ("],\n\" .", 1)],
        "line 4: bad token",
    ),
    (
        &[
            ("q.\n\np(a b", 1),
            (",1", 3000),
            (",", 1),
            ("[", 1001),
            (",\n\" .", 1),
        ],
        "line 4: bad token",
    ),
    (
        &[
            ("p([0", 1),
            (",1", 3000),
            (",", 1),
            ("[", 999),
            ("]", 999),
            ("]).", 1),
        ],
        "line 1: too deep",
    ),
    (
        &[("p(a b", 1), (",1", 3000), (",", 1), ("[", 1000), (".", 1)],
        "line 1: too deep",
    ),
    (
        &[("q.\n\np([0", 1), (",1", 3000), ("] a).", 1)],
        "line 3: not a clause",
    ),
    (
        &[("q.\n\np([0", 1), (",1", 3000), ("])", 1)],
        "line 3: not a clause",
    ),
    (
        &[("q. p([0", 1), (",1", 3000), ("]) :- 3.", 1)],
        "line 1: not a clause",
    ),
    (
        &[
            ("X :- q([0", 1),
            (",1", 3000),
            (",", 1),
            ("- ", 1001),
            ("a]).", 1),
        ],
        "line 1: not a clause",
    ),
    (&[("p(0", 1), ("+1", 3000), (").", 1)], "line 1: too deep"),
    (
        &[("p :- call([0", 1), (",1", 3000), ("]).", 1)],
        "line 1: outside call",
    ),
    (
        &[("p([0", 1), (",_", 3000), ("]).", 1)],
        "line 1: too large variables",
    ),
    (
        &[("p(0", 1), (",1", 3000), (").", 1)],
        "line 1: too large arity",
    ),
    (
        &[
            ("p :- a([0", 1),
            (",1", 3000),
            ("])", 1),
            (", a", 255),
            (".", 1),
        ],
        "line 1: too large goals",
    ),
];

#[test]
fn long_clauses_are_judged_as_others(rt: HostRuntime) -> Result<(), Fail> {
    for (parts, wanted) in &LONG {
        let text = repeated(rt.alloc(), parts)?;
        let mut atoms = new_atoms(rt.alloc())?;
        let found = answer_beside(rt.alloc(), text.as_str(), &mut atoms)?;
        assert!(rt; found.as_str() == *wanted, "{text}");
    }
    Ok(())
}

/// What a table with room for two names answers, each text after the others.
static FILLED: [(&[(&str, usize)], &str); 3] = [
    (
        &[
            ("p(q+r", 1),
            ("+1", 900),
            (",X", 1),
            ("+1", 900),
            (",X", 1),
            ("+1", 900),
            (").", 1),
        ],
        "line 1: too many atoms",
    ),
    (
        &[
            ("p(q", 1),
            ("+1", 900),
            (",X", 1),
            ("+1", 900),
            (",X", 1),
            ("+1", 900),
            (").", 1),
        ],
        "a program",
    ),
    (
        &[
            ("q(p", 1),
            ("+1", 900),
            (",X", 1),
            ("+1", 900),
            (",X", 1),
            ("+1", 900),
            (").", 1),
        ],
        "a program",
    ),
];

#[test]
fn room_for_the_names_of_a_long_clause_is_exact(rt: HostRuntime) -> Result<(), Fail> {
    let mut atoms = nearly_full(rt.alloc())?;
    for (parts, wanted) in &FILLED {
        let text = repeated(rt.alloc(), parts)?;
        let found = answer_beside(rt.alloc(), text.as_str(), &mut atoms)?;
        assert!(rt; found.as_str() == *wanted, "{text}");
    }
    Ok(())
}
