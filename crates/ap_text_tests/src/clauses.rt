//! Texts that are refused, with the line and the reason; the limits; texts beside their lifted form.

use crate::reading::{new_atoms, repeated};
use ap_clause::{Refusal, What, program, query};
use ap_lexer::pieces;
use ap_spec::identical;
use ap_term::{Atoms, Clause, MAX_ATOMS, Part, Program, Query, Term};
use std::alloc::Global;
use std::test::Fail;

fn reason(what: What) -> &'static str {
    match what {
        What::Variables => "variables",
        What::Arity => "arity",
        What::Goals => "goals",
        What::Group => "group",
        What::Clauses => "clauses",
    }
}

/// The line, the cause, and what it names.
fn parts_of<'a>(refusal: &Refusal, atoms: &'a Atoms) -> (u64, &'a str, &'a str) {
    match refusal {
        Refusal::BadToken { line } => (*line, "bad token", ""),
        Refusal::NotAClause { line } => (*line, "not a clause", ""),
        Refusal::TooDeep { line } => (*line, "too deep", ""),
        Refusal::TooManyAtoms { line } => (*line, "too many atoms", ""),
        Refusal::Outside { line, name } => {
            (*line, "outside ", atoms.get(*name).unwrap_or("nothing"))
        }
        Refusal::TooLarge { line, what } => (*line, "too large ", reason(*what)),
        Refusal::NoMemory => (0, "no memory", ""),
    }
}

/// A refusal as it is printed.
fn shown(alloc: Global, refusal: &Refusal, atoms: &Atoms) -> Result<String, Fail> {
    let (line, cause, name) = parts_of(refusal, atoms);
    Ok(format!(in alloc; "line {line}: {cause}{name}")?)
}

/// What a program's text is answered beside a table of names.
pub(crate) fn answer_beside(alloc: Global, text: &str, atoms: &mut Atoms) -> Result<String, Fail> {
    let refused = program(alloc, text.as_bytes(), atoms).err();
    match &refused {
        None => Ok(String::from_str(alloc, "a program")?),
        Some(refusal) => shown(alloc, refusal, atoms),
    }
}

fn is_answer(alloc: Global, text: &str, wanted: &str) -> Result<bool, Fail> {
    let mut atoms = new_atoms(alloc)?;
    Ok(answer_beside(alloc, text, &mut atoms)?.as_str() == wanted)
}

/// The name and the number of arguments of a head.
fn head_of<'a>(clause: &Clause, atoms: &'a Atoms) -> (&'a str, usize) {
    match clause.head() {
        Term::Atom(name) => (atoms.get(*name).unwrap_or(""), 0),
        Term::Node(name, args) => (atoms.get(*name).unwrap_or(""), args.len()),
        _ => ("", 0),
    }
}

/// A query with the heads of what is lifted from it, and the names of its variables.
fn shown_query(alloc: Global, query: &Query, atoms: &Atoms) -> Result<String, Fail> {
    let mut text = String::from_str(alloc, "a query")?;
    for clause in query.lifted() {
        let (name, arity) = head_of(clause, atoms);
        text.push_str(format!(in alloc; " {name}/{arity}")?.as_str())?;
    }
    for name in query.names() {
        text.push_str(" ")?;
        text.push_str(name.as_str())?;
    }
    Ok(text)
}

/// What the last piece of a source is read as beside a program.
fn last_query(
    alloc: Global,
    program: &Program,
    source: &str,
    atoms: &mut Atoms,
) -> Result<Result<Query, Refusal>, Fail> {
    let pieces = pieces(alloc, source.as_bytes()).ok().ok_or("no memory")?;
    let last = pieces.len().saturating_sub(1);
    let piece = pieces.get(last).ok_or("no piece")?;
    Ok(query(alloc, source.as_bytes(), piece, program, atoms))
}

fn last_answer(
    alloc: Global,
    program: &Program,
    source: &str,
    atoms: &mut Atoms,
) -> Result<String, Fail> {
    match &last_query(alloc, program, source, atoms)? {
        Ok(query) => shown_query(alloc, query, atoms),
        Err(refusal) => shown(alloc, refusal, atoms),
    }
}

fn program_of(alloc: Global, text: &str, atoms: &mut Atoms) -> Result<Program, Fail> {
    let program = program(alloc, text.as_bytes(), atoms).ok();
    Ok(program.ok_or("refused")?)
}

/// What the last query of a source is answered beside the program of a text.
fn query_answer(alloc: Global, file: &str, source: &str) -> Result<String, Fail> {
    let mut atoms = new_atoms(alloc)?;
    let program = program_of(alloc, file, &mut atoms)?;
    last_answer(alloc, &program, source, &mut atoms)
}

/// The names that no goal and no head may have; `\+` stands among the programs, since its quoted form differs.
static REFUSED: [&str; 57] = [
    "!",
    "->",
    "-->",
    ":-",
    "?-",
    "=..",
    "@<",
    "@>",
    "@=<",
    "@>=",
    "call",
    "once",
    "catch",
    "throw",
    "halt",
    "repeat",
    "assert",
    "asserta",
    "assertz",
    "retract",
    "abolish",
    "clause",
    "findall",
    "bagof",
    "setof",
    "functor",
    "arg",
    "copy_term",
    "compare",
    "var",
    "nonvar",
    "atom",
    "number",
    "integer",
    "float",
    "atomic",
    "compound",
    "ground",
    "indep",
    "read",
    "write",
    "writeq",
    "write_canonical",
    "print",
    "nl",
    "get_char",
    "put_char",
    "op",
    "consult",
    "atom_length",
    "atom_concat",
    "atom_chars",
    "atom_codes",
    "char_code",
    "sub_atom",
    "number_codes",
    "number_chars",
];

/// A program, and what it is answered.
static PROGRAMS: [(&str, &str); 79] = [
    ("", "a program"),
    ("% nothing\n", "a program"),
    ("p(1). p(2).", "a program"),
    ("n(z). n(s(X)) :- n(X).", "a program"),
    ("p(X) :- ( X = 1 ; X = 2 ).", "a program"),
    ("p :- X = 1.", "a program"),
    ("p :- a & (true => b).", "a program"),
    ("','(a,b,c).", "a program"),
    ("','.", "a program"),
    ("(a :- b).", "a program"),
    (
        "p(X) :- (ground((X)), indep(X,Y)) => a(Y) & b.",
        "a program",
    ),
    ("p :- (b, true => c & d) & a.", "a program"),
    ("true(X).", "a program"),
    ("=(X).", "a program"),
    ("is(X).", "a program"),
    ("p :- ground(X) => a.", "a program"),
    ("X.", "line 1: not a clause"),
    ("1.", "line 1: not a clause"),
    ("-1.", "line 1: not a clause"),
    ("a, b.", "line 1: not a clause"),
    ("a ; b.", "line 1: not a clause"),
    ("a & b.", "line 1: not a clause"),
    ("true => a.", "line 1: not a clause"),
    ("','(a,b).", "line 1: not a clause"),
    ("p :- 1.", "line 1: not a clause"),
    ("p :- a, 1.", "line 1: not a clause"),
    ("p :- (1 ; a).", "line 1: not a clause"),
    ("p :- a & 1.", "line 1: not a clause"),
    ("p :- f(X) => a.", "line 1: not a clause"),
    ("p :- ground(f(X)) => a.", "line 1: not a clause"),
    ("p :- ground(a) => b.", "line 1: not a clause"),
    ("p :- indep(X,a) => a.", "line 1: not a clause"),
    (
        "p(X) :- (true, ground(X)) => a & b.",
        "line 1: not a clause",
    ),
    (
        "p(X) :- (ground(X) ; ground(X)) => a.",
        "line 1: not a clause",
    ),
    ("p :- a & =>(true,b).", "line 1: not a clause"),
    ("p :- &(=>(true,b),a).", "line 1: not a clause"),
    ("X :- a.", "line 1: not a clause"),
    ("1 :- a.", "line 1: not a clause"),
    ("(a,b) :- c.", "line 1: not a clause"),
    ("(a & b) :- c.", "line 1: not a clause"),
    ("p(2", "line 1: not a clause"),
    ("p", "line 1: not a clause"),
    ("p :- .", "line 1: not a clause"),
    ("p :- a b.", "line 1: not a clause"),
    ("a = b = c.", "line 1: not a clause"),
    ("p(1).\np(2", "line 2: not a clause"),
    ("p :-\n\n 1.", "line 1: not a clause"),
    ("p.\n\n% c\nq :- 1.\n!.", "line 4: not a clause"),
    ("p :- !.", "line 1: outside !"),
    ("p :- X.", "line 1: outside call"),
    (":- a.", "line 1: outside :-"),
    (":- 1.", "line 1: outside :-"),
    ("?- a.", "line 1: outside ?-"),
    ("a --> b.", "line 1: outside -->"),
    ("p :- a -> b.", "line 1: outside ->"),
    ("p :- \\+ a.", "line 1: outside \\+"),
    ("p :- '\\\\+'(a, b).", "line 1: outside \\+"),
    ("'\\\\+' :- nl.", "line 1: outside \\+"),
    ("p :- call(X), findall(a,b,c).", "line 1: outside call"),
    ("call :- findall.", "line 1: outside call"),
    ("p :- (a ; !), halt.", "line 1: outside !"),
    ("p :- a & halt & nl.", "line 1: outside halt"),
    ("p :- a, (b & (c, write(x))), nl.", "line 1: outside write"),
    ("p :- ground(X).", "line 1: outside ground"),
    ("p(X) :- ground(X) => nl.", "line 1: outside nl"),
    ("(a :- b) :- c.", "line 1: outside :-"),
    ("true.", "line 1: outside true"),
    ("fail :- a.", "line 1: outside fail"),
    ("X = Y.", "line 1: outside ="),
    ("is(X,Y) :- a.", "line 1: outside is"),
    ("X >= Y.", "line 1: outside >="),
    ("ground(X).", "line 1: outside ground"),
    ("p :- ground(X) => indep(X,Y).", "line 1: outside indep"),
    ("p.\nq :-\n a, nl.", "line 2: outside nl"),
    ("p :- \"a\".", "line 1: bad token"),
    ("p.\nq :- {a}.", "line 2: bad token"),
    ("p :-\n `.", "line 2: bad token"),
    ("X.\n{.", "line 1: not a clause"),
    ("p :- !. q :- {}.", "line 1: outside !"),
];

/// A program, queries, and what the last one is answered: what is lifted from it goes on behind its program.
static QUERIES: [(&str, &str, &str); 20] = [
    ("", "?- true.", "a query"),
    ("", "?- X = f(X).", "a query X"),
    ("n(z). n(s(X)) :- n(X).", "?- n(X).", "a query X"),
    ("", "a, b.", "a query"),
    ("", "(?- a ; b).", "a query lift_1/0 lift_1/0"),
    ("", "X.", "line 1: outside call"),
    ("", "1.", "line 1: not a clause"),
    ("", "?- a, 1.", "line 1: not a clause"),
    ("", ":- a.", "line 1: outside :-"),
    ("", "?- (?- a).", "line 1: outside ?-"),
    ("", "a :- b.", "line 1: outside :-"),
    ("", "?- a, nl.", "line 1: outside nl"),
    ("", "?- X = 9223372036854775808.", "line 1: not a clause"),
    ("", "?- X is -9223372036854775808.", "a query X"),
    ("", "?- {}.", "line 1: bad token"),
    ("", "?- a & true => b.", "line 1: not a clause"),
    ("", "?- ground(X) => a & b.", "a query X"),
    ("p(1). p(2).", "?- p(1).\n?- p(.\n", "line 2: not a clause"),
    (
        "p :- (a ; b). lift_3.",
        "?- (lift_4(X, _Y) ; a), (b(X) ; c(_)).",
        "a query lift_2/3 lift_2/3 lift_5/3 lift_5/3 X _Y _",
    ),
    (
        "p.",
        "?- p(A,B,C,D,E,F,G,H,I,J,K,L,M,N,O,_,P,Q,R,_,S,R,T,A,P,Q,Z,S,T,O).",
        "a query A B C D E F G H I J K L M N O _ P Q R _ S T Z",
    ),
];

/// A text by parts and how often each stands there, and what it is answered.
static LIMITS: [(&[(&str, usize)], &str); 21] = [
    (&[("p([X1", 1), (",_", 254), ("]).", 1)], "a program"),
    (
        &[("p([X1", 1), (",_", 255), ("]).", 1)],
        "line 1: too large variables",
    ),
    (&[("p(a", 1), (",a", 254), (").", 1)], "a program"),
    (
        &[("p(a", 1), (",a", 255), (").", 1)],
        "line 1: too large arity",
    ),
    (
        &[("p :- q(f(a", 1), (",a", 255), (")).", 1)],
        "line 1: too large arity",
    ),
    (
        &[("p(_", 1), (",_", 255), (").", 1)],
        "line 1: too large variables",
    ),
    (
        &[("p([_", 1), (",_", 300), ("]) :- nl.", 1)],
        "line 1: outside nl",
    ),
    (
        &[("p([_", 1), (",_", 300), ("]) :- 1.", 1)],
        "line 1: not a clause",
    ),
    (&[("p :- a", 1), (",a", 254), (".", 1)], "a program"),
    (
        &[("p :- a", 1), (",a", 255), (".", 1)],
        "line 1: too large goals",
    ),
    (
        &[("p :- (b ; a", 1), (",a", 255), (").", 1)],
        "line 1: too large goals",
    ),
    (&[("p :- a", 1), ("&a", 31), (".", 1)], "a program"),
    (
        &[("p :- a", 1), ("&a", 32), (".", 1)],
        "line 1: too large group",
    ),
    (
        &[("p :- a, (b, (a", 1), ("&a", 32), ("))&c.", 1)],
        "line 1: too large group",
    ),
    (
        &[("p :- a", 1), ("&a", 255), (".", 1)],
        "line 1: too large goals",
    ),
    (
        &[("p :- a", 1), (",a", 999), (".", 1)],
        "line 1: too large goals",
    ),
    (&[("p :- a", 1), (",a", 1000), (".", 1)], "line 1: too deep"),
    (&[("p(", 1), ("(", 999), ("a", 1)], "line 1: not a clause"),
    (&[("p(", 1), ("(", 1000), ("a", 1)], "line 1: too deep"),
    (&[("a. ", 65532), ("p :- (a;b).", 1), ("", 0)], "a program"),
    (
        &[("a. ", 65533), ("p :- (a;b).", 1), ("", 0)],
        "line 1: too large clauses",
    ),
];

/// A program, and the same with its bodies lifted, each in one line.
static LIFTED: [(&str, &str); 19] = [
    (
        "p(X) :- ( X = 1 ; X = 2 ).",
        "p(X) :- lift_1(X). lift_1(X) :- X = 1. lift_1(X) :- X = 2.",
    ),
    (
        "p :- (a ; b ; c).",
        "p :- lift_1. lift_1 :- a. lift_1 :- lift_2. lift_2 :- b. lift_2 :- c.",
    ),
    (
        "p(X,Y) :- a(X) & (b, c(Y)) & d.",
        "p(X,Y) :- a(X) & lift_1(X,Y) & d. lift_1(X,Y) :- b, c(Y).",
    ),
    ("p :- (a & b) & c.", "p :- lift_1 & c. lift_1 :- a & b."),
    ("p :- a & (b & c).", "p :- a & b & c."),
    ("p :- (a, b), c.", "p :- a, b, c."),
    ("p :- a, (b, c).", "p :- a, b, c."),
    ("p :- a & (b, c).", "p :- a & lift_1. lift_1 :- b, c."),
    ("p(X) :- ground(X) => a.", "p(X) :- a."),
    ("p :- true => a & b.", "p :- a & b."),
    ("p(X) :- ground(X) => a, b.", "p(X) :- a, b."),
    ("p(X) :- ground(X) => (true => a & b).", "p(X) :- a & b."),
    (
        "p(X) :- ground(X) => (a & b).",
        "p(X) :- ground(X) => a & b.",
    ),
    (
        "p(X,Y) :- (indep(Y,X), ground(X)) => a & b.",
        "p(X,Y) :- (indep(X,Y), ground(X)) => a & b.",
    ),
    ("p :- a & (true => b).", "p :- a & lift_1. lift_1 :- b."),
    (
        "p :- (a ; lift_1).",
        "p :- lift_2. lift_2 :- a. lift_2 :- lift_1.",
    ),
    (
        "lift_2(x). p :- (a ; b), (c ; d).",
        "lift_2(x). p :- lift_1, lift_3. lift_1 :- a. lift_1 :- b. lift_3 :- c. lift_3 :- d.",
    ),
    (
        "p :- (a ; b). q :- lift_1.",
        "p :- lift_2. q :- lift_1. lift_2 :- a. lift_2 :- b.",
    ),
    (
        "p(X) :- ground(X) => (a ; b & (c ; d)), e(_).",
        "p(X) :- lift_1(X,_1), e(_1). lift_1(X,_1) :- a. lift_1(X,_1) :- b & lift_2(X,_1). lift_2(X,_1) :- c. lift_2(X,_1) :- d.",
    ),
];

fn same_goals(a: &[Term], b: &[Term]) -> bool {
    for (t, u) in a.iter().zip(b) {
        if !identical(t, u) {
            return false;
        }
    }
    a.len() == b.len()
}

fn same_part(a: &Part, b: &Part) -> bool {
    match (a, b) {
        (Part::Call(t), Part::Call(u)) => identical(t, u),
        (
            Part::Group { checks, calls },
            Part::Group {
                checks: others,
                calls: goals,
            },
        ) => {
            checks.as_slice() == others.as_slice() && same_goals(calls.as_slice(), goals.as_slice())
        }
        _ => false,
    }
}

fn same_parts(a: &[Part], b: &[Part]) -> bool {
    for (p, q) in a.iter().zip(b) {
        if !same_part(p, q) {
            return false;
        }
    }
    a.len() == b.len()
}

fn same_clauses(a: &[Clause], b: &[Clause]) -> bool {
    for (c, d) in a.iter().zip(b) {
        if !identical(c.head(), d.head()) || c.line() != d.line() {
            return false;
        }
        if !same_parts(c.body().as_slice(), d.body().as_slice()) {
            return false;
        }
    }
    a.len() == b.len()
}

#[test]
fn programs_are_answered(rt: HostRuntime) -> Result<(), Fail> {
    for (text, wanted) in &PROGRAMS {
        assert!(rt; is_answer(rt.alloc(), text, wanted)?, "{text}");
    }
    Ok(())
}

/// Whether the name is outside as a goal and as a head.
fn is_outside(alloc: Global, name: &str) -> Result<bool, Fail> {
    let wanted = format!(in alloc; "line 1: outside {name}")?;
    let goal = format!(in alloc; "p :- a, '{name}'(x), nl.")?;
    let head = format!(in alloc; "'{name}' :- nl.")?;
    let as_goal = is_answer(alloc, goal.as_str(), wanted.as_str())?;
    Ok(as_goal && is_answer(alloc, head.as_str(), wanted.as_str())?)
}

#[test]
fn refused_names_are_outside(rt: HostRuntime) -> Result<(), Fail> {
    for name in &REFUSED {
        assert!(rt; is_outside(rt.alloc(), name)?, "{name}");
    }
    Ok(())
}

#[test]
fn queries_are_answered(rt: HostRuntime) -> Result<(), Fail> {
    for (file, source, wanted) in &QUERIES {
        let found = query_answer(rt.alloc(), file, source)?;
        assert!(rt; found.as_str() == *wanted, "{source}");
    }
    Ok(())
}

fn is_limit(alloc: Global, parts: &[(&str, usize)], wanted: &str) -> Result<bool, Fail> {
    let text = repeated(alloc, parts)?;
    is_answer(alloc, text.as_str(), wanted)
}

#[test]
fn limits_are_exact(rt: HostRuntime) -> Result<(), Fail> {
    for (parts, wanted) in &LIMITS {
        assert!(rt; is_limit(rt.alloc(), parts, wanted)?, "{wanted}");
    }
    Ok(())
}

/// Whether two texts are the same program.
fn are_same(alloc: Global, text: &str, other: &str) -> Result<bool, Fail> {
    let mut atoms = new_atoms(alloc)?;
    let found = program_of(alloc, text, &mut atoms)?;
    let wanted = program_of(alloc, other, &mut atoms)?;
    Ok(same_clauses(found.as_slice(), wanted.as_slice()))
}

#[test]
fn bodies_are_lifted(rt: HostRuntime) -> Result<(), Fail> {
    for (text, lifted) in &LIFTED {
        assert!(rt; are_same(rt.alloc(), text, lifted)?, "{text}");
    }
    Ok(())
}

/// A table with room for two names.
pub(crate) fn nearly_full(alloc: Global) -> Result<Atoms, Fail> {
    let mut atoms = new_atoms(alloc)?;
    for i in 2..MAX_ATOMS {
        let name = format!(in alloc; "n{i}")?;
        atoms.intern(alloc, name.as_str())?;
    }
    Ok(atoms)
}

/// What a table with room for two names answers, each text after the others: a refused text leaves the room as it was.
static FILLED: [(&str, &str); 7] = [
    ("p :- q, r.", "line 1: too many atoms"),
    ("p :- (q ; q).", "line 1: too many atoms"),
    ("true.\np. q. r.", "line 1: outside true"),
    ("p.\nq :- r.", "line 2: too many atoms"),
    ("p :- q.", "a program"),
    ("q :- p.", "a program"),
    ("p :- (q ; q).", "line 1: too many atoms"),
];

#[test]
fn room_for_names_is_exact(rt: HostRuntime) -> Result<(), Fail> {
    let mut atoms = nearly_full(rt.alloc())?;
    for (text, wanted) in &FILLED {
        let found = answer_beside(rt.alloc(), text, &mut atoms)?;
        assert!(rt; found.as_str() == *wanted, "{text}");
    }
    Ok(())
}
