//! Tables from outside: the rows of the table of tokens, examples of ISO 13211-1, section 6.4, and
//! bad bytes at each kind of place.

use ap_lexer::{LexErr, Piece, Token, number, pieces, tokens};
use std::alloc::Global;
use std::test::Fail;

/// The tokens as kinds and texts, or the line of the bad one.
fn row(alloc: Global, tokens: Result<Vec<Token>, LexErr>) -> Result<String, Fail> {
    let mut row = String::new(alloc);
    match tokens {
        Ok(tokens) => {
            for token in &tokens {
                let text = std::str::from_utf8(token.text).unwrap_or("?");
                row.push_str(format!(in alloc; " {:?} {text}", token.kind)?.as_str())?;
            }
        }
        Err(LexErr::BadToken { line }) => row.push_str(format!(in alloc; " bad {line}")?.as_str())?,
        Err(LexErr::NoMemory) => row.push_str(" no memory")?,
    }
    Ok(row)
}

/// Each piece's span, line, whether it hasn't ended, and its tokens; a semicolon ends it.
fn cutting(alloc: Global, text: &[u8]) -> Result<String, Fail> {
    let mut out = String::new(alloc);
    let pieces = pieces(alloc, text).ok().ok_or("no memory")?;
    for piece in &pieces {
        let unended = if piece.ended { "" } else { " unended" };
        let row = row(alloc, tokens(alloc, text, piece))?;
        let (from, to, line) = (piece.from, piece.to, piece.line);
        out.push_str(format!(in alloc; "{from}-{to} line {line}{unended}{row};")?.as_str())?;
    }
    Ok(out)
}

/// A text, and its pieces with their tokens.
static ROWS: [(&[u8], &str); 52] = [
    (b"", ""),
    (b" \n% c\n\t/* d. */\r", ""),
    (
        b"p(1). p(2).",
        "0-5 line 1 Name p Open ( Integer 1 Close ) End .;6-11 line 1 Name p Open ( Integer 2 Close ) End .;",
    ),
    // names, variables, integers
    (b"aB_1 x.", "0-7 line 1 Name aB_1 Name x End .;"),
    (
        b"_ X _x1 Y_2.",
        "0-12 line 1 Variable _ Variable X Variable _x1 Variable Y_2 End .;",
    ),
    (b"0 007.", "0-6 line 1 Integer 0 Integer 007 End .;"),
    (
        b"12abc 1.5.",
        "0-10 line 1 Integer 12 Name abc Integer 1 Symbol . Integer 5 End .;",
    ),
    (b"0'c'.", "0-5 line 1 Integer 0 Quoted 'c' End .;"),
    (
        b"9223372036854775808.",
        "0-20 line 1 Integer 9223372036854775808 End .;",
    ),
    (
        b"\n9223372036854775809. a",
        "1-21 line 2 bad 2;22-23 line 2 unended Name a;",
    ),
    // runs of symbol characters
    (
        b"X =.. Y.",
        "0-8 line 1 Variable X Symbol =.. Variable Y End .;",
    ),
    (
        b":-\\+a-->b.",
        "0-10 line 1 Symbol :-\\+ Name a Symbol --> Name b End .;",
    ),
    (
        b"+-*/\\^<>=~:.?@#&$ .",
        "0-19 line 1 Symbol +-*/\\^<>=~:.?@#&$ End .;",
    ),
    (
        b"a.b. .(c).",
        "0-4 line 1 Name a Symbol . Name b End .;5-10 line 1 Symbol . Open ( Name c Close ) End .;",
    ),
    (b"a.. b.", "0-6 line 1 Name a Symbol .. Name b End .;"),
    // solo characters
    (
        b"!;,|()[] .",
        "0-10 line 1 Cut ! Semicolon ; Comma , Bar | Open ( Close ) OpenList [ CloseList ] End .;",
    ),
    // quoted names
    (
        b"'' 'it''s' 'a b'.",
        "0-17 line 1 Quoted '' Quoted 'it''s' Quoted 'a b' End .;",
    ),
    (
        b"'\\'' '\\\\' '\\n\\t' '/*' '\t'.",
        "0-26 line 1 Quoted '\\'' Quoted '\\\\' Quoted '\\n\\t' Quoted '/*' Quoted '\t' End .;",
    ),
    (
        b"'\xc3\xa9''\xe2\x82\xac'(x).",
        "0-13 line 1 Quoted 'é''€' Open ( Name x Close ) End .;",
    ),
    // the end token
    (
        b"a.\tb.\rc.\nd.%e",
        "0-2 line 1 Name a End .;3-5 line 1 Name b End .;6-8 line 1 Name c End .;9-11 line 2 Name d End .;",
    ),
    (b".", "0-1 line 1 End .;"),
    (b"a", "0-1 line 1 unended Name a;"),
    (
        b"a. \n b",
        "0-2 line 1 Name a End .;5-6 line 2 unended Name b;",
    ),
    // comments
    (b"/* a. b */ c.", "11-13 line 1 Name c End .;"),
    (b"/*/ c */ d.", "9-11 line 1 Name d End .;"),
    (b"/***/e.", "5-7 line 1 Name e End .;"),
    (b"/* * / \n*/e.", "10-12 line 2 Name e End .;"),
    (b"% x. y\nz.", "7-9 line 2 Name z End .;"),
    (b"a//* b.", "0-7 line 1 Name a Symbol //* Name b End .;"),
    (b"a/* b */.", "0-9 line 1 Name a End .;"),
    (b"a% \xc3\xa9\n.", "0-7 line 1 Name a End .;"),
    // a comment that doesn't end is bad from its first byte on
    (b" /* a. b", "1-6 line 1 bad 1;7-8 line 1 unended Name b;"),
    (b"\na /*\n b", "1-8 line 2 unended bad 2;"),
    (b"a /*/", "0-5 line 1 unended bad 1;"),
    // bad characters
    (
        b"p :- {a.b, c. q.",
        "0-13 line 1 bad 1;14-16 line 1 Name q End .;",
    ),
    (b"a } b.%c\nd.", "0-11 line 1 bad 1;"),
    (b"\"a\". b.", "0-4 line 1 bad 1;5-7 line 1 Name b End .;"),
    (b"`. b.", "0-2 line 1 bad 1;3-5 line 1 Name b End .;"),
    (
        b"p :-\n q,\n \xc3\xa9. r.",
        "0-13 line 1 bad 3;14-16 line 3 Name r End .;",
    ),
    (b"a\x0b. b.", "0-3 line 1 bad 1;4-6 line 1 Name b End .;"),
    (b"a\x00b. c.", "0-4 line 1 bad 1;5-7 line 1 Name c End .;"),
    // bad quotes begin at the opening one
    (b"'a", "0-2 line 1 unended bad 1;"),
    (b"'a\nb'. c.", "0-6 line 1 bad 1;7-9 line 2 Name c End .;"),
    (
        b"x.\n'a\\xb'. c.",
        "0-2 line 1 Name x End .;3-10 line 2 bad 2;11-13 line 2 Name c End .;",
    ),
    (b"'a. b'\\", "0-7 line 1 unended Quoted 'a. b' Symbol \\;"),
    (
        b"'a. \\ b'. c.",
        "0-3 line 1 bad 1;4-9 line 1 bad 1;10-12 line 1 Name c End .;",
    ),
    (
        b"'\\'. \\'. a.",
        "0-4 line 1 bad 1;5-8 line 1 bad 1;9-11 line 1 Name a End .;",
    ),
    // bytes that aren't UTF-8
    (b"\xff. a.", "0-2 line 1 bad 1;3-5 line 1 Name a End .;"),
    (
        b"% \xff. a.\nb.",
        "2-4 line 1 bad 1;5-7 line 1 Name a End .;8-10 line 2 Name b End .;",
    ),
    (
        b"a /* b.\n \xe2\x82 c. */ d.",
        "0-14 line 1 bad 2;15-20 line 2 Symbol */ Name d End .;",
    ),
    (
        b"\n'b \xff' . a.",
        "1-8 line 2 bad 2;9-11 line 2 Name a End .;",
    ),
    (
        b"'\\'. \\'\xff'. a.",
        "0-4 line 1 bad 1;5-10 line 1 bad 1;11-13 line 1 Name a End .;",
    ),
];

fn is_cut(alloc: Global, text: &[u8], want: &str) -> Result<bool, Fail> {
    Ok(cutting(alloc, text)?.as_str() == want)
}

#[test]
fn cuts_as_the_tables_say(rt: HostRuntime) -> Result<(), Fail> {
    for (text, want) in &ROWS {
        assert!(rt; is_cut(rt.alloc(), text, want)?, "of {text:?}");
    }
    Ok(())
}

/// Sums a list by halves.
const HALVES: &[u8] = b"total([],0).
total([E|L],S) :- deal(L,A,B), total(A,SA), total(B,SB), S is SA + SB + E.
deal([],[],[]).
deal([E|L],[E|A],B) :- deal(L,B,A).
";

/// Where each of its clauses begins and ends.
const CLAUSES: [(usize, usize); 4] = [(0, 12), (13, 87), (88, 103), (104, 139)];

/// Whether a piece is so much of a clause as a text of that length has.
fn is_front(piece: &Piece, clause: (usize, usize), len: usize) -> bool {
    let (from, to) = clause;
    piece.from == from
        && piece.to == to.min(len)
        && piece.ended == (to <= len)
        && piece.bad.is_none()
}

/// How many of the clauses begin in a text of that length.
fn begun(len: usize) -> usize {
    let mut count: usize = 0;
    for (from, _) in &CLAUSES {
        if *from < len {
            count = count.saturating_add(1);
        }
    }
    count
}

/// Whether the pieces of a front of the list's clauses are the fronts of these, with good tokens.
fn is_cut_into_clauses(alloc: Global, text: &[u8]) -> Result<bool, Fail> {
    let found = pieces(alloc, text).ok().ok_or("no memory")?;
    for (piece, clause) in found.iter().zip(CLAUSES) {
        if !is_front(piece, clause, text.len()) || tokens(alloc, text, piece).is_err() {
            return Ok(false);
        }
    }
    Ok(found.len() == begun(text.len()))
}

#[test]
fn cuts_each_prefix(rt: HostRuntime) -> Result<(), Fail> {
    for len in 0..=HALVES.len() {
        let (text, _) = HALVES.split_at(len);
        assert!(rt; is_cut_into_clauses(rt.alloc(), text)?, "below {len}");
    }
    Ok(())
}

/// Digits, and the number that they stand for.
static NUMBERS: [(&str, Option<u64>); 5] = [
    ("0", Some(0)),
    ("007", Some(7)),
    ("9223372036854775808", Some(9223372036854775808)),
    ("9223372036854775809", None),
    ("10000000000000000000000000000000000000000", None),
];

#[test]
fn digits_stand_for_numbers(rt: HostRuntime) {
    for (digits, want) in &NUMBERS {
        assert!(rt; number(digits.as_bytes()) == *want, "{digits}");
    }
}
