//! Calls of a predicate of many clauses, whose first arguments are of each kind, with the clauses that may answer.

use crate::cases::{Case, is_met};
use ap_top::Status;
use std::test::Fail;

/// The second argument is the clause's number. Two rows of nine clauses have no variable as first argument.
const FACTS: &[u8] = b"
    k(red, 1). k(7, 2). k(f(_), 3). k(red, 4). k(f(_, _), 5). k(-7, 6). k(blue, 7). k(7, 8). k(f(red), 9).
    k(_, 10).
    k([], 11). k([_|_], 12). k(red, 13). k(7, 14). k(f(blue), 15). k(f, 16). k(9223372036854775807, 17). k([red], 18). k(blue, 19).
    k(_, 20).";

/// A query, and the answers of the clauses whose first argument fits, in the order of the clauses.
const CALLS: [(&str, &str); 18] = [
    (
        "k(red, N).",
        "N = 1\nN = 4\nN = 10\nN = 13\nN = 20\nno more.\n",
    ),
    ("k(blue, N).", "N = 7\nN = 10\nN = 19\nN = 20\nno more.\n"),
    ("k(green, N).", "N = 10\nN = 20\nno more.\n"),
    (
        "k(7, N).",
        "N = 2\nN = 8\nN = 10\nN = 14\nN = 20\nno more.\n",
    ),
    ("k(-7, N).", "N = 6\nN = 10\nN = 20\nno more.\n"),
    ("k(0, N).", "N = 10\nN = 20\nno more.\n"),
    (
        "k(9223372036854775807, N).",
        "N = 10\nN = 17\nN = 20\nno more.\n",
    ),
    ("k(f, N).", "N = 10\nN = 16\nN = 20\nno more.\n"),
    ("k(f(red), N).", "N = 3\nN = 9\nN = 10\nN = 20\nno more.\n"),
    (
        "k(f(blue), N).",
        "N = 3\nN = 10\nN = 15\nN = 20\nno more.\n",
    ),
    (
        "k(f(X), N).",
        "X = _1, N = 3\nX = red, N = 9\nX = _1, N = 10\nX = blue, N = 15\nX = _1, N = 20\nno more.\n",
    ),
    (
        "k(f(X, Y), N).",
        "X = _1, Y = _2, N = 5\nX = _1, Y = _2, N = 10\nX = _1, Y = _2, N = 20\nno more.\n",
    ),
    ("k([], N).", "N = 10\nN = 11\nN = 20\nno more.\n"),
    ("k([red], N).", "N = 10\nN = 12\nN = 18\nN = 20\nno more.\n"),
    ("k([blue|_], N).", "N = 10\nN = 12\nN = 20\nno more.\n"),
    ("k(red, 13).", "true\nno more.\n"),
    (
        "K = f(_L), k(_L, 4), k(K, N).",
        "K = f(red), N = 3\nK = f(red), N = 9\nK = f(red), N = 10\nK = f(red), N = 20\nno more.\n",
    ),
    (
        "k(K, N).",
        "K = red, N = 1\nK = 7, N = 2\nK = f(_1), N = 3\nK = red, N = 4\nK = f(_1,_2), N = 5\nK = -7, N = 6\nK = blue, N = 7\nK = 7, N = 8\nK = f(red), N = 9\nK = _1, N = 10\nK = [], N = 11\nK = [_1|_2], N = 12\nK = red, N = 13\nK = 7, N = 14\nK = f(blue), N = 15\nK = f, N = 16\nK = 9223372036854775807, N = 17\nK = [red], N = 18\nK = blue, N = 19\nK = _1, N = 20\nno more.\n",
    ),
];

#[test]
fn clauses_are_chosen_by_first_argument(rt: HostRuntime) -> Result<(), Fail> {
    for (query, put) in &CALLS {
        let case = Case {
            words: &["andprolog", "run", "f.pl"],
            file: FACTS,
            source: &[query.as_bytes()],
            failing: &[],
            refusals: &[],
            put,
            status: Status::Done,
        };
        assert!(rt; is_met(&rt, rt.alloc(), &case)?, "{query}");
    }
    Ok(())
}
