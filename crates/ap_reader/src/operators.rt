//! The table of operators, and what it says of a name and of a priority.

ghost use Rattle.std.specs.Prelude.{◌≡◌, false, true};
ghost use Rattle.ap_reader.specs.Operator as spec;

/// How an operator takes its operands (ISO 13211-1, section 6.3.4): `f` stands for the operator, `y`
/// for an operand of at most its priority, `x` for an operand below it.
#[derive(Clone, Copy, Debug, PartialEq, Eq)]
pub enum Fixity {
    Xfx,
    Xfy,
    Yfx,
    Fx,
    Fy,
}

/// Priority, fixity and name.
pub type Operator = (u16, Fixity, &'static str);

/// The operators (ISO 13211-1, section 6.3.4.4, but for `=>` and `&`). All infix operators of a
/// priority have one fixity, and no operator that is prefix has the priority of one that is `yfx`.
pub const OPERATORS: [Operator; 33] = [
    (1200, Fixity::Xfx, ":-"),
    (1200, Fixity::Xfx, "-->"),
    (1200, Fixity::Fx, ":-"),
    (1200, Fixity::Fx, "?-"),
    (1100, Fixity::Xfy, ";"),
    (1050, Fixity::Xfy, "->"),
    (1000, Fixity::Xfy, ","),
    (975, Fixity::Xfx, "=>"),
    (950, Fixity::Xfy, "&"),
    (900, Fixity::Fy, "\\+"),
    (700, Fixity::Xfx, "="),
    (700, Fixity::Xfx, "\\="),
    (700, Fixity::Xfx, "=="),
    (700, Fixity::Xfx, "\\=="),
    (700, Fixity::Xfx, "is"),
    (700, Fixity::Xfx, "=:="),
    (700, Fixity::Xfx, "=\\="),
    (700, Fixity::Xfx, "<"),
    (700, Fixity::Xfx, ">"),
    (700, Fixity::Xfx, "=<"),
    (700, Fixity::Xfx, ">="),
    (700, Fixity::Xfx, "=.."),
    (700, Fixity::Xfx, "@<"),
    (700, Fixity::Xfx, "@>"),
    (700, Fixity::Xfx, "@=<"),
    (700, Fixity::Xfx, "@>="),
    (500, Fixity::Yfx, "+"),
    (500, Fixity::Yfx, "-"),
    (400, Fixity::Yfx, "*"),
    (400, Fixity::Yfx, "//"),
    (400, Fixity::Yfx, "rem"),
    (400, Fixity::Yfx, "mod"),
    (200, Fixity::Fy, "-"),
];

/// The priority of a name as an infix operator; 0 where it is none. The table has it; the patterns say it
/// without a walk along the table for each name of a text.
#[tactic(auto, unfolding(crate::specs::Operator::priority_of))]
pub(crate) fn infix_of(name: &[u8]) -> u16
    ensures { result ≡ spec.priority_of false name.now }
{
    match name {
        [b';'] => 1100,
        [b','] => 1000,
        [b'&'] => 950,
        [b'=' | b'<' | b'>'] => 700,
        [b'+' | b'-'] => 500,
        [b'*'] => 400,
        [b':', b'-'] => 1200,
        [b'-', b'>'] => 1050,
        [b'=', b'>'] => 975,
        [b'\\' | b'=' | b'>', b'='] | [b'=' | b'@', b'<'] | [b'@', b'>'] | [b'i', b's'] => 700,
        [b'/', b'/'] => 400,
        [b'-', b'-', b'>'] => 1200,
        [b'=', b':' | b'\\', b'='] | [b'\\', b'=', b'='] | [b'=', b'.', b'.'] => 700,
        [b'@', b'=', b'<'] | [b'@', b'>', b'='] => 700,
        [b'r', b'e', b'm'] | [b'm', b'o', b'd'] => 400,
        _ => 0,
    }
}

/// The priority of a name as a prefix operator; 0 where it is none.
#[tactic(auto, unfolding(crate::specs::Operator::priority_of))]
pub(crate) fn prefix_of(name: &[u8]) -> u16
    ensures { result ≡ spec.priority_of true name.now }
{
    match name {
        [b'-'] => 200,
        [b':' | b'?', b'-'] => 1200,
        [b'\\', b'+'] => 900,
        _ => 0,
    }
}

/// The greatest priority of an operand on the left of an operator.
#[tactic(auto, unfolding(crate::specs::Operator::left_max))]
pub(crate) fn left_max(priority: u16) -> u16
    ensures { result ≡ spec.left_max priority }
{
    match priority {
        500 | 400 => priority,
        _ => priority.saturating_sub(1),
    }
}

/// The greatest priority of an operand on the right of an operator.
#[tactic(auto, unfolding(crate::specs::Operator::right_max))]
pub(crate) fn right_max(priority: u16) -> u16
    ensures { result ≡ spec.right_max priority }
{
    match priority {
        1100 | 1050 | 1000 | 950 | 900 | 200 => priority,
        _ => priority.saturating_sub(1),
    }
}
