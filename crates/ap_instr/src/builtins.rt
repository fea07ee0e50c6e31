//! The built-in goals that an instruction runs.

ghost use Rattle.std.specs.Prelude.{◌≡◌};
ghost use Rattle.ap_instr.specs.Builtin.{builtin_name, relation_name, comparison_name};

use ap_term::{Atom, Op, Relation, fixed};

/// A built-in goal, without its arguments (ISO 13211-1, sections 7.8, 8.2, 8.4, 8.6 and 8.7).
#[derive(Debug, Clone, Copy, PartialEq, Eq)]
pub enum Builtin {
    True,
    Fail,
    Relation(Relation),
}

fn comparison_name(op: Op) -> u32
    ensures { result ≡ comparison_name op }
{
    match op {
        Op::Eq => fixed::EQUAL,
        Op::Ne => fixed::NOT_EQUAL,
        Op::Lt => fixed::LESS,
        Op::Gt => fixed::GREATER,
        Op::Le => fixed::AT_MOST,
        Op::Ge => fixed::AT_LEAST,
    }
}

fn relation_name(relation: Relation) -> u32
    ensures { result ≡ relation_name relation }
{
    match relation {
        Relation::Unify => fixed::UNIFY,
        Relation::NotUnify => fixed::NOT_UNIFY,
        Relation::Same => fixed::SAME,
        Relation::NotSame => fixed::NOT_SAME,
        Relation::Is => fixed::IS,
        Relation::Compare(op) => comparison_name(op),
    }
}

impl Builtin {
    /// The atom that is its name.
    pub fn name(self) -> Atom
        ensures { result ≡ builtin_name self }
    {
        match self {
            Builtin::True => Atom::at(fixed::TRUE),
            Builtin::Fail => Atom::at(fixed::FAIL),
            Builtin::Relation(relation) => Atom::at(relation_name(relation)),
        }
    }
}
