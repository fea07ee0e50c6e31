// Equations and constants from the outside, with ample memory.
use crate::*;
use ap_cells::{Cell, Cells};
use ap_term::{Atom, fixed};
use ap_unify::Work;
use std::alloc::Global;
use std::test::Fail;

// f(X, a) = f(1, Y), then X = 1 and Y = a, and neither is b or 2; X = g(X) has no answer.
#[test]
fn matches(rt: HostRuntime) -> Result<(), Fail> {
    let alloc = rt.alloc();
    let mut cells = Cells::new(alloc);
    let mut work = Work::new(alloc);
    cells.reserve(32)?;
    let x = push_new(&mut cells, Cell::Free);
    let atom = push_new(&mut cells, Cell::Atom(Atom::at(fixed::TRUE)));
    let one = push_new(&mut cells, Cell::Int(1));
    let y = push_new(&mut cells, Cell::Free);
    let left = push_new(&mut cells, Cell::Node(Atom::at(fixed::PLUS), x, 2));
    let right = push_new(&mut cells, Cell::Node(Atom::at(fixed::PLUS), one, 2));
    assert!(rt; equate(&mut cells, left, right, &mut work)?);
    assert!(rt; match_integer(&mut cells, x, 1));
    assert!(rt; match_atom(&mut cells, y, Atom::at(fixed::TRUE)));
    assert!(rt; !match_atom(&mut cells, atom, Atom::at(fixed::FAIL)));
    assert!(rt; !match_integer(&mut cells, x, 2));
    let z = push_new(&mut cells, Cell::Free);
    let inside = push_new(&mut cells, Cell::Node(Atom::at(fixed::MINUS), z, 1));
    assert!(rt; !equate(&mut cells, z, inside, &mut work)?);
    Ok(())
}
