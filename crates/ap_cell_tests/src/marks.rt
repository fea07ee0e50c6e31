//! One list of numbers, put in twice.

use ap_marks::Marks;
use std::alloc::Global;
use std::test::Fail;

fn marks_of(alloc: Global) -> Result<Marks, Fail> {
    let mut marks = Marks::new(alloc);
    for _i in 0..2 {
        marks.clear();
        for x in [7, 2, 7, 9] {
            marks.insert(x)?;
        }
    }
    Ok(marks)
}

/// Numbers, and where they stand.
const PLACES: [(usize, Option<usize>); 5] = [
    (7, Some(0)),
    (2, Some(1)),
    (9, Some(2)),
    (8, None),
    (10, None),
];

#[test]
fn numbers_keep_their_order(rt: HostRuntime) -> Result<(), Fail> {
    let marks = marks_of(rt.alloc())?;
    assert!(rt; marks.len() == 3);
    for (x, number) in &PLACES {
        assert!(rt; marks.number_of(*x) == *number, "{x}");
        assert!(rt; marks.contains(*x) == number.is_some(), "{x}");
    }
    Ok(())
}
