//! Rows that were worked out by hand from the rules of freeness analysis.

use crate::building::set_of;
use ap_freeness::Free;
use std::test::Fail;

/// X = f(Y, Z) leaves Y and Z free, and X no more.
fn after() -> Free {
    Free::new(set_of(&[1, 2, 3])).remove(&set_of(&[1]))
}

/// What two clauses leave free is free in both.
fn are_united() -> bool {
    let united = after().unite(&Free::new(set_of(&[1, 2, 255])));
    after() == Free::new(set_of(&[2, 3])) && united == Free::new(set_of(&[2]))
}

/// 255 is a variable, too.
fn are_projected() -> bool {
    let projected = Free::new(set_of(&[1, 2, 3])).project(&set_of(&[3, 255]));
    projected == Free::new(set_of(&[3])) && Free::new(set_of(&[255])).is_free(255)
}

const FREE: [(u64, bool); 5] = [(1, false), (2, true), (3, true), (4, false), (256, false)];

#[test]
fn free_by_hand(rt: HostRuntime) -> Result<(), Fail> {
    assert!(rt; are_united());
    assert!(rt; are_projected());
    for (x, want) in &FREE {
        assert!(rt; after().is_free(*x) == *want, "{x}");
    }
    assert!(rt; after().vars() == set_of(&[2, 3]));
    Ok(())
}
