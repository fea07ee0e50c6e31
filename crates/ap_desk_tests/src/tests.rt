//! Two desks.
use crate::calls::{collect, finish, reclaim, stop};
use crate::desks::two;
use crate::parcel::Parcel;
use std::alloc::Global;
use std::test::*;

#[test]
fn a_goal_comes_back_and_another_is_collected(rt: HostRuntime) -> Result<(), Fail> {
    let alloc: Global = rt.alloc();
    let Some((board, mut first, mut second)) = two(alloc) else {
        panic!(rt; "no memory")
    };
    assert!(rt; first.offer(&board, Parcel { number: 5 }, 7, 1).is_ok());
    assert!(rt; first.offer(&board, Parcel { number: 6 }, 7, 2).is_ok());
    assert!(rt; first.offer(&board, Parcel { number: 8 }, 7, 3).is_err());
    assert_eq!(rt; first.count_out(), 2);
    let ticket = first.note(0).ticket;
    assert_eq!(rt; second.take(&board, ticket)?.map(|x| x.number), Some(5));
    assert_eq!(rt; collect(&mut first, &board, 0), None);
    assert_eq!(rt; stop(&mut first, &board, 0), false);
    assert_eq!(rt; reclaim(&mut first, &board, 0), None);
    assert_eq!(rt; reclaim(&mut first, &board, 1), Some(6));
    assert_eq!(rt; first.count_out(), 1);
    assert_eq!(rt; second.poll(&board), false);
    assert_eq!(rt; stop(&mut first, &board, 0), true);
    assert_eq!(rt; second.poll(&board), true);
    assert_eq!(rt; second.asked(), Some(0));
    assert_eq!(rt; finish(&mut second, &board, 9), true);
    assert_eq!(rt; second.asked(), None);
    assert_eq!(rt; stop(&mut first, &board, 0), false);
    assert_eq!(rt; collect(&mut first, &board, 0), Some(9));
    assert_eq!(rt; first.count_out(), 0);
    Ok(())
}
