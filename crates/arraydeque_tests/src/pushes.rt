//! Pushes under both policies, also into a full deque.
use crate::build::{deque_at, wrapping_at};
use crate::steps::{End, Row, Step, walk};
use arraydeque::{ArrayDeque, Saturating};
use std::io;
use std::test::Fail;

#[test]
fn a_full_deque_refuses_or_displaces(rt: HostRuntime) -> Result<(), Fail> {
    for (end, kept, displaced) in [
        (End::Front, [3, 2, 1], [4, 3, 2]),
        (End::Back, [1, 2, 3], [2, 3, 4]),
    ] {
        let refusing: [Row; 5] = [
            (Step::Push(end, 1), None, 1),
            (Step::Push(end, 2), None, 2),
            (Step::Push(end, 3), None, 3),
            (Step::Push(end, 4), Some(4), 3),
            (Step::Push(End::Back, 5), Some(5), 3),
        ];
        walk(&rt, deque_at::<3>(rt.alloc(), 0, &[])?, &refusing, &kept);
        let displacing: [Row; 4] = [
            (Step::Push(end, 1), None, 1),
            (Step::Push(end, 2), None, 2),
            (Step::Push(end, 3), None, 3),
            (Step::Push(end, 4), Some(1), 3),
        ];
        walk(
            &rt,
            wrapping_at::<3>(rt.alloc(), 0, &[])?,
            &displacing,
            &displaced,
        );
    }
    let into_two: [Row; 3] = [
        (Step::Push(End::Back, 1), None, 1),
        (Step::Push(End::Back, 2), None, 2),
        (Step::Push(End::Back, 3), Some(1), 2),
    ];
    walk(
        &rt,
        wrapping_at::<2>(rt.alloc(), 0, &[])?,
        &into_two,
        &[2, 3],
    );
    Ok(())
}

/// Pushes an item at either end, for a caller who reads and writes.
fn pushed_for_io<const CAP: usize>(deque: &mut ArrayDeque<i64, CAP, Saturating>) -> io::Result<()> {
    deque.push_back(1)?;
    Ok(deque.push_front(0)?)
}

#[test]
fn a_push_without_room_becomes_an_error_of_a_full_storage(rt: HostRuntime) -> Result<(), Fail> {
    let mut deque = deque_at::<3>(rt.alloc(), 0, &[])?;
    assert!(rt; pushed_for_io(&mut deque).is_ok());
    let refused = pushed_for_io(&mut deque).map_err(|error| error.kind());
    assert!(rt; refused == Err(io::ErrorKind::StorageFull));
    assert!(rt; deque.into_vec()?.as_slice() == [0, 1, 1].as_slice());
    Ok(())
}
