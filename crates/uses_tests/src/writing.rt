//! What callers write over items that wrap, or that don't.
use arraydeque::{ArrayDeque, Wrapping};
use arraydeque_callers::writing::{
    count_in_slices, fill_behind_first, fill_by_hand, fill_from_the_back, fill_until, fill_walked,
    wipe_and_pop, write_ends_and_push, write_ring_slices, write_slices_and_push,
};
use arraydeque_ring::ring::Ring;
use arraydeque_samples::build::{deque_at, holds};
use std::test::Fail;

#[test]
fn each_item_is_written(rt: HostRuntime) -> Result<(), Fail> {
    for start in 0..4 {
        let mut deque = deque_at::<4>(rt.alloc(), start, &[1, 2, 3])?;
        let filled = fill_from_the_back(&mut deque, 8);
        assert!(rt; filled == 3 && holds(&deque, &[8, 8, 8]), "start {start}");
        if deque.len() != 0 {
            fill_behind_first(&mut deque);
        }
        assert!(rt; holds(&deque, &[8, 0, 0]), "start {start}");
        fill_walked(&mut deque, 9);
        assert!(rt; holds(&deque, &[9, 9, 9]), "start {start}");
        let (filled, counted) = (fill_by_hand(&mut deque), count_in_slices(&mut deque));
        assert!(rt;
            (filled, counted) == (3, 3) && holds(&deque, &[0, 0, 0]),
            "start {start}"
        );
    }
    Ok(())
}

#[test]
fn a_loop_is_left_early(rt: HostRuntime) -> Result<(), Fail> {
    for start in 0..4 {
        let mut deque = deque_at::<4>(rt.alloc(), start, &[1, 2, 3])?;
        let is_found = fill_until(&mut deque, 3);
        assert!(rt; is_found && holds(&deque, &[0, 0, 3]), "start {start}");
        let is_found = fill_until(&mut deque, 4);
        assert!(rt; !is_found && holds(&deque, &[1, 1, 1]), "start {start}");
    }
    Ok(())
}

#[test]
fn what_was_written_is_pushed_behind(rt: HostRuntime) -> Result<(), Fail> {
    for start in 0..4 {
        let mut deque = deque_at::<4>(rt.alloc(), start, &[1, 2, 3])?;
        let is_pushed = write_ends_and_push(&mut deque).is_ok();
        assert!(rt; is_pushed && holds(&deque, &[1, 2, 2, 3]), "start {start}");
        assert!(rt; write_ends_and_push(&mut deque).is_err());
    }
    let mut deque: ArrayDeque<i64, 4, Wrapping> = deque_at(rt.alloc(), 3, &[1, 2, 3])?.into();
    let written = write_slices_and_push(&mut deque);
    assert!(rt; written == 3 && holds(&deque, &[1, 2, 3, 3]));
    Ok(())
}

#[test]
fn wiped_items_are_zeros(rt: HostRuntime) -> Result<(), Fail> {
    for start in 0..4 {
        for (items, popped, left) in [
            ([5, 6, 7].as_slice(), Some(0), [0, 0].as_slice()),
            (&[], None, &[]),
        ] {
            let mut deque = deque_at::<4>(rt.alloc(), start, items)?;
            assert!(rt;
                wipe_and_pop(&mut deque) == popped && holds(&deque, left),
                "start {start}"
            );
        }
    }
    Ok(())
}

#[test]
fn each_slice_of_a_ring_is_written(rt: HostRuntime) -> Result<(), Fail> {
    for (behind, ahead, left) in [
        (
            [8, 9].as_slice(),
            [].as_slice(),
            ([1, 9].as_slice(), [].as_slice()),
        ),
        (&[8], &[9], (&[1], &[2])),
        (&[], &[], (&[], &[])),
    ] {
        let mut ring = Ring::new(rt.alloc(), 3)?;
        ring.fill_back(&mut behind.iter().copied());
        ring.fill_front(&mut ahead.iter().copied());
        let written = write_ring_slices(&mut ring);
        assert!(rt; written == behind.len() + ahead.len() && ring.as_slices() == left);
    }
    Ok(())
}
