//! Exchanges, and removals by an exchange.
use crate::build::{deque_at, holds, numbers};
use arraydeque::{ArrayDeque, Saturating};
use std::alloc::Global;
use std::test::Fail;

/// Whether an exchange of the ends of 0, 1 and 2, and one of an item with itself, leave 2, 1 and 0.
fn swaps(mut deque: ArrayDeque<i64, 3, Saturating>) -> bool {
    for (i, j) in [(0, 2), (1, 1)] {
        if i >= deque.len() || j >= deque.len() {
            return false;
        }
        deque.swap(i, j);
        if !holds(&deque, &[2, 1, 0]) {
            return false;
        }
    }
    true
}

#[test]
fn swaps_and_removals_by_an_exchange(rt: HostRuntime) -> Result<(), Fail> {
    let rows: [(&[i64], usize, Option<i64>, &[i64], &[i64]); 5] = [
        (&[], 0, None, &[], &[]),
        (&[0, 1, 2], 0, Some(0), &[2, 1], &[1, 2]),
        (&[0, 1, 2], 1, Some(1), &[0, 2], &[0, 2]),
        (&[0, 1, 2], 2, Some(2), &[0, 1], &[1, 0]),
        (&[0, 1, 2], 3, None, &[0, 1, 2], &[0, 1, 2]),
    ];
    for start in 0..3 {
        assert!(rt;
            swaps(deque_at(rt.alloc(), start, &[0, 1, 2])?),
            "start {start}"
        );
        for (items, index, removed, by_the_back, by_the_front) in rows {
            let mut back = deque_at::<3>(rt.alloc(), start, items)?;
            let mut front = deque_at::<3>(rt.alloc(), start, items)?;
            assert!(rt;
                back.swap_remove_back(index) == removed
                    && holds(&back, by_the_back)
                    && front.swap_remove_front(index) == removed
                    && holds(&front, by_the_front),
                "{index}, start {start}"
            );
        }
    }
    Ok(())
}

/// Whether half of the items of a list go by exchanges with its last item, from the front on, and
/// by exchanges with its first, from the back on, and the others are left.
fn halves(alloc: Global, start: usize, half: usize) -> Result<bool, Fail> {
    let mut list = numbers(alloc, half.saturating_mul(2))?;
    let mut front = deque_at::<16>(alloc, start, &list)?;
    list.reverse();
    let mut back = deque_at::<16>(alloc, start, &list)?;
    for (index, &item) in list.iter().enumerate().take(half) {
        let from_back = front.len().saturating_sub(index).saturating_sub(1);
        if back.swap_remove_back(index) != Some(item)
            || front.swap_remove_front(from_back) != Some(item)
        {
            return Ok(false);
        }
    }
    let mut left = numbers(alloc, half)?;
    let is_left = holds(&back, &left);
    left.reverse();
    Ok(is_left && holds(&front, &left))
}

#[test]
fn half_of_the_items_by_exchanges(rt: HostRuntime) -> Result<(), Fail> {
    for start in 0..16 {
        for half in 0..8 {
            assert!(rt;
                halves(rt.alloc(), start, half)?,
                "half {half}, start {start}"
            );
        }
    }
    Ok(())
}
