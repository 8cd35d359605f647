//! Items that are read, or lent for writing, where they stand.
use crate::build::deque_at;
use arraydeque::{ArrayDeque, Saturating};
use std::test::Fail;

/// Whether both ends of a deque, read and lent for writing, are these items.
fn has_ends<const CAP: usize>(
    deque: &mut ArrayDeque<i64, CAP, Saturating>,
    first: Option<i64>,
    last: Option<i64>,
) -> bool {
    deque.front().copied() == first
        && deque.back().copied() == last
        && deque.front_mut().copied() == first
        && deque.back_mut().copied() == last
}

/// Whether a deque of 1 and 2 contains these, and nothing else.
fn contains_both(deque: ArrayDeque<i64, 2, Saturating>) -> bool {
    deque.contains(&1) && deque.contains(&2) && !deque.contains(&3)
}

#[test]
fn the_items_of_a_deque(rt: HostRuntime) -> Result<(), Fail> {
    let lists: [(&[i64], Option<i64>, Option<i64>); 3] = [
        (&[], None, None),
        (&[1], Some(1), Some(1)),
        (&[1, 2], Some(1), Some(2)),
    ];
    for (items, first, last) in lists {
        let mut deque = deque_at::<2>(rt.alloc(), 1, items)?;
        assert!(rt; has_ends(&mut deque, first, last));
    }
    for start in 0..3 {
        assert!(rt;
            contains_both(deque_at(rt.alloc(), start, &[1, 2])?),
            "start {start}"
        );
        let mut deque = deque_at::<3>(rt.alloc(), start, &[0, 1, 2])?;
        for (index, item) in [(0, Some(0)), (1, Some(1)), (2, Some(2)), (3, None)] {
            assert!(rt;
                deque.get(index).copied() == item && deque.get_mut(index).copied() == item,
                "{index}, start {start}"
            );
        }
    }
    Ok(())
}

#[test]
fn an_index_follows_the_front(rt: HostRuntime) -> Result<(), Fail> {
    let mut deque = deque_at::<3>(rt.alloc(), 0, &[1, 2, 3])?;
    assert!(rt;
        deque.len() == 3
            && deque[0] == 1
            && deque.pop_front() == Some(1)
            && deque.len() == 2
            && deque[0] == 2
            && deque.push_front(0).is_ok()
            && deque.len() == 3
            && deque[0] == 0
            && deque.pop_back() == Some(3)
            && deque.len() == 2
            && deque[1] == 2
    );
    Ok(())
}
