//! Lists that come to lie in one piece.
use crate::build::{holds, is_cut};
use arraydeque::behavior::Behavior;
use arraydeque::{ArrayDeque, Saturating, Wrapping};
use std::alloc::{AllocError, Global};
use std::test::Fail;

/// Whether the list of a deque wraps, and stands in its first slice once the deque is linearized,
/// also where it is linearized again.
fn comes_to_one_piece<const CAP: usize, B: Behavior>(
    deque: &mut ArrayDeque<i64, CAP, B>,
    list: &[i64],
) -> bool {
    let wraps = holds(deque, list) && !deque.as_slices().1.is_empty();
    deque.linearize();
    let is_whole = is_cut(deque, list, &[]);
    deque.linearize();
    wraps && is_whole && is_cut(deque, list, &[])
}

/// Whether a list that is made from both ends does so, under either policy.
fn extended<const CAP: usize>(
    alloc: Global,
    back: &[i64],
    front: &[i64],
    list: &[i64],
) -> Result<bool, AllocError> {
    let mut refusing = ArrayDeque::<i64, CAP, Saturating>::new(alloc)?;
    refusing.extend_back(back.iter().copied());
    refusing.extend_front(front.iter().copied());
    let mut displacing = ArrayDeque::<i64, CAP, Wrapping>::new(alloc)?;
    displacing.extend_back(back.iter().copied());
    displacing.extend_front(front.iter().copied());
    Ok(comes_to_one_piece(&mut refusing, list) && comes_to_one_piece(&mut displacing, list))
}

#[test]
fn lists_from_both_ends(rt: HostRuntime) -> Result<(), Fail> {
    let alloc = rt.alloc();
    let rows: [(&[i64], &[i64], &[i64]); 5] = [
        (&[1, 2, 3], &[-1, -2], &[-2, -1, 1, 2, 3]),
        (&[1, 2], &[-1, -2, -3], &[-3, -2, -1, 1, 2]),
        (&[1, 2, 3], &[-1, -2, -3], &[-3, -2, -1, 1, 2, 3]),
        (&[1, 2, 3, 4, 5], &[-1], &[-1, 1, 2, 3, 4, 5]),
        (&[1], &[-1, -2, -3, -4, -5], &[-5, -4, -3, -2, -1, 1]),
    ];
    for (back, front, list) in rows {
        assert!(rt; extended::<10>(alloc, back, front, list)?, "{list:?}");
    }
    assert!(rt;
        extended::<5>(alloc, &[1, 2, 3], &[-1, -2], &[-2, -1, 1, 2, 3])?
            && extended::<5>(alloc, &[1, 2], &[-1, -2, -3], &[-3, -2, -1, 1, 2])?
            && extended::<6>(alloc, &[1, 2, 3], &[-1, -2, -3], &[-3, -2, -1, 1, 2, 3])?
    );
    Ok(())
}

#[test]
fn one_item_comes_before_the_first_place(rt: HostRuntime) -> Result<(), Fail> {
    let mut deque = ArrayDeque::<i64, 7, Saturating>::new(rt.alloc())?;
    assert!(rt;
        deque.push_back(0).is_ok()
            && deque.push_back(1).is_ok()
            && is_cut(&deque, &[0, 1], &[])
            && deque.push_front(2).is_ok()
            && is_cut(&deque, &[2], &[0, 1])
            && comes_to_one_piece(&mut deque, &[2, 0, 1])
    );
    Ok(())
}
