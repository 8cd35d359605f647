//! Both ends, and where the two slices cut the list.
use crate::build::{deque_at, holds, is_cut, numbers, wrapping_at};
use crate::steps::{End, Policy, Row, Step, pop, walk};
use arraydeque::{ArrayDeque, Saturating};
use std::alloc::Global;
use std::process::Abort;
use std::test::Fail;

/// The examples of the Rust crate's documentation, and then a push and two pops.
#[test]
fn pushes_and_pops_in_turn(rt: HostRuntime) -> Result<(), Fail> {
    let rows: [Row; 14] = [
        (Step::Pop(End::Back), None, 0),
        (Step::Push(End::Back, 1), None, 1),
        (Step::Push(End::Back, 2), None, 2),
        (Step::Push(End::Back, 3), Some(3), 2),
        (Step::Pop(End::Front), Some(1), 1),
        (Step::Pop(End::Front), Some(2), 0),
        (Step::Pop(End::Front), None, 0),
        (Step::Push(End::Back, 1), None, 1),
        (Step::Push(End::Back, 2), None, 2),
        (Step::Pop(End::Back), Some(2), 1),
        (Step::Pop(End::Back), Some(1), 0),
        (Step::Push(End::Back, 1), None, 1),
        (Step::Pop(End::Front), Some(1), 0),
        (Step::Pop(End::Front), None, 0),
    ];
    walk(&rt, deque_at::<2>(rt.alloc(), 0, &[])?, &rows, &[]);
    Ok(())
}

#[test]
fn first_in_is_first_out(rt: HostRuntime) -> Result<(), Fail> {
    for (in_at, out_at) in [(End::Back, End::Front), (End::Front, End::Back)] {
        let rows: [Row; 9] = [
            (Step::Push(in_at, 1), None, 1),
            (Step::Push(in_at, 2), None, 2),
            (Step::Push(in_at, 3), None, 3),
            (Step::Push(in_at, 4), None, 4),
            (Step::Pop(out_at), Some(1), 3),
            (Step::Pop(out_at), Some(2), 2),
            (Step::Pop(out_at), Some(3), 1),
            (Step::Pop(out_at), Some(4), 0),
            (Step::Pop(out_at), None, 0),
        ];
        walk(&rt, deque_at::<7>(rt.alloc(), 0, &[])?, &rows, &[]);
        walk(&rt, wrapping_at::<7>(rt.alloc(), 0, &[])?, &rows, &[]);
    }
    Ok(())
}

/// Whether the front wraps at the first push in front of two items.
fn the_front_wraps(alloc: Global) -> Result<bool, Fail> {
    let mut deque = ArrayDeque::<i64, 7, Saturating>::new(alloc)?;
    Ok(
        deque.push_back(0).is_ok()
            && deque.push_back(1).is_ok()
            && is_cut(&deque, &[0, 1], &[])
            && deque.push_front(2).is_ok()
            && is_cut(&deque, &[2], &[0, 1]),
    )
}

/// Whether the slices cut the list at the region's end, and a push and a pop at this end do what
/// they do to a plain list.
fn is_alike<const CAP: usize>(
    alloc: Global,
    start: usize,
    len: usize,
    end: End,
) -> Result<bool, Fail> {
    let mut list = numbers(alloc, len)?;
    let mut popped = deque_at::<CAP>(alloc, start, &list)?;
    let mut pushed = deque_at::<CAP>(alloc, start, &list)?;
    let (first, second) = list.split_at(list.len().min(CAP.saturating_sub(start)));
    let is_cut_there = is_cut(&pushed, first, second);
    let parted = match end {
        End::Front => list.split_first(),
        End::Back => list.split_last(),
    };
    let is_popped = match parted {
        Some((item, rest)) => pop(&mut popped, end) == Some(*item) && holds(&popped, rest),
        None => pop(&mut popped, end).is_none() && holds(&popped, &[]),
    };
    let refused = if list.len() == CAP { Some(9) } else { None };
    let is_answered = Saturating::push(&mut pushed, end, 9) == refused;
    match end {
        _ if refused.is_some() => {}
        End::Front => list.insert(0, 9)?,
        End::Back => list.push(9)?,
    }
    Ok(is_cut_there && is_popped && is_answered && holds(&pushed, &list))
}

/// Pushes, pops and the slices beside a plain list, at each start and length.
fn compare_all<const CAP: usize>(rt: &impl Abort, alloc: Global) -> Result<(), Fail> {
    for start in 0..CAP {
        for len in 0..=CAP {
            assert!(rt;
                is_alike::<CAP>(alloc, start, len, End::Front)?
                    && is_alike::<CAP>(alloc, start, len, End::Back)?,
                "of {CAP}, start {start}, length {len}"
            );
        }
    }
    Ok(())
}

#[test]
fn every_start_and_length(rt: HostRuntime) -> Result<(), Fail> {
    assert!(rt; the_front_wraps(rt.alloc())?);
    compare_all::<1>(&rt, rt.alloc())?;
    compare_all::<3>(&rt, rt.alloc())?;
    compare_all::<4>(&rt, rt.alloc())?;
    compare_all::<10>(&rt, rt.alloc())?;
    Ok(())
}

#[test]
fn a_long_list_is_cut_at_the_end(rt: HostRuntime) -> Result<(), Fail> {
    for len in [399, 400, 401, 1000] {
        assert!(rt;
            is_alike::<1000>(rt.alloc(), 600, len, End::Front)?
                && is_alike::<1000>(rt.alloc(), 600, len, End::Back)?,
            "{len}"
        );
    }
    Ok(())
}
