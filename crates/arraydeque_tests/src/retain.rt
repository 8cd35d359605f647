//! What a retain keeps.
use crate::build::{deque_at, holds};
use std::alloc::Global;
use std::test::Fail;

/// Whether the even ones of these items are left.
fn is_halved<const CAP: usize>(
    alloc: Global,
    start: usize,
    items: &[i64],
    left: &[i64],
) -> Result<bool, Fail> {
    let mut deque = deque_at::<CAP>(alloc, start, items)?;
    deque.retain(|item| item % 2 == 0);
    Ok(deque.len() == left.len() && holds(&deque, left))
}

/// Whether every second call of a closure has its item retained.
fn is_halved_by_calls(alloc: Global) -> Result<bool, Fail> {
    let mut deque = deque_at::<4>(alloc, 0, &[0, 1, 2, 3])?;
    let mut calls = 0_usize;
    deque.retain(|_| {
        let is_even = calls % 2 == 0;
        calls = calls.wrapping_add(1);
        is_even
    });
    Ok(calls == 4 && holds(&deque, &[0, 2]))
}

/// Whether a closure that wants none leaves none.
fn is_emptied<const CAP: usize>(alloc: Global, start: usize, items: &[i64]) -> Result<bool, Fail> {
    let mut deque = deque_at::<CAP>(alloc, start, items)?;
    deque.retain(|_| false);
    Ok(deque.is_empty() && holds(&deque, &[]))
}

#[test]
fn retain_keeps_what_the_closure_wants(rt: HostRuntime) -> Result<(), Fail> {
    assert!(rt;
        is_halved::<4>(rt.alloc(), 0, &[0, 1, 2, 3], &[0, 2])?
            && is_halved_by_calls(rt.alloc())?
            && is_emptied::<4>(rt.alloc(), 0, &[0, 1, 2, 3])?
    );
    let ten = [0, 1, 2, 3, 4, 5, 6, 7, 8, 9];
    for start in 0..10 {
        assert!(rt;
            is_halved::<10>(rt.alloc(), start, &ten, &[0, 2, 4, 6, 8])?
                && is_emptied::<10>(rt.alloc(), start, &ten)?,
            "start {start}"
        );
    }
    Ok(())
}
