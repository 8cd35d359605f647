//! Lists of calls and their replies.
use crate::replies::run;
use arraydeque::run::{Call, Reply, RunPolicy};
use arraydeque::{ArrayDeque, CapacityError, Saturating};
use arraydeque_samples::build::{deque_at, holds, made, numbers, wrapping_at};
use std::alloc::Global;
use std::test::Fail;

#[test]
fn parts_have_their_replies(rt: HostRuntime) -> Result<(), Fail> {
    let rows = vec![in rt.alloc();
        (Call::PushBack(4), "done"),
        (Call::Drain(1, 3), "drained [1, 2]"),
        (Call::PopFront, "0"),
    ]?;
    let mut deque = deque_at::<5>(rt.alloc(), 0, &[0, 1, 2, 3])?;
    run(&rt, rt.alloc(), &mut deque, rows)?;
    assert!(rt; holds(&deque, &[3, 4]));

    for (at, told, left) in [
        (1, "split [1, 2]", [0].as_slice()),
        (3, "split []", &[0, 1, 2]),
        (4, "range", &[0, 1, 2]),
    ] {
        let mut deque = deque_at::<3>(rt.alloc(), 0, &[0, 1, 2])?;
        let rows = vec![in rt.alloc(); (Call::SplitOff(at), told)]?;
        run(&rt, rt.alloc(), &mut deque, rows)?;
        assert!(rt; holds(&deque, left), "at {at}");
    }
    Ok(())
}

#[test]
fn no_calls_have_no_replies(rt: HostRuntime) -> Result<(), Fail> {
    let (mut none, mut two) = (
        deque_at::<0>(rt.alloc(), 0, &[])?,
        deque_at::<3>(rt.alloc(), 0, &[1, 2])?,
    );
    run(&rt, rt.alloc(), &mut none, Vec::new(rt.alloc()))?;
    run(&rt, rt.alloc(), &mut two, Vec::new(rt.alloc()))?;
    let mut full = wrapping_at::<3>(rt.alloc(), 2, &[1, 2, 3])?;
    run(&rt, rt.alloc(), &mut full, Vec::new(rt.alloc()))?;
    assert!(rt; none.is_empty() && holds(&two, &[1, 2]) && holds(&full, &[1, 2, 3]));
    Ok(())
}

#[test]
fn a_long_list_of_calls_has_its_replies(rt: HostRuntime) -> Result<(), Fail> {
    let mut rows = Vec::new(rt.alloc());
    for _ in 0..500 {
        rows.push((Call::PushBack(1), "done"))?;
        rows.push((Call::Len, "number 1"))?;
        rows.push((Call::PopFront, "1"))?;
        rows.push((Call::PopFront, "none"))?;
    }
    let mut deque = deque_at::<3>(rt.alloc(), 0, &[])?;
    run(&rt, rt.alloc(), &mut deque, rows)?;
    assert!(rt; deque.is_empty());
    Ok(())
}

/// Whether a deque of this list hands out the items from one index up to another, and then those
/// behind, and is left with those before.
fn is_parted<const CAP: usize, B: RunPolicy<i64, CAP>>(
    alloc: Global,
    mut deque: ArrayDeque<i64, CAP, B>,
    list: &[i64],
    from: usize,
    to: usize,
) -> Result<bool, Fail> {
    let calls = vec![in alloc; Call::Drain(from, to), Call::SplitOff(from)]?;
    let mut replies = made(deque.run(calls))?.into_iter();
    let Some(Reply::Drained(drained)) = replies.next() else {
        return Ok(false);
    };
    let drained: Vec<i64> = drained.collect(alloc)?;
    let Some(Reply::Split(behind)) = replies.next() else {
        return Ok(false);
    };
    Ok(
        list.get(from..to) == Some(drained.as_slice())
            && holds(&behind, list.get(to..).unwrap_or(&[]))
            && holds(&deque, list.get(..from).unwrap_or(&[])),
    )
}

/// Whether a full deque of either policy is parted.
fn parts<const CAP: usize>(alloc: Global, from: usize, to: usize) -> Result<bool, Fail> {
    let list = numbers(alloc, CAP)?;
    let list = list.as_slice();
    let refusing = deque_at::<CAP>(alloc, 1, list)?;
    let displacing = wrapping_at::<CAP>(alloc, 1, list)?;
    Ok(is_parted(alloc, refusing, list, from, to)? && is_parted(alloc, displacing, list, from, to)?)
}

#[test]
fn long_lists_are_parted(rt: HostRuntime) -> Result<(), Fail> {
    assert!(rt; parts::<16>(rt.alloc(), 3, 10)?);
    for (from, to) in [(20, 120), (120, 120), (3, 4)] {
        assert!(rt; parts::<128>(rt.alloc(), from, to)?, "from {from} to {to}");
    }
    Ok(())
}

/// Whether a deque of 1, 2 and 3 is made by inserts, and takes no fourth.
fn inserts(deque: &mut ArrayDeque<i64, 3, Saturating>) -> bool {
    deque.insert(0, 3).is_ok()
        && deque.insert(0, 1).is_ok()
        && deque.insert(1, 2).is_ok()
        && deque.insert(1, 4) == Err(CapacityError { element: 4 })
        && holds(deque, &[1, 2, 3])
}

/// Whether a deque of 7, 9 and 3 is made by pushes and writes.
fn writes(deque: &mut ArrayDeque<i64, 3, Saturating>) -> bool {
    let is_pushed = deque.push_back(2).is_ok()
        && deque.push_back(3).is_ok()
        && deque.push_front(1).is_ok();
    if let Some(item) = deque.get_mut(1) {
        *item = 9;
    }
    if deque.len() == 3 {
        deque[0] = 7;
    }
    is_pushed
        && holds(deque, &[7, 9, 3])
        && deque.get_mut(3).is_none()
        && deque.contains(&9)
        && !deque.contains(&1)
}

/// Whether 0, 1 and 2 are turned round by swaps.
fn swaps(deque: &mut ArrayDeque<i64, 3, Saturating>) -> bool {
    if deque.len() != 3 {
        return false;
    }
    deque.swap(0, 2);
    let is_turned = holds(deque, &[2, 1, 0]);
    deque.swap(1, 1);
    is_turned && holds(deque, &[2, 1, 0])
}

#[test]
fn a_run_goes_on_where_calls_left_off(rt: HostRuntime) -> Result<(), Fail> {
    let mut deque = deque_at::<3>(rt.alloc(), 0, &[])?;
    assert!(rt; inserts(&mut deque));
    let rows = vec![in rt.alloc(); (Call::Insert(4, 9), "range 9")]?;
    run(&rt, rt.alloc(), &mut deque, rows)?;
    assert!(rt; holds(&deque, &[1, 2, 3]));

    let mut deque = deque_at::<3>(rt.alloc(), 0, &[])?;
    assert!(rt; writes(&mut deque));
    let rows = vec![in rt.alloc();
        (Call::Replace(2, 4), "3"),
        (Call::Replace(3, 4), "range 4"),
    ]?;
    run(&rt, rt.alloc(), &mut deque, rows)?;
    assert!(rt; holds(&deque, &[7, 9, 4]));

    let mut deque = deque_at::<3>(rt.alloc(), 0, &[0, 1, 2])?;
    assert!(rt; swaps(&mut deque));
    let rows = vec![in rt.alloc(); (Call::Swap(0, 3), "range")]?;
    run(&rt, rt.alloc(), &mut deque, rows)?;
    assert!(rt; holds(&deque, &[2, 1, 0]));
    Ok(())
}
