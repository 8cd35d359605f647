//! Draining a part and splitting; these, edits and writes beside a plain list.
ghost use Rattle.std.specs.Prelude.{Some, ◌+◌};

use crate::build::{deque_at, holds, numbers};
use crate::moves::{inserts_alike, removes_alike};
use arraydeque::RangeArgument;
use std::alloc::Global;
use std::process::Abort;
use std::test::Fail;

/// The two indexes from one on.
#[derive(Clone, Copy)]
struct TwoFrom(u8);

impl RangeArgument<usize> for TwoFrom {
    ghost names_start = { λ two. Some two.0 };

    ghost names_end = { λ two. Some (two.0 + 2) };

    fn start(&self) -> Option<usize> {
        Some(usize::from(self.0))
    }

    fn end(&self) -> Option<usize> {
        Some(usize::from(self.0) + 2)
    }
}

/// Whether a drain of a range, of the items of a deque that starts at the place `start`, takes some
/// out and leaves the others.
fn drains<const CAP: usize, R: RangeArgument<usize> + Drop>(
    alloc: Global,
    start: usize,
    items: &[i64],
    range: R,
    gone: &[i64],
    left: &[i64],
) -> Result<bool, Fail> {
    let mut deque = deque_at::<CAP>(alloc, start, items)?;
    let from = range.start().unwrap_or(0);
    let to = range.end().unwrap_or(deque.len());
    if from > to || to > deque.len() {
        return Ok(false);
    }
    Ok(deque.drain(range)?.eq(gone.iter().copied()) && holds(&deque, left))
}

/// Whether the last of three items, and then the other two, are drained from one deque.
fn drains_in_turn(alloc: Global) -> Result<bool, Fail> {
    let mut deque = deque_at::<3>(alloc, 0, &[0, 1, 2])?;
    Ok(
        deque.len() == 3
            && deque.drain(2..)?.eq([2])
            && deque.iter().eq([0, 1].iter())
            && deque.drain(..)?.len() == 2
            && deque.is_empty(),
    )
}

#[test]
fn each_kind_of_range(rt: HostRuntime) -> Result<(), Fail> {
    let alloc = rt.alloc();
    let three = [0, 1, 2];
    assert!(rt;
        drains::<3, _>(alloc, 0, &three, .., &three, &[])?
            && drains::<3, _>(alloc, 0, &three, 2.., &[2], &[0, 1])?
            && drains::<3, _>(alloc, 0, &[0, 1], .., &[0, 1], &[])?
            && drains::<3, _>(alloc, 0, &three, ..2, &[0, 1], &[2])?
            && drains::<3, _>(alloc, 0, &three, 1..2, &[1], &[0, 2])?
            && drains::<4, _>(alloc, 3, &[0, 1, 2, 3], TwoFrom(1), &[1, 2], &[0, 3])?
            && drains_in_turn(alloc)?
    );
    Ok(())
}

/// Whether a split of 0, 1 and 2 at an index leaves these and gives those.
fn splits(
    alloc: Global,
    start: usize,
    at: usize,
    left: &[i64],
    gone: &[i64],
) -> Result<bool, Fail> {
    let mut deque = deque_at::<3>(alloc, start, &[0, 1, 2])?;
    if at > deque.len() {
        return Ok(false);
    }
    let rest = deque.split_off(at)?;
    Ok(holds(&deque, left) && holds(&rest, gone))
}

#[test]
fn a_split_at_each_index(rt: HostRuntime) -> Result<(), Fail> {
    for start in 0..3 {
        assert!(rt;
            splits(rt.alloc(), start, 1, &[0], &[1, 2])?
                && splits(rt.alloc(), start, 3, &[0, 1, 2], &[])?
                && splits(rt.alloc(), start, 0, &[], &[0, 1, 2])?,
            "start {start}"
        );
    }
    Ok(())
}

#[test]
fn a_drain_of_three_may_be_dropped_early(rt: HostRuntime) -> Result<(), Fail> {
    let eight = [0, 1, 2, 3, 4, 5, 6, 7];
    for start in 0..8 {
        assert!(rt;
            drains::<8, _>(
                rt.alloc(),
                start,
                &eight,
                2..5,
                &[2, 3, 4],
                &[0, 1, 5, 6, 7]
            )? && drains::<8, _>(rt.alloc(), start, &eight, 3..3, &[], &eight)?,
            "start {start}"
        );
        let mut deque = deque_at::<8>(rt.alloc(), start, &[0, 1, 2, 3, 4, 5, 6, 7])?;
        assert!(rt; deque.len() == 8);
        let last = deque.drain(2..5)?.next_back();
        assert!(rt;
            last == Some(4) && holds(&deque, &[0, 1, 5, 6, 7]),
            "start {start}"
        );
    }
    Ok(())
}

/// Whether a split at `to`, and a drain from `from` on to there, do what they do to a plain list.
fn parts_alike<const CAP: usize>(
    alloc: Global,
    start: usize,
    len: usize,
    from: usize,
    to: usize,
) -> Result<bool, Fail> {
    let mut list = numbers(alloc, len)?;
    if from > to || to > list.len() {
        return Ok(false);
    }
    let mut deque = deque_at::<CAP>(alloc, start, &list)?;
    let rest = deque.split_off(to)?;
    let splits = holds(&deque, &list[..to]) && holds(&rest, &list[to..]);
    let mut deque = deque_at::<CAP>(alloc, start, &list)?;
    let drains = deque.drain(from..to)?.eq(list.drain(from..to)) && holds(&deque, &list);
    Ok(splits && drains)
}

/// Whether writing over a part writes over that of a plain list, and leaves the others.
fn writes_alike<const CAP: usize>(
    alloc: Global,
    start: usize,
    len: usize,
    from: usize,
    to: usize,
) -> Result<bool, Fail> {
    let mut list = numbers(alloc, len)?;
    let mut deque = deque_at::<CAP>(alloc, start, &list)?;
    if from > to || to > deque.len() || to > list.len() {
        return Ok(false);
    }
    let mut count = 100;
    for item in deque.range_mut(from..to) {
        *item = item.wrapping_add(count);
        count = count.wrapping_add(100);
    }
    let mut count = 100;
    for item in &mut list[from..to] {
        *item = item.wrapping_add(count);
        count = count.wrapping_add(100);
    }
    Ok(holds(&deque, &list))
}

/// Edits, drains, splits and writes beside a plain list, at each start and length, for each part.
fn compare_all<const CAP: usize>(rt: &impl Abort, alloc: Global) -> Result<(), Fail> {
    for start in 0..CAP {
        for len in 0..=CAP {
            for to in 0..=len {
                assert!(rt;
                    inserts_alike::<CAP>(alloc, start, len, to)?
                        && removes_alike::<CAP>(alloc, start, len, to)?,
                    "index {to} of {CAP}, start {start}, length {len}"
                );
                for from in 0..=to {
                    assert!(rt;
                        parts_alike::<CAP>(alloc, start, len, from, to)?
                            && writes_alike::<CAP>(alloc, start, len, from, to)?,
                        "{from} to {to} of {CAP}, start {start}, length {len}"
                    );
                }
            }
        }
    }
    Ok(())
}

#[test]
fn every_start_length_and_stretch(rt: HostRuntime) -> Result<(), Fail> {
    compare_all::<1>(&rt, rt.alloc())?;
    compare_all::<2>(&rt, rt.alloc())?;
    compare_all::<3>(&rt, rt.alloc())?;
    compare_all::<4>(&rt, rt.alloc())?;
    compare_all::<5>(&rt, rt.alloc())?;
    compare_all::<6>(&rt, rt.alloc())?;
    compare_all::<7>(&rt, rt.alloc())?;
    compare_all::<8>(&rt, rt.alloc())?;
    compare_all::<16>(&rt, rt.alloc())?;
    Ok(())
}
