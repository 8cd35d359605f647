//! Rings that come to lie in one piece.
use crate::items::{Numbered, Wide, ring_at};
use std::alloc::Global;
use std::process::Abort;
use std::test::Fail;

/// A ring of `len` items that starts at the place `start` lies in one piece once it is linearized,
/// with the items in the same order.
fn ring_comes_to_one_piece<T: Numbered>(
    rt: &impl Abort,
    alloc: Global,
    capacity: u8,
    start: u8,
    len: u8,
) -> Result<(), Fail> {
    let mut ring = ring_at::<T>(rt, alloc, usize::from(capacity), start, len)?;
    ring.linearize();
    let (first, second) = ring.as_slices();
    assert!(rt;
        second.len() == 0 && first.iter().map(T::number).eq(0..len),
        "start {start}, {len} of {capacity}"
    );
    Ok(())
}

/// Capacities 1 to 8, every start and every length, of small items and of large ones.
#[test]
fn every_list_of_few_items(rt: HostRuntime) -> Result<(), Fail> {
    for capacity in 1..=8 {
        for start in 0..capacity {
            for len in 0..=capacity {
                ring_comes_to_one_piece::<u8>(&rt, rt.alloc(), capacity, start, len)?;
                ring_comes_to_one_piece::<Wide>(&rt, rt.alloc(), capacity, start, len)?;
            }
        }
    }
    Ok(())
}
