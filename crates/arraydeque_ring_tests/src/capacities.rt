//! The smallest and the largest capacities, items of size zero, and items of the largest alignment.
ghost use Rattle.std.specs.Prelude.{◌≤◌};

use arraydeque_ring::ring::Ring;
use arraydeque_ring::slots::Slots;
use std::alloc::{AllocError, Global};
use std::fmt::Debug;
use std::mem::align_of;
use std::process::Abort;
use std::test::Fail;

/// The capacity of a region that is made and given back empty.
fn capacity_of_region<T>(alloc: Global, capacity: usize) -> Result<usize, AllocError> {
    let slots = Slots::<T>::new(alloc, capacity)?;
    Ok(slots.capacity())
}

#[test]
fn capacity_zero_has_no_items_0_requests_0_bytes(rt: HostRuntime) -> Result<(), Fail> {
    let mut ring = Ring::<i64>::new(rt.alloc(), 0)?;
    assert!(rt; (ring.len(), ring.capacity(), ring.get(0)) == (0, 0, None));
    assert!(rt; (ring.pop_front(), ring.pop_back()) == (None, None));
    assert!(rt; (ring.drain(0, 0)?.capacity(), ring.split_off(0)?.capacity()) == (0, 0));
    ring.resize(0, 7);
    let (first, second) = ring.lend_part(0, 0).into_slices();
    assert!(rt; first.is_empty() && second.is_empty());
    let mut slots = Slots::<i64>::new(rt.alloc(), 0)?;
    let (first, second) = slots.two_slices_mut(0, 0, 0, 0);
    assert!(rt; first.is_empty() && second.is_empty());
    assert!(rt; slots.capacity() == 0);
    Ok(())
}

/// Two copies of an item, pushed, lent, put by a resize and popped.
fn hold_two<T: Copy + PartialEq + Debug>(
    rt: &impl Abort,
    alloc: Global,
    capacity: usize,
    item: T,
) -> Result<(), Fail>
    requires { 2 ≤ capacity }
{
    let mut ring = Ring::<T>::new(alloc, capacity)?;
    ring.push_front(item);
    ring.push_back(item);
    assert!(rt; (ring.len(), ring.capacity()) == (2, capacity));
    let (first, second) = ring.as_slices();
    assert!(rt; (first, second) == ([item].as_slice(), [item].as_slice()));
    assert!(rt; (ring.get(1).copied(), ring.get(2).copied()) == (Some(item), None));
    ring.resize(1, item);
    ring.resize(2, item);
    assert!(rt;
        (ring.pop_front(), ring.pop_back(), ring.pop_back()) == (Some(item), Some(item), None)
    );
    Ok(())
}

#[test]
fn a_ring_of_items_of_size_zero(rt: HostRuntime) -> Result<(), Fail> {
    hold_two(&rt, rt.alloc(), usize::MAX, ())?;
    hold_two::<[u64; 0]>(&rt, rt.alloc(), usize::MAX, [])?;
    hold_two::<[u128; 0]>(&rt, rt.alloc(), usize::MAX, [])?;
    let capacity = capacity_of_region::<()>(rt.alloc(), usize::MAX)?;
    assert!(rt; capacity == usize::MAX);
    Ok(())
}

#[test]
fn a_ring_of_items_of_the_largest_alignment(rt: HostRuntime) -> Result<(), Fail> {
    assert!(rt; align_of::<u128>() == 16);
    hold_two::<u128>(&rt, rt.alloc(), 2, 1)?;
    hold_two::<u128>(&rt, rt.alloc(), 3, 2)
}

#[test]
fn a_region_too_large_to_name_is_refused(rt: HostRuntime) {
    assert!(rt; Ring::<u64>::new(rt.alloc(), usize::MAX).is_err());
    assert!(rt; capacity_of_region::<u64>(rt.alloc(), usize::MAX).is_err());
}
