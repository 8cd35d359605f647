//! The largest capacity, and items of size zero.
use arraydeque::{ArrayDeque, Saturating, Wrapping};
use arraydeque_samples::build::holds;
use std::alloc::Global;
use std::test::Fail;

/// Whether a deque of the largest capacity holds three copies of an item of size zero, of whose
/// type there is no other.
fn holds_three<T: Copy + PartialEq>(
    deque: &mut ArrayDeque<T, { usize::MAX }, Saturating>,
    item: T,
    copies: &[T],
) -> bool {
    deque.push_front(item).is_ok()
        && deque.push_back(item).is_ok()
        && deque.push_front(item).is_ok()
        && deque.len() == 3
        && deque.capacity() == usize::MAX
        && holds(deque, copies)
        && deque.get(2).is_some()
        && deque.get(3).is_none()
        && deque.pop_back().is_some()
        && deque.pop_front().is_some()
        && deque.pop_back().is_some()
        && deque.pop_front().is_none()
}

/// Whether two copies are edited, laid in one piece and parted, call after call on one deque.
fn edits_two<T: Copy + PartialEq>(
    deque: &mut ArrayDeque<T, { usize::MAX }, Saturating>,
    item: T,
) -> Result<bool, Fail> {
    let is_edited = deque.push_front(item).is_ok()
        && deque.push_back(item).is_ok()
        && deque.get(1) == Some(&item)
        && deque.get(2).is_none()
        && deque.len() == 2
        && deque.insert(1, item).is_ok()
        && deque.len() == 3
        && deque.remove(1) == Some(item)
        && deque.len() == 2;
    deque.linearize();
    let (first, second) = deque.as_slices();
    let is_one_piece = (first.len(), second.len()) == (2, 0);
    Ok(
        is_edited
            && is_one_piece
            && deque.len() == 2
            && deque.split_off(1)?.len() == 1
            && deque.len() == 1
            && deque.drain(0..1)?.len() == 1
            && deque.len() == 0,
    )
}

/// Whether a deque of the largest capacity treats items of size zero as others.
fn takes_items_of<T: Copy + PartialEq>(alloc: Global, item: T, copies: &[T]) -> Result<bool, Fail> {
    let mut three = ArrayDeque::<T, { usize::MAX }, Saturating>::new(alloc)?;
    let mut two = ArrayDeque::<T, { usize::MAX }, Saturating>::new(alloc)?;
    Ok(holds_three(&mut three, item, copies) && edits_two(&mut two, item)?)
}

/// Whether three items of size zero can be parted under the policy that displaces.
fn parts_three(deque: &mut ArrayDeque<(), 3, Wrapping>) -> Result<bool, Fail> {
    deque.extend_back([(), (), ()]);
    Ok(
        deque.len() == 3
            && deque.drain(1..2)?.len() == 1
            && deque.len() == 2
            && deque.split_off(1)?.len() == 1,
    )
}

#[test]
fn the_largest_capacity_and_items_of_size_zero_0_requests_0_bytes(
    rt: HostRuntime,
) -> Result<(), Fail> {
    assert!(rt;
        takes_items_of(rt.alloc(), (), &[(), (), ()])?
            && takes_items_of::<[u64; 0]>(rt.alloc(), [], &[[], [], []])?
            && takes_items_of::<[u128; 0]>(rt.alloc(), [], &[[], [], []])?
            && parts_three(&mut ArrayDeque::new(rt.alloc())?)?
            && ArrayDeque::<u64, { usize::MAX }, Saturating>::new(rt.alloc()).is_err()
    );
    Ok(())
}
