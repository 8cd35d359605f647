//! The ring.
ghost use Rattle.std.specs.Prelude.{◌^◌, ◌<◌};

use arraydeque_ring::ring::Ring;
use arraydeque_ring::ring::into_iter::IntoIter;
use std::alloc::Global;
use std::test::Fail;

/// Whether items go in and out at either end, and stand where the list wraps.
fn pushes_and_pops(ring: &mut Ring<u8>) -> bool {
    if ring.len() != 0 || ring.capacity() != 3 {
        return false;
    }
    ring.push_back(2);
    ring.push_back(3);
    ring.push_front(1);
    ring.len() == 3
        && ring.as_slices() == ([1].as_slice(), [2, 3].as_slice())
        && (ring.get(0), ring.get(2), ring.get(3)) == (Some(&1), Some(&3), None)
        && (ring.pop_front(), ring.pop_back()) == (Some(1), Some(3))
        && (ring.pop_back(), ring.pop_back(), ring.pop_front()) == (Some(2), None, None)
}

/// Whether items go in between, are written over and exchanged, and go out but for one.
fn edits(ring: &mut Ring<u8>) -> bool {
    if ring.len() != 0 || ring.capacity() != 3 {
        return false;
    }
    ring.insert(0, 1);
    ring.insert(1, 3);
    ring.insert(1, 2);
    if let Some(item) = ring.get_mut(1) {
        *item = 4;
    }
    if ring.len() != 3 {
        return false;
    }
    ring.swap(0, 2);
    let removed = ring.remove(1);
    removed == 4 && ring.pop_front() == Some(3)
}

/// Whether the items are dropped, and two of three others are retained and halved, after these were
/// written over in two slices and laid in one piece.
fn passes(ring: &mut Ring<u8>) -> bool {
    ring.clear();
    if ring.capacity() != 3 {
        return false;
    }
    ring.push_back(1);
    ring.push_back(2);
    ring.push_front(4);
    let (first, second) = ring.as_mut_slices();
    if let Some(item) = first.first_mut() {
        *item = 6;
    }
    if let Some(item) = second.first_mut() {
        *item = 7;
    }
    ring.linearize();
    let is_one_piece = ring.as_slices() == ([6, 7, 2].as_slice(), [].as_slice());
    ring.as_mut_slice().reverse();
    ring.retain(|item| *item % 2 == 0);
    let is_retained = ring.as_slices() == ([2, 6].as_slice(), [].as_slice());
    ring.retain_mut(|item| {
        *item /= 2;
        true
    });
    is_one_piece && is_retained && ring.as_slices() == ([1, 3].as_slice(), [].as_slice())
}

/// Whether a ring takes over from another what it has room for, and both let items go.
fn hands_over(ring: &mut Ring<u8>, other: &mut Ring<u8>) -> bool {
    if ring.len() != 2 || ring.capacity() != 3 || other.len() != 0 || other.capacity() != 3 {
        return false;
    }
    other.push_back(4);
    other.push_front(5);
    ring.append(other, 1);
    ring.truncate_front(1);
    other.truncate(0);
    ring.as_slices() == ([5].as_slice(), [].as_slice()) && other.len() == 0
}

/// Calls at both ends, in between and on all items, and those that hand out nothing: only those
/// that make a ring ask for memory.
#[test]
fn calls_of_a_ring_2_requests_6_bytes(rt: HostRuntime) -> Result<(), Fail> {
    let mut ring = Ring::<u8>::new(rt.alloc(), 3)?;
    let mut other = Ring::<u8>::new(rt.alloc(), 3)?;
    assert!(rt;
        pushes_and_pops(&mut ring)
            && edits(&mut ring)
            && passes(&mut ring)
            && hands_over(&mut ring, &mut other)
            && ring.len() == 1
    );
    let drained = ring.drain(1, 1)?;
    let mut empty = Ring::<u8>::new(ring.alloc(), 0)?;
    assert!(rt; drained.capacity() == 0 && empty.split_off(0)?.capacity() == 0);
    Ok(())
}

/// Whether copies of items of some words come in order: into a new ring, and then behind those that
/// are left of them, round the end.
fn copies_come<const WORDS: usize>(alloc: Global, count: usize) -> Result<bool, Fail>
    requires { WORDS < 2 ^ 32 }
{
    let items: Vec<[usize; WORDS]> = (0..count).map(|number| [number; WORDS]).collect(alloc)?;
    let mut ring = Ring::from_slice(alloc, items.len(), &items)?;
    let (quarter, half) = (count / 4, count / 2);
    ring.truncate(half);
    ring.truncate_front(half - quarter);
    let room = count - ring.len();
    let copied = ring.copy_back(&items);
    let numbers = (quarter..half).chain(0..room);
    Ok(copied == room && IntoIter::from_ring(ring).eq(numbers.map(|number| [number; WORDS])))
}

#[test]
fn copies_of_items_of_every_size_come_in_order(rt: HostRuntime) -> Result<(), Fail> {
    let alloc = rt.alloc();
    assert!(rt; copies_come::<1>(alloc, 20_000)?);
    assert!(rt; copies_come::<4>(alloc, 5_000)?);
    assert!(rt; copies_come::<5>(alloc, 1_300)?);
    assert!(rt; copies_come::<20>(alloc, 700)?);
    assert!(rt; copies_come::<100>(alloc, 400)?);
    assert!(rt; copies_come::<600>(alloc, 90)?);
    assert!(rt; copies_come::<1_100>(alloc, 30)?);
    Ok(())
}
