//! Items that move across the region's end, in rings of items of every size.
use crate::items::{Numbered, Three, Wide, ring_at};
use arraydeque_ring::ring::Ring;
use std::alloc::Global;
use std::process::Abort;
use std::test::Fail;

/// Whether the ring holds items of the numbers in these runs, each from its first up to its end.
fn holds<T: Numbered>(ring: &Ring<T>, runs: &[(u8, u8)]) -> bool {
    let len = ring.len();
    let mut index = 0;
    for &(from, to) in runs {
        for number in from..to {
            if index >= len || !has_at(ring, index, T::of(number)) {
                return false;
            }
            index += 1;
        }
    }
    index == len
}

/// Whether the item at an index has the number of another item.
fn has_at<T: Numbered>(ring: &Ring<T>, index: usize, item: T) -> bool {
    match ring.get(index) {
        Some(held) => held.number() == item.number(),
        None => false,
    }
}

/// Inserts an item, and takes it out again.
fn insert_and_remove<T: Numbered>(rt: &impl Abort, mut ring: Ring<T>, index: u8, len: u8) {
    assert!(rt; usize::from(index) <= ring.len() && ring.len() < ring.capacity());
    ring.insert(usize::from(index), T::of(99));
    assert!(rt;
        holds(&ring, &[(0, index), (99, 100), (index, len)]),
        "insert at {index}"
    );
    assert!(rt; usize::from(index) < ring.len());
    let item = ring.remove(usize::from(index));
    assert!(rt; item.number() == T::of(99).number());
    assert!(rt; holds(&ring, &[(0, len)]), "remove at {index}");
}

/// Puts the items before an index behind the others.
fn rotate<T: Numbered>(rt: &impl Abort, mut ring: Ring<T>, count: u8, len: u8) {
    assert!(rt; usize::from(count) <= ring.len());
    ring.rotate_left(usize::from(count));
    assert!(rt;
        holds(&ring, &[(count, len), (0, count)]),
        "rotate by {count}"
    );
}

/// Drains the items from one index up to another.
fn drain_between<T: Numbered>(
    rt: &impl Abort,
    mut ring: Ring<T>,
    from: u8,
    to: u8,
    len: u8,
) -> Result<(), Fail> {
    assert!(rt; from <= to && usize::from(to) <= ring.len());
    let drained = ring.drain(usize::from(from), usize::from(to))?;
    assert!(rt; holds(&drained, &[(from, to)]), "drain {from}..{to}");
    assert!(rt; holds(&ring, &[(0, from), (to, len)]), "drain {from}..{to}");
    Ok(())
}

/// Inserts, removes, rotates and drains at each index of a list of six that starts at each of eight
/// places, and rotates a full ring.
fn move_across_the_end<T: Numbered>(rt: &impl Abort, alloc: Global) -> Result<(), Fail> {
    for start in 0..8 {
        for from in 0..=6 {
            insert_and_remove(rt, ring_at::<T>(rt, alloc, 8, start, 6)?, from, 6);
            rotate(rt, ring_at::<T>(rt, alloc, 8, start, 6)?, from, 6);
            rotate(rt, ring_at::<T>(rt, alloc, 8, start, 8)?, from, 8);
            for to in from..=6 {
                drain_between(rt, ring_at::<T>(rt, alloc, 8, start, 6)?, from, to, 6)?;
            }
        }
    }
    Ok(())
}

#[test]
fn items_of_every_size_move_across_the_end(rt: HostRuntime) -> Result<(), Fail> {
    move_across_the_end::<()>(&rt, rt.alloc())?;
    move_across_the_end::<u8>(&rt, rt.alloc())?;
    move_across_the_end::<u64>(&rt, rt.alloc())?;
    move_across_the_end::<Three>(&rt, rt.alloc())?;
    move_across_the_end::<Wide>(&rt, rt.alloc())
}

/// The number of the item at an index of a long list.
fn number_at(index: usize) -> u8 {
    (index % 251) as u8
}

/// Drains two of 2,800 items, so that 1,365 move: as many as a block of each length takes.
fn blocks_of_each_length<T: Numbered>(
    rt: &impl Abort,
    alloc: Global,
    from: usize,
) -> Result<(), Fail> {
    let mut ring = Ring::<T>::new(alloc, 2_800)?;
    for index in 0..2_800 {
        assert!(rt; ring.len() < ring.capacity());
        ring.push_back(T::of(number_at(index)));
    }
    assert!(rt; from < 2_798 && ring.len() == 2_800);
    let drained = ring.drain(from, from + 2)?;
    assert!(rt; has_at(&drained, 1, T::of(number_at(from + 1))));
    for index in 0..2_798 {
        let was = if index < from { index } else { index + 2 };
        assert!(rt; has_at(&ring, index, T::of(number_at(was))), "item {was}");
    }
    Ok(())
}

#[test]
fn long_runs_move_in_blocks_of_each_length(rt: HostRuntime) -> Result<(), Fail> {
    for from in [1_365, 1_433] {
        blocks_of_each_length::<u8>(&rt, rt.alloc(), from)?;
        blocks_of_each_length::<u64>(&rt, rt.alloc(), from)?;
        blocks_of_each_length::<Three>(&rt, rt.alloc(), from)?;
    }
    Ok(())
}
