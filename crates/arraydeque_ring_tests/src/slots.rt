//! The region.
use arraydeque_ring::slots::Slots;
use std::test::Fail;

/// Each call of a region but `two_slices_mut`: only `new` asks for memory. That one is called on
/// empty runs alone (in `capacities`): after values were lent by such a pair, no test could show
/// that every place is empty at the end, as the region's drop requires.
#[test]
fn calls_of_a_region_1_request_4_bytes(rt: HostRuntime) -> Result<(), Fail> {
    let mut slots = Slots::<u8>::new(rt.alloc(), 4)?;
    let _alloc = slots.alloc();
    slots.put(0, 10);
    slots.put(1, 20);
    slots.shift(3, 1);
    slots.exchange(0, 3);
    slots.wrap_move(1, 3, 2);
    assert!(rt;
        slots.capacity() == 4 && *slots.get(1) == 10 && slots.slice(1, 2) == [10, 20].as_slice()
    );
    *slots.get_mut(1) = 30;
    slots.slice_mut(1, 2)[1] = 40;
    assert!(rt; slots.slice(4, 0) == [].as_slice() && (slots.take(2), slots.take(1)) == (40, 30));
    Ok(())
}
