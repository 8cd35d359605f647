//! Binary searches of a list in order, beside a plain scan.
use crate::build::deque_at;
use arraydeque::{ArrayDeque, Saturating};
use std::test::Fail;

/// Where a scan finds a number among items that rise, or in the error where it would go.
fn scan(items: &[i64], number: i64) -> Result<usize, usize> {
    for index in 0..items.len() {
        if items[index] == number {
            return Ok(index);
        }
        if items[index] > number {
            return Err(index);
        }
    }
    Err(items.len())
}

/// Whether each search finds what a scan does, and asks at most `limit` times. A binary search asks
/// once more, whether the item is the one at which it ended.
fn searches_alike<const CAP: usize>(
    deque: &ArrayDeque<i64, CAP, Saturating>,
    items: &[i64],
    number: i64,
    limit: usize,
) -> bool {
    let found = scan(items, number);
    let less = match found {
        Ok(index) => index,
        Err(index) => index,
    };
    let (mut tests, mut orders, mut keys) = (0_usize, 0_usize, 0_usize);
    let point = deque.partition_point(|item| {
        tests = tests.wrapping_add(1);
        *item < number
    });
    let by_order = deque.binary_search_by(|item| {
        orders = orders.wrapping_add(1);
        item.cmp(&number)
    });
    let by_key = deque.binary_search_by_key(&number, |item| {
        keys = keys.wrapping_add(1);
        *item
    });
    point == less
        && deque.binary_search(&number) == found
        && (by_order, by_key) == (found, found)
        && (tests <= limit && orders.saturating_sub(1) <= limit && keys.saturating_sub(1) <= limit)
}

/// One step more than halving takes: the first item of the second slice is asked about too.
#[test]
fn searches_from_each_start(rt: HostRuntime) -> Result<(), Fail> {
    let rows: [(&[i64], usize); 6] = [
        (&[], 0),
        (&[0], 1),
        (&[0, 2], 2),
        (&[0, 2, 4], 3),
        (&[0, 2, 4, 6], 4),
        (&[0, 2, 4, 6, 8], 4),
    ];
    for start in 0..5 {
        for (items, limit) in rows {
            let deque = deque_at::<5>(rt.alloc(), start, items)?;
            for number in -1..10 {
                assert!(rt;
                    searches_alike(&deque, items, number, limit),
                    "{number} in {items:?}, start {start}"
                );
            }
        }
    }
    Ok(())
}

/// The same of a thousand items, the second half of which wraps.
#[test]
fn searches_of_a_thousand_items(rt: HostRuntime) -> Result<(), Fail> {
    let mut items = Vec::with_capacity(rt.alloc(), 1000)?;
    for half in 0..1000_u16 {
        items.push(2 * i64::from(half))?;
    }
    let deque = deque_at::<1000>(rt.alloc(), 500, &items)?;
    for number in -1..2000 {
        assert!(rt; searches_alike(&deque, &items, number, 11), "{number}");
    }
    Ok(())
}
