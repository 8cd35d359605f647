//! Walks over a deque by reference, for writing and by value, from both ends.
use arraydeque::{ArrayDeque, IntoIter, Iter, IterMut, Saturating};
use arraydeque_samples::build::{deque_at, holds, numbers};
use std::alloc::{AllocError, Global};
use std::process::Abort;
use std::test::Fail;

/// Whether an iterator lends the items 1 and 2, and no more.
fn lends_one_and_two(mut items: Iter<'_, i64>) -> bool {
    items.size_hint() == (2, Some(2))
        && (items.next(), items.next()) == (Some(&1), Some(&2))
        && (items.next(), items.size_hint()) == (None, (0, Some(0)))
}

/// Whether an iterator lends the items 2 and 3, and a copy that is made between them goes on.
fn lends_two_and_three(mut items: Iter<'_, i64>) -> Result<bool, AllocError> {
    let first = items.next();
    let mut copy = items.clone()?;
    Ok(
        first == Some(&2)
            && (items.next(), items.next()) == (Some(&3), None)
            && (copy.next(), copy.next()) == (Some(&3), None),
    )
}

/// Whether an iterator lends 1, 3 and 2 from the front, the back and the front, and from then on
/// nothing at either end.
fn lends_three(mut items: Iter<'_, i64>) -> bool {
    items.next() == Some(&1)
        && (items.next_back(), items.next()) == (Some(&3), Some(&2))
        && (items.next(), items.next_back()) == (None, None)
        && (items.next(), items.next_back()) == (None, None)
}

/// Whether both ends of an iterator of 1 to 5 meet, as those of a copy do that is made between.
fn meets(mut items: Iter<'_, i64>) -> Result<bool, AllocError> {
    if (items.next(), items.next_back()) != (Some(&1), Some(&5))
        || (items.next(), items.len()) != (Some(&2), 2)
    {
        return Ok(false);
    }
    let mut copy = items.clone()?;
    Ok(
        (items.next_back(), items.next()) == (Some(&4), Some(&3))
            && (items.next(), items.next_back()) == (None, None)
            && (copy.len(), copy.next(), copy.next()) == (2, Some(&3), Some(&4)),
    )
}

#[test]
fn items_are_lent_in_order(rt: HostRuntime) -> Result<(), Fail> {
    let mut deque = deque_at::<2>(rt.alloc(), 0, &[1, 2])?;
    let is_lent = lends_one_and_two(deque.iter());
    deque.pop_front();
    assert!(rt;
        is_lent && deque.push_back(3).is_ok() && lends_two_and_three((&deque).into_iter())?
    );
    assert!(rt;
        lends_three(deque_at::<3>(rt.alloc(), 0, &[1, 2, 3])?.iter())
            && meets(deque_at::<5>(rt.alloc(), 3, &[1, 2, 3, 4, 5])?.iter())?
    );
    Ok(())
}

/// The last total of a fold which appends each item to the total as a digit.
fn fold_digits(items: Iter<'_, i64>) -> i64 {
    items.fold(
        0,
        |total: i64, item| total.wrapping_mul(10).wrapping_add(*item),
    )
}

#[test]
fn items_are_folded_in_order(rt: HostRuntime) -> Result<(), Fail> {
    let deque = deque_at::<5>(rt.alloc(), 3, &[1, 2, 3, 4, 5])?;
    let mut inner = deque.iter();
    let ends = (inner.next(), inner.next_back());
    assert!(rt; ends == (Some(&1), Some(&5)) && fold_digits(inner) == 234);
    assert!(rt; fold_digits(deque.iter()) == 12345);
    Ok(())
}

/// The items on which a `for_each` calls, each appended as a digit.
fn for_each_digits(items: Iter<'_, i64>) -> i64 {
    let mut total = 0i64;
    items.for_each(|item| total = total.wrapping_mul(10).wrapping_add(*item));
    total
}

/// Appends to each item on which a `for_each` calls how many it has called on by then.
fn number_each(items: IterMut<'_, i64>) {
    let mut count = 0i64;
    items.for_each(|item| {
        count = count.wrapping_add(1);
        *item = item.wrapping_mul(10).wrapping_add(count);
    });
}

#[test]
fn each_item_is_called_on_in_order(rt: HostRuntime) -> Result<(), Fail> {
    let mut deque = deque_at::<5>(rt.alloc(), 3, &[1, 2, 3, 4, 5])?;
    let is_whole = for_each_digits(deque.iter()) == 12345;
    let mut inner = deque.iter();
    let ends = (inner.next(), inner.next_back());
    assert!(rt; is_whole && ends == (Some(&1), Some(&5)) && for_each_digits(inner) == 234);
    let mut inner = deque.iter_mut();
    let _ = (inner.next(), inner.next_back());
    number_each(inner);
    let is_inner = holds(&deque, &[1, 21, 32, 43, 5]);
    number_each(deque.iter_mut());
    assert!(rt; is_inner && holds(&deque, &[11, 212, 323, 434, 55]));
    Ok(())
}

/// Whether an iterator lends these two items for writing, and no more.
fn lends_two(mut items: IterMut<'_, i64>, first: i64, second: i64) -> bool {
    items.size_hint() == (2, Some(2))
        && items.next().copied() == Some(first)
        && items.next().copied() == Some(second)
        && items.next().is_none()
        && items.size_hint() == (0, Some(0))
}

/// Whether items are lent for writing in order, by an iterator of a loan too, and keep what is
/// written.
fn lends_for_writing(alloc: Global) -> Result<bool, Fail> {
    let mut deque = deque_at::<2>(alloc, 0, &[1, 2])?;
    let mut turned = deque_at::<2>(alloc, 1, &[2, 3])?;
    let is_lent = lends_two(deque.iter_mut(), 1, 2) && lends_two((&mut turned).into_iter(), 2, 3);
    let mut items = turned.iter_mut();
    if let (Some(first), Some(second)) = (items.next(), items.next()) {
        *first = first.wrapping_add(1);
        *second = second.wrapping_add(2);
    }
    Ok(is_lent && holds(&turned, &[3, 5]))
}

/// Whether two slices for writing are the list, before and after it is cut, and keep what is
/// written.
fn lends_slices(alloc: Global) -> Result<bool, Fail> {
    let mut deque = deque_at::<7>(alloc, 0, &[0, 1])?;
    let (front, back) = deque.as_mut_slices();
    let is_lent = &*front == [0, 1].as_slice() && back.is_empty();
    let is_pushed = deque.push_front(2).is_ok();
    let (front, back) = deque.as_mut_slices();
    let is_cut = &*front == [2].as_slice() && &*back == [0, 1].as_slice();
    if let Some(item) = back.first_mut() {
        *item = 9;
    }
    Ok(is_lent && is_pushed && is_cut && holds(&deque, &[2, 9, 1]))
}

/// Whether both iterators lend what those of an array do.
fn lends_as_an_array(alloc: Global) -> Result<bool, Fail> {
    let mut deque = deque_at::<3>(alloc, 0, &[0, 1, 2])?;
    let mut expected = [0, 1, 2];
    Ok(deque.iter().eq(expected.iter()) && deque.iter_mut().eq(expected.iter_mut()))
}

#[test]
fn items_are_lent_for_writing(rt: HostRuntime) -> Result<(), Fail> {
    assert!(rt;
        lends_for_writing(rt.alloc())?
            && lends_slices(rt.alloc())?
            && lends_as_an_array(rt.alloc())?
    );
    Ok(())
}

/// An item that can't be copied.
#[derive(PartialEq, Debug, Drop)]
struct Kept(u8);

/// A deque of the items `last - 1` and `last`, once those before them were popped.
fn last_two(alloc: Global, last: u8) -> Result<ArrayDeque<Kept, 3, Saturating>, Fail> {
    let mut deque = ArrayDeque::<Kept, 3, Saturating>::new(alloc)?;
    for number in 1..=last {
        if deque.len() == 2 {
            deque.pop_front();
        }
        deque.push_back(Kept(number)).ok().ok_or("no room")?;
    }
    Ok(deque)
}

/// Whether an owned iterator gives these two items, and no more.
fn gives_two(mut items: IntoIter<Kept, 3, Saturating>, first: Kept, second: Kept) -> bool {
    items.size_hint() == (2, Some(2))
        && (items.next(), items.next()) == (Some(first), Some(second))
        && (items.next(), items.size_hint()) == (None, (0, Some(0)))
}

#[test]
fn items_are_given_in_order(rt: HostRuntime) -> Result<(), Fail> {
    for last in 2..=4 {
        let items = last_two(rt.alloc(), last)?.into_iter();
        assert!(rt;
            gives_two(items, Kept(last.wrapping_sub(1)), Kept(last)),
            "{last}"
        );
    }
    Ok(())
}

/// Writes 10 and on over four items, from the ends that the binary digits of `ends` tell: 1 is the
/// back. Writes 0 over the others.
fn write_over(mut items: IterMut<'_, i64>, mut ends: u32) {
    for number in 10..14 {
        let lent = if ends % 2 == 1 {
            items.next_back()
        } else {
            items.next()
        };
        if let Some(item) = lent {
            *item = number;
        }
        ends /= 2;
    }
    for item in items {
        *item = 0;
    }
}

/// The same over a plain list.
fn write_over_list(list: &mut [i64], mut ends: u32) {
    let mut items = list.iter_mut();
    for number in 10..14 {
        let lent = if ends % 2 == 1 {
            items.next_back()
        } else {
            items.next()
        };
        if let Some(item) = lent {
            *item = number;
        }
        ends /= 2;
    }
    for item in items {
        *item = 0;
    }
}

/// Whether what is written over a deque by an iterator is what a plain list has.
fn writes_alike<const CAP: usize>(
    alloc: Global,
    start: usize,
    len: usize,
    ends: u32,
) -> Result<bool, Fail> {
    let mut list = numbers(alloc, len)?;
    let mut deque = deque_at::<CAP>(alloc, start, &list)?;
    write_over(deque.iter_mut(), ends);
    write_over_list(&mut list, ends);
    Ok(holds(&deque, &list))
}

/// The writes at each start and length, by each mixture of four ends, and so of fewer too.
fn write_all<const CAP: usize>(rt: &impl Abort, alloc: Global) -> Result<(), Fail> {
    for start in 0..CAP {
        for len in 0..=CAP {
            for ends in 0..16 {
                assert!(rt;
                    writes_alike::<CAP>(alloc, start, len, ends)?,
                    "of {CAP}, start {start}, length {len}, ends {ends}"
                );
            }
        }
    }
    Ok(())
}

#[test]
fn what_is_written_from_both_ends_stays(rt: HostRuntime) -> Result<(), Fail> {
    write_all::<1>(&rt, rt.alloc())?;
    write_all::<2>(&rt, rt.alloc())?;
    write_all::<3>(&rt, rt.alloc())?;
    write_all::<4>(&rt, rt.alloc())?;
    write_all::<5>(&rt, rt.alloc())?;
    write_all::<6>(&rt, rt.alloc())?;
    Ok(())
}

type MostPlaces = ArrayDeque<(), { usize::MAX }, Saturating>;

/// Whether two items of size zero are lent.
fn lends_two_of_size_zero(mut items: Iter<'_, ()>) -> bool {
    (items.len(), items.next()) == (2, Some(&()))
        && (items.next_back(), items.next()) == (Some(&()), None)
}

/// Whether they are lent for writing.
fn lends_two_of_size_zero_for_writing(mut items: IterMut<'_, ()>) -> bool {
    (items.len(), items.next()) == (2, Some(&mut ()))
        && (items.next_back(), items.next()) == (Some(&mut ()), None)
}

/// Whether they are given.
fn gives_two_of_size_zero(deque: MostPlaces) -> bool {
    let mut items = deque.into_iter();
    (items.len(), items.next()) == (2, Some(()))
        && (items.next_back(), items.next()) == (Some(()), None)
}

#[test]
fn two_items_of_size_zero(rt: HostRuntime) -> Result<(), Fail> {
    let mut deque = MostPlaces::new(rt.alloc())?;
    assert!(rt;
        deque.push_front(()).is_ok()
            && deque.push_back(()).is_ok()
            && lends_two_of_size_zero(deque.iter())
            && lends_two_of_size_zero_for_writing(deque.iter_mut())
            && gives_two_of_size_zero(deque)
    );
    Ok(())
}
