//! Iterators of no items and of one, at the capacities 0 and 1, under either policy.
use arraydeque::behavior::Behavior;
use arraydeque::{ArrayDeque, IntoIter, Iter, IterMut, Saturating, Wrapping};
use arraydeque_samples::build::{deque_at, holds, made, wrapping_at};
use std::alloc::{AllocError, Global};
use std::test::Fail;

/// Whether an iterator and its copy have nothing to lend.
fn has_nothing(mut items: Iter<'_, i64>) -> Result<bool, AllocError> {
    let mut copy = items.clone()?;
    Ok(
        (items.len(), items.size_hint()) == (0, (0, Some(0)))
            && (items.next(), items.next_back()) == (None, None)
            && (copy.next(), copy.len()) == (None, 0),
    )
}

/// Whether one has nothing to lend for writing.
fn has_nothing_to_write(mut items: IterMut<'_, i64>) -> bool {
    (items.len(), items.size_hint()) == (0, (0, Some(0)))
        && items.next().is_none()
        && items.next_back().is_none()
}

/// Whether no item is called on, neither by an iterator nor in place.
fn calls_on_nothing<const CAP: usize, B: Behavior>(deque: &mut ArrayDeque<i64, CAP, B>) -> bool {
    let mut is_called = false;
    deque.iter().for_each(|_| is_called = true);
    deque.iter_mut().for_each(|_| is_called = true);
    deque.for_each_mut(|_| is_called = true);
    deque.for_each_mut_in(.., |_| is_called = true);
    !deque.iter().fold(is_called, |_, _| true)
}

/// Whether a deque of no items lends none, by either iterator, by a loop and in slices.
fn lends_nothing<const CAP: usize, B: Behavior>(
    deque: &mut ArrayDeque<i64, CAP, B>,
) -> Result<bool, AllocError> {
    let is_read = has_nothing(deque.iter())? && has_nothing((&*deque).into_iter())?;
    let is_written = has_nothing_to_write(deque.iter_mut())
        && has_nothing_to_write((&mut *deque).into_iter())
        && has_nothing_to_write(deque.range_mut(..));
    let (front, back) = deque.as_mut_slices();
    let is_cut = front.is_empty() && back.is_empty();
    deque.linearize();
    Ok(
        deque.as_mut_slice().is_empty()
            && deque.first_slice_mut().is_empty()
            && deque.second_slice_mut().is_empty()
            && calls_on_nothing(deque)
            && is_cut
            && is_read
            && is_written,
    )
}

/// Whether an owned iterator has nothing to give.
fn has_nothing_to_give<const CAP: usize, B: Behavior>(mut items: IntoIter<i64, CAP, B>) -> bool {
    (items.len(), items.size_hint()) == (0, (0, Some(0)))
        && (items.next(), items.next_back()) == (None, None)
}

/// Whether a new deque lends nothing, and gives nothing to an iterator and to a vector.
fn gives_nothing<const CAP: usize, B: Behavior>(alloc: Global) -> Result<bool, Fail> {
    let mut deque = ArrayDeque::<i64, CAP, B>::new(alloc)?;
    let is_lent = lends_nothing(&mut deque)? && has_nothing_to_give(deque.into_iter());
    let list = made(ArrayDeque::<i64, CAP, B>::new(alloc)?.into_vec())?;
    Ok(is_lent && list.is_empty())
}

#[test]
fn nothing_is_lent_and_given_of_no_places_0_requests_0_bytes(rt: HostRuntime) -> Result<(), Fail> {
    assert!(rt;
        gives_nothing::<0, Saturating>(rt.alloc())? && gives_nothing::<0, Wrapping>(rt.alloc())?
    );
    Ok(())
}

/// Whether two iterators and a copy lend the one item, from the front and from the back.
fn has_one(mut front: Iter<'_, i64>, mut back: Iter<'_, i64>) -> Result<bool, AllocError> {
    let mut copy = back.clone()?;
    Ok(
        (front.len(), front.size_hint()) == (1, (1, Some(1)))
            && (front.next(), front.next_back(), front.len()) == (Some(&6), None, 0)
            && (back.next_back(), back.next(), back.len()) == (Some(&6), None, 0)
            && (copy.len(), copy.next()) == (1, Some(&6)),
    )
}

/// Whether an iterator lends one item for writing, from the end that is asked for, and no more.
/// It becomes the number.
fn writes_over(mut items: IterMut<'_, i64>, is_back: bool, number: i64) -> bool {
    let hint = (items.len(), items.size_hint());
    let lent = if is_back {
        items.next_back()
    } else {
        items.next()
    };
    if let Some(item) = lent {
        *item = number;
    }
    hint == (1, (1, Some(1)))
        && items.next().is_none()
        && items.next_back().is_none()
        && items.len() == 0
}

/// Whether the one item is written over by an iterator, from the front.
fn is_written_by_iter_mut<B: Behavior>(mut deque: ArrayDeque<i64, 1, B>) -> bool {
    let is_lent = writes_over(deque.iter_mut(), false, 7);
    is_lent && holds(&deque, &[7])
}

/// Whether it is by the iterator of a loan, from the back.
fn is_written_by_a_loan<B: Behavior>(mut deque: ArrayDeque<i64, 1, B>) -> bool {
    let is_lent = writes_over((&mut deque).into_iter(), true, 8);
    is_lent && holds(&deque, &[8])
}

/// Whether it stands in the first slice for writing. It becomes 9.
fn writes_in_slices<B: Behavior>(deque: &mut ArrayDeque<i64, 1, B>) -> bool {
    let (front, back) = deque.as_mut_slices();
    let is_whole = front.len() == 1 && back.is_empty();
    if let Some(item) = front.first_mut() {
        *item = 9;
    }
    is_whole
}

/// Whether the one item is written over in every way.
fn writes_over_one<B: Behavior>(mut deque: ArrayDeque<i64, 1, B>) -> Result<bool, Fail> {
    let is_lent = is_written_by_iter_mut(deque.clone()?) && is_written_by_a_loan(deque.clone()?);
    let is_whole = writes_in_slices(&mut deque);
    Ok(is_lent && is_whole && holds(&deque, &[9]))
}

/// Whether a deque lends its one item, and gives it to an iterator, from either end, or a vector.
fn gives_one<B: Behavior>(deque: ArrayDeque<i64, 1, B>) -> Result<bool, Fail> {
    let is_lent = has_one(deque.iter(), (&deque).into_iter())? && writes_over_one(deque.clone()?)?;
    let list = made(deque.clone()?.into_vec())?;
    let mut front = deque.clone()?.into_iter();
    let mut back = deque.into_iter();
    Ok(
        is_lent
            && list.as_slice() == [6].as_slice()
            && (front.len(), front.size_hint()) == (1, (1, Some(1)))
            && (front.next(), front.next_back(), front.len()) == (Some(6), None, 0)
            && (back.next_back(), back.next(), back.len()) == (Some(6), None, 0),
    )
}

#[test]
fn nothing_and_one_item_are_lent_and_given_of_one_place(rt: HostRuntime) -> Result<(), Fail> {
    assert!(rt;
        gives_nothing::<1, Saturating>(rt.alloc())? && gives_nothing::<1, Wrapping>(rt.alloc())?
    );
    assert!(rt;
        gives_one(deque_at::<1>(rt.alloc(), 0, &[6])?)?
            && gives_one(wrapping_at::<1>(rt.alloc(), 0, &[6])?)?
    );
    Ok(())
}
