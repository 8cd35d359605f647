//! Calls that ask for no memory, beyond the regions of the deques that they are made on. The name
//! of each test ends in the requests that it makes and the bytes that it takes; it gives all of it
//! back.
use crate::asked::Script;
use crate::build::{deque_at, holds, is_cut, made, wrapping_at};
use arraydeque::lookahead::Scanner;
use arraydeque::{ArrayDeque, IterMut, RangeArgument, Saturating, Wrapping};
use std::alloc::{AllocError, Global};
use std::cmp::Ordering;
use std::hash::{DefaultHasher, Hash, Hasher};
use std::io::{BufRead, Read, Write};
use std::test::Fail;

type Deque = ArrayDeque<i64, 4, Saturating>;

/// Has a deque hold these items, the first of which stands at the place 2.
pub(crate) fn refill(deque: &mut Deque, items: &[i64]) {
    deque.clear();
    deque.extend_back([0, 0]);
    deque.pop_front();
    deque.pop_front();
    deque.extend_back(items.iter().copied());
}

/// Whether four items go in at the back, and two more have those at the other end given up.
fn displaces(deque: &mut ArrayDeque<i64, 4, Wrapping>) -> bool {
    deque.push_back(0).is_none()
        && deque.push_back(1).is_none()
        && deque.push_back(2).is_none()
        && deque.push_back(3).is_none()
        && deque.push_back(4) == Some(0)
        && deque.push_front(0) == Some(4)
        && deque.pop_front() == Some(0)
        && deque.pop_back() == Some(3)
}

/// Whether an item goes in and out at either end.
fn pushes_and_pops(deque: &mut ArrayDeque<i64, 4, Saturating>) -> bool {
    deque.push_back(1).is_ok()
        && deque.push_front(0).is_ok()
        && deque.len() == 2
        && deque.capacity() == 4
        && !deque.is_empty()
        && !deque.is_full()
        && deque.pop_front() == Some(0)
        && deque.pop_back() == Some(1)
        && deque.pop_front().is_none()
        && deque.pop_back().is_none()
}

/// Whether each read finds what it should in the items 0, 5 and 1.
fn reads(deque: &ArrayDeque<i64, 4, Saturating>) -> bool {
    deque.front() == Some(&0)
        && deque.back() == Some(&1)
        && deque.get(1) == Some(&5)
        && deque.get(3).is_none()
        && deque.contains(&5)
        && !deque.contains(&6)
        && deque.len() == 3
        && deque[1] == 5
        && holds(deque, &[0, 5, 1])
}

/// Whether four items are written over where they stand.
fn writes(deque: &mut ArrayDeque<i64, 4, Saturating>) -> bool {
    if let Some(first) = deque.front_mut() {
        *first = 7;
    }
    if let Some(last) = deque.back_mut() {
        *last = 8;
    }
    if let Some(second) = deque.get_mut(1) {
        *second = 9;
    }
    if deque.len() == 4 {
        deque[2] = 6;
    }
    holds(deque, &[7, 9, 6, 8])
}

/// Whether an item goes between 7, 6 and 8, and all four go out, by exchanges too.
fn moves_and_swaps(deque: &mut ArrayDeque<i64, 4, Saturating>) -> bool {
    let is_inserted = deque.len() == 3 && deque.insert(1, 9).is_ok();
    if deque.len() == 4 {
        deque.swap(0, 3);
    }
    is_inserted
        && holds(deque, &[8, 9, 6, 7])
        && deque.remove(1) == Some(9)
        && deque.swap_remove_back(0) == Some(8)
        && deque.swap_remove_front(1) == Some(6)
        && deque.pop_front() == Some(7)
}

/// Whether an item goes in and out at each index of six, whose list starts at each of eight places,
/// so that slides also cross the region's end.
fn slides_from_each_start(deque: &mut ArrayDeque<i64, 8, Saturating>) -> bool {
    for _ in 0..8 {
        for index in 0..7 {
            if deque.len() != 6
                || deque.insert(index, 9).is_err()
                || deque.remove(index) != Some(9)
            {
                return false;
            }
        }
        deque.pop_front();
        deque.extend_back([7]);
    }
    true
}

#[test]
fn slides_across_the_end_1_request_64_bytes(rt: HostRuntime) -> Result<(), Fail> {
    let mut deque = deque_at::<8>(rt.alloc(), 0, &[1, 2, 3, 4, 5, 6])?;
    assert!(rt; slides_from_each_start(&mut deque));
    Ok(())
}

/// Whether the items 0, 1 and 3 change ends, in a full deque too, are found, and are lent in one
/// slice and by a range.
fn rotates_and_searches(deque: &mut Deque) -> bool {
    for count in 0..4 {
        if count > deque.len() {
            return false;
        }
        deque.rotate_left(count);
        if count > deque.len() {
            return false;
        }
        deque.rotate_right(count);
    }
    let is_found = deque.binary_search(&1) == Ok(1)
        && deque.binary_search_by(|item| item.cmp(&2)) == Err(2)
        && deque.binary_search_by_key(&3, |item| *item) == Ok(2)
        && deque.partition_point(|item| *item < 1) == 1
        && deque.range(..).next_back() == Some(&3);
    let is_full = deque.push_back(4).is_ok() && deque.len() == 4;
    if deque.len() == 4 {
        deque.rotate_left(3);
    }
    deque.linearize();
    is_found && is_full && deque.as_slice() == [4, 0, 1, 3].as_slice()
}

/// Whether the even ones of the items 8, 9, 6 and 7 are retained, then halved but for one that
/// goes, and then cleared.
fn retains_and_clears(deque: &mut ArrayDeque<i64, 4, Saturating>) -> bool {
    deque.retain(|item| *item % 2 == 0);
    let is_retained = holds(deque, &[8, 6]);
    deque.retain_mut(|item| {
        *item /= 2;
        *item > 3
    });
    let is_halved = holds(deque, &[4]);
    deque.clear();
    is_retained && is_halved && deque.is_empty()
}

/// Whether two of the items 6, 7, 8 and 9 stay after an item goes at either end, two copies are put
/// behind them, and the two in the middle go as a range.
fn truncates_and_resizes(deque: &mut ArrayDeque<i64, 4, Saturating>) -> bool {
    deque.truncate(3);
    deque.truncate_front(2);
    let is_cut = holds(deque, &[7, 8]);
    deque.resize(4, 5);
    let is_filled = holds(deque, &[7, 8, 5, 5]);
    deque.remove_range(1..3);
    is_cut && is_filled && holds(deque, &[7, 5])
}

/// Whether the items 1 to 4, which wrap, are written by closures that are called on each or on a
/// part, by the iterator of a range, and in either slice.
fn writes_to_each(deque: &mut Deque) -> bool {
    deque
        .iter_mut()
        .for_each(|item| *item = item.wrapping_mul(2));
    deque.for_each_mut(|item| *item = item.wrapping_add(1));
    if deque.len() == 4 {
        deque.for_each_mut_in(1..3, |item| *item = item.wrapping_add(1));
    }
    for item in deque.range_mut(..) {
        *item = item.wrapping_add(1);
    }
    let is_called = holds(deque, &[4, 7, 9, 10]);
    deque.first_slice_mut().reverse();
    deque.second_slice_mut().reverse();
    is_called && holds(deque, &[7, 4, 10, 9])
}

/// Whether two items stay where nothing is handed out, and whether a vector of none is empty.
fn hands_out_nothing(alloc: Global, mut deque: Deque) -> Result<bool, Fail> {
    let is_left_alone = deque.len() == 2
        && deque.drain(1..1)?.next().is_none()
        && made(deque.run(Vec::new(alloc)))?.is_empty();
    deque.clear();
    Ok(made(deque.into_vec())?.is_empty() && is_left_alone)
}

#[test]
fn both_ends_1_request_32_bytes(rt: HostRuntime) -> Result<(), Fail> {
    let mut deque = ArrayDeque::<i64, 4, Wrapping>::new(rt.alloc())?;
    let is_displaced = displaces(&mut deque);
    deque.clear();
    let mut deque: ArrayDeque<i64, 4, Saturating> = deque.into();
    let is_popped = pushes_and_pops(&mut deque);
    deque.extend_back([2, 3]);
    deque.extend_front([4]);
    deque.extend([5, 6])?;
    let is_kept = holds(&deque, &[4, 2, 3, 5]);
    let mut deque: ArrayDeque<i64, 4, Wrapping> = deque.into();
    deque.extend_back([6]);
    deque.extend_front([7]);
    deque.extend([8])?;
    let deque: ArrayDeque<i64, 4, Saturating> = deque.into();
    assert!(rt; is_displaced && is_popped && is_kept && holds(&deque, &[2, 3, 5, 8]));
    Ok(())
}

#[test]
fn calls_in_place_1_request_32_bytes(rt: HostRuntime) -> Result<(), Fail> {
    let mut deque = deque_at::<4>(rt.alloc(), 2, &[0, 5, 1])?;
    let is_written = reads(&deque) && deque.push_back(2).is_ok() && writes(&mut deque);
    refill(&mut deque, &[7, 6, 8]);
    let is_moved = moves_and_swaps(&mut deque);
    refill(&mut deque, &[0, 1, 3]);
    let is_rotated = rotates_and_searches(&mut deque);
    refill(&mut deque, &[8, 9, 6, 7]);
    let is_retained = retains_and_clears(&mut deque);
    refill(&mut deque, &[6, 7, 8, 9]);
    let is_resized = truncates_and_resizes(&mut deque);
    refill(&mut deque, &[1, 2, 3, 4]);
    let is_written_to = writes_to_each(&mut deque);
    refill(&mut deque, &[1, 2]);
    let are_edited = is_written
        && is_moved
        && is_rotated
        && is_retained
        && is_resized
        && is_written_to;
    assert!(rt; hands_out_nothing(rt.alloc(), deque)? && are_edited);
    Ok(())
}

/// Whether bytes go in and out by each call of a stream, over a wrap, and by pops that ask.
fn streams(deque: &mut ArrayDeque<u8, 4, Saturating>) -> Result<bool, Fail> {
    let mut buf = [0; 3];
    let is_read = deque.write(&[1, 2, 3])? == 3 && deque.read(&mut buf)? == 3 && buf == [1, 2, 3];
    deque.extend(&[4, 5])?;
    let is_lent = deque.fill_buf()? == [4].as_slice();
    deque.consume(1);
    let is_written = deque.write_all(&[6, 7]).is_ok() && deque.write_all(&[8, 9]).is_err();
    Ok(
        is_read
            && is_lent
            && is_written
            && deque.pop_front_if(|byte| *byte == 5) == Some(5)
            && deque.pop_back_if(|byte| *byte == 5).is_none()
            && deque.read_exact(&mut buf).is_ok()
            && buf == [6, 7, 8],
    )
}

#[test]
fn bytes_as_a_stream_1_request_4_bytes(rt: HostRuntime) -> Result<(), Fail> {
    let mut deque = ArrayDeque::<u8, 4, Saturating>::new(rt.alloc())?;
    assert!(rt; streams(&mut deque)? && deque.is_empty());
    let mut none = ArrayDeque::<u8, 0, Saturating>::new(rt.alloc())?;
    assert!(rt; none.write(&[1])? == 0 && none.fill_buf()?.is_empty() && none.read(&mut [2])? == 0);
    Ok(())
}

/// Whether a list comes into one piece, and stays in it.
fn comes_into_one_piece(mut deque: Deque) -> bool {
    deque.linearize();
    let is_one_piece = is_cut(&deque, &[1, 2, 3, 4], &[]);
    deque.linearize();
    is_cut(&deque, &[1, 2, 3, 4], &[]) && is_one_piece
}

/// Whether a lent iterator, its copy, a loop, a `for_each` and a `fold` give the items 1, 2, 3.
fn lends_three(deque: &Deque) -> Result<bool, AllocError> {
    let mut iter = deque.iter();
    let mut copy = iter.clone()?;
    let mut sum = 0_i64;
    for item in deque {
        sum = sum.wrapping_add(*item);
    }
    deque.iter().for_each(|item| sum = sum.wrapping_add(*item));
    sum = deque.iter().fold(sum, |sum, item| sum.wrapping_add(*item));
    Ok(
        (iter.len(), iter.size_hint()) == (3, (3, Some(3)))
            && (iter.next(), iter.next_back()) == (Some(&1), Some(&3))
            && (copy.next_back(), copy.len()) == (Some(&3), 2)
            && sum == 18,
    )
}

/// Whether an owned iterator gives the items 1 and 3, with 2 between them.
fn gives_three(deque: Deque) -> bool {
    let mut iter = deque.into_iter();
    (iter.len(), iter.size_hint()) == (3, (3, Some(3)))
        && (iter.next(), iter.next_back()) == (Some(1), Some(3))
}

/// Whether an owned iterator gives all of the items 1 to 4, and then nothing.
fn gives_all(deque: Deque) -> bool {
    let mut items = deque.into_iter();
    (items.next(), items.next()) == (Some(1), Some(2))
        && (items.next(), items.next()) == (Some(3), Some(4))
        && (items.next(), items.next_back(), items.len()) == (None, None, 0)
}

/// The same from the back.
fn gives_all_from_the_back(deque: Deque) -> bool {
    let mut items = deque.into_iter();
    (items.next_back(), items.next_back()) == (Some(4), Some(3))
        && (items.next_back(), items.next_back()) == (Some(2), Some(1))
        && (items.next_back(), items.next(), items.len()) == (None, None, 0)
}

/// Whether an iterator lends the items 1 to 4 for writing, from the front, the back and the front
/// twice, and then nothing. The first three that it lends become 5, 6 and 7.
fn writes_three(mut items: IterMut<'_, i64>) -> bool {
    let hint = (items.len(), items.size_hint());
    if let Some(item) = items.next() {
        *item = 5;
    }
    if let Some(item) = items.next_back() {
        *item = 6;
    }
    if let Some(item) = items.next() {
        *item = 7;
    }
    hint == (4, (4, Some(4)))
        && (items.len(), items.next().copied()) == (1, Some(3))
        && items.next().is_none()
        && items.next_back().is_none()
}

/// Whether a list that wraps is lent for writing by an iterator, by a loop and in two slices.
fn writes_in_every_way(mut deque: Deque) -> bool {
    let by_iterator = writes_three(deque.iter_mut()) && holds(&deque, &[5, 7, 3, 6]);
    for item in &mut deque {
        *item = item.wrapping_add(1);
    }
    let by_loop = holds(&deque, &[6, 8, 4, 7]);
    let (front, back) = deque.as_mut_slices();
    if let (Some(first), Some(third)) = (front.first_mut(), back.first_mut()) {
        *first = 0;
        *third = 9;
    }
    let in_two_slices = is_cut(&deque, &[0, 8], &[9, 7]);
    deque.linearize();
    deque.as_mut_slice().reverse();
    by_iterator && by_loop && in_two_slices && is_cut(&deque, &[7, 9, 8, 0], &[])
}

/// The regions of three deques, whose lists wrap.
#[test]
fn walks_of_lists_that_wrap_3_requests_96_bytes(rt: HostRuntime) -> Result<(), Fail> {
    assert!(rt;
        gives_all(deque_at::<4>(rt.alloc(), 2, &[1, 2, 3, 4])?)
            && gives_all_from_the_back(deque_at::<4>(rt.alloc(), 2, &[1, 2, 3, 4])?)
            && writes_in_every_way(deque_at::<4>(rt.alloc(), 2, &[1, 2, 3, 4])?)
    );
    Ok(())
}

/// Whether 3 and 4 go behind 1 and 2, where there is room, and 5 and 6 in the place of 1 and 2.
fn appends(mut deque: Deque, mut two: Deque, mut last: ArrayDeque<i64, 2, Wrapping>) -> bool {
    deque.append(&mut two);
    let is_full = holds(&deque, &[1, 2, 3, 4]) && two.is_empty();
    deque.append(&mut last);
    let is_left = holds(&deque, &[1, 2, 3, 4]) && holds(&last, &[5, 6]);
    let mut deque: ArrayDeque<i64, 4, Wrapping> = deque.into();
    deque.append(&mut last);
    is_full && is_left && holds(&deque, &[3, 4, 5, 6]) && last.is_empty()
}

/// The regions of three deques, whose lists wrap.
#[test]
fn appends_of_lists_that_wrap_3_requests_80_bytes(rt: HostRuntime) -> Result<(), Fail> {
    assert!(rt;
        appends(
            deque_at::<4>(rt.alloc(), 3, &[1, 2])?,
            deque_at::<4>(rt.alloc(), 3, &[3, 4])?,
            wrapping_at::<2>(rt.alloc(), 1, &[5, 6])?,
        )
    );
    Ok(())
}

/// The hash of a deque.
fn hash_of<const CAP: usize>(deque: &ArrayDeque<i64, CAP, Saturating>) -> u64 {
    let mut state = DefaultHasher::new();
    deque.hash(&mut state);
    state.finish()
}

/// Whether the first is less than the second, and differs in its hash.
fn are_in_order(less: &Deque, more: &Deque) -> bool {
    *less != *more
        && less.cmp(more) == Ordering::Less
        && more.partial_cmp(less) == Some(Ordering::Greater)
        && hash_of(less) != hash_of(more)
}

type Hundred = ArrayDeque<i64, 128, Saturating>;

/// Has a deque hold the numbers from 0 up to 100, the first of which stands at a place.
fn count_from(deque: &mut Hundred, start: usize) {
    deque.clear();
    for _ in 0..start {
        deque.extend_back([0]);
        deque.pop_front();
    }
    deque.extend_back(0..100);
}

/// Whether 100 numbers are found, and compared with those of another deque.
fn reads_a_hundred(deque: &Hundred, other: &Hundred) -> bool {
    deque.contains(&0)
        && deque.contains(&99)
        && !deque.contains(&100)
        && *deque == *other
        && deque.cmp(other) == Ordering::Equal
        && deque.partial_cmp(other) == Some(Ordering::Equal)
        && hash_of(deque) == hash_of(other)
}

/// The regions of two deques, of which one has its 100 items at several starts.
#[test]
fn reads_of_a_hundred_items_2_requests_2048_bytes(rt: HostRuntime) -> Result<(), Fail> {
    let mut deque = deque_at::<128>(rt.alloc(), 0, &[])?;
    let mut other = deque_at::<128>(rt.alloc(), 0, &[])?;
    for start in [0, 28, 29, 63, 64, 65, 127] {
        count_from(&mut deque, start);
        count_from(&mut other, 0);
        assert!(rt; reads_a_hundred(&deque, &other), "start {start}");
    }
    Ok(())
}

/// Whether a range names these bounds.
fn names<R: RangeArgument<usize>>(range: &R, start: Option<usize>, end: Option<usize>) -> bool {
    (range.start(), range.end()) == (start, end)
}

/// Whether each kind of range has its bounds.
fn have_bounds() -> bool {
    names(&(..), None, None)
        && names(&(2..), Some(2), None)
        && names(&(..5), None, Some(5))
        && names(&(2..5), Some(2), Some(5))
}

/// Whether two deques are compared, and the items of the first are lent and given.
fn are_read(less: Deque, more: &Deque) -> Result<bool, Fail> {
    let is_lent = are_in_order(&less, more) && lends_three(&less)?;
    Ok(gives_three(less) && is_lent)
}

/// The regions of three deques.
#[test]
fn calls_that_ask_for_nothing_3_requests_96_bytes(rt: HostRuntime) -> Result<(), Fail> {
    let less = deque_at::<4>(rt.alloc(), 2, &[1, 2, 3])?;
    let more = deque_at::<4>(rt.alloc(), 1, &[1, 2, 4])?;
    assert!(rt; are_read(less, &more)?);
    assert!(rt;
        have_bounds()
            && ArrayDeque::<i64, 0, Wrapping>::new(rt.alloc())?
                .clone()?
                .len()
                == 0
            && comes_into_one_piece(deque_at::<4>(rt.alloc(), 2, &[1, 2, 3, 4])?)
    );
    Ok(())
}

/// Whether a scanner has the items 4 and 5 ahead, and drops them both.
fn reads_ahead(scanner: &mut Scanner<Script<'_>, 2>) -> bool {
    let there = scanner.read_ahead(2);
    scanner.ahead(there).eq([4, 5].iter()) && scanner.advance(3) == 2
}

/// Whether a scanner gives the input, and the one item that it has room for before the rest. Then
/// it reads on to the end, and drops what is left.
fn scans(alloc: Global) -> Result<bool, Fail> {
    let input = [Some(1), Some(2), Some(3), Some(4), Some(5)];
    let mut scanner = made(Scanner::<_, 2>::new(alloc, Script::of(&input)))?;
    Ok(
        scanner.peek(1) == Some(&2)
            && scanner.next() == Some(1)
            && scanner.unread(9).is_ok()
            && scanner.unread(8).is_err()
            && (scanner.next(), Iterator::next(&mut scanner)) == (Some(9), Some(2))
            && scanner.next_if(|item| *item > 3) == None
            && scanner.next_if(|item| *item == 3) == Some(3)
            && reads_ahead(&mut scanner),
    )
}

/// Whether a scanner with no room gives the input, and takes nothing back.
fn scans_without_room(alloc: Global) -> Result<bool, Fail> {
    let mut scanner = made(Scanner::<_, 0>::new(alloc, Script::of(&[Some(1)])))?;
    Ok((scanner.next(), scanner.next()) == (Some(1), None) && scanner.unread(9).is_err())
}

/// The region of the first one's buffer.
#[test]
fn scanners_of_capacity_two_and_zero_1_request_16_bytes(rt: HostRuntime) -> Result<(), Fail> {
    assert!(rt; scans(rt.alloc())? && scans_without_room(rt.alloc())?);
    Ok(())
}
