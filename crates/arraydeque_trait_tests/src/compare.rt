//! Equality, order, hashes and texts.
ghost use Rattle.std.specs.Cmp.{on_per, on_po};
ghost use Rattle.arraydeque_trait_tests.specs.Marks.{marks_eq, marks_partial_cmp, marks_per, marks_po};

use arraydeque::{ArrayDeque, CapacityError, MakeError, Saturating};
use arraydeque_samples::build::{deque_at, numbers, wrapping_at};
use std::alloc::Global;
use std::cell::RefCell;
use std::cmp::Ordering;
use std::collections::{BTreeSet, HashSet};
use std::error::Error;
use std::fmt::Debug;
use std::hash::{Hash, Hasher};
use std::test::Fail;

/// A mark, known or not. One that isn't known is equal to nothing, and in no order with anything.
#[derive(Clone, Copy)]
struct Mark(Option<i64>);

impl PartialEq for Mark {
    ghost eq = { λ x y. marks_eq x.0 y.0 };

    ghost laws = { on_per (λ x. x.0) marks_per };

    fn eq(&self, other: &Self) -> bool {
        match (self.0, other.0) {
            (Some(m), Some(n)) => m == n,
            _ => false,
        }
    }
}

impl PartialOrd for Mark {
    ghost partial_cmp = { λ x y. marks_partial_cmp x.0 y.0 };

    ghost laws = { on_po (λ x. x.0) marks_po };

    fn partial_cmp(&self, other: &Self) -> Option<Ordering> {
        match (self.0, other.0) {
            (Some(m), Some(n)) => m.partial_cmp(&n),
            _ => None,
        }
    }
}

/// A hasher that keeps the bytes of each write. No contract sees what a cell holds, so to contracts
/// it never changes.
#[derive(Drop)]
struct Keeper<'a> {
    alloc: Global,
    writes: &'a RefCell<Vec<Vec<u8>>>,
}

impl Hasher for Keeper<'_> {
    ghost write = { λ keeper _. keeper };

    ghost finish = { λ _. 0 };

    fn finish(&self) -> u64 {
        0
    }

    fn write(&mut self, bytes: &[u8]) {
        if let (Ok(bytes), Ok(mut writes)) = (
            Vec::from_slice(self.alloc, bytes),
            self.writes.try_borrow_mut(),
        ) {
            let _ = writes.push(bytes);
        }
    }
}

/// What a value feeds a hasher, write by write.
fn writes_of<T: Hash>(alloc: Global, value: &T) -> Vec<Vec<u8>> {
    let writes = RefCell::new(Vec::new(alloc));
    value.hash(&mut Keeper {
        alloc,
        writes: &writes,
    });
    writes.into_inner()
}

/// A deque of `items`, of which there is at least one, the first at the place `start`.
fn turned<T: Copy + Drop, const CAP: usize>(
    alloc: Global,
    start: usize,
    items: &[T],
) -> Result<ArrayDeque<T, CAP, Saturating>, Fail> {
    let mut deque = ArrayDeque::<T, CAP, Saturating>::new(alloc)?;
    for _ in 0..start {
        deque.extend_back(items.first().copied());
        deque.pop_front();
    }
    deque.extend_back(items.iter().copied());
    Ok(deque)
}

type Deque<const CAP: usize> = ArrayDeque<i64, CAP, Saturating>;

/// Whether the two are equal in every way.
fn are_alike<const CAP: usize>(alloc: Global, left: &Deque<CAP>, right: &Deque<CAP>) -> bool {
    *left == *right
        && left.cmp(right) == Ordering::Equal
        && left.partial_cmp(right) == Some(Ordering::Equal)
        && writes_of(alloc, left) == writes_of(alloc, right)
}

/// Whether the first is less than the second in every way.
fn are_in_order<const CAP: usize>(less: &Deque<CAP>, more: &Deque<CAP>) -> bool {
    *less != *more
        && *more != *less
        && (less.cmp(more), more.cmp(less)) == (Ordering::Less, Ordering::Greater)
        && (less.partial_cmp(more), more.partial_cmp(less))
            == (Some(Ordering::Less), Some(Ordering::Greater))
}

/// Whether a list that came by two ways is alike.
fn is_alike_by_two_ways(alloc: Global) -> Result<bool, Fail> {
    let left = deque_at::<3>(alloc, 0, &[1, 2, 3])?;
    let mut right = deque_at::<3>(alloc, 0, &[2, 3])?;
    Ok(right.push_front(1).is_ok() && are_alike(alloc, &left, &right))
}

/// Whether a list comes before one that goes on, though with a lesser item.
fn is_before_a_longer(alloc: Global) -> Result<bool, Fail> {
    let short = deque_at::<3>(alloc, 0, &[1, 2])?;
    Ok(are_in_order(&short, &deque_at::<3>(alloc, 0, &[1, 2, 0])?))
}

#[test]
fn no_start_and_no_way_has_a_say(rt: HostRuntime) -> Result<(), Fail> {
    assert!(rt; is_alike_by_two_ways(rt.alloc())? && is_before_a_longer(rt.alloc())?);
    Ok(())
}

/// Whether a list from any start is equal to that from the first place, and to no other part of
/// it.
fn is_equal_from(alloc: Global, start: usize, list: &[i64]) -> Result<bool, Fail> {
    let mut deque = deque_at::<10>(alloc, start, list)?;
    let mut expected = deque_at::<10>(alloc, 0, list)?;
    let is_equal = deque == expected;
    if list.len() > 2 {
        deque.pop_front();
        expected.pop_back();
        return Ok(deque != expected && is_equal);
    }
    Ok(is_equal)
}

#[test]
fn equal_from_every_start(rt: HostRuntime) -> Result<(), Fail> {
    for len in 0..=10 {
        let list = numbers(rt.alloc(), len)?;
        for start in 0..10 {
            assert!(rt;
                is_equal_from(rt.alloc(), start, &list)?,
                "start {start}, length {len}"
            );
        }
    }
    Ok(())
}

/// What two lists of marks are beside each other, if they aren't equal.
fn order_of(
    alloc: Global,
    starts: (usize, usize),
    left: &[Mark],
    right: &[Mark],
) -> Result<Option<Ordering>, Fail> {
    let left = turned::<_, 3>(alloc, starts.0, left)?;
    let right = turned::<_, 3>(alloc, starts.1, right)?;
    if left != right {
        return Ok(left.partial_cmp(&right));
    }
    Ok(Some(Ordering::Equal))
}

#[test]
fn the_first_pair_that_is_not_equal_decides(rt: HostRuntime) -> Result<(), Fail> {
    let [one, two, three] = [Mark(Some(1)), Mark(Some(2)), Mark(Some(3))];
    let unknown = Mark(None);
    for start in 0..3 {
        for other_start in 0..3 {
            let starts = (start, other_start);
            let unordered = order_of(
                rt.alloc(),
                starts,
                &[one, unknown, two],
                &[one, unknown, three],
            )?;
            let less = order_of(rt.alloc(), starts, &[one, unknown], &[two, unknown])?;
            assert!(rt;
                (unordered, less) == (None, Some(Ordering::Less)),
                "{starts:?}"
            );
        }
    }
    Ok(())
}

/// Whether a hasher is fed the length 3 and the items 1, 2, 3, each by a write of its own.
fn feeds_three(alloc: Global, start: usize) -> Result<bool, Fail> {
    let deque = turned::<u8, 3>(alloc, start, &[1, 2, 3])?;
    let writes = writes_of(alloc, &deque);
    let expected: [&[u8]; 4] = [&[3, 0, 0, 0, 0, 0, 0, 0], &[1], &[2], &[3]];
    Ok(
        writes.len() == 4
            && (writes[0].as_slice(), writes[1].as_slice()) == (expected[0], expected[1])
            && (writes[2].as_slice(), writes[3].as_slice()) == (expected[2], expected[3]),
    )
}

#[test]
fn a_hasher_is_fed_the_length_and_each_item(rt: HostRuntime) -> Result<(), Fail> {
    for start in 0..3 {
        assert!(rt; feeds_three(rt.alloc(), start)?, "start {start}");
    }
    Ok(())
}

/// Whether a value's `{:?}` is that text.
fn prints<T: Debug>(alloc: Global, value: &T, text: &str) -> Result<bool, Fail> {
    Ok(format!(in alloc; "{value:?}")?.as_str() == text)
}

/// Whether a set takes a list once, whatever its start.
fn is_kept_once(alloc: Global) -> Result<bool, Fail> {
    let mut set = HashSet::new(alloc);
    for start in 0..3 {
        if set.insert(deque_at::<3>(alloc, start, &[1, 2, 3])?)? != (start == 0) {
            return Ok(false);
        }
    }
    Ok(set.insert(deque_at::<3>(alloc, 0, &[1, 2])?)? && set.len() == 2)
}

/// Lists in no order.
const LISTS: [&[i64]; 4] = [&[2], &[1, 2], &[], &[1]];

/// Whether a set has its lists in order, whatever their starts.
fn keeps_in_order(alloc: Global) -> Result<bool, Fail> {
    let mut ordered = BTreeSet::new(alloc);
    for (list, start) in LISTS.iter().zip(0..4) {
        ordered.insert(deque_at::<4>(alloc, start, list)?)?;
    }
    prints(alloc, &ordered, "{[], [1], [1, 2], [2]}")
}

/// Whether a sort brings them in order.
fn sorts(alloc: Global) -> Result<bool, Fail> {
    let mut sorted = Vec::new(alloc);
    for (list, start) in LISTS.iter().zip(0..4) {
        sorted.push(deque_at::<4>(alloc, start, list)?)?;
    }
    sorted.sort()?;
    prints(alloc, &sorted, "[[], [1], [1, 2], [2]]")
}

#[test]
fn sets_and_sorts_of_deques(rt: HostRuntime) -> Result<(), Fail> {
    assert!(rt;
        is_kept_once(rt.alloc())?
            && keeps_in_order(rt.alloc())?
            && sorts(rt.alloc())?
            && Some(ArrayDeque::<Box<()>, 100, Saturating>::new(rt.alloc())?).is_some()
    );
    Ok(())
}

/// Whether a deque of two items prints as a list in a line, and in lines of their own.
fn prints_two(alloc: Global, start: usize) -> Result<bool, Fail> {
    let deque = wrapping_at::<5>(alloc, start, &[0, 1])?;
    Ok(
        prints(alloc, &deque, "[0, 1]")?
            && format!(in alloc; "{deque:#?}")?.as_str() == "[\n    0,\n    1,\n]",
    )
}

/// The numbers from 0 up to 40, as a list prints.
const FORTY: &str = "[0, 1, 2, 3, 4, 5, 6, 7, 8, 9, 10, 11, 12, 13, 14, 15, 16, 17, 18, 19, \
    20, 21, 22, 23, 24, 25, 26, 27, 28, 29, 30, 31, 32, 33, 34, 35, 36, 37, 38, 39]";

/// Whether a deque of forty items prints them all, with those that its first slice has before the
/// region's end.
fn prints_forty(alloc: Global, first: usize) -> Result<bool, Fail> {
    let deque = deque_at::<41>(alloc, 41_usize.saturating_sub(first), &numbers(alloc, 40)?)?;
    Ok(deque.as_slices().0.len() == first.min(40) && prints(alloc, &deque, FORTY)?)
}

#[test]
fn a_long_deque_prints_as_a_list(rt: HostRuntime) -> Result<(), Fail> {
    for first in 1..=41 {
        assert!(rt; prints_forty(rt.alloc(), first)?, "{first}");
    }
    Ok(())
}

/// Whether a full deque whose first item stands at the place `start` prints as a vector of the
/// items does.
fn prints_as_a_vector<const CAP: usize>(alloc: Global, start: usize) -> Result<bool, Fail> {
    let list = numbers(alloc, CAP)?;
    let text = format!(in alloc; "{list:?}")?;
    prints(alloc, &deque_at::<CAP>(alloc, start, &list)?, text.as_str())
}

#[test]
fn thousands_of_items_print_as_a_vector(rt: HostRuntime) -> Result<(), Fail> {
    assert!(rt;
        prints_as_a_vector::<1000>(rt.alloc(), 600)?
            && prints_as_a_vector::<10000>(rt.alloc(), 5000)?
    );
    Ok(())
}

#[test]
fn a_deque_prints_as_a_list(rt: HostRuntime) -> Result<(), Fail> {
    let mut deque = Deque::<5>::new(rt.alloc())?;
    let is_empty = prints(rt.alloc(), &deque, "[]")?;
    deque.extend_back(0..4);
    assert!(rt; prints(rt.alloc(), &deque, "[0, 1, 2, 3]")? && is_empty);
    for start in 0..5 {
        assert!(rt; prints_two(rt.alloc(), start)?, "start {start}");
    }
    Ok(())
}

#[test]
fn debug_texts(rt: HostRuntime) -> Result<(), Fail> {
    let alloc = rt.alloc();
    assert!(rt;
        prints(alloc, &deque_at::<0>(alloc, 0, &[])?, "[]")?
            && prints(alloc, &wrapping_at::<0>(alloc, 0, &[])?, "[]")?
            && prints(alloc, &deque_at::<1>(alloc, 0, &[])?, "[]")?
            && prints(alloc, &wrapping_at::<1>(alloc, 0, &[])?, "[]")?
            && prints(alloc, &deque_at::<1>(alloc, 0, &[6])?, "[6]")?
            && prints(alloc, &wrapping_at::<1>(alloc, 0, &[6])?, "[6]")?
    );
    Ok(())
}

/// Whether an error's `{}` and `{:?}` are these texts.
fn says<T: Error>(alloc: Global, error: &T, text: &str, debug: &str) -> Result<bool, Fail> {
    Ok(format!(in alloc; "{error}")?.as_str() == text && prints(alloc, error, debug)?)
}

/// What prints in no way.
#[derive(Drop)]
struct Silent;

#[test]
fn the_errors_say_what_is_wrong(rt: HostRuntime) -> Result<(), Fail> {
    let full = CapacityError { element: Silent };
    let refused = MakeError { source: Silent };
    let text = "insufficient capacity";
    let debug = "CapacityError: insufficient capacity";
    assert!(rt;
        says(rt.alloc(), &full, text, debug)?
            && says(rt.alloc(), &refused, "out of memory", "out of memory")?
    );
    let full = CapacityError { element: 1 };
    let again = full;
    assert!(rt;
        again == full.clone()?
            && full < CapacityError { element: 2 }
            && full.cmp(&again) == Ordering::Equal
    );
    Ok(())
}
