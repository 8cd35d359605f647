//! Inserting and removing at an index.
use crate::build::{deque_at, holds, numbers};
use arraydeque::{ArrayDeque, CapacityError, Saturating};
use std::alloc::Global;
use std::process::Abort;
use std::test::Fail;

#[derive(Clone, Copy)]
enum Edit {
    Insert(usize, i64),
    Remove(usize),
}

/// Makes edits in turn. Beside each stands its answer, the element that an insert hands back or the
/// item that a removal gives, and the list that it leaves, whose last item is the back.
fn edit_in_turn<const CAP: usize>(
    rt: &impl Abort,
    mut deque: ArrayDeque<i64, CAP, Saturating>,
    edits: &[(Edit, Option<i64>, &[i64])],
) {
    for &(edit, answer, left) in edits {
        let is_answered = match edit {
            Edit::Insert(index, item) => {
                index <= deque.len() && refusal_of(deque.insert(index, item)) == answer
            }
            Edit::Remove(index) => deque.remove(index) == answer,
        };
        assert!(rt;
            is_answered && holds(&deque, left) && deque.back() == left.last(),
            "{answer:?}, {left:?}"
        );
    }
}

/// The element that an insert hands back, if it does.
fn refusal_of(inserted: Result<(), CapacityError<i64>>) -> Option<i64> {
    match inserted {
        Ok(()) => None,
        Err(refusal) => Some(refusal.element),
    }
}

#[test]
fn the_documented_inserts_and_removes(rt: HostRuntime) -> Result<(), Fail> {
    let inserts: [(Edit, Option<i64>, &[i64]); 4] = [
        (Edit::Insert(0, 3), None, &[3]),
        (Edit::Insert(0, 1), None, &[1, 3]),
        (Edit::Insert(1, 2), None, &[1, 2, 3]),
        (Edit::Insert(1, 4), Some(4), &[1, 2, 3]),
    ];
    edit_in_turn::<3>(&rt, deque_at(rt.alloc(), 0, &[])?, &inserts);
    let inserts: [(Edit, Option<i64>, &[i64]); 3] = [
        (Edit::Insert(0, 1), None, &[1]),
        (Edit::Insert(1, 2), None, &[1, 2]),
        (Edit::Insert(2, 3), Some(3), &[1, 2]),
    ];
    edit_in_turn::<2>(&rt, deque_at(rt.alloc(), 0, &[])?, &inserts);
    let removals: [(Edit, Option<i64>, &[i64]); 2] = [
        (Edit::Remove(1), Some(1), &[0, 2]),
        (Edit::Remove(2), None, &[0, 2]),
    ];
    edit_in_turn::<3>(&rt, deque_at(rt.alloc(), 0, &[0, 1, 2])?, &removals);
    Ok(())
}

#[test]
fn edits_of_some_items(rt: HostRuntime) -> Result<(), Fail> {
    let mut deque = deque_at::<5>(rt.alloc(), 0, &[1, 2, 3])?;
    assert!(rt; deque.push_front(0).is_ok());
    let edits: [(Edit, Option<i64>, &[i64]); 4] = [
        (Edit::Insert(1, 8), None, &[0, 8, 1, 2, 3]),
        (Edit::Remove(3), Some(2), &[0, 8, 1, 3]),
        (Edit::Remove(0), Some(0), &[8, 1, 3]),
        (Edit::Remove(3), None, &[8, 1, 3]),
    ];
    edit_in_turn(&rt, deque, &edits);
    let deque = deque_at::<2>(rt.alloc(), 0, &[1, 2])?;
    edit_in_turn(&rt, deque, &[(Edit::Remove(1), Some(2), &[1])]);
    let inserts: [(usize, &[i64]); 3] = [
        (2, &[0, 1, 9, 2, 3, 4, 5]),
        (3, &[0, 1, 2, 9, 3, 4, 5]),
        (4, &[0, 1, 2, 3, 9, 4, 5]),
    ];
    for (index, left) in inserts {
        let deque = deque_at::<8>(rt.alloc(), 0, &[0, 1, 2, 3, 4, 5])?;
        edit_in_turn(&rt, deque, &[(Edit::Insert(index, 9), None, left)]);
    }
    Ok(())
}

/// Whether an insert does what it does to a plain list.
pub(crate) fn inserts_alike<const CAP: usize>(
    alloc: Global,
    start: usize,
    len: usize,
    index: usize,
) -> Result<bool, Fail> {
    let mut list = numbers(alloc, len)?;
    let mut deque = deque_at::<CAP>(alloc, start, &list)?;
    if index > list.len() {
        return Ok(false);
    }
    let inserted = deque.insert(index, 99);
    let mut expected = Err(CapacityError { element: 99 });
    if list.len() < CAP {
        list.insert(index, 99)?;
        expected = Ok(());
    }
    Ok(inserted == expected && holds(&deque, &list))
}

/// Whether a removal, also past the last item, does what it does to a plain list.
pub(crate) fn removes_alike<const CAP: usize>(
    alloc: Global,
    start: usize,
    len: usize,
    index: usize,
) -> Result<bool, Fail> {
    let mut list = numbers(alloc, len)?;
    let mut deque = deque_at::<CAP>(alloc, start, &list)?;
    let removed = deque.remove(index);
    let expected = if index < list.len() {
        Some(list.remove(index))
    } else {
        None
    };
    Ok(removed == expected && holds(&deque, &list))
}
