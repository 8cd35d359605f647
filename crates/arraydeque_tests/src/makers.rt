//! Deques made of other collections, a vector of a deque, and the other policy.
use crate::asked::Script;
use crate::build::{deque_at, holds, is_cut, made, numbers, wrapping_at};
use arraydeque::behavior::Behavior;
use arraydeque::{ArrayDeque, CapacityError, MakeError, Saturating, Wrapping};
use std::alloc::{AllocError, Global};
use std::io;
use std::process::Abort;
use std::test::Fail;

type Refusing<const CAP: usize> = ArrayDeque<i64, CAP, Saturating>;

type Displacing<const CAP: usize> = ArrayDeque<i64, CAP, Wrapping>;

/// Whether deques of an iterator are those of an array of its first three items and of its last.
fn keeps_of_iterator(
    alloc: Global,
    items: &[i64],
    first_three: [i64; 3],
    last_three: [i64; 3],
) -> Result<bool, Fail> {
    let first = made(Refusing::<3>::from_iter(alloc, items.iter().copied()))?;
    let last = made(Displacing::<3>::from_iter(alloc, items.iter().copied()))?;
    Ok(
        first == made(Refusing::<3>::from_array(alloc, first_three))?
            && last == made(Displacing::<3>::from_array(alloc, last_three))?
            && holds(&first, &first_three)
            && holds(&last, &last_three),
    )
}

/// Whether deques of a vector of these items keep the first two or the last.
fn keeps_of_vector(
    alloc: Global,
    items: &[i64],
    first_two: &[i64],
    last_two: &[i64],
) -> Result<bool, Fail> {
    let list = Vec::from_slice(alloc, items)?;
    let first = made(Refusing::<2>::from_vec(alloc, list))?;
    let list = Vec::from_slice(alloc, items)?;
    let rest = made(Displacing::<2>::from_vec(alloc, list))?;
    Ok(holds(&first, first_two) && holds(&rest, last_two))
}

/// Whether deques of an array keep the first items or the last, those of the largest alignment too.
fn keeps_of_array(alloc: Global) -> Result<bool, Fail> {
    let array = [1, 2, 3, 4];
    let first = made(Refusing::<2>::from_array(alloc, array))?;
    let last = made(Displacing::<2>::from_array(alloc, array))?;
    let aligned = made(ArrayDeque::<u128, 3, Wrapping>::from_array(alloc, [1, 2, 3, 4]))?;
    Ok(holds(&first, &[1, 2]) && holds(&last, &[3, 4]) && holds(&aligned, &[2, 3, 4]))
}

#[test]
fn deques_of_other_collections(rt: HostRuntime) -> Result<(), Fail> {
    assert!(rt;
        keeps_of_iterator(rt.alloc(), &[1, 2, 3], [1, 2, 3], [1, 2, 3])?
            && keeps_of_iterator(rt.alloc(), &[1, 2, 3, 4, 5], [1, 2, 3], [3, 4, 5])?
            && keeps_of_array(rt.alloc())?
            && keeps_of_vector(rt.alloc(), &[], &[], &[])?
            && keeps_of_vector(rt.alloc(), &[1, 2], &[1, 2], &[1, 2])?
            && keeps_of_vector(rt.alloc(), &[1, 2, 3, 4], &[1, 2], &[3, 4])?
    );
    Ok(())
}

/// A source that ends before, at and after the capacity: how often the deques of its first and of
/// its last items ask it, and which they have.
#[test]
fn makers_ask_as_often_as_they_have_to(rt: HostRuntime) -> Result<(), Fail> {
    let answers = [Some(5), Some(6), Some(7), Some(8), Some(9)];
    let rows: [(usize, usize, &[i64], usize, &[i64]); 6] = [
        (0, 1, &[], 1, &[]),
        (1, 2, &[5], 2, &[5]),
        (2, 3, &[5, 6], 3, &[5, 6]),
        (3, 3, &[5, 6, 7], 4, &[5, 6, 7]),
        (4, 3, &[5, 6, 7], 5, &[6, 7, 8]),
        (5, 3, &[5, 6, 7], 6, &[7, 8, 9]),
    ];
    for (count, asked_first, first, asked_last, last) in rows {
        let mut kept = Script::of(answers.get(..count).unwrap_or(&[]));
        let mut displaced = Script::of(answers.get(..count).unwrap_or(&[]));
        let refusing = made(Refusing::<3>::from_iter(rt.alloc(), &mut kept))?;
        let displacing = made(Displacing::<3>::from_iter(rt.alloc(), &mut displaced))?;
        assert!(rt;
            (kept.asked, displaced.asked) == (asked_first, asked_last)
                && holds(&refusing, first)
                && holds(&displacing, last),
            "{count}"
        );
    }
    Ok(())
}

/// Whether a deque was made, and has these items.
fn is_made<S: Drop, const CAP: usize, B: Behavior>(
    deque: Result<ArrayDeque<i64, CAP, B>, MakeError<S>>,
    items: &[i64],
) -> Result<bool, Fail> {
    Ok(holds(&made(deque)?, items))
}

/// Whether the deques of an iterator and of a vector, under either policy, have the first or the
/// last items of it.
fn made_alike<const CAP: usize>(alloc: Global, list: &[i64]) -> Result<bool, Fail> {
    let (first, _) = list.split_at(list.len().min(CAP));
    let (_, last) = list.split_at(list.len().saturating_sub(CAP));
    Ok(
        is_made(
            Refusing::<CAP>::from_iter(alloc, list.iter().copied()),
            first,
        )? && is_made(
            Displacing::<CAP>::from_iter(alloc, list.iter().copied()),
            last,
        )? && is_made(
            Refusing::<CAP>::from_vec(alloc, Vec::from_slice(alloc, list)?),
            first,
        )? && is_made(
            Displacing::<CAP>::from_vec(alloc, Vec::from_slice(alloc, list)?),
            last,
        )?,
    )
}

/// Whether the deques of an array, under either policy, have its first or its last numbers.
fn of_an_array<const CAP: usize, const N: usize>(
    alloc: Global,
    array: [i64; N],
) -> Result<bool, Fail> {
    let (first, _) = array.as_slice().split_at(CAP.min(N));
    let (_, last) = array.as_slice().split_at(N.saturating_sub(CAP));
    Ok(
        is_made(Refusing::<CAP>::from_array(alloc, array), first)?
            && is_made(Displacing::<CAP>::from_array(alloc, array), last)?,
    )
}

/// Whether those of arrays of up to ten numbers do.
fn of_arrays<const CAP: usize>(alloc: Global) -> Result<bool, Fail> {
    Ok(
        of_an_array::<CAP, 0>(alloc, [])?
            && of_an_array::<CAP, 1>(alloc, [0])?
            && of_an_array::<CAP, 2>(alloc, [0, 1])?
            && of_an_array::<CAP, 3>(alloc, [0, 1, 2])?
            && of_an_array::<CAP, 4>(alloc, [0, 1, 2, 3])?
            && of_an_array::<CAP, 5>(alloc, [0, 1, 2, 3, 4])?
            && of_an_array::<CAP, 6>(alloc, [0, 1, 2, 3, 4, 5])?
            && of_an_array::<CAP, 7>(alloc, [0, 1, 2, 3, 4, 5, 6])?
            && of_an_array::<CAP, 8>(alloc, [0, 1, 2, 3, 4, 5, 6, 7])?
            && of_an_array::<CAP, 9>(alloc, [0, 1, 2, 3, 4, 5, 6, 7, 8])?
            && of_an_array::<CAP, 10>(alloc, [0, 1, 2, 3, 4, 5, 6, 7, 8, 9])?,
    )
}

/// Makers of each length up to two items too many.
fn make_all<const CAP: usize>(rt: &impl Abort, alloc: Global) -> Result<(), Fail> {
    for len in 0..CAP.saturating_add(3) {
        let list = numbers(alloc, len)?;
        assert!(rt; made_alike::<CAP>(alloc, &list)?, "{len} of {CAP}");
    }
    assert!(rt; of_arrays::<CAP>(alloc)?, "{CAP}");
    Ok(())
}

#[test]
fn deques_of_every_length(rt: HostRuntime) -> Result<(), Fail> {
    make_all::<0>(&rt, rt.alloc())?;
    make_all::<1>(&rt, rt.alloc())?;
    make_all::<2>(&rt, rt.alloc())?;
    make_all::<3>(&rt, rt.alloc())?;
    make_all::<4>(&rt, rt.alloc())?;
    make_all::<5>(&rt, rt.alloc())?;
    make_all::<6>(&rt, rt.alloc())?;
    make_all::<7>(&rt, rt.alloc())?;
    make_all::<8>(&rt, rt.alloc())
}

/// Makes a deque of an array for a caller who gives up where it is refused.
fn length_made<const CAP: usize>(alloc: Global) -> Result<usize, AllocError> {
    Ok(Refusing::<CAP>::from_array(alloc, [1, 2])?.len())
}

/// The same for one that reads and writes.
fn length_made_for_io<const CAP: usize>(alloc: Global) -> io::Result<usize> {
    Ok(Refusing::<CAP>::from_array(alloc, [1, 2])?.len())
}

#[test]
fn a_refusal_becomes_an_error_of_memory(rt: HostRuntime) -> Result<(), Fail> {
    assert!(rt; length_made::<2>(rt.alloc()) == Ok(2));
    assert!(rt; length_made::<{ usize::MAX }>(rt.alloc()) == Err(AllocError));
    assert!(rt; length_made_for_io::<2>(rt.alloc()).is_ok_and(|length| length == 2));
    let refused = length_made_for_io::<{ usize::MAX }>(rt.alloc()).map_err(|error| error.kind());
    assert!(rt; refused == Err(io::ErrorKind::OutOfMemory));
    Ok(())
}

/// Whether the deques of a list from that start become vectors of it under either policy.
fn vectors_alike<const CAP: usize>(
    alloc: Global,
    start: usize,
    list: &[i64],
) -> Result<bool, Fail> {
    let refusing = made(deque_at::<CAP>(alloc, start, list)?.into_vec())?;
    let displacing = made(wrapping_at::<CAP>(alloc, start, list)?.into_vec())?;
    Ok((refusing.as_slice(), displacing.as_slice()) == (list, list))
}

/// Vectors of each start and length.
fn list_all<const CAP: usize>(rt: &impl Abort, alloc: Global) -> Result<(), Fail> {
    for start in 0..CAP {
        for len in 0..=CAP {
            let list = numbers(alloc, len)?;
            assert!(rt;
                vectors_alike::<CAP>(alloc, start, &list)?,
                "{len} of {CAP}, start {start}"
            );
        }
    }
    Ok(())
}

#[test]
fn vectors_of_every_start_and_length(rt: HostRuntime) -> Result<(), Fail> {
    list_all::<1>(&rt, rt.alloc())?;
    list_all::<2>(&rt, rt.alloc())?;
    list_all::<3>(&rt, rt.alloc())?;
    list_all::<4>(&rt, rt.alloc())?;
    list_all::<5>(&rt, rt.alloc())?;
    list_all::<6>(&rt, rt.alloc())?;
    list_all::<7>(&rt, rt.alloc())?;
    list_all::<8>(&rt, rt.alloc())
}

#[test]
fn vectors_of_long_lists(rt: HostRuntime) -> Result<(), Fail> {
    for len in [16, 17, 64, 65, 128, 1000] {
        let list = numbers(rt.alloc(), len)?;
        assert!(rt; vectors_alike::<1000>(rt.alloc(), 990, &list)?, "{len}");
    }
    Ok(())
}

#[test]
fn conversions_keep_the_list_and_the_start(rt: HostRuntime) -> Result<(), Fail> {
    let mut deque = ArrayDeque::<i64, 3, Wrapping>::new(rt.alloc())?;
    for item in [1, 2, 3, 4] {
        deque.push_back(item);
    }
    let mut saturating: ArrayDeque<i64, 3, Saturating> = deque.into();
    let is_kept = holds(&saturating, &[2, 3, 4])
        && saturating.push_back(5) == Err(CapacityError { element: 5 });
    let list = made(saturating.into_vec())?;
    let mut wrapping: ArrayDeque<i64, 3, Wrapping> = deque_at::<3>(rt.alloc(), 2, &[1, 2])?.into();
    assert!(rt;
        is_kept
            && list.as_slice() == [2, 3, 4].as_slice()
            && is_cut(&wrapping, &[1], &[2])
            && wrapping.push_back(3).is_none()
            && wrapping.push_back(4) == Some(1)
            && holds(&wrapping, &[2, 3, 4])
    );
    Ok(())
}
