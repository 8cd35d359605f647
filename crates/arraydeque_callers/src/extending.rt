//! Callers of a line or two that hand on what an iterator gives: each knows the exact list that the
//! deque has then.
//!
//! Under `Saturating` most stand twice: for as much as finds room, and as `.._that_fits` for a
//! source that has room. What comes through `rev`, `skip`, `filter` or `map`, or out of a drained
//! part, is added by `extend`, whose contract speaks of all that came, and does so under either
//! policy.
ghost use Rattle.std.specs.Prelude.{◌≡◌, ◌+◌, ◌-◌, ◌≤◌, ◌<◌, ◌++◌, ◌∷◌, [], length, take, drop, reverse, map, All, nat_le, bit_and, IfOk, IfSome, OnOk};
ghost use Rattle.std.specs.List.{filter};
ghost use Rattle.arraydeque.specs.Deque.{keep_last};

use arraydeque::{ArrayDeque, Drain, Iter, MakeError, Saturating, Wrapping};
use std::alloc::{AllocError, Global};

/// Adds copies of a slice's items, as far as there is room.
pub fn add_slice<const CAP: usize>(to: &mut ArrayDeque<u64, CAP, Saturating>, from: &[u64])
    ensures { let room = CAP - length to.old.items in
        to.new.items ≡ to.old.items ++ take room from.now }
{
    to.extend_back(from.iter().copied());
}

/// Adds copies of a slice's items, for which there is room.
pub fn add_slice_that_fits<const CAP: usize>(
    to: &mut ArrayDeque<u64, CAP, Saturating>,
    from: &[u64],
)
    requires { length to.old.items + length from.now ≤ CAP }
    ensures { to.new.items ≡ to.old.items ++ from.now }
{
    to.extend_back(from.iter().copied());
}

/// Adds copies of a slice's first items, as far as there is room.
pub fn add_some_of_slice<const CAP: usize>(
    to: &mut ArrayDeque<u64, CAP, Saturating>,
    from: &[u64],
    count: usize,
)
    ensures { let room = CAP - length to.old.items in
        to.new.items ≡ to.old.items ++ take room (take count from.now) }
{
    to.extend_back(from.iter().copied().take(count));
}

/// Adds copies of a slice's first items, for which there is room.
pub fn add_some_of_slice_that_fits<const CAP: usize>(
    to: &mut ArrayDeque<u64, CAP, Saturating>,
    from: &[u64],
    count: usize,
)
    requires { length to.old.items + length (take count from.now) ≤ CAP }
    ensures { to.new.items ≡ to.old.items ++ (take count from.now) }
{
    to.extend_back(from.iter().copied().take(count));
}

/// Adds copies of a slice's first `M` items, as far as there is room.
pub fn add_first<const CAP: usize, const M: usize>(
    to: &mut ArrayDeque<u64, CAP, Saturating>,
    from: &[u64],
)
    ensures { let room = CAP - length to.old.items in
        to.new.items ≡ to.old.items ++ take room (take M from.now) }
{
    to.extend_back(from.iter().copied().take(M));
}

/// Adds copies of a slice's first two items, as far as there is room. At a literal, `take(2)`, the
/// list isn't known.
pub fn add_first_two<const CAP: usize>(to: &mut ArrayDeque<u64, CAP, Saturating>, from: &[u64])
    ensures { let room = CAP - length to.old.items in
        to.new.items ≡ to.old.items ++ take room (take 2 from.now) }
{
    add_first::<CAP, 2>(to, from);
}

/// Adds a vector's items, as far as there is room.
pub fn add_vector<T: Drop, const CAP: usize>(to: &mut ArrayDeque<T, CAP, Saturating>, from: Vec<T>)
    ensures { let room = CAP - length to.old.items in
        to.new.items ≡ to.old.items ++ take room from.items }
{
    to.extend_back(from);
}

/// Adds a vector's items, for which there is room.
pub fn add_vector_that_fits<T: Drop, const CAP: usize>(
    to: &mut ArrayDeque<T, CAP, Saturating>,
    from: Vec<T>,
)
    requires { length to.old.items + length from.items ≤ CAP }
    ensures { to.new.items ≡ to.old.items ++ from.items }
{
    to.extend_back(from);
}

/// Adds an array's items, as far as there is room.
pub fn add_array<const CAP: usize>(to: &mut ArrayDeque<u64, CAP, Saturating>, from: [u64; 2])
    ensures { let room = CAP - length to.old.items in
        to.new.items ≡ to.old.items ++ take room from }
{
    to.extend_back(from);
}

/// Adds an array's items, for which there is room.
pub fn add_array_that_fits<const CAP: usize>(
    to: &mut ArrayDeque<u64, CAP, Saturating>,
    from: [u64; 2],
)
    requires { length to.old.items + length from ≤ CAP }
    ensures { to.new.items ≡ to.old.items ++ from }
{
    to.extend_back(from);
}

/// Adds the items of an array of bounded length, as far as there is room.
pub fn add_array_of<const CAP: usize, const N: usize>(
    to: &mut ArrayDeque<u64, CAP, Saturating>,
    from: [u64; N],
)
    requires { N ≤ 1000 }
    ensures { let room = CAP - length to.old.items in
        to.new.items ≡ to.old.items ++ take room from.entry }
{
    to.extend_back(from);
}

/// Adds copies of the items of any array, as far as there is room.
pub fn add_array_by_slice<T: Copy + Drop, const CAP: usize, const N: usize>(
    to: &mut ArrayDeque<T, CAP, Saturating>,
    from: [T; N],
)
    ensures { let room = CAP - length to.old.items in
        to.new.items ≡ to.old.items ++ take room from }
{
    to.extend_back(from.iter().copied());
}

/// Adds two items, as far as there is room.
pub fn add_two<const CAP: usize>(to: &mut ArrayDeque<u64, CAP, Saturating>, a: u64, b: u64)
    ensures { let room = CAP - length to.old.items in
        to.new.items ≡ to.old.items ++ take room (a ∷ b ∷ []) }
{
    to.extend_back([a, b]);
}

/// Adds two items, for which there is room.
pub fn add_two_that_fits<const CAP: usize>(
    to: &mut ArrayDeque<u64, CAP, Saturating>,
    a: u64,
    b: u64,
)
    requires { length to.old.items + 2 ≤ CAP }
    ensures { to.new.items ≡ to.old.items ++ (a ∷ b ∷ []) }
{
    to.extend_back([a, b]);
}

/// Moves a deque's items, as far as there is room.
pub fn move_all<T: Drop, const CAP: usize, const N: usize>(
    to: &mut ArrayDeque<T, CAP, Saturating>,
    from: &mut ArrayDeque<T, N, Saturating>,
) -> Result<(), AllocError>
    ensures { let room = CAP - length to.old.items in
        OnOk result (to.new.items ≡ to.old.items ++ take room from.old.items) }
{
    to.extend_back(from.drain(..)?);
    Ok(())
}

/// Moves a deque's items, for which there is room.
pub fn move_all_that_fits<T: Drop, const CAP: usize, const N: usize>(
    to: &mut ArrayDeque<T, CAP, Saturating>,
    from: &mut ArrayDeque<T, N, Saturating>,
) -> Result<(), AllocError>
    requires { length to.old.items + length from.old.items ≤ CAP }
    ensures { OnOk result (to.new.items ≡ to.old.items ++ from.old.items) }
{
    to.extend_back(from.drain(..)?);
    Ok(())
}

/// Adds what a drain holds, as far as there is room.
pub fn add_drained<T: Drop, const CAP: usize>(
    to: &mut ArrayDeque<T, CAP, Saturating>,
    from: Drain<T>,
)
    ensures { let room = CAP - length to.old.items in
        to.new.items ≡ to.old.items ++ take room from }
{
    to.extend_back(from);
}

/// Adds what a drain holds, for which there is room.
pub fn add_drained_that_fits<T: Drop, const CAP: usize>(
    to: &mut ArrayDeque<T, CAP, Saturating>,
    from: Drain<T>,
)
    requires { length to.old.items + length from ≤ CAP }
    ensures { to.new.items ≡ to.old.items ++ from }
{
    to.extend_back(from);
}

/// Adds the items of a deque, as far as there is room.
pub fn add_deque<T: Drop, const CAP: usize, const N: usize>(
    to: &mut ArrayDeque<T, CAP, Saturating>,
    from: ArrayDeque<T, N, Saturating>,
)
    ensures { let room = CAP - length to.old.items in
        to.new.items ≡ to.old.items ++ take room from.items }
{
    to.extend_back(from);
}

/// Adds the items of a deque, for which there is room.
pub fn add_deque_that_fits<T: Drop, const CAP: usize, const N: usize>(
    to: &mut ArrayDeque<T, CAP, Saturating>,
    from: ArrayDeque<T, N, Saturating>,
)
    requires { length to.old.items + length from.items ≤ CAP }
    ensures { to.new.items ≡ to.old.items ++ from.items }
{
    to.extend_back(from);
}

/// Adds copies of a deque's items, as far as there is room.
pub fn add_copies<const CAP: usize, const N: usize>(
    to: &mut ArrayDeque<u64, CAP, Saturating>,
    from: &ArrayDeque<u64, N, Saturating>,
)
    ensures { let room = CAP - length to.old.items in
        to.new.items ≡ to.old.items ++ take room from.now.items }
{
    to.extend_back(from.iter().copied());
}

/// Adds copies of a deque's items, for which there is room.
pub fn add_copies_that_fits<const CAP: usize, const N: usize>(
    to: &mut ArrayDeque<u64, CAP, Saturating>,
    from: &ArrayDeque<u64, N, Saturating>,
)
    requires { length to.old.items + length from.now.items ≤ CAP }
    ensures { to.new.items ≡ to.old.items ++ from.now.items }
{
    to.extend_back(from.iter().copied());
}

/// Adds copies of a part of a deque, as far as there is room.
pub fn add_part<const CAP: usize, const N: usize>(
    to: &mut ArrayDeque<u64, CAP, Saturating>,
    from: &ArrayDeque<u64, N, Saturating>,
    start: usize,
    end: usize,
)
    requires in_order { start ≤ end }
    requires in_bounds { end ≤ length from.now.items }
    ensures { let room = CAP - length to.old.items in
        to.new.items ≡ to.old.items ++ take room (take (end - start) (drop start from.now.items)) }
{
    to.extend_back(from.range(start..end).copied());
}

/// Moves a deque's first items, as far as there is room.
pub fn move_first<T: Drop, const CAP: usize, const N: usize>(
    to: &mut ArrayDeque<T, CAP, Saturating>,
    from: &mut ArrayDeque<T, N, Saturating>,
    count: usize,
) -> Result<(), AllocError>
    requires { count ≤ length from.old.items }
    ensures { let room = CAP - length to.old.items in
        OnOk result (to.new.items ≡ to.old.items ++ take room (take count from.old.items)) }
{
    let drained = from.drain(..count)?;
    add_drained(to, drained);
    Ok(())
}

/// Moves a deque's first items, for which there is room.
pub fn move_first_that_fits<T: Drop, const CAP: usize, const N: usize>(
    to: &mut ArrayDeque<T, CAP, Saturating>,
    from: &mut ArrayDeque<T, N, Saturating>,
    count: usize,
) -> Result<(), AllocError>
    requires in_bounds { count ≤ length from.old.items }
    requires room { length to.old.items + count ≤ CAP }
    ensures { OnOk result (to.new.items ≡ to.old.items ++ take count from.old.items) }
{
    let drained = from.drain(..count)?;
    add_drained_that_fits(to, drained);
    Ok(())
}

/// Adds copies of a deque's items, from the last to the first, as far as there is room.
pub fn add_reversed<const CAP: usize, const N: usize>(
    to: &mut ArrayDeque<u64, CAP, Saturating>,
    from: &ArrayDeque<u64, N, Saturating>,
)
    ensures { let room = CAP - length to.old.items in
        to.new.items ≡ to.old.items ++ take room (reverse from.now.items) }
{
    let _ = to.extend(from.iter().rev().copied());
}

/// Adds copies of a deque's items but the first two, as far as there is room.
pub fn add_all_but_two<const CAP: usize, const N: usize>(
    to: &mut ArrayDeque<u64, CAP, Saturating>,
    from: &ArrayDeque<u64, N, Saturating>,
)
    ensures { let room = CAP - length to.old.items in
        to.new.items ≡ to.old.items ++ take room (drop 2 from.now.items) }
{
    let _ = to.extend(from.iter().copied().skip(2));
}

/// Adds copies of the items up to 5, as far as there is room.
pub fn add_small<const CAP: usize, const N: usize>(
    to: &mut ArrayDeque<u64, CAP, Saturating>,
    from: &ArrayDeque<u64, N, Saturating>,
)
    ensures { let room = CAP - length to.old.items in
        to.new.items ≡ to.old.items ++ take room (filter (λ item. nat_le item 5) from.now.items) }
{
    let _ = to.extend(from.iter().copied().filter(|item| *item <= 5));
}

/// Adds what a mask leaves of each item, as far as there is room.
pub fn add_masked<const CAP: usize, const N: usize>(
    to: &mut ArrayDeque<u64, CAP, Saturating>,
    from: &ArrayDeque<u64, N, Saturating>,
)
    ensures { let room = CAP - length to.old.items in
        to.new.items ≡ to.old.items ++ take room (map (λ item. bit_and item 7) from.now.items) }
{
    let _ = to.extend(from.iter().copied().map(|item| item & 7));
}

/// The last items of a deque. In a function of its own the list is known to be `keep_last`.
pub fn last_ones<const N: usize>(
    from: &ArrayDeque<u64, N, Saturating>,
    count: usize,
) -> Iter<'_, u64>
    requires { count ≤ length from.now.items }
    ensures { result ≡ keep_last count from.now.items }
{
    from.range(from.len() - count..)
}

/// Adds copies of a deque's last items, as far as there is room.
pub fn add_last<const CAP: usize, const N: usize>(
    to: &mut ArrayDeque<u64, CAP, Saturating>,
    from: &ArrayDeque<u64, N, Saturating>,
    count: usize,
)
    requires { count ≤ length from.now.items }
    ensures { let room = CAP - length to.old.items in
        to.new.items ≡ to.old.items ++ take room (keep_last count from.now.items) }
{
    to.extend_back(last_ones(from, count).copied());
}

/// Moves a deque's items in a range, as far as there is room, by `extend`.
pub fn move_range<T: Drop, const CAP: usize, const N: usize>(
    to: &mut ArrayDeque<T, CAP, Saturating>,
    from: &mut ArrayDeque<T, N, Saturating>,
    start: usize,
    end: usize,
) -> Result<(), AllocError>
    requires in_order { start ≤ end }
    requires in_bounds { end ≤ length from.old.items }
    ensures { let room = CAP - length to.old.items in
        let part = take (end - start) (drop start from.old.items) in
        OnOk result (to.new.items ≡ to.old.items ++ take room part) }
{
    let _ = to.extend(from.drain(start..end)?);
    Ok(())
}

/// Adds a deque's items at the front, as far as there is room.
pub fn move_all_to_front<T: Drop, const CAP: usize, const N: usize>(
    to: &mut ArrayDeque<T, CAP, Saturating>,
    from: &mut ArrayDeque<T, N, Saturating>,
) -> Result<(), AllocError>
    ensures { let room = CAP - length to.old.items in
        OnOk result (to.new.items ≡ reverse (take room from.old.items) ++ to.old.items) }
{
    to.extend_front(from.drain(..)?);
    Ok(())
}

/// Adds two items at the front, for which there is room.
pub fn add_two_at_front<const CAP: usize>(to: &mut ArrayDeque<u64, CAP, Saturating>, a: u64, b: u64)
    requires { length to.old.items + 2 ≤ CAP }
    ensures { to.new.items ≡ b ∷ a ∷ to.old.items }
{
    to.extend_front([a, b]);
}

/// Adds a vector's items at the front, for which there is room.
pub fn add_vector_at_front<T: Drop, const CAP: usize>(
    to: &mut ArrayDeque<T, CAP, Saturating>,
    from: Vec<T>,
)
    requires { length to.old.items + length from.items ≤ CAP }
    ensures { to.new.items ≡ reverse from.items ++ to.old.items }
{
    to.extend_front(from);
}

/// A deque of a vector's first items.
pub fn of_vector<T: Drop, const CAP: usize>(
    from: Vec<T>,
    alloc: Global,
) -> Result<ArrayDeque<T, CAP, Saturating>, MakeError<Vec<T>>>
    ensures { IfOk result (λ made. made.items ≡ take CAP from.items) }
{
    ArrayDeque::<T, CAP, Saturating>::from_iter(alloc, from)
}

/// A deque of an array's first items, by `from_iter`.
pub fn of_array<const CAP: usize>(
    from: [u64; 3],
    alloc: Global,
) -> Result<ArrayDeque<u64, CAP, Saturating>, MakeError<[u64; 3]>>
    ensures { IfOk result (λ made. made.items ≡ take CAP from) }
{
    ArrayDeque::<u64, CAP, Saturating>::from_iter(alloc, from)
}

/// A deque of a drain's first items.
pub fn of_drained<T: Drop, const CAP: usize>(
    from: Drain<T>,
    alloc: Global,
) -> Result<ArrayDeque<T, CAP, Saturating>, MakeError<Drain<T>>>
    ensures { IfOk result (λ made. made.items ≡ take CAP from) }
{
    ArrayDeque::<T, CAP, Saturating>::from_iter(alloc, from)
}

/// A deque of another deque's first items.
pub fn of_deque<T: Drop, const CAP: usize, const N: usize>(
    from: ArrayDeque<T, N, Saturating>,
    alloc: Global,
) -> Result<ArrayDeque<T, CAP, Saturating>, MakeError<ArrayDeque<T, N, Saturating>>>
    ensures { IfOk result (λ made. made.items ≡ take CAP from.items) }
{
    ArrayDeque::<T, CAP, Saturating>::from_iter(alloc, from)
}

/// A deque of copies of a slice's first items.
pub fn of_slice<const CAP: usize>(
    from: &[u64],
    alloc: Global,
) -> Option<ArrayDeque<u64, CAP, Saturating>>
    ensures { IfSome result (λ made. made.items ≡ take CAP from.now) }
{
    ArrayDeque::<u64, CAP, Saturating>::from_iter(alloc, from.iter().copied()).ok()
}

/// Pushes a deque's items.
pub fn push_all<T: Drop, const CAP: usize, const N: usize>(
    to: &mut ArrayDeque<T, CAP, Wrapping>,
    from: &mut ArrayDeque<T, N, Saturating>,
) -> Result<(), AllocError>
    ensures { OnOk result (to.new.items ≡ keep_last CAP (to.old.items ++ from.old.items)) }
{
    to.extend_back(from.drain(..)?);
    Ok(())
}

/// Pushes a vector's items.
pub fn push_vector<T: Drop, const CAP: usize>(to: &mut ArrayDeque<T, CAP, Wrapping>, from: Vec<T>)
    ensures { to.new.items ≡ keep_last CAP (to.old.items ++ from.items) }
{
    to.extend_back(from);
}

/// Pushes two items.
pub fn push_two<const CAP: usize>(to: &mut ArrayDeque<u64, CAP, Wrapping>, a: u64, b: u64)
    ensures { to.new.items ≡ keep_last CAP (to.old.items ++ a ∷ b ∷ []) }
{
    to.extend_back([a, b]);
}

/// Pushes the items of an array of bounded length.
pub fn push_array_of<const CAP: usize, const N: usize>(
    to: &mut ArrayDeque<u64, CAP, Wrapping>,
    from: [u64; N],
)
    requires { N ≤ 1000 }
    ensures { to.new.items ≡ keep_last CAP (to.old.items ++ from.entry) }
{
    to.extend_back(from);
}

/// Pushes the items of a deque.
pub fn push_deque<T: Drop, const CAP: usize, const N: usize>(
    to: &mut ArrayDeque<T, CAP, Wrapping>,
    from: ArrayDeque<T, N, Saturating>,
)
    ensures { to.new.items ≡ keep_last CAP (to.old.items ++ from.items) }
{
    to.extend_back(from);
}

/// Pushes what a drain holds.
pub fn push_drained<T: Drop, const CAP: usize>(
    to: &mut ArrayDeque<T, CAP, Wrapping>,
    from: Drain<T>,
)
    ensures { to.new.items ≡ keep_last CAP (to.old.items ++ from) }
{
    to.extend_back(from);
}

/// Pushes copies of a slice's items.
pub fn push_slice<const CAP: usize>(to: &mut ArrayDeque<u64, CAP, Wrapping>, from: &[u64])
    ensures { to.new.items ≡ keep_last CAP (to.old.items ++ from.now) }
{
    to.extend_back(from.iter().copied());
}

/// Pushes copies of a deque's items.
pub fn push_copies<const CAP: usize, const N: usize>(
    to: &mut ArrayDeque<u64, CAP, Wrapping>,
    from: &ArrayDeque<u64, N, Saturating>,
)
    ensures { to.new.items ≡ keep_last CAP (to.old.items ++ from.now.items) }
{
    to.extend_back(from.iter().copied());
}

/// Pushes copies of a part of a deque.
pub fn push_part<const CAP: usize, const N: usize>(
    to: &mut ArrayDeque<u64, CAP, Wrapping>,
    from: &ArrayDeque<u64, N, Saturating>,
    start: usize,
    end: usize,
)
    requires in_order { start ≤ end }
    requires in_bounds { end ≤ length from.now.items }
    ensures { let part = take (end - start) (drop start from.now.items) in
        to.new.items ≡ keep_last CAP (to.old.items ++ part) }
{
    to.extend_back(from.range(start..end).copied());
}

/// Pushes a deque's first items.
pub fn push_first<T: Drop, const CAP: usize, const N: usize>(
    to: &mut ArrayDeque<T, CAP, Wrapping>,
    from: &mut ArrayDeque<T, N, Saturating>,
    count: usize,
) -> Result<(), AllocError>
    requires { count ≤ length from.old.items }
    ensures { OnOk result
        (to.new.items ≡ keep_last CAP (to.old.items ++ take count from.old.items)) }
{
    to.extend_back(from.drain(..count)?);
    Ok(())
}

/// Pushes copies of a slice's first items.
pub fn push_some_of_slice<const CAP: usize>(
    to: &mut ArrayDeque<u64, CAP, Wrapping>,
    from: &[u64],
    count: usize,
)
    ensures { to.new.items ≡ keep_last CAP (to.old.items ++ take count from.now) }
{
    to.extend_back(from.iter().copied().take(count));
}

/// Pushes an item below a limit, where all are: those that are kept are too.
#[tactic(auto, using(arraydeque::proofs::KeepLast::kept_rules))]
pub fn push_below<const CAP: usize>(to: &mut ArrayDeque<u64, CAP, Wrapping>, item: u64, limit: u64)
    requires all { All (λ each. each < limit) to.old.items }
    requires this { item < limit }
    ensures { All (λ each. each < limit) to.new.items }
{
    to.push_back(item);
}

/// Pushes copies of a slice's first `M` items.
pub fn push_first_of_slice<const CAP: usize, const M: usize>(
    to: &mut ArrayDeque<u64, CAP, Wrapping>,
    from: &[u64],
)
    ensures { to.new.items ≡ keep_last CAP (to.old.items ++ take M from.now) }
{
    to.extend_back(from.iter().copied().take(M));
}

/// Pushes copies of a slice's first two items.
pub fn push_first_two<const CAP: usize>(to: &mut ArrayDeque<u64, CAP, Wrapping>, from: &[u64])
    ensures { to.new.items ≡ keep_last CAP (to.old.items ++ take 2 from.now) }
{
    push_first_of_slice::<CAP, 2>(to, from);
}

/// Pushes copies of a deque's last items.
pub fn push_last<const CAP: usize, const N: usize>(
    to: &mut ArrayDeque<u64, CAP, Wrapping>,
    from: &ArrayDeque<u64, N, Saturating>,
    count: usize,
)
    requires { count ≤ length from.now.items }
    ensures { to.new.items ≡ keep_last CAP (to.old.items ++ keep_last count from.now.items) }
{
    to.extend_back(from.iter().copied().skip(from.len() - count));
}

/// Pushes copies of a deque's items, from the last to the first.
pub fn push_reversed<const CAP: usize, const N: usize>(
    to: &mut ArrayDeque<u64, CAP, Wrapping>,
    from: &ArrayDeque<u64, N, Saturating>,
)
    ensures { to.new.items ≡ keep_last CAP (to.old.items ++ reverse from.now.items) }
{
    to.extend_back(from.iter().rev().copied());
}

/// Pushes copies of a deque's items but the first two.
pub fn push_all_but_two<const CAP: usize, const N: usize>(
    to: &mut ArrayDeque<u64, CAP, Wrapping>,
    from: &ArrayDeque<u64, N, Saturating>,
)
    ensures { to.new.items ≡ keep_last CAP (to.old.items ++ drop 2 from.now.items) }
{
    to.extend_back(from.iter().copied().skip(2));
}

/// Pushes copies of the items up to 5.
pub fn push_small<const CAP: usize, const N: usize>(
    to: &mut ArrayDeque<u64, CAP, Wrapping>,
    from: &ArrayDeque<u64, N, Saturating>,
)
    ensures { let small = filter (λ item. nat_le item 5) from.now.items in
        to.new.items ≡ keep_last CAP (to.old.items ++ small) }
{
    to.extend_back(from.iter().copied().filter(|item| *item <= 5));
}

/// Pushes what a mask leaves of each item.
pub fn push_masked<const CAP: usize, const N: usize>(
    to: &mut ArrayDeque<u64, CAP, Wrapping>,
    from: &ArrayDeque<u64, N, Saturating>,
)
    ensures { let masked = map (λ item. bit_and item 7) from.now.items in
        to.new.items ≡ keep_last CAP (to.old.items ++ masked) }
{
    to.extend_back(from.iter().copied().map(|item| item & 7));
}

/// Pushes a deque's items in a range, by `extend`.
pub fn extend_range<T: Drop, const CAP: usize, const N: usize>(
    to: &mut ArrayDeque<T, CAP, Wrapping>,
    from: &mut ArrayDeque<T, N, Saturating>,
    start: usize,
    end: usize,
) -> Result<(), AllocError>
    requires in_order { start ≤ end }
    requires in_bounds { end ≤ length from.old.items }
    ensures { let part = take (end - start) (drop start from.old.items) in
        OnOk result (to.new.items ≡ keep_last CAP (to.old.items ++ part)) }
{
    let _ = to.extend(from.drain(start..end)?);
    Ok(())
}

/// Pushes copies of a deque's items, from the last to the first, by `extend`.
pub fn extend_reversed<const CAP: usize, const N: usize>(
    to: &mut ArrayDeque<u64, CAP, Wrapping>,
    from: &ArrayDeque<u64, N, Saturating>,
)
    ensures { to.new.items ≡ keep_last CAP (to.old.items ++ reverse from.now.items) }
{
    let _ = to.extend(from.iter().rev().copied());
}

/// Pushes copies of a deque's items but the first two, by `extend`.
pub fn extend_all_but_two<const CAP: usize, const N: usize>(
    to: &mut ArrayDeque<u64, CAP, Wrapping>,
    from: &ArrayDeque<u64, N, Saturating>,
)
    ensures { to.new.items ≡ keep_last CAP (to.old.items ++ drop 2 from.now.items) }
{
    let _ = to.extend(from.iter().copied().skip(2));
}

/// Pushes copies of the items up to 5, by `extend`.
pub fn extend_small<const CAP: usize, const N: usize>(
    to: &mut ArrayDeque<u64, CAP, Wrapping>,
    from: &ArrayDeque<u64, N, Saturating>,
)
    ensures { let small = filter (λ item. nat_le item 5) from.now.items in
        to.new.items ≡ keep_last CAP (to.old.items ++ small) }
{
    let _ = to.extend(from.iter().copied().filter(|item| *item <= 5));
}

/// Pushes what a mask leaves of each item, by `extend`.
pub fn extend_masked<const CAP: usize, const N: usize>(
    to: &mut ArrayDeque<u64, CAP, Wrapping>,
    from: &ArrayDeque<u64, N, Saturating>,
)
    ensures { let masked = map (λ item. bit_and item 7) from.now.items in
        to.new.items ≡ keep_last CAP (to.old.items ++ masked) }
{
    let _ = to.extend(from.iter().copied().map(|item| item & 7));
}
