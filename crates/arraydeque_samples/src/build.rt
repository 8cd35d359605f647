//! What the tests build and compare: deques at every start, and their lists.
ghost use Rattle.std.specs.Prelude.{◌≡◌, ◌++◌, ◌↔◌, [], map, pos, true, IfOk, IsOk};
ghost use Rattle.std.specs.Cmp.Lexicographic.{pointwise};
ghost use Rattle.std.specs.List.{range_with_len};
ghost use Rattle.arraydeque.specs.Deque.{as_ring};
ghost use Rattle.arraydeque.specs.RingWords.{place_of, IsInOnePiece};

use arraydeque::behavior::Behavior;
use arraydeque::{ArrayDeque, MakeError, Saturating, Wrapping};
use std::alloc::{AllocError, Global};
use std::test::Fail;

/// A deque of `items`, the first of which stands at the place `start`.
pub fn deque_at<const CAP: usize>(
    alloc: Global,
    start: usize,
    items: &[i64],
) -> Result<ArrayDeque<i64, CAP, Saturating>, Fail>
    ensures list { IfOk result (λ deque. deque.items ≡ items.now) }
    ensures start { IfOk result (λ deque. deque.start ≡ place_of 0 start CAP) }
{
    let mut deque = ArrayDeque::<i64, CAP, Saturating>::new(alloc)?;
    for _ in 0..start {
        deque.push_back(0).map_err(|_| "no room")?;
        deque.pop_front();
    }
    for &item in items {
        deque.push_back(item).map_err(|_| "no room")?;
    }
    Ok(deque)
}

/// The same under the policy that displaces.
pub fn wrapping_at<const CAP: usize>(
    alloc: Global,
    start: usize,
    items: &[i64],
) -> Result<ArrayDeque<i64, CAP, Wrapping>, Fail>
    ensures list { IfOk result (λ deque. deque.items ≡ items.now) }
    ensures start { IfOk result (λ deque. deque.start ≡ place_of 0 start CAP) }
{
    Ok(deque_at(alloc, start, items)?.into())
}

/// The numbers from 0 on, `len` of them.
pub fn numbers(alloc: Global, len: usize) -> Result<Vec<i64>, AllocError>
    ensures { IfOk result (λ list. list.items ≡ map pos (range_with_len 0 len)) }
{
    let mut list = Vec::with_capacity(alloc, len)?;
    for number in 0..len {
        list.push(number as i64)?;
    }
    Ok(list)
}

/// Whether the two slices, joined, are `items`.
pub fn holds<T: PartialEq, const CAP: usize, B: Behavior>(
    deque: &ArrayDeque<T, CAP, B>,
    items: &[T],
) -> bool
    ensures { result ≡ pointwise T.eq deque.now.items items.now }
{
    let (first, second) = deque.as_slices();
    match items.split_at_checked(first.len()) {
        Some((front, rest)) => first == front && second == rest,
        None => false,
    }
}

/// Whether the two slices are these.
pub fn is_cut<const CAP: usize, B: Behavior>(
    deque: &ArrayDeque<i64, CAP, B>,
    first: &[i64],
    second: &[i64],
) -> bool
    ensures joined { result ≡ true → first.now ++ second.now ≡ deque.now.items }
    ensures one_piece { IsInOnePiece (as_ring CAP deque.now) →
        (result ≡ true ↔ (first.now ≡ deque.now.items) × (second.now ≡ [])) }
{
    let (front, rest) = deque.as_slices();
    front == first && rest == second
}

/// What was made, or a failure where memory was refused.
pub fn made<T, S: Drop>(made: Result<T, MakeError<S>>) -> Result<T, Fail>
    ensures value { IfOk made (λ it. IfOk result (λ same. same ≡ it)) }
    ensures ok { IsOk result ↔ IsOk made }
{
    Ok(made.map_err(|_| "refused")?)
}
