//! Callers that lay a deque in one piece and work on its items in one slice.
//!
//! By the deque's contracts, and those of std's slices, each knows what the deque ends with.
ghost use Rattle.std.specs.Prelude.{◌≡◌, length, All, Some, OnOk, IfOk, OnErr, slice_get, slice_set};
ghost use Rattle.std.specs.List.Sorted.{IsPermutation, IsSorted, IsBinarySearchResult, IsSearchInRange};
ghost use Rattle.std.specs.Ordering.{int_cmp};

use arraydeque::ArrayDeque;
use arraydeque::behavior::Behavior;
use std::alloc::{AllocError, Global};

/// Sorts the items. If memory is refused they stay as they were.
pub fn sort<T: Ord, const CAP: usize, B: Behavior>(
    alloc: Global,
    deque: &mut ArrayDeque<T, CAP, B>,
) -> Result<(), AllocError>
    ensures permutation { IsPermutation deque.old.items deque.new.items }
    ensures sorted { OnOk result (IsSorted T.cmp deque.new.items) }
    ensures unchanged { OnErr result (deque.new.items ≡ deque.old.items) }
{
    deque.linearize();
    deque.as_mut_slice().sort(alloc)
}

/// Writes a value over each item.
pub fn fill<const CAP: usize, B: Behavior>(deque: &mut ArrayDeque<i64, CAP, B>, value: i64)
    ensures filled { All (λ item. item ≡ value) deque.new.items }
    ensures len { length deque.new.items ≡ length deque.old.items }
{
    deque.linearize();
    deque.as_mut_slice().fill(value);
}

/// Writes `value` over one item that equals `wanted`, and returns its index. If a binary search
/// finds none, returns in the error the index at which `wanted` would go. The list should be
/// sorted: then none is found only if there is none.
pub fn replace_found<const CAP: usize, B: Behavior>(
    deque: &mut ArrayDeque<i64, CAP, B>,
    wanted: i64,
    value: i64,
) -> Result<usize, usize>
    // If one is found, it is written over, at the index that comes back.
    ensures found { IfOk result (λ index. slice_get deque.old.items index ≡ Some wanted) }
    ensures replaced { IfOk result (λ index.
        deque.new.items ≡ slice_set deque.old.items index value) }

    // If none is found, the list stays.
    ensures unchanged { OnErr result (deque.new.items ≡ deque.old.items) }

    // Where the search ends.
    ensures bound { IsSearchInRange result (length deque.old.items) }
    ensures position { IsBinarySearchResult (λ item. int_cmp item wanted) deque.old.items result }
{
    deque.linearize();
    let items = deque.as_mut_slice();
    let found = items.binary_search(&wanted);
    if let Ok(index) = found {
        items[index] = value;
    }
    found
}
