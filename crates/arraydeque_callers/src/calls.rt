//! Callers of a call or two, most in a line.
ghost use Rattle.std.specs.Prelude.{◌≡◌, ◌-◌, ◌<◌, ◌≤◌, ◌^◌, ◌↔◌, ◌++◌, ◌∷◌, [], length, take, drop, swap, replicate, filter, slice_get, slice_set, pos, int_le, sum, IsTrue, IfOk, IfSome, OnOk, OnErr};
ghost use Rattle.std.specs.List.{list_any};
ghost use Rattle.std.specs.List.Sorted.{IsBinarySearchResult};
ghost use Rattle.std.specs.Fn.{ComputesKey};
ghost use Rattle.arraydeque_ring.specs.Ring.{IsInOnePiece};
ghost use Rattle.arraydeque.specs.Deque.{as_ring, keep_last};

use arraydeque::behavior::Behavior;
use arraydeque::{ArrayDeque, Drain, MakeError, Saturating, Wrapping};
use arraydeque_ring::Ring;
use std::alloc::{AllocError, Global};
use std::cmp::Ordering;

/// How many items find room.
pub fn capacity<T, const CAP: usize, B: Behavior>(deque: &ArrayDeque<T, CAP, B>) -> usize
    ensures { result ≡ CAP }
{
    deque.capacity()
}

/// Whether an item is there.
pub fn contains<T: PartialEq, const CAP: usize, B: Behavior>(
    deque: &ArrayDeque<T, CAP, B>,
    item: &T,
) -> bool
    ensures { result ≡ list_any (λ other. T.eq other item.now) deque.now.items }
{
    deque.contains(item)
}

/// Writes over the first item, if there is one.
pub fn write_front<T: Copy + Drop, const CAP: usize, B: Behavior>(
    deque: &mut ArrayDeque<T, CAP, B>,
    item: T,
)
    ensures { deque.new.items ≡ slice_set deque.old.items 0 item }
{
    if let Some(first) = deque.front_mut() {
        *first = item;
    }
}

/// Writes over the last item, if there is one.
pub fn write_back<T: Copy + Drop, const CAP: usize, B: Behavior>(
    deque: &mut ArrayDeque<T, CAP, B>,
    item: T,
)
    ensures { deque.new.items ≡ slice_set deque.old.items (length deque.old.items - 1) item }
{
    if let Some(last) = deque.back_mut() {
        *last = item;
    }
}

/// Writes over the item at an index, at which there must be one.
pub fn write_at<T: Copy + Drop, const CAP: usize, B: Behavior>(
    deque: &mut ArrayDeque<T, CAP, B>,
    index: usize,
    item: T,
)
    requires { index < length deque.old.items }
    ensures { deque.new.items ≡ slice_set deque.old.items index item }
{
    if let Some(written) = deque.get_mut(index) {
        *written = item;
    }
}

/// The items in one slice.
pub fn as_slice<T, const CAP: usize, B: Behavior>(deque: &ArrayDeque<T, CAP, B>) -> &[T]
    requires { IsInOnePiece (as_ring CAP deque.now) }
    ensures { result.now ≡ deque.now.items }
{
    deque.as_slice()
}

/// Where an item is that a comparison finds equal, or where it would go.
pub fn find_by<T, F: FnMut(&T) -> Ordering, const CAP: usize, B: Behavior>(
    deque: &ArrayDeque<T, CAP, B>,
    compare: F,
) -> Result<usize, usize>
    requires { F.IsAlwaysCallable compare }
    ensures { (order : T → Ordering) → ComputesKey F.FnMut order compare
        → IsBinarySearchResult order deque.now.items result }
{
    deque.binary_search_by(compare)
}

/// Where an item of a key is, or where it would go.
pub fn find_by_key<T, K: Ord, F: FnMut(&T) -> K, const CAP: usize, B: Behavior>(
    deque: &ArrayDeque<T, CAP, B>,
    key: &K,
    key_of: F,
) -> Result<usize, usize>
where
    K: Drop,
    requires { F.IsAlwaysCallable key_of }
    ensures { (keys : T → K) → ComputesKey F.FnMut keys key_of
        → IsBinarySearchResult (λ item. K.cmp (keys item) key.now) deque.now.items result }
{
    deque.binary_search_by_key(key, key_of)
}

/// Exchanges the first and the last item.
pub fn swap_ends<T, const CAP: usize, B: Behavior>(deque: &mut ArrayDeque<T, CAP, B>)
    requires { 0 < length deque.old.items }
    ensures { deque.new.items ≡ swap deque.old.items 0 (length deque.old.items - 1) }
{
    let last = deque.len() - 1;
    deque.swap(0, last);
}

/// Moves the first items behind the others.
pub fn rotate_left<T, const CAP: usize, B: Behavior>(
    deque: &mut ArrayDeque<T, CAP, B>,
    count: usize,
)
    requires { count ≤ length deque.old.items }
    ensures { deque.new.items ≡ drop count deque.old.items ++ take count deque.old.items }
{
    deque.rotate_left(count);
}

/// Puts the first `count` items behind the others, if there are so many.
pub fn rotate_by<T, const CAP: usize, B: Behavior>(
    deque: &mut ArrayDeque<T, CAP, B>,
    count: usize,
) -> bool
    ensures possible { IsTrue result ↔ (count ≤ length deque.old.items) }
    ensures rotated { IsTrue result →
        deque.new.items ≡ drop count deque.old.items ++ take count deque.old.items }
    ensures unchanged { ¬ IsTrue result → deque.new ≡ deque.old }
{
    if count > deque.len() {
        return false;
    }
    deque.rotate_left(count);
    true
}

/// The sum of a slice's items, of which there are fewer than 2^32.
fn sum_of(items: &[u32]) -> u64
    requires { length items.now < 2 ^ 32 }
    ensures { result ≡ sum items.now }
{
    items.iter().map(|item| *item as u64).sum()
}

/// The sum of a deque's items, of which there are fewer than 2^32. They are laid in one piece.
pub fn total<const CAP: usize, B: Behavior>(deque: &mut ArrayDeque<u32, CAP, B>) -> u64
    requires { CAP < 2 ^ 32 }
    ensures { result ≡ sum deque.old.items }
{
    deque.linearize();
    sum_of(deque.as_slice())
}

/// Moves the last items before the others.
pub fn rotate_right<T, const CAP: usize, B: Behavior>(
    deque: &mut ArrayDeque<T, CAP, B>,
    count: usize,
)
    requires { count ≤ length deque.old.items }
    ensures { let others = length deque.old.items - count in
        deque.new.items ≡ drop others deque.old.items ++ take others deque.old.items }
{
    deque.rotate_right(count);
}

/// Rotates there and back.
pub fn rotate_back<T, const CAP: usize, B: Behavior>(
    deque: &mut ArrayDeque<T, CAP, B>,
    count: usize,
)
    requires { count ≤ length deque.old.items }
    ensures { deque.new.items ≡ deque.old.items }
{
    deque.rotate_left(count);
    deque.rotate_right(count);
}

/// Takes out the item at an index, in whose place the last one goes.
pub fn take_for_last<T, const CAP: usize, B: Behavior>(
    deque: &mut ArrayDeque<T, CAP, B>,
    index: usize,
) -> Option<T>
    requires { index < length deque.old.items }
    ensures value { result ≡ slice_get deque.old.items index }
    ensures items { let last = length deque.old.items - 1 in
        deque.new.items ≡ take last (swap deque.old.items index last) }
{
    deque.swap_remove_back(index)
}

/// Takes out the item at an index, in whose place the first one goes.
pub fn take_for_first<T, const CAP: usize, B: Behavior>(
    deque: &mut ArrayDeque<T, CAP, B>,
    index: usize,
) -> Option<T>
    requires { index < length deque.old.items }
    ensures value { result ≡ slice_get deque.old.items index }
    ensures items { deque.new.items ≡ drop 1 (swap deque.old.items index 0) }
{
    deque.swap_remove_front(index)
}

/// Keeps the first items.
pub fn keep_first<T: Drop, const CAP: usize, B: Behavior>(
    deque: &mut ArrayDeque<T, CAP, B>,
    count: usize,
)
    ensures { deque.new.items ≡ take count deque.old.items }
{
    deque.truncate(count);
}

/// Keeps the last items.
pub fn keep_last_items<T: Drop, const CAP: usize, B: Behavior>(
    deque: &mut ArrayDeque<T, CAP, B>,
    count: usize,
)
    ensures { deque.new.items ≡ keep_last count deque.old.items }
{
    deque.truncate_front(count);
}

/// Removes each item that is negative.
pub fn drop_negative<const CAP: usize, B: Behavior>(deque: &mut ArrayDeque<i64, CAP, B>)
    ensures { deque.new.items ≡ filter (λ item. int_le (pos 0) item) deque.old.items }
{
    deque.retain(|item| *item >= 0);
}

/// Fills the room with a value.
pub fn fill_up<T: Copy + Drop, const CAP: usize, B: Behavior>(
    deque: &mut ArrayDeque<T, CAP, B>,
    value: T,
)
    ensures { deque.new.items ≡
        deque.old.items ++ replicate (CAP - length deque.old.items) value }
{
    let _len = deque.len();
    deque.resize(CAP, value);
}

/// Cuts a deque in two and joins the parts again.
pub fn cut_and_join<T: Drop, const CAP: usize>(
    deque: &mut ArrayDeque<T, CAP, Saturating>,
    at: usize,
) -> Result<(), AllocError>
    requires { at ≤ length deque.old.items }
    ensures { deque.new.items ≡ deque.old.items }
{
    let _len = deque.len();
    let mut rest = deque.split_off(at)?;
    deque.append(&mut rest);
    Ok(())
}

/// Moves what finds room from one deque to another.
pub fn append<T, const CAP: usize, const N: usize>(
    to: &mut ArrayDeque<T, CAP, Saturating>,
    from: &mut ArrayDeque<T, N, Saturating>,
)
    ensures to_has { to.new.items ≡
        to.old.items ++ take (CAP - length to.old.items) from.old.items }
    ensures from_has { from.new.items ≡ drop (CAP - length to.old.items) from.old.items }
{
    to.append(from);
}

/// Moves all from one deque to another, which keeps the last.
pub fn append_all<T: Drop, const CAP: usize, const N: usize>(
    to: &mut ArrayDeque<T, CAP, Wrapping>,
    from: &mut ArrayDeque<T, N, Wrapping>,
)
    ensures to_has { to.new.items ≡ keep_last CAP (to.old.items ++ from.old.items) }
    ensures from_has { from.new.items ≡ [] }
{
    to.append(from);
}

/// Takes a range out.
pub fn take_range<T, const CAP: usize, B: Behavior>(
    deque: &mut ArrayDeque<T, CAP, B>,
    from: usize,
    to: usize,
) -> Result<Drain<T>, AllocError>
    requires in_order { from ≤ to }
    requires in_bounds { to ≤ length deque.old.items }
    ensures taken { IfOk result (λ drained.
        drained ≡ take (to - from) (drop from deque.old.items)) }
    ensures left { OnOk result (deque.new.items ≡
        take from deque.old.items ++ drop to deque.old.items) }
    ensures unchanged { OnErr result (deque.new.items ≡ deque.old.items) }
{
    deque.drain(from..to)
}

/// Lends the items up to the region's end, which are none only if there are none at all.
pub fn first_run<T, const CAP: usize, B: Behavior>(deque: &ArrayDeque<T, CAP, B>) -> &[T]
    ensures { 0 < length deque.now.items → 0 < length result.now }
{
    let _start = deque.len();
    deque.as_slices().0
}

/// Drops a range, and takes no memory for it.
pub fn drop_range<T: Drop, const CAP: usize, B: Behavior>(
    deque: &mut ArrayDeque<T, CAP, B>,
    from: usize,
    to: usize,
)
    requires in_order { from ≤ to }
    requires in_bounds { to ≤ length deque.old.items }
    ensures { deque.new.items ≡ take from deque.old.items ++ drop to deque.old.items }
{
    deque.remove_range(from..to);
}

/// A copy of a deque of numbers.
pub fn clone<const CAP: usize, B: Behavior>(
    deque: &ArrayDeque<u64, CAP, B>,
) -> Result<ArrayDeque<u64, CAP, B>, AllocError>
    ensures { IfOk result (λ copy. copy.items ≡ deque.now.items) }
{
    deque.clone()
}

/// A deque of an array's first items.
pub fn from_array<T: Copy, const CAP: usize, const N: usize>(
    array: [T; N],
    alloc: Global,
) -> Result<ArrayDeque<T, CAP, Saturating>, MakeError<[T; N]>>
    ensures { IfOk result (λ deque. deque.items ≡ take CAP array) }
{
    ArrayDeque::<T, CAP, Saturating>::from_array(alloc, array)
}

/// A vector made a deque, and a vector again: its first items are left.
pub fn there_and_back<T: Drop, const CAP: usize>(list: Vec<T>, alloc: Global) -> Option<Vec<T>>
    ensures { IfSome result (λ left. left.items ≡ take CAP list.items) }
{
    let deque = ArrayDeque::<T, CAP, Saturating>::from_vec(alloc, list).ok()?;
    deque.into_vec().ok()
}

/// Puts an item behind the others of a ring. Of a full one the first item is removed.
pub fn push_last(ring: &mut Ring<i64>, item: i64)
    ensures { ring.new.items ≡ keep_last ring.old.capacity (ring.old.items ++ item ∷ []) }
{
    if ring.len() < ring.capacity() {
        ring.push_back(item);
    } else if let Some(_) = ring.pop_front() {
        ring.push_back(item);
    }
}

/// Puts an item behind those of a full ring, in the place of the first, which comes back.
pub fn replace_first<T>(ring: &mut Ring<T>, item: T) -> T
    requires some { 0 < ring.old.capacity }
    requires full { length ring.old.items ≡ ring.old.capacity }
    ensures { result ∷ ring.new.items ≡ ring.old.items ++ item ∷ [] }
{
    let capacity = ring.capacity();
    ring.replace_first(capacity, item)
}

/// Puts an item before those of a full ring, in the place of the last, which comes back.
pub fn replace_last<T>(ring: &mut Ring<T>, item: T) -> T
    requires some { 0 < ring.old.capacity }
    requires full { length ring.old.items ≡ ring.old.capacity }
    ensures { ring.new.items ++ result ∷ [] ≡ item ∷ ring.old.items }
{
    let capacity = ring.capacity();
    ring.replace_last(capacity, item)
}

/// Adds an item at the back of a ring of two places.
pub fn push_back_of_two<T>(ring: &mut Ring<T>, item: T)
    requires two { ring.old.capacity ≡ 2 }
    requires room { length ring.old.items < 2 }
    ensures { ring.new.items ≡ ring.old.items ++ item ∷ [] }
{
    ring.push_back_given(2, item);
}

/// Adds an item at the front of a ring of two places.
pub fn push_front_of_two<T>(ring: &mut Ring<T>, item: T)
    requires two { ring.old.capacity ≡ 2 }
    requires room { length ring.old.items < 2 }
    ensures { ring.new.items ≡ item ∷ ring.old.items }
{
    ring.push_front_given(2, item);
}
