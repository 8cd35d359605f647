//! Callers of what a deque or a ring lends for writing: by its contracts alone each knows the
//! length afterwards, and most the start, whatever it wrote.
//!
//! Which values are there then, say the contracts of those that write by a closure, slice by slice,
//! or by the index: [`add_to_each`], [`fill_each`], [`fill_part`], [`fill_slices`] and
//! [`fill_from`]. The others hold a loan of several items. It has a name, which the lender follows,
//! and no clause tells what this name has of what is written. So of the others a body that writes
//! nothing would be proved too: tests show that they write.
ghost use Rattle.std.specs.Prelude.{◌≡◌, ◌≢◌, ◌+◌, ◌-◌, ◌^◌, ◌<◌, ◌≤◌, ◌↔◌, length, map, take, drop, slice_get, slice_range, All, IsTrue, IsOk, IsSome, Some, pos};
ghost use Rattle.std.specs.List.{splice};
ghost use Rattle.arraydeque.specs.Deque.{last_item};

use arraydeque::behavior::Behavior;
use arraydeque::{ArrayDeque, CapacityError, IterMut, Saturating, Wrapping};
use arraydeque_ring::Ring;

/// Adds `by` to each item. Requires sums that fit.
pub fn add_to_each<const CAP: usize, B: Behavior>(deque: &mut ArrayDeque<u64, CAP, B>, by: u64)
    requires { All (λ item. item + by < 2 ^ 64) deque.old.items }
    ensures added { deque.new.items ≡ map (λ item. item + by) deque.old.items }
    ensures len { length deque.new.items ≡ length deque.old.items }
    ensures start { deque.new.start ≡ deque.old.start }
{
    deque.for_each_mut(
        |item: &mut u64|
            requires { item.old + by < 2 ^ 64 }
        { *item += by },
    );
}

/// Takes `by` off each item, down to 0.
pub fn lower<const CAP: usize, B: Behavior>(deque: &mut ArrayDeque<u64, CAP, B>, by: u64)
    ensures { deque.new.items ≡ map (λ item. item - by) deque.old.items }
{
    deque.for_each_mut(|item| *item = item.saturating_sub(by));
}

/// Writes over each item, by a closure.
pub fn fill_each<T: Copy + Drop, const CAP: usize, B: Behavior>(
    deque: &mut ArrayDeque<T, CAP, B>,
    x: T,
)
    ensures filled { deque.new.items ≡ map (λ _. x) deque.old.items }
    ensures start { deque.new.start ≡ deque.old.start }
{
    deque.for_each_mut(|item| *item = x);
}

/// Writes over the items from the index `from` up to the index `to`, by a closure. The others stay.
pub fn fill_part<T: Copy + Drop, const CAP: usize, B: Behavior>(
    deque: &mut ArrayDeque<T, CAP, B>,
    from: usize,
    to: usize,
    x: T,
)
    requires in_order { from ≤ to }
    requires in_bounds { to ≤ length deque.old.items }
    ensures filled { deque.new.items
        ≡ splice deque.old.items from to (map (λ _. x) (slice_range deque.old.items from to)) }
    ensures start { deque.new.start ≡ deque.old.start }
{
    deque.for_each_mut_in(from..to, |item| *item = x);
}

/// Writes over each item, by one slice and then the other.
pub fn fill_slices<const CAP: usize, B: Behavior>(deque: &mut ArrayDeque<i64, CAP, B>, x: i64)
    ensures filled { All (λ item. item ≡ x) deque.new.items }
    ensures len { length deque.new.items ≡ length deque.old.items }
    ensures start { deque.new.start ≡ deque.old.start }
{
    deque.first_slice_mut().fill(x);
    deque.second_slice_mut().fill(x);
}

/// Writes over each item from the back, and returns how many there are.
pub fn fill_from_the_back<T: Copy + Drop, const CAP: usize, B: Behavior>(
    deque: &mut ArrayDeque<T, CAP, B>,
    x: T,
) -> usize
    ensures len { length deque.new.items ≡ length deque.old.items }
    ensures start { deque.new.start ≡ deque.old.start }
    ensures result { result ≡ length deque.old.items }
{
    for item in deque.iter_mut().rev() {
        *item = x;
    }
    deque.len()
}

/// Writes over each item, by a `for` over the deque itself.
pub fn fill_walked<T: Copy + Drop, const CAP: usize, B: Behavior>(
    deque: &mut ArrayDeque<T, CAP, B>,
    x: T,
)
    ensures len { length deque.new.items ≡ length deque.old.items }
    ensures start { deque.new.start ≡ deque.old.start }
{
    for item in &mut *deque {
        *item = x;
    }
}

/// Writes over one item after the other, and returns how many there are.
pub fn fill_by_hand<const CAP: usize, B: Behavior>(deque: &mut ArrayDeque<i64, CAP, B>) -> usize
    ensures len { length deque.new.items ≡ length deque.old.items }
    ensures result { result ≡ length deque.old.items }
{
    let mut walk = deque.iter_mut();
    while let Some(item) = walk.next() {
        *item = 0;
    }
    deque.len()
}

/// Writes 0 over each item before the first that is `stop`, or returns `false` and writes 1 over
/// all if there is none.
pub fn fill_until<const CAP: usize, B: Behavior>(
    deque: &mut ArrayDeque<i64, CAP, B>,
    stop: i64,
) -> bool
    ensures len { length deque.new.items ≡ length deque.old.items }
    ensures start { deque.new.start ≡ deque.old.start }
    ensures found { IsTrue result → ¬ All (λ item. item ≢ stop) deque.old.items }
    ensures none { ¬ IsTrue result → All (λ item. item ≢ stop) deque.old.items }
{
    for found in deque.iter_mut() {
        if *found == stop {
            return true;
        }
        *found = 0;
    }
    for other in deque.iter_mut().rev() {
        *other = 1;
    }
    false
}

/// Writes over all items but the first, which stays.
pub fn fill_behind_first<const CAP: usize, B: Behavior>(deque: &mut ArrayDeque<i64, CAP, B>)
    requires { 0 < length deque.old.items }
    ensures len { length deque.new.items ≡ length deque.old.items }
    ensures first { slice_get deque.new.items 0 ≡ slice_get deque.old.items 0 }
    ensures start { deque.new.start ≡ deque.old.start }
{
    for item in deque.range_mut(1..) {
        *item = 0;
    }
}

/// Writes over each item from the index `from` on, by its index. Those before it stay.
pub fn fill_from<T: Copy + Drop, const CAP: usize, B: Behavior>(
    deque: &mut ArrayDeque<T, CAP, B>,
    from: usize,
    x: T,
)
    ensures filled { All (λ item. item ≡ x) (drop from deque.new.items) }
    ensures before { take from deque.new.items ≡ take from deque.old.items }
    ensures len { length deque.new.items ≡ length deque.old.items }
    ensures start { deque.new.start ≡ deque.old.start }
{
    for index in from..deque.len() {
        deque[index] = x;
    }
}

/// Writes over the first and the last item, and pushes the length.
pub fn write_ends_and_push<const CAP: usize>(
    deque: &mut ArrayDeque<i64, CAP, Saturating>,
) -> Result<(), CapacityError<i64>>
    ensures ok { length deque.old.items < CAP →
        length deque.new.items ≡ length deque.old.items + 1 }
    ensures full { length deque.old.items ≡ CAP → length deque.new.items ≡ CAP }
    ensures room { IsOk result ↔ (length deque.old.items < CAP) }
{
    let mut items = deque.iter_mut();
    if let Some(first) = items.next() {
        *first = 1;
    }
    if let Some(last) = items.next_back() {
        *last = 2;
    }
    let len = deque.len();
    deque.push_back(len as i64)
}

/// Writes over the first item of each of the two slices, pushes, and returns how many items there
/// were.
#[tactic(auto, using(arraydeque::proofs::LastItem::last_item_rules))]
pub fn write_slices_and_push<const CAP: usize>(deque: &mut ArrayDeque<i64, CAP, Wrapping>) -> usize
    ensures len { length deque.old.items < CAP →
        length deque.new.items ≡ length deque.old.items + 1 }
    ensures pushed { 0 < CAP → last_item deque.new.items ≡ Some (pos 3) }
    ensures result { result ≡ length deque.old.items }
{
    let (front, back) = deque.iter_mut().into_slices();
    if let Some(first) = front.first_mut() {
        *first = 1;
    }
    if let Some(first) = back.first_mut() {
        *first = 2;
    }
    let len = deque.len();
    let _displaced = deque.push_back(3);
    len
}

/// How many items the two slices have.
pub fn count_in_slices<T, const CAP: usize, B: Behavior>(deque: &mut ArrayDeque<T, CAP, B>) -> usize
    ensures { result ≡ length deque.old.items }
{
    // This call makes it known that the two slices fit the capacity.
    let _len = deque.len();
    let (front, back) = deque.as_mut_slices();
    front.len() + back.len()
}

/// Writes over what is left of a loan.
fn wipe(items: IterMut<'_, i64>) {
    for item in items {
        *item = 0;
    }
}

/// Lets another function write over all items, and takes the first.
pub fn wipe_and_pop<const CAP: usize, B: Behavior>(
    deque: &mut ArrayDeque<i64, CAP, B>,
) -> Option<i64>
    ensures len { length deque.new.items ≡ length deque.old.items - 1 }
    ensures some { IsSome result ↔ (0 < length deque.old.items) }
{
    wipe(deque.iter_mut());
    deque.pop_front()
}

/// Writes over the first item of each of a ring's two slices, and returns how many items it has.
pub fn write_ring_slices(ring: &mut Ring<i64>) -> usize
    ensures len { length ring.new.items ≡ length ring.old.items }
    ensures start { ring.new.start ≡ ring.old.start }
    ensures result { result ≡ length ring.old.items }
{
    let len = ring.len();
    let (front, back) = ring.lend_part(0, len).into_slices();
    if let Some(first) = front.first_mut() {
        *first = 1;
    }
    if let Some(first) = back.first_mut() {
        *first = 2;
    }
    ring.len()
}
