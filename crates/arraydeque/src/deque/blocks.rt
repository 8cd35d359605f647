//! Slices in blocks: many small items are compared before an answer is used, so that the compiler
//! can compare several together. This file knows no deque.
ghost use Rattle.std.specs.Prelude.{◌≡◌, length};
ghost use Rattle.std.specs.Cmp.Lexicographic.{pointwise, slice_cmp, slice_partial_cmp};
ghost use Rattle.std.specs.List.{list_any};
ghost use Rattle.arraydeque.specs.Compared.{AreBehindEqual};

use std::cmp::Ordering;
use std::mem::size_of_val;

/// How many items a block of a search has.
const BLOCK_ITEMS: usize = 64;

/// How many pairs a block of a comparison has.
const BLOCK_PAIRS: usize = 32;

/// The size in bytes of the largest items that are compared in blocks.
const SMALL_BYTES: usize = 16;

/// The fewest bytes of an item for which equality and a total order skip equal blocks here. For
/// items of 1, 2 or 4 bytes std does so.
const LEAST_BYTES: usize = 5;

/// Returns whether some item equals `x`. Small items are compared block by block, others one by
/// one.
pub(super) fn has_equal<T: PartialEq>(items: &[T], x: &T) -> bool
    ensures { result ≡ list_any (λ y. T.eq y x.now) items.now }
{
    if size_of_val(x) > SMALL_BYTES {
        return items.contains(x);
    }
    let mut back = items;
    while BLOCK_ITEMS <= back.len() {
        let (block, next) = back.split_at(BLOCK_ITEMS);
        if is_any_equal(block, x) {
            return true;
        }
        back = next;
    }
    is_any_equal(back, x)
}

/// Returns whether some item equals `x`. It looks at every item, so that the compiler can compare
/// several together.
#[inline]
fn is_any_equal<T: PartialEq>(items: &[T], x: &T) -> bool
    ensures { result ≡ list_any (λ y. T.eq y x.now) items.now }
{
    let mut found = false;
    for k in 0..items.len() {
        found |= items[k] == *x;
    }
    found
}

/// Returns whether two slices are equal.
#[tactic(auto, using(crate::proofs::Sections::pointwise_behind))]
#[inline(always)] // By a hint, `equal` took 2529 instructions, not 2460.
pub(super) fn are_equal<T: PartialEq>(left: &[T], right: &[T]) -> bool
    ensures { result ≡ pointwise T.eq left.now right.now }
{
    if left.len() != right.len() {
        return false;
    }
    let (left, right) = skip_equal_blocks(left, right, LEAST_BYTES);
    left == right
}

/// Returns how two slices compare, if they are in some order.
#[tactic(auto, using(crate::proofs::Sections::slice_partial_cmp_behind))]
pub(super) fn partial_order<T: PartialOrd>(left: &[T], right: &[T]) -> Option<Ordering>
    ensures { result ≡ slice_partial_cmp T.partial_cmp left.now right.now }
{
    // For items of any size, because std's own partial order takes one pair after the other.
    let (left, right) = skip_equal_blocks(left, right, 0);
    left.partial_cmp(&right)
}

/// Returns how two slices compare.
#[inline(always)] // By a hint, an order took more instructions.
pub(super) fn order<T: Ord>(left: &[T], right: &[T]) -> Ordering
    ensures { result ≡ slice_cmp T.cmp left.now right.now }
{
    let (left, right) = skip_equal_blocks(left, right, LEAST_BYTES);
    left.cmp(&right)
}

/// Returns two slices without the blocks of equal pairs that they begin with. They stay whole if an
/// item has fewer than `least_bytes` or more than `SMALL_BYTES`, or if the first pair differs, as
/// it often does. Without this, `cmp` of 8-byte items takes more than twice the time.
#[inline(always)] // So the test of an item's bytes is made when the caller is compiled.
fn skip_equal_blocks<'a, T: PartialEq>(
    left: &'a [T],
    right: &'a [T],
    least_bytes: usize,
) -> (&'a [T], &'a [T])
    ensures { AreBehindEqual T.eq left.now right.now result.0.now result.1.now }
{
    let mut pairs = left.len().min(right.len());
    if pairs < BLOCK_PAIRS {
        return (left, right);
    }
    let bytes = size_of_val(&left[0]);
    if bytes < least_bytes || bytes > SMALL_BYTES || left[0] != right[0] {
        return (left, right);
    }
    let (mut left_back, mut right_back) = (left, right);
    while BLOCK_PAIRS <= pairs {
        let (left_block, left_next) = left_back.split_at(BLOCK_PAIRS);
        let (right_block, right_next) = right_back.split_at(BLOCK_PAIRS);
        if !are_all_equal(left_block, right_block) {
            break;
        }
        left_back = left_next;
        right_back = right_next;
        pairs -= BLOCK_PAIRS;
    }
    (left_back, right_back)
}

/// Returns whether all pairs of two slices of one length are equal. It looks at every pair, so that
/// the compiler can compare several together.
#[tactic(auto, using(crate::proofs::Sections::pair_rules))]
#[inline(always)] // So a block's length is known, by which its loop compares several pairs.
fn are_all_equal<T: PartialEq>(left: &[T], right: &[T]) -> bool
    requires { length left.now ≡ length right.now }
    ensures { result ≡ pointwise T.eq left.now right.now }
{
    let mut equal = true;
    for k in 0..left.len() {
        equal &= left[k] == right[k];
    }
    equal
}
