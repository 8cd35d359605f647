//! Equality, order and hashes. They are those of the lists, wherever the rings start.
ghost use Rattle.std.specs.Cmp.{on_equiv, on_per, on_po, on_total};
ghost use Rattle.std.specs.Cmp.Lexicographic.{pointwise, slice_cmp, slice_partial_cmp, lists_agrees, lists_equiv, lists_per, lists_po, lists_ties, lists_total};
ghost use Rattle.std.specs.Hash as fed;
ghost use Rattle.std.specs.Hash.{items_Alike as alike};
ghost use Rattle.arraydeque.specs.Compared.{AreSectionsOf};

use super::ArrayDeque;
use super::blocks::{are_equal, order, partial_order};
use crate::behavior::Behavior;
use std::cmp::Ordering;
use std::hash::{Hash, Hasher};

/// Two lists as three pairs of sections.
#[derive(Drop)]
struct Sections<'a, T> {
    front: (&'a [T], &'a [T]),
    middle: (&'a [T], &'a [T]),
    back: (&'a [T], &'a [T]),
}

impl<T, const CAP: usize, B: Behavior> ArrayDeque<T, CAP, B> {
    /// Cuts both lists where either is cut into its two slices.
    fn sections<'a>(&'a self, other: &'a Self) -> Sections<'a, T>
        ensures { AreSectionsOf self.now.items other.now.items result }
    {
        let (left, left_back) = self.as_slices();
        let (right, right_back) = other.as_slices();
        let both = left.len().min(right.len());
        let (left, left_over) = left.split_at(both);
        let (right, right_over) = right.split_at(both);
        if left_over.is_empty() {
            let (facing, left_back) = left_back.split_at(right_over.len().min(left_back.len()));
            Sections {
                front: (left, right),
                middle: (facing, right_over),
                back: (left_back, right_back),
            }
        } else {
            let (facing, right_back) = right_back.split_at(left_over.len().min(right_back.len()));
            Sections {
                front: (left, right),
                middle: (left_over, facing),
                back: (left_back, right_back),
            }
        }
    }
}

impl<T: PartialEq, const CAP: usize, B: Behavior> PartialEq for ArrayDeque<T, CAP, B> {
    ghost eq = { λ v w. pointwise T.eq v.items w.items };

    ghost laws = { on_per (λ v. v.items) (lists_per T.laws) };

    /// Returns whether both deques have the same length, and equal items at each index. Where the
    /// items lie in memory makes no difference.
    ///
    /// ```
    /// let deque = ArrayDeque::<i64, 3, Saturating>::from_array(alloc, [1, 2])?;
    /// let mut other = ArrayDeque::<i64, 3, Saturating>::new(alloc)?;
    /// other.extend_front([2, 1]);
    /// // Both are the list 1, 2, though not in the same places.
    /// assert!(rt; deque == other);
    /// ```
    #[tactic(auto, using(crate::proofs::Sections::pointwise_in_three))]
    fn eq(&self, other: &Self) -> bool {
        if self.len() != other.len() {
            return false;
        }
        let cut = self.sections(other);
        if !are_equal(cut.front.0, cut.front.1) {
            return false;
        }
        if !are_equal(cut.middle.0, cut.middle.1) {
            return false;
        }
        are_equal(cut.back.0, cut.back.1)
    }
}

impl<T: Eq, const CAP: usize, B: Behavior> Eq for ArrayDeque<T, CAP, B> {
    ghost laws = { on_equiv (λ v. v.items) (lists_equiv T.Eq.laws) };
}

impl<T: PartialOrd, const CAP: usize, B: Behavior> PartialOrd for ArrayDeque<T, CAP, B> {
    ghost partial_cmp = { λ v w. slice_partial_cmp T.partial_cmp v.items w.items };

    ghost laws = { on_po (λ v. v.items) (lists_po T.PartialOrd.laws) };

    /// Compares the two items at the first index at which they don't compare as equal, and returns
    /// `None` if these are in no order. If there is no such index, the shorter deque is less.
    ///
    /// ```
    /// let deque = ArrayDeque::<i64, 3, Saturating>::from_array(alloc, [1, 5, 9])?;
    /// let other = ArrayDeque::<i64, 3, Saturating>::from_array(alloc, [1, 6])?;
    /// assert!(rt; deque < other);
    /// assert!(rt; deque.partial_cmp(&deque) == Some(Ordering::Equal));
    /// ```
    #[tactic(auto, using(crate::proofs::Sections::partial_in_three))]
    fn partial_cmp(&self, other: &Self) -> Option<Ordering> {
        let cut = self.sections(other);
        let found = partial_order(cut.front.0, cut.front.1);
        if found != Some(Ordering::Equal) {
            return found;
        }
        let found = partial_order(cut.middle.0, cut.middle.1);
        if found != Some(Ordering::Equal) {
            return found;
        }
        partial_order(cut.back.0, cut.back.1)
    }
}

impl<T: Ord, const CAP: usize, B: Behavior> Ord for ArrayDeque<T, CAP, B> {
    ghost cmp = { λ v w. slice_cmp T.cmp v.items w.items };

    ghost total = { on_total (λ v. v.items) (lists_total T.total) };

    ghost matches_partial_cmp = { λ v w. lists_agrees T.matches_partial_cmp v.items w.items };

    ghost matches_eq = { λ v w. lists_ties T.cmp T.matches_eq v.items w.items };

    /// Compares the two items at the first index at which they don't compare as equal. If there is
    /// no such index, the shorter deque is less.
    ///
    /// ```
    /// let deque = ArrayDeque::<i64, 3, Saturating>::from_array(alloc, [1, 2])?;
    /// let other = ArrayDeque::<i64, 3, Saturating>::from_array(alloc, [1, 2, 0])?;
    /// assert!(rt; deque.cmp(&other) == Ordering::Less);
    /// ```
    #[tactic(auto, using(crate::proofs::Sections::order_in_three))]
    fn cmp(&self, other: &Self) -> Ordering {
        let cut = self.sections(other);
        let found = order(cut.front.0, cut.front.1);
        if found.is_ne() {
            return found;
        }
        let found = order(cut.middle.0, cut.middle.1);
        if found.is_ne() {
            return found;
        }
        order(cut.back.0, cut.back.1)
    }
}

impl<T: Hash, const CAP: usize, B: Behavior> Hash for ArrayDeque<T, CAP, B> {
    ghost hash_input = { λ v. fed.slice T.hash_input v.items };

    ghost respects_eq = { λ v w. (alike (record { fed = T.respects_eq })).fed v.items w.items };

    /// Feeds the hasher the length as a `usize`, and then each item alone, front to back. So equal
    /// deques feed it alike, wherever they start.
    ///
    /// ```
    /// let deque = ArrayDeque::<i64, 3, Saturating>::from_array(alloc, [1, 2])?;
    /// let mut other = ArrayDeque::<i64, 3, Saturating>::new(alloc)?;
    /// other.extend_front([2, 1]);
    /// let mut seen = HashSet::new(alloc);
    /// assert!(rt; seen.insert(deque)?);
    /// assert!(rt; !seen.insert(other)?);
    /// ```
    fn hash<H: Hasher>(&self, state: &mut H) {
        let (front, back) = self.as_slices();
        state.write_usize(self.len());
        T::hash_slice(front, state);
        T::hash_slice(back, state);
    }
}
