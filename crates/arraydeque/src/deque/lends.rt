//! Items of a deque, all or a part, lent for reading or for writing.
ghost use Rattle.std.specs.Prelude.{◌≡◌, ◌≤◌, ◌+◌, ◌-◌, ◌++◌, [], List, length, min, take, drop, slice_range};
ghost use Rattle.std.specs.List.{refill};
ghost use Rattle.std.specs.Borrow.{sem};
ghost use Rattle.arraydeque_ring.specs.Loans.{remaining, place_from};
ghost use Rattle.arraydeque_ring.specs.Ring.{IsInOnePiece};
ghost use Rattle.arraydeque.specs.Deque.{as_ring};
ghost use Rattle.arraydeque.specs.Range.{IsRangeOf, span_of};
ghost use Rattle.arraydeque.specs.DequeLends.{lends_items, lends_part, lends_list, lends_slices, lends_loan};

use super::ArrayDeque;
use crate::behavior::Behavior;
use crate::iter::{Iter, IterMut};
use crate::range::RangeArgument;
use arraydeque_ring::ring::Loan;

impl<T, const CAP: usize, B: Behavior> ArrayDeque<T, CAP, B> {
    /// Returns an iterator over the items, from both ends.
    ///
    /// ```
    /// let mut deque = ArrayDeque::<i64, 3, Wrapping>::new(alloc)?;
    /// deque.extend_back([1, 2, 3, 4]);
    /// let turned: Vec<i64> = deque.iter().rev().copied().collect(alloc)?;
    /// assert!(rt; turned.as_slice() == [4, 3, 2].as_slice());
    /// ```
    #[inline]
    pub fn iter(&self) -> Iter<'_, T>
        ensures value { result ≡ self.now.items }
        ensures within { length self.now.items ≤ CAP }
    {
        // A clause of `drain` speaks of all calls of its iterator. Here there is none, because
        // with it in reach the prover's search misses what a plain loop over the iterator keeps.
        let (first, second) = self.as_slices();
        Iter { first, second }
    }

    /// Returns an iterator over the items of a range, from both ends. Requires a range that is in
    /// order and ends within the list.
    ///
    /// ```
    /// let mut deque = ArrayDeque::<i64, 3, Wrapping>::new(alloc)?;
    /// deque.extend_back([1, 2, 3, 4]);
    /// assert!(rt; deque.len() == 3);
    /// let last: Vec<i64> = deque.range(1..).copied().collect(alloc)?;
    /// assert!(rt; last.as_slice() == [3, 4].as_slice());
    /// ```
    #[tactic(auto, using(arraydeque_ring::proofs::InTwo::range_in_two))]
    pub fn range<R: RangeArgument<usize>>(&self, range: R) -> Iter<'_, T>
    where
        R: Drop,
        requires { IsRangeOf R.RangeArgument range self.now.items }
        ensures value { let span = span_of R.RangeArgument range self.now.items in
            result ≡ slice_range self.now.items span.from span.to }
        ensures within { length result ≤ CAP }
    {
        let from = range.start().unwrap_or(0);
        let to = range.end().unwrap_or(self.len());
        let (first, second) = self.as_slices();
        let cut = first.len();
        Iter {
            first: &first[from.min(cut)..to.min(cut)],
            second: &second[from.saturating_sub(cut)..to.saturating_sub(cut)],
        }
    }

    /// Returns an iterator over mutable references to the items, from both ends.
    ///
    /// Whatever is written, the deque holds as many items as before.
    ///
    /// Start: stays. Steps: 2 lends.
    ///
    /// ```
    /// let mut deque = ArrayDeque::<i64, 3, Saturating>::new(alloc)?;
    /// deque.extend_back([1, 2, 3]);
    /// for item in deque.iter_mut().rev().take(2) {
    ///     *item = 0;
    /// }
    /// assert!(rt; deque.into_vec()?.as_slice() == [1, 0, 0].as_slice());
    /// ```
    #[inline]
    pub fn iter_mut(&mut self) -> IterMut<'_, T>
        ensures value { remaining result ≡ self.old.items }

        // Whatever is written, there are as many items as before, and 2 lends are counted.
        ensures* writes_back { sem 𝓛 (lends_items T.row CAP.row B.row self.entry result.name) }
    {
        IterMut::from_loan(self.lend_between(0, 0))
    }

    /// Returns an iterator over mutable references to the items of a range, from both ends.
    /// Requires a range that is in order and ends within the list.
    ///
    /// Whatever is written, the deque holds as many items as before, and those outside the range
    /// are as they were.
    ///
    /// Start: stays. Steps: 2 lends.
    ///
    /// ```
    /// let mut deque = ArrayDeque::<i64, 4, Saturating>::new(alloc)?;
    /// deque.extend_back([1, 2, 3, 4]);
    /// assert!(rt; deque.len() == 4);
    /// for item in deque.range_mut(1..3) {
    ///     *item = 0;
    /// }
    /// assert!(rt; deque.into_vec()?.as_slice() == [1, 0, 0, 4].as_slice());
    /// ```
    pub fn range_mut<R: RangeArgument<usize>>(&mut self, range: R) -> IterMut<'_, T>
    where
        R: Drop,
        requires { IsRangeOf R.RangeArgument range self.old.items }
        ensures value { let span = span_of R.RangeArgument range self.old.items in
            remaining result ≡ slice_range self.old.items span.from span.to }

        // Whatever is written, the range keeps its length and the others stay. 2 lends are counted.
        ensures* writes_back { let span = span_of R.RangeArgument range self.old.items in
            sem 𝓛 (lends_part T.row CAP.row B.row self.entry
            span.from (span.to - span.from) result.name) }
    {
        let from = range.start().unwrap_or(0);
        let to = range.end().unwrap_or(self.len());
        let behind = self.len() - to;
        IterMut::from_loan(self.lend_between(from, behind))
    }

    /// Returns the items in two slices: those from the front to the region's end, and the rest,
    /// from the region's first place on. If all lie in one piece, the second is empty.
    ///
    /// ```
    /// let mut deque = ArrayDeque::<i64, 3, Saturating>::new(alloc)?;
    /// deque.extend_back([1, 2, 3]);
    /// // 4 is put into the place that 1 has left, which is the region's first.
    /// assert!(rt; (deque.pop_front(), deque.push_back(4)) == (Some(1), Ok(())));
    /// let (front, rest) = deque.as_slices();
    /// assert!(rt; (front, rest) == ([2, 3].as_slice(), [4].as_slice()));
    /// ```
    #[inline]
    pub fn as_slices(&self) -> (&[T], &[T])
        ensures joined { result.0.now ++ result.1.now ≡ self.now.items }
        ensures cut { length result.0.now ≡
            min (length self.now.items) (CAP - self.now.start) }
        ensures within { length self.now.items ≤ CAP }
        ensures one_piece { IsInOnePiece (as_ring CAP self.now) → result.1.now ≡ [] }
    {
        self.ring.as_slices()
    }

    /// Returns the items in one slice. Requires a list in one piece, as [`ArrayDeque::linearize`]
    /// leaves it.
    ///
    /// ```
    /// let mut deque = ArrayDeque::<i64, 3, Saturating>::new(alloc)?;
    /// deque.extend_back([3, 1]);
    /// deque.extend_front([2]);
    /// deque.linearize();
    /// assert!(rt; deque.as_slice() == [2, 3, 1].as_slice());
    /// ```
    #[inline]
    pub fn as_slice(&self) -> &[T]
        requires { IsInOnePiece (as_ring CAP self.now) }
        ensures value { result.now ≡ self.now.items }
        ensures within { length self.now.items ≤ CAP }
    {
        self.ring.as_slice()
    }

    /// Returns the items in two mutable slices: those from the front to the region's end, and the
    /// rest, from the region's first place on. If all lie in one piece, the second is empty.
    ///
    /// Whatever is written, the deque holds as many items as before, and they start where they did.
    /// If your proof needs that, call `iter_mut().into_slices()`: the prover follows one loan by
    /// its name, but not a pair of slices.
    ///
    /// Start: stays. Steps: 2 lends.
    ///
    /// ```
    /// let mut deque = ArrayDeque::<i64, 3, Saturating>::new(alloc)?;
    /// deque.extend_back([2, 3]);
    /// deque.extend_front([1]);
    /// let (_front, rest) = deque.as_mut_slices();
    /// rest.fill(0);
    /// assert!(rt; deque.into_vec()?.as_slice() == [1, 0, 0].as_slice());
    /// ```
    #[inline]
    pub fn as_mut_slices(&mut self) -> (&mut [T], &mut [T])
        // For a proof by hand: the items end as they were last written, with 2 lends counted.
        // Otherwise call `for_each_mut` or `first_slice_mut`.
        ensures* writes_back { sem 𝓛 (lends_slices T.row CAP.row B.row self.entry result) }

        // What is lent.
        ensures joined { result.0.now ++ result.1.now ≡ self.old.items }
        ensures cut { length result.0.now ≡
            min (length self.old.items) (CAP - self.old.start) }
        ensures one_piece { IsInOnePiece (as_ring CAP self.old) → result.1.now ≡ [] }
    {
        self.lend(0, 0).into_slices()
    }

    /// Returns the items for writing in one slice. Requires a list in one piece, as
    /// [`ArrayDeque::linearize`] leaves it.
    ///
    /// The list afterwards is what was written.
    ///
    /// Start: stays. Steps: 1 lend.
    ///
    /// ```
    /// let mut deque = ArrayDeque::<i64, 3, Saturating>::new(alloc)?;
    /// deque.extend_back([3, 1]);
    /// deque.extend_front([2]);
    /// deque.linearize();
    /// deque.as_mut_slice().sort(alloc)?;
    /// assert!(rt; deque.into_vec()?.as_slice() == [1, 2, 3].as_slice());
    /// ```
    #[inline]
    pub fn as_mut_slice(&mut self) -> &mut [T]
        requires { IsInOnePiece (as_ring CAP self.old) }
        ensures value { result.now ≡ self.old.items }

        // The list ends as it was last written, with 1 lend counted.
        ensures* writes_back { sem 𝓛 (lends_list T.row CAP.row B.row self.entry result) }
        // Whatever list `ws` of as many items was written, that is the list then.
        ensures same_len { (ws : List T) → length ws ≡ length self.old.items
            → refill (length self.old.items) self.old.items ws ≡ ws }
    {
        let ring = &mut self.ring;
        ring.as_mut_slice()
    }

    /// Lends the items for writing, except for the first `before` and the last `behind`, as one
    /// loan of two slices. Its clause says what the deque follows, and also what the loan's name
    /// follows, which [`ArrayDeque::as_mut_slices`] needs.
    #[inline]
    fn lend(&mut self, before: usize, behind: usize) -> Loan<'_, T>
        requires { before + behind ≤ length self.old.items }
        ensures* writes_back { let len = length self.old.items - before - behind in
            sem 𝓛 (lends_loan T.row CAP.row B.row self.entry before len result) }
        ensures value { let len = length self.old.items - before - behind in
            remaining result ≡ take len (drop before self.old.items) }
        ensures cut { let len = length self.old.items - before - behind in
            length result.first.now ≡
            min len (CAP - place_from self.old.start before CAP) }
        ensures one_piece { IsInOnePiece (as_ring CAP self.old) → result.second.now ≡ [] }
    {
        let ring = &mut self.ring;
        ring.lend(before, behind)
    }

    /// Does what [`ArrayDeque::lend`] does, but says only what the loan's name tells.
    #[inline]
    fn lend_between(&mut self, before: usize, behind: usize) -> Loan<'_, T>
        requires { before + behind ≤ length self.old.items }
        ensures* writes_back { let len = length self.old.items - before - behind in
            sem 𝓛 (lends_part T.row CAP.row B.row self.entry before len result.name) }
        ensures value { let len = length self.old.items - before - behind in
            remaining result ≡ take len (drop before self.old.items) }
    {
        self.lend(before, behind)
    }
}
