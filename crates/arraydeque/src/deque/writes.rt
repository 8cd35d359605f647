//! Items that are written in place: all or a part by a closure, or those of one of the two slices.
ghost use Rattle.std.specs.Prelude.{◌≡◌, ◌-◌, ◌≤◌, length, map, take, drop, slice_range};
ghost use Rattle.std.specs.Borrow.{sem};
ghost use Rattle.std.specs.List.{splice};
ghost use Rattle.arraydeque_ring.specs.Computed.{Changes};
ghost use Rattle.arraydeque_ring.specs.Steps.{more_lends};
ghost use Rattle.arraydeque_ring.specs.Written.{MayWriteEach, WritesAt, WrittenInTurn, WrittenPart};
ghost use Rattle.arraydeque.specs.DequeLends.{lends_first, lends_rest};
ghost use Rattle.arraydeque.specs.Range.{IsRangeOf, span_of};

use super::ArrayDeque;
use crate::behavior::Behavior;
use crate::range::RangeArgument;

impl<T, const CAP: usize, B: Behavior> ArrayDeque<T, CAP, B> {
    /// Calls `f` on each item in turn, front to back, for writing. The list ends as `f` left its
    /// items.
    ///
    /// Start: stays. Steps: 2 lends.
    ///
    /// ```
    /// let mut deque = ArrayDeque::<i64, 3, Saturating>::new(alloc)?;
    /// deque.extend_back([1, 2, 3]);
    /// deque.for_each_mut(|item| *item = item.saturating_mul(2));
    /// assert!(rt; deque.into_vec()?.as_slice() == [2, 4, 6].as_slice());
    /// ```
    #[inline]
    pub fn for_each_mut<F: FnMut(&mut T)>(&mut self, f: F)
    where
        F: Drop,
        requires { MayWriteEach F.FnMut f self.old.items }

        // If `f` computes a change, each item is changed so. Whatever `f` writes, it stays written.
        ensures changed { (change : T → T) → Changes F.FnMut change f
            → self.new.items ≡ map change self.old.items }
        ensures in_turn { WrittenInTurn (WritesAt F.FnMut) f self.old.items self.new.items }

        // Where the list lies, and what it cost.
        ensures start { self.new.start ≡ self.old.start }
        ensures steps { self.new.steps ≡ more_lends 2 self.old.steps }

        // The list keeps its length, and always fits.
        ensures len { length self.new.items ≡ length self.old.items }
        ensures within { length self.new.items ≤ CAP }
    {
        self.ring.for_each_mut(f);
    }

    /// Calls `f` on each item of a range in turn, front to back, for writing. The other items stay
    /// as they were. Requires a range that is in order and ends within the list.
    ///
    /// Start: stays. Steps: 2 lends.
    ///
    /// ```
    /// let mut deque = ArrayDeque::<i64, 4, Saturating>::new(alloc)?;
    /// deque.extend_back([1, 2, 3, 4]);
    /// assert!(rt; deque.len() == 4);
    /// deque.for_each_mut_in(1..3, |item| *item = item.saturating_mul(2));
    /// assert!(rt; deque.into_vec()?.as_slice() == [1, 4, 6, 4].as_slice());
    /// ```
    #[inline]
    pub fn for_each_mut_in<R: RangeArgument<usize>, F: FnMut(&mut T)>(&mut self, range: R, f: F)
    where
        R: Drop,
        F: Drop,
        requires in_range { IsRangeOf R.RangeArgument range self.old.items }
        requires may_write { let span = span_of R.RangeArgument range self.old.items in
            MayWriteEach F.FnMut f (slice_range self.old.items span.from span.to) }

        // If `f` computes a change, each item of the range is changed so. Whatever `f` writes, it
        // stays written.
        ensures changed { let span = span_of R.RangeArgument range self.old.items in
            (change : T → T) → Changes F.FnMut change f
            → self.new.items ≡ splice self.old.items span.from span.to
            (map change (slice_range self.old.items span.from span.to)) }
        ensures in_turn { let span = span_of R.RangeArgument range self.old.items in
            WrittenPart (WritesAt F.FnMut) f span.from span.to self.old.items self.new.items }

        // Where the list lies, and what it cost.
        ensures start { self.new.start ≡ self.old.start }
        ensures steps { self.new.steps ≡ more_lends 2 self.old.steps }

        // The list keeps its length, and always fits.
        ensures len { length self.new.items ≡ length self.old.items }
        ensures within { length self.new.items ≤ CAP }
    {
        let from = range.start().unwrap_or(0);
        let to = range.end().unwrap_or(self.len());
        self.ring.for_each_mut_in(from, to, f);
    }

    /// Returns the first of the two slices of [`ArrayDeque::as_slices`], for writing. It has the
    /// items from the front to the region's end. They end as they were written.
    ///
    /// Start: stays. Steps: 1 lend.
    ///
    /// ```
    /// let mut deque = ArrayDeque::<i64, 3, Saturating>::new(alloc)?;
    /// deque.extend_back([2, 3]);
    /// deque.extend_front([1]);
    /// deque.first_slice_mut().fill(0);
    /// assert!(rt; deque.into_vec()?.as_slice() == [0, 2, 3].as_slice());
    /// ```
    #[inline]
    pub fn first_slice_mut(&mut self) -> &mut [T]
        ensures value { result.now ≡ take (CAP - self.old.start) self.old.items }

        // Its items end as they were last written, with 1 lend counted, and the others stay.
        ensures* writes_back { sem 𝓛 (lends_first T.row CAP.row B.row self.entry result) }
    {
        let ring = &mut self.ring;
        ring.first_slice_mut()
    }

    /// Returns the second of the two slices of [`ArrayDeque::as_slices`], for writing. It has the
    /// other items, from the region's first place on. They end as they were written.
    ///
    /// Start: stays. Steps: 1 lend.
    ///
    /// ```
    /// let mut deque = ArrayDeque::<i64, 3, Saturating>::new(alloc)?;
    /// deque.extend_back([2, 3]);
    /// deque.extend_front([1]);
    /// deque.second_slice_mut().fill(0);
    /// assert!(rt; deque.into_vec()?.as_slice() == [1, 0, 0].as_slice());
    /// ```
    #[inline]
    pub fn second_slice_mut(&mut self) -> &mut [T]
        ensures value { result.now ≡ drop (CAP - self.old.start) self.old.items }

        // Its items end as they were last written, with 1 lend counted, and the others stay.
        ensures* writes_back { sem 𝓛 (lends_rest T.row CAP.row B.row self.entry result) }
    {
        let ring = &mut self.ring;
        ring.second_slice_mut()
    }
}
