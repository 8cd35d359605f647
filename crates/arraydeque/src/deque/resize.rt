//! Another length: drops all items, those at one end or those of a range, or puts copies behind.
ghost use Rattle.std.specs.Prelude.{◌≡◌, ◌-◌, ◌≤◌, ◌++◌, [], length, take, replicate};
ghost use Rattle.std.specs.List.{remove_range};
ghost use Rattle.arraydeque_ring.specs.Changed.{DrainMovesFewest};
ghost use Rattle.arraydeque_ring.specs.Ring.{up_by};
ghost use Rattle.arraydeque_ring.specs.Sides.{moves_to_drain, start_closed};
ghost use Rattle.arraydeque_ring.specs.Steps.{more_moves, more_puts, more_takes};
ghost use Rattle.arraydeque.specs.Deque.{as_ring, keep_last};
ghost use Rattle.arraydeque.specs.Range.{IsRangeOf, span_of};

use super::ArrayDeque;
use crate::behavior::Behavior;
use crate::range::RangeArgument;

impl<T, const CAP: usize, B: Behavior> ArrayDeque<T, CAP, B> {
    /// Drops every item, front to back. The region stays.
    ///
    /// Start: 0. Steps: 1 take for each item.
    ///
    /// ```
    /// let mut deque = ArrayDeque::<i64, 2, Saturating>::new(alloc)?;
    /// deque.extend_back([1, 2]);
    /// deque.clear();
    /// assert!(rt; deque.is_empty());
    /// assert!(rt; deque.push_back(3) == Ok(()));
    /// ```
    pub fn clear(&mut self)
    where
        T: Drop,
        ensures { self.new ≡ record {
          items = [];
          start = 0;
          steps = more_takes (length self.old.items) self.old.steps;
        } }
    {
        self.ring.clear();
    }

    /// Keeps the first `len` items, or all if there are no more. The others are dropped, front to
    /// back. No item moves.
    ///
    /// Start: stays. Steps: 1 take for each item dropped.
    ///
    /// ```
    /// let mut deque = ArrayDeque::<i64, 3, Saturating>::new(alloc)?;
    /// deque.extend_back([1, 2, 3]);
    /// deque.truncate(2);
    /// assert!(rt; deque.into_vec()?.as_slice() == [1, 2].as_slice());
    /// ```
    pub fn truncate(&mut self, len: usize)
    where
        T: Drop,
        ensures items { self.new.items ≡ take len self.old.items }
        ensures within { length self.new.items ≤ CAP }
        ensures start { self.new.start ≡ self.old.start }
        ensures steps { self.new.steps ≡ more_takes (length self.old.items - len) self.old.steps }
    {
        self.ring.truncate(len);
    }

    /// Makes the list `len` items long: it keeps the first `len`, or it keeps all and puts copies
    /// of `value` behind them. The others are dropped, front to back. No item moves, and no memory
    /// is taken. Requires a length up to `CAP`.
    ///
    /// Start: stays. Steps: 1 take for each item dropped, 1 put for each copy.
    ///
    /// ```
    /// let mut deque = ArrayDeque::<i64, 4, Saturating>::new(alloc)?;
    /// deque.extend_back([1, 2]);
    /// deque.resize(4, 7);
    /// assert!(rt; (deque.len(), deque.back()) == (4, Some(&7)));
    /// deque.resize(1, 7);
    /// assert!(rt; deque.into_vec()?.as_slice() == [1].as_slice());
    /// ```
    pub fn resize(&mut self, len: usize, value: T)
    where
        T: Copy,
        requires { len ≤ CAP }
        ensures items { self.new.items ≡
            take len self.old.items ++ replicate (len - length self.old.items) value }
        ensures len { length self.new.items ≡ len }
        ensures within { length self.new.items ≤ CAP }
        ensures start { self.new.start ≡ self.old.start }
        ensures steps { self.new.steps ≡ more_puts (len - length self.old.items)
            (more_takes (length self.old.items - len) self.old.steps) }
    {
        self.ring.resize(len, value);
    }

    /// Drops the items of a range, front to back. Requires a range that is in order and ends within
    /// the list.
    ///
    /// The gap is closed as `drain` closes it. No memory is taken, so the call never fails.
    ///
    /// Start: 1 up for each item of the range if fewer items are before it than behind it,
    /// otherwise stays.
    /// Steps: 1 take for each item of the range, 1 move for each item that moves.
    ///
    /// ```
    /// let mut deque = ArrayDeque::<i64, 5, Saturating>::new(alloc)?;
    /// deque.extend_back([0, 1, 2, 3, 4]);
    /// assert!(rt; deque.len() == 5);
    /// deque.remove_range(1..3);
    /// assert!(rt; deque.into_vec()?.as_slice() == [0, 3, 4].as_slice());
    /// ```
    pub fn remove_range<R: RangeArgument<usize>>(&mut self, range: R)
    where
        T: Drop,
        R: Drop,
        requires { IsRangeOf R.RangeArgument range self.old.items }
        ensures items { let span = span_of R.RangeArgument range self.old.items in
            self.new.items ≡ remove_range self.old.items span.from span.to }
        ensures within { length self.new.items ≤ CAP }

        // Where the list lies, and what it cost.
        ensures start { let span = span_of R.RangeArgument range self.old.items in
            self.new.start ≡ start_closed span.from (span.to - span.from) (as_ring CAP self.old) }
        ensures steps { let span = span_of R.RangeArgument range self.old.items in
            self.new.steps ≡ more_moves (moves_to_drain span.from span.to (length self.old.items))
            (more_takes (span.to - span.from) self.old.steps) }
        ensures fewest { let span = span_of R.RangeArgument range self.old.items in
            DrainMovesFewest span.from span.to (as_ring CAP self.old) self.new.start }
    {
        let from = range.start().unwrap_or(0);
        let to = range.end().unwrap_or(self.len());
        self.ring.remove_range(from, to);
    }

    /// Keeps the last `len` items, or all if there are no more. The others are dropped, front to
    /// back. No item moves, and no memory is taken.
    ///
    /// Start: 1 up for each item dropped. Steps: 1 take for each.
    ///
    /// ```
    /// let mut deque = ArrayDeque::<i64, 3, Saturating>::new(alloc)?;
    /// deque.extend_back([1, 2, 3]);
    /// deque.truncate_front(2);
    /// assert!(rt; deque.into_vec()?.as_slice() == [2, 3].as_slice());
    /// ```
    pub fn truncate_front(&mut self, len: usize)
    where
        T: Drop,
        ensures items { self.new.items ≡ keep_last len self.old.items }
        ensures within { length self.new.items ≤ CAP }
        ensures start { self.new.start ≡ up_by (length self.old.items - len) self.old.start CAP }
        ensures steps { self.new.steps ≡ more_takes (length self.old.items - len) self.old.steps }
    {
        self.ring.truncate_front(len);
    }
}
