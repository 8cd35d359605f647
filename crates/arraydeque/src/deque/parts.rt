//! Taking a range out of a deque, cutting one in two, and joining two.
ghost use Rattle.std.specs.Prelude.{◌≡◌, ◌-◌, ◌*◌, ◌<◌, ◌≤◌, ◌++◌, [], length, take, drop, min, IfOk, OnOk, OnErr};
ghost use Rattle.std.specs.Map.Iter.{GivesInOrder, GivesInReverse};
ghost use Rattle.std.specs.Mem.{type_size};
ghost use Rattle.arraydeque_ring.specs.Ring.{up_by};
ghost use Rattle.arraydeque_ring.specs.Steps.{no_steps, more_puts, more_takes};
ghost use Rattle.arraydeque.specs.Deque.{keep_last};
ghost use Rattle.arraydeque.specs.Range.{IsDrained, IsRangeOf, span_of};

use super::ArrayDeque;
use crate::behavior::{Behavior, Saturating, Wrapping};
use crate::iter::Drain;
use crate::range::RangeArgument;
use std::alloc::AllocError;

impl<T, const CAP: usize, B: Behavior> ArrayDeque<T, CAP, B> {
    /// Removes the items of a range, and returns them in a [`Drain`], which owns them in a region
    /// of its own, with a place for each. Requires a range that is in order and ends within the
    /// list.
    ///
    /// The deque has no gap when the call returns: the items before the range or those behind it
    /// have moved, whichever are fewer, and on a tie the latter. For an empty range no item moves.
    /// Fails only if memory is refused; then nothing has changed. An empty range, or items of size
    /// zero, take no memory.
    ///
    /// Start: 1 up for each item of the range if fewer items are before it than behind it,
    /// otherwise stays.
    /// Steps: 1 take for each item of the range, 1 move for each item that moves.
    ///
    /// ```
    /// let mut deque = ArrayDeque::<i64, 5, Saturating>::new(alloc)?;
    /// deque.extend_back([0, 1, 2, 3, 4]);
    /// assert!(rt; deque.len() == 5);
    /// let mut drained = deque.drain(1..3)?;
    /// assert!(rt; (drained.next(), deque.len()) == (Some(1), 3));
    /// assert!(rt; deque.into_vec()?.as_slice() == [0, 3, 4].as_slice());
    /// ```
    ///
    /// The `Drain` drops the items that are not taken from it.
    ///
    /// ```
    /// let mut deque = ArrayDeque::<i64, 3, Saturating>::new(alloc)?;
    /// deque.extend_back([1, 2, 3]);
    /// let mut drained = deque.drain(..)?;
    /// assert!(rt; (drained.next_back(), deque.len()) == (Some(3), 0));
    /// let rest: Vec<i64> = drained.collect(alloc)?;
    /// assert!(rt; rest.as_slice() == [1, 2].as_slice());
    /// ```
    pub fn drain<R: RangeArgument<usize>>(&mut self, range: R) -> Result<Drain<T>, AllocError>
    where
        R: Drop,
        requires { IsRangeOf R.RangeArgument range self.old.items }

        // If memory is granted, the items of the range are the drain's, and the gap is closed.
        ensures drains { let span = span_of R.RangeArgument range self.old.items in
            IfOk result (λ drained. IsDrained CAP span.from span.to self.old drained self.new) }

        // If memory is refused, nothing changes.
        ensures unchanged { OnErr result (self.new ≡ self.old) }
        ensures refused { let span = span_of R.RangeArgument range self.old.items in
            OnErr result (0 < (span.to - span.from) * type_size T.row) }

        // What loops over a drain are given, from either end. The list always fits.
        ensures runs { GivesInOrder T }
        ensures runs_back { GivesInReverse T }
        ensures within { length self.new.items ≤ CAP }
    {
        let from = range.start().unwrap_or(0);
        let to = range.end().unwrap_or(self.len());
        let ring = self.ring.drain(from, to)?;
        Ok(Drain::from_ring(ring))
    }

    /// Removes the items from an index on, and returns them in a deque of the same capacity and
    /// policy. Requires an index up to the length.
    ///
    /// No kept item moves. Fails only if memory is refused; then nothing has changed. At capacity 0
    /// or for items of size zero it never fails.
    ///
    /// Start: stays.
    /// Steps: 1 take for each removed item. The new deque starts at 0, with 1 put for each item.
    ///
    /// ```
    /// let mut deque = ArrayDeque::<i64, 3, Saturating>::new(alloc)?;
    /// deque.extend_back([1, 2, 3]);
    /// assert!(rt; deque.len() == 3);
    /// let rest = deque.split_off(1)?;
    /// assert!(rt; (deque.len(), rest.capacity()) == (1, 3));
    /// assert!(rt; rest.into_vec()?.as_slice() == [2, 3].as_slice());
    /// ```
    pub fn split_off(&mut self, at: usize) -> Result<Self, AllocError>
        requires { at ≤ length self.old.items }

        // If memory is granted, the items from the index on are the new deque's.
        ensures tail { IfOk result (λ tail. tail ≡ record {
          items = drop at self.old.items;
          start = 0;
          steps = more_puts (length self.old.items - at) no_steps;
        }) }
        ensures items { OnOk result (self.new.items ≡ take at self.old.items) }
        ensures start { self.new.start ≡ self.old.start }
        ensures steps { OnOk result (self.new.steps ≡
            more_takes (length self.old.items - at) self.old.steps) }

        // If memory is refused, nothing changes.
        ensures unchanged { OnErr result (self.new ≡ self.old) }
        ensures refused { OnErr result (0 < CAP * type_size T.row) }

        // The list always fits.
        ensures within { length self.new.items ≤ CAP }
    {
        let ring = self.ring.split_off(at)?;
        Ok(Self::from_ring(ring))
    }
}

impl<T, const CAP: usize> ArrayDeque<T, CAP, Saturating> {
    /// Takes the first items of another deque behind the last of this one, as many as there is room
    /// for. The others stay there. No memory is taken, and no item that stays moves.
    ///
    /// Start: stays.
    /// Steps: 1 put for each item taken. The start of the other deque moves 1 up for each of these,
    /// with 1 take.
    ///
    /// ```
    /// let mut deque = ArrayDeque::<i64, 3, Saturating>::new(alloc)?;
    /// deque.extend_back([1, 2]);
    /// let mut other = ArrayDeque::<i64, 5, Wrapping>::new(alloc)?;
    /// other.extend_back([3, 4]);
    /// deque.append(&mut other);
    /// assert!(rt; deque.into_vec()?.as_slice() == [1, 2, 3].as_slice());
    /// assert!(rt; other.into_vec()?.as_slice() == [4].as_slice());
    /// ```
    pub fn append<const N: usize, P: Behavior>(&mut self, other: &mut ArrayDeque<T, N, P>)
        // As many of the other deque as there is room for come over, and the others stay.
        ensures items { let room = CAP - length self.old.items in
            self.new.items ≡ self.old.items ++ take room other.old.items }
        ensures other_items { let room = CAP - length self.old.items in
            other.new.items ≡ drop room other.old.items }

        // Where the two lists lie, and what it cost.
        ensures start { self.new.start ≡ self.old.start }
        ensures steps { let room = CAP - length self.old.items in
            self.new.steps ≡ more_puts (min (length other.old.items) room) self.old.steps }
        ensures other_start { let room = CAP - length self.old.items in
            other.new.start ≡ up_by (min (length other.old.items) room) other.old.start N }
        ensures other_steps { let room = CAP - length self.old.items in
            other.new.steps ≡ more_takes (min (length other.old.items) room) other.old.steps }

        // No item is lost, and the list always fits.
        ensures conserved { self.new.items ++ other.new.items ≡ self.old.items ++ other.old.items }
        ensures within { length self.new.items ≤ CAP }
    {
        let room = CAP - self.len();
        let len = other.len().min(room);
        self.ring.append(&mut other.ring, len);
    }
}

impl<T: Drop, const CAP: usize> ArrayDeque<T, CAP, Wrapping> {
    /// Takes all items of another deque behind the last one, and keeps the last `CAP` of both. The
    /// others are dropped, front to back. No memory is taken, and no item that stays moves.
    ///
    /// If the other deque has more than `CAP` items, there are fewer steps than pushes would make.
    ///
    /// Start: 1 up for each item of this deque that is dropped.
    /// Steps: 1 take for each of these, 1 put for each item of the other deque that is kept. The
    /// start of the other deque moves 1 up for each of its items, with 1 take.
    ///
    /// ```
    /// let mut deque = ArrayDeque::<i64, 3, Wrapping>::new(alloc)?;
    /// deque.extend_back([1, 2]);
    /// let mut other = ArrayDeque::<i64, 5, Saturating>::new(alloc)?;
    /// other.extend_back([3, 4]);
    /// deque.append(&mut other);
    /// assert!(rt; deque.into_vec()?.as_slice() == [2, 3, 4].as_slice());
    /// assert!(rt; other.is_empty());
    /// ```
    #[tactic(auto, using(crate::proofs::KeepLast::append_rules))]
    pub fn append<const N: usize, P: Behavior>(&mut self, other: &mut ArrayDeque<T, N, P>)
        // All items of the other deque come over, and the last `CAP` of both stay.
        ensures items { self.new.items ≡ keep_last CAP (self.old.items ++ other.old.items) }
        ensures other_items { other.new.items ≡ [] }

        // Where the two lists lie, and what it cost.
        ensures start { let gone = length self.old.items - (CAP - length other.old.items) in
            self.new.start ≡ up_by gone self.old.start CAP }
        ensures steps { let gone = length self.old.items - (CAP - length other.old.items) in
            self.new.steps ≡
            more_puts (min (length other.old.items) CAP) (more_takes gone self.old.steps) }
        ensures other_start { other.new.start ≡ up_by (length other.old.items) other.old.start N }
        ensures other_steps { other.new.steps ≡
            more_takes (length other.old.items) other.old.steps }

        // The list always fits.
        ensures within { length self.new.items ≤ CAP }
    {
        let len = other.len().min(CAP);
        self.truncate_front(CAP - len);
        other.truncate_front(len);
        self.ring.append(&mut other.ring, len);
    }
}
