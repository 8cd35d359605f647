//! Another length: drops all items, those at one end or those of a range, or puts copies behind.
ghost use Rattle.std.specs.Prelude.{◌≡◌, ◌+◌, ◌-◌, ◌≤◌, ◌++◌, [], length, take, drop, replicate};
ghost use Rattle.std.specs.List.{remove_range};
ghost use Rattle.arraydeque_ring.specs.Changed.{DrainMovesFewest};
ghost use Rattle.arraydeque_ring.specs.Ring.{rotated, up_by};
ghost use Rattle.arraydeque_ring.specs.Runs.{run_emptied, IsFilledRun};
ghost use Rattle.arraydeque_ring.specs.Sides.{moves_to_drain, start_closed};
ghost use Rattle.arraydeque_ring.specs.Steps.{more_moves, more_puts, more_takes};

use super::Ring;
use super::moves::close_gap;
use crate::slots::Slots;
use crate::wrap::wrap_add;

impl<T> Ring<T> {
    /// Drops every item, front to back. The region stays, and the list starts at its first place.
    ///
    /// ```
    /// let mut ring = Ring::from_slice(alloc, 4, &[1, 2, 3])?;
    /// ring.clear();
    /// assert!(rt; (ring.len(), ring.capacity()) == (0, 4));
    /// ```
    #[tactic(auto, using(crate::proofs::Opened::drop_facts))]
    pub fn clear(&mut self)
    where
        T: Drop,
        ensures { self.new ≡ record self.old {
          items = [];
          start = 0;
          steps = more_takes (length self.old.items) self.old.steps;
        } }
    {
        drop_round(&mut self.slots, self.start, 0, self.len);
        self.start = 0;
        self.len = 0;
    }

    /// Keeps the first `len` items, or all if there are no more. The others are dropped, front to
    /// back. No item moves.
    ///
    /// ```
    /// let mut ring = Ring::from_slice(alloc, 4, &[1, 2, 3])?;
    /// ring.truncate(2);
    /// assert!(rt; IntoIter::from_ring(ring).eq([1, 2]));
    /// ```
    #[tactic(auto, using(crate::proofs::Opened::drop_facts))]
    pub fn truncate(&mut self, len: usize)
    where
        T: Drop,
        ensures { self.new ≡ record self.old {
          items = take len self.old.items;
          steps = more_takes (length self.old.items - len) self.old.steps;
        } }
    {
        if self.len <= len {
            return;
        }
        drop_round(&mut self.slots, self.start, len, self.len - len);
        self.len = len;
    }

    /// Makes the list `len` items long: it keeps the first `len`, or it keeps all and puts copies
    /// of `value` behind them. The others are dropped, front to back. No item moves. Requires a
    /// length up to the capacity.
    ///
    /// ```
    /// let mut ring = Ring::from_slice(alloc, 4, &[1, 2])?;
    /// ring.resize(4, 7);
    /// ring.resize(3, 8);
    /// assert!(rt; IntoIter::from_ring(ring).eq([1, 2, 7]));
    /// ```
    #[tactic(auto, using(crate::proofs::Opened::copy_facts))]
    pub fn resize(&mut self, len: usize, value: T)
    where
        T: Copy,
        requires { len ≤ self.old.capacity }
        ensures { let more = len - length self.old.items in self.new ≡ record self.old {
          items = take len self.old.items ++ replicate more value;
          steps = more_puts more (more_takes (length self.old.items - len) self.old.steps);
        } }
    {
        if len <= self.len {
            self.truncate(len);
        } else {
            self.repeat_back(len - self.len, value);
        }
    }

    /// Keeps the last `len` items, or all if there are no more. The others are dropped, front to
    /// back. The start goes up by as many places, and no item moves.
    ///
    /// ```
    /// let mut ring = Ring::from_slice(alloc, 4, &[1, 2, 3])?;
    /// ring.truncate_front(2);
    /// assert!(rt; IntoIter::from_ring(ring).eq([2, 3]));
    /// ```
    #[tactic(auto, using(crate::proofs::Opened::drop_facts))]
    pub fn truncate_front(&mut self, len: usize)
    where
        T: Drop,
        ensures { let gone = length self.old.items - len in self.new ≡ record self.old {
          items = drop gone self.old.items;
          start = up_by gone self.old.start self.old.capacity;
          steps = more_takes gone self.old.steps;
        } }
    {
        if self.len <= len {
            return;
        }
        let gone = self.len - len;
        let capacity = self.slots.capacity();
        drop_round(&mut self.slots, self.start, 0, gone);
        self.start = wrap_add(self.start, gone, capacity);
        self.len -= gone;
    }

    /// Drops the items of the range `from..to`, front to back. Requires a range that is in order
    /// and ends within the list.
    ///
    /// The gap is closed as `drain` closes it. No memory is taken, so the call never fails.
    ///
    /// ```
    /// let mut ring = Ring::from_slice(alloc, 4, &[1, 2, 3, 4])?;
    /// ring.remove_range(1, 3);
    /// assert!(rt; IntoIter::from_ring(ring).eq([1, 4]));
    /// ```
    #[tactic(auto, using(crate::proofs::Opened::drop_facts))]
    pub fn remove_range(&mut self, from: usize, to: usize)
    where
        T: Drop,
        requires in_order { from ≤ to }
        requires in_bounds { to ≤ length self.old.items }
        ensures items { self.new.items ≡ remove_range self.old.items from to }
        ensures capacity { self.new.capacity ≡ self.old.capacity }
        ensures start { self.new.start ≡ start_closed from (to - from) self.old }
        ensures steps { self.new.steps ≡
            more_moves (moves_to_drain from to (length self.old.items))
            (more_takes (to - from) self.old.steps) }
        ensures fewest { DrainMovesFewest from to self.old self.new.start }
    {
        let count = to - from;
        let left = self.len - count;
        if count == 0 {
            return;
        }
        drop_round(&mut self.slots, self.start, from, count);
        self.len = left;
        self.start = close_gap(&mut self.slots, self.start, from, count, left - from);
    }

    /// Adds `count` copies of a value at the back. Requires room for all.
    #[tactic(auto, using(crate::proofs::Opened::piece_facts))]
    #[inline]
    fn repeat_back(&mut self, count: usize, value: T)
    where
        T: Copy,
        requires { length self.old.items + count ≤ self.old.capacity }
        ensures { self.new ≡ record self.old {
          items = self.old.items ++ replicate count value;
          steps = more_puts count self.old.steps;
        } }
    {
        if count == 0 {
            return;
        }
        let capacity = self.slots.capacity();
        let behind = wrap_add(self.start, self.len, capacity);
        let first = count.min(capacity - behind);
        let slots = self.slots.move_out();
        let slots = slots.put_same(behind, first, value);
        self.slots = slots.put_same(0, count - first, value);
        self.len += count;
    }
}

/// Drops the `len` values from the index `at` on, in order. Indexes are counted from the place
/// `start` on, round the end.
fn drop_round<T: Drop>(slots: &mut Slots<T>, start: usize, at: usize, len: usize)
    requires in_region { start ≤ length slots.old.places - 1 }
    requires filled { IsFilledRun (rotated start slots.old.places) at len }
    ensures places { rotated start slots.new.places ≡
        run_emptied at len (rotated start slots.old.places) }
    ensures steps { slots.new.steps ≡ more_takes len slots.old.steps }
{
    if len == 0 {
        return;
    }
    let capacity = slots.capacity();
    let place = wrap_add(start, at, capacity);
    let first = len.min(capacity - place);
    drop_run(slots, place, first);
    drop_run(slots, 0, len - first);
}

/// Drops the values in the `len` places from `from` on, in order.
fn drop_run<T: Drop>(slots: &mut Slots<T>, from: usize, len: usize)
    requires { IsFilledRun slots.old.places from len }
    ensures places { slots.new.places ≡ run_emptied from len slots.old.places }
    ensures steps { slots.new.steps ≡ more_takes len slots.old.steps }
{
    let _fits = slots.capacity();
    for place in from..from + len {
        drop(slots.take(place));
    }
}
