//! Taking a range out of a ring, cutting one in two, and joining two.
ghost use Rattle.std.specs.Prelude.{◌≡◌, ◌-◌, ◌+◌, ◌*◌, ◌<◌, ◌≤◌, ◌++◌, length, take, drop, slice_range, min, IfOk, OnOk, OnErr};
ghost use Rattle.std.specs.List.{remove_range};
ghost use Rattle.std.specs.Mem.{type_size};
ghost use Rattle.arraydeque_ring.specs.Ring.{place_of, rotated, up_by};
ghost use Rattle.arraydeque_ring.specs.Runs.{IsFilledRun, IsEmptyRun, run_emptied};
ghost use Rattle.arraydeque_ring.specs.Sides.{moves_to_drain, start_closed};
ghost use Rattle.arraydeque_ring.specs.Changed.{DrainMovesFewest};
ghost use Rattle.arraydeque_ring.specs.Steps.{no_steps, more_puts, more_takes, more_moves};

use super::Ring;
use super::moves::close_gap;
use crate::slots::Slots;
use crate::wrap::wrap_add;
use std::alloc::AllocError;

impl<T> Ring<T> {
    /// Removes the items of the range `from..to`, and returns them in a ring of their own with no
    /// place to spare. Requires a range that is in order and ends within the list.
    ///
    /// The ring has no gap when the call returns. The items before the range have moved, and the
    /// start with them, or else the items behind it: whichever are fewer, and on a tie the latter.
    /// For an empty range no item moves. The call fails only if memory is refused; then nothing has
    /// changed. An empty range, or items of size zero, take no memory. In a ring of 8 places:
    ///
    ///     place                 0 1 2 3 4 5 6 7
    ///     before, from 5 on     d e . . . a b c
    ///     without 1..3, from 7  d e . . . . . a
    ///     without 2..4, from 5  . . . . . a b e
    ///
    /// ```
    /// let mut ring = Ring::from_slice(alloc, 4, &[1, 2, 3, 4])?;
    /// let drained = ring.drain(1, 3)?;
    /// assert!(rt; IntoIter::from_ring(drained).eq([2, 3]));
    /// assert!(rt; IntoIter::from_ring(ring).eq([1, 4]));
    /// ```
    #[tactic(auto, using(crate::proofs::Opened::part_facts))]
    pub fn drain(&mut self, from: usize, to: usize) -> Result<Ring<T>, AllocError>
        requires in_order { from ≤ to }
        requires in_bounds { to ≤ length self.old.items }

        // If memory is granted, the items of the range are the new ring's, and the gap is closed.
        ensures drained { IfOk result (λ ring. ring ≡ record {
          items = slice_range self.old.items from to;
          capacity = to - from;
          start = 0;
          steps = more_puts (to - from) no_steps;
        }) }
        ensures items { OnOk result (self.new.items ≡ remove_range self.old.items from to) }
        ensures capacity { OnOk result (self.new.capacity ≡ self.old.capacity) }
        ensures start { OnOk result (self.new.start ≡ start_closed from (to - from) self.old) }
        ensures steps { OnOk result (self.new.steps ≡
            more_moves (moves_to_drain from to (length self.old.items))
            (more_takes (to - from) self.old.steps)) }
        ensures fewest { OnOk result (DrainMovesFewest from to self.old self.new.start) }

        // If memory is refused, nothing changes.
        ensures unchanged { OnErr result (self.new ≡ self.old) }
        ensures refused { OnErr result (0 < (to - from) * type_size T.row) }
    {
        let count = to - from;
        if count == 0 {
            let nothing = Ring::new(self.slots.alloc(), 0)?;
            return Ok(nothing);
        }
        let mut slots = Slots::new(self.slots.alloc(), count)?;
        take_round(&mut self.slots, self.start, from, count, &mut slots);
        self.len -= count;
        self.start = close_gap(&mut self.slots, self.start, from, count, self.len - from);
        Ok(Ring {
            slots,
            start: 0,
            len: count,
        })
    }

    /// Removes the items from the index `at` on, and returns them in a ring of the same capacity.
    /// Requires an index up to the length.
    ///
    /// No kept item moves. Fails only if memory is refused; then nothing has changed. At capacity 0
    /// or for items of size zero it never fails.
    ///
    /// ```
    /// let mut ring = Ring::from_slice(alloc, 4, &[1, 2, 3])?;
    /// let tail = ring.split_off(1)?;
    /// assert!(rt; tail.capacity() == 4);
    /// assert!(rt; IntoIter::from_ring(tail).eq([2, 3]));
    /// assert!(rt; IntoIter::from_ring(ring).eq([1]));
    /// ```
    #[tactic(auto, using(crate::proofs::Opened::part_facts))]
    pub fn split_off(&mut self, at: usize) -> Result<Ring<T>, AllocError>
        requires { at ≤ length self.old.items }

        // If memory is granted, the items from the index on are the new ring's.
        ensures tail { IfOk result (λ ring. ring ≡ record {
          items = drop at self.old.items;
          capacity = self.old.capacity;
          start = 0;
          steps = more_puts (length self.old.items - at) no_steps;
        }) }
        ensures kept { OnOk result (self.new ≡ record self.old {
          items = take at self.old.items;
          steps = more_takes (length self.old.items - at) self.old.steps;
        }) }

        // If memory is refused, nothing changes.
        ensures unchanged { OnErr result (self.new ≡ self.old) }
        ensures refused { OnErr result (0 < self.old.capacity * type_size T.row) }
    {
        let mut slots = Slots::new(self.slots.alloc(), self.slots.capacity())?;
        let len = self.len - at;
        take_round(&mut self.slots, self.start, at, len, &mut slots);
        self.len = at;
        Ok(Ring {
            slots,
            start: 0,
            len,
        })
    }

    /// Takes the first `len` items of another ring behind the last of this one. Requires room for
    /// them, and that the other ring has as many. They are taken in at most three runs, since
    /// either ring may wrap once.
    ///
    /// Start: stays.
    /// Steps: 1 put for each item that comes. The start of the other ring goes 1 up for each of
    /// these, with 1 take.
    ///
    /// ```
    /// let mut ring = Ring::from_slice(alloc, 4, &[1, 2])?;
    /// let mut other = Ring::from_slice(alloc, 3, &[3, 4, 5])?;
    /// ring.append(&mut other, 2);
    /// assert!(rt; IntoIter::from_ring(ring).eq([1, 2, 3, 4]));
    /// assert!(rt; IntoIter::from_ring(other).eq([5]));
    /// ```
    pub fn append(&mut self, other: &mut Ring<T>, len: usize)
        requires room { length self.old.items + len ≤ self.old.capacity }
        requires within { len ≤ length other.old.items }
        ensures here { self.new ≡ record self.old {
          items = self.old.items ++ take len other.old.items;
          steps = more_puts len self.old.steps;
        } }
        ensures there { other.new ≡ record other.old {
          items = drop len other.old.items;
          start = up_by len other.old.start other.old.capacity;
          steps = more_takes len other.old.steps;
        } }
    {
        let mut left = len;
        while 0 < left {
            left -= self.append_run(other, left);
        }
    }

    /// Takes the first items of another ring behind the last of this one, in one run: `len`, or as
    /// many as pass the end of neither region. Returns how many.
    #[tactic(auto, using(crate::proofs::Opened::join_facts))]
    fn append_run(&mut self, other: &mut Ring<T>, len: usize) -> usize
        requires some { 0 < len }
        requires room { length self.old.items + len ≤ self.old.capacity }
        requires within { len ≤ length other.old.items }
        ensures some { 0 < result }
        ensures count { let n = self.old.capacity in
            let place = place_of self.old.start (length self.old.items) n in
            result ≡ min len (min (n - place) (other.old.capacity - other.old.start)) }
        ensures here { self.new ≡ record self.old {
          items = self.old.items ++ take result other.old.items;
          steps = more_puts result self.old.steps;
        } }
        ensures there { other.new ≡ record other.old {
          items = drop result other.old.items;
          start = up_by result other.old.start other.old.capacity;
          steps = more_takes result other.old.steps;
        } }
    {
        let capacity = self.slots.capacity();
        let other_capacity = other.slots.capacity();
        let place = wrap_add(self.start, self.len, capacity);
        let from = other.start;
        let count = len.min(capacity - place).min(other_capacity - from);
        other.slots.hand_over(from, &mut self.slots, place, count);
        self.len += count;
        other.start = wrap_add(from, count, other_capacity);
        other.len -= count;
        count
    }
}

/// Hands the `len` values from the index `at` on over to the first places of another region. Those
/// up to the end go in one run, and the others in a second. Indexes are counted from the place
/// `start` on, round the end.
fn take_round<T>(slots: &mut Slots<T>, start: usize, at: usize, len: usize, taken: &mut Slots<T>)
    requires in_region { start ≤ length slots.old.places - 1 }
    requires filled { IsFilledRun (rotated start slots.old.places) at len }
    requires empty { IsEmptyRun taken.old.places 0 len }
    ensures places { rotated start slots.new.places ≡
        run_emptied at len (rotated start slots.old.places) }
    ensures steps { slots.new.steps ≡ more_takes len slots.old.steps }
    ensures taken { taken.new ≡ record {
      places = take len (drop at (rotated start slots.old.places)) ++ drop len taken.old.places;
      steps = more_puts len taken.old.steps;
    } }
{
    if len == 0 {
        return;
    }
    let capacity = slots.capacity();
    let place = wrap_add(start, at, capacity);
    let first = len.min(capacity - place);
    slots.hand_over(place, taken, 0, first);
    slots.hand_over(0, taken, first, len - first);
}
