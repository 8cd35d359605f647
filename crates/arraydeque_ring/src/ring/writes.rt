//! Items that are written in place: all or a part by a closure, or those of one of the two slices.
ghost use Rattle.std.specs.Prelude.{◌≡◌, ◌-◌, ◌≤◌, length, take, drop, slice_range};
ghost use Rattle.std.specs.Borrow.{sem};
ghost use Rattle.arraydeque_ring.specs.RingLends.{lends_first, lends_rest};
ghost use Rattle.arraydeque_ring.specs.Steps.{more_lends};
ghost use Rattle.arraydeque_ring.specs.Written.{WritesAt, WritesInTurn, WrittenInTurn, WrittenPart, MayWriteEach};

use super::Ring;

impl<T> Ring<T> {
    /// Returns the first of the two slices of [`Ring::as_slices`], for writing. It has the items
    /// from the front to the region's end. They end as they were written.
    ///
    /// Start: stays. Steps: 1 lend.
    ///
    /// ```
    /// let mut ring = Ring::from_slice(alloc, 4, &[2, 3])?;
    /// ring.push_front(1);
    /// ring.first_slice_mut().fill(0);
    /// assert!(rt; IntoIter::from_ring(ring).eq([0, 2, 3]));
    /// ```
    #[inline]
    pub fn first_slice_mut(&mut self) -> &mut [T]
        ensures value { result.now ≡ take (self.old.capacity - self.old.start) self.old.items }

        // Its items end as they were last written, with 1 lend counted, and the others stay.
        ensures* writes_back { sem 𝓛 (lends_first T.row self.entry result) }
    {
        let start = self.start;
        let len = self.len.min(self.slots.capacity() - start);
        let slots = &mut self.slots;
        slots.slice_mut(start, len)
    }

    /// Returns the second of the two slices of [`Ring::as_slices`], for writing. It has the other
    /// items, from the region's first place on. They end as they were written.
    ///
    /// Start: stays. Steps: 1 lend.
    ///
    /// ```
    /// let mut ring = Ring::from_slice(alloc, 4, &[2, 3])?;
    /// ring.push_front(1);
    /// ring.second_slice_mut().fill(0);
    /// assert!(rt; IntoIter::from_ring(ring).eq([1, 0, 0]));
    /// ```
    #[inline]
    pub fn second_slice_mut(&mut self) -> &mut [T]
        ensures value { result.now ≡ drop (self.old.capacity - self.old.start) self.old.items }

        // Its items end as they were last written, with 1 lend counted, and the others stay.
        ensures* writes_back { sem 𝓛 (lends_rest T.row self.entry result) }
    {
        let len = self.len - self.len.min(self.slots.capacity() - self.start);
        let slots = &mut self.slots;
        slots.slice_mut(0, len)
    }

    /// Calls `f` on each item in turn, front to back, for writing. The list ends as `f` left its
    /// items.
    ///
    /// Start: stays. Steps: 2 lends.
    ///
    /// ```
    /// let mut ring = Ring::from_slice(alloc, 4, &[2, 3])?;
    /// ring.push_front(1);
    /// ring.for_each_mut(|item| *item *= 2);
    /// assert!(rt; IntoIter::from_ring(ring).eq([2, 4, 6]));
    /// ```
    #[inline]
    pub fn for_each_mut<F: FnMut(&mut T)>(&mut self, f: F)
    where
        F: Drop,
        requires { MayWriteEach F.FnMut f self.old.items }
        ensures in_turn { WrittenInTurn (WritesAt F.FnMut) f self.old.items self.new.items }
        ensures len { length self.new.items ≡ length self.old.items }
        ensures kept { self.new ≡ record self.old {
          items = self.new.items;
          steps = more_lends 2 self.old.steps;
        } }
    {
        self.for_each_mut_in(0, self.len(), f);
    }

    /// Calls `f` on each item of the range `from..to` in turn, front to back, for writing. The
    /// other items stay as they were. Requires a range that is in order and ends within the list.
    ///
    /// Start: stays. Steps: 2 lends.
    ///
    /// ```
    /// let mut ring = Ring::from_slice(alloc, 4, &[2, 3, 4])?;
    /// ring.push_front(1);
    /// ring.for_each_mut_in(1, 3, |item| *item *= 2);
    /// assert!(rt; IntoIter::from_ring(ring).eq([1, 4, 6, 4]));
    /// ```
    #[inline]
    pub fn for_each_mut_in<F: FnMut(&mut T)>(&mut self, from: usize, to: usize, mut f: F)
    where
        F: Drop,
        requires in_order { from ≤ to }
        requires in_bounds { to ≤ length self.old.items }
        requires may_write { MayWriteEach F.FnMut f (slice_range self.old.items from to) }
        ensures in_turn { WrittenPart (WritesAt F.FnMut) f from to self.old.items self.new.items }
        ensures len { length self.new.items ≡ length self.old.items }
        ensures kept { self.new ≡ record self.old {
          items = self.new.items;
          steps = more_lends 2 self.old.steps;
        } }
    {
        let first = self.first_slice_mut();
        let cut = first.len();
        write_each(&mut first[from.min(cut)..to.min(cut)], &mut f);
        let second = self.second_slice_mut();
        let (from, to) = (from.saturating_sub(cut), to.saturating_sub(cut));
        write_each(&mut second[from..to], &mut f);
    }
}

/// Calls `f` on each item of a slice in turn.
#[inline]
fn write_each<T, F: FnMut(&mut T)>(items: &mut [T], f: &mut F)
    requires { MayWriteEach F.FnMut f.old items.old }
    ensures { WritesInTurn (WritesAt F.FnMut) f.old items.old items.new f.new }
{
    for item in items.iter_mut() {
        f(item);
    }
}
