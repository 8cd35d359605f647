//! Exchanges, and removals by an exchange.
ghost use Rattle.std.specs.Prelude.{◌≡◌, ◌-◌, ◌<◌, length, take, drop, swap, slice_get, OnSome, IfNone, if◌then◌else◌, ◌==◌};
ghost use Rattle.arraydeque_ring.specs.Ring.{place_of};
ghost use Rattle.arraydeque_ring.specs.Steps.{more_takes, more_exchanges};

use super::Ring;

impl<T> Ring<T> {
    /// Exchanges the items at two indexes. If the two are the same, nothing happens. Requires both
    /// to be below the length.
    ///
    /// ```
    /// let mut ring = Ring::from_slice(alloc, 4, &[1, 2, 3])?;
    /// ring.swap(0, 2);
    /// assert!(rt; IntoIter::from_ring(ring).eq([3, 2, 1]));
    /// ```
    #[tactic(auto, using(crate::proofs::Opened::end_facts))]
    #[inline]
    pub fn swap(&mut self, i: usize, j: usize)
        requires i_in_bounds { i < length self.old.items }
        requires j_in_bounds { j < length self.old.items }
        ensures { self.new ≡ record self.old {
          items = swap self.old.items i j;
          steps = more_exchanges (if i == j then 0 else 1) self.old.steps;
        } }
    {
        let (a, b) = (self.place(i), self.place(j));
        self.slots.exchange(a, b);
    }

    /// Removes the item at an index and returns it, or returns `None` if there is none. The last
    /// item takes its place, by one exchange at most.
    ///
    /// ```
    /// let mut ring = Ring::from_slice(alloc, 4, &[1, 2, 3])?;
    /// assert!(rt; ring.swap_remove_back(0) == Some(1));
    /// assert!(rt; ring.swap_remove_back(2) == None);
    /// assert!(rt; IntoIter::from_ring(ring).eq([3, 2]));
    /// ```
    #[inline]
    pub fn swap_remove_back(&mut self, index: usize) -> Option<T>
        // In range, the item at the index is returned, and the last takes its place.
        ensures value { result ≡ slice_get self.old.items index }
        ensures taken { let last = length self.old.items - 1 in
            OnSome result (self.new ≡ record self.old {
              items = take last (swap self.old.items index last);
              steps = more_takes 1 (more_exchanges (if index == last then 0 else 1) self.old.steps);
            }) }

        // Out of range nothing changes.
        ensures none { IfNone result (self.new ≡ self.old) }
    {
        let len = self.len();
        if index >= len {
            return None;
        }
        self.swap(index, len - 1);
        self.pop_back()
    }

    /// Removes the item at an index and returns it, or returns `None` if there is none. The first
    /// item takes its place, by one exchange at most. The start goes up by one place.
    ///
    /// ```
    /// let mut ring = Ring::from_slice(alloc, 4, &[1, 2, 3])?;
    /// assert!(rt; ring.swap_remove_front(2) == Some(3));
    /// assert!(rt; ring.swap_remove_front(2) == None);
    /// assert!(rt; IntoIter::from_ring(ring).eq([2, 1]));
    /// ```
    #[inline]
    pub fn swap_remove_front(&mut self, index: usize) -> Option<T>
        // In range, the item at the index is returned, and the first takes its place.
        ensures value { result ≡ slice_get self.old.items index }
        ensures taken { OnSome result (self.new ≡ record self.old {
          items = drop 1 (swap self.old.items index 0);
          start = place_of self.old.start 1 self.old.capacity;
          steps = more_takes 1 (more_exchanges (if index == 0 then 0 else 1) self.old.steps);
        }) }

        // Out of range nothing changes.
        ensures none { IfNone result (self.new ≡ self.old) }
    {
        if index >= self.len() {
            return None;
        }
        self.swap(index, 0);
        self.pop_front()
    }
}
