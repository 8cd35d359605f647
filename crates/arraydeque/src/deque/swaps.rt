//! Exchanges, and removals by an exchange.
ghost use Rattle.std.specs.Prelude.{◌≡◌, ◌≤◌, ◌-◌, ◌<◌, ◌==◌, length, take, drop, slice_get, if◌then◌else◌, OnSome, IfNone};
ghost use Rattle.std.specs.List.{swap};
ghost use Rattle.arraydeque_ring.specs.Ring.{place_of};
ghost use Rattle.arraydeque_ring.specs.Steps.{more_exchanges, more_takes};

use super::ArrayDeque;
use crate::behavior::Behavior;

impl<T, const CAP: usize, B: Behavior> ArrayDeque<T, CAP, B> {
    /// Removes the item at an index and returns it, or returns `None` if there is none. The last
    /// item takes its place, by one exchange at most. If the order matters, use `remove`.
    ///
    /// Start: stays. Steps: 1 take, 1 exchange unless the item is the last.
    ///
    /// ```
    /// let mut deque = ArrayDeque::<i64, 4, Saturating>::new(alloc)?;
    /// deque.extend_back([1, 2, 3, 4]);
    /// assert!(rt; deque.swap_remove_back(0) == Some(1));
    /// assert!(rt; deque.swap_remove_back(3) == None);
    /// assert!(rt; deque.into_vec()?.as_slice() == [4, 2, 3].as_slice());
    /// ```
    pub fn swap_remove_back(&mut self, index: usize) -> Option<T>
        // In range, the item at the index is returned, and the last takes its place.
        ensures value { result ≡ slice_get self.old.items index }
        ensures items { let last = length self.old.items - 1 in
            OnSome result (self.new.items ≡ take last (swap self.old.items index last)) }
        ensures start { self.new.start ≡ self.old.start }
        ensures steps { let last = length self.old.items - 1 in
            OnSome result (self.new.steps ≡ more_takes 1
            (more_exchanges (if index == last then 0 else 1) self.old.steps)) }

        // Out of range nothing changes.
        ensures none { IfNone result (self.new ≡ self.old) }

        // A removal leaves room, and the list always fits.
        ensures room { OnSome result (length self.new.items < CAP) }
        ensures within { length self.new.items ≤ CAP }
    {
        self.ring.swap_remove_back(index)
    }

    /// Removes the item at an index and returns it, or returns `None` if there is none. The first
    /// item takes its place, by one exchange at most. If the order matters, use `remove`.
    ///
    /// Start: 1 up. Steps: 1 take, 1 exchange unless the item is the first.
    ///
    /// ```
    /// let mut deque = ArrayDeque::<i64, 4, Saturating>::new(alloc)?;
    /// deque.extend_back([1, 2, 3, 4]);
    /// assert!(rt; deque.swap_remove_front(3) == Some(4));
    /// assert!(rt; deque.swap_remove_front(3) == None);
    /// assert!(rt; deque.into_vec()?.as_slice() == [2, 3, 1].as_slice());
    /// ```
    pub fn swap_remove_front(&mut self, index: usize) -> Option<T>
        // In range, the item at the index is returned, and the first takes its place.
        ensures value { result ≡ slice_get self.old.items index }
        ensures items { OnSome result (self.new.items ≡ drop 1 (swap self.old.items index 0)) }
        ensures start { OnSome result (self.new.start ≡ place_of self.old.start 1 CAP) }
        ensures steps { OnSome result (self.new.steps ≡ more_takes 1
            (more_exchanges (if index == 0 then 0 else 1) self.old.steps)) }

        // Out of range nothing changes.
        ensures none { IfNone result (self.new ≡ self.old) }

        // A removal leaves room, and the list always fits.
        ensures room { OnSome result (length self.new.items < CAP) }
        ensures within { length self.new.items ≤ CAP }
    {
        self.ring.swap_remove_front(index)
    }

    /// Exchanges the items at two indexes. If the two are the same, nothing happens. Requires both
    /// to be below the length.
    ///
    /// Start: stays. Steps: 1 exchange, but none if the two indexes are the same.
    ///
    /// ```
    /// let mut deque = ArrayDeque::<i64, 3, Saturating>::new(alloc)?;
    /// deque.extend_back([1, 2, 3]);
    /// assert!(rt; deque.len() == 3);
    /// deque.swap(0, 2);
    /// assert!(rt; deque.into_vec()?.as_slice() == [3, 2, 1].as_slice());
    /// ```
    #[inline]
    pub fn swap(&mut self, i: usize, j: usize)
        requires i_in_bounds { i < length self.old.items }
        requires j_in_bounds { j < length self.old.items }
        ensures items { self.new.items ≡ swap self.old.items i j }
        ensures within { length self.new.items ≤ CAP }
        ensures start { self.new.start ≡ self.old.start }
        ensures steps { self.new.steps ≡ more_exchanges (if i == j then 0 else 1) self.old.steps }
    {
        self.ring.swap(i, j);
    }
}
