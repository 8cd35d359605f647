//! The iterator that owns the items of a ring. A contract sees the list of those that remain.
ghost use Rattle.std.specs.Prelude.{◌≡◌, ◌<◌, ◌+◌, ◌-◌, length, drop, slice_get, Some, IfSome};
ghost use Rattle.std.specs.Iterator.{YieldsFirst, YieldsLast, UpTo, item_count};
ghost use Rattle.std.specs.Iterator.SizeHint.{IsWithinCount};
ghost use Rattle.arraydeque_ring.specs.Steps.{more_takes};

use super::Ring;
use std::iter::FusedIterator;
use std::marker::Model;

/// An iterator that owns the items of a ring, from both ends. It drops those that are not taken,
/// front to back.
#[derive(Drop)]
pub struct IntoIter<T> {
    ring: Ring<T>,
    /// While more items than this are left, the next start needs no wrap.
    no_wrap_above: usize,
}

impl<T> Model for IntoIter<T> {
    ghost use Rattle.std.specs.Prelude.{◌≤◌, ◌-◌, List, length};

    ghost Value = { List T };

    ghost view = { λ it. it.ring.items };

    ghost invariant = { λ it.
        length it.ring.items - (it.ring.capacity - 1 - it.ring.start) ≤ it.no_wrap_above };
}

impl<T> IntoIter<T> {
    /// Returns the iterator over the items of a ring.
    ///
    /// ```
    /// let mut items = IntoIter::from_ring(Ring::from_slice(alloc, 4, &[1, 2, 3])?);
    /// assert!(rt; (items.next(), items.next_back()) == (Some(1), Some(3)));
    /// assert!(rt; (items.len(), items.next()) == (1, Some(2)));
    /// ```
    #[inline]
    pub fn from_ring(ring: Ring<T>) -> IntoIter<T>
        ensures { result ≡ ring.items }
    {
        let no_wrap_above = ring.len_behind_run();
        IntoIter {
            ring,
            no_wrap_above,
        }
    }
}

impl<T: Drop> Iterator for IntoIter<T> {
    type Item = T;

    ghost next_gives = { YieldsFirst (λ remaining. remaining) };

    ghost remaining = { item_count (λ remaining. remaining) };

    /// ```
    /// let mut items = IntoIter::from_ring(Ring::from_slice(alloc, 4, &[1, 2, 3])?);
    /// assert!(rt; (items.next(), items.size_hint()) == (Some(1), (2, Some(2))));
    /// assert!(rt; (items.next(), items.next(), items.next()) == (Some(2), Some(3), None));
    /// ```
    #[inline]
    fn next(&mut self) -> Option<T> {
        if self.ring.len() > self.no_wrap_above {
            return Some(self.ring.take_before_end());
        }
        let item = self.ring.pop_front();
        self.no_wrap_above = self.ring.len_behind_run();
        item
    }

    #[inline]
    fn size_hint(&self) -> (usize, Option<usize>)
        ensures exact { result ≡ (length self.now, Some (length self.now)) }
        ensures lower { IsWithinCount result.0 (item_count (λ remaining. remaining) self.now) }
        ensures upper { IfSome result.1 (UpTo (item_count (λ remaining. remaining) self.now)) }
    {
        let len = self.len();
        (len, Some(len))
    }
}

impl<T: Drop> DoubleEndedIterator for IntoIter<T> {
    ghost next_back_gives = { YieldsLast (λ remaining. remaining) };

    /// ```
    /// let mut items = IntoIter::from_ring(Ring::from_slice(alloc, 4, &[1, 2])?);
    /// assert!(rt; (items.next_back(), items.next_back()) == (Some(2), Some(1)));
    /// assert!(rt; items.next_back() == None);
    /// ```
    #[inline]
    fn next_back(&mut self) -> Option<T> {
        self.ring.pop_back()
    }
}

impl<T: Drop> ExactSizeIterator for IntoIter<T> {
    /// ```
    /// let items = IntoIter::from_ring(Ring::from_slice(alloc, 4, &[1, 2, 3])?);
    /// assert!(rt; items.len() == 3);
    /// ```
    #[inline]
    fn len(&self) -> usize {
        self.ring.len()
    }
}

impl<T: Drop> FusedIterator for IntoIter<T> {}

impl<T> Ring<T> {
    /// Returns how many items are behind the run that [`Ring::take_before_end`] takes: the one in
    /// the region's last place, and those past its end.
    #[inline]
    fn len_behind_run(&self) -> usize
        ensures { result ≡ length self.now.items - (self.now.capacity - 1 - self.now.start) }
    {
        let to_end = self.slots.capacity() - self.start;
        self.len.saturating_sub(to_end.saturating_sub(1))
    }

    /// Removes the first item and returns it, as [`Ring::pop_front`] does. Requires that the next
    /// place is before the region's end. Many such calls together empty a run of places.
    #[tactic(auto, using(crate::proofs::Opened::end_facts))]
    #[inline]
    fn take_before_end(&mut self) -> T
        requires some { 0 < length self.old.items }
        requires before_end { self.old.start + 1 < self.old.capacity }
        ensures value { Some result ≡ slice_get self.old.items 0 }
        ensures taken { self.new ≡ record self.old {
          items = drop 1 self.old.items;
          start = self.old.start + 1;
          steps = more_takes 1 self.old.steps;
        } }
    {
        let _fits = self.slots.capacity();
        let place = self.start;
        self.start = place + 1;
        self.len -= 1;
        self.slots.take(place)
    }
}
