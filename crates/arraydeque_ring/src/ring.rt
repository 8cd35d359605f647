//! A list of items in the places of a region, from the start on and round the region's end.
//!
//! A contract sees a [`Ring`] as its items from front to back, its capacity, the place of its first
//! item and the steps of its region. A ring has no policy: a push requires room.
#![tactic(auto, using(crate::proofs::Opened::ring_facts))]

ghost use Rattle.std.specs.Prelude.{◌≡◌, ◌-◌, ◌*◌, ◌<◌, ◌≤◌, [], ◌∷◌, ◌++◌, length, take, drop, slice_get, Some, option_copied, IfOk, OnErr, OnSome, IfNone};
ghost use Rattle.std.specs.Borrow.{sem};
ghost use Rattle.std.specs.Mem.{type_size};
ghost use Rattle.std.specs.Option.{option_copied_mut};
ghost use Rattle.arraydeque_ring.specs.Ring.{empty_ring, place_of};
ghost use Rattle.arraydeque_ring.specs.Steps.{more_puts, more_takes};

mod clone;
mod fill;
pub mod into_iter;
mod lends;
mod linearize;
mod makers;
mod moves;
mod parts;
mod resize;
mod retain;
mod swaps;
mod writes;

use crate::slots::Slots;
pub use crate::slots::loan::{Loan, LoanName};
use crate::wrap::wrap_add;
use std::alloc::{AllocError, Global};
use std::marker::Model;

/// A list of at most `capacity` items in one region, whose first item may lie at any place.
///
/// A ring of long-lived items may be used where one of short-lived items is wanted:
///
/// ```
/// let ring: Ring<&'static str> = Ring::from_slice(alloc, 2, &["a"])?;
/// let word = format!(in alloc; "{}", 'b')?;
/// let mut ring: Ring<&str> = ring;
/// ring.push_back(word.as_str());
/// assert!(rt; ring.pop_back() == Some("b"));
/// ```
pub struct Ring<T> {
    slots: Slots<T>,
    start: usize,
    len: usize,
}

impl<T> Model for Ring<T> {
    ghost use Rattle.std.specs.Prelude.{◌≤◌, ◌-◌, length};
    ghost use Rattle.arraydeque_ring.specs.Ring.{RingState, rotated, values, filled, FilledFrom};

    ghost Value = { RingState T };

    ghost view = { λ r. record {
      items = values (rotated r.start r.slots.places);
      capacity = length r.slots.places;
      start = r.start;
      steps = r.slots.steps;
    } };

    ghost invariant = { λ r. (r.start ≤ length r.slots.places - 1)
        × FilledFrom r.start r.len (filled r.slots.places) };
}

impl<T> Ring<T> {
    ghost use Rattle.arraydeque_ring.specs.RingLends.{lends_item, lends_index};

    /// Returns an empty ring, over a new region of `capacity` places from `alloc`. It starts at the
    /// first place.
    ///
    /// Fails only if memory is refused, as it is for a region larger than the machine can name. At
    /// capacity 0 or for items of size zero it never fails.
    ///
    /// ```
    /// let mut ring = Ring::<i64>::new(alloc, 2)?;
    /// assert!(rt; (ring.len(), ring.capacity()) == (0, 2));
    /// assert!(rt; ring.pop_front() == None);
    /// ```
    pub fn new(alloc: Global, capacity: usize) -> Result<Ring<T>, AllocError>
        ensures ok { IfOk result (λ ring. ring ≡ empty_ring capacity) }
        ensures refused { OnErr result (0 < capacity * type_size T.row) }
    {
        let slots = Slots::new(alloc, capacity)?;
        Ok(Ring {
            slots,
            start: 0,
            len: 0,
        })
    }

    /// Returns how many items the ring holds.
    ///
    /// ```
    /// let ring = Ring::from_slice(alloc, 4, &[1, 2, 3])?;
    /// assert!(rt; ring.len() == 3);
    /// ```
    #[inline]
    pub fn len(&self) -> usize
        ensures len { result ≡ length self.now.items }
        ensures within { result ≤ self.now.capacity }
        ensures start { self.now.start ≤ self.now.capacity - 1 }
    {
        self.len
    }

    /// Returns how many items the ring can hold.
    ///
    /// ```
    /// let ring = Ring::from_slice(alloc, 4, &[1, 2, 3])?;
    /// assert!(rt; ring.capacity() == 4);
    /// ```
    #[inline]
    pub fn capacity(&self) -> usize
        ensures capacity { result ≡ self.now.capacity }
        ensures within { length self.now.items ≤ result }
    {
        self.slots.capacity()
    }

    /// Returns the allocator that the region came from.
    ///
    /// ```
    /// let ring = Ring::<i64>::new(alloc, 4)?;
    /// let other = Ring::<i64>::new(ring.alloc(), 2)?;
    /// assert!(rt; other.capacity() == 2);
    /// ```
    pub fn alloc(&self) -> Global {
        self.slots.alloc()
    }

    /// Adds an element at the back. Requires room. No item moves.
    ///
    /// ```
    /// let mut ring = Ring::new(alloc, 2)?;
    /// ring.push_back(1);
    /// ring.push_back(2);
    /// assert!(rt; (ring.get(0), ring.get(1)) == (Some(&1), Some(&2)));
    /// ```
    #[inline]
    pub fn push_back(&mut self, element: T)
        requires { length self.old.items < self.old.capacity }
        ensures { self.new ≡ record self.old {
          items = self.old.items ++ element ∷ [];
          steps = more_puts 1 self.old.steps;
        } }
    {
        let capacity = self.slots.capacity();
        self.push_back_given(capacity, element);
    }

    /// Does what `push_back` does, for a caller who gives the capacity. A constant capacity then
    /// chooses how the place is found, even behind a `&mut`.
    ///
    /// Start: stays. Steps: 1 put.
    ///
    /// ```
    /// let mut ring = Ring::new(alloc, 2)?;
    /// ring.push_back_given(2, 1);
    /// assert!(rt; ring.get(0) == Some(&1));
    /// ```
    #[tactic(auto, using(crate::proofs::Opened::end_facts))]
    #[inline]
    pub fn push_back_given(&mut self, capacity: usize, element: T)
        requires capacity { capacity ≡ self.old.capacity }
        requires room { length self.old.items < self.old.capacity }
        ensures { self.new ≡ record self.old {
          items = self.old.items ++ element ∷ [];
          steps = more_puts 1 self.old.steps;
        } }
    {
        let behind = wrap_add(self.start, self.len, capacity);
        self.len += 1;
        self.slots.put(behind, element);
    }

    /// Adds an element at the front. Requires room. The start goes down by one place, and no item
    /// moves.
    ///
    /// ```
    /// let mut ring = Ring::new(alloc, 2)?;
    /// ring.push_front(1);
    /// ring.push_front(2);
    /// assert!(rt; (ring.get(0), ring.get(1)) == (Some(&2), Some(&1)));
    /// ```
    #[inline]
    pub fn push_front(&mut self, element: T)
        requires { length self.old.items < self.old.capacity }
        ensures { self.new ≡ record self.old {
          items = element ∷ self.old.items;
          start = place_of self.old.start (self.old.capacity - 1) self.old.capacity;
          steps = more_puts 1 self.old.steps;
        } }
    {
        let capacity = self.slots.capacity();
        self.push_front_given(capacity, element);
    }

    /// Does what `push_front` does, for a caller who gives the capacity.
    ///
    /// Start: 1 down. Steps: 1 put.
    ///
    /// ```
    /// let mut ring = Ring::new(alloc, 2)?;
    /// ring.push_front_given(2, 1);
    /// ring.push_front_given(2, 2);
    /// assert!(rt; (ring.get(0), ring.get(1)) == (Some(&2), Some(&1)));
    /// ```
    #[tactic(auto, using(crate::proofs::Opened::end_facts))]
    #[inline]
    pub fn push_front_given(&mut self, capacity: usize, element: T)
        requires capacity { capacity ≡ self.old.capacity }
        requires room { length self.old.items < self.old.capacity }
        ensures { self.new ≡ record self.old {
          items = element ∷ self.old.items;
          start = place_of self.old.start (self.old.capacity - 1) self.old.capacity;
          steps = more_puts 1 self.old.steps;
        } }
    {
        let before = wrap_add(self.start, capacity - 1, capacity);
        self.start = before;
        self.len += 1;
        self.slots.put(before, element);
    }

    /// Removes the first item and returns it, or returns `None` if the ring is empty. The start
    /// goes up by one place, and no other item moves.
    ///
    /// ```
    /// let mut ring = Ring::from_slice(alloc, 3, &[1, 2])?;
    /// assert!(rt; (ring.pop_front(), ring.pop_front()) == (Some(1), Some(2)));
    /// assert!(rt; ring.pop_front() == None);
    /// ```
    #[tactic(auto, using(crate::proofs::Opened::end_facts))]
    #[inline]
    pub fn pop_front(&mut self) -> Option<T>
        // If there is an item, the first is removed and returned.
        ensures value { result ≡ slice_get self.old.items 0 }
        ensures taken { OnSome result (self.new ≡ record self.old {
          items = drop 1 self.old.items;
          start = place_of self.old.start 1 self.old.capacity;
          steps = more_takes 1 self.old.steps;
        }) }

        // If there is none, nothing changes.
        ensures none { IfNone result (self.new ≡ self.old) }
        ensures empty { IfNone result (self.old.items ≡ []) }
    {
        if self.len == 0 {
            return None;
        }
        let first = self.start;
        self.start = wrap_add(first, 1, self.slots.capacity());
        self.len -= 1;
        Some(self.slots.take(first))
    }

    /// Removes the last item and returns it, or returns `None` if the ring is empty. The start
    /// stays, and no other item moves.
    ///
    /// ```
    /// let mut ring = Ring::from_slice(alloc, 3, &[1, 2])?;
    /// assert!(rt; (ring.pop_back(), ring.pop_back()) == (Some(2), Some(1)));
    /// assert!(rt; ring.pop_back() == None);
    /// ```
    #[tactic(auto, using(crate::proofs::Opened::end_facts))]
    #[inline]
    pub fn pop_back(&mut self) -> Option<T>
        // If there is an item, the last is removed and returned.
        ensures value { result ≡ slice_get self.old.items (length self.old.items - 1) }
        ensures taken { OnSome result (self.new ≡ record self.old {
          items = take (length self.old.items - 1) self.old.items;
          steps = more_takes 1 self.old.steps;
        }) }

        // If there is none, nothing changes.
        ensures none { IfNone result (self.new ≡ self.old) }
        ensures empty { IfNone result (self.old.items ≡ []) }
    {
        if self.len == 0 {
            return None;
        }
        let last = wrap_add(self.start, self.len - 1, self.slots.capacity());
        self.len -= 1;
        Some(self.slots.take(last))
    }

    /// Adds an element at the back, in the place of the first item, which is returned. No other
    /// item moves. Requires a full ring of one place or more, and its capacity, as
    /// `push_back_given` does.
    ///
    /// Start: 1 up. Steps: 1 take, 1 put.
    ///
    /// ```
    /// let mut ring = Ring::from_slice(alloc, 2, &[1, 2])?;
    /// assert!(rt; ring.replace_first(2, 3) == 1);
    /// assert!(rt; IntoIter::from_ring(ring).eq([2, 3]));
    /// ```
    #[tactic(auto, using(crate::proofs::Opened::full_facts))]
    #[inline]
    pub fn replace_first(&mut self, capacity: usize, element: T) -> T
        requires capacity { capacity ≡ self.old.capacity }
        requires some { 0 < self.old.capacity }
        requires full { length self.old.items ≡ self.old.capacity }
        ensures value { result ∷ drop 1 self.old.items ≡ self.old.items }
        ensures replaced { self.new ≡ record self.old {
          items = drop 1 self.old.items ++ element ∷ [];
          start = place_of self.old.start 1 self.old.capacity;
          steps = more_puts 1 (more_takes 1 self.old.steps);
        } }
    {
        let place = self.start;
        self.start = wrap_add(place, 1, capacity);
        let first = self.slots.take(place);
        self.slots.put(place, element);
        first
    }

    /// Adds an element at the front, in the place of the last item, which is returned. No other
    /// item moves. Requires what `replace_first` does.
    ///
    /// Start: 1 down. Steps: 1 take, 1 put.
    ///
    /// ```
    /// let mut ring = Ring::from_slice(alloc, 2, &[1, 2])?;
    /// assert!(rt; ring.replace_last(2, 0) == 2);
    /// assert!(rt; IntoIter::from_ring(ring).eq([0, 1]));
    /// ```
    #[tactic(auto, using(crate::proofs::Opened::full_facts))]
    #[inline]
    pub fn replace_last(&mut self, capacity: usize, element: T) -> T
        requires capacity { capacity ≡ self.old.capacity }
        requires some { 0 < self.old.capacity }
        requires full { length self.old.items ≡ self.old.capacity }
        ensures value { take (self.old.capacity - 1) self.old.items ++ result ∷ [] ≡
            self.old.items }
        ensures replaced { self.new ≡ record self.old {
          items = element ∷ take (self.old.capacity - 1) self.old.items;
          start = place_of self.old.start (self.old.capacity - 1) self.old.capacity;
          steps = more_puts 1 (more_takes 1 self.old.steps);
        } }
    {
        let place = wrap_add(self.start, capacity - 1, capacity);
        self.start = place;
        let last = self.slots.take(place);
        self.slots.put(place, element);
        last
    }

    /// Returns a reference to the item at an index, or `None` if there is none. The front has index
    /// 0.
    ///
    /// ```
    /// let mut ring = Ring::from_slice(alloc, 3, &[1, 2])?;
    /// ring.push_front(0);
    /// assert!(rt; (ring.get(0), ring.get(2)) == (Some(&0), Some(&2)));
    /// assert!(rt; ring.get(3) == None);
    /// ```
    #[tactic(auto, using(crate::proofs::Opened::end_facts))]
    #[inline]
    pub fn get(&self, index: usize) -> Option<&T>
        ensures { option_copied result ≡ slice_get self.now.items index }
    {
        if index >= self.len {
            return None;
        }
        Some(self.item(index))
    }

    /// Returns a reference to the item at an index. The front has index 0. Requires an index below
    /// the length.
    ///
    /// ```
    /// let ring = Ring::from_slice(alloc, 3, &[1, 2])?;
    /// assert!(rt; *ring.item(1) == 2);
    /// ```
    #[tactic(auto, using(crate::proofs::Opened::end_facts))]
    #[inline]
    pub fn item(&self, index: usize) -> &T
        requires { index < length self.now.items }
        ensures { slice_get self.now.items index ≡ Some result.now }
    {
        let place = wrap_add(self.start, index, self.slots.capacity());
        self.slots.get(place)
    }

    /// Returns a mutable reference to the item at an index, or `None` if there is none. The front
    /// has index 0.
    ///
    /// ```
    /// let mut ring = Ring::from_slice(alloc, 3, &[1, 2])?;
    /// if let Some(item) = ring.get_mut(1) {
    ///     *item = 5;
    /// }
    /// assert!(rt; (ring.get(0), ring.get(1)) == (Some(&1), Some(&5)));
    /// ```
    #[tactic(auto, using(crate::proofs::Opened::end_facts))]
    #[inline]
    pub fn get_mut(&mut self, index: usize) -> Option<&mut T>
        ensures value { option_copied_mut result ≡ slice_get self.old.items index }

        // The item, if there is one, ends as it was last written, with 1 lend counted.
        ensures* writes_back { sem 𝓛 (lends_item T.row self.entry index result) }
    {
        if index >= self.len {
            return None;
        }
        Some(self.item_mut(index))
    }

    /// Returns a mutable reference to the item at an index. The front has index 0. Requires an
    /// index below the length.
    ///
    /// Start: stays. Steps: 1 lend.
    ///
    /// ```
    /// let mut ring = Ring::from_slice(alloc, 3, &[1, 2])?;
    /// *ring.item_mut(1) = 5;
    /// assert!(rt; (ring.get(0), ring.get(1)) == (Some(&1), Some(&5)));
    /// ```
    #[tactic(auto, using(crate::proofs::Opened::end_facts))]
    #[inline]
    pub fn item_mut(&mut self, index: usize) -> &mut T
        requires { index < length self.old.items }
        ensures value { slice_get self.old.items index ≡ Some result.now }

        // The item ends as it was last written, with 1 lend counted.
        ensures* writes_back { sem 𝓛 (lends_index T.row self.entry index result) }
    {
        let place = self.place(index);
        let slots = &mut self.slots;
        slots.get_mut(place)
    }

    /// Returns the place of the item at an index. No branch depends on the index, because indexes
    /// may come at random, as in the workload `swap` at capacity 1000. If the capacity is a power
    /// of two, the place is found by a mask; otherwise the capacity or 0 is subtracted from the
    /// sum. If the sum might pass `usize::MAX`, which it can only for items of size zero,
    /// `wrap_add` finds the place.
    #[inline(always)] // So a caller's constant capacity chooses mask or sum.
    fn place(&self, index: usize) -> usize
        requires { index < length self.now.items }
        ensures { result ≡ place_of self.now.start index self.now.capacity }
    {
        let capacity = self.slots.capacity();
        if capacity & (capacity - 1) == 0 {
            return (self.start + index) & (capacity - 1);
        }
        if capacity > isize::MAX as usize {
            return wrap_add(self.start, index, capacity);
        }
        let past = if index < capacity - self.start {
            0
        } else {
            capacity
        };
        self.start + index - past
    }
}

impl<T: Drop> Drop for Ring<T> {
    /// Drops each item, front to back, and gives the region back.
    #[tactic(auto, using(crate::proofs::Opened::end_facts))]
    fn drop(mut self) {
        self.clear();
        let Ring {
            slots: _,
            start: _,
            len: _,
        } = self;
    }
}
