//! Rings that are made of other collections, and a vector that is made of a ring.
ghost use Rattle.std.specs.Prelude.{◌≡◌, ◌*◌, ◌<◌, ◌≤◌, length, take, IfOk, IfErr, OnErr, vec_capacity};
ghost use Rattle.std.specs.Mem.{type_size};
ghost use Rattle.arraydeque_ring.specs.Steps.{no_steps, more_puts};

use super::Ring;
use crate::slots::Slots;
use std::alloc::{AllocError, Global};

impl<T> Ring<T> {
    /// Returns a ring of copies of a slice's items, from the first place on. Requires no more items
    /// than places.
    ///
    /// Fails only if memory is refused.
    ///
    /// Start: 0. Steps: 1 put for each item.
    ///
    /// ```
    /// let ring = Ring::from_slice(alloc, 3, &[1, 2])?;
    /// assert!(rt; (ring.len(), ring.capacity()) == (2, 3));
    /// assert!(rt; (ring.get(0), ring.get(1)) == (Some(&1), Some(&2)));
    /// ```
    pub fn from_slice(alloc: Global, capacity: usize, items: &[T]) -> Result<Ring<T>, AllocError>
    where
        T: Copy,
        requires { length items.now ≤ capacity }
        ensures ok { IfOk result (λ ring. ring ≡ record {
          items = items.now;
          capacity = capacity;
          start = 0;
          steps = more_puts (length items.now) no_steps;
        }) }
        ensures refused { OnErr result (0 < capacity * type_size T.row) }
    {
        let mut ring = Ring::new(alloc, capacity)?;
        ring.copy_back(items);
        Ok(ring)
    }

    /// Returns a ring of the first `capacity` items of a vector, from the first place on. The
    /// others are dropped, front to back.
    ///
    /// Fails only if memory is refused; then the vector comes back as it was.
    ///
    /// Start: 0. Steps: 1 put for each item of the ring.
    ///
    /// ```
    /// let items = vec![in alloc; 1, 2, 3]?;
    /// let ring = Ring::from_vec(alloc, 2, items).map_err(|_| "refused")?;
    /// assert!(rt; (ring.len(), ring.capacity()) == (2, 2));
    /// assert!(rt; (ring.get(0), ring.get(1)) == (Some(&1), Some(&2)));
    /// ```
    pub fn from_vec(alloc: Global, capacity: usize, v: Vec<T>) -> Result<Ring<T>, Vec<T>>
    where
        T: Drop,
        // If memory is granted, the first items, as many as fit, are the ring's.
        ensures ok { IfOk result (λ ring. ring ≡ record {
          items = take capacity v.items;
          capacity = capacity;
          start = 0;
          steps = more_puts (length (take capacity v.items)) no_steps;
        }) }

        // If memory is refused, the vector comes back.
        ensures source { IfErr result (λ w. w ≡ v) }
        ensures refused { OnErr result (0 < capacity * type_size T.row) }
    {
        let mut slots = match Slots::new(alloc, capacity) {
            Ok(slots) => slots,
            Err(_) => return Err(v),
        };
        let mut items = v;
        items.truncate(capacity);
        let len = items.len();
        while let Some(item) = items.pop() {
            slots.put(items.len(), item);
        }
        Ok(Ring {
            slots,
            start: 0,
            len,
        })
    }

    /// Returns a vector of the items, front to back, with no room to spare.
    ///
    /// Fails only if memory is refused; then the ring comes back as it was. For an empty ring it
    /// never fails.
    ///
    /// ```
    /// let mut ring = Ring::from_slice(alloc, 3, &[2, 3])?;
    /// ring.push_front(1);
    /// let items = ring.into_vec().map_err(|_| "refused")?;
    /// assert!(rt; items.as_slice() == [1, 2, 3].as_slice());
    /// ```
    #[tactic(auto, using(crate::proofs::Opened::opened, std::proofs::lemmas::List::take_all))]
    pub fn into_vec(self) -> Result<Vec<T>, Ring<T>>
        // If memory is granted, the items are the vector's, which has no room to spare.
        ensures items { IfOk result (λ v. v.items ≡ self.items) }
        ensures exact { IfOk result (λ v. vec_capacity v ≡ length self.items) }

        // If memory is refused, the ring comes back.
        ensures source { IfErr result (λ ring. ring ≡ self) }
        ensures refused { OnErr result (0 < length self.items) }
    {
        let mut v = match Vec::with_capacity(self.alloc(), self.len()) {
            Ok(v) => v,
            Err(_) => return Err(self),
        };
        let Ring {
            mut slots,
            start,
            len,
        } = self;
        // If it called `take_before_end` and `pop_front`, 79 lines of proof would go, but
        // `into_vec` of 1,024 words would take longer.
        let first = len.min(slots.capacity() - start);
        for k in 0..first {
            v.push_reserved(slots.take(start + k));
        }
        for k in first..len {
            v.push_reserved(slots.take(k - first));
        }
        Ok(v)
    }
}
