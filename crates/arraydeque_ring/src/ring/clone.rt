//! A second ring of clones of the items.
ghost use Rattle.std.specs.Prelude.{◌≡◌, ◌⊎◌, ◌*◌, ◌+◌, ◌<◌, ◌≤◌, ◌++◌, length, IfOk, OnOk, OnErr};
ghost use Rattle.std.specs.Mem.{type_size};
ghost use Rattle.arraydeque_ring.specs.Ring.{ClonesAreSame, CloneMayFail};
ghost use Rattle.arraydeque_ring.specs.Steps.{no_steps, more_puts};

use super::Ring;
use std::alloc::AllocError;

impl<T> Ring<T> {
    /// Returns a ring of a clone of each item, of the same capacity, from the first place on.
    /// Requires that a clone of an item is the same value as the item, as with numbers.
    ///
    /// The region is taken first, and then the items are cloned front to back. Fails only if memory
    /// is refused or the clone of an item fails; then the clones that were made are dropped.
    ///
    /// ```
    /// let ring = Ring::from_slice(alloc, 3, &[1, 2])?;
    /// let mut copy = ring.clone()?;
    /// copy.push_back(3);
    /// assert!(rt; (ring.len(), copy.len()) == (2, 3));
    /// assert!(rt; IntoIter::from_ring(copy).eq([1, 2, 3]));
    /// ```
    pub fn clone(&self) -> Result<Ring<T>, AllocError>
    where
        T: Clone,
        requires { ClonesAreSame T.is_clone self.now.items }
        ensures ok { IfOk result (λ ring. ring ≡ record {
          items = self.now.items;
          capacity = self.now.capacity;
          start = 0;
          steps = more_puts (length self.now.items) no_steps;
        }) }
        ensures refused { OnErr result ((0 < self.now.capacity * type_size T.row)
            ⊎ CloneMayFail T.is_infallible self.now.items) }
    {
        let mut clones = Ring::new(self.alloc(), self.capacity())?;
        let (front, back) = self.as_slices();
        clones.clone_back(front)?;
        clones.clone_back(back)?;
        Ok(clones)
    }

    /// Adds a clone of each item of a slice at the back. Requires a list that starts at the first
    /// place, and room for all.
    #[tactic(auto, using(crate::proofs::Opened::copy_facts))]
    #[inline]
    fn clone_back(&mut self, items: &[T]) -> Result<(), AllocError>
    where
        T: Clone,
        requires first_place { self.old.start ≡ 0 }
        requires room { length self.old.items + length items.now ≤ self.old.capacity }
        requires same { ClonesAreSame T.is_clone items.now }
        ensures ok { OnOk result (self.new ≡ record self.old {
          items = self.old.items ++ items.now;
          steps = more_puts (length items.now) self.old.steps;
        }) }
        ensures refused { OnErr result (CloneMayFail T.is_infallible items.now) }
    {
        let _fits = self.slots.capacity();
        for item in items {
            let clone = item.clone()?;
            self.slots.put(self.len, clone);
            self.len += 1;
        }
        Ok(())
    }
}
