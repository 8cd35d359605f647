//! A second deque of clones of the items.
ghost use Rattle.std.specs.Prelude.{◌≡◌, ◌⊎◌, ◌<◌, ◌*◌, IfOk, OnErr};
ghost use Rattle.std.specs.Mem.{type_size};
ghost use Rattle.arraydeque_ring.specs.Ring.{ClonesAreSame, CloneMayFail};
ghost use Rattle.arraydeque.specs.Deque.{empty_deque, with_back};

use super::ArrayDeque;
use crate::behavior::Behavior;
use std::alloc::AllocError;

impl<T: Clone, const CAP: usize, B: Behavior> ArrayDeque<T, CAP, B> {
    /// Returns a deque of a clone of each item, over a new region from the same allocator. Requires
    /// that a clone of an item is the same value as the item, as with numbers.
    ///
    /// The region is taken first, and then the items are cloned front to back. Fails only if memory
    /// is refused or the clone of an item fails; then the clones that were made are dropped.
    ///
    /// Start: 0. Steps: 1 put for each item.
    ///
    /// ```
    /// let mut deque = ArrayDeque::<i64, 3, Saturating>::new(alloc)?;
    /// deque.extend_back([1, 2]);
    /// let copy = deque.clone()?;
    /// assert!(rt; copy == deque);
    /// assert!(rt; deque.pop_front() == Some(1));
    /// assert!(rt; copy.into_vec()?.as_slice() == [1, 2].as_slice());
    /// ```
    ///
    /// Items that own memory are cloned one by one:
    ///
    /// ```
    /// let mut names = ArrayDeque::<String, 2, Wrapping>::new(alloc)?;
    /// names.push_back(format!(in alloc; "a")?);
    /// let mut copies = ArrayDeque::<String, 2, Wrapping>::new(alloc)?;
    /// for name in names.iter() {
    ///     copies.push_back(name.clone()?);
    /// }
    /// assert!(rt; copies == names);
    /// ```
    pub fn clone(&self) -> Result<Self, AllocError>
        requires { ClonesAreSame T.is_clone self.now.items }
        ensures items { IfOk result (λ deque. deque ≡ with_back self.now.items empty_deque) }
        ensures refused { OnErr result
            ((0 < CAP * type_size T.row) ⊎ CloneMayFail T.is_infallible self.now.items) }
    {
        let ring = self.ring.clone()?;
        Ok(Self::from_ring(ring))
    }
}
