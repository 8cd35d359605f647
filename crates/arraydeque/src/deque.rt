//! The deque: a ring of at most `CAP` items under a policy.
ghost use Rattle.std.specs.Prelude.{◌≡◌, ◌-◌, ◌*◌, ◌<◌, ◌≤◌, ◌==◌, ◌++◌, [], length, take, drop, slice_get, option_to_list, IfOk, OnErr, OnSome, IfNone};
ghost use Rattle.std.specs.Mem.{type_size};
ghost use Rattle.arraydeque_ring.specs.Ring.{place_of};
ghost use Rattle.arraydeque_ring.specs.Steps.{more_takes};
ghost use Rattle.arraydeque.specs.Deque.{empty_deque, as_ring, last_item};

use crate::behavior::Behavior;
use arraydeque_ring::ring::Ring;
use std::alloc::{AllocError, Global};
use std::fmt;
use std::marker::{Model, PhantomData};

mod access;
mod blocks;
mod bytes;
mod clone;
mod compare;
mod extend;
mod lends;
mod linearize;
mod makers;
mod moves;
mod parts;
mod pop_if;
mod pushes;
mod resize;
mod retain;
mod searches;
mod swaps;
mod writes;

/// A double-ended queue of at most `CAP` items, in one region of memory that is taken when the
/// deque is made. The policy `B` says what a push into a full deque does.
///
/// A capacity of 0 is allowed: such a deque is always empty and always full. A deque that is
/// dropped drops its items front to back.
///
/// ```
/// let mut deque = ArrayDeque::<i64, 4, Saturating>::new(alloc)?;
/// deque.extend_back([2, 3]);
/// assert!(rt; deque.push_front(1) == Ok(()));
/// assert!(rt; (deque.pop_front(), deque.pop_back()) == (Some(1), Some(3)));
/// assert!(rt; (deque.len(), deque.capacity()) == (1, 4));
/// ```
///
/// A deque of long-lived items may be used where one of short-lived items is wanted:
///
/// ```
/// let deque = ArrayDeque::<&'static str, 2, Saturating>::from_array(alloc, ["a", "b"])?;
/// let word = format!(in alloc; "{}", 'b')?;
/// assert!(rt; deque.contains(&word.as_str()));
/// ```
#[derive(Drop)]
pub struct ArrayDeque<T, const CAP: usize, B: Behavior> {
    ring: Ring<T>,
    behavior: PhantomData<B>,
}

impl<T, const CAP: usize, B: Behavior> Model for ArrayDeque<T, CAP, B> {
    ghost use Rattle.std.specs.Prelude.{◌≡◌, ◌≤◌, length};
    ghost use Rattle.arraydeque.specs.Deque.{DequeState};

    ghost Value = { DequeState T };

    ghost view = { λ d. record {
      items = d.ring.items;
      start = d.ring.start;
      steps = d.ring.steps;
    } };

    ghost invariant = { λ d. (d.ring.capacity ≡ CAP) × (length d.ring.items ≤ CAP) };
}

impl<T, const CAP: usize, B: Behavior> ArrayDeque<T, CAP, B> {
    /// Returns an empty deque, over a new region of `CAP` places from `alloc`.
    ///
    /// Fails only if memory is refused, as it is for a region larger than the machine can name. At
    /// capacity 0 or for items of size zero it never fails.
    ///
    /// Start: 0. Steps: none.
    ///
    /// ```
    /// let deque = ArrayDeque::<i64, 4, Saturating>::new(alloc)?;
    /// assert!(rt; (deque.len(), deque.capacity()) == (0, 4));
    /// // No region is as large as that.
    /// assert!(rt; ArrayDeque::<i64, { usize::MAX }, Saturating>::new(alloc).is_err());
    /// ```
    pub fn new(alloc: Global) -> Result<Self, AllocError>
        ensures ok { IfOk result (λ deque. deque ≡ empty_deque) }
        ensures refused { OnErr result (0 < CAP * type_size T.row) }
    {
        let ring = Ring::new(alloc, CAP)?;
        Ok(Self::from_ring(ring))
    }

    /// Returns the deque over a ring of `CAP` places.
    #[inline]
    fn from_ring(ring: Ring<T>) -> Self
        requires capacity { ring.capacity ≡ CAP }
        requires within { length ring.items ≤ CAP }
        ensures { as_ring CAP result ≡ ring }
    {
        ArrayDeque {
            ring,
            behavior: PhantomData,
        }
    }

    /// Returns the deque's ring.
    #[inline]
    pub(crate) fn into_ring(self) -> Ring<T>
        ensures { result ≡ as_ring CAP self }
    {
        let ArrayDeque { ring, behavior: _ } = self;
        ring
    }

    /// Returns how many items the deque can hold: `CAP`.
    ///
    /// ```
    /// let mut deque = ArrayDeque::<i64, 3, Wrapping>::new(alloc)?;
    /// deque.extend_back([1, 2]);
    /// assert!(rt; (deque.len(), deque.capacity()) == (2, 3));
    /// ```
    #[inline]
    pub fn capacity(&self) -> usize
        ensures capacity { result ≡ CAP }
        ensures within { length self.now.items ≤ CAP }
    {
        // This borrow makes it known that the list fits the capacity.
        let _ring = &self.ring;
        CAP
    }

    /// Returns how many items the deque holds, which is `CAP` at most.
    ///
    /// ```
    /// let mut deque = ArrayDeque::<i64, 3, Wrapping>::new(alloc)?;
    /// deque.extend_back([1, 2, 3, 4]);
    /// assert!(rt; deque.len() == 3);
    /// assert!(rt; deque.pop_front() == Some(2));
    /// assert!(rt; deque.len() == 2);
    /// ```
    #[inline]
    pub fn len(&self) -> usize
        ensures len { result ≡ length self.now.items }
        ensures within { result ≤ CAP }
        // This holds of every deque. By it, what `fill_buf` lends is empty only if the deque is.
        ensures start { self.now.start ≤ CAP - 1 }
    {
        self.ring.len()
    }

    /// Returns whether the deque holds no item.
    ///
    /// ```
    /// let mut deque = ArrayDeque::<i64, 1, Saturating>::new(alloc)?;
    /// assert!(rt; deque.is_empty());
    /// assert!(rt; deque.push_back(1) == Ok(()));
    /// assert!(rt; !deque.is_empty());
    /// ```
    #[inline]
    pub fn is_empty(&self) -> bool
        ensures { result ≡ (length self.now.items == 0) }
    {
        self.len() == 0
    }

    /// Returns whether the deque holds `CAP` items. At capacity 0 it is full, and empty as well.
    ///
    /// ```
    /// let mut deque = ArrayDeque::<i64, 1, Saturating>::new(alloc)?;
    /// assert!(rt; !deque.is_full());
    /// assert!(rt; deque.push_back(1) == Ok(()));
    /// assert!(rt; deque.is_full());
    /// let none = ArrayDeque::<i64, 0, Saturating>::new(alloc)?;
    /// assert!(rt; none.is_full() && none.is_empty());
    /// ```
    #[inline]
    pub fn is_full(&self) -> bool
        ensures full { result ≡ (length self.now.items == CAP) }
        ensures within { length self.now.items ≤ CAP }
    {
        self.len() == CAP
    }

    /// Removes the first item and returns it, or returns `None` if the deque is empty. No other
    /// item moves.
    ///
    /// Start: 1 up. Steps: 1 take.
    ///
    /// ```
    /// let mut deque = ArrayDeque::<i64, 3, Saturating>::new(alloc)?;
    /// deque.extend_back([1, 2]);
    /// assert!(rt; deque.pop_front() == Some(1));
    /// assert!(rt; deque.pop_front() == Some(2));
    /// assert!(rt; deque.pop_front() == None);
    /// ```
    #[inline]
    pub fn pop_front(&mut self) -> Option<T>
        // If there is an item, the first is removed and returned.
        ensures value { result ≡ slice_get self.old.items 0 }
        ensures items { self.new.items ≡ drop 1 self.old.items }
        ensures start { OnSome result (self.new.start ≡ place_of self.old.start 1 CAP) }
        ensures steps { OnSome result (self.new.steps ≡ more_takes 1 self.old.steps) }

        // If there is none, nothing changes.
        ensures none { IfNone result (self.new ≡ self.old) }
        ensures empty { IfNone result (self.old.items ≡ []) }

        // No item is lost, a pop leaves room, and the list always fits.
        ensures conserved { option_to_list result ++ self.new.items ≡ self.old.items }
        ensures room { OnSome result (length self.new.items < CAP) }
        ensures within { length self.new.items ≤ CAP }
    {
        self.ring.pop_front()
    }

    /// Removes the last item and returns it, or returns `None` if the deque is empty. No other item
    /// moves.
    ///
    /// Start: stays. Steps: 1 take.
    ///
    /// ```
    /// let mut deque = ArrayDeque::<i64, 3, Saturating>::new(alloc)?;
    /// deque.extend_back([1, 2]);
    /// assert!(rt; deque.pop_back() == Some(2));
    /// assert!(rt; deque.pop_back() == Some(1));
    /// assert!(rt; deque.pop_back() == None);
    /// ```
    #[tactic(auto, using(arraydeque_ring::proofs::LastPopped::last_and_rest))]
    #[inline]
    pub fn pop_back(&mut self) -> Option<T>
        // If there is an item, the last is removed and returned.
        ensures value { result ≡ last_item self.old.items }
        ensures items { self.new.items ≡ take (length self.old.items - 1) self.old.items }
        ensures start { self.new.start ≡ self.old.start }
        ensures steps { OnSome result (self.new.steps ≡ more_takes 1 self.old.steps) }

        // If there is none, nothing changes.
        ensures none { IfNone result (self.new ≡ self.old) }
        ensures empty { IfNone result (self.old.items ≡ []) }

        // No item is lost, a pop leaves room, and the list always fits.
        ensures conserved { self.new.items ++ option_to_list result ≡ self.old.items }
        ensures room { OnSome result (length self.new.items < CAP) }
        ensures within { length self.new.items ≤ CAP }
    {
        self.ring.pop_back()
    }

    pub(crate) fn alloc(&self) -> Global {
        self.ring.alloc()
    }
}

impl<T: fmt::Debug, const CAP: usize, B: Behavior> fmt::Debug for ArrayDeque<T, CAP, B> {
    /// Writes the items as a list.
    ///
    /// ```
    /// let mut deque = ArrayDeque::<i64, 4, Wrapping>::new(alloc)?;
    /// deque.extend_back([0, 1, 2]);
    /// let text = format!(in alloc; "{deque:?}")?;
    /// assert!(rt; text.as_str() == "[0, 1, 2]");
    /// ```
    fn fmt<W: fmt::Write>(&self, f: &mut fmt::Formatter<W>) -> fmt::Result {
        let (front, back) = self.as_slices();
        f.debug_list().slice(front).slice(back).finish()
    }
}
