//! Dropping the items that a closure rejects.
ghost use Rattle.std.specs.Prelude.{◌≡◌, ◌≤◌, Bool, length, map};
ghost use Rattle.std.specs.List.{filter};
ghost use Rattle.std.specs.Fn.{CalledAt, CalledAtMut};
ghost use Rattle.std.specs.List.Retain.{IsFiltered, RetainsInTurn};
ghost use Rattle.arraydeque_ring.specs.Computed.{ComputesAt, ComputesAtMut};
ghost use Rattle.arraydeque_ring.specs.Retained.{Retains, RetainsMut, MayBeAsked, MayBeAskedMut};
ghost use Rattle.arraydeque.specs.Deque.{as_ring};

use super::ArrayDeque;
use crate::behavior::Behavior;

impl<T, const CAP: usize, B: Behavior> ArrayDeque<T, CAP, B> {
    /// Keeps the items for which `f` returns true, in order, and drops the others. `f` is called
    /// once on each item, front to back.
    ///
    /// It works in place and takes no memory: each kept item behind the first removed one moves
    /// once.
    ///
    /// Start: stays. Steps: 1 take for each item dropped, 1 move for each whose index changes.
    ///
    /// ```
    /// let mut deque = ArrayDeque::<i64, 5, Saturating>::new(alloc)?;
    /// deque.extend_back([1, 2, 3, 4, 5]);
    /// // 3 and 5 move, once each.
    /// deque.retain(|item| item % 2 == 1);
    /// assert!(rt; deque.into_vec()?.as_slice() == [1, 3, 5].as_slice());
    /// ```
    pub fn retain<F: FnMut(&T) -> bool>(&mut self, f: F)
    where
        T: Drop,
        F: Drop,
        requires { MayBeAsked F.FnMut f self.old.items }

        // If `f` computes a test, the items that pass it stay.
        ensures tested { (test : T → Bool) → ComputesAt F.FnMut test f
            → self.new.items ≡ filter test self.old.items }

        // Whatever `f` answers: which items stay, where the list lies, and what it cost.
        ensures retains { Retains (CalledAt F.FnMut) f
            (as_ring CAP self.old) (as_ring CAP self.new) }

        // Of this, the items alone. The list gets no longer, and always fits.
        ensures filtered { IsFiltered (CalledAt F.FnMut) f self.old.items self.new.items }
        ensures no_longer { length self.new.items ≤ length self.old.items }
        ensures within { length self.new.items ≤ CAP }
    {
        self.ring.retain(f);
    }

    /// Keeps the items for which `f` returns true, in order and as `f` left them, and drops the
    /// others. `f` is called once on each item, front to back.
    ///
    /// It works in place and takes no memory: each kept item behind the first removed one moves
    /// once.
    ///
    /// Start: stays.
    /// Steps: 1 lend for each item, 1 take for each item dropped, 1 move for each whose index
    /// changes.
    ///
    /// ```
    /// let mut deque = ArrayDeque::<i64, 4, Saturating>::new(alloc)?;
    /// deque.extend_back([3, 1, 4, 2]);
    /// // Each item is lowered by one, and removed if it is 0 then.
    /// deque.retain_mut(|item| {
    ///     *item = item.saturating_sub(1);
    ///     *item != 0
    /// });
    /// assert!(rt; deque.into_vec()?.as_slice() == [2, 3, 1].as_slice());
    /// ```
    pub fn retain_mut<F: FnMut(&mut T) -> bool>(&mut self, f: F)
    where
        T: Drop,
        F: Drop,
        requires { MayBeAskedMut F.FnMut f self.old.items }

        // If `f` computes a test and a change, the items that pass the test stay, so changed.
        ensures tested { (test : T → Bool) (change : T → T) → ComputesAtMut F.FnMut test change f
            → self.new.items ≡ map change (filter test self.old.items) }

        // Whatever `f` answers and writes: which items stay, where the list lies, and what it cost.
        ensures retains { RetainsMut (CalledAtMut F.FnMut) f
            (as_ring CAP self.old) (as_ring CAP self.new) }

        // Of this, the items alone. The list gets no longer, and always fits.
        ensures filtered { RetainsInTurn (CalledAtMut F.FnMut) f self.old.items self.new.items }
        ensures no_longer { length self.new.items ≤ length self.old.items }
        ensures within { length self.new.items ≤ CAP }
    {
        self.ring.retain_mut(f);
    }
}
