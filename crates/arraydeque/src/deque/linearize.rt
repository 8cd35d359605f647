//! Laying the list in one piece.
ghost use Rattle.std.specs.Prelude.{◌≡◌, ◌≤◌, length};
ghost use Rattle.arraydeque_ring.specs.Ring.{IsInOnePiece};
ghost use Rattle.arraydeque_ring.specs.Steps.{Rearranges};
ghost use Rattle.arraydeque.specs.Deque.{as_ring};

use super::ArrayDeque;
use crate::behavior::Behavior;

impl<T, const CAP: usize, B: Behavior> ArrayDeque<T, CAP, B> {
    /// Lays the list in one piece, so that the first slice of `as_slices` has all items. If the
    /// list lies in one piece already, nothing happens.
    ///
    /// It works in place and takes no memory.
    ///
    /// Start: 0, or stays if nothing happens.
    /// Steps: moves and exchanges, together no more than there are items; none if nothing happens.
    ///
    /// ```
    /// let mut deque = ArrayDeque::<i64, 4, Saturating>::new(alloc)?;
    /// deque.extend_back([2, 3]);
    /// deque.extend_front([1]);
    /// assert!(rt; deque.as_slices().0 == [1].as_slice());
    /// deque.linearize();
    /// assert!(rt; deque.as_slices().0 == [1, 2, 3].as_slice());
    /// ```
    pub fn linearize(&mut self)
        // The items lie in one piece.
        ensures items { self.new.items ≡ self.old.items }
        ensures one_piece { IsInOnePiece (as_ring CAP self.new) }
        ensures within { length self.new.items ≤ CAP }

        // If they wrapped, they start at 0, with no more moves and exchanges than items.
        ensures start { ¬ IsInOnePiece (as_ring CAP self.old) → self.new.start ≡ 0 }
        ensures steps { Rearranges (length self.old.items) self.old.steps self.new.steps }

        // If they lay in one piece before, nothing changes.
        ensures unchanged { IsInOnePiece (as_ring CAP self.old) → self.new ≡ self.old }
    {
        self.ring.linearize();
    }
}
