//! Calls that open or close a gap: an insert, which only one policy offers, a removal, and
//! rotations.
ghost use Rattle.std.specs.Prelude.{◌≡◌, ◌<◌, ◌≤◌, ◌-◌, ◌++◌, length, take, drop, slice_get, IfErr, OnOk, OnErr, OnSome, IfNone, IsOk, ◌↔◌};
ghost use Rattle.std.specs.List.{insert, remove};
ghost use Rattle.arraydeque_ring.specs.Changed.{InsertMovesFewest, RemoveMovesFewest, RotateMovesFewest};
ghost use Rattle.arraydeque_ring.specs.Sides.{moves_to_insert, moves_to_remove, moves_to_rotate, start_opened, start_closed, start_rotated};
ghost use Rattle.arraydeque_ring.specs.Steps.{more_moves, more_puts, more_takes};
ghost use Rattle.arraydeque.specs.Deque.{as_ring};

use super::ArrayDeque;
use crate::behavior::{Behavior, Saturating};
use crate::error::CapacityError;

impl<T, const CAP: usize> ArrayDeque<T, CAP, Saturating> {
    /// Adds an element before the item at an index, or at the back if the index is the length.
    /// Requires an index up to the length. If the deque is full, returns the element in the error,
    /// and nothing has changed.
    ///
    /// Either the items before the index move by one place, or those from it on: whichever are
    /// fewer, and on a tie the latter. So at most half of the items move.
    ///
    /// Start: 1 down if fewer items are before the index than from it on, otherwise stays.
    /// Steps: 1 put, 1 move for each item that moves.
    ///
    /// ```
    /// let mut deque = ArrayDeque::<i64, 4, Saturating>::new(alloc)?;
    /// deque.extend_back([1, 2, 3]);
    /// assert!(rt; deque.len() == 3);
    /// assert!(rt; deque.insert(1, 9) == Ok(()));
    /// assert!(rt; deque.insert(0, 8) == Err(CapacityError { element: 8 }));
    /// assert!(rt; deque.into_vec()?.as_slice() == [1, 9, 2, 3].as_slice());
    /// ```
    pub fn insert(&mut self, index: usize, element: T) -> Result<(), CapacityError<T>>
        requires { index ≤ length self.old.items }

        // If there is room, the element comes before the item at the index.
        ensures room { IsOk result ↔ (length self.old.items < CAP) }
        ensures items { OnOk result (self.new.items ≡ insert self.old.items index element) }
        ensures start { OnOk result (self.new.start ≡
            start_opened index (as_ring CAP self.old)) }
        ensures steps { OnOk result (self.new.steps ≡ more_puts 1
            (more_moves (moves_to_insert index (length self.old.items)) self.old.steps)) }
        ensures fewest { OnOk result (InsertMovesFewest
            index (as_ring CAP self.old) self.new.start) }

        // If the deque is full, the element comes back, and nothing changes.
        ensures full { IfErr result (λ refusal. refusal.element ≡ element) }
        ensures unchanged { OnErr result (self.new ≡ self.old) }

        // The list always fits.
        ensures within { length self.new.items ≤ CAP }
    {
        if self.is_full() {
            return Err(CapacityError { element });
        }
        self.ring.insert(index, element);
        Ok(())
    }
}

impl<T, const CAP: usize, B: Behavior> ArrayDeque<T, CAP, B> {
    /// Removes the item at an index and returns it, or returns `None` if there is none.
    ///
    /// The items before it or those behind it move by one place, whichever are fewer, and on a tie
    /// the latter. So fewer than half of the items move.
    ///
    /// Start: 1 up if fewer items are before the index than behind it, otherwise stays.
    /// Steps: 1 take, 1 move for each item that moves.
    ///
    /// ```
    /// let mut deque = ArrayDeque::<i64, 4, Saturating>::new(alloc)?;
    /// deque.extend_back([1, 2, 3, 4]);
    /// // Only 1 moves.
    /// assert!(rt; deque.remove(1) == Some(2));
    /// assert!(rt; deque.remove(3) == None);
    /// assert!(rt; deque.into_vec()?.as_slice() == [1, 3, 4].as_slice());
    /// ```
    pub fn remove(&mut self, index: usize) -> Option<T>
        // In range, the item at the index is removed and returned.
        ensures value { result ≡ slice_get self.old.items index }
        ensures items { self.new.items ≡ remove self.old.items index }
        ensures start { OnSome result (self.new.start ≡
            start_closed index 1 (as_ring CAP self.old)) }
        ensures steps { OnSome result (self.new.steps ≡
            more_moves (moves_to_remove index (length self.old.items))
            (more_takes 1 self.old.steps)) }
        ensures fewest { OnSome result (RemoveMovesFewest
            index (as_ring CAP self.old) self.new.start) }

        // Out of range nothing changes.
        ensures none { IfNone result (self.new ≡ self.old) }

        // A removal leaves room, and the list always fits.
        ensures room { OnSome result (length self.new.items < CAP) }
        ensures within { length self.new.items ≤ CAP }
    {
        if index >= self.len() {
            return None;
        }
        Some(self.ring.remove(index))
    }

    /// Puts the first `count` items behind the others. Requires a count up to the length.
    ///
    /// In a full deque no item moves. Otherwise the first `count` items or the others move,
    /// whichever are fewer, and on a tie the first. So at most half of the items move.
    ///
    /// Start: `count` up, or if the others are fewer, 1 down for each of these.
    /// Steps: 1 move for each item that moves.
    ///
    /// ```
    /// let mut deque = ArrayDeque::<i64, 5, Saturating>::new(alloc)?;
    /// deque.extend_back([1, 2, 3, 4]);
    /// assert!(rt; deque.len() == 4);
    /// // Only 1 moves.
    /// deque.rotate_left(1);
    /// assert!(rt; deque.into_vec()?.as_slice() == [2, 3, 4, 1].as_slice());
    /// ```
    #[inline]
    pub fn rotate_left(&mut self, count: usize)
        requires { count ≤ length self.old.items }
        ensures items { self.new.items ≡ drop count self.old.items ++ take count self.old.items }
        ensures within { length self.new.items ≤ CAP }
        ensures start { self.new.start ≡ start_rotated count (as_ring CAP self.old) }
        ensures steps { self.new.steps ≡ more_moves
            (moves_to_rotate count (length self.old.items) CAP) self.old.steps }
        ensures fewest { RotateMovesFewest count (as_ring CAP self.old) self.new.start }
    {
        self.ring.rotate_left(count);
    }

    /// Puts the last `count` items before the others. Requires a count up to the length.
    ///
    /// In a full deque no item moves. Otherwise the last `count` items or the others move,
    /// whichever are fewer, and on a tie the others. So at most half of the items move.
    ///
    /// Start: 1 up for each of the others, or if the last `count` are fewer, `count` down.
    /// Steps: 1 move for each item that moves.
    ///
    /// ```
    /// let mut deque = ArrayDeque::<i64, 5, Saturating>::new(alloc)?;
    /// deque.extend_back([1, 2, 3, 4]);
    /// assert!(rt; deque.len() == 4);
    /// // Only 4 moves.
    /// deque.rotate_right(1);
    /// assert!(rt; deque.into_vec()?.as_slice() == [4, 1, 2, 3].as_slice());
    /// ```
    #[inline]
    pub fn rotate_right(&mut self, count: usize)
        requires { count ≤ length self.old.items }
        ensures items { let others = length self.old.items - count in
            self.new.items ≡ drop others self.old.items ++ take others self.old.items }
        ensures within { length self.new.items ≤ CAP }
        ensures start { let others = length self.old.items - count in
            self.new.start ≡ start_rotated others (as_ring CAP self.old) }
        ensures steps { let len = length self.old.items in self.new.steps ≡
            more_moves (moves_to_rotate (len - count) len CAP) self.old.steps }
        ensures fewest { let others = length self.old.items - count in
            RotateMovesFewest others (as_ring CAP self.old) self.new.start }
    {
        let others = self.len() - count;
        self.ring.rotate_left(others);
    }
}
