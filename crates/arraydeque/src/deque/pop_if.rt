//! Pops of an item that a closure wants.
ghost use Rattle.std.specs.Prelude.{◌≡◌, ◌<◌, ◌≤◌, length, min, slice_get, OnSome, IfNone};
ghost use Rattle.std.specs.Option.{ForSome};
ghost use Rattle.std.specs.Fn.{FnOnceTakesAtMut};
ghost use Rattle.std.specs.List.Retain.{PopsIf, PopsFrontIf};
ghost use Rattle.arraydeque_ring.specs.Ring.{place_of};
ghost use Rattle.arraydeque_ring.specs.Steps.{more_lends, more_takes};
ghost use Rattle.arraydeque.specs.Deque.{last_item};

use super::ArrayDeque;
use crate::behavior::Behavior;

impl<T, const CAP: usize, B: Behavior> ArrayDeque<T, CAP, B> {
    /// Removes the first item and returns it, if `predicate` returns true for it. Otherwise returns
    /// `None`, and the item stays as `predicate` left it. No other item moves. An empty deque
    /// doesn't call `predicate`.
    ///
    /// Start: 1 up if the item is removed, otherwise stays.
    /// Steps: 1 lend if there is an item, 1 take if it is removed.
    ///
    /// ```
    /// let mut deque = ArrayDeque::<i64, 3, Saturating>::new(alloc)?;
    /// deque.extend_back([1, 2, 3]);
    /// assert!(rt; deque.pop_front_if(|item| *item < 2) == Some(1));
    /// assert!(rt; deque.pop_front_if(|item| *item < 2) == None);
    /// assert!(rt; deque.into_vec()?.as_slice() == [2, 3].as_slice());
    /// ```
    pub fn pop_front_if<P: FnOnce(&mut T) -> bool>(&mut self, predicate: P) -> Option<T>
        // If there is an item, `predicate` may be called on the first.
        requires { ForSome (slice_get self.old.items 0) (FnOnceTakesAtMut P.FnOnce predicate) }

        // If `predicate` returns true, the item goes. If not, it stays as `predicate` left it.
        ensures cases { PopsFrontIf P.FnOnce self.old.items self.new.items predicate result }

        // If it goes: where the list lies, and what it cost.
        ensures start { OnSome result (self.new.start ≡ place_of self.old.start 1 CAP) }
        ensures steps { OnSome result (self.new.steps ≡
            more_takes 1 (more_lends 1 self.old.steps)) }

        // If it stays, it is lent, and no more. If there is none, nothing changes.
        ensures none { IfNone result (self.new ≡ record self.old {
          items = self.new.items;
          steps = more_lends (min 1 (length self.old.items)) self.old.steps;
        }) }

        // A pop shortens the list, which always fits.
        ensures shorter { OnSome result (length self.new.items < length self.old.items) }
        ensures within { length self.new.items ≤ CAP }
    {
        let item = self.front_mut()?;
        if predicate(item) {
            self.pop_front()
        } else {
            None
        }
    }

    /// Removes the last item and returns it, if `predicate` returns true for it. Otherwise returns
    /// `None`, and the item stays as `predicate` left it. No other item moves. An empty deque
    /// doesn't call `predicate`.
    ///
    /// Start: stays. Steps: 1 lend if there is an item, 1 take if it is removed.
    ///
    /// ```
    /// let mut deque = ArrayDeque::<i64, 3, Saturating>::new(alloc)?;
    /// deque.extend_back([5, 2, 3]);
    /// while deque.pop_back_if(|item| *item < 4).is_some() {}
    /// assert!(rt; deque.into_vec()?.as_slice() == [5].as_slice());
    /// ```
    pub fn pop_back_if<P: FnOnce(&mut T) -> bool>(&mut self, predicate: P) -> Option<T>
        // If there is an item, `predicate` may be called on the last.
        requires { ForSome (last_item self.old.items) (FnOnceTakesAtMut P.FnOnce predicate) }

        // If `predicate` returns true, the item goes. If not, it stays as `predicate` left it.
        ensures cases { PopsIf P.FnOnce self.old.items self.new.items predicate result }

        // If it goes: where the list lies, and what it cost.
        ensures start { self.new.start ≡ self.old.start }
        ensures steps { OnSome result (self.new.steps ≡
            more_takes 1 (more_lends 1 self.old.steps)) }

        // If it stays, it is lent, and no more. If there is none, nothing changes.
        ensures none { IfNone result (self.new ≡ record self.old {
          items = self.new.items;
          steps = more_lends (min 1 (length self.old.items)) self.old.steps;
        }) }

        // A pop shortens the list, which always fits.
        ensures shorter { OnSome result (length self.new.items < length self.old.items) }
        ensures within { length self.new.items ≤ CAP }
    {
        let item = self.back_mut()?;
        if predicate(item) {
            self.pop_back()
        } else {
            None
        }
    }
}
