//! Pushes, which differ by the policy.
ghost use Rattle.std.specs.Prelude.{◌≡◌, ◌<◌, ◌≤◌, ◌+◌, ◌-◌, ◌++◌, ◌∷◌, [], length, take, drop, slice_get, option_to_list, IfErr, IfSome, OnOk, OnErr, IsNone, IsOk, ◌↔◌};
ghost use Rattle.arraydeque_ring.specs.Ring.{place_of, up_by};
ghost use Rattle.arraydeque_ring.specs.Steps.{more_puts, more_takes};
ghost use Rattle.arraydeque.specs.Deque.{keep_last};

use super::ArrayDeque;
use crate::behavior::{Saturating, Wrapping};
use crate::error::CapacityError;

impl<T, const CAP: usize> ArrayDeque<T, CAP, Saturating> {
    /// Adds an element at the front. If the deque is full, returns it in the error, and nothing has
    /// changed. No item moves.
    ///
    /// Start: 1 down. Steps: 1 put.
    ///
    /// ```
    /// let mut deque = ArrayDeque::<i64, 2, Saturating>::new(alloc)?;
    /// assert!(rt; deque.push_front(2) == Ok(()));
    /// assert!(rt; deque.push_front(1) == Ok(()));
    /// assert!(rt; deque.push_front(0) == Err(CapacityError { element: 0 }));
    /// assert!(rt; deque.front() == Some(&1));
    /// ```
    #[inline]
    pub fn push_front(&mut self, element: T) -> Result<(), CapacityError<T>>
        // If there is room, the element is the first item.
        ensures room { IsOk result ↔ (length self.old.items < CAP) }
        ensures items { OnOk result (self.new.items ≡ element ∷ self.old.items) }
        ensures start { OnOk result (self.new.start ≡ place_of self.old.start (CAP - 1) CAP) }
        ensures steps { OnOk result (self.new.steps ≡ more_puts 1 self.old.steps) }

        // If the deque is full, the element comes back, and nothing changes.
        ensures full { IfErr result (λ refusal. refusal.element ≡ element) }
        ensures unchanged { OnErr result (self.new ≡ self.old) }

        // The list always fits.
        ensures within { length self.new.items ≤ CAP }
    {
        if self.is_full() {
            return Err(CapacityError { element });
        }
        self.ring.push_front_given(CAP, element);
        Ok(())
    }

    /// Adds an element at the back. If the deque is full, returns it in the error, and nothing has
    /// changed. No item moves.
    ///
    /// Start: stays. Steps: 1 put.
    ///
    /// ```
    /// let mut deque = ArrayDeque::<i64, 3, Saturating>::new(alloc)?;
    /// deque.extend_back([1, 2]);
    /// assert!(rt; deque.push_back(3) == Ok(()));
    /// assert!(rt; deque.push_back(4) == Err(CapacityError { element: 4 }));
    /// ```
    #[inline]
    pub fn push_back(&mut self, element: T) -> Result<(), CapacityError<T>>
        // If there is room, the element is the last item.
        ensures room { IsOk result ↔ (length self.old.items < CAP) }
        ensures items { OnOk result (self.new.items ≡ self.old.items ++ element ∷ []) }
        ensures start { self.new.start ≡ self.old.start }
        ensures steps { OnOk result (self.new.steps ≡ more_puts 1 self.old.steps) }

        // If the deque is full, the element comes back, and nothing changes.
        ensures full { IfErr result (λ refusal. refusal.element ≡ element) }
        ensures unchanged { OnErr result (self.new ≡ self.old) }

        // The list always fits.
        ensures within { length self.new.items ≤ CAP }
    {
        if self.is_full() {
            return Err(CapacityError { element });
        }
        self.ring.push_back_given(CAP, element);
        Ok(())
    }
}

impl<T, const CAP: usize> ArrayDeque<T, CAP, Wrapping> {
    /// Adds an element at the front. If the deque is full, removes the last item to make room and
    /// returns that one; at capacity 0 returns the element itself. No kept item moves.
    ///
    /// Start: 1 down. Steps: 1 put, 1 take if the deque is full.
    ///
    /// ```
    /// let mut deque = ArrayDeque::<i64, 2, Wrapping>::new(alloc)?;
    /// assert!(rt; deque.push_front(2) == None);
    /// assert!(rt; deque.push_front(1) == None);
    /// // 2 is removed for it, at the back.
    /// assert!(rt; deque.push_front(0) == Some(2));
    /// assert!(rt; (deque.front(), deque.back()) == (Some(&0), Some(&1)));
    /// ```
    #[inline]
    pub fn push_front(&mut self, element: T) -> Option<T>
        // The element is the first item, and of a full deque the last one is displaced.
        ensures room { IsNone result ↔ (length self.old.items < CAP) }
        ensures displaced { IfSome result (λ item. 0 < CAP →
            self.old.items ≡ take (CAP - 1) self.old.items ++ item ∷ []) }
        ensures value { result ≡ slice_get (element ∷ self.old.items) CAP }
        ensures items { self.new.items ≡ take CAP (element ∷ self.old.items) }
        ensures start { 0 < CAP → self.new.start ≡ place_of self.old.start (CAP - 1) CAP }
        ensures steps { let out = length self.old.items + 1 - CAP in
            0 < CAP → self.new.steps ≡ more_puts 1 (more_takes out self.old.steps) }

        // At capacity 0 nothing changes.
        ensures no_places { CAP ≡ 0 → self.new ≡ self.old }

        // No item is lost, and the list always fits.
        ensures conserved { self.new.items ++ option_to_list result ≡ element ∷ self.old.items }
        ensures within { length self.new.items ≤ CAP }
    {
        if !self.is_full() {
            self.ring.push_front_given(CAP, element);
            return None;
        }
        if CAP == 0 {
            return Some(element);
        }
        Some(self.ring.replace_last(CAP, element))
    }

    /// Adds an element at the back. If the deque is full, removes the first item to make room and
    /// returns that one; at capacity 0 returns the element itself. No kept item moves.
    ///
    /// Start: 1 up if the deque is full, otherwise stays. Steps: 1 put, 1 take if it is full.
    ///
    /// ```
    /// let mut deque = ArrayDeque::<i64, 2, Wrapping>::new(alloc)?;
    /// deque.extend_back([1, 2]);
    /// // 1 is removed for it, at the front.
    /// assert!(rt; deque.push_back(3) == Some(1));
    /// let mut none = ArrayDeque::<i64, 0, Wrapping>::new(alloc)?;
    /// assert!(rt; none.push_back(3) == Some(3));
    /// ```
    #[inline]
    pub fn push_back(&mut self, element: T) -> Option<T>
        // The element is the last item, and of a full deque the first one is displaced.
        ensures room { IsNone result ↔ (length self.old.items < CAP) }
        ensures displaced { IfSome result (λ item. 0 < CAP →
            self.old.items ≡ item ∷ drop 1 self.old.items) }
        ensures value { let out = length self.old.items + 1 - CAP in
            option_to_list result ≡ take out (self.old.items ++ element ∷ []) }
        ensures items { self.new.items ≡ keep_last CAP (self.old.items ++ element ∷ []) }
        ensures start { let out = length self.old.items + 1 - CAP in
            0 < CAP → self.new.start ≡ up_by out self.old.start CAP }
        ensures steps { let out = length self.old.items + 1 - CAP in
            0 < CAP → self.new.steps ≡ more_puts 1 (more_takes out self.old.steps) }

        // At capacity 0 nothing changes.
        ensures no_places { CAP ≡ 0 → self.new ≡ self.old }

        // No item is lost, and the list always fits.
        ensures conserved { option_to_list result ++ self.new.items ≡
            self.old.items ++ element ∷ [] }
        ensures within { length self.new.items ≤ CAP }
    {
        if !self.is_full() {
            self.ring.push_back_given(CAP, element);
            return None;
        }
        if CAP == 0 {
            return Some(element);
        }
        Some(self.ring.replace_first(CAP, element))
    }
}
