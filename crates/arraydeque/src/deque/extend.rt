//! Adding the items of an iterator.
ghost use Rattle.std.specs.Prelude.{◌≡◌, ◌≤◌, ◌-◌, length, map, take, false, IsOk};
ghost use Rattle.std.specs.Iterator.{IsFinite, IsFiniteIterable, ExtendsWithItems};
ghost use Rattle.arraydeque.specs.Deque.{with_back, with_front, WrapsBack, WrapsFront};
ghost use Rattle.arraydeque.specs.Sources.{IsIterable, TakesFrom, TakesAll};
ghost use Rattle.arraydeque_ring.specs.Fills.{Fills, Ends, GoesOn};

use super::ArrayDeque;
use crate::behavior::{Behavior, Saturating, Wrapping};
use std::alloc::AllocError;

impl<T, const CAP: usize> ArrayDeque<T, CAP, Saturating> {
    /// Adds the items of an iterator at the back, in order, while there is room. The iterator is
    /// asked for no more items than there is room for, and never after its first `None`. No item
    /// moves.
    ///
    /// Start: stays. Steps: 1 put for each item added.
    ///
    /// ```
    /// let mut deque = ArrayDeque::<i64, 3, Saturating>::new(alloc)?;
    /// let mut numbers = 1..=5;
    /// deque.extend_back(&mut numbers);
    /// // What finds no room isn't taken.
    /// assert!(rt; numbers.next() == Some(4));
    /// assert!(rt; deque.into_vec()?.as_slice() == [1, 2, 3].as_slice());
    /// ```
    ///
    /// So a deque is filled up to a length by calls of a closure.
    ///
    /// ```
    /// let mut deque = ArrayDeque::<i64, 4, Saturating>::from_array(alloc, [1])?;
    /// let room = 3_usize.saturating_sub(deque.len());
    /// deque.extend_back(std::iter::repeat_with(|| 7).take(room));
    /// assert!(rt; deque.into_vec()?.as_slice() == [1, 7, 7].as_slice());
    /// ```
    #[inline(never)] // Inlined, 64 bytes took 1.15 of `VecDeque`'s time, not 1.
    pub fn extend_back<I: IntoIterator<Item = T>>(&mut self, iter: I)
        requires { IsIterable I.into_iter_gives I.IntoIter.can_next iter }

        // Of what the iterator gives, as much is added as there is room for.
        ensures taken { let room = CAP - length self.old.items in
            TakesFrom I.into_iter_gives I.IntoIter.next_gives iter room
            (λ came. self.new ≡ with_back came self.old) }
    {
        let mut elements = iter.into_iter();
        self.fill_back(&mut elements);
    }

    /// Adds the items of an iterator at the front, one by one, while there is room: the last one
    /// taken is the first afterwards. The iterator is asked for no more items than there is room
    /// for, and never after its first `None`. No item moves.
    ///
    /// Start: 1 down for each item added. Steps: 1 put for each.
    ///
    /// ```
    /// let mut deque = ArrayDeque::<i64, 3, Saturating>::new(alloc)?;
    /// deque.extend_back([9]);
    /// deque.extend_front([1, 2, 3]);
    /// assert!(rt; deque.into_vec()?.as_slice() == [2, 1, 9].as_slice());
    /// ```
    pub fn extend_front<I: IntoIterator<Item = T>>(&mut self, iter: I)
        requires { IsIterable I.into_iter_gives I.IntoIter.can_next iter }

        // Of what the iterator gives, as much is added as there is room for.
        ensures taken { let room = CAP - length self.old.items in
            TakesFrom I.into_iter_gives I.IntoIter.next_gives iter room
            (λ came. self.new ≡ with_front CAP came self.old) }
    {
        let mut elements = iter.into_iter();
        self.fill_front(&mut elements);
    }
}

impl<T, const CAP: usize, B: Behavior> ArrayDeque<T, CAP, B> {
    /// Adds the items of an iterator at the back, in order, while there is room. Returns whether
    /// the iterator ended before the deque was full.
    #[inline(always)] // By a call, a vector's items took three times as long.
    fn fill_back<I: Iterator<Item = T>>(&mut self, elements: &mut I) -> bool
        requires { I.can_next elements.old }
        ensures came { Fills I.next_gives elements.old elements.new
            (CAP - length self.old.items) result (λ xs. self.new ≡ with_back xs self.old) }
        ensures within { length self.new.items ≤ CAP }
        ensures full { result ≡ false → length self.new.items ≡ CAP }
        ensures goes { GoesOn I.can_next I.remaining elements.old elements.new result }
    {
        self.ring.fill_back(elements)
    }

    /// Adds the items of an iterator at the front, one by one, while there is room. Returns whether
    /// the iterator ended before the deque was full.
    #[inline(always)] // By a call, a vector's items took three times as long.
    fn fill_front<I: Iterator<Item = T>>(&mut self, elements: &mut I) -> bool
        requires { I.can_next elements.old }
        ensures came { Fills I.next_gives elements.old elements.new
            (CAP - length self.old.items) result (λ xs. self.new ≡ with_front CAP xs self.old) }
        ensures within { length self.new.items ≤ CAP }
        ensures full { result ≡ false → length self.new.items ≡ CAP }
        ensures goes { GoesOn I.can_next I.remaining elements.old elements.new result }
    {
        self.ring.fill_front(elements)
    }
}

/// Drops what the iterator gives, until it ends.
fn drop_all<T: Drop, I: Iterator<Item = T>>(elements: I)
    requires may { I.can_next elements }
    requires ends { IsFinite (I.remaining elements) }
    ensures { Ends I.next_gives elements (λ xs. Unit {0}) }
{
    for element in elements {
        drop(element);
    }
}

impl<T: Drop, const CAP: usize> ArrayDeque<T, CAP, Wrapping> {
    /// Adds the items of an iterator at the back, in order. For each item that finds the deque
    /// full, the first item is dropped; at capacity 0, the new item itself is. Requires an iterator
    /// that ends. No kept item moves.
    ///
    /// Start: 1 up for each item dropped.
    /// Steps: 1 put for each item of the iterator, 1 take for each item dropped.
    ///
    /// ```
    /// let mut deque = ArrayDeque::<i64, 3, Wrapping>::new(alloc)?;
    /// deque.extend_back([1, 2]);
    /// deque.extend_back([3, 4]);
    /// assert!(rt; deque.into_vec()?.as_slice() == [2, 3, 4].as_slice());
    /// ```
    pub fn extend_back<I: IntoIterator<Item = T>>(&mut self, iter: I)
        requires { IsFiniteIterable
            I.into_iter_gives I.IntoIter.can_next I.IntoIter.remaining iter }

        // All that the iterator gives is pushed, one by one.
        ensures taken { TakesAll I.into_iter_gives I.IntoIter.next_gives iter
            (λ came. WrapsBack CAP self.old came self.new) }
    {
        let mut elements = iter.into_iter();
        if self.capacity() == 0 {
            drop_all(elements);
            return;
        }
        let ended = self.fill_back(&mut elements);
        if ended {
            return;
        }
        self.ring.displace_first(elements);
    }

    /// Adds the items of an iterator at the front, one by one: the last one is the first
    /// afterwards. For each item that finds the deque full, the last item is dropped; at capacity
    /// 0, the new item itself is. Requires an iterator that ends. No kept item moves.
    ///
    /// Start: 1 down for each item of the iterator.
    /// Steps: 1 put for each of these, 1 take for each item dropped.
    ///
    /// ```
    /// let mut deque = ArrayDeque::<i64, 3, Wrapping>::new(alloc)?;
    /// deque.extend_back([1, 2]);
    /// deque.extend_front([3, 4]);
    /// assert!(rt; deque.into_vec()?.as_slice() == [4, 3, 1].as_slice());
    /// ```
    pub fn extend_front<I: IntoIterator<Item = T>>(&mut self, iter: I)
        requires { IsFiniteIterable
            I.into_iter_gives I.IntoIter.can_next I.IntoIter.remaining iter }

        // All that the iterator gives is pushed, one by one.
        ensures taken { TakesAll I.into_iter_gives I.IntoIter.next_gives iter
            (λ came. WrapsFront CAP self.old came self.new) }
    {
        let mut elements = iter.into_iter();
        if self.capacity() == 0 {
            drop_all(elements);
            return;
        }
        let ended = self.fill_front(&mut elements);
        if ended {
            return;
        }
        self.ring.displace_last(elements);
    }
}

impl<T: Drop, const CAP: usize> Extend<T> for ArrayDeque<T, CAP, Saturating> {
    ghost extend_gives = { λ old xs new. new ≡ with_back (take (CAP - length old.items) xs) old };

    /// Adds the items of an iterator at the back, in order, while there is room, and drops the
    /// others. Unlike `extend_back`, it runs the iterator to its end. Requires an iterator that
    /// ends. It always returns `Ok`.
    ///
    /// Start: stays. Steps: 1 put for each item added.
    ///
    /// ```
    /// let mut deque = ArrayDeque::<i64, 3, Saturating>::new(alloc)?;
    /// let mut numbers = 1..=5;
    /// deque.extend(&mut numbers)?;
    /// assert!(rt; numbers.next() == None);
    /// assert!(rt; deque.into_vec()?.as_slice() == [1, 2, 3].as_slice());
    /// ```
    fn extend<I: IntoIterator<Item = T>>(&mut self, iter: I) -> Result<(), AllocError>
        requires { IsFiniteIterable
            I.into_iter_gives I.IntoIter.can_next I.IntoIter.remaining iter }

        // Of what the iterator gives, as much is added as there is room for.
        ensures taken { let room = CAP - length self.old.items in
            TakesAll I.into_iter_gives I.IntoIter.next_gives iter
            (λ came. self.new ≡ with_back (take room came) self.old) }
        ensures ok { IsOk result }

        // The same in std's words, for code that is generic over `Extend`.
        ensures ran { ExtendsWithItems I.into_iter_gives I.IntoIter.next_gives
            (λ old xs new. new ≡ with_back (take (CAP - length old.items) xs) old)
            iter self.old self.new result }
    {
        let mut elements = iter.into_iter();
        let ended = self.fill_back(&mut elements);
        if ended {
            return Ok(());
        }
        drop_all(elements);
        Ok(())
    }
}

impl<T: Drop, const CAP: usize> Extend<T> for ArrayDeque<T, CAP, Wrapping> {
    ghost extend_gives = { WrapsBack CAP };

    /// Adds the items of an iterator at the back, as `extend_back` does: a full deque drops its
    /// first item for each. Requires an iterator that ends. It always returns `Ok`.
    ///
    /// Start: 1 up for each item dropped.
    /// Steps: 1 put for each item of the iterator, 1 take for each item dropped.
    ///
    /// ```
    /// let mut deque = ArrayDeque::<i64, 3, Wrapping>::new(alloc)?;
    /// deque.extend([1, 2, 3, 4])?;
    /// assert!(rt; deque.into_vec()?.as_slice() == [2, 3, 4].as_slice());
    /// ```
    fn extend<I: IntoIterator<Item = T>>(&mut self, iter: I) -> Result<(), AllocError>
        requires { IsFiniteIterable
            I.into_iter_gives I.IntoIter.can_next I.IntoIter.remaining iter }

        // All that the iterator gives is pushed, one by one.
        ensures taken { TakesAll I.into_iter_gives I.IntoIter.next_gives iter
            (λ came. WrapsBack CAP self.old came self.new) }
        ensures ok { IsOk result }

        // The same in std's words, for code that is generic over `Extend`.
        ensures ran { ExtendsWithItems I.into_iter_gives I.IntoIter.next_gives
            (WrapsBack CAP) iter self.old self.new result }
    {
        self.extend_back(iter);
        Ok(())
    }
}

impl<'a, T: Copy + 'a, const CAP: usize> Extend<&'a T> for ArrayDeque<T, CAP, Saturating> {
    ghost extend_gives = { λ old xs new.
        new ≡ with_back (take (CAP - length old.items) (map (λ x. x.now) xs)) old };

    /// Adds copies of the items of an iterator at the back, in order, while there is room, and runs
    /// the iterator to its end. Requires an iterator that ends. It always returns `Ok`.
    ///
    /// Start: stays. Steps: 1 put for each copy added.
    ///
    /// ```
    /// let mut deque = ArrayDeque::<i64, 3, Saturating>::new(alloc)?;
    /// deque.extend(&[1, 2, 3, 4])?;
    /// assert!(rt; deque.into_vec()?.as_slice() == [1, 2, 3].as_slice());
    /// ```
    fn extend<I: IntoIterator<Item = &'a T>>(&mut self, iter: I) -> Result<(), AllocError>
        requires { IsFiniteIterable
            I.into_iter_gives I.IntoIter.can_next I.IntoIter.remaining iter }

        // Of what the iterator gives, as much is copied as there is room for.
        ensures taken { let room = CAP - length self.old.items in
            TakesAll I.into_iter_gives I.IntoIter.next_gives iter
            (λ came. self.new ≡ with_back (take room (map (λ x. x.now) came)) self.old) }
        ensures ok { IsOk result }

        // The same in std's words, for code that is generic over `Extend`.
        ensures ran { ExtendsWithItems I.into_iter_gives I.IntoIter.next_gives
            (λ old xs new.
            new ≡ with_back (take (CAP - length old.items) (map (λ x. x.now) xs)) old)
            iter self.old self.new result }
    {
        let _ = Extend::<T>::extend(self, iter.into_iter().copied());
        Ok(())
    }
}

impl<'a, T: Copy + 'a, const CAP: usize> Extend<&'a T> for ArrayDeque<T, CAP, Wrapping> {
    ghost extend_gives = { λ old xs new. WrapsBack CAP old (map (λ x. x.now) xs) new };

    /// Adds copies of the items of an iterator at the back, as `extend_back` does: a full deque
    /// drops its first item for each. Requires an iterator that ends. It always returns `Ok`.
    ///
    /// Start: 1 up for each item dropped.
    /// Steps: 1 put for each item of the iterator, 1 take for each item dropped.
    ///
    /// ```
    /// let mut deque = ArrayDeque::<i64, 3, Wrapping>::new(alloc)?;
    /// deque.extend(&[1, 2, 3, 4])?;
    /// assert!(rt; deque.into_vec()?.as_slice() == [2, 3, 4].as_slice());
    /// ```
    fn extend<I: IntoIterator<Item = &'a T>>(&mut self, iter: I) -> Result<(), AllocError>
        requires { IsFiniteIterable
            I.into_iter_gives I.IntoIter.can_next I.IntoIter.remaining iter }

        // A copy of all that the iterator gives is pushed, one by one.
        ensures taken { TakesAll I.into_iter_gives I.IntoIter.next_gives iter
            (λ came. WrapsBack CAP self.old (map (λ x. x.now) came) self.new) }
        ensures ok { IsOk result }

        // The same in std's words, for code that is generic over `Extend`.
        ensures ran { ExtendsWithItems I.into_iter_gives I.IntoIter.next_gives
            (λ old xs new. WrapsBack CAP old (map (λ x. x.now) xs) new)
            iter self.old self.new result }
    {
        self.extend_back(iter.into_iter().copied());
        Ok(())
    }
}
