//! The iterator that owns what a drain removed.
ghost use Rattle.std.specs.Prelude.{◌≡◌, length, Some, IfSome};
ghost use Rattle.std.specs.Iterator.{YieldsFirst, YieldsLast, UpTo, item_count};
ghost use Rattle.std.specs.Iterator.SizeHint.{IsWithinCount};

use arraydeque_ring::ring::{Ring, into_iter};
use std::iter::FusedIterator;
use std::marker::Model;

/// An iterator that owns the items that a drain removed, from both ends. It drops those that are
/// not taken, and doesn't borrow what they were taken out of.
///
/// ```
/// let mut deque = ArrayDeque::<i64, 3, Saturating>::new(alloc)?;
/// deque.extend_back([1, 2, 3]);
/// let mut drained = deque.drain(..)?;
/// assert!(rt; (drained.next(), drained.next_back()) == (Some(1), Some(3)));
/// assert!(rt; (drained.len(), deque.len()) == (1, 0));
/// ```
///
/// A drain of long-lived items may be used where one of short-lived items is wanted:
///
/// ```
/// fn ends_with<'a>(mut drained: arraydeque::Drain<&'a str>, word: &'a str) -> bool {
///     drained.next_back() == Some(word)
/// }
/// let mut deque = ArrayDeque::<&'static str, 2, Saturating>::from_array(alloc, ["a", "b"])?;
/// let word = format!(in alloc; "{}", 'b')?;
/// assert!(rt; ends_with(deque.drain(..)?, word.as_str()));
/// ```
#[derive(Drop)]
pub struct Drain<T> {
    items: into_iter::IntoIter<T>,
}

impl<T> Model for Drain<T> {
    ghost use Rattle.std.specs.Prelude.{List};

    ghost Value = { List T };

    ghost view = { λ drain. drain.items };
}

impl<T> Drain<T> {
    /// Returns the drain of the items of a ring, which has no spare place.
    #[inline]
    pub(crate) fn from_ring(ring: Ring<T>) -> Drain<T>
        requires exact { ring.capacity ≡ length ring.items }
        ensures { result ≡ ring.items }
    {
        Drain {
            items: into_iter::IntoIter::from_ring(ring),
        }
    }
}

impl<T: Drop> Iterator for Drain<T> {
    type Item = T;

    ghost next_gives = { YieldsFirst (λ remaining. remaining) };

    ghost remaining = { item_count (λ remaining. remaining) };

    /// ```
    /// let mut deque = ArrayDeque::<i64, 3, Saturating>::new(alloc)?;
    /// deque.extend_back([1, 2, 3]);
    /// let mut drained = deque.drain(1..)?;
    /// assert!(rt; (drained.next(), drained.size_hint()) == (Some(2), (1, Some(1))));
    /// assert!(rt; (drained.next(), drained.next()) == (Some(3), None));
    /// ```
    #[inline]
    fn next(&mut self) -> Option<T> {
        self.items.next()
    }

    #[inline]
    fn size_hint(&self) -> (usize, Option<usize>)
        ensures exact { result ≡ (length self.now, Some (length self.now)) }
        ensures lower { IsWithinCount result.0 (item_count (λ remaining. remaining) self.now) }
        ensures upper { IfSome result.1 (UpTo (item_count (λ remaining. remaining) self.now)) }
    {
        self.items.size_hint()
    }
}

impl<T: Drop> DoubleEndedIterator for Drain<T> {
    ghost next_back_gives = { YieldsLast (λ remaining. remaining) };

    /// ```
    /// let mut deque = ArrayDeque::<i64, 3, Saturating>::new(alloc)?;
    /// deque.extend_back([1, 2, 3]);
    /// let mut drained = deque.drain(..2)?.rev();
    /// assert!(rt; (drained.next(), drained.next(), drained.next()) == (Some(2), Some(1), None));
    /// ```
    #[inline]
    fn next_back(&mut self) -> Option<T> {
        self.items.next_back()
    }
}

impl<T: Drop> ExactSizeIterator for Drain<T> {
    /// ```
    /// let mut deque = ArrayDeque::<i64, 3, Saturating>::new(alloc)?;
    /// deque.extend_back([1, 2, 3]);
    /// assert!(rt; deque.drain(1..)?.len() == 2);
    /// ```
    #[inline]
    fn len(&self) -> usize {
        self.items.len()
    }
}

impl<T: Drop> FusedIterator for Drain<T> {}
