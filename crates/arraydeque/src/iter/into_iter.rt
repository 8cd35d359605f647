//! The iterator that owns the items of a deque.
ghost use Rattle.std.specs.Prelude.{◌≡◌, length, Some, IfSome};
ghost use Rattle.std.specs.Iterator.{YieldsFirst, YieldsLast, UpTo, item_count};
ghost use Rattle.std.specs.Iterator.SizeHint.{IsWithinCount};

use crate::behavior::Behavior;
use crate::deque::ArrayDeque;
use arraydeque_ring::ring::into_iter;
use std::iter::FusedIterator;
use std::marker::{Model, PhantomData};

/// An iterator that owns the items of a deque, from both ends. It is made of a deque by value, and
/// drops the items that are not taken, front to back.
///
/// ```
/// let mut deque = ArrayDeque::<i64, 3, Saturating>::new(alloc)?;
/// deque.extend_back([1, 2, 3]);
/// let mut items = deque.into_iter();
/// assert!(rt; (items.next(), items.next_back()) == (Some(1), Some(3)));
/// assert!(rt; (items.len(), items.next()) == (1, Some(2)));
/// ```
#[derive(Drop)]
pub struct IntoIter<T, const CAP: usize, B: Behavior> {
    items: into_iter::IntoIter<T>,
    behavior: PhantomData<B>,
}

impl<T, const CAP: usize, B: Behavior> Model for IntoIter<T, CAP, B> {
    ghost use Rattle.std.specs.Prelude.{List};

    ghost Value = { List T };

    ghost view = { λ it. it.items };
}

impl<T: Drop, const CAP: usize, B: Behavior> Iterator for IntoIter<T, CAP, B> {
    type Item = T;

    ghost next_gives = { YieldsFirst (λ remaining. remaining) };

    ghost remaining = { item_count (λ remaining. remaining) };

    /// ```
    /// let mut deque = ArrayDeque::<i64, 3, Saturating>::new(alloc)?;
    /// deque.extend_back([1, 2, 3]);
    /// let mut items = deque.into_iter();
    /// assert!(rt; (items.next(), items.size_hint()) == (Some(1), (2, Some(2))));
    /// assert!(rt; (items.next(), items.next(), items.next()) == (Some(2), Some(3), None));
    /// ```
    #[inline]
    fn next(&mut self) -> Option<T> {
        self.items.next()
    }

    #[inline]
    fn size_hint(&self) -> (usize, Option<usize>)
        ensures exact { result ≡ (length self.now, Some (length self.now)) }
        ensures lower { IsWithinCount result.0 (item_count (λ remaining. remaining) self.now) }
        ensures upper { IfSome result.1 (UpTo (item_count (λ remaining. remaining) self.now)) }
    {
        self.items.size_hint()
    }
}

impl<T: Drop, const CAP: usize, B: Behavior> DoubleEndedIterator for IntoIter<T, CAP, B> {
    ghost next_back_gives = { YieldsLast (λ remaining. remaining) };

    /// ```
    /// let mut deque = ArrayDeque::<i64, 3, Saturating>::new(alloc)?;
    /// deque.extend_back([1, 2, 3]);
    /// let mut items = deque.into_iter();
    /// assert!(rt; (items.next_back(), items.next_back()) == (Some(3), Some(2)));
    /// assert!(rt; (items.next(), items.next_back()) == (Some(1), None));
    /// ```
    #[inline]
    fn next_back(&mut self) -> Option<T> {
        self.items.next_back()
    }
}

impl<T: Drop, const CAP: usize, B: Behavior> ExactSizeIterator for IntoIter<T, CAP, B> {
    /// ```
    /// let mut deque = ArrayDeque::<i64, 3, Saturating>::new(alloc)?;
    /// deque.extend_back([1, 2, 3]);
    /// assert!(rt; deque.into_iter().len() == 3);
    /// ```
    #[inline]
    fn len(&self) -> usize {
        self.items.len()
    }
}

impl<T: Drop, const CAP: usize, B: Behavior> FusedIterator for IntoIter<T, CAP, B> {}

impl<T: Drop, const CAP: usize, B: Behavior> IntoIterator for ArrayDeque<T, CAP, B> {
    type Item = T;

    type IntoIter = IntoIter<T, CAP, B>;

    ghost into_iter_gives = { λ deque it. it ≡ deque.items };

    /// ```
    /// let mut deque = ArrayDeque::<i64, 3, Saturating>::new(alloc)?;
    /// deque.extend_back([1, 2, 3]);
    /// let mut sum = 0i64;
    /// for item in deque {
    ///     sum = sum.saturating_add(item);
    /// }
    /// assert!(rt; sum == 6);
    /// ```
    #[inline]
    fn into_iter(self) -> IntoIter<T, CAP, B> {
        IntoIter {
            items: into_iter::IntoIter::from_ring(self.into_ring()),
            behavior: PhantomData,
        }
    }
}
