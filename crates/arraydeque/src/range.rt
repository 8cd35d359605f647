//! Ranges of indexes as arguments: any type that names a first index and an end.
ghost use Rattle.std.specs.Prelude.{◌≡◌, Option, Some, None};

use std::ops::{Range, RangeFrom, RangeFull, RangeTo};

/// A range of indexes as an argument: `..`, `a..`, `..b`, `a..b`, or a type of your own that
/// implements this.
///
/// A bound that is left open is the front or the end of the list.
///
/// ```
/// let mut deque = ArrayDeque::<i64, 5, Saturating>::new(alloc)?;
/// deque.extend_back([0, 1, 2, 3, 4]);
/// assert!(rt; deque.len() == 5);
/// assert!(rt; deque.drain(3..)?.len() == 2);
/// assert!(rt; deque.drain(..1)?.len() == 1);
/// assert!(rt; deque.drain(..)?.next() == Some(1));
/// ```
pub trait RangeArgument<T> {
    // The first index of the range, if the value names it.
    ghost names_start: { Self → Option T };

    // The first index after the range, if the value names it.
    ghost names_end: { Self → Option T };

    /// Returns the first index of the range, or `None` if the range leaves it open.
    fn start(&self) -> Option<T>
        ensures { result ≡ names_start self.now };

    /// Returns the first index after the range, or `None` if the range leaves it open.
    fn end(&self) -> Option<T>
        ensures { result ≡ names_end self.now };
}

impl<T> RangeArgument<T> for RangeFull {
    ghost names_start = { λ _. None };

    ghost names_end = { λ _. None };

    /// ```
    /// let mut deque = ArrayDeque::<i64, 3, Saturating>::new(alloc)?;
    /// deque.extend_back([1, 2, 3]);
    /// assert!(rt; (deque.drain(..)?.len(), deque.len()) == (3, 0));
    /// ```
    fn start(&self) -> Option<T> {
        None
    }

    fn end(&self) -> Option<T> {
        None
    }
}

impl<T: Copy> RangeArgument<T> for RangeFrom<T> {
    ghost names_start = { λ range. Some range.start };

    ghost names_end = { λ _. None };

    /// ```
    /// let mut deque = ArrayDeque::<i64, 3, Saturating>::new(alloc)?;
    /// deque.extend_back([1, 2, 3]);
    /// assert!(rt; deque.drain(1..)?.len() == 2);
    /// assert!(rt; deque.back() == Some(&1));
    /// ```
    fn start(&self) -> Option<T> {
        Some(self.start)
    }

    fn end(&self) -> Option<T> {
        None
    }
}

impl<T: Copy> RangeArgument<T> for RangeTo<T> {
    ghost names_start = { λ _. None };

    ghost names_end = { λ range. Some range.end };

    /// ```
    /// let mut deque = ArrayDeque::<i64, 3, Saturating>::new(alloc)?;
    /// deque.extend_back([1, 2, 3]);
    /// assert!(rt; deque.drain(..1)?.len() == 1);
    /// assert!(rt; deque.front() == Some(&2));
    /// ```
    fn start(&self) -> Option<T> {
        None
    }

    fn end(&self) -> Option<T> {
        Some(self.end)
    }
}

impl<T: Copy> RangeArgument<T> for Range<T> {
    ghost names_start = { λ range. Some range.start };

    ghost names_end = { λ range. Some range.end };

    /// ```
    /// let mut deque = ArrayDeque::<i64, 3, Saturating>::new(alloc)?;
    /// deque.extend_back([1, 2, 3]);
    /// assert!(rt; deque.drain(1..2)?.next() == Some(2));
    /// assert!(rt; deque.into_vec()?.as_slice() == [1, 3].as_slice());
    /// ```
    fn start(&self) -> Option<T> {
        Some(self.start)
    }

    fn end(&self) -> Option<T> {
        Some(self.end)
    }
}
