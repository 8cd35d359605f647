//! The iterator over the items of a deque, lent for reading.
ghost use Rattle.std.specs.Prelude.{◌≡◌, ◌+◌, ◌^◌, ◌<◌, ◌≤◌, ◌++◌, fold, length, Some, IfSome, ⊤};
ghost use Rattle.std.specs.Iterator.{YieldsFirstRef, YieldsLastRef, UpTo, item_count};
ghost use Rattle.std.specs.Iterator.{CallableInFold, FoldsItems, ActsAsOnTwo};
ghost use Rattle.std.specs.Iterator.{CallableInForEach, CallsOnEach};
ghost use Rattle.std.specs.Iterator.Runs.{WholeRun, AllItemsGive};
ghost use Rattle.std.specs.Iterator.SizeHint.{IsWithinCount};

use super::closure::call_on_each;
use crate::behavior::Behavior;
use crate::deque::ArrayDeque;
use std::alloc::AllocError;
use std::iter::FusedIterator;
use std::marker::Model;

/// An iterator over references to the items of a deque, from both ends. It walks the two slices one
/// after the other: when the nearer one is empty, the other takes its place.
#[derive(Drop)]
pub struct Iter<'a, T> {
    pub(crate) first: &'a [T],
    pub(crate) second: &'a [T],
}

impl<'a, T> Model for Iter<'a, T> {
    ghost use Rattle.std.specs.Prelude.{◌+◌, ◌^◌, ◌<◌, List, ◌++◌, length};

    ghost Value = { List T };

    ghost view = { λ it. it.first.now ++ it.second.now };

    ghost invariant = { λ it. length it.first.now + length it.second.now < 2 ^ 64 };
}

impl<'a, T> Iter<'a, T> {
    /// Calls `f` on a total, which begins as `init`, and on each item in turn, and returns the last
    /// total. Std's own `fold` asks for one item after the other; this one walks each of the two
    /// slices as a whole.
    ///
    /// ```
    /// let mut deque = ArrayDeque::<i64, 3, Saturating>::new(alloc)?;
    /// deque.extend_back([1, 2, 3]);
    /// let next = |total: i64, item: &i64| total.saturating_mul(10).saturating_add(*item);
    /// assert!(rt; deque.iter().fold(0, next) == 123);
    /// ```
    #[inline]
    pub fn fold<A, F: FnMut(A, &'a T) -> A>(self, init: A, mut f: F) -> A
        requires callable { CallableInFold (YieldsFirstRef (λ xs. xs)) F.FnMut self f init }

        // If `f` computes a function `h` of a total and an item, the result is the total by `h`.
        ensures value { (h : A → T → A) → ActsAsOnTwo F.FnMut f (λ total item. h total item.now)
            → result ≡ fold h init self.entry }

        // In std's words: which calls were made, and the same of an `h` that takes references.
        ensures ran { FoldsItems (YieldsFirstRef (λ xs. xs)) F.FnMut self.entry f init result }
        ensures runs { WholeRun (YieldsFirstRef (λ xs. xs)) self.entry (λ run. (h : A → _ → A)
            → ActsAsOnTwo F.FnMut f h → result ≡ fold h init run.items) }
    {
        let mut total = init;
        for item in self.first {
            total = f(total, item);
        }
        for item in self.second {
            total = f(total, item);
        }
        total
    }

    /// Calls `f` on each item in turn, over each of the two slices as a whole.
    ///
    /// ```
    /// let mut deque = ArrayDeque::<i64, 3, Saturating>::new(alloc)?;
    /// deque.extend_back([1, 2, 3]);
    /// let mut sum = 0i64;
    /// deque.iter().for_each(|item| sum = sum.saturating_add(*item));
    /// assert!(rt; sum == 6);
    /// ```
    #[inline]
    pub fn for_each<F: FnMut(&'a T)>(self, f: F)
        requires callable { CallableInForEach (YieldsFirstRef (λ xs. xs)) F.FnMut self f }
        ensures ran { CallsOnEach (YieldsFirstRef (λ xs. xs)) F.FnMut self.entry f }
        ensures runs { WholeRun (YieldsFirstRef (λ xs. xs)) self.entry
            (λ run. AllItemsGive run F.FnMut f tt) }
    {
        let f = call_on_each(self.first.into_iter(), f);
        call_on_each(self.second.into_iter(), f);
    }
}

impl<'a, T> Iterator for Iter<'a, T> {
    type Item = &'a T;

    ghost next_gives = { YieldsFirstRef (λ remaining. remaining) };

    ghost remaining = { item_count (λ remaining. remaining) };

    /// ```
    /// let mut deque = ArrayDeque::<i64, 3, Saturating>::new(alloc)?;
    /// deque.extend_back([1, 2, 3]);
    /// let mut items = deque.iter();
    /// assert!(rt; (items.next(), items.size_hint()) == (Some(&1), (2, Some(2))));
    /// assert!(rt; (items.next(), items.next(), items.next()) == (Some(&2), Some(&3), None));
    /// ```
    #[inline]
    fn next(&mut self) -> Option<&'a T> {
        if let Some((item, rest)) = self.first.split_first() {
            self.first = rest;
            return Some(item);
        }
        let (item, rest) = self.second.split_first()?;
        self.first = rest;
        self.second = &[];
        Some(item)
    }

    #[inline]
    fn size_hint(&self) -> (usize, Option<usize>)
        ensures exact { result ≡ (length self.now, Some (length self.now)) }
        ensures lower { IsWithinCount result.0 (item_count (λ remaining. remaining) self.now) }
        ensures upper { IfSome result.1 (UpTo (item_count (λ remaining. remaining) self.now)) }
    {
        let len = self.len();
        (len, Some(len))
    }
}

impl<'a, T> DoubleEndedIterator for Iter<'a, T> {
    ghost next_back_gives = { YieldsLastRef (λ remaining. remaining) };

    /// ```
    /// let mut deque = ArrayDeque::<i64, 3, Saturating>::new(alloc)?;
    /// deque.extend_back([1, 2, 3]);
    /// let mut items = deque.iter();
    /// assert!(rt; (items.next_back(), items.next_back()) == (Some(&3), Some(&2)));
    /// assert!(rt; (items.next(), items.next_back()) == (Some(&1), None));
    /// ```
    #[inline]
    fn next_back(&mut self) -> Option<&'a T> {
        if let Some((item, rest)) = self.second.split_last() {
            self.second = rest;
            return Some(item);
        }
        let (item, rest) = self.first.split_last()?;
        self.second = rest;
        self.first = &[];
        Some(item)
    }
}

impl<'a, T> ExactSizeIterator for Iter<'a, T> {
    /// ```
    /// let mut deque = ArrayDeque::<i64, 3, Saturating>::new(alloc)?;
    /// deque.extend_back([1, 2, 3]);
    /// let mut items = deque.iter();
    /// items.next();
    /// assert!(rt; items.len() == 2);
    /// ```
    #[inline]
    fn len(&self) -> usize {
        self.first.len() + self.second.len()
    }
}

impl<'a, T> FusedIterator for Iter<'a, T> {}

impl<'a, T> Clone for Iter<'a, T> {
    ghost is_clone = { λ it copy. copy ≡ it };

    ghost is_infallible = { λ _. ⊤ };

    /// Returns a second iterator over the items that are left. It takes no memory, and never fails.
    ///
    /// ```
    /// let mut deque = ArrayDeque::<i64, 3, Saturating>::new(alloc)?;
    /// deque.extend_back([1, 2, 3]);
    /// let mut items = deque.iter();
    /// items.next();
    /// let mut again = items.clone()?;
    /// assert!(rt; (items.next(), again.next()) == (Some(&2), Some(&2)));
    /// ```
    fn clone(&self) -> Result<Iter<'a, T>, AllocError> {
        Ok(Iter {
            first: self.first,
            second: self.second,
        })
    }
}

impl<'a, T, const CAP: usize, B: Behavior> IntoIterator for &'a ArrayDeque<T, CAP, B> {
    type Item = &'a T;

    type IntoIter = Iter<'a, T>;

    ghost into_iter_gives = { λ deque it. (it ≡ deque.now.items) × (length deque.now.items ≤ CAP) };

    /// ```
    /// let mut deque = ArrayDeque::<i64, 3, Saturating>::new(alloc)?;
    /// deque.extend_back([1, 2, 3]);
    /// let mut items = (&deque).into_iter();
    /// assert!(rt; (items.next_back(), items.len()) == (Some(&3), 2));
    /// let mut again = items.clone()?;
    /// assert!(rt; (items.next(), again.next()) == (Some(&1), Some(&1)));
    /// ```
    #[inline]
    fn into_iter(self) -> Iter<'a, T> {
        self.iter()
    }
}
