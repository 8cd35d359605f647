//! The iterator over the items of a deque, lent for writing.
ghost use Rattle.std.specs.Prelude.{◌≡◌, ◌+◌, ◌^◌, ◌<◌, length, Some, IfSome};
ghost use Rattle.std.specs.Borrow.{sem};
ghost use Rattle.std.specs.Iterator.{YieldsFirstMut, YieldsLastMut, UpTo, item_count};
ghost use Rattle.std.specs.Iterator.{CallableInForEach, CallsOnEach};
ghost use Rattle.std.specs.Iterator.Runs.{WholeRun, AllItemsGive};
ghost use Rattle.std.specs.Iterator.SizeHint.{IsWithinCount};
ghost use Rattle.arraydeque_ring.specs.Loans.{remaining};
ghost use Rattle.arraydeque.specs.DequeLends.{lends_items};

use super::closure::call_on_each;
use crate::behavior::Behavior;
use crate::deque::ArrayDeque;
use arraydeque_ring::ring::{Loan, LoanName};
use std::iter::FusedIterator;
use std::marker::Model;
use std::mem;

/// An iterator over mutable references to the items of a deque, from both ends. Each is handed out
/// once. It walks the two slices one after the other.
///
/// A contract sees its two slices and the name of the loan, which the deque follows: a caller who
/// only writes through the iterator knows the deque's length and start afterwards.
#[derive(Drop)]
pub struct IterMut<'a, T> {
    first: &'a mut [T],
    second: &'a mut [T],
    name: LoanName<'a, T>,
}

impl<'a, T> Model for IterMut<'a, T> {
    ghost use Rattle.std.specs.Prelude.{◌+◌, ◌^◌, ◌<◌, length};
    ghost use Rattle.arraydeque_ring.specs.Loans.{LoanState};

    ghost Value = { LoanState T };

    ghost view = { λ it. record { first = it.first; second = it.second; name = it.name.name } };

    ghost invariant = { λ it. length it.first.now + length it.second.now < 2 ^ 64 };
}

impl<'a, T> IterMut<'a, T> {
    /// Returns the iterator over what is lent.
    #[inline]
    pub(crate) fn from_loan(loan: Loan<'a, T>) -> IterMut<'a, T>
        ensures { result ≡ loan.entry }
    {
        let (first, second, name) = loan.into_parts();
        IterMut {
            first,
            second,
            name,
        }
    }

    /// Returns what is left, as the two slices that it walks.
    ///
    /// ```
    /// let mut deque = ArrayDeque::<i64, 3, Saturating>::new(alloc)?;
    /// deque.extend_back([2, 3]);
    /// deque.extend_front([1]);
    /// let mut items = deque.iter_mut();
    /// assert!(rt; items.next_back() == Some(&mut 3));
    /// let (front, rest) = items.into_slices();
    /// front.fill(0);
    /// rest.fill(9);
    /// assert!(rt; deque.into_vec()?.as_slice() == [0, 9, 3].as_slice());
    /// ```
    #[inline]
    pub fn into_slices(self) -> (&'a mut [T], &'a mut [T])
        ensures first { result.0 ≡ self.entry.first }
        ensures second { result.1 ≡ self.entry.second }
    {
        let IterMut {
            first,
            second,
            name: _,
        } = self;
        (first, second)
    }

    /// Calls `f` on each item in turn. Std's own `for_each` asks for one item after the other; this
    /// one walks each of the two slices as a whole.
    ///
    /// ```
    /// let mut deque = ArrayDeque::<i64, 3, Saturating>::new(alloc)?;
    /// deque.extend_back([1, 2, 3]);
    /// deque.iter_mut().for_each(|item| *item = item.saturating_mul(2));
    /// assert!(rt; deque.into_vec()?.as_slice() == [2, 4, 6].as_slice());
    /// ```
    #[inline]
    pub fn for_each<F: FnMut(&'a mut T)>(self, f: F)
        requires callable { CallableInForEach (YieldsFirstMut remaining) F.FnMut self f }
        ensures ran { CallsOnEach (YieldsFirstMut remaining) F.FnMut self.entry f }
        ensures runs { WholeRun (YieldsFirstMut remaining) self.entry
            (λ run. AllItemsGive run F.FnMut f tt) }
    {
        let (first, second) = self.into_slices();
        let f = call_on_each(first.into_iter(), f);
        call_on_each(second.into_iter(), f);
    }
}

impl<'a, T> Iterator for IterMut<'a, T> {
    type Item = &'a mut T;

    ghost next_gives = { YieldsFirstMut remaining };

    ghost remaining = { item_count remaining };

    /// ```
    /// let mut deque = ArrayDeque::<i64, 3, Saturating>::new(alloc)?;
    /// deque.extend_back([1, 2, 3]);
    /// let mut items = deque.iter_mut();
    /// assert!(rt; (items.next(), items.size_hint()) == (Some(&mut 1), (2, Some(2))));
    /// if let Some(item) = items.next() {
    ///     *item = 7;
    /// }
    /// assert!(rt; deque.get(1) == Some(&7));
    /// ```
    #[inline]
    fn next(&mut self) -> Option<&'a mut T> {
        if let Some((item, rest)) = mem::take(&mut self.first).split_first_mut() {
            self.first = rest;
            return Some(item);
        }
        let (item, rest) = mem::take(&mut self.second).split_first_mut()?;
        self.first = rest;
        Some(item)
    }

    #[inline]
    fn size_hint(&self) -> (usize, Option<usize>)
        ensures exact { result ≡ (length (remaining self.now), Some (length (remaining self.now))) }
        ensures lower { IsWithinCount result.0 (item_count remaining self.now) }
        ensures upper { IfSome result.1 (UpTo (item_count remaining self.now)) }
    {
        let len = self.len();
        (len, Some(len))
    }
}

impl<'a, T> DoubleEndedIterator for IterMut<'a, T> {
    ghost next_back_gives = { YieldsLastMut remaining };

    /// ```
    /// let mut deque = ArrayDeque::<i64, 3, Saturating>::new(alloc)?;
    /// deque.extend_back([1, 2, 3]);
    /// let mut items = deque.iter_mut();
    /// assert!(rt; (items.next_back(), items.next()) == (Some(&mut 3), Some(&mut 1)));
    /// assert!(rt; (items.next_back(), items.next_back()) == (Some(&mut 2), None));
    /// ```
    #[inline]
    fn next_back(&mut self) -> Option<&'a mut T> {
        if let Some((item, rest)) = mem::take(&mut self.second).split_last_mut() {
            self.second = rest;
            return Some(item);
        }
        let (item, rest) = mem::take(&mut self.first).split_last_mut()?;
        self.second = rest;
        Some(item)
    }
}

impl<'a, T> ExactSizeIterator for IterMut<'a, T> {
    /// ```
    /// let mut deque = ArrayDeque::<i64, 3, Saturating>::new(alloc)?;
    /// deque.extend_back([1, 2, 3]);
    /// let mut items = deque.iter_mut();
    /// items.next_back();
    /// assert!(rt; items.len() == 2);
    /// ```
    #[inline]
    fn len(&self) -> usize {
        self.first.len() + self.second.len()
    }
}

impl<'a, T> FusedIterator for IterMut<'a, T> {}

impl<'a, T, const CAP: usize, B: Behavior> IntoIterator for &'a mut ArrayDeque<T, CAP, B> {
    type Item = &'a mut T;

    type IntoIter = IterMut<'a, T>;

    ghost into_iter_gives = { λ deque it. remaining it ≡ deque.now.items };

    /// Start: stays. Steps: 2 lends.
    ///
    /// ```
    /// let mut deque = ArrayDeque::<i64, 3, Saturating>::new(alloc)?;
    /// deque.extend_back([1, 2, 3]);
    /// for item in &mut deque {
    ///     *item = item.saturating_mul(2);
    /// }
    /// assert!(rt; deque.into_vec()?.as_slice() == [2, 4, 6].as_slice());
    /// ```
    #[inline]
    fn into_iter(self) -> IterMut<'a, T>
        ensures into_iter_gives { remaining result ≡ self.old.items }

        // Whatever is written, there are as many items as before, and 2 lends are counted.
        ensures* writes_back { sem 𝓛 (lends_items T.row CAP.row B.row self.entry result.name) }
    {
        self.iter_mut()
    }
}
