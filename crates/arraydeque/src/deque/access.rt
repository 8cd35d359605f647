//! Reading and writing items in place.
ghost use Rattle.std.specs.Prelude.{◌≡◌, ◌<◌, ◌≤◌, ◌-◌, [], length, slice_get, option_copied, IfNone, Some};
ghost use Rattle.std.specs.Borrow.{sem};
ghost use Rattle.std.specs.List.{list_any};
ghost use Rattle.std.specs.Option.{option_copied_mut};
ghost use Rattle.arraydeque.specs.Deque.{last_item};
ghost use Rattle.arraydeque.specs.DequeLends.{lends_item, lends_index};

use super::ArrayDeque;
use super::blocks::has_equal;
use crate::behavior::Behavior;
use std::ops::{Index, IndexMut};

impl<T, const CAP: usize, B: Behavior> ArrayDeque<T, CAP, B> {
    /// Returns whether some item equals `x`, by the items' own equality.
    ///
    /// ```
    /// let mut deque = ArrayDeque::<i64, 3, Wrapping>::new(alloc)?;
    /// deque.extend_back([1, 2, 3, 4]);
    /// // 1 was dropped for 4.
    /// assert!(rt; deque.contains(&4) && !deque.contains(&1));
    /// ```
    pub fn contains(&self, x: &T) -> bool
    where
        T: PartialEq,
        ensures value { result ≡ list_any (λ y. T.eq y x.now) self.now.items }
        ensures within { length self.now.items ≤ CAP }
    {
        let (front, back) = self.as_slices();
        has_equal(front, x) || has_equal(back, x)
    }

    /// Returns a reference to the first item, or `None` if the deque is empty.
    ///
    /// ```
    /// let mut deque = ArrayDeque::<i64, 3, Saturating>::new(alloc)?;
    /// assert!(rt; deque.front() == None);
    /// deque.extend_back([1, 2]);
    /// assert!(rt; deque.front() == Some(&1));
    /// ```
    #[tactic(auto, using(crate::proofs::NoEnd::no_first))]
    #[inline]
    pub fn front(&self) -> Option<&T>
        ensures value { option_copied result ≡ slice_get self.now.items 0 }
        ensures empty { IfNone result (self.now.items ≡ []) }
        ensures within { length self.now.items ≤ CAP }
    {
        self.get(0)
    }

    /// Returns a reference to the last item, or `None` if the deque is empty.
    ///
    /// ```
    /// let mut deque = ArrayDeque::<i64, 3, Saturating>::new(alloc)?;
    /// assert!(rt; deque.back() == None);
    /// deque.extend_back([1, 2]);
    /// assert!(rt; deque.back() == Some(&2));
    /// ```
    #[tactic(auto, using(crate::proofs::NoEnd::no_last))]
    #[inline]
    pub fn back(&self) -> Option<&T>
        ensures value { option_copied result ≡ last_item self.now.items }
        ensures empty { IfNone result (self.now.items ≡ []) }
        ensures within { length self.now.items ≤ CAP }
    {
        let len = self.len();
        if len == 0 {
            return None;
        }
        self.get(len - 1)
    }

    /// Returns a reference to the item at an index, or `None` if there is none. The front has index
    /// 0.
    ///
    /// ```
    /// let mut deque = ArrayDeque::<i64, 3, Saturating>::new(alloc)?;
    /// deque.extend_back([1, 2, 3]);
    /// assert!(rt; deque.pop_front() == Some(1));
    /// assert!(rt; (deque.get(0), deque.get(2)) == (Some(&2), None));
    /// ```
    #[inline]
    pub fn get(&self, index: usize) -> Option<&T>
        ensures value { option_copied result ≡ slice_get self.now.items index }
        ensures within { length self.now.items ≤ CAP }
    {
        self.ring.get(index)
    }

    /// Returns a mutable reference to the first item, or `None` if the deque is empty.
    ///
    /// Start: stays. Steps: 1 lend.
    ///
    /// ```
    /// let mut deque = ArrayDeque::<i64, 3, Saturating>::new(alloc)?;
    /// deque.extend_back([1, 2, 3]);
    /// *deque.front_mut().ok_or("no item")? = 7;
    /// assert!(rt; deque.into_vec()?.as_slice() == [7, 2, 3].as_slice());
    /// ```
    #[tactic(auto, using(crate::proofs::NoEnd::no_first))]
    #[inline]
    pub fn front_mut(&mut self) -> Option<&mut T>
        ensures value { option_copied_mut result ≡ slice_get self.old.items 0 }
        ensures empty { IfNone result (self.old.items ≡ []) }
        ensures within { length self.old.items ≤ CAP }

        // The item, if there is one, ends as it was last written, with 1 lend counted.
        ensures* writes_back { sem 𝓛 (lends_item T.row CAP.row B.row self.entry 0 result) }
    {
        self.get_mut(0)
    }

    /// Returns a mutable reference to the last item, or `None` if the deque is empty.
    ///
    /// Start: stays. Steps: 1 lend.
    ///
    /// ```
    /// let mut deque = ArrayDeque::<i64, 3, Saturating>::new(alloc)?;
    /// deque.extend_back([1, 2, 3]);
    /// *deque.back_mut().ok_or("no item")? = 7;
    /// assert!(rt; deque.into_vec()?.as_slice() == [1, 2, 7].as_slice());
    /// ```
    #[tactic(auto, using(crate::proofs::NoEnd::no_last))]
    #[inline]
    pub fn back_mut(&mut self) -> Option<&mut T>
        ensures value { option_copied_mut result ≡ last_item self.old.items }
        ensures empty { IfNone result (self.old.items ≡ []) }
        ensures within { length self.old.items ≤ CAP }

        // The item, if there is one, ends as it was last written, with 1 lend counted.
        ensures* writes_back { let last = length self.old.items - 1 in
            sem 𝓛 (lends_item T.row CAP.row B.row self.entry last result) }
    {
        let len = self.len();
        if len == 0 {
            return None;
        }
        self.get_mut(len - 1)
    }

    /// Returns a mutable reference to the item at an index, or `None` if there is none. The front
    /// has index 0.
    ///
    /// Start: stays. Steps: 1 lend.
    ///
    /// ```
    /// let mut deque = ArrayDeque::<i64, 3, Saturating>::new(alloc)?;
    /// deque.extend_back([1, 2, 3]);
    /// *deque.get_mut(1).ok_or("no item")? = 7;
    /// assert!(rt; deque.get_mut(3) == None);
    /// assert!(rt; deque.into_vec()?.as_slice() == [1, 7, 3].as_slice());
    /// ```
    #[inline]
    pub fn get_mut(&mut self, index: usize) -> Option<&mut T>
        ensures value { option_copied_mut result ≡ slice_get self.old.items index }
        ensures within { length self.old.items ≤ CAP }

        // The item, if there is one, ends as it was last written, with 1 lend counted.
        ensures* writes_back { sem 𝓛 (lends_item T.row CAP.row B.row self.entry index result) }
    {
        self.ring.get_mut(index)
    }
}

impl<T, const CAP: usize, B: Behavior> Index<usize> for ArrayDeque<T, CAP, B> {
    type Output = T;

    ghost can_index = { λ d i. i < length d.items };

    ghost index_gives = { λ d i x. slice_get d.items i ≡ Some x };

    /// Returns a reference to the item at an index. The front has index 0. Requires an index below
    /// the length.
    ///
    /// ```
    /// let mut deque = ArrayDeque::<i64, 3, Wrapping>::new(alloc)?;
    /// deque.extend_back([1, 2, 3, 4]);
    /// assert!(rt; deque.len() == 3);
    /// assert!(rt; (deque[0], deque[2]) == (2, 4));
    /// ```
    #[inline]
    fn index(&self, index: usize) -> &T {
        self.ring.item(index)
    }
}

impl<T, const CAP: usize, B: Behavior> IndexMut<usize> for ArrayDeque<T, CAP, B> {
    /// Returns a mutable reference to the item at an index. The front has index 0. Requires an
    /// index below the length.
    ///
    /// Start: stays. Steps: 1 lend.
    ///
    /// ```
    /// let mut deque = ArrayDeque::<i64, 3, Saturating>::new(alloc)?;
    /// deque.extend_back([1, 2, 3]);
    /// assert!(rt; deque.len() == 3);
    /// deque[1] = 7;
    /// assert!(rt; deque.into_vec()?.as_slice() == [1, 7, 3].as_slice());
    /// ```
    #[inline]
    fn index_mut(&mut self, index: usize) -> &mut T
        requires { index < length self.old.items }
        ensures value { slice_get self.old.items index ≡ Some result.now }

        // The item ends as it was last written, with 1 lend counted.
        ensures* writes_back { sem 𝓛 (lends_index T.row CAP.row B.row self.entry index result) }
    {
        self.ring.item_mut(index)
    }
}
