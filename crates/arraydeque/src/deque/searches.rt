//! Binary searches of a list in order. The caller says what the order is.
ghost use Rattle.std.specs.Prelude.{◌≡◌, ◌≤◌, Bool, true, false, length, IfOk};
ghost use Rattle.std.specs.declared.cmp.Ordering.{Ordering};
ghost use Rattle.std.specs.Fn.{ComputesKey};
ghost use Rattle.std.specs.List.{HoldsAt};
ghost use Rattle.arraydeque.specs.Searches.{IsFirstFound, IsLessCount};
ghost use Rattle.std.specs.List.Sorted.{IsBinarySearchResult, IsPartitionedBy, IsPartitionPoint, IsSearchInRange};

use super::ArrayDeque;
use crate::behavior::Behavior;
use std::cmp::Ordering;

impl<T, const CAP: usize, B: Behavior> ArrayDeque<T, CAP, B> {
    /// Returns how many items `pred` accepts, if those come first and the others behind them. That
    /// is the index of the first of the others. What `pred` answers has to be a function of the
    /// item.
    ///
    /// ```
    /// let mut deque = ArrayDeque::<i64, 3, Wrapping>::new(alloc)?;
    /// deque.extend_back([1, 2, 3, 4]);
    /// assert!(rt; deque.partition_point(|item| *item < 4) == 2);
    /// ```
    pub fn partition_point<P: FnMut(&T) -> bool>(&self, mut pred: P) -> usize
        requires { P.IsAlwaysCallable pred }
        ensures bound { result ≤ length self.now.items }
        ensures within { length self.now.items ≤ CAP }

        // If `pred` computes a test `p`, and items that pass it come first, they end at the result.
        ensures partitioned { (p : T → Bool) → ComputesKey P.FnMut p pred
            → IsPartitionedBy p self.now.items
            → IsPartitionPoint (λ y. p y ≡ true) (λ y. p y ≡ false) self.now.items result }
    {
        let mut order = |item: &T| if pred(item) {
            Ordering::Less
        } else {
            Ordering::Greater
        };
        self.less_count(&mut order)
    }

    /// Returns the index of the first item that compares as equal to `x`, if the items are in
    /// ascending order. If there is none, returns in the error the index behind all that are less,
    /// at which `x` would keep that order.
    ///
    /// ```
    /// let mut deque = ArrayDeque::<i64, 3, Wrapping>::new(alloc)?;
    /// deque.extend_back([1, 2, 4, 5]);
    /// assert!(rt; deque.binary_search(&4) == Ok(1));
    /// assert!(rt; deque.binary_search(&3) == Err(1));
    /// ```
    pub fn binary_search(&self, x: &T) -> Result<usize, usize>
    where
        T: Ord,
        ensures bound { IsSearchInRange result (length self.now.items) }
        ensures within { length self.now.items ≤ CAP }

        // An item that is found equals `x`, and if the items rise, it is the first that does. If
        // they rise and none is found, `x` would keep their order at the index in the error.
        ensures position { IsBinarySearchResult (λ y. T.cmp y x.now) self.now.items result }
        ensures first { IsFirstFound (λ y. T.cmp y x.now) self.now.items result }

        // Of this, only what is known of the item that was found.
        ensures ok { IfOk result (HoldsAt (λ y. T.cmp y x.now ≡ Ordering.Equal) self.now.items) }
    {
        self.binary_search_by(|item| item.cmp(x))
    }

    /// Returns the index of the first item for which `f` returns `Equal`, if what it returns is a
    /// function of the item, and rises from `Less` to `Greater`. If there is none, returns in the
    /// error the index behind all items with `Less`, at which such an item would keep that order.
    ///
    /// ```
    /// let mut deque = ArrayDeque::<i64, 3, Wrapping>::new(alloc)?;
    /// deque.extend_back([1, 2, 4, 5]);
    /// assert!(rt; deque.binary_search_by(|item| item.cmp(&5)) == Ok(2));
    /// ```
    pub fn binary_search_by<F: FnMut(&T) -> Ordering>(&self, mut f: F) -> Result<usize, usize>
        requires { F.IsAlwaysCallable f }
        ensures bound { IsSearchInRange result (length self.now.items) }
        ensures within { length self.now.items ≤ CAP }

        // If `f` computes `ord` of the items, the result is that of `binary_search`, by `ord`.
        ensures position { (ord : T → Ordering) → ComputesKey F.FnMut ord f
            → IsBinarySearchResult ord self.now.items result }
        ensures first { (ord : T → Ordering) → ComputesKey F.FnMut ord f
            → IsFirstFound ord self.now.items result }
    {
        let index = self.less_count(&mut f);
        match self.get(index) {
            Some(item) if f(item).is_eq() => Ok(index),
            _ => Err(index),
        }
    }

    /// Returns the index of the first item whose key, which `f` computes, compares as equal to
    /// `key`, if the keys are in ascending order. If there is none, returns in the error the index
    /// behind all items with a lesser key, at which such an item would keep that order.
    ///
    /// ```
    /// let mut deque = ArrayDeque::<(i64, bool), 3, Saturating>::new(alloc)?;
    /// deque.extend_back([(1, true), (4, false)]);
    /// assert!(rt; deque.binary_search_by_key(&4, |item| item.0) == Ok(1));
    /// ```
    pub fn binary_search_by_key<K: Ord, F: FnMut(&T) -> K>(
        &self,
        key: &K,
        mut f: F,
    ) -> Result<usize, usize>
    where
        K: Drop,
        requires { F.IsAlwaysCallable f }
        ensures bound { IsSearchInRange result (length self.now.items) }
        ensures within { length self.now.items ≤ CAP }

        // If `f` computes `key_of` of the items, the result is that of `binary_search`, by keys.
        ensures position { (key_of : T → K) → ComputesKey F.FnMut key_of f
            → IsBinarySearchResult (λ y. K.cmp (key_of y) key.now) self.now.items result }
        ensures first { (key_of : T → K) → ComputesKey F.FnMut key_of f
            → IsFirstFound (λ y. K.cmp (key_of y) key.now) self.now.items result }
    {
        self.binary_search_by(|item| f(item).cmp(key))
    }

    /// Returns the index behind all items for which `f` returns `Less`, if they come first.
    fn less_count<F: FnMut(&T) -> Ordering>(&self, f: &mut F) -> usize
        requires { F.IsAlwaysCallable f.old }
        ensures bound { result ≤ length self.now.items }
        ensures within { length self.now.items ≤ CAP }
        ensures callable { F.IsAlwaysCallable f.new }

        // If `f` computes `ord` of the items, it still does, and the result counts those of `Less`.
        ensures parted { (ord : T → Ordering) → ComputesKey F.FnMut ord f.old
            → ComputesKey F.FnMut ord f.new × IsLessCount ord self.now.items result }
    {
        let (front, back) = self.as_slices();
        let is_behind = match back.first() {
            Some(item) => f(item).is_lt(),
            None => false,
        };
        let (before, items) = if is_behind {
            (front.len(), back)
        } else {
            (0, front)
        };
        before + slice_less_count(items, f)
    }
}

/// Does what `less_count` does, in a slice.
///
/// There are two loops, one within the other, for speed alone: LLVM turns a choice into a branch in
/// an innermost loop only, and here every second branch would be predicted wrongly. So up to 8,192
/// items are halved in the outer loop, without a branch. More than that don't fit a near cache, and
/// there a branch is wanted: it fetches the next item before the answer is known. By one loop,
/// `search` among 1,024 items takes several times as long.
fn slice_less_count<T, F: FnMut(&T) -> Ordering>(items: &[T], f: &mut F) -> usize
    requires { F.IsAlwaysCallable f.old }
    ensures bound { result ≤ length items.now }
    ensures callable { F.IsAlwaysCallable f.new }
    ensures parted { (ord : T → Ordering) → ComputesKey F.FnMut ord f.old
        → ComputesKey F.FnMut ord f.new × IsLessCount ord items.now result }
{
    let mut base = 0;
    let mut size = items.len();
    while size > 1 {
        while size > 8192 {
            let half = size / 2;
            if f(&items[base + half]).is_lt() {
                base += half;
            }
            size -= half;
        }
        let half = size / 2;
        if f(&items[base + half]).is_lt() {
            base += half;
        }
        size -= half;
    }
    let Some(item) = items.get(base) else {
        return base;
    };
    if f(item).is_lt() { base + 1 } else { base }
}
