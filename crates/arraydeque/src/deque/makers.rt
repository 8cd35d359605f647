//! Deques that are made of other collections, a vector of a deque, and the other policy.
ghost use Rattle.std.specs.Prelude.{◌≡◌, ◌<◌, ◌*◌, length, take, IfOk, IfErr, OnErr, vec_capacity};
ghost use Rattle.std.specs.Iterator.{IsFiniteIterable};
ghost use Rattle.std.specs.Mem.{type_size};
ghost use Rattle.arraydeque.specs.Deque.{empty_deque, keep_last, with_back, wrapped_back, WrapsBack};
ghost use Rattle.arraydeque.specs.Sources.{IsIterable, TakesFrom, TakesAll};

use super::ArrayDeque;
use crate::behavior::{Behavior, Saturating, Wrapping};
use crate::error::MakeError;
use arraydeque_ring::ring::Ring;
use std::alloc::Global;

impl<T, const CAP: usize> ArrayDeque<T, CAP, Saturating> {
    /// Returns a deque of the first `CAP` items of an iterator, which is asked for no more.
    ///
    /// Fails only if memory is refused; then the source was asked for nothing, and comes back in
    /// the error as it was.
    ///
    /// Start: 0. Steps: 1 put for each item of the deque.
    ///
    /// ```
    /// let mut numbers = 1..=5;
    /// let deque = ArrayDeque::<i64, 3, Saturating>::from_iter(alloc, &mut numbers)?;
    /// assert!(rt; deque.into_vec()?.as_slice() == [1, 2, 3].as_slice());
    /// assert!(rt; numbers.next() == Some(4));
    /// ```
    pub fn from_iter<I: IntoIterator<Item = T>>(
        alloc: Global,
        iter: I,
    ) -> Result<Self, MakeError<I>>
        requires { IsIterable I.into_iter_gives I.IntoIter.can_next iter }

        // If memory is granted, the deque has as much of what the iterator gives as finds room.
        ensures items { IfOk result (λ deque.
            TakesFrom I.into_iter_gives I.IntoIter.next_gives iter CAP
            (λ came. deque ≡ with_back came empty_deque)) }

        // If memory is refused, the source comes back, and nothing was taken from it.
        ensures source { IfErr result (λ refusal. refusal.source ≡ iter) }
        ensures refused { OnErr result (0 < CAP * type_size T.row) }
    {
        match Self::new(alloc) {
            Ok(mut deque) => {
                deque.extend_back(iter);
                Ok(deque)
            }
            Err(_) => Err(MakeError { source: iter }),
        }
    }

    /// Returns a deque of the first `CAP` items of a vector. The others are dropped.
    ///
    /// Fails only if memory is refused; then the vector comes back in the error as it was.
    ///
    /// Start: 0. Steps: 1 put for each item of the deque.
    ///
    /// ```
    /// let list = vec![in alloc; 1, 2, 3]?;
    /// let deque = ArrayDeque::<i64, 2, Saturating>::from_vec(alloc, list)?;
    /// assert!(rt; deque.into_vec()?.as_slice() == [1, 2].as_slice());
    /// ```
    pub fn from_vec(alloc: Global, v: Vec<T>) -> Result<Self, MakeError<Vec<T>>>
    where
        T: Drop,
        // If memory is granted, the first items are the deque's.
        ensures items { IfOk result (λ deque. deque ≡ with_back (take CAP v.items) empty_deque) }

        // If memory is refused, the vector comes back.
        ensures source { IfErr result (λ refusal. refusal.source ≡ v) }
        ensures refused { OnErr result (0 < CAP * type_size T.row) }
    {
        match Ring::from_vec(alloc, CAP, v) {
            Ok(ring) => Ok(Self::from_ring(ring)),
            Err(source) => Err(MakeError { source }),
        }
    }

    /// Returns a deque of the first `CAP` items of an array.
    ///
    /// Fails only if memory is refused; then the array comes back in the error as it was.
    ///
    /// Start: 0. Steps: 1 put for each item of the deque.
    ///
    /// ```
    /// let deque = ArrayDeque::<i64, 2, Saturating>::from_array(alloc, [1, 2, 3])?;
    /// assert!(rt; deque.into_vec()?.as_slice() == [1, 2].as_slice());
    /// ```
    pub fn from_array<const N: usize>(alloc: Global, a: [T; N]) -> Result<Self, MakeError<[T; N]>>
    where
        T: Copy,
        // If memory is granted, the first items are the deque's.
        ensures items { IfOk result (λ deque. deque ≡ with_back (take CAP a) empty_deque) }

        // If memory is refused, the array comes back.
        ensures source { IfErr result (λ refusal. refusal.source ≡ a) }
        ensures refused { OnErr result (0 < CAP * type_size T.row) }
    {
        let items = &a[..];
        match Ring::from_slice(alloc, CAP, &items[..N.min(CAP)]) {
            Ok(ring) => Ok(Self::from_ring(ring)),
            Err(_) => Err(MakeError { source: a }),
        }
    }
}

impl<T: Drop, const CAP: usize> ArrayDeque<T, CAP, Wrapping> {
    /// Returns a deque of the last `CAP` items of an iterator. The others are dropped. Requires an
    /// iterator that ends.
    ///
    /// Fails only if memory is refused; then the source was asked for nothing, and comes back in
    /// the error as it was.
    ///
    /// Start: from 0 on, 1 up for each item dropped.
    /// Steps: 1 put for each item of the iterator, 1 take for each item dropped.
    ///
    /// ```
    /// let deque = ArrayDeque::<i64, 3, Wrapping>::from_iter(alloc, 1..=5)?;
    /// assert!(rt; deque.into_vec()?.as_slice() == [3, 4, 5].as_slice());
    /// ```
    pub fn from_iter<I: IntoIterator<Item = T>>(
        alloc: Global,
        iter: I,
    ) -> Result<Self, MakeError<I>>
        requires { IsFiniteIterable
            I.into_iter_gives I.IntoIter.can_next I.IntoIter.remaining iter }

        // If memory is granted, all that the iterator gives is pushed, one by one.
        ensures items { IfOk result (λ deque.
            TakesAll I.into_iter_gives I.IntoIter.next_gives iter
            (λ came. WrapsBack CAP empty_deque came deque)) }

        // If memory is refused, the source comes back, and nothing was taken from it.
        ensures source { IfErr result (λ refusal. refusal.source ≡ iter) }
        ensures refused { OnErr result (0 < CAP * type_size T.row) }
    {
        match Self::new(alloc) {
            Ok(mut deque) => {
                deque.extend_back(iter);
                Ok(deque)
            }
            Err(_) => Err(MakeError { source: iter }),
        }
    }

    /// Returns a deque of the last `CAP` items of a vector. The others are dropped.
    ///
    /// Fails only if memory is refused; then the vector comes back in the error as it was.
    ///
    /// Start: from 0 on, 1 up for each item dropped.
    /// Steps: 1 put for each item of the vector, 1 take for each item dropped.
    ///
    /// ```
    /// let list = vec![in alloc; 1, 2, 3]?;
    /// let deque = ArrayDeque::<i64, 2, Wrapping>::from_vec(alloc, list)?;
    /// assert!(rt; deque.into_vec()?.as_slice() == [2, 3].as_slice());
    /// ```
    pub fn from_vec(alloc: Global, v: Vec<T>) -> Result<Self, MakeError<Vec<T>>>
        // If memory is granted, the items are pushed, one by one, and the last are the deque's.
        ensures items { IfOk result (λ deque. deque.items ≡ keep_last CAP v.items) }
        ensures pushed { IfOk result (λ deque.
            0 < CAP → deque ≡ wrapped_back CAP v.items empty_deque) }
        ensures no_places { IfOk result (λ deque. CAP ≡ 0 → deque ≡ empty_deque) }

        // If memory is refused, the vector comes back.
        ensures source { IfErr result (λ refusal. refusal.source ≡ v) }
        ensures refused { OnErr result (0 < CAP * type_size T.row) }
    {
        Self::from_iter(alloc, v)
    }

    /// Returns a deque of the last `CAP` items of an array.
    ///
    /// Fails only if memory is refused; then the array comes back in the error as it was.
    ///
    /// Start: 0. Steps: 1 put for each item of the deque.
    ///
    /// ```
    /// let deque = ArrayDeque::<i64, 2, Wrapping>::from_array(alloc, [1, 2, 3])?;
    /// assert!(rt; deque.into_vec()?.as_slice() == [2, 3].as_slice());
    /// ```
    pub fn from_array<const N: usize>(alloc: Global, a: [T; N]) -> Result<Self, MakeError<[T; N]>>
    where
        T: Copy,
        // If memory is granted, the last items are the deque's.
        ensures items { IfOk result (λ deque. deque ≡ with_back (keep_last CAP a) empty_deque) }

        // If memory is refused, the array comes back.
        ensures source { IfErr result (λ refusal. refusal.source ≡ a) }
        ensures refused { OnErr result (0 < CAP * type_size T.row) }
    {
        let items = &a[..];
        match Ring::from_slice(alloc, CAP, &items[N.saturating_sub(CAP)..]) {
            Ok(ring) => Ok(Self::from_ring(ring)),
            Err(_) => Err(MakeError { source: a }),
        }
    }
}

impl<T, const CAP: usize, B: Behavior> ArrayDeque<T, CAP, B> {
    /// Returns a vector of the items, front to back, with no room to spare.
    ///
    /// Fails only if memory is refused; then the deque comes back in the error as it was. An empty
    /// deque takes no memory.
    ///
    /// ```
    /// let mut deque = ArrayDeque::<i64, 3, Wrapping>::new(alloc)?;
    /// deque.extend_back([1, 2, 3, 4]);
    /// let list = deque.into_vec()?;
    /// assert!(rt; list.as_slice() == [2, 3, 4].as_slice());
    /// ```
    pub fn into_vec(self) -> Result<Vec<T>, MakeError<Self>>
        // If memory is granted, the items are the vector's, which has no room to spare.
        ensures items { IfOk result (λ v. v.items ≡ self.items) }
        ensures exact { IfOk result (λ v. vec_capacity v ≡ length self.items) }

        // If memory is refused, the deque comes back.
        ensures source { IfErr result (λ refusal. refusal.source ≡ self) }
        ensures refused { OnErr result (0 < length self.items) }
    {
        match self.into_ring().into_vec() {
            Ok(v) => Ok(v),
            Err(ring) => Err(MakeError {
                source: Self::from_ring(ring),
            }),
        }
    }
}

impl<T, const CAP: usize> From<ArrayDeque<T, CAP, Wrapping>> for ArrayDeque<T, CAP, Saturating> {
    ghost from_gives = { λ wrapping saturating. saturating ≡ wrapping };

    /// Returns the same deque under the other policy. The region and the list stay.
    ///
    /// Start: stays. Steps: none.
    ///
    /// ```
    /// let mut wrapping = ArrayDeque::<i64, 2, Wrapping>::new(alloc)?;
    /// wrapping.extend_back([1, 2, 3]);
    /// let mut deque = ArrayDeque::<i64, 2, Saturating>::from(wrapping);
    /// assert!(rt; deque.push_back(4) == Err(CapacityError { element: 4 }));
    /// assert!(rt; deque.into_vec()?.as_slice() == [2, 3].as_slice());
    /// ```
    fn from(deque: ArrayDeque<T, CAP, Wrapping>) -> Self {
        Self::from_ring(deque.into_ring())
    }
}

impl<T, const CAP: usize> From<ArrayDeque<T, CAP, Saturating>> for ArrayDeque<T, CAP, Wrapping> {
    ghost from_gives = { λ saturating wrapping. wrapping ≡ saturating };

    /// Returns the same deque under the other policy. The region and the list stay.
    ///
    /// Start: stays. Steps: none.
    ///
    /// ```
    /// let mut saturating = ArrayDeque::<i64, 2, Saturating>::new(alloc)?;
    /// saturating.extend_back([1, 2, 3]);
    /// let mut deque = ArrayDeque::<i64, 2, Wrapping>::from(saturating);
    /// assert!(rt; deque.push_back(4) == Some(1));
    /// assert!(rt; deque.into_vec()?.as_slice() == [2, 4].as_slice());
    /// ```
    fn from(deque: ArrayDeque<T, CAP, Saturating>) -> Self {
        Self::from_ring(deque.into_ring())
    }
}
