//! A whole list of calls on a deque, as values, and a reply to each.
ghost use Rattle.std.specs.Prelude.{◌≡◌, ◌<◌, length, IfOk, IfErr, OnErr, vec_capacity};
ghost use Rattle.std.specs.Mem.{type_size};
ghost use Rattle.arraydeque.specs.Costs.{RunCosts};
ghost use Rattle.arraydeque.specs.Makes.{Makes};
ghost use Rattle.arraydeque.specs.Policy.{Policy, saturating, wrapping};
ghost use Rattle.arraydeque.specs.Run.{MachineRun, DequeRun};
ghost use Rattle.arraydeque.specs.declared.run.Call.TheVariants.{PushFront, PushBack, Insert, Swap, Replace, ExtendBack, ExtendFront, Extend, Drain, SplitOff};

use crate::behavior::{Behavior, Saturating, Wrapping};
use crate::deque::ArrayDeque;
use crate::error::{CapacityError, MakeError};
use crate::iter;
use std::mem;

/// A call of a deque, as a value.
#[derive(Debug, Drop)]
pub enum Call<T> {
    /// Adds an element at the front.
    PushFront(T),
    /// Adds an element at the back.
    PushBack(T),
    /// Removes the first item.
    PopFront,
    /// Removes the last item.
    PopBack,
    /// Adds an element before the item at an index.
    Insert(usize, T),
    /// Removes the item at an index.
    Remove(usize),
    /// Removes the item at an index, and puts the last one in its place.
    SwapRemoveBack(usize),
    /// Removes the item at an index, and puts the first one in its place.
    SwapRemoveFront(usize),
    /// Exchanges two items.
    Swap(usize, usize),
    /// Puts an element in the place of an item.
    Replace(usize, T),
    /// Drops every item.
    Clear,
    /// Lays the items in one piece.
    Linearize,
    /// Adds elements at the back, in order.
    ExtendBack(Vec<T>),
    /// Adds elements at the front, one by one.
    ExtendFront(Vec<T>),
    /// Adds elements at the back, in order, as std's trait does.
    Extend(Vec<T>),
    /// Removes the items from an index up to another.
    Drain(usize, usize),
    /// Removes the items from an index on.
    SplitOff(usize),
    /// Asks how many items the deque holds.
    Len,
    /// Asks how many items the deque can hold.
    Capacity,
    /// Asks whether the deque holds no item.
    IsEmpty,
    /// Asks whether the deque holds `CAP` items.
    IsFull,
}

/// What a call returned.
#[derive(Drop)]
pub enum Reply<T, const CAP: usize, B: Behavior> {
    /// The call did its work, and returns nothing.
    Done,
    /// The item that was removed or replaced, if there was one.
    Item(Option<T>),
    /// The item that a push into a full deque removed, if it did, or at capacity 0 the element
    /// itself.
    Displaced(Option<T>),
    /// A length or a capacity.
    Number(usize),
    /// Yes or no.
    Truth(bool),
    /// The items that a drain removed.
    Drained(iter::Drain<T>),
    /// The items that were split off.
    Split(ArrayDeque<T, CAP, B>),
    /// It was a push or an insert into a full deque. The element comes back, and the list is as it
    /// was.
    Full(CapacityError<T>),
    /// An index was out of range, or the two of a drain were out of order. The element comes back,
    /// if the call had one, and the list is as it was.
    OutOfRange(Option<T>),
    /// Memory was refused, and the list is as it was.
    NoMemory,
    /// The policy offers no insert. The element comes back, and the list is as it was.
    NotOffered(T),
}

impl<T: Drop, const CAP: usize, B: RunPolicy<T, CAP>> ArrayDeque<T, CAP, B> {
    /// Makes the calls in order, and returns a reply to each. A call that is refused doesn't stop
    /// the run: its reply says so, and the list is as it was.
    ///
    /// Memory for just the replies is taken before the first call. If there is no call, none is
    /// taken. Fails only if that memory is refused; then nothing has changed, and the calls come
    /// back in the error.
    ///
    /// Start: as the calls leave it in turn. Steps: those of the calls.
    ///
    /// ```
    /// let mut deque = ArrayDeque::<i64, 1, Saturating>::new(alloc)?;
    /// let calls = vec![in alloc; Call::PushBack(1), Call::PushBack(2), Call::Len]?;
    /// let mut replies = deque.run(calls)?.into_iter();
    /// assert!(rt; matches!(replies.next(), Some(Reply::Done)));
    /// assert!(rt; matches!(replies.next(), Some(Reply::Full(_))));
    /// assert!(rt; matches!(replies.next(), Some(Reply::Number(1))));
    /// ```
    pub fn run(
        &mut self,
        calls: Vec<Call<T>>,
    ) -> Result<Vec<Reply<T, CAP, B>>, MakeError<Vec<Call<T>>>>
        // If memory is granted, each call is answered in turn, as the list machine answers it.
        ensures ok { IfOk result (λ replies.
            MachineRun B.policy self.old.items calls.items replies.items self.new.items) }
        // And each makes of the deque what the call itself promises: list, start and steps.
        ensures whole { IfOk result (λ replies.
            DequeRun B.policy (type_size T.row) self.old calls.items replies.items self.new) }
        // Moves and exchanges together are the costs of the calls, or fewer with a `Linearize`.
        ensures costs { IfOk result (λ replies.
            RunCosts B.policy self.old calls.items replies.items self.new) }
        ensures exact { IfOk result (λ replies. vec_capacity replies ≡ length calls.items) }

        // If memory is refused, the calls come back, and nothing changes.
        ensures source { IfErr result (λ refusal. refusal.source ≡ calls) }
        ensures unchanged { OnErr result (self.new ≡ self.old) }
        ensures refused { OnErr result (0 < length calls.items) }
    {
        let mut replies = match Vec::with_capacity(self.alloc(), calls.len()) {
            Ok(replies) => replies,
            Err(_) => return Err(MakeError { source: calls }),
        };
        for call in calls {
            let reply = self.answer(call);
            replies.push_reserved(reply);
        }
        Ok(replies)
    }
}

/// A policy of [`ArrayDeque::run`], for a function that calls it under either: [`Saturating`] or
/// [`Wrapping`], and no other type can be one.
///
/// ```
/// use arraydeque::run::RunPolicy;
///
/// fn replies_to<const CAP: usize, B: RunPolicy<i64, CAP>>(
///     deque: &mut ArrayDeque<i64, CAP, B>,
///     calls: Vec<Call<i64>>,
/// ) -> usize {
///     deque.run(calls).map_or(0, |replies| replies.len())
/// }
///
/// let mut deque = ArrayDeque::<i64, 1, Wrapping>::new(alloc)?;
/// assert!(rt; replies_to(&mut deque, vec![in alloc; Call::PushBack(1), Call::Len]?) == 2);
/// ```
pub trait RunPolicy<T, const CAP: usize>: MachinePolicy<T, CAP> {}

impl<T: Drop, const CAP: usize> RunPolicy<T, CAP> for Saturating {}

impl<T: Drop, const CAP: usize> RunPolicy<T, CAP> for Wrapping {}

/// A policy of the list machine: the answers to the calls that differ by the policy, which `run`
/// alone asks for. A refused call leaves the list as it was.
pub(crate) trait MachinePolicy<T, const CAP: usize>: Behavior {
    // What the list machine calls it.
    ghost policy: { Policy };

    /// Answers a push before the first item.
    fn answer_push_front(deque: &mut ArrayDeque<T, CAP, Self>, element: T) -> Reply<T, CAP, Self>
        ensures makes { Makes policy CAP (type_size T.row) (PushFront element) result
            deque.old deque.new };

    /// Answers a push behind the last item.
    fn answer_push_back(deque: &mut ArrayDeque<T, CAP, Self>, element: T) -> Reply<T, CAP, Self>
        ensures makes { Makes policy CAP (type_size T.row) (PushBack element) result
            deque.old deque.new };

    /// Answers an insert, if the policy offers it.
    fn answer_insert(
        deque: &mut ArrayDeque<T, CAP, Self>,
        index: usize,
        element: T,
    ) -> Reply<T, CAP, Self>
        ensures makes { Makes policy CAP (type_size T.row) (Insert index element) result
            deque.old deque.new };

    /// Answers either call that adds elements at the back.
    fn answer_extend_back(
        deque: &mut ArrayDeque<T, CAP, Self>,
        elements: Vec<T>,
    ) -> Reply<T, CAP, Self>
        ensures makes { Makes policy CAP (type_size T.row) (ExtendBack elements) result
            deque.old deque.new }
        ensures makes_extend { Makes policy CAP (type_size T.row) (Extend elements) result
            deque.old deque.new };

    /// Answers a call that adds elements at the front.
    fn answer_extend_front(
        deque: &mut ArrayDeque<T, CAP, Self>,
        elements: Vec<T>,
    ) -> Reply<T, CAP, Self>
        ensures makes { Makes policy CAP (type_size T.row) (ExtendFront elements) result
            deque.old deque.new };
}

// The methods below repeat the clauses of their trait: the check can't give these to the extends
// yet.
impl<T: Drop, const CAP: usize> MachinePolicy<T, CAP> for Saturating {
    ghost policy = { saturating };

    fn answer_push_front(
        deque: &mut ArrayDeque<T, CAP, Saturating>,
        element: T,
    ) -> Reply<T, CAP, Saturating>
        ensures makes { Makes saturating CAP (type_size T.row) (PushFront element) result
            deque.old deque.new }
    {
        match deque.push_front(element) {
            Ok(()) => Reply::Done,
            Err(refusal) => Reply::Full(refusal),
        }
    }

    fn answer_push_back(
        deque: &mut ArrayDeque<T, CAP, Saturating>,
        element: T,
    ) -> Reply<T, CAP, Saturating>
        ensures makes { Makes saturating CAP (type_size T.row) (PushBack element) result
            deque.old deque.new }
    {
        match deque.push_back(element) {
            Ok(()) => Reply::Done,
            Err(refusal) => Reply::Full(refusal),
        }
    }

    fn answer_insert(
        deque: &mut ArrayDeque<T, CAP, Saturating>,
        index: usize,
        element: T,
    ) -> Reply<T, CAP, Saturating>
        ensures makes { Makes saturating CAP (type_size T.row) (Insert index element) result
            deque.old deque.new }
    {
        if index > deque.len() {
            return Reply::OutOfRange(Some(element));
        }
        match deque.insert(index, element) {
            Ok(()) => Reply::Done,
            Err(refusal) => Reply::Full(refusal),
        }
    }

    fn answer_extend_back(
        deque: &mut ArrayDeque<T, CAP, Saturating>,
        elements: Vec<T>,
    ) -> Reply<T, CAP, Saturating>
        ensures makes { Makes saturating CAP (type_size T.row) (ExtendBack elements) result
            deque.old deque.new }
        ensures makes_extend { Makes saturating CAP (type_size T.row) (Extend elements) result
            deque.old deque.new }
    {
        deque.extend_back(elements);
        Reply::Done
    }

    fn answer_extend_front(
        deque: &mut ArrayDeque<T, CAP, Saturating>,
        elements: Vec<T>,
    ) -> Reply<T, CAP, Saturating>
        ensures makes { Makes saturating CAP (type_size T.row) (ExtendFront elements) result
            deque.old deque.new }
    {
        deque.extend_front(elements);
        Reply::Done
    }
}

impl<T: Drop, const CAP: usize> MachinePolicy<T, CAP> for Wrapping {
    ghost policy = { wrapping };

    fn answer_push_front(
        deque: &mut ArrayDeque<T, CAP, Wrapping>,
        element: T,
    ) -> Reply<T, CAP, Wrapping>
        ensures makes { Makes wrapping CAP (type_size T.row) (PushFront element) result
            deque.old deque.new }
    {
        Reply::Displaced(deque.push_front(element))
    }

    fn answer_push_back(
        deque: &mut ArrayDeque<T, CAP, Wrapping>,
        element: T,
    ) -> Reply<T, CAP, Wrapping>
        ensures makes { Makes wrapping CAP (type_size T.row) (PushBack element) result
            deque.old deque.new }
    {
        Reply::Displaced(deque.push_back(element))
    }

    fn answer_insert(
        deque: &mut ArrayDeque<T, CAP, Wrapping>,
        index: usize,
        element: T,
    ) -> Reply<T, CAP, Wrapping>
        ensures makes { Makes wrapping CAP (type_size T.row) (Insert index element) result
            deque.old deque.new }
    {
        Reply::NotOffered(element)
    }

    fn answer_extend_back(
        deque: &mut ArrayDeque<T, CAP, Wrapping>,
        elements: Vec<T>,
    ) -> Reply<T, CAP, Wrapping>
        ensures makes { Makes wrapping CAP (type_size T.row) (ExtendBack elements) result
            deque.old deque.new }
        ensures makes_extend { Makes wrapping CAP (type_size T.row) (Extend elements) result
            deque.old deque.new }
    {
        deque.extend_back(elements);
        Reply::Done
    }

    fn answer_extend_front(
        deque: &mut ArrayDeque<T, CAP, Wrapping>,
        elements: Vec<T>,
    ) -> Reply<T, CAP, Wrapping>
        ensures makes { Makes wrapping CAP (type_size T.row) (ExtendFront elements) result
            deque.old deque.new }
    {
        deque.extend_front(elements);
        Reply::Done
    }
}

impl<T: Drop, const CAP: usize, B: RunPolicy<T, CAP>> ArrayDeque<T, CAP, B> {
    /// Makes one call, and returns its reply. A refused call leaves the list as it was.
    fn answer(&mut self, call: Call<T>) -> Reply<T, CAP, B>
        ensures makes { Makes B.policy CAP (type_size T.row) call result self.old self.new }
    {
        match call {
            Call::PushFront(element) => B::answer_push_front(self, element),
            Call::PushBack(element) => B::answer_push_back(self, element),
            Call::PopFront => Reply::Item(self.pop_front()),
            Call::PopBack => Reply::Item(self.pop_back()),
            Call::Insert(index, element) => B::answer_insert(self, index, element),
            Call::Remove(index) => Reply::Item(self.remove(index)),
            Call::SwapRemoveBack(index) => Reply::Item(self.swap_remove_back(index)),
            Call::SwapRemoveFront(index) => Reply::Item(self.swap_remove_front(index)),
            Call::Swap(i, j) => self.answer_swap(i, j),
            Call::Replace(index, element) => self.answer_replace(index, element),
            Call::Clear => {
                self.clear();
                Reply::Done
            }
            Call::Linearize => {
                self.linearize();
                Reply::Done
            }
            Call::ExtendBack(elements) | Call::Extend(elements) => {
                B::answer_extend_back(self, elements)
            }
            Call::ExtendFront(elements) => B::answer_extend_front(self, elements),
            Call::Drain(from, to) => self.answer_drain(from, to),
            Call::SplitOff(at) => self.answer_split_off(at),
            Call::Len => Reply::Number(self.len()),
            Call::Capacity => Reply::Number(self.capacity()),
            Call::IsEmpty => Reply::Truth(self.is_empty()),
            Call::IsFull => Reply::Truth(self.is_full()),
        }
    }
}

impl<T: Drop, const CAP: usize, B: Behavior> ArrayDeque<T, CAP, B> {
    /// Answers an exchange of two items, which is made if both indexes are in range.
    fn answer_swap(&mut self, i: usize, j: usize) -> Reply<T, CAP, B>
        ensures makes { (p : Policy) →
            Makes p CAP (type_size T.row) (Swap i j) result self.old self.new }
    {
        let len = self.len();
        if i >= len || j >= len {
            return Reply::OutOfRange(None);
        }
        self.swap(i, j);
        Reply::Done
    }

    /// Answers that an item is replaced, if its index is in range.
    fn answer_replace(&mut self, index: usize, element: T) -> Reply<T, CAP, B>
        ensures makes { (p : Policy) →
            Makes p CAP (type_size T.row) (Replace index element) result self.old self.new }
    {
        match self.get_mut(index) {
            Some(item) => Reply::Item(Some(mem::replace(item, element))),
            None => Reply::OutOfRange(Some(element)),
        }
    }

    /// Answers with the items of a range, if it is within the list and memory is granted.
    fn answer_drain(&mut self, from: usize, to: usize) -> Reply<T, CAP, B>
        ensures makes { (p : Policy) →
            Makes p CAP (type_size T.row) (Drain from to) result self.old self.new }
    {
        if from > to || to > self.len() {
            return Reply::OutOfRange(None);
        }
        match self.drain(from..to) {
            Ok(drained) => Reply::Drained(drained),
            Err(_) => Reply::NoMemory,
        }
    }

    /// Answers with the items from an index on, if it is in range and memory is granted.
    fn answer_split_off(&mut self, at: usize) -> Reply<T, CAP, B>
        ensures makes { (p : Policy) →
            Makes p CAP (type_size T.row) (SplitOff at) result self.old self.new }
    {
        if at > self.len() {
            return Reply::OutOfRange(None);
        }
        match self.split_off(at) {
            Ok(tail) => Reply::Split(tail),
            Err(_) => Reply::NoMemory,
        }
    }
}
