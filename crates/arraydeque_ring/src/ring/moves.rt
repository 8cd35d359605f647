//! Calls that open or close a gap by moving the side with fewer items. A rotation closes a gap too:
//! the ring's empty places, as they are seen from its new first item on.
ghost use Rattle.std.specs.Prelude.{◌≡◌, ◌-◌, ◌+◌, ◌<◌, ◌≤◌, ◌++◌, length, take, drop, slice_get, min, max};
ghost use Rattle.std.specs.List.{insert, remove};
ghost use Rattle.arraydeque_ring.specs.Gaps.{Closes, MayClose, gap_moved};
ghost use Rattle.arraydeque_ring.specs.Ring.{rotated};
ghost use Rattle.arraydeque_ring.specs.Runs.{IsEmptyRun, IsFilledRun};
ghost use Rattle.arraydeque_ring.specs.Sides.{moves_to_insert, moves_to_remove, moves_to_rotate, start_opened, start_closed, start_rotated};
ghost use Rattle.arraydeque_ring.specs.Changed.{InsertMovesFewest, RemoveMovesFewest, RotateMovesFewest};
ghost use Rattle.arraydeque_ring.specs.Steps.{more_puts, more_takes, more_moves};

use super::Ring;
use crate::slots::Slots;
use crate::wrap::wrap_add;

impl<T> Ring<T> {
    /// Adds an element before the item at an index, or at the back if the index is the length.
    /// Requires room, and an index up to the length.
    ///
    /// Either the items before the index move by one place, and the start with them, or those from
    /// the index on: whichever are fewer, and on a tie the latter.
    ///
    /// ```
    /// let mut ring = Ring::from_slice(alloc, 4, &[1, 3])?;
    /// ring.insert(1, 2);
    /// ring.insert(3, 4);
    /// assert!(rt; IntoIter::from_ring(ring).eq([1, 2, 3, 4]));
    /// ```
    pub fn insert(&mut self, index: usize, element: T)
        requires in_bounds { index ≤ length self.old.items }
        requires room { length self.old.items < self.old.capacity }

        // What is left.
        ensures items { self.new.items ≡ insert self.old.items index element }
        ensures capacity { self.new.capacity ≡ self.old.capacity }

        // Where the list lies, and what it cost.
        ensures start { self.new.start ≡ start_opened index self.old }
        ensures steps { self.new.steps ≡ more_puts 1
            (more_moves (moves_to_insert index (length self.old.items)) self.old.steps) }
        ensures fewest { InsertMovesFewest index self.old self.new.start }
    {
        let capacity = self.slots.capacity();
        let behind = self.len - index;
        if index < behind {
            let before = wrap_add(self.start, capacity - 1, capacity);
            move_gap(&mut self.slots, before, 0, index, 1);
            self.start = before;
        } else {
            move_gap(&mut self.slots, self.start, self.len, index, 1);
        }
        let place = wrap_add(self.start, index, capacity);
        self.len += 1;
        self.slots.put(place, element);
    }

    /// Removes the item at an index and returns it. Requires an index below the length.
    ///
    /// Either the items before it move by one place, and the start with them, or those behind it:
    /// whichever are fewer, and on a tie the latter.
    ///
    /// ```
    /// let mut ring = Ring::from_slice(alloc, 4, &[1, 2, 3])?;
    /// assert!(rt; ring.remove(1) == 2);
    /// assert!(rt; IntoIter::from_ring(ring).eq([1, 3]));
    /// ```
    #[tactic(auto, using(crate::proofs::Opened::end_facts))]
    pub fn remove(&mut self, index: usize) -> T
        requires { index < length self.old.items }

        // What is returned, and what is left.
        ensures value { slice_get self.old.items index ≡ Some result }
        ensures items { self.new.items ≡ remove self.old.items index }
        ensures capacity { self.new.capacity ≡ self.old.capacity }

        // Where the list lies, and what it cost.
        ensures start { self.new.start ≡ start_closed index 1 self.old }
        ensures steps { self.new.steps ≡ more_moves
            (moves_to_remove index (length self.old.items)) (more_takes 1 self.old.steps) }
        ensures fewest { RemoveMovesFewest index self.old self.new.start }
    {
        let place = self.place(index);
        let item = self.slots.take(place);
        self.len -= 1;
        self.start = close_gap(&mut self.slots, self.start, index, 1, self.len - index);
        item
    }

    /// Puts the first `count` items behind the others. Requires a count up to the length.
    ///
    /// In a full ring no item moves. Otherwise the first `count` items or the others move,
    /// whichever are fewer, and on a tie the first.
    ///
    /// ```
    /// let mut ring = Ring::from_slice(alloc, 4, &[1, 2, 3])?;
    /// assert!(rt; ring.len() == 3);
    /// ring.rotate_left(1);
    /// assert!(rt; IntoIter::from_ring(ring).eq([2, 3, 1]));
    /// ```
    #[tactic(auto, using(crate::proofs::Opened::end_facts))]
    #[inline(always)] // By a hint, a turn by one to the right takes longer.
    pub fn rotate_left(&mut self, count: usize)
        requires { count ≤ length self.old.items }
        ensures items { self.new.items ≡ drop count self.old.items ++ take count self.old.items }
        ensures capacity { self.new.capacity ≡ self.old.capacity }
        ensures start { self.new.start ≡ start_rotated count self.old }
        ensures steps { self.new.steps ≡ more_moves
            (moves_to_rotate count (length self.old.items) self.old.capacity) self.old.steps }
        ensures fewest { RotateMovesFewest count self.old self.new.start }
    {
        let others = self.len - count;
        if count == 1 && 0 < others {
            self.first_to_back();
        } else if others == 1 && 1 < count {
            self.last_to_front();
        } else if 0 < count {
            self.turn(count);
        }
    }

    /// Puts the first item behind the others. Requires two items or more.
    #[tactic(auto, using(crate::proofs::Opened::end_facts))]
    #[inline(always)] // By `turn`, `rotate_half_one` takes longer.
    fn first_to_back(&mut self)
        requires { 1 < length self.old.items }
        ensures items { self.new.items ≡ drop 1 self.old.items ++ take 1 self.old.items }
        ensures capacity { self.new.capacity ≡ self.old.capacity }
        ensures start { self.new.start ≡ start_rotated 1 self.old }
        ensures steps { self.new.steps ≡ more_moves
            (moves_to_rotate 1 (length self.old.items) self.old.capacity) self.old.steps }
    {
        let capacity = self.slots.capacity();
        let first = self.start;
        let behind = wrap_add(first, self.len, capacity);
        self.start = wrap_add(first, 1, capacity);
        if self.len < capacity {
            self.slots.shift(behind, first);
        }
    }

    /// Puts the last item before the others. Requires three items or more: of two, the first moves.
    #[tactic(auto, using(crate::proofs::Opened::end_facts))]
    #[inline(always)] // By `turn`, one to the right takes longer.
    fn last_to_front(&mut self)
        requires { 2 < length self.old.items }
        ensures items { let others = length self.old.items - 1 in
            self.new.items ≡ drop others self.old.items ++ take others self.old.items }
        ensures capacity { self.new.capacity ≡ self.old.capacity }
        ensures start { self.new.start ≡ start_rotated (length self.old.items - 1) self.old }
        ensures steps { let len = length self.old.items in
            self.new.steps ≡ more_moves
            (moves_to_rotate (len - 1) len self.old.capacity) self.old.steps }
    {
        let capacity = self.slots.capacity();
        let last = wrap_add(self.start, self.len - 1, capacity);
        let before = wrap_add(self.start, capacity - 1, capacity);
        self.start = before;
        if self.len < capacity {
            self.slots.shift(before, last);
        }
    }

    /// Puts the first `count` items behind the others. Requires a count above 0, up to the length.
    #[tactic(auto, using(crate::proofs::Opened::end_facts))]
    #[inline(always)] // By a hint, as at `rotate_left`, it takes longer.
    fn turn(&mut self, count: usize)
        requires some { 0 < count }
        requires within { count ≤ length self.old.items }
        ensures items { self.new.items ≡ drop count self.old.items ++ take count self.old.items }
        ensures capacity { self.new.capacity ≡ self.old.capacity }
        ensures start { self.new.start ≡ start_rotated count self.old }
        ensures steps { self.new.steps ≡ more_moves
            (moves_to_rotate count (length self.old.items) self.old.capacity) self.old.steps }
    {
        let capacity = self.slots.capacity();
        let has_room = self.len < capacity;
        let first = wrap_add(self.start, count, capacity);
        self.start = first;
        if has_room {
            let (others, gap) = (self.len - count, capacity - self.len);
            let (slots, start) = close_room(self.slots.move_out(), first, others, gap, count);
            self.slots = slots;
            self.start = start;
        }
    }
}

/// Closes the `gap` empty places between the `before` values from the place `start` on and the
/// `behind` values that follow the gap. The values on one side move: those before it if they are
/// fewer, otherwise those behind it. Returns the list's new start.
#[inline(always)] // So a removal's gap of one place is known to `move_gap`.
pub(super) fn close_gap<T>(
    slots: &mut Slots<T>,
    start: usize,
    before: usize,
    gap: usize,
    behind: usize,
) -> usize
    requires { MayClose start before gap behind slots.old.places }
    ensures { Closes start before gap behind slots.old result slots.new }
{
    let capacity = slots.capacity();
    if before < behind {
        move_gap(slots, start, before, 0, gap);
        wrap_add(start, gap, capacity)
    } else {
        move_gap(slots, start, before, before + behind, gap);
        start
    }
}

/// Closes the gap of a rotation, as `close_gap` does, in a region that it hands back. A full ring
/// has no gap, and doesn't call it.
#[inline(never)] // Inlined, or by a borrow, a full ring's turn takes far longer.
fn close_room<T>(
    mut slots: Slots<T>,
    start: usize,
    before: usize,
    gap: usize,
    behind: usize,
) -> (Slots<T>, usize)
    requires { MayClose start before gap behind slots.places }
    ensures { Closes start before gap behind slots result.1 result.0 }
{
    let closed = close_gap(&mut slots, start, before, gap, behind);
    (slots, closed)
}

/// Moves the `gap` empty places from the index `from` on to the index `to`, by moving the values
/// between the other way as one block. Indexes are counted from the place `start` on, round the
/// end, and `to` is counted as if the gap weren't there. A move by one place has calls of its own,
/// by which the workload `middle` takes a fifth fewer instructions.
#[inline(always)] // By a hint, `middle` took 244 instructions, not 194.
pub(super) fn move_gap<T>(slots: &mut Slots<T>, start: usize, from: usize, to: usize, gap: usize)
    requires some { 0 < gap }
    requires in_region { start < length slots.old.places }
    requires within { max from to + gap ≤ length slots.old.places }
    requires empty { IsEmptyRun (rotated start slots.old.places) from gap }
    requires filled_before { IsFilledRun (rotated start slots.old.places) to (from - to) }
    requires filled_behind { IsFilledRun (rotated start slots.old.places) (from + gap) (to - from) }
    ensures places { rotated start slots.new.places ≡
        gap_moved from to gap (rotated start slots.old.places) }
    ensures steps { slots.new.steps ≡ more_moves (max from to - min from to) slots.old.steps }
{
    let capacity = slots.capacity();
    if to < from {
        let src = wrap_add(start, to, capacity);
        if gap == 1 {
            slots.slide_up(src, from - to);
        } else {
            slots.wrap_move(wrap_add(start, to + gap, capacity), src, from - to);
        }
    } else {
        let dst = wrap_add(start, from, capacity);
        if gap == 1 {
            slots.slide_down(dst, to - from);
        } else {
            slots.wrap_move(dst, wrap_add(start, from + gap, capacity), to - from);
        }
    }
}
