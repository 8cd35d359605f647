//! Laying the list in one piece, without a second region.
ghost use Rattle.std.specs.Prelude.{◌≡◌, ◌-◌, ◌<◌, ◌≤◌, ◌⊎◌, ◌==◌, length, if◌then◌else◌};
ghost use Rattle.arraydeque_ring.specs.Ring.{IsInOnePiece, rotated, filled, FilledFrom};
ghost use Rattle.arraydeque_ring.specs.Runs.{run_rotated};
ghost use Rattle.arraydeque_ring.specs.Steps.{more_moves, Rearranges};

use super::Ring;
use super::moves::move_gap;
use crate::slots::Slots;

impl<T> Ring<T> {
    /// Lays the list in one piece, so that the first slice of `as_slices` has all items. A list
    /// that wraps then starts at the first place. If the list lies in one piece already, wherever
    /// that is, nothing happens.
    ///
    /// It works in place, by no more moves and exchanges than there are items.
    ///
    /// ```
    /// let mut ring = Ring::from_slice(alloc, 4, &[2, 3])?;
    /// ring.push_front(1);
    /// ring.linearize();
    /// assert!(rt; ring.as_slices() == ([1, 2, 3].as_slice(), [].as_slice()));
    /// ```
    pub fn linearize(&mut self)
        // The items lie in one piece.
        ensures items { self.new.items ≡ self.old.items }
        ensures one_piece { IsInOnePiece self.new }
        ensures capacity { self.new.capacity ≡ self.old.capacity }

        // If they wrapped, they start at 0, with no more moves and exchanges than items.
        ensures start { ¬ IsInOnePiece self.old → self.new.start ≡ 0 }
        ensures steps { Rearranges (length self.old.items) self.old.steps self.new.steps }

        // If they lay in one piece before, nothing changes.
        ensures unchanged { IsInOnePiece self.old → self.new ≡ self.old }
    {
        if self.len <= self.slots.capacity() - self.start {
            return;
        }
        self.slots = rotate(self.slots.move_out(), self.start, self.len);
        self.start = 0;
    }
}

/// Rotates the region, whose `len` values begin at the place `start` and wrap, so that they begin
/// at the first place. Runs of values are exchanged or moved. With seven values in a region of 8
/// places:
///
///     place             0 1 2 3 4 5 6 7
///     before, from 5 on d e f g . a b c
///     0-2 with 5-7      a b c g . d e f
///     3 with 5, 6 to 4  a b c d e g . f
///     5 to 6, 7 to 5    a b c d e f g .
fn rotate<T>(mut slots: Slots<T>, start: usize, len: usize) -> Slots<T>
    requires in_region { start < length slots.places }
    requires filled { FilledFrom start len (filled slots.places) }
    ensures places { result.places ≡ rotated start slots.places }
    ensures steps { Rearranges len slots.steps result.steps }
{
    let capacity = slots.capacity();
    // The values before `dst` are in their places. Next come those from the place `next` to the
    // end, and then those from the place `dst` on.
    let mut dst = 0;
    let mut next = start;
    while next < len && capacity - next < len - dst {
        let first = capacity - next;
        let count = first.min(next - dst);
        let past_end = (len - dst - first).min(count);
        slots = slots.exchange_runs(dst, next, past_end);
        slots = slots.move_down(dst + past_end, next + past_end, count - past_end);
        dst += count;
        if count < first {
            next += count;
        }
    }
    place_rest(slots, dst, next, len)
}

/// Moves the values that aren't in their places yet to these places. No exchange is needed, because
/// they are in one piece from `next` on, or there is room before `next` for those past the end.
#[inline(never)] // Inlined, a call with nothing to do took 33 instructions, not 19.
fn place_rest<T>(slots: Slots<T>, dst: usize, next: usize, len: usize) -> Slots<T>
    requires in_order { dst ≤ next }
    requires in_region { next < length slots.places }
    requires some_left { dst ≤ len }
    requires room { (len - dst ≤ length slots.places - next) ⊎ (len ≤ next) }
    requires filled { let gap = next - dst in let behind = length slots.places - next in
        FilledFrom 0 len (filled (run_rotated dst gap behind slots.places)) }
    ensures places { let gap = next - dst in let behind = length slots.places - next in
        result.places ≡ run_rotated dst gap behind slots.places }
    ensures steps { result.steps ≡
        more_moves (if dst == next then 0 else len - dst) slots.steps }
{
    if dst == next {
        return slots;
    }
    // If the parameter were `mut`, the region would be stored before the return above, too.
    let mut slots = slots;
    let first = slots.capacity() - next;
    let left = len - dst;
    if left <= first {
        move_gap(&mut slots, 0, dst, len, next - dst);
        return slots;
    }
    move_gap(&mut slots, 0, len - first, dst, first);
    slots.move_down(dst, next, first)
}
