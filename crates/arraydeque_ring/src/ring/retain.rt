//! Dropping the items that a closure rejects.
ghost use Rattle.std.specs.Prelude.{◌≤◌, length};
ghost use Rattle.std.specs.Fn.{CalledAt, CalledAtMut};
ghost use Rattle.std.specs.List.Retain.{ReturnsInTurn};
ghost use Rattle.arraydeque_ring.specs.Retained.{Retains, MayBeAsked, answers_until};
ghost use Rattle.arraydeque_ring.specs.Retained.{RetainsMut, MayBeAskedMut};

use super::Ring;
use crate::wrap::wrap_add;

impl<T> Ring<T> {
    /// Keeps the items for which `f` returns true, in order, and drops the others. `f` is called
    /// once on each item, front to back.
    ///
    /// It works in place and takes no memory: each kept item behind the first removed one moves
    /// once.
    ///
    /// ```
    /// let mut ring = Ring::from_slice(alloc, 4, &[1, 2, 3])?;
    /// ring.retain(|item| *item % 2 == 1);
    /// assert!(rt; IntoIter::from_ring(ring).eq([1, 3]));
    /// ```
    #[tactic(auto, using(crate::proofs::Opened::end_facts))]
    pub fn retain<F: FnMut(&T) -> bool>(&mut self, mut f: F)
    where
        T: Drop,
        F: Drop,
        requires { MayBeAsked F.FnMut f self.old.items }
        ensures retains { Retains (CalledAt F.FnMut) f self.old self.new }
        ensures no_longer { length self.new.items ≤ length self.old.items }
    {
        let mut kept = self.kept_count(&mut f);
        let (start, len) = (self.start, self.len);
        if kept == len {
            return;
        }
        let slots = &mut self.slots;
        let capacity = slots.capacity();
        drop(slots.take(wrap_add(start, kept, capacity)));
        for index in kept + 1..len {
            let place = wrap_add(start, index, capacity);
            let keeps = f(slots.get(place));
            if keeps {
                slots.shift(wrap_add(start, kept, capacity), place);
                kept += 1;
            } else {
                drop(slots.take(place));
            }
        }
        self.len = kept;
    }

    /// Keeps the items for which `f` returns true, in order and as `f` left them, and drops the
    /// others. `f` is called once on each item, front to back.
    ///
    /// It works in place and takes no memory: each kept item behind the first removed one moves
    /// once.
    ///
    /// ```
    /// let mut ring = Ring::from_slice(alloc, 3, &[1, 2, 3])?;
    /// ring.retain_mut(|item| {
    ///     *item *= 2;
    ///     *item != 4
    /// });
    /// assert!(rt; IntoIter::from_ring(ring).eq([2, 6]));
    /// ```
    #[tactic(auto, using(crate::proofs::Opened::end_facts))]
    pub fn retain_mut<F: FnMut(&mut T) -> bool>(&mut self, mut f: F)
    where
        T: Drop,
        F: Drop,
        requires { MayBeAskedMut F.FnMut f self.old.items }
        ensures retains { RetainsMut (CalledAtMut F.FnMut) f self.old self.new }
        ensures no_longer { length self.new.items ≤ length self.old.items }
    {
        let (start, len) = (self.start, self.len);
        let slots = &mut self.slots;
        let capacity = slots.capacity();
        let mut kept = 0;
        for index in 0..len {
            let place = wrap_add(start, index, capacity);
            let keeps = f(slots.get_mut(place));
            if keeps {
                if kept < index {
                    slots.shift(wrap_add(start, kept, capacity), place);
                }
                kept += 1;
            } else {
                drop(slots.take(place));
            }
        }
        self.len = kept;
    }

    /// Returns how many items come before the first that `f` rejects, which is the last on which
    /// `f` is called. They don't move, so the loop only counts places, which makes the workload
    /// `retain` faster.
    #[tactic(auto, using(crate::proofs::Opened::slice_facts))]
    fn kept_count<F: FnMut(&T) -> bool>(&self, f: &mut F) -> usize
        requires { MayBeAsked F.FnMut f.old self.now.items }
        ensures within { result ≤ length self.now.items }
        ensures in_turn { ReturnsInTurn (CalledAt F.FnMut) f.old
            (answers_until result (length self.now.items)) self.now.items f.new }
    {
        let (front, back) = self.as_slices();
        let kept = kept_count_of(front, f);
        if kept < front.len() {
            return kept;
        }
        self.len - back.len() + kept_count_of(back, f)
    }
}

/// Returns how many items of a slice come before the first that `f` rejects.
fn kept_count_of<T, F: FnMut(&T) -> bool>(items: &[T], f: &mut F) -> usize
    requires { MayBeAsked F.FnMut f.old items.now }
    ensures within { result ≤ length items.now }
    ensures in_turn { ReturnsInTurn (CalledAt F.FnMut) f.old
        (answers_until result (length items.now)) items.now f.new }
{
    for index in 0..items.len() {
        if !f(&items[index]) {
            return index;
        }
    }
    items.len()
}
