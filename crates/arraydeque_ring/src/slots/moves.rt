//! Runs of values that move to other places, or are exchanged.
//!
//! Between two regions, a run moves at once. Within a region, a run is cut into parts that don't
//! pass the region's end. A part moves at once too, unless its new places meet its old ones. Then
//! it moves in blocks, by `move_block`, in an order that overwrites no value that has yet to move.
//! While values are moved or exchanged one by one, the region is a local variable, so that its
//! pointer is known to stay.
ghost use Rattle.std.specs.Prelude.{◌≡◌, ◌+◌, ◌-◌, ◌*◌, ◌<◌, ◌≤◌, length, take, drop, if◌then◌else◌, ◌==◌};
ghost use Rattle.std.specs.List.{splice};
ghost use Rattle.arraydeque_ring.specs.Moved.{MeetAtOneEndAtMost, IsFilledRound, IsFreeRound, CanMoveRun, CanMove, is_block, run_moved};
ghost use Rattle.arraydeque_ring.specs.Ring.{place_of};
ghost use Rattle.arraydeque_ring.specs.Runs.{runs_exchanged, IsEmptyRun, run_emptied, IsFilledRun};
ghost use Rattle.arraydeque_ring.specs.Steps.{more_transfers, more_puts, more_takes, more_moves, more_exchanges};

use super::{Slots, StepKind, is_block};
use crate::wrap::wrap_add;

impl<T> Slots<T> {
    /// Hands the values in the `len` places from `from` on over to the empty places of another
    /// region from `to` on, all at once. The time depends on `len` alone.
    pub(crate) fn hand_over(&mut self, from: usize, other: &mut Slots<T>, to: usize, len: usize)
        requires filled { IsFilledRun self.old.places from len }
        requires empty { IsEmptyRun other.old.places to len }
        ensures here { self.new ≡ record {
          places = run_emptied from len self.old.places;
          steps = more_takes len self.old.steps;
        } }
        ensures there { other.new ≡ record {
          places = splice other.old.places to (to + len) (take len (drop from self.old.places));
          steps = more_puts len other.old.steps;
        } }
    {
        self.move_over(from, other, to, len);
        self.count(StepKind::Take, len);
        other.count(StepKind::Put, len);
    }

    /// Exchanges the values in the `len` places from `a` on with those in the `len` places from `b`
    /// on, which come later: the first with the first, and so on.
    ///
    /// It takes the region by value, so that its memory need not be looked up again for each pair.
    pub(crate) fn exchange_runs(mut self, a: usize, b: usize, len: usize) -> Slots<T>
        requires apart { a + len ≤ b }
        requires a_filled { IsFilledRun self.places a len }
        requires b_filled { IsFilledRun self.places b len }
        ensures places { result.places ≡ runs_exchanged a b len self.places }
        ensures steps { result.steps ≡ more_exchanges len self.steps }
    {
        for k in 0..len {
            self.exchange(a + k, b + k);
        }
        self
    }

    /// Moves the values in the `len` places from `src` on to the empty places from `dst` on, which
    /// come before: the first to the first, and so on.
    pub(crate) fn move_down(mut self, dst: usize, src: usize, len: usize) -> Slots<T>
        requires apart { dst + len ≤ src }
        requires empty { IsEmptyRun self.places dst len }
        requires filled { IsFilledRun self.places src len }
        ensures places { result.places ≡ runs_exchanged dst src len self.places }
        ensures steps { result.steps ≡ more_moves len self.steps }
    {
        for k in 0..len {
            self.shift(dst + k, src + k);
        }
        self
    }

    /// Moves the values in the `len` places from `src` on to those from `dst` on, all at once.
    /// Requires filled places from `src` on, and that each from `dst` on is empty or among them.
    /// Either run may wrap. The two may share places at one end, but not at both.
    #[tactic(auto, using(crate::proofs::moved::Flat::moved_nowhere))]
    pub fn wrap_move(&mut self, dst: usize, src: usize, len: usize)
        requires dst_in_region { dst < length self.old.places }
        requires src_in_region { src < length self.old.places }
        requires apart { MeetAtOneEndAtMost dst src len (length self.old.places) }
        requires filled { IsFilledRound src len self.old.places }
        requires free { IsFreeRound dst src len self.old.places }
        ensures places { self.new.places ≡ run_moved dst src len self.old.places }
        ensures steps { self.new.steps ≡ more_moves (if dst == src then 0 else len) self.old.steps }
    {
        if dst == src {
            return;
        }
        if len == 1 {
            self.shift(dst, src);
            return;
        }
        let capacity = self.capacity();
        if len <= (capacity - dst).min(capacity - src) {
            self.move_run(dst, src, len);
        } else {
            self.move_in_parts(dst, src, len);
        }
        self.count(StepKind::Move, len);
    }

    /// Moves the values in the `len` places from `src` on by one place up, round the region's end:
    /// first those past the end, then the one in the last place, then those before it.
    ///
    /// Each part moves value by value, which the compiler makes one `memmove`.
    pub(crate) fn slide_up(&mut self, src: usize, len: usize)
        requires in_region { src < length self.old.places }
        requires room { len < length self.old.places }
        requires filled { IsFilledRound src len self.old.places }
        requires free { let n = length self.old.places in
            IsFreeRound (place_of src 1 n) src len self.old.places }
        ensures places { let n = length self.old.places in
            self.new.places ≡ run_moved (place_of src 1 n) src len self.old.places }
        ensures steps { self.new.steps ≡ more_moves len self.old.steps }
    {
        let mut slots = self.move_out();
        let capacity = slots.capacity();
        let upper = capacity - src;
        if len < upper {
            slots.move_last::<1>(src + 1, src, len);
        } else {
            slots.move_last::<1>(1, 0, len - upper);
            slots.move_first::<1>(0, capacity - 1, 1, 0);
            slots.move_last::<1>(src + 1, src, upper - 1);
        }
        *self = slots;
        self.count(StepKind::Move, len);
    }

    /// Moves the values in the `len` places behind `dst` by one place down, round the region's end.
    pub(crate) fn slide_down(&mut self, dst: usize, len: usize)
        requires in_region { dst < length self.old.places }
        requires room { len < length self.old.places }
        requires filled { let n = length self.old.places in
            IsFilledRound (place_of dst 1 n) len self.old.places }
        requires free { let n = length self.old.places in
            IsFreeRound dst (place_of dst 1 n) len self.old.places }
        ensures places { let n = length self.old.places in
            self.new.places ≡ run_moved dst (place_of dst 1 n) len self.old.places }
        ensures steps { self.new.steps ≡ more_moves len self.old.steps }
    {
        let mut slots = self.move_out();
        let last = slots.capacity() - 1;
        let upper = last - dst;
        if len <= upper {
            slots.move_first::<1>(dst, dst + 1, len, 0);
        } else {
            slots.move_first::<1>(dst, dst + 1, upper, 0);
            slots.move_last::<1>(last, 0, 1);
            slots.move_first::<1>(0, 1, len - upper - 1, 0);
        }
        *self = slots;
        self.count(StepKind::Move, len);
    }

    /// Moves a run in three parts, which are cut where either side passes the region's end. They
    /// move one after the other: from the first on if the run moves down by no more places than are
    /// free, otherwise from the last on. In a region of 8 places, six values move from place 4 on
    /// to place 6:
    ///
    ///     place              0 1 2 3 4 5 6 7
    ///     before             e f . . a b c d
    ///     e f from 0 to 2    . . e f a b c d
    ///     c d from 6 to 0    c d e f a b . .
    ///     a b from 4 to 6    c d e f . . a b
    #[inline(never)] // Inlined, it made a move that passes no end up to 15 instructions longer.
    fn move_in_parts(&mut self, dst: usize, src: usize, len: usize)
        requires { CanMove dst src len self.old.places }
        ensures { self.new ≡ record {
          places = run_moved dst src len self.old.places;
          steps = more_transfers (2 * len) self.old.steps;
        } }
    {
        let capacity = self.capacity();
        let (dst_end, src_end) = (capacity - dst, capacity - src);
        let near = len.min(dst_end.min(src_end));
        let far = len.min(dst_end.max(src_end));
        let (dst_near, src_near) = (wrap_add(dst, near, capacity), wrap_add(src, near, capacity));
        let (dst_far, src_far) = (wrap_add(dst, far, capacity), wrap_add(src, far, capacity));
        if len <= wrap_add(dst, src_end, capacity) {
            self.move_run(dst, src, near);
            self.move_run(dst_near, src_near, far - near);
            self.move_run(dst_far, src_far, len - far);
        } else {
            self.move_run(dst_far, src_far, len - far);
            self.move_run(dst_near, src_near, far - near);
            self.move_run(dst, src, near);
        }
    }

    /// Moves a run of which neither side passes the end. It moves at once, unless its new places
    /// meet its old ones.
    #[inline(never)] // Inlined, it made `move_in_parts` 1842 bytes of 346, and no rotation faster.
    fn move_run(&mut self, dst: usize, src: usize, len: usize)
        requires { CanMoveRun dst src len self.old.places }
        ensures { self.new ≡ record {
          places = run_moved dst src len self.old.places;
          steps = more_transfers (2 * len) self.old.steps;
        } }
    {
        if len <= dst.abs_diff(src) {
            self.move_apart(dst, src, len);
        } else {
            self.move_in_blocks(dst, src, len);
        }
    }

    /// Moves a run of which neither side passes the end, in blocks, the largest first. It begins
    /// with the first value if the run moves down, otherwise with the last.
    #[inline(never)] // Inlined, `rotate_half_half` of 16 places took 218 instructions, not 186.
    fn move_in_blocks(&mut self, dst: usize, src: usize, len: usize)
        requires { CanMoveRun dst src len self.old.places }
        ensures { self.new ≡ record {
          places = run_moved dst src len self.old.places;
          steps = more_transfers (2 * len) self.old.steps;
        } }
    {
        if dst < src {
            let moved = self.move_first::<1024>(dst, src, len, 0);
            let moved = self.move_first::<256>(dst, src, len, moved);
            let moved = self.move_first::<64>(dst, src, len, moved);
            let moved = self.move_first::<16>(dst, src, len, moved);
            let moved = self.move_first::<4>(dst, src, len, moved);
            self.move_first::<1>(dst, src, len, moved);
        } else {
            let left = self.move_last::<1024>(dst, src, len);
            let left = self.move_last::<256>(dst, src, left);
            let left = self.move_last::<64>(dst, src, left);
            let left = self.move_last::<16>(dst, src, left);
            let left = self.move_last::<4>(dst, src, left);
            self.move_last::<1>(dst, src, left);
        }
    }

    /// Moves the last values of a run in blocks of `N`, as long as there are so many. Returns how
    /// many values are left. Blocks that are too large are not tried, unless `N` is 1.
    #[inline(always)] // So a slide's move of the value in the last place is no loop.
    fn move_last<const N: usize>(&mut self, dst: usize, src: usize, len: usize) -> usize
        requires some { 0 < N }
        requires up { src ≤ dst }
        requires can { CanMoveRun dst src len self.old.places }
        ensures can { CanMoveRun dst src result self.new.places }
        ensures all { N ≡ 1 → self.new ≡ record {
          places = run_moved dst src len self.old.places;
          steps = more_transfers (2 * len) self.old.steps;
        } }
        ensures moved { run_moved dst src result self.new.places ≡
            run_moved dst src len self.old.places }
        ensures within { result ≤ len }
        ensures steps { self.new.steps ≡ more_transfers (2 * (len - result)) self.old.steps }
    {
        let mut moved = 0;
        if is_block::<T, N>() {
            while N <= len - moved {
                moved += N;
                self.move_block::<N>(dst, src, len - moved);
            }
        }
        len - moved
    }

    /// Moves the values of a run from the index `from` on in blocks of `N`, as long as there are so
    /// many. Returns the index of the first value that is left.
    #[inline(always)] // So a slide's move of the value in the last place is no loop.
    fn move_first<const N: usize>(
        &mut self,
        dst: usize,
        src: usize,
        len: usize,
        from: usize,
    ) -> usize
        requires some { 0 < N }
        requires down { dst ≤ src }
        requires within { from ≤ len }
        requires can { CanMoveRun (dst + from) (src + from) (len - from) self.old.places }
        ensures within { result ≤ len }
        ensures can { CanMoveRun (dst + result) (src + result) (len - result) self.new.places }
        ensures all { N ≡ 1 → self.new ≡ record {
          places = run_moved (dst + from) (src + from) (len - from) self.old.places;
          steps = more_transfers (2 * (len - from)) self.old.steps;
        } }
        ensures moved { run_moved (dst + result) (src + result) (len - result) self.new.places ≡
            run_moved (dst + from) (src + from) (len - from) self.old.places }
        ensures forth { from ≤ result }
        ensures steps { self.new.steps ≡ more_transfers (2 * (result - from)) self.old.steps }
    {
        let mut moved = from;
        if is_block::<T, N>() {
            while N <= len - moved {
                self.move_block::<N>(dst, src, moved);
                moved += N;
            }
        }
        moved
    }
}
