//! Copies put into empty places: of a slice, in blocks, or of one value.
ghost use Rattle.std.specs.Prelude.{◌≡◌, ◌+◌, ◌-◌, ◌<◌, ◌≤◌, length, take, drop, replicate, true};
ghost use Rattle.std.specs.Mem.{type_size};
ghost use Rattle.arraydeque_ring.specs.Moved.{is_block};
ghost use Rattle.arraydeque_ring.specs.Runs.{with_run, IsEmptyRun};
ghost use Rattle.arraydeque_ring.specs.Steps.{more_transfers, more_puts};

use super::raw::size_of_item;
use super::{BLOCK_BYTES, Slots, StepKind, is_block};

/// The most bytes of a narrow item: a block has room for 1024 of these.
const NARROW: usize = BLOCK_BYTES / 1024;

impl<T> Slots<T> {
    /// Puts copies of the first `first` items into the empty places from `from` on, and copies of
    /// the others into the first places. If the run doesn't wrap, there are no others.
    ///
    /// All that it calls, except for `put_long`, is inlined with it, so that a caller's sizes
    /// choose the blocks.
    #[inline(always)] // By blocks of 512 to 1, `stream` of 16 bytes takes two thirds longer.
    pub(crate) fn put_copies(&mut self, from: usize, items: &[T], first: usize)
    where
        T: Copy,
        requires within { first ≤ length items.now }
        requires here { IsEmptyRun self.old.places from first }
        requires there { IsEmptyRun (with_run from (take first items.now) self.old.places) 0
            (length items.now - first) }
        ensures places { self.new.places ≡ with_run 0 (drop first items.now)
            (with_run from (take first items.now) self.old.places) }
        ensures steps { self.new.steps ≡ more_puts (length items.now) self.old.steps }
    {
        self.count(StepKind::Put, items.len());
        if first < items.len() {
            self.put_long(from, &items[..first]);
            self.put_long(0, &items[first..]);
        } else if items.len() < 1024 && size_of_item::<T>() <= NARROW {
            self.put_short(from, items);
        } else {
            self.put_long(from, items);
        }
    }

    /// Puts copies of any number of items of any size, in blocks, the largest first. No put is
    /// counted.
    #[tactic(auto, using(crate::proofs::fills::Copied::all_written))]
    #[inline(never)] // Seven loops, once for all callers: inlined, `stream` is no faster (±3 %).
    fn put_long(&mut self, from: usize, items: &[T])
    where
        T: Copy,
        requires { IsEmptyRun self.old.places from (length items.now) }
        ensures places { self.new.places ≡ with_run from items.now self.old.places }
        ensures steps { self.new.steps ≡ more_transfers (length items.now) self.old.steps }
    {
        let put = self.put_blocks::<4096>(from, items, 0);
        let put = self.put_blocks::<1024>(from, items, put);
        let put = self.put_blocks::<256>(from, items, put);
        let put = self.put_blocks::<64>(from, items, put);
        let put = self.put_blocks::<16>(from, items, put);
        let put = self.put_blocks::<4>(from, items, put);
        self.put_blocks::<1>(from, items, put);
    }

    /// Puts copies of narrow items in blocks, the largest first. No put is counted.
    #[tactic(auto, using(crate::proofs::fills::Copied::all_written))]
    #[inline(always)] // So a caller's number of items chooses the blocks when it is compiled.
    fn put_short(&mut self, from: usize, items: &[T])
    where
        T: Copy,
        requires narrow { type_size T.row ≤ 32 }
        requires empty { IsEmptyRun self.old.places from (length items.now) }
        ensures places { self.new.places ≡ with_run from items.now self.old.places }
        ensures steps { self.new.steps ≡ more_transfers (length items.now) self.old.steps }
    {
        let put = self.put_blocks::<256>(from, items, 0);
        let put = self.put_blocks::<64>(from, items, put);
        let put = self.put_blocks::<16>(from, items, put);
        self.put_rest(from, items, put);
    }

    /// Puts copies of the narrow items from the index `at` on. Returns the number of all items.
    ///
    /// If fewer than 16 bytes are left, they go in one block of exactly their number. If blocks of
    /// 8, 4, 2 and 1 bytes were tried one after the other, `pipe_varying` would take longer.
    #[inline(always)] // So a known number of items chooses its block when the caller is compiled.
    fn put_rest(&mut self, from: usize, items: &[T], at: usize) -> usize
    where
        T: Copy,
        requires narrow { type_size T.row ≤ 32 }
        requires within { at ≤ length items.now }
        requires empty { IsEmptyRun self.old.places (from + at) (length items.now - at) }
        ensures all { result ≡ length items.now }
        ensures written { with_run (from + result) (drop result items.now) self.new.places ≡
            with_run (from + at) (drop at items.now) self.old.places }
        ensures steps { self.new.steps ≡ more_transfers (result - at) self.old.steps }
    {
        if size_of_item::<T>() > 1 {
            let put = self.put_block::<8>(from, items, at);
            let put = self.put_block::<4>(from, items, put);
            let put = self.put_block::<2>(from, items, put);
            return self.put_blocks::<1>(from, items, put);
        }
        match items.len() - at {
            2 => self.put_block::<2>(from, items, at),
            3 => self.put_block::<3>(from, items, at),
            4 => self.put_block::<4>(from, items, at),
            5 => self.put_block::<5>(from, items, at),
            6 => self.put_block::<6>(from, items, at),
            7 => self.put_block::<7>(from, items, at),
            8 => self.put_block::<8>(from, items, at),
            9 => self.put_block::<9>(from, items, at),
            10 => self.put_block::<10>(from, items, at),
            11 => self.put_block::<11>(from, items, at),
            12 => self.put_block::<12>(from, items, at),
            13 => self.put_block::<13>(from, items, at),
            14 => self.put_block::<14>(from, items, at),
            15 => self.put_block::<15>(from, items, at),
            _ => self.put_blocks::<1>(from, items, at),
        }
    }

    /// Puts copies of the items from the index `at` on in blocks of `N`, as long as there are so
    /// many. Returns the index of the first item that is left. Blocks that are too large are not
    /// tried, unless `N` is 1.
    #[inline(always)] // So `put_short` makes no call, and `put_long` one loop of each size.
    fn put_blocks<const N: usize>(&mut self, from: usize, items: &[T], at: usize) -> usize
    where
        T: Copy,
        requires some { 0 < N }
        requires within { at ≤ length items.now }
        requires empty { IsEmptyRun self.old.places (from + at) (length items.now - at) }
        ensures forth { at ≤ result }
        ensures within { result ≤ length items.now }
        ensures empty { IsEmptyRun self.new.places (from + result) (length items.now - result) }
        ensures all { N ≡ 1 → result ≡ length items.now }
        ensures written { with_run (from + result) (drop result items.now) self.new.places ≡
            with_run (from + at) (drop at items.now) self.old.places }
        ensures steps { self.new.steps ≡ more_transfers (result - at) self.old.steps }
    {
        let mut put = at;
        if is_block::<T, N>() {
            while N <= items.len() - put {
                put = self.put_block::<N>(from, items, put);
            }
        }
        put
    }

    /// Puts copies of the `N` items from the index `at` on, if there are so many. Returns the index
    /// of the first item that is left.
    #[inline(always)] // So a known number of items chooses blocks when the caller is compiled.
    fn put_block<const N: usize>(&mut self, from: usize, items: &[T], at: usize) -> usize
    where
        T: Copy,
        requires block { is_block N (type_size T.row) ≡ true }
        requires within { at ≤ length items.now }
        requires empty { IsEmptyRun self.old.places (from + at) (length items.now - at) }
        ensures forth { at ≤ result }
        ensures within { result ≤ length items.now }
        ensures empty { IsEmptyRun self.new.places (from + result) (length items.now - result) }
        ensures some { N ≤ length items.now - at → result ≡ at + N }
        ensures written { with_run (from + result) (drop result items.now) self.new.places ≡
            with_run (from + at) (drop at items.now) self.old.places }
        ensures steps { self.new.steps ≡ more_transfers (result - at) self.old.steps }
    {
        if items.len() - at < N {
            return at;
        }
        let _fits = self.capacity();
        let Some(block) = items[at..].first_chunk::<N>() else {
            unreachable!()
        };
        self.write_block(from + at, *block);
        at + N
    }

    /// Puts copies of one value into the `len` empty places from `from` on.
    ///
    /// It takes the region by value, so that its memory need not be looked up again for each place.
    pub(crate) fn put_same(mut self, from: usize, len: usize, value: T) -> Slots<T>
    where
        T: Copy,
        requires { IsEmptyRun self.places from len }
        ensures places { result.places ≡ with_run from (replicate len value) self.places }
        ensures steps { result.steps ≡ more_puts len self.steps }
    {
        let _fits = self.capacity();
        for k in 0..len {
            self.put(from + k, value);
        }
        self
    }
}
