//! The raw memory of a region: the one file with pointers.
//!
//! A leaf is a function of this file: it touches the memory, and its callers know only its
//! contract. A leaf counts each value that it reads out of a place or writes into one, and each
//! lend for writing. No other function does. What others do through a reference isn't counted.
ghost use Rattle.std.specs.Prelude.{◌≡◌, ◌+◌, ◌*◌, ◌^◌, ◌<◌, ◌≤◌, length, take, drop, slice_set, Some, None, IfOk, true};
ghost use Rattle.std.specs.Borrow.{sem};
ghost use Rattle.std.specs.List.{splice};
ghost use Rattle.std.specs.Mem.{type_size};
ghost use prog.Memory.{capped};
ghost use Rattle.arraydeque_ring.specs.Loans.{AreApart};
ghost use Rattle.arraydeque_ring.specs.Moved.{is_block, run_moved};
ghost use Rattle.arraydeque_ring.specs.Places.{empty_region, held_at, IsFilled, IsEmpty, AreAllEmpty};
ghost use Rattle.arraydeque_ring.specs.Runs.{IsEmptyRun, run_emptied, with_run, HoldsRun, IsFilledRun};
ghost use Rattle.arraydeque_ring.specs.SlotsLends.{lends_place, lends_run, lends_loan};
ghost use Rattle.arraydeque_ring.specs.Steps.{more_transfers};

use super::Slots;
use super::loan::{Loan, LoanName};
use std::alloc::{AllocError, Allocator, Global};
use std::marker::PhantomData;
use std::mem::{align_of, size_of};
use std::{ptr, slice};

impl<T> Slots<T> {
    /// Writes a value into an empty place.
    pub(super) fn write(&mut self, place: usize, value: T)
        requires { IsEmpty self.old.places place }
        ensures { self.new ≡ record {
          places = slice_set self.old.places place (Some value);
          steps = more_transfers 1 self.old.steps;
        } }
    {
        unsafe { (self.ptr as *mut T).add(place).write(value) }
    }

    /// Reads the value of a place, which is empty afterwards.
    pub(super) fn read(&mut self, place: usize) -> T
        requires { IsFilled self.old.places place }
        ensures value { held_at self.old.places place ≡ Some result }
        ensures region { self.new ≡ record {
          places = slice_set self.old.places place None;
          steps = more_transfers 1 self.old.steps;
        } }
    {
        unsafe { self.ptr.add(place).read() }
    }

    /// Writes `N` values into the empty places from `place` on, all at once.
    #[inline(always)] // So a block goes from a slice to its places without a copy between.
    pub(super) fn write_block<const N: usize>(&mut self, place: usize, values: [T; N])
        requires block { is_block N (type_size T.row) ≡ true }
        requires empty { IsEmptyRun self.old.places place N }
        ensures { self.new ≡ record {
          places = with_run place values self.old.places;
          steps = more_transfers N self.old.steps;
        } }
    {
        unsafe { (self.ptr.add(place) as *mut [T; N]).write(values) }
    }

    /// Moves `N` values from the place `src + at` on to the places from `dst + at` on. All are read
    /// before one is written, so the two runs may overlap.
    #[inline(always)] // So a block of one value is a load and a store in the caller's loop.
    pub(super) fn move_block<const N: usize>(&mut self, dst: usize, src: usize, at: usize)
        requires block { is_block N (type_size T.row) ≡ true }
        requires filled { IsFilledRun self.old.places (src + at) N }
        requires target { dst + at + N ≤ length self.old.places }
        ensures { self.new ≡ record {
          places = run_moved (dst + at) (src + at) N self.old.places;
          steps = more_transfers (2 * N) self.old.steps;
        } }
    {
        unsafe {
            (self.ptr.add(dst).add(at) as *mut [T; N]).write(
                (self.ptr.add(src).add(at) as *const [T; N]).read(),
            )
        }
    }

    /// Moves the values in the `len` places from `from` on to the empty places of another region
    /// from `to` on, by one copy of their bytes.
    pub(super) fn move_over(&mut self, from: usize, other: &mut Slots<T>, to: usize, len: usize)
        requires filled { IsFilledRun self.old.places from len }
        requires empty { IsEmptyRun other.old.places to len }
        ensures here { self.new ≡ record {
          places = run_emptied from len self.old.places;
          steps = more_transfers len self.old.steps;
        } }
        ensures there { other.new ≡ record {
          places = splice other.old.places to (to + len) (take len (drop from self.old.places));
          steps = more_transfers len other.old.steps;
        } }
    {
        unsafe { ptr::copy_nonoverlapping(self.ptr.add(from), (other.ptr as *mut T).add(to), len) }
    }

    /// Moves the values in the `len` places from `src` on to those from `dst` on, by one copy of
    /// their bytes. The two runs have no place in common.
    pub(super) fn move_apart(&mut self, dst: usize, src: usize, len: usize)
        requires filled { IsFilledRun self.old.places src len }
        requires target { dst + len ≤ length self.old.places }
        requires apart { AreApart src len dst len }
        ensures { self.new ≡ record {
          places = run_moved dst src len self.old.places;
          steps = more_transfers (2 * len) self.old.steps;
        } }
    {
        unsafe { ptr::copy_nonoverlapping(self.ptr.add(src), (self.ptr as *mut T).add(dst), len) }
    }

    /// Returns a mutable reference to the value in a place. Requires a filled place.
    #[inline]
    pub fn get_mut(&mut self, place: usize) -> &mut T
        requires { IsFilled self.old.places place }
        ensures* writes_back { sem 𝓛 (lends_place T.row self.entry place result) }
        ensures value { held_at self.old.places place ≡ Some result.now }
    {
        unsafe { &mut *(self.ptr as *mut T).add(place) }
    }

    /// Returns the values in the `len` places from the place `from` on, in order. Requires filled
    /// places. An empty run may start at the capacity.
    #[inline]
    pub fn slice(&self, from: usize, len: usize) -> &[T]
        requires { IsFilledRun self.now.places from len }
        ensures { HoldsRun self.now.places from len result.now }
    {
        unsafe { slice::from_raw_parts(self.ptr.add(from), len) }
    }

    /// Returns the values in the `len` places from the place `from` on, in order, for writing.
    /// Requires filled places. An empty run may start at the capacity.
    ///
    /// Whatever is written, no place is filled or emptied, and no place outside the run changes.
    #[inline]
    pub fn slice_mut(&mut self, from: usize, len: usize) -> &mut [T]
        requires { IsFilledRun self.old.places from len }
        ensures* writes_back { sem 𝓛 (lends_run T.row self.entry from result) }
        ensures values { HoldsRun self.old.places from len result.now }
    {
        unsafe { slice::from_raw_parts_mut((self.ptr as *mut T).add(from), len) }
    }

    /// Lends the values of two runs, which have no place in common, for writing.
    pub(super) fn lend_two(&mut self, a: usize, a_len: usize, b: usize, b_len: usize) -> Loan<'_, T>
        requires a_filled { IsFilledRun self.old.places a a_len }
        requires b_filled { IsFilledRun self.old.places b b_len }
        requires apart { AreApart a a_len b b_len }
        ensures* writes_back { sem 𝓛 (lends_loan T.row self.entry a b result) }
        ensures first { HoldsRun self.old.places a a_len result.first.now }
        ensures second { HoldsRun self.old.places b b_len result.second.now }
    {
        unsafe {
            Loan {
                first: slice::from_raw_parts_mut((self.ptr as *mut T).add(a), a_len),
                second: slice::from_raw_parts_mut((self.ptr as *mut T).add(b), b_len),
                name: LoanName { mark: PhantomData },
            }
        }
    }

    /// Returns a region of no bytes, over no memory.
    pub(super) fn without_memory(alloc: Global, capacity: usize) -> Slots<T>
        requires { capacity * type_size T.row ≡ 0 }
        ensures { result ≡ empty_region capacity }
    {
        let mut nothing: [T; 0] = [];
        Slots {
            ptr: &raw const nothing as *const T,
            capacity,
            alloc,
        }
    }

    /// Returns a region of empty places over memory of `alloc`. `heap` is the same allocator, lent
    /// to be called.
    pub(super) fn with_memory(
        heap: &Global,
        alloc: Global,
        capacity: usize,
    ) -> Result<Slots<T>, AllocError>
        requires some_bytes { 0 < capacity * type_size T.row }
        requires can_be_named { capacity * type_size T.row < 2 ^ 63 }
        ensures { IfOk result (λ slots. slots ≡ empty_region capacity) }
    {
        match heap.allocate(capacity * size_of::<T>(), align_of::<T>()) {
            Ok(block) => Ok(Slots {
                ptr: block as *const T,
                capacity,
                alloc,
            }),
            Err(refusal) => Err(refusal),
        }
    }

    /// Gives the memory back to the region's allocator, which is lent as `heap` to be called.
    pub(super) fn give_back(self, heap: &Global)
        requires { AreAllEmpty self.places }
    {
        let Slots {
            ptr,
            capacity,
            alloc: _,
        } = self;
        if 0 < capacity * size_of::<T>() {
            unsafe {
                heap.deallocate(ptr as *mut u8, capacity * size_of::<T>(), align_of::<T>());
            }
        }
    }
}

/// Returns how many bytes an item takes.
pub(super) fn size_of_item<T>() -> usize
    ensures { result ≡ capped (type_size T.row) }
{
    size_of::<T>()
}
