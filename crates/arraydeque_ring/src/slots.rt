//! The region: places that each hold a value or nothing. Only `raw`, the one file with pointers,
//! touches its memory.
//!
//! A contract sees a [`Slots`] as what each place holds and the steps made so far. Steps are
//! counted for contracts alone: they take no bytes.
ghost use Rattle.std.specs.Prelude.{◌≡◌, ◌*◌, ◌^◌, ◌<◌, nat_lt, List, Option, Some, None, length, slice_set, swap, if◌then◌else◌, ◌==◌, IfOk, OnErr};
ghost use Rattle.std.specs.Mem.{type_size};
ghost use Rattle.arraydeque_ring.specs.Places.{empty_region, held_at, IsFilled, IsEmpty, AreAllEmpty};
ghost use Rattle.arraydeque_ring.specs.Counted.{counted};
ghost use Rattle.arraydeque_ring.specs.Moved.{is_block};
ghost use Rattle.arraydeque_ring.specs.Steps.{Steps, more_puts, more_takes, more_moves, more_exchanges};

mod copies;
pub(crate) mod loan;
mod moves;
mod raw;

use raw::size_of_item;
use std::alloc::{AllocError, Global};
use std::marker::{Model, Send, Sync};
use std::mem::replace;

/// The most bytes of a block. They are four times the 8 kB from which on the C library copies
/// fastest: glibc 2.36 then uses `rep movsb`, which needs about half the time if it copies to a
/// lower address. Each size of block is at most four times the next. So the largest block that
/// fits has 8 kB or more, if an item has 8 bytes or more.
const BLOCK_BYTES: usize = 32_768;

/// A kind of step that is counted.
#[derive(Clone, Copy)]
enum StepKind {
    Put,
    Take,
    Move,
    Exchange,
}

/// A region of places for values of type `T`, which is taken from the allocator when it is made and
/// never grows.
///
/// A place is a number below the capacity. A region can be dropped only once every place is empty,
/// so that no value is lost with it.
pub struct Slots<T> {
    ptr: *const T,
    capacity: usize,
    alloc: Global,
    ghost places: { List (Option T) },
    ghost steps: { Steps },
}

impl<T> Model for Slots<T> {
    ghost use Rattle.std.specs.Prelude.{◌≡◌, length};
    ghost use Rattle.arraydeque_ring.specs.Places.{Region};
    ghost use Rattle.arraydeque_ring.specs.Ownership.{slots_owned, slots_lent};

    ghost Value = { Region T };

    ghost view = { λ s. record { places = s.places; steps = s.steps } };

    ghost invariant = { λ s. s.capacity ≡ length s.places };

    ghost also_owns = { λ s. slots_owned T.row s.alloc s.ptr s.places };

    ghost also_shares = { λ s _ κ. slots_lent T.row s.ptr s.places κ };
}

// A region owns the values in its places and the right to free its memory, which every thread may
// use. A `&` to a region reaches the values alone.
unsafe impl<T: Send> Send for Slots<T> {}

unsafe impl<T: Sync> Sync for Slots<T> {}

impl<T> Slots<T> {
    /// Returns a region of `capacity` empty places from `alloc`.
    ///
    /// Fails only if memory is refused, as it is for a region larger than the machine can name. At
    /// capacity 0 or for items of size zero it takes no memory and never fails.
    pub fn new(alloc: Global, capacity: usize) -> Result<Slots<T>, AllocError>
        ensures ok { IfOk result (λ slots. slots ≡ empty_region capacity) }
        ensures refused { OnErr result (0 < capacity * type_size T.row) }
    {
        if capacity == 0 || size_of_item::<T>() == 0 {
            return Ok(Slots::without_memory(alloc, capacity));
        }
        if !can_be_named::<T>(capacity) {
            return Err(AllocError);
        }
        Slots::with_memory(&alloc, alloc, capacity)
    }

    /// Returns how many places there are.
    ///
    /// Reading it tells the prover that no sum of places within the region passes `usize::MAX`. So
    /// a body that counts places upwards begins with `let _fits = slots.capacity();`.
    #[inline]
    pub fn capacity(&self) -> usize
        ensures { result ≡ length self.now.places }
    {
        self.capacity
    }

    /// Returns the allocator that the region came from.
    pub fn alloc(&self) -> Global {
        self.alloc
    }

    /// Puts a value into a place. Requires an empty place.
    #[inline]
    pub fn put(&mut self, place: usize, value: T)
        requires { IsEmpty self.old.places place }
        ensures places { self.new.places ≡ slice_set self.old.places place (Some value) }
        ensures steps { self.new.steps ≡ more_puts 1 self.old.steps }
    {
        self.write(place, value);
        self.count(StepKind::Put, 1);
    }

    /// Takes the value out of a place, which is empty afterwards. Requires a filled place.
    #[inline]
    pub fn take(&mut self, place: usize) -> T
        requires { IsFilled self.old.places place }
        ensures value { held_at self.old.places place ≡ Some result }
        ensures places { self.new.places ≡ slice_set self.old.places place None }
        ensures steps { self.new.steps ≡ more_takes 1 self.old.steps }
    {
        self.count(StepKind::Take, 1);
        self.read(place)
    }

    /// Moves the value in the place `src` to the place `dst`. Requires a filled `src` and an empty
    /// `dst`.
    #[inline]
    pub fn shift(&mut self, dst: usize, src: usize)
        requires filled { IsFilled self.old.places src }
        requires empty { IsEmpty self.old.places dst }
        ensures places { self.new.places ≡
            slice_set (slice_set self.old.places src None) dst (held_at self.old.places src) }
        ensures steps { self.new.steps ≡ more_moves 1 self.old.steps }
    {
        let value = self.read(src);
        self.write(dst, value);
        self.count(StepKind::Move, 1);
    }

    /// Exchanges the values in two places. If the two are the same, nothing happens. Requires
    /// filled places.
    #[inline]
    pub fn exchange(&mut self, a: usize, b: usize)
        requires a_filled { IsFilled self.old.places a }
        requires b_filled { IsFilled self.old.places b }
        ensures places { self.new.places ≡ swap self.old.places a b }
        ensures steps { self.new.steps ≡ more_exchanges (if a == b then 0 else 1) self.old.steps }
    {
        if a == b {
            return;
        }
        let left = self.read(a);
        let right = self.read(b);
        self.write(a, right);
        self.write(b, left);
        self.count(StepKind::Exchange, 1);
    }

    /// Takes the region out, and leaves one without places.
    pub(crate) fn move_out(&mut self) -> Slots<T>
        ensures region { result ≡ self.old }
        ensures left { self.new ≡ empty_region 0 }
    {
        let alloc = self.alloc;
        replace(self, Slots::without_memory(alloc, 0))
    }

    /// Returns a reference to the value in a place. Requires a filled place.
    #[inline]
    pub fn get(&self, place: usize) -> &T
        requires { IsFilled self.now.places place }
        ensures { held_at self.now.places place ≡ Some result.now }
    {
        &self.slice(place, 1)[0]
    }

    /// Counts steps of a kind, but not their reads and writes. It does nothing at run time.
    fn count(&mut self, kind: StepKind, times: usize)
        ensures { self.new ≡ record self.old { steps = counted kind times self.old.steps } }
    {}
}

/// Returns whether the machine can name a region of so many places: its bytes are below 2^63.
fn can_be_named<T>(capacity: usize) -> bool
    ensures { result ≡ nat_lt (capacity * type_size T.row) (2 ^ 63) }
{
    let size = size_of_item::<T>();
    size == 0 || capacity <= isize::MAX as usize / size
}

/// Returns whether a block may have `N` items: it is a single item, or has at most `BLOCK_BYTES`.
#[inline(always)] // A constant, by which loops over blocks that are too large are removed.
fn is_block<T, const N: usize>() -> bool
    requires { 0 < N }
    ensures { result ≡ is_block N (type_size T.row) }
{
    N == 1 || size_of_item::<T>() <= BLOCK_BYTES / N
}

impl<T> Drop for Slots<T> {
    /// Gives the region back. Requires that every place is empty.
    fn drop(self)
        requires { AreAllEmpty self.places }
    {
        let heap = self.alloc;
        self.give_back(&heap);
    }
}
