//! Adding the items of an iterator at one end, while there is room or in the places of the items at
//! the other end; and adding copies of a slice's items, while there is room.
ghost use Rattle.std.specs.Prelude.{◌≡◌, ◌-◌, ◌<◌, ◌≤◌, ◌++◌, length, min, take, drop, reverse, nat_lt, false};
ghost use Rattle.std.specs.Iterator.{IsFinite, IsNearerEnd, MakesProgress};
ghost use Rattle.arraydeque_ring.specs.Fills.{Fills, Ends, GoesOn};
ghost use Rattle.arraydeque_ring.specs.Ring.{up_by, down_by};
ghost use Rattle.arraydeque_ring.specs.Runs.{IsEmptyRun, with_run, IsFilledRun};
ghost use Rattle.arraydeque_ring.specs.Steps.{more_puts, more_takes};

use super::Ring;
use crate::slots::Slots;
use crate::wrap::wrap_add;

impl<T> Ring<T> {
    /// Adds the items of an iterator at the back, in order, while there is room. Returns whether
    /// the iterator ended before the ring was full. The iterator is asked for no more items than
    /// there is room for, and never after its first `None`.
    ///
    /// Start: stays. Steps: 1 put for each item that comes.
    ///
    /// ```
    /// let mut ring = Ring::from_slice(alloc, 3, &[1])?;
    /// let mut numbers = 2..9;
    /// assert!(rt; !ring.fill_back(&mut numbers));
    /// assert!(rt; numbers.next() == Some(4));
    /// assert!(rt; IntoIter::from_ring(ring).eq([1, 2, 3]));
    /// ```
    #[inline(always)] // By a call, a vector's items took three times as long.
    pub fn fill_back<I: Iterator<Item = T>>(&mut self, elements: &mut I) -> bool
        requires { I.can_next elements.old }
        ensures came { Fills I.next_gives elements.old elements.new
            (self.old.capacity - length self.old.items) result
            (λ xs. self.new ≡ record self.old {
              items = self.old.items ++ xs;
              steps = more_puts (length xs) self.old.steps;
            }) }
        ensures within { length self.new.items ≤ self.new.capacity }
        ensures goes { GoesOn I.can_next I.remaining elements.old elements.new result }
    {
        let capacity = self.slots.capacity();
        let mut slots = self.slots.move_out();
        let mut ended = false;
        while !ended && self.len < capacity {
            let from = wrap_add(self.start, self.len, capacity);
            let len = (capacity - self.len).min(capacity - from);
            let (written, filled) = fill_up(slots, from, len, elements);
            slots = written;
            self.len += filled;
            ended = filled < len;
        }
        self.slots = slots;
        ended
    }

    /// Adds the items of an iterator at the front, one by one, while there is room: the last one
    /// taken is the first afterwards. Returns whether the iterator ended before the ring was full.
    /// The iterator is asked for no more items than there is room for, and never after its first
    /// `None`.
    ///
    /// Start: 1 down for each item that comes. Steps: 1 put for each.
    ///
    /// ```
    /// let mut ring = Ring::from_slice(alloc, 4, &[1])?;
    /// assert!(rt; ring.fill_front(&mut (2..4)));
    /// assert!(rt; IntoIter::from_ring(ring).eq([3, 2, 1]));
    /// ```
    #[inline(always)] // By a call, a vector's items took three times as long.
    pub fn fill_front<I: Iterator<Item = T>>(&mut self, elements: &mut I) -> bool
        requires { I.can_next elements.old }
        ensures came { Fills I.next_gives elements.old elements.new
            (self.old.capacity - length self.old.items) result
            (λ xs. self.new ≡ record self.old {
              items = reverse xs ++ self.old.items;
              start = down_by (length xs) self.old.start self.old.capacity;
              steps = more_puts (length xs) self.old.steps;
            }) }
        ensures within { length self.new.items ≤ self.new.capacity }
        ensures goes { GoesOn I.can_next I.remaining elements.old elements.new result }
    {
        let capacity = self.slots.capacity();
        let mut slots = self.slots.move_out();
        let mut ended = false;
        // If this were written out as two runs, with 85 more lines of proof and code,
        // `extend_front` would be faster at 16 places.
        while !ended && self.len < capacity {
            let from = if self.start == 0 {
                capacity
            } else {
                self.start
            };
            let len = (capacity - self.len).min(from);
            let (written, filled) = fill_down(slots, from, len, elements);
            slots = written;
            self.start = wrap_add(self.start, capacity - filled, capacity);
            self.len += filled;
            ended = filled < len;
        }
        self.slots = slots;
        ended
    }

    /// Adds copies of the first items of a slice at the back, as many as there is room for, and
    /// returns their number.
    ///
    /// Start: stays. Steps: 1 put for each copy.
    ///
    /// ```
    /// let mut ring = Ring::from_slice(alloc, 4, &[1])?;
    /// assert!(rt; ring.copy_back(&[2, 3]) == 2 && ring.copy_back(&[4, 5]) == 1);
    /// assert!(rt; IntoIter::from_ring(ring).eq([1, 2, 3, 4]));
    /// ```
    #[tactic(auto, using(crate::proofs::Opened::piece_facts))]
    #[inline(always)] // By calls, `stream` of 16 bytes takes two thirds longer.
    pub fn copy_back(&mut self, items: &[T]) -> usize
    where
        T: Copy,
        ensures count { result ≡
            min (length items.now) (self.old.capacity - length self.old.items) }
        ensures ring { self.new ≡ record self.old {
          items = self.old.items ++ take result items.now;
          steps = more_puts result self.old.steps;
        } }
        ensures within { length self.new.items ≤ self.new.capacity }
    {
        let capacity = self.slots.capacity();
        let count = items.len().min(capacity - self.len);
        if count == 0 {
            return 0;
        }
        let behind = wrap_add(self.start, self.len, capacity);
        let first = count.min(capacity - behind);
        self.slots.put_copies(behind, &items[..count], first);
        self.len += count;
        count
    }

    /// Adds the items of an iterator at the back, in order, each in the place of the first item,
    /// which is dropped. Requires a full ring of one place or more, and an iterator that ends.
    ///
    /// Start: 1 up for each item that comes. Steps: 1 take, 1 put for each.
    ///
    /// ```
    /// let mut ring = Ring::from_slice(alloc, 3, &[1, 2, 3])?;
    /// ring.displace_first(4..6);
    /// assert!(rt; IntoIter::from_ring(ring).eq([3, 4, 5]));
    /// ```
    #[inline]
    pub fn displace_first<I: Iterator<Item = T>>(&mut self, mut elements: I)
    where
        T: Drop,
        requires some { 0 < self.old.capacity }
        requires full { length self.old.items ≡ self.old.capacity }
        requires may { I.can_next elements }
        requires ends { IsFinite (I.remaining elements) }
        ensures { Ends I.next_gives elements (λ xs. self.new ≡ record self.old {
          items = drop (length xs) (self.old.items ++ xs);
          start = up_by (length xs) self.old.start self.old.capacity;
          steps = more_puts (length xs) (more_takes (length xs) self.old.steps);
        }) }
    {
        let capacity = self.slots.capacity();
        let mut slots = self.slots.move_out();
        let mut ended = false;
        while !ended {
            let len = capacity - self.start;
            let (written, displaced) = displace_up(slots, self.start, len, &mut elements);
            slots = written;
            ended = displaced < len;
            self.start = if ended { self.start + displaced } else { 0 };
        }
        self.slots = slots;
    }

    /// Adds the items of an iterator at the front, one by one, each in the place of the last item,
    /// which is dropped. The last one that comes is the first afterwards. Requires a full ring of
    /// one place or more, and an iterator that ends.
    ///
    /// Start: 1 down for each item that comes. Steps: 1 take, 1 put for each.
    ///
    /// ```
    /// let mut ring = Ring::from_slice(alloc, 3, &[1, 2, 3])?;
    /// ring.displace_last(4..6);
    /// assert!(rt; IntoIter::from_ring(ring).eq([5, 4, 1]));
    /// ```
    #[inline]
    pub fn displace_last<I: Iterator<Item = T>>(&mut self, mut elements: I)
    where
        T: Drop,
        requires some { 0 < self.old.capacity }
        requires full { length self.old.items ≡ self.old.capacity }
        requires may { I.can_next elements }
        requires ends { IsFinite (I.remaining elements) }
        ensures { Ends I.next_gives elements (λ xs. self.new ≡ record self.old {
          items = take (length self.old.items) (reverse xs ++ self.old.items);
          start = down_by (length xs) self.old.start self.old.capacity;
          steps = more_puts (length xs) (more_takes (length xs) self.old.steps);
        }) }
    {
        let capacity = self.slots.capacity();
        let mut slots = self.slots.move_out();
        let mut ended = false;
        while !ended {
            let from = if self.start == 0 {
                capacity
            } else {
                self.start
            };
            let (written, displaced) = displace_down(slots, from, from, &mut elements);
            slots = written;
            self.start = wrap_add(self.start, capacity - displaced, capacity);
            ended = displaced < from;
        }
        self.slots = slots;
    }
}

/// Puts items of an iterator into the `len` empty places from `from` on, upwards. Returns how
/// many, which are fewer than `len` only if the iterator ended.
#[inline]
fn fill_up<T, I: Iterator<Item = T>>(
    mut slots: Slots<T>,
    from: usize,
    len: usize,
    elements: &mut I,
) -> (Slots<T>, usize)
    requires empty { IsEmptyRun slots.places from len }
    requires may { I.can_next elements.old }
    ensures came { Fills I.next_gives elements.old elements.new len (nat_lt result.1 len)
        (λ xs. (length xs ≡ result.1) × (result.0.places ≡ with_run from xs slots.places)) }
    ensures steps { result.0.steps ≡ more_puts result.1 slots.steps }
    ensures goes { GoesOn I.can_next I.remaining elements.old elements.new (nat_lt result.1 len) }
{
    let _fits = slots.capacity();
    for filled in 0..len {
        let Some(element) = ask(elements) else {
            return (slots, filled);
        };
        slots.put(from + filled, element);
    }
    (slots, len)
}

/// Puts items of an iterator into the `len` empty places below `from`, downwards. Returns how
/// many, which are fewer than `len` only if the iterator ended.
#[inline]
fn fill_down<T, I: Iterator<Item = T>>(
    mut slots: Slots<T>,
    from: usize,
    len: usize,
    elements: &mut I,
) -> (Slots<T>, usize)
    requires in_region { len ≤ from }
    requires empty { IsEmptyRun slots.places (from - len) len }
    requires may { I.can_next elements.old }
    ensures came { Fills I.next_gives elements.old elements.new len (nat_lt result.1 len)
        (λ xs. (length xs ≡ result.1)
        × (result.0.places ≡ with_run (from - result.1) (reverse xs) slots.places)) }
    ensures steps { result.0.steps ≡ more_puts result.1 slots.steps }
    ensures goes { GoesOn I.can_next I.remaining elements.old elements.new (nat_lt result.1 len) }
{
    for filled in 0..len {
        let Some(element) = ask(elements) else {
            return (slots, filled);
        };
        slots.put(from - 1 - filled, element);
    }
    (slots, len)
}

/// Puts items of an iterator into the `len` filled places from `from` on, upwards, and drops what
/// was there. Returns how many, which are fewer than `len` only if the iterator ended.
#[inline]
fn displace_up<T: Drop, I: Iterator<Item = T>>(
    mut slots: Slots<T>,
    from: usize,
    len: usize,
    elements: &mut I,
) -> (Slots<T>, usize)
    requires some { 0 < len }
    requires filled { IsFilledRun slots.places from len }
    requires may { I.can_next elements.old }
    requires ends { IsFinite (I.remaining elements.old) }
    ensures came { Fills I.next_gives elements.old elements.new len (nat_lt result.1 len)
        (λ xs. (length xs ≡ result.1) × (result.0.places ≡ with_run from xs slots.places)) }
    ensures steps { result.0.steps ≡ more_puts result.1 (more_takes result.1 slots.steps) }
    ensures goes { nat_lt result.1 len ≡ false →
        IsNearerEnd I.can_next I.remaining elements.old elements.new }
{
    let _fits = slots.capacity();
    for displaced in 0..len {
        let Some(element) = ask(elements) else {
            return (slots, displaced);
        };
        let place = from + displaced;
        let first = slots.take(place);
        slots.put(place, element);
        drop(first);
    }
    (slots, len)
}

/// Puts items of an iterator into the `len` filled places below `from`, downwards, and drops what
/// was there. Returns how many, which are fewer than `len` only if the iterator ended.
#[inline]
fn displace_down<T: Drop, I: Iterator<Item = T>>(
    mut slots: Slots<T>,
    from: usize,
    len: usize,
    elements: &mut I,
) -> (Slots<T>, usize)
    requires some { 0 < len }
    requires in_region { len ≤ from }
    requires filled { IsFilledRun slots.places (from - len) len }
    requires may { I.can_next elements.old }
    requires ends { IsFinite (I.remaining elements.old) }
    ensures came { Fills I.next_gives elements.old elements.new len (nat_lt result.1 len)
        (λ xs. (length xs ≡ result.1)
        × (result.0.places ≡ with_run (from - result.1) (reverse xs) slots.places)) }
    ensures steps { result.0.steps ≡ more_puts result.1 (more_takes result.1 slots.steps) }
    ensures goes { nat_lt result.1 len ≡ false →
        IsNearerEnd I.can_next I.remaining elements.old elements.new }
{
    for displaced in 0..len {
        let Some(element) = ask(elements) else {
            return (slots, displaced);
        };
        let place = from - 1 - displaced;
        let last = slots.take(place);
        slots.put(place, element);
        drop(last);
    }
    (slots, len)
}

/// Asks an iterator once. A loop that called `next` itself would have to show that the iterator
/// ends.
#[inline]
fn ask<T, I: Iterator<Item = T>>(elements: &mut I) -> Option<T>
    requires { I.can_next elements.old }
    ensures gives { I.next_gives elements.old result elements.new }
    ensures goes { MakesProgress I.can_next I.remaining elements.old result elements.new }
{
    elements.next()
}
