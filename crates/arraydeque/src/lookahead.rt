//! Looking ahead in an iterator.
ghost use Rattle.std.specs.Prelude.{◌≡◌, ◌<◌, ◌≤◌, ◌+◌, ◌*◌, ◌∷◌, [], List, length, min, take, drop, slice_get, option_copied, ⊤, true, IfOk, IfErr, OnOk, OnErr, IsOk, OnSome, IfSome, IfNone, false, ◌↔◌};
ghost use Rattle.std.specs.Borrow.{sem};
ghost use Rattle.std.specs.Fn.{FnOnceReturnsAt};
ghost use Rattle.std.specs.Iterator.{IsFinite, MakesProgress, UpTo, count_map, size};
ghost use Rattle.std.specs.Iterator.Runs.{WholeRun};
ghost use Rattle.std.specs.Mem.{type_size};
ghost use Rattle.std.specs.Option.{option_to_list};
ghost use Rattle.arraydeque.specs.Lookahead.{fresh_scanner, CountsLeft, Lowers, Reads, HandsOut, HasRest, TakesOff, PutsOn, NextIs, ReadsOn, Peeks, Advances, Gives};

use crate::behavior::Saturating;
use crate::deque::ArrayDeque;
use crate::error::{CapacityError, MakeError};
use crate::iter::Iter;
use std::alloc::Global;
use std::marker::Model;

/// An iterator that can look up to `CAP` items ahead and take items back.
///
/// It asks its iterator for no more than a call needs, and never again after the first `None`.
///
/// ```
/// let mut scanner = Scanner::<_, 2>::new(alloc, [1, 2, 3].into_iter())?;
/// assert!(rt; scanner.peek(1) == Some(&2));
/// assert!(rt; (scanner.next(), scanner.unread(9)) == (Some(1), Ok(())));
/// assert!(rt; (scanner.next(), scanner.next()) == (Some(9), Some(2)));
/// ```
#[derive(Drop)]
pub struct Scanner<I: Iterator, const CAP: usize> {
    iter: I,
    buffer: ArrayDeque<I::Item, CAP, Saturating>,
    ended: bool,
}

impl<I: Iterator, const CAP: usize> Model for Scanner<I, CAP> {
    ghost use Rattle.std.specs.Prelude.{◌≡◌, false};
    ghost use Rattle.arraydeque.specs.Lookahead.{ScannerState, left_of};

    ghost Value = { ScannerState I I.Item };

    ghost view = { λ s. record {
      iter = s.iter;
      buffer = s.buffer.items;
      ended = s.ended;
      left = left_of I.remaining s.iter s.buffer.items s.ended;
    } };

    ghost invariant = { λ s. s.ended ≡ false → I.can_next s.iter };
}

impl<I: Iterator, const CAP: usize> Scanner<I, CAP> {
    ghost use Rattle.arraydeque.specs.contracts.lookahead.Scanner.{the_row};
    ghost use Rattle.std.specs.Io.BufRead.{Rests};

    /// Returns a scanner over an iterator, which is asked for nothing yet.
    ///
    /// Fails only if memory is refused; then the iterator comes back in the error as it was. At
    /// capacity 0 or for items of size zero it never fails.
    ///
    /// ```
    /// let mut scanner = Scanner::<_, 0>::new(alloc, [1, 2].into_iter())?;
    /// assert!(rt; (scanner.next(), scanner.next()) == (Some(1), Some(2)));
    /// assert!(rt; scanner.next() == None);
    /// ```
    #[tactic(auto, unfolding(crate::specs::Lookahead::HasRest, crate::specs::Lookahead::left_of))]
    pub fn new(alloc: Global, iter: I) -> Result<Self, MakeError<I>>
        requires { I.can_next iter }

        // If memory is granted, the `rest` that is left is what a whole run of the iterator gives.
        ensures ok { IfOk result (λ scanner. scanner ≡ fresh_scanner I.remaining iter) }
        ensures rest { IfOk result (λ scanner. (rest : List I.Item)
            → HasRest I.next_gives scanner rest
            → WholeRun I.next_gives iter (λ run. run.items ≡ rest)) }
        ensures counts { IfOk result (CountsLeft I.remaining) }

        // If memory is refused, the iterator comes back.
        ensures source { IfErr result (λ refusal. refusal.source ≡ iter) }
        ensures refused { OnErr result (0 < CAP * type_size I.Item.row) }
    {
        match ArrayDeque::new(alloc) {
            Ok(buffer) => Ok(Scanner {
                iter,
                buffer,
                ended: false,
            }),
            Err(_) => Err(MakeError { source: iter }),
        }
    }

    /// Returns item `k` of what is left, or `None` if the input ends before it. Item 0 is what
    /// `next` will return. Requires `k` below `CAP`.
    ///
    /// If the buffer has more than `k` items, nothing changes. Otherwise what is read is kept
    /// there, behind the others, until the buffer has `k + 1` items.
    ///
    /// In a function over any iterator, make `CAP` a const parameter and require that `k` is below
    /// it. With a number in its place, the prover doesn't see that.
    ///
    /// ```
    /// let mut scanner = Scanner::<_, 3>::new(alloc, [1, 2].into_iter())?;
    /// assert!(rt; scanner.peek(1) == Some(&2));
    /// assert!(rt; scanner.peek(2) == None);
    /// assert!(rt; scanner.next() == Some(1));
    /// ```
    pub fn peek(&mut self, k: usize) -> Option<&I::Item>
        requires { k < CAP }

        // Once the loan has ended, the scanner is `new`: it has read on until item `k` is in its
        // buffer, if there is one, and that is the result.
        ensures* peeks { sem 𝓛 (Rests (the_row I.row CAP.row I.Item.row I.Iterator) self.entry
            (λ new. Peeks I.next_gives I.remaining self.old k (option_copied result) new)) }
    {
        self.read_ahead(k + 1);
        self.buffer.get(k)
    }

    /// Reads on until `count` items are in the buffer, and returns how many of the next `count` are
    /// there. They are fewer only if the input ends before. Requires `count` up to `CAP`. What is
    /// read goes behind what is in the buffer; if that has `count` items already, nothing changes.
    ///
    /// ```
    /// let mut scanner = Scanner::<_, 3>::new(alloc, [1, 2].into_iter())?;
    /// assert!(rt; scanner.read_ahead(1) == 1);
    /// assert!(rt; scanner.read_ahead(3) == 2);
    /// assert!(rt; scanner.next() == Some(1));
    /// ```
    #[tactic(auto, unfolding(crate::specs::Lookahead::left_of))]
    pub fn read_ahead(&mut self, count: usize) -> usize
        requires { count ≤ CAP }
        ensures count { result ≡ min count (length self.new.buffer) }
        ensures reads_on { ReadsOn I.next_gives I.remaining self.old count self.new }
        ensures all { result ≡ count → self.new.ended ≡ self.old.ended }

        // Fewer are there only if the input has ended; then the buffer has all that is left.
        ensures fewer { result < count → self.new.ended ≡ true }
        ensures over { result < count → HasRest I.next_gives self.new self.new.buffer }
    {
        while self.buffer.len() < count {
            let Some(item) = self.read() else {
                return self.buffer.len();
            };
            match self.buffer.push_back(item) {
                Ok(()) => {}
                Err(_) => unreachable!(),
            }
        }
        count
    }

    /// Returns an iterator over the next `count` items, which stay. Requires that they are in the
    /// buffer, as [`Scanner::read_ahead`] puts them there.
    ///
    /// ```
    /// let mut scanner = Scanner::<_, 2>::new(alloc, b"<!--".iter().copied())?;
    /// let there = scanner.read_ahead(2);
    /// assert!(rt; scanner.ahead(there).copied().eq(*b"<!"));
    /// assert!(rt; scanner.next() == Some(b'<'));
    /// ```
    pub fn ahead(&self, count: usize) -> Iter<'_, I::Item>
        requires { count ≤ length self.now.buffer }
        ensures { result ≡ take count self.now.buffer }
    {
        self.buffer.range(..count)
    }

    /// Removes the next item and returns it: the first of the buffer, or what the iterator gives if
    /// the buffer is empty. Returns `None` only at the end.
    ///
    /// ```
    /// let mut scanner = Scanner::<_, 1>::new(alloc, [1, 2].into_iter())?;
    /// assert!(rt; scanner.peek(0) == Some(&1));
    /// assert!(rt; (scanner.next(), scanner.next()) == (Some(1), Some(2)));
    /// assert!(rt; scanner.next() == None);
    /// ```
    #[tactic(auto, unfolding(crate::specs::Lookahead::HasRest, crate::specs::Lookahead::left_of))]
    pub fn next(&mut self) -> Option<I::Item>
        // What goes out is the first of the buffer, or if that is empty the next of the iterator.
        ensures hands_out { HandsOut I.next_gives self.old (option_to_list result) self.new }
        ensures rest { TakesOff I.next_gives self.old (option_to_list result) self.new }
        ensures buffer { self.new.buffer ≡ drop 1 self.old.buffer }
        ensures buffered { 0 < length self.old.buffer
            → (result ≡ slice_get self.old.buffer 0) × (self.new.iter ≡ self.old.iter) }
        ensures some { OnSome result (self.new.ended ≡ self.old.ended) }

        // If none comes, the input has ended: nothing was left.
        ensures none { IfNone result (self.new.ended ≡ true) }
        ensures over { IfNone result (HasRest I.next_gives self.old []) }

        // How many items are left at most.
        ensures goes { MakesProgress (λ _. ⊤) (λ s. s.left) self.old result self.new }
        ensures left { IsFinite self.old.left → UpTo self.new.left (size self.old.left) }
        ensures lowers { Lowers I.remaining self.old result self.new }
        ensures counts { CountsLeft I.remaining self.new }

        // A buffer that has places has room then.
        ensures room { 0 < CAP → length self.new.buffer < CAP }
    {
        match self.buffer.pop_front() {
            Some(item) => Some(item),
            None => self.read(),
        }
    }

    /// Drops the next items, up to `count`, front to back, and returns how many went. They are
    /// fewer only if the input ends before.
    ///
    /// ```
    /// let mut scanner = Scanner::<_, 2>::new(alloc, [1, 2, 3, 4].into_iter())?;
    /// assert!(rt; scanner.peek(1) == Some(&2));
    /// assert!(rt; scanner.advance(3) == 3);
    /// assert!(rt; (scanner.next(), scanner.advance(2)) == (Some(4), 0));
    /// ```
    #[tactic(auto, unfolding(crate::specs::Lookahead::left_of))]
    pub fn advance(&mut self, count: usize) -> usize
    where
        I::Item: Drop,
        ensures bound { result ≤ count }
        ensures advances { Advances I.next_gives I.remaining self.old result self.new }
        ensures buffered { count ≤ length self.old.buffer
            → (result ≡ count) × (self.new.iter ≡ self.old.iter) }
        ensures all { result ≡ count → self.new.ended ≡ self.old.ended }

        // Fewer go only if the input has ended; then nothing is left.
        ensures fewer { result < count → self.new.ended ≡ true }
        ensures over { result < count → HasRest I.next_gives self.new [] }
    {
        // This borrow makes it known that `left` counts what there is.
        let _iter = &self.iter;
        let mut gone = 0;
        while gone < count {
            let Some(_) = self.next() else {
                return gone;
            };
            gone += 1;
        }
        gone
    }

    /// Removes the next item and returns it if `accepts` returns `true` for it. Otherwise returns
    /// `None`, as at the end, and the item stays the next one, in the buffer. Requires `CAP` above
    /// 0.
    ///
    /// ```
    /// let mut scanner = Scanner::<_, 1>::new(alloc, [1, 2, 9].into_iter())?;
    /// let mut small = Vec::new(alloc);
    /// while let Some(item) = scanner.next_if(|item| *item < 5) {
    ///     small.push(item)?;
    /// }
    /// assert!(rt; small.as_slice() == [1, 2].as_slice());
    /// assert!(rt; (scanner.next(), scanner.next()) == (Some(9), None));
    /// ```
    pub fn next_if<P: FnOnce(&I::Item) -> bool>(&mut self, accepts: P) -> Option<I::Item>
        requires ahead { 0 < CAP }
        requires callable { P.IsAlwaysCallable accepts }

        // If the next item is accepted, it goes out.
        ensures hands_out { HandsOut I.next_gives self.old (option_to_list result) self.new }
        ensures rest { TakesOff I.next_gives self.old (option_to_list result) self.new }
        ensures accepted { IfSome result (λ item.
            FnOnceReturnsAt P.FnOnce accepts item true) }

        // A rejected item stays the next one, in the buffer. If that is empty, the input has ended.
        ensures rejected { IfNone result (NextIs I.next_gives
            (λ item. FnOnceReturnsAt P.FnOnce accepts item false) self.new) }
        ensures none { IfNone result
            (self.new.buffer ≡ [] → self.new.ended ≡ true) }

        // How many items are left at most.
        ensures goes { MakesProgress (λ _. ⊤) (λ s. s.left) self.old result self.new }
        ensures left { IsFinite self.old.left → UpTo self.new.left (size self.old.left) }
        ensures lowers { Lowers I.remaining self.old result self.new }
        ensures counts { CountsLeft I.remaining self.new }
    {
        let Some(item) = self.peek(0) else {
            return None;
        };
        let is_accepted = accepts(item);
        if !is_accepted {
            return None;
        }
        self.next()
    }

    /// Puts an item back, or another in its place, so that `next` will return it. If the buffer is
    /// full, returns it in the error, and nothing has changed.
    ///
    /// ```
    /// let mut scanner = Scanner::<_, 1>::new(alloc, [2, 3].into_iter())?;
    /// assert!(rt; scanner.unread(1) == Ok(()));
    /// assert!(rt; scanner.unread(0) == Err(CapacityError { element: 0 }));
    /// assert!(rt; (scanner.next(), scanner.next()) == (Some(1), Some(2)));
    /// ```
    #[tactic(auto, unfolding(crate::specs::Lookahead::HasRest, crate::specs::Lookahead::left_of))]
    pub fn unread(&mut self, item: I::Item) -> Result<(), CapacityError<I::Item>>
        // If the buffer has room, the item is the next one.
        ensures room { IsOk result ↔ (length self.old.buffer < CAP) }
        ensures buffer { OnOk result (self.new ≡
            record self.old { buffer = item ∷ self.old.buffer; left = self.new.left }) }
        ensures rest { OnOk result (PutsOn I.next_gives self.old item self.new) }

        // If the buffer is full, the item comes back, and nothing changes.
        ensures full { IfErr result (λ refusal. refusal.element ≡ item) }
        ensures unchanged { OnErr result (self.new ≡ self.old) }

        // How many items are left at most.
        ensures left { OnOk result (self.new.left ≡ count_map (λ n. n + 1) self.old.left) }
        ensures counts { CountsLeft I.remaining self.new }
    {
        self.buffer.push_front(item)
    }

    /// Asks the iterator once, unless it has given its first `None`. The buffer stays as it is.
    #[tactic(auto, unfolding(crate::specs::Lookahead::left_of))]
    fn read(&mut self) -> Option<I::Item>
        // The iterator is asked, unless it has ended.
        ensures reads { Reads I.next_gives self.old.ended self.old.iter (option_to_list result)
            self.new.ended self.new.iter }
        ensures buffer { self.new.buffer ≡ self.old.buffer }
        ensures some { OnSome result (self.new.ended ≡ self.old.ended) }

        // If it gives none, it has ended.
        ensures none { IfNone result (self.new.ended ≡ true) }

        // How many items are left at most.
        ensures goes { MakesProgress (λ _. ⊤) (λ s. s.left) self.old result self.new }
        ensures left { IsFinite self.old.left → UpTo self.new.left (size self.old.left) }
        ensures lowers { Lowers I.remaining self.old result self.new }
        ensures counts { CountsLeft I.remaining self.new }
    {
        if self.ended {
            return None;
        }
        match self.iter.next() {
            Some(item) => Some(item),
            None => {
                self.ended = true;
                None
            }
        }
    }
}

impl<I: Iterator<Item: Drop>, const CAP: usize> Iterator for Scanner<I, CAP> {
    type Item = I::Item;

    ghost next_gives = { Gives I.next_gives };

    ghost remaining = { λ s. s.left };

    /// Calls the scanner's own `next`. So a `for` over `&mut scanner` takes what is left, and one
    /// that ends early leaves the items that it didn't take.
    ///
    /// ```
    /// let mut scanner = Scanner::<_, 1>::new(alloc, 1..6)?;
    /// assert!(rt; scanner.peek(0) == Some(&1));
    /// for item in &mut scanner {
    ///     if item == 3 {
    ///         break;
    ///     }
    /// }
    /// assert!(rt; scanner.sum::<i32>() == 9);
    /// ```
    fn next(&mut self) -> Option<I::Item> {
        Scanner::next(self)
    }
}
