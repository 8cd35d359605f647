//! Values that are lent for writing: one run in a slice, or two runs in two slices.
//!
//! A contract sees a [`Loan`] as its two slices and its name. By that name a clause says what the
//! lender is once the loan has ended, so that a caller who only writes through the loan knows it.
ghost use Rattle.std.specs.Prelude.{◌≡◌, ◌-◌, ◌+◌, ◌^◌, ◌<◌, ◌≤◌, length, min};
ghost use Rattle.std.specs.Borrow.{sem};
ghost use Rattle.arraydeque_ring.specs.Loans.{AreApart, place_from};
ghost use Rattle.arraydeque_ring.specs.Runs.{HoldsRun, IsFilledRun};
ghost use Rattle.arraydeque_ring.specs.SlotsLends.{lends_two_runs, lends_loan};
ghost use base.Fml.{GName};

use super::Slots;
use crate::wrap::place_from;
use std::marker::{Model, PhantomData, Send, Sync};

/// The name of a loan, and nothing else. It takes no bytes.
#[derive(Drop)]
pub struct LoanName<'a, T> {
    pub(super) mark: PhantomData<&'a mut T>,
    ghost name: { GName },
}

impl<'a, T> Model for LoanName<'a, T> {
    ghost use base.Fml.{ftrue};

    ghost also_owns = { λ _. ftrue };
}

// A name owns nothing.
unsafe impl<'a, T: Send> Send for LoanName<'a, T> {}

unsafe impl<'a, T: Sync> Sync for LoanName<'a, T> {}

/// Values that are lent for writing in two slices, one behind the other, under one name.
#[derive(Drop)]
pub struct Loan<'a, T> {
    pub(super) first: &'a mut [T],
    pub(super) second: &'a mut [T],
    pub(super) name: LoanName<'a, T>,
}

impl<'a, T> Model for Loan<'a, T> {
    ghost use Rattle.std.specs.Prelude.{◌+◌, ◌^◌, ◌<◌, length};
    ghost use Rattle.arraydeque_ring.specs.Loans.{LoanState};

    ghost Value = { LoanState T };

    ghost view = { λ l. record { first = l.first; second = l.second; name = l.name.name } };

    ghost invariant = { λ l. length l.first.now + length l.second.now < 2 ^ 64 };
}

impl<'a, T> Loan<'a, T> {
    /// Returns the two slices.
    #[inline]
    pub fn into_slices(self) -> (&'a mut [T], &'a mut [T])
        ensures first { result.0 ≡ self.entry.first }
        ensures second { result.1 ≡ self.entry.second }
    {
        let (first, second, _name) = self.into_parts();
        (first, second)
    }

    /// Returns the two slices, and the name that the lender follows.
    #[inline]
    pub fn into_parts(self) -> (&'a mut [T], &'a mut [T], LoanName<'a, T>)
        ensures first { result.0 ≡ self.entry.first }
        ensures second { result.1 ≡ self.entry.second }
        ensures name { result.2.name ≡ self.entry.name }
        ensures within { length result.0.now + length result.1.now < 2 ^ 64 }
    {
        let Loan {
            first,
            second,
            name,
        } = self;
        (first, second, name)
    }
}

impl<T> Slots<T> {
    /// Returns the values of two runs in two mutable slices. Requires filled places, and runs with
    /// no place in common.
    ///
    /// Whatever is written, no place is filled or emptied, and no place outside the runs changes.
    #[inline]
    pub fn two_slices_mut(
        &mut self,
        a: usize,
        a_len: usize,
        b: usize,
        b_len: usize,
    ) -> (&mut [T], &mut [T])
        requires a_filled { IsFilledRun self.old.places a a_len }
        requires b_filled { IsFilledRun self.old.places b b_len }
        requires apart { AreApart a a_len b b_len }
        ensures* writes_back { sem 𝓛 (lends_two_runs T.row self.entry a b result) }
        ensures first { HoldsRun self.old.places a a_len result.0.now }
        ensures second { HoldsRun self.old.places b b_len result.1.now }
    {
        self.lend_two(a, a_len, b, b_len).into_slices()
    }

    /// Lends the values of a run of `len` places for writing: those from the index `from` on, if
    /// the places are read from `start` on. The run may wrap.
    ///
    /// Whatever is written, no place is filled or emptied, and no place outside the run changes.
    pub(crate) fn lend_round(&mut self, start: usize, from: usize, len: usize) -> Loan<'_, T>
        requires in_region { start ≤ length self.old.places }
        requires within { from + len ≤ length self.old.places }
        requires first_filled { let place = place_from start from (length self.old.places) in
            IsFilledRun self.old.places place (min len (length self.old.places - place)) }
        requires second_filled { let place = place_from start from (length self.old.places) in
            IsFilledRun self.old.places 0 (len - min len (length self.old.places - place)) }
        ensures* writes_back { let place = place_from start from (length self.old.places) in
            sem 𝓛 (lends_loan T.row self.entry place 0 result) }
        ensures first { let place = place_from start from (length self.old.places) in
            HoldsRun self.old.places place (min len (length self.old.places - place))
            result.first.now }
        ensures second { let place = place_from start from (length self.old.places) in
            HoldsRun self.old.places 0 (len - min len (length self.old.places - place))
            result.second.now }
    {
        let capacity = self.capacity;
        let place = place_from(start, from, capacity);
        let first = len.min(capacity - place);
        self.lend_two(place, first, 0, len - first)
    }
}
