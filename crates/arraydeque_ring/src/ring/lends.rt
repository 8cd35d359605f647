//! Items of a ring, all or a part, lent for reading or for writing.
ghost use Rattle.std.specs.Prelude.{◌≡◌, ◌+◌, ◌-◌, ◌≤◌, [], ◌++◌, List, length, min, take, drop};
ghost use Rattle.std.specs.List.{refill};
ghost use Rattle.std.specs.Borrow.{sem};
ghost use Rattle.arraydeque_ring.specs.Loans.{remaining, place_from};
ghost use Rattle.arraydeque_ring.specs.Ring.{IsInOnePiece};
ghost use Rattle.arraydeque_ring.specs.RingLends.{lends_part, lends_list, lends_slices, lends_loan};

use super::Ring;
use crate::slots::loan::Loan;

impl<T> Ring<T> {
    /// Returns the items in two slices: those from the front to the region's end, and the rest,
    /// from the region's first place on. If all lie in one piece, the second is empty.
    ///
    /// ```
    /// let mut ring = Ring::from_slice(alloc, 4, &[2, 3])?;
    /// ring.push_front(1);
    /// assert!(rt; ring.as_slices() == ([1].as_slice(), [2, 3].as_slice()));
    /// ```
    #[tactic(auto, using(crate::proofs::Opened::slice_facts))]
    #[inline]
    pub fn as_slices(&self) -> (&[T], &[T])
        ensures joined { result.0.now ++ result.1.now ≡ self.now.items }
        ensures cut { length result.0.now ≡
            min (length self.now.items) (self.now.capacity - self.now.start) }
        ensures one_piece { IsInOnePiece self.now → result.1.now ≡ [] }
    {
        let to_end = self.slots.capacity() - self.start;
        if self.len <= to_end {
            (self.slots.slice(self.start, self.len), &[])
        } else {
            (
                self.slots.slice(self.start, to_end),
                self.slots.slice(0, self.len - to_end),
            )
        }
    }

    /// Returns the items in one slice. Requires a list in one piece, as `linearize` leaves it.
    ///
    /// ```
    /// let mut ring = Ring::from_slice(alloc, 3, &[3, 1])?;
    /// ring.push_front(2);
    /// ring.linearize();
    /// assert!(rt; ring.as_slice() == [2, 3, 1].as_slice());
    /// ```
    #[inline]
    pub fn as_slice(&self) -> &[T]
        requires { IsInOnePiece self.now }
        ensures { result.now ≡ self.now.items }
    {
        let (items, _) = self.as_slices();
        items
    }

    /// Returns the items for writing in one slice. Requires a list in one piece, as `linearize`
    /// leaves it.
    ///
    /// The list afterwards is what was written, and starts where it did.
    ///
    /// ```
    /// let mut ring = Ring::from_slice(alloc, 4, &[3, 1, 2])?;
    /// ring.as_mut_slice().reverse();
    /// assert!(rt; IntoIter::from_ring(ring).eq([2, 1, 3]));
    /// ```
    #[tactic(auto, using(crate::proofs::Opened::slice_facts))]
    #[inline]
    pub fn as_mut_slice(&mut self) -> &mut [T]
        requires { IsInOnePiece self.old }
        ensures value { result.now ≡ self.old.items }

        // The list ends as it was last written, with 1 lend counted.
        ensures* writes_back { sem 𝓛 (lends_list T.row self.entry result) }
        // Whatever list `ws` of as many items was written, that is the list then.
        ensures same_len { (ws : List T) → length ws ≡ length self.old.items
            → refill (length self.old.items) self.old.items ws ≡ ws }
    {
        let start = self.start;
        let len = self.len;
        let slots = &mut self.slots;
        slots.slice_mut(start, len)
    }

    /// Returns the items in two mutable slices: those from the front to the region's end, and the
    /// rest, from the region's first place on. If all lie in one piece, the second is empty.
    ///
    /// Whatever is written, the ring holds as many items as before, and they start where they did.
    /// If your proof needs that, call `lend_part(0, len).into_slices()`: the prover follows one
    /// loan by its name, but not a pair of slices.
    ///
    /// ```
    /// let mut ring = Ring::from_slice(alloc, 4, &[2, 3])?;
    /// ring.push_front(1);
    /// let (_front, rest) = ring.as_mut_slices();
    /// rest.fill(0);
    /// assert!(rt; IntoIter::from_ring(ring).eq([1, 0, 0]));
    /// ```
    #[inline]
    pub fn as_mut_slices(&mut self) -> (&mut [T], &mut [T])
        // The items end as they were last written, with 2 lends counted.
        ensures* writes_back { sem 𝓛 (lends_slices T.row self.entry result) }

        // What is lent.
        ensures joined { result.0.now ++ result.1.now ≡ self.old.items }
        ensures cut { length result.0.now ≡
            min (length self.old.items) (self.old.capacity - self.old.start) }
        ensures one_piece { IsInOnePiece self.old → result.1.now ≡ [] }
    {
        self.lend(0, 0).into_slices()
    }

    /// Lends the items for writing, except for the first `before` and the last `behind`, as one
    /// loan of two slices. Its clause says that the ring follows the loan's name, and also what
    /// that name follows. A caller of this method has to be proved by hand, so most call
    /// [`Ring::lend_part`]. Requires that there are so many items.
    ///
    /// Start: stays. Steps: 2 lends.
    ///
    /// ```
    /// let mut ring = Ring::from_slice(alloc, 4, &[2, 3])?;
    /// ring.push_front(1);
    /// let (front, _rest) = ring.lend(0, 1).into_slices();
    /// front.fill(0);
    /// assert!(rt; IntoIter::from_ring(ring).eq([0, 2, 3]));
    /// ```
    pub fn lend(&mut self, before: usize, behind: usize) -> Loan<'_, T>
        requires { before + behind ≤ length self.old.items }
        ensures* writes_back { let len = length self.old.items - before - behind in
            sem 𝓛 (lends_loan T.row self.entry before len result) }
        ensures value { let len = length self.old.items - before - behind in
            remaining result ≡ take len (drop before self.old.items) }
        ensures cut { let len = length self.old.items - before - behind in
            length result.first.now ≡ min len
            (self.old.capacity - place_from self.old.start before self.old.capacity) }
        ensures one_piece { IsInOnePiece self.old → result.second.now ≡ [] }
    {
        let start = self.start;
        let len = self.len - before - behind;
        let slots = &mut self.slots;
        slots.lend_round(start, before, len)
    }

    /// Lends the `len` items from the index `from` on for writing, as one loan of two slices.
    /// Requires a part that ends within the list.
    ///
    /// Whatever is written, the ring holds as many items as before, and those outside the part are
    /// as they were.
    ///
    /// Start: stays. Steps: 2 lends.
    ///
    /// ```
    /// let mut ring = Ring::from_slice(alloc, 4, &[2, 3, 4])?;
    /// ring.push_front(1);
    /// let (first, second) = ring.lend_part(1, 2).into_slices();
    /// first.fill(7);
    /// second.fill(7);
    /// assert!(rt; IntoIter::from_ring(ring).eq([1, 7, 7, 4]));
    /// ```
    #[inline]
    pub fn lend_part(&mut self, from: usize, len: usize) -> Loan<'_, T>
        requires { from + len ≤ length self.old.items }
        ensures value { remaining result ≡ take len (drop from self.old.items) }
        ensures cut { length result.first.now ≡
            min len (self.old.capacity - place_from self.old.start from self.old.capacity) }
        ensures one_piece { IsInOnePiece self.old → result.second.now ≡ [] }

        // Whatever is written, the part keeps its length and the others stay. 2 lends are counted.
        ensures* writes_back { sem 𝓛 (lends_part T.row self.entry from len result.name) }
    {
        let behind = self.len - from - len;
        self.lend_between(from, behind)
    }

    /// Does what [`Ring::lend`] does, but says only what the loan's name tells.
    #[inline]
    fn lend_between(&mut self, before: usize, behind: usize) -> Loan<'_, T>
        requires { before + behind ≤ length self.old.items }
        ensures* writes_back { let len = length self.old.items - before - behind in
            sem 𝓛 (lends_part T.row self.entry before len result.name) }
        ensures value { let len = length self.old.items - before - behind in
            remaining result ≡ take len (drop before self.old.items) }
        ensures cut { let len = length self.old.items - before - behind in
            length result.first.now ≡ min len
            (self.old.capacity - place_from self.old.start before self.old.capacity) }
        ensures one_piece { IsInOnePiece self.old → result.second.now ≡ [] }
    {
        self.lend(before, behind)
    }
}
