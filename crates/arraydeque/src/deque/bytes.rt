//! A deque of bytes as a stream: read at its front, and under `Saturating` written at its back.
ghost use Rattle.std.specs.Prelude.{◌≡◌, ◌+◌, ◌-◌, ◌≤◌, [], ◌++◌, length, take, drop, min, None, Some, Ok, IsOk, IfOk};
ghost use Rattle.std.specs.Borrow.{sem, u8 as byte};
ghost use Rattle.std.specs.Io.{ReadsAtMost, WritesAtMost, StartsWith};
ghost use Rattle.std.specs.Io.BufRead.{Rests, DropsConsumable};
ghost use Rattle.std.specs.Io.KnownBytes.{Keeps, ReadConsumes, WriteAppends};
ghost use Rattle.arraydeque_ring.specs.Ring.{up_by};
ghost use Rattle.arraydeque_ring.specs.Steps.{more_takes};
ghost use Rattle.arraydeque.specs.Deque.{with_back};
ghost use Rattle.arraydeque.specs.contracts.deque.ArrayDeque.{the_row};

use super::ArrayDeque;
use crate::behavior::{Behavior, Saturating};
use std::io::{BufRead, Read, Result, Write};

impl<const CAP: usize, B: Behavior> Read for ArrayDeque<u8, CAP, B> {
    ghost remaining = { λ deque. Some deque.items };

    /// Takes the first bytes out, as many as `buf` has room for, writes them to the start of `buf`,
    /// and returns their number. The rest of `buf` stays. No byte that stays in the deque moves. It
    /// always returns `Ok`.
    ///
    /// Start: 1 up for each byte taken. Steps: 1 take for each.
    ///
    /// ```
    /// let mut deque = ArrayDeque::<u8, 4, Wrapping>::new(alloc)?;
    /// deque.extend_back([1, 2, 3]);
    /// let mut buf = [0; 2];
    /// assert!(rt; deque.read(&mut buf)? == 2 && buf == [1, 2]);
    /// assert!(rt; deque.read(&mut buf)? == 1 && buf == [3, 2]);
    /// ```
    #[tactic(auto, using(crate::proofs::BytesRead::read_rules))]
    #[inline(always)] // By calls, `stream` of 16 bytes takes two thirds longer.
    fn read(&mut self, buf: &mut [u8]) -> Result<usize>
        // What is returned, and what is left.
        ensures count { result ≡ Ok (min (length self.old.items) (length buf.old)) }
        ensures read { buf.new ≡ take (length buf.old) self.old.items
            ++ drop (length self.old.items) buf.old }
        ensures items { self.new.items ≡ drop (length buf.old) self.old.items }

        // Where the list lies, and what it cost.
        ensures start { let count = min (length self.old.items) (length buf.old) in
            self.new.start ≡ up_by count self.old.start CAP }
        ensures steps { let count = min (length self.old.items) (length buf.old) in
            self.new.steps ≡ more_takes count self.old.steps }

        // The same in std's words for a reader. The list always fits.
        ensures bound { ReadsAtMost result buf.new }
        ensures bytes { ReadConsumes (Some self.old.items) (Some self.new.items) result buf.new }
        ensures within { length self.new.items ≤ CAP }
    {
        let len = self.len();
        let count = len.min(buf.len());
        let (front, back) = self.as_slices();
        let first = count.min(front.len());
        copy_at(&front[..first], buf, 0);
        copy_at(&back[..count - first], buf, first);
        self.truncate_front(len - count);
        Ok(count)
    }
}

impl<const CAP: usize, B: Behavior> BufRead for ArrayDeque<u8, CAP, B> {
    /// Lends the bytes up to the region's end. Only an empty deque lends none. The deque stays as
    /// it was. The call always returns `Ok`.
    ///
    /// ```
    /// let mut deque = ArrayDeque::<u8, 4, Saturating>::new(alloc)?;
    /// deque.extend_back([1, 2, 3]);
    /// assert!(rt; deque.fill_buf()? == [1, 2, 3].as_slice());
    /// deque.consume(2);
    /// assert!(rt; deque.into_vec()?.as_slice() == [3].as_slice());
    /// ```
    fn fill_buf(&mut self) -> Result<&[u8]>
        ensures front { IfOk result (λ bytes. StartsWith self.old.items bytes.now) }
        ensures end { IfOk result (λ bytes. length bytes.now ≡ 0 → self.old.items ≡ []) }

        // Once the bytes are given back, the deque is as it was.
        ensures* after_borrow { sem 𝓛 (Rests (the_row byte CAP.row B.row) self.entry
            (λ new. new ≡ self.old)) }

        ensures cut { IfOk result (λ bytes.
            length bytes.now ≡ min (length self.old.items) (CAP - self.old.start)) }
        ensures ok { IsOk result }
    {
        Ok(self.front_bytes())
    }

    /// Drops the first `amount` bytes, or all if there are no more. No other byte moves.
    ///
    /// Start: 1 up for each byte dropped. Steps: 1 take for each.
    ///
    /// ```
    /// let mut deque = ArrayDeque::<u8, 3, Wrapping>::new(alloc)?;
    /// deque.extend_back([1, 2, 3]);
    /// deque.consume(2);
    /// assert!(rt; deque.front() == Some(&3));
    /// deque.consume(2);
    /// assert!(rt; deque.is_empty());
    /// ```
    ///
    /// So bytes go to a writer that may take only some of them.
    ///
    /// ```
    /// let mut waiting = ArrayDeque::<u8, 8, Saturating>::from_array(alloc, *b"bytes")?;
    /// let mut room = [0; 3];
    /// let mut writer = room.as_mut_slice();
    /// let written = writer.write(waiting.fill_buf()?)?;
    /// waiting.consume(written);
    /// assert!(rt; waiting.into_vec()?.as_slice() == b"es".as_slice());
    /// ```
    #[inline]
    fn consume(&mut self, amount: usize)
        ensures items { self.new.items ≡ drop amount self.old.items }
        ensures start { let count = min amount (length self.old.items) in
            self.new.start ≡ up_by count self.old.start CAP }
        ensures steps { let count = min amount (length self.old.items) in
            self.new.steps ≡ more_takes count self.old.steps }
        ensures bytes { DropsConsumable (Some self.old.items) (Some self.new.items) None amount }
        ensures within { length self.new.items ≤ CAP }
    {
        self.truncate_front(self.len().saturating_sub(amount));
    }
}

/// Copies bytes over those from the index `at` on.
#[inline]
fn copy_at(from: &[u8], to: &mut [u8], at: usize)
    requires { at + length from.now ≤ length to.old }
    ensures { to.new ≡ take at to.old ++ from.now ++ drop (at + length from.now) to.old }
{
    if !from.is_empty() {
        to[at..at + from.len()].copy_from_slice(from);
    }
}

impl<const CAP: usize, B: Behavior> ArrayDeque<u8, CAP, B> {
    /// Returns the bytes up to the region's end.
    fn front_bytes(&self) -> &[u8]
        ensures front { StartsWith self.now.items result.now }
        ensures cut { length result.now ≡ min (length self.now.items) (CAP - self.now.start) }
        ensures end { length result.now ≡ 0 → self.now.items ≡ [] }
    {
        // Reading the length tells the prover that the start is one of the places.
        let _len = self.len();
        let (first, _) = self.ring.as_slices();
        first
    }
}

impl<const CAP: usize> Write for ArrayDeque<u8, CAP, Saturating> {
    ghost contents = { λ deque. Some deque.items };

    /// Adds the first bytes of `buf` at the back, as many as there is room for, and returns their
    /// number, which is 0 if the deque is full. No byte moves. It always returns `Ok`; a
    /// `write_all` that finds too little room fails with `WriteZero`.
    ///
    /// Start: stays. Steps: 1 put for each byte added.
    ///
    /// ```
    /// let mut deque = ArrayDeque::<u8, 3, Saturating>::new(alloc)?;
    /// assert!(rt; deque.write(&[1, 2])? == 2 && deque.write(&[3, 4])? == 1);
    /// assert!(rt; deque.write(&[4])? == 0 && deque.write_all(&[4]).is_err());
    /// assert!(rt; deque.into_vec()?.as_slice() == [1, 2, 3].as_slice());
    /// ```
    #[inline(always)] // By calls, `stream` of 16 bytes takes two thirds longer.
    fn write(&mut self, buf: &[u8]) -> Result<usize>
        ensures count { result ≡ Ok (min (length buf.now) (CAP - length self.old.items)) }
        ensures written { self.new ≡ with_back
            (take (CAP - length self.old.items) buf.now) self.old }
        ensures bound { WritesAtMost result buf.now }
        ensures bytes { WriteAppends (Some self.old.items) (Some self.new.items) result buf.now }
        ensures within { length self.new.items ≤ CAP }
    {
        Ok(self.ring.copy_back(buf))
    }

    /// Does nothing: what was written is in the deque already. It always returns `Ok`.
    ///
    /// ```
    /// let mut deque = ArrayDeque::<u8, 3, Saturating>::new(alloc)?;
    /// deque.write_all(&[1, 2])?;
    /// deque.flush()?;
    /// assert!(rt; deque.into_vec()?.as_slice() == [1, 2].as_slice());
    /// ```
    fn flush(&mut self) -> Result<()>
        ensures ok { IsOk result }
        ensures unchanged { self.new ≡ self.old }
        ensures bytes { Keeps (Some self.old.items) (Some self.new.items) }
    {
        Ok(())
    }
}
