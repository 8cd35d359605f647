//! An encoder, which is written bytes and read as text: three bytes to four characters.
//!
//! It uses `arraydeque` under `Saturating`, and is proved over the deque's public contract alone:
//! what it gives to read is the text of the bytes that were written.
ghost use Rattle.std.specs.Prelude.{◌≡◌, ◌<◌, ◌≤◌, ◌+◌, ◌++◌, ◌∷◌, [], length, take, drop, min, None, Some, Ok, IsTrue, IfOk, IsOk};
ghost use Rattle.std.specs.Io.{ReadsAtMost, WritesAtMost};
ghost use Rattle.std.specs.Io.KnownBytes.{ReadConsumes, WriteAppends};
ghost use Rattle.uses.specs.Encoder.{four_of, text_of, left_of};

use arraydeque::{ArrayDeque, Saturating};
use std::alloc::{AllocError, Global};
use std::io::{self, Read, Write};
use std::marker::Model;

/// Characters that wait to be read, at most `CAP`, and bytes that wait for a third one.
#[derive(Drop)]
pub struct Encoder<const CAP: usize> {
    text: ArrayDeque<u8, CAP, Saturating>,
    group: ArrayDeque<u8, 2, Saturating>,
}

impl<const CAP: usize> Model for Encoder<CAP> {
    ghost use Rattle.uses.specs.Encoder.{Encoding};

    ghost Value = { Encoding };

    ghost view = { λ e. record { text = e.text.items; group = e.group.items } };
}

impl<const CAP: usize> Encoder<CAP> {
    /// An encoder to which nothing was written.
    pub fn new(alloc: Global) -> Result<Self, AllocError>
        ensures empty { IfOk result (λ encoder. encoder ≡ record { text = []; group = [] }) }
    {
        let text = ArrayDeque::new(alloc)?;
        let group = ArrayDeque::new(alloc)?;
        Ok(Encoder { text, group })
    }

    /// Takes a byte, or returns `false` if it is the third and there is no room for the text.
    fn put(&mut self, byte: u8) -> bool
        // If the byte is taken, it waits, or as the third it makes four characters.
        ensures text { IsTrue result →
            self.new.text ≡ self.old.text ++ text_of (self.old.group ++ byte ∷ []) }
        ensures group { IsTrue result → self.new.group ≡ left_of (self.old.group ++ byte ∷ []) }
        ensures room { length self.old.text + 4 ≤ CAP → IsTrue result }

        // If it is not, it is the third, and nothing changes.
        ensures third { ¬ IsTrue result → length self.old.group ≡ 2 }
        ensures unchanged { ¬ IsTrue result → self.new ≡ self.old }
    {
        if self.group.push_back(byte).is_ok() {
            return true;
        }
        if CAP - self.text.len() < 4 {
            return false;
        }
        let four = four_of(self.group[0], self.group[1], byte);
        let _written = self.text.write(&four);
        self.group.clear();
        true
    }
}

/// The characters of three bytes: the next six bits each, above the space.
fn four_of(a: u8, b: u8, c: u8) -> [u8; 4]
    ensures { result ≡ four_of a b c }
{
    [
        a / 4 + 32,
        a % 4 * 16 + b / 16 + 32,
        b % 16 * 4 + c / 64 + 32,
        c % 64 + 32,
    ]
}

impl<const CAP: usize> Write for Encoder<CAP> {
    /// Takes the first bytes of `buf`, while there is room for the text, and returns their number.
    fn write(&mut self, buf: &[u8]) -> io::Result<usize>
        // The first bytes are taken, and their text is there.
        ensures ok { IsOk result }
        ensures text { IfOk result (λ count.
            self.new.text ≡ self.old.text ++ text_of (self.old.group ++ take count buf.now)) }
        ensures group { IfOk result (λ count.
            self.new.group ≡ left_of (self.old.group ++ take count buf.now)) }

        // If not all are taken, the next one is a third, and there is no room for the text.
        ensures third { IfOk result (λ count.
            count < length buf.now → length self.new.group ≡ 2) }
        ensures no_room { IfOk result (λ count.
            count < length buf.now → CAP < length self.new.text + 4) }

        // The same in std's words for a writer.
        ensures bound { WritesAtMost result buf.now }
        ensures bytes { WriteAppends None None result buf.now }
    {
        // This call makes it known that fewer than three bytes wait.
        let _waiting = self.group.len();
        let mut taken = 0;
        while taken < buf.len() && self.put(buf[taken]) {
            taken += 1;
        }
        Ok(taken)
    }

    /// Does nothing: the text of each whole group is there.
    fn flush(&mut self) -> io::Result<()>
        ensures ok { IsOk result }
        ensures unchanged { self.new ≡ self.old }
    {
        Ok(())
    }
}

impl<const CAP: usize> Read for Encoder<CAP> {
    ghost remaining = { λ encoder. Some encoder.text };

    /// Takes the first characters out, as many as `buf` has room for, and returns their number. It
    /// always returns `Ok`.
    fn read(&mut self, buf: &mut [u8]) -> io::Result<usize>
        ensures count { result ≡ Ok (min (length self.old.text) (length buf.old)) }
        ensures read { buf.new ≡ take (length buf.old) self.old.text
            ++ drop (length self.old.text) buf.old }
        ensures text { self.new.text ≡ drop (length buf.old) self.old.text }
        ensures group { self.new.group ≡ self.old.group }
        ensures bound { ReadsAtMost result buf.new }
        ensures bytes { ReadConsumes (Some self.old.text) (Some self.new.text) result buf.new }
    {
        self.text.read(buf)
    }
}
