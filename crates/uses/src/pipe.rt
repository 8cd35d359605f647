//! A pipe that holds at most `CAP` bytes.
//!
//! It uses `arraydeque` under `Saturating`, and is proved over the deque's public contract alone:
//! what was written comes out unchanged.
ghost use Rattle.std.specs.Prelude.{◌≡◌, ◌<◌, ◌-◌, ◌++◌, [], length, take, drop, min, IfOk, OnOk, OnErr};
ghost use Rattle.std.specs.Io.{StartsWith, WritesAtMost};
ghost use Rattle.std.specs.Io.KnownBytes.{WriteAppends};

use arraydeque::{ArrayDeque, Saturating};
use std::alloc::{AllocError, Global};
use std::io::{self, BufRead, Write};
use std::marker::Model;

/// The bytes that were written and not yet read, in order.
#[derive(Drop)]
pub struct Pipe<const CAP: usize> {
    bytes: ArrayDeque<u8, CAP, Saturating>,
}

impl<const CAP: usize> Model for Pipe<CAP> {
    ghost use Rattle.std.specs.Prelude.{ℕ, List};

    ghost Value = { List ℕ };

    ghost view = { λ pipe. pipe.bytes.items };
}

impl<const CAP: usize> Pipe<CAP> {
    /// A pipe that holds nothing.
    pub fn new(alloc: Global) -> Result<Self, AllocError>
        ensures empty { IfOk result (λ pipe. pipe ≡ []) }
        ensures refused { OnErr result (0 < CAP) }
    {
        let bytes = ArrayDeque::new(alloc)?;
        Ok(Pipe { bytes })
    }

    /// Writes as many of the bytes as there is room for, and returns their number.
    pub fn write(&mut self, from: &[u8]) -> usize
        ensures count { result ≡ min (length from.now) (CAP - length self.old) }
        ensures written { self.new ≡ self.old ++ take result from.now }
    {
        self.bytes.write(from).unwrap_or(0)
    }

    /// Appends all waiting bytes to `into`. Those for which memory is refused stay.
    pub fn read(&mut self, into: &mut Vec<u8>) -> Result<(), AllocError>
        ensures none_lost { into.new.items ++ self.new ≡ into.old.items ++ self.old }
        ensures all { OnOk result (self.new ≡ []) }
        ensures refused { OnErr result (0 < length self.new) }
    {
        into.reserve(self.bytes.len())?;
        let (first, second) = self.bytes.as_slices();
        into.extend_from_slice(first)?;
        into.extend_from_slice(second)?;
        self.bytes.clear();
        Ok(())
    }

    /// Hands waiting bytes to a writer, once, drops as many as it took, and returns their number.
    /// If it fails, all still wait. No word of std says that the writer was asked: a body that only
    /// fails, or hands it nothing and returns 0, would be proved too.
    pub fn write_to<W: Write>(&mut self, writer: &mut W) -> io::Result<usize>
        // If the writer answers, the bytes that it took are gone.
        ensures left { IfOk result (λ count. self.new ≡ drop count self.old) }
        ensures bound { WritesAtMost result self.old }
        ensures written { WriteAppends (W.contents writer.old) (W.contents writer.new)
            result self.old }

        // If it fails, all still wait.
        ensures unchanged { OnErr result (self.new ≡ self.old) }
    {
        let count = writer.write(self.bytes.fill_buf()?)?;
        self.bytes.consume(count);
        Ok(count)
    }

    /// Appends a text to `into` through an empty pipe, piece by piece. If memory is refused,
    /// `into` has what was sent so far, and some of the next bytes wait in the pipe.
    pub fn send(&mut self, text: &[u8], into: &mut Vec<u8>) -> Result<(), AllocError>
        requires room { 0 < CAP }
        requires empty { self.old ≡ [] }

        // If memory is granted, all of the text has come out.
        ensures whole { OnOk result (into.new.items ≡ into.old.items ++ text.now) }
        ensures empty { OnOk result (self.new ≡ []) }

        // If memory is refused, what came out and what waits are a beginning of it.
        ensures refused { OnErr result (0 < length self.new) }
        ensures none_lost { OnErr result (StartsWith (into.old.items ++ text.now)
            (into.new.items ++ self.new)) }
    {
        let mut rest = text;
        while !rest.is_empty() {
            let count = self.write(rest);
            rest = &rest[count..];
            self.read(into)?;
        }
        Ok(())
    }
}
