//! Streams in memory, which move few bytes a call and fail when a test has them fail.
ghost use Rattle.std.specs.Prelude.{◌≤◌, IfOk};

use std::alloc::Global;
use std::io;
use std::io::{ErrorKind, Read, Write};

/// How the calls of a stream go: none moves more than `most` bytes, and those from the call `first`
/// to the call `last`, counted from 0, fail.
#[derive(Clone, Copy)]
pub(crate) struct Calls {
    most: usize,
    first: usize,
    last: usize,
    kind: ErrorKind,
}

impl Calls {
    /// None fails, and each moves what it is asked to.
    pub(crate) fn whole() -> Self {
        Calls::failing(usize::MAX, usize::MAX, 0, ErrorKind::Other)
    }

    pub(crate) fn failing(most: usize, first: usize, last: usize, kind: ErrorKind) -> Self {
        Calls {
            most,
            first,
            last,
            kind,
        }
    }

    /// How many bytes the call of this number moves, of so many that it is asked for.
    fn count_at(self, call: usize, asked: usize) -> io::Result<usize>
        ensures { IfOk result (λ count. count ≤ asked) }
    {
        if self.first <= call && call <= self.last {
            return Err(io::Error::from(self.kind));
        }
        Ok(asked.min(self.most))
    }
}

/// Bytes that are read.
#[derive(Drop)]
pub(crate) struct Input<'a> {
    rest: &'a [u8],
    made: usize,
    calls: Calls,
}

impl<'a> Input<'a> {
    pub(crate) fn new(rest: &'a [u8], calls: Calls) -> Self {
        Input {
            rest,
            made: 0,
            calls,
        }
    }

    /// How often it was read.
    pub(crate) fn reads(&self) -> usize {
        self.made
    }
}

impl Read for Input<'_> {
    fn read(&mut self, buf: &mut [u8]) -> io::Result<usize> {
        let call = self.made;
        self.made = call.saturating_add(1);
        let asked = buf.len().min(self.rest.len());
        let count = self.calls.count_at(call, asked)?;
        buf[..count].copy_from_slice(&self.rest[..count]);
        self.rest = &self.rest[count..];
        Ok(count)
    }
}

/// Bytes that are written, beside those that are due.
#[derive(Drop)]
pub(crate) struct Output<'a> {
    due: &'a str,
    bytes: Vec<u8>,
    flushed: usize,
    has_failed: bool,
    made: usize,
    calls: Calls,
}

impl<'a> Output<'a> {
    pub(crate) fn new(alloc: Global, due: &'a str, calls: Calls) -> Self {
        Output {
            due,
            bytes: Vec::new(alloc),
            flushed: 0,
            has_failed: false,
            made: 0,
            calls,
        }
    }

    /// Whether just what is due was written and flushed, or, if a call failed, some beginning of
    /// it was written.
    pub(crate) fn is_due(&self) -> bool {
        let (due, bytes) = (self.due.as_bytes(), self.bytes.as_slice());
        if self.has_failed {
            due.starts_with(bytes)
        } else {
            due == bytes && self.flushed == bytes.len()
        }
    }

    /// How many bytes the next call moves.
    fn next_count(&mut self, asked: usize) -> io::Result<usize>
        ensures { IfOk result (λ count. count ≤ asked) }
    {
        let call = self.made;
        self.made = call.saturating_add(1);
        let count = self.calls.count_at(call, asked);
        self.has_failed |= count.is_err();
        count
    }
}

impl Write for Output<'_> {
    fn write(&mut self, buf: &[u8]) -> io::Result<usize> {
        let count = self.next_count(buf.len())?;
        self.bytes.extend_from_slice(&buf[..count])?;
        Ok(count)
    }

    fn flush(&mut self) -> io::Result<()> {
        self.next_count(0)?;
        self.flushed = self.bytes.len();
        Ok(())
    }
}
