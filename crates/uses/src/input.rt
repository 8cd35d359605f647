//! The look-ahead buffer of a YAML scanner, as the best known user of the Rust crate arraydeque has
//! it: characters read ahead, and `'\0'` for each behind the input's end.
//!
//! It uses `arraydeque` under `Saturating`, and is proved over the deque's public contract alone:
//! no character is lost or comes twice, and zeros come only if the input has ended.
ghost use Rattle.std.specs.Prelude.{◌≡◌, ◌<◌, ◌≤◌, ◌==◌, ◌∷◌, [], max, length, drop, slice_get, IfOk, IfErr, IfSome, Some, true};
ghost use Rattle.std.specs.Iterator.{IsFinite};
ghost use Rattle.uses.specs.Input.{HandsOut, IsFused, LeavesFewer, Pads, ReadsNonBreakz, ReadsRaw, SkipsLine, is_breakz};

use arraydeque::{ArrayDeque, MakeError, Saturating};
use std::alloc::Global;
use std::marker::Model;

/// How many characters there is room for.
pub const BUFFER_LEN: usize = 16;

/// An iterator of characters, and a buffer of those that were read ahead.
#[derive(Drop)]
pub struct BufferedInput<I: Iterator<Item = char>> {
    input: I,
    buffer: ArrayDeque<char, BUFFER_LEN, Saturating>,
}

impl<I: Iterator<Item = char>> Model for BufferedInput<I> {
    ghost use Rattle.uses.specs.Input.{InputState};

    ghost Value = { InputState I };

    ghost view = { λ b. record { input = b.input; buffer = b.buffer.items } };

    ghost invariant = { λ b. (s : I) → I.can_next s };
}

impl<I: Iterator<Item = char>> BufferedInput<I> {
    /// An input of which nothing was read. If memory is refused, the iterator comes back.
    ///
    /// It requires an iterator that may be asked in every state, since it is asked again after
    /// `None`.
    pub fn new(alloc: Global, input: I) -> Result<Self, MakeError<I>>
        requires askable { (s : I) → I.can_next s }
        ensures ok { IfOk result (λ made. made ≡ record { input = input; buffer = [] }) }
        ensures source { IfErr result (λ refusal. refusal.source ≡ input) }
    {
        match ArrayDeque::new(alloc) {
            Ok(buffer) => Ok(BufferedInput { input, buffer }),
            Err(_) => Err(MakeError { source: input }),
        }
    }

    /// Reads until the buffer has `count` characters, if it has fewer.
    pub fn lookahead(&mut self, count: usize)
        requires room { count ≤ BUFFER_LEN }
        ensures len { length self.new.buffer ≡ max count (length self.old.buffer) }
        ensures reads { HandsOut I.next_gives self.old [] self.new }
        ensures padded { IsFused I.next_gives → Pads I.next_gives self.old self.new }
    {
        while self.buffer.len() < count {
            let c = self.input.next().unwrap_or('\0');
            match self.buffer.push_back(c) {
                Ok(()) => {}
                Err(_) => unreachable!(),
            }
        }
    }

    /// How many characters are in the buffer.
    pub fn buflen(&self) -> usize
        ensures { result ≡ length self.now.buffer }
    {
        self.buffer.len()
    }

    /// How many characters the buffer has room for.
    pub fn bufmaxlen(&self) -> usize
        ensures { result ≡ BUFFER_LEN }
    {
        BUFFER_LEN
    }

    /// Whether no character is in the buffer.
    pub fn buf_is_empty(&self) -> bool
        ensures { result ≡ (length self.now.buffer == 0) }
    {
        self.buffer.is_empty()
    }

    /// Reads a character past the buffer.
    pub fn raw_read_ch(&mut self) -> char
        ensures reads { ReadsRaw I.next_gives self.old.input (result ∷ []) self.new.input }
        ensures buffer { self.new.buffer ≡ self.old.buffer }
        ensures fewer { LeavesFewer I.remaining self.old result 1 self.new }
    {
        self.input.next().unwrap_or('\0')
    }

    /// Reads a character past the buffer, if it is within a line. Another goes into the buffer,
    /// which needs room for it, and `None` is returned, as at the input's end.
    pub fn raw_read_non_breakz_ch(&mut self) -> Option<char>
        requires room { length self.old.buffer < BUFFER_LEN }
        ensures { ReadsNonBreakz I.next_gives self.old result self.new }
    {
        let c = self.input.next()?;
        if !is_breakz_char(c) {
            return Some(c);
        }
        match self.buffer.push_back(c) {
            Ok(()) => None,
            Err(_) => unreachable!(),
        }
    }

    /// The next character, which stays, in the buffer.
    pub fn look_ch(&mut self) -> char
        ensures next { slice_get self.new.buffer 0 ≡ Some result }
        ensures reads { HandsOut I.next_gives self.old [] self.new }
        ensures len { length self.new.buffer ≡ max 1 (length self.old.buffer) }
        ensures fewer { LeavesFewer I.remaining self.old result 0 self.new }
    {
        if self.buffer.is_empty() {
            let c = self.raw_read_ch();
            match self.buffer.push_back(c) {
                Ok(()) => {}
                Err(_) => unreachable!(),
            }
        }
        self.peek()
    }

    /// Drops the characters that come before the line's end, or the input's.
    pub fn skip_while_non_breakz(&mut self)
        requires ends { IsFinite (I.remaining self.old.input) }
        ensures skips { SkipsLine I.next_gives self.old self.new }
        ensures next { IfSome (slice_get self.new.buffer 0) (λ c. is_breakz c ≡ true) }
    {
        while !is_breakz_char(self.look_ch()) {
            self.skip();
        }
    }

    /// Drops the first character of the buffer, if there is one.
    pub fn skip(&mut self)
        ensures { self.new ≡ record self.old { buffer = drop 1 self.old.buffer } }
    {
        self.buffer.pop_front();
    }

    /// Drops the first `count` characters of the buffer.
    pub fn skip_n(&mut self, count: usize)
        requires there { count ≤ length self.old.buffer }
        ensures { self.new ≡ record self.old { buffer = drop count self.old.buffer } }
    {
        self.buffer.truncate_front(self.buffer.len() - count);
    }

    /// The first character of the buffer.
    pub fn peek(&self) -> char
        requires there { 0 < length self.now.buffer }
        ensures { slice_get self.now.buffer 0 ≡ Some result }
    {
        self.buffer[0]
    }

    /// The character at an index of the buffer.
    pub fn peek_nth(&self, index: usize) -> char
        requires there { index < length self.now.buffer }
        ensures { slice_get self.now.buffer index ≡ Some result }
    {
        self.buffer[index]
    }
}

/// Whether a character ends a line or the input.
pub fn is_breakz_char(c: char) -> bool
    ensures { result ≡ is_breakz c }
{
    c == '\0' || c == '\n' || c == '\r'
}
