//! Lines of text as calls of a deque.
ghost use Rattle.std.specs.Prelude.{◌≡◌, ℕ, ℤ, ◌+◌, ◌∷◌, [], ◌++◌, ◌⊎◌, map, IfOk, IfErr, MatchOption, OnOk, option_to_list};
ghost use Rattle.std.specs.List.{AllZip};
ghost use Rattle.std.specs.Str.Lines.{strip_carriage_return};
ghost use Rattle.adq.specs.declared.fault.Fault.TheVariants.{Memory};
ghost use Rattle.adq.specs.Line.{lines_of, words_of, index, value, Spells, tokens_of, LineNames, LinesName, IsFirstBad, Tells};

use crate::fault::Fault;
use arraydeque::run::Call;
use std::alloc::{AllocError, Global};
use std::str;

/// The calls that the lines of `text` name, in order.
///
/// A line ends at a line feed or at the end of the text, and one carriage return before that end is
/// no part of it. A line without words names no call.
pub fn calls(alloc: Global, text: &[u8]) -> Result<Vec<Call<i64>>, Fault>
    ensures ok { IfOk result (λ calls. LinesName (lines_of text.now) calls.items) }
    ensures bad { IfErr result (λ fault. (fault ≡ Memory)
        ⊎ ((k : ℕ) × (fault ≡ Fault.Line (k + 1)) × IsFirstBad (lines_of text.now) k)) }
{
    let mut calls = Vec::new(alloc);
    for (index, line) in text.split(|byte| *byte == b'\n').enumerate() {
        let call = call_of(alloc, index + 1, line)?;
        append(&mut calls, call)?;
    }
    Ok(calls)
}

/// Puts the call behind the others, if there is one.
fn append(calls: &mut Vec<Call<i64>>, call: Option<Call<i64>>) -> Result<(), AllocError>
    ensures { OnOk result (calls.new.items ≡ calls.old.items ++ option_to_list call) }
{
    if let Some(call) = call {
        calls.push(call)?;
    }
    Ok(())
}

/// The call that the line of this number names, if it has words.
fn call_of(alloc: Global, number: usize, bytes: &[u8]) -> Result<Option<Call<i64>>, Fault>
    ensures { Tells number (LineNames (strip_carriage_return bytes.now)) result }
{
    let Ok(rest) = str::from_utf8(strip_return(bytes)) else {
        return Err(Fault::Line(number));
    };
    let mut line = Line { number, rest };
    let Some(name) = line.word() else {
        return Ok(None);
    };
    Ok(Some(line.call(name, alloc)?))
}

/// A line without the carriage return at its end.
fn strip_return(line: &[u8]) -> &[u8]
    ensures { result.now ≡ strip_carriage_return line.now }
{
    line.strip_suffix(b"\r").unwrap_or(line)
}

/// A line that is read word by word. Spaces separate words.
#[derive(Drop)]
struct Line<'a> {
    number: usize,
    rest: &'a str,
}

impl<'a> Line<'a> {
    /// Takes the next word, if there is one.
    fn word(&mut self) -> Option<&'a str>
        ensures number { self.new.number ≡ self.old.number }
        ensures words { MatchOption result (words_of self.old.rest.now ≡ [])
            (λ word. words_of self.old.rest.now ≡ word.now ∷ words_of self.new.rest.now) }
    {
        let text = self.rest.trim_start_matches(' ');
        let (word, rest) = text.split_once(' ').unwrap_or((text, ""));
        self.rest = rest;
        if word.is_empty() { None } else { Some(word) }
    }

    /// The call of this name, whose operands are the words that are left.
    fn call(self, name: &str, alloc: Global) -> Result<Call<i64>, Fault>
        ensures { Tells self.entry.number (λ call.
            AllZip Spells (name.now ∷ words_of self.entry.rest.now) (tokens_of call)) result }
    {
        match name {
            "push_front" => Ok(Call::PushFront(self.value()?)),
            "push_back" => Ok(Call::PushBack(self.value()?)),
            "pop_front" => self.end(Call::PopFront),
            "pop_back" => self.end(Call::PopBack),
            "insert" => {
                let (index, element) = self.index_and_value()?;
                Ok(Call::Insert(index, element))
            }
            "remove" => Ok(Call::Remove(self.index()?)),
            "swap_remove_back" => Ok(Call::SwapRemoveBack(self.index()?)),
            "swap_remove_front" => Ok(Call::SwapRemoveFront(self.index()?)),
            "swap" => {
                let (i, j) = self.indexes()?;
                Ok(Call::Swap(i, j))
            }
            "replace" => {
                let (index, element) = self.index_and_value()?;
                Ok(Call::Replace(index, element))
            }
            "clear" => self.end(Call::Clear),
            "linearize" => self.end(Call::Linearize),
            "extend_back" => Ok(Call::ExtendBack(self.values(alloc)?)),
            "extend_front" => Ok(Call::ExtendFront(self.values(alloc)?)),
            "extend" => Ok(Call::Extend(self.values(alloc)?)),
            "drain" => {
                let (from, to) = self.indexes()?;
                Ok(Call::Drain(from, to))
            }
            "split_off" => Ok(Call::SplitOff(self.index()?)),
            "len" => self.end(Call::Len),
            "capacity" => self.end(Call::Capacity),
            "is_empty" => self.end(Call::IsEmpty),
            "is_full" => self.end(Call::IsFull),
            _ => Err(self.bad()),
        }
    }

    /// The call, if no word is left.
    fn end(mut self, call: Call<i64>) -> Result<Call<i64>, Fault>
        ensures { Tells self.entry.number
            (λ made. (made ≡ call) × (words_of self.entry.rest.now ≡ [])) result }
    {
        match self.word() {
            None => Ok(call),
            Some(_) => Err(self.bad()),
        }
    }

    /// The value that is the one word left.
    fn value(mut self) -> Result<i64, Fault>
        ensures { Tells self.entry.number
            (λ x. AllZip Spells (words_of self.entry.rest.now) (value x ∷ [])) result }
    {
        if let Some(word) = self.word()
            && let Some(value) = value_of(word)
            && self.word().is_none()
        {
            return Ok(value);
        }
        Err(self.bad())
    }

    /// The index that is the one word left.
    fn index(mut self) -> Result<usize, Fault>
        ensures { Tells self.entry.number
            (λ i. AllZip Spells (words_of self.entry.rest.now) (index i ∷ [])) result }
    {
        if let Some(word) = self.word()
            && let Some(index) = index_of(word)
            && self.word().is_none()
        {
            return Ok(index);
        }
        Err(self.bad())
    }

    /// The two indexes that are the words left.
    fn indexes(mut self) -> Result<(usize, usize), Fault>
        ensures { Tells self.entry.number (λ both. AllZip Spells
            (words_of self.entry.rest.now) (index both.0 ∷ index both.1 ∷ [])) result }
    {
        if let Some(first) = self.word()
            && let Some(second) = self.word()
            && let Some(i) = index_of(first)
            && let Some(j) = index_of(second)
            && self.word().is_none()
        {
            return Ok((i, j));
        }
        Err(self.bad())
    }

    /// The index and the value that are the words left.
    fn index_and_value(mut self) -> Result<(usize, i64), Fault>
        ensures { Tells self.entry.number (λ both. AllZip Spells
            (words_of self.entry.rest.now) (index both.0 ∷ value both.1 ∷ [])) result }
    {
        if let Some(first) = self.word()
            && let Some(second) = self.word()
            && let Some(index) = index_of(first)
            && let Some(value) = value_of(second)
            && self.word().is_none()
        {
            return Ok((index, value));
        }
        Err(self.bad())
    }

    /// The values that are the words left.
    fn values(mut self, alloc: Global) -> Result<Vec<i64>, Fault>
        ensures { Tells self.entry.number (λ values.
            AllZip Spells (words_of self.entry.rest.now) (map value values.items)) result }
    {
        let mut values = Vec::new(alloc);
        while let Some(word) = self.word() {
            match value_of(word) {
                Some(value) => values.push(value)?,
                None => return Err(self.bad()),
            }
        }
        Ok(values)
    }

    fn bad(&self) -> Fault
        ensures { result ≡ Fault.Line self.now.number }
    {
        Fault::Line(self.number)
    }
}

/// The value that a word writes. `parse` alone would take a `+` before it.
fn value_of(word: &str) -> Option<i64>
    ensures { MatchOption result ((x : ℤ) → ¬ (Spells word.now (value x)))
        (λ x. Spells word.now (value x)) }
{
    if word.starts_with('+') {
        return None;
    }
    word.parse().ok()
}

/// The index that a word writes.
fn index_of(word: &str) -> Option<usize>
    ensures { MatchOption result ((i : ℕ) → ¬ (Spells word.now (index i)))
        (λ i. Spells word.now (index i)) }
{
    if word.starts_with('+') {
        return None;
    }
    word.parse().ok()
}
