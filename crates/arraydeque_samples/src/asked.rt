//! Iterators that note how often they are asked.
ghost use Rattle.std.specs.Prelude.{◌≡◌, ◌+◌, ◌%◌, ◌^◌, Some, None, length, drop, slice_get, unwrap_or, pos};
ghost use Rattle.std.specs.Int.{int_wrapping_add, w64};
ghost use Rattle.std.specs.Iterator.{at_most};

/// Counts upwards without end.
#[derive(Drop)]
pub struct Count {
    pub next: i64,
    pub asked: usize,
}

impl Count {
    /// The count from `next` on, not asked yet.
    pub fn from(next: i64) -> Count
        ensures first { result.next ≡ next }
        ensures unasked { result.asked ≡ 0 }
    {
        Count { next, asked: 0 }
    }
}

impl Iterator for Count {
    type Item = i64;

    ghost next_gives = { λ old result new. (result ≡ Some old.next)
        × (new.next ≡ int_wrapping_add w64 old.next (pos 1))
        × (new.asked ≡ (old.asked + 1) % 2 ^ 64) };

    fn next(&mut self) -> Option<i64> {
        let item = self.next;
        self.next = item.wrapping_add(1);
        self.asked = self.asked.wrapping_add(1);
        Some(item)
    }
}

/// Gives the answers that it was made with, a `None` among them too, and `None` ever after.
#[derive(Drop)]
pub struct Script<'a> {
    pub rest: &'a [Option<i64>],
    pub asked: usize,
}

impl<'a> Script<'a> {
    /// An iterator that gives these answers, and `None` after them.
    pub fn of(answers: &'a [Option<i64>]) -> Script<'a>
        ensures answers { result.rest ≡ answers.entry }
        ensures unasked { result.asked ≡ 0 }
    {
        Script {
            rest: answers,
            asked: 0,
        }
    }
}

impl Iterator for Script<'_> {
    type Item = i64;

    ghost next_gives = { λ old result new.
        (result ≡ unwrap_or (slice_get old.rest.now 0) None)
        × (new.rest.now ≡ drop 1 old.rest.now)
        × (new.asked ≡ (old.asked + 1) % 2 ^ 64) };

    ghost remaining = { λ s. at_most (length s.rest.now) };

    fn next(&mut self) -> Option<i64> {
        self.asked = self.asked.wrapping_add(1);
        let (answer, rest) = self.rest.split_first()?;
        self.rest = rest;
        *answer
    }
}
