//! A journal of the last `CAP` entries, which are found by their times.
//!
//! It uses `arraydeque` under `Wrapping`, and is proved over the deque's public contract alone:
//! what it lends of a time on is just the entries of that time and later ones.
ghost use Rattle.std.specs.Prelude.{◌≡◌, ◌<◌, ◌++◌, ◌∷◌, [], ℕ, filter, nat_le, IfOk, OnErr};
ghost use Rattle.std.specs.List.Sorted.{IsNonDecreasingBy};
ghost use Rattle.arraydeque.specs.Deque.{keep_last};

use arraydeque::{ArrayDeque, Iter, Wrapping};
use std::alloc::{AllocError, Global};
use std::marker::Model;

/// The last entries, each with its time, the earliest first.
#[derive(Drop)]
pub struct Journal<T, const CAP: usize> {
    entries: ArrayDeque<(u64, T), CAP, Wrapping>,
}

impl<T, const CAP: usize> Model for Journal<T, CAP> {
    ghost use Rattle.std.specs.Prelude.{ℕ, List};
    ghost use Rattle.std.specs.List.Sorted.{IsNonDecreasingBy};

    ghost Value = { List (ℕ × T) };

    ghost view = { λ journal. journal.entries.items };

    ghost invariant = { λ journal. IsNonDecreasingBy (λ entry. entry.0) journal.entries.items };
}

impl<T: Drop, const CAP: usize> Journal<T, CAP> {
    /// A journal without an entry.
    pub fn new(alloc: Global) -> Result<Self, AllocError>
        ensures empty { IfOk result (λ journal. journal ≡ []) }
        ensures refused { OnErr result (0 < CAP) }
    {
        let entries = ArrayDeque::new(alloc)?;
        Ok(Journal { entries })
    }

    /// Adds an entry, whose time isn't before those there. Of a full journal the earliest one goes.
    pub fn add(&mut self, time: u64, value: T)
        requires in_turn { IsNonDecreasingBy (λ (entry : ℕ × T). entry.0)
            (self.old ++ (time, value) ∷ []) }
        ensures { self.new ≡ keep_last CAP (self.old ++ (time, value) ∷ []) }
    {
        self.entries.push_back((time, value));
    }

    /// The entries of a time and later ones.
    pub fn since(&self, time: u64) -> Iter<'_, (u64, T)>
        ensures { result ≡ filter (λ entry. nat_le time entry.0) self.now }
    {
        let from = self.entries.partition_point(|entry| entry.0 < time);
        self.entries.range(from..)
    }
}
