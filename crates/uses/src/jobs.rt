//! A work queue of at most `CAP` jobs.
//!
//! It uses `arraydeque` under either policy, and is proved over the deque's public contract alone:
//! no job is lost, and each comes out in its turn.
ghost use Rattle.std.specs.Prelude.{◌≡◌, ◌<◌, ◌*◌, ◌++◌, ◌∷◌, [], ◌↔◌, length, IfOk, IfErr, OnErr, OnOk, IsOk, IsNone, option_to_list, slice_get, take, drop};
ghost use Rattle.std.specs.Mem.{type_size};

use arraydeque::behavior::Behavior;
use arraydeque::{ArrayDeque, Saturating, Wrapping};
use std::alloc::{AllocError, Global};
use std::marker::Model;

/// Jobs that wait, the next one first.
#[derive(Drop)]
pub struct Jobs<T, const CAP: usize, B: Behavior> {
    waiting: ArrayDeque<T, CAP, B>,
}

impl<T, const CAP: usize, B: Behavior> Model for Jobs<T, CAP, B> {
    ghost use Rattle.std.specs.Prelude.{List};

    ghost Value = { List T };

    ghost view = { λ jobs. jobs.waiting.items };
}

impl<T, const CAP: usize, B: Behavior> Jobs<T, CAP, B> {
    /// A queue in which no job waits.
    pub fn new(alloc: Global) -> Result<Self, AllocError>
        ensures empty { IfOk result (λ jobs. jobs ≡ []) }
        ensures refused { OnErr result (0 < CAP * type_size T.row) }
    {
        let waiting = ArrayDeque::new(alloc)?;
        Ok(Jobs { waiting })
    }

    /// How many jobs wait.
    pub fn waiting(&self) -> usize
        ensures { result ≡ length self.now }
    {
        self.waiting.len()
    }

    /// Takes the next job, if one waits.
    pub fn take(&mut self) -> Option<T>
        ensures value { result ≡ slice_get self.old 0 }
        ensures none_lost { option_to_list result ++ self.new ≡ self.old }
    {
        self.waiting.pop_front()
    }
}

impl<T, const CAP: usize> Jobs<T, CAP, Saturating> {
    /// Puts a job behind the others. A full queue hands it back.
    pub fn submit(&mut self, job: T) -> Result<(), T>
        // If there is room, the job waits behind the others.
        ensures room { IsOk result ↔ (length self.old < CAP) }
        ensures none_lost { OnOk result (self.new ≡ self.old ++ job ∷ []) }

        // If the queue is full, the job comes back, and nothing changes.
        ensures full { IfErr result (λ back. back ≡ job) }
        ensures unchanged { OnErr result (self.new ≡ self.old) }
    {
        match self.waiting.push_back(job) {
            Ok(()) => Ok(()),
            Err(refusal) => Err(refusal.element),
        }
    }

    /// Puts the next job behind the others.
    pub fn defer(&mut self)
        ensures { self.new ≡ drop 1 self.old ++ take 1 self.old }
    {
        if let Some(job) = self.waiting.pop_front() {
            match self.waiting.push_back(job) {
                Ok(()) => {}
                Err(_) => unreachable!(),
            }
        }
    }
}

impl<T, const CAP: usize> Jobs<T, CAP, Wrapping> {
    /// Puts a job behind the others. A full queue gives up the one that has waited longest.
    pub fn submit(&mut self, job: T) -> Option<T>
        ensures room { IsNone result ↔ (length self.old < CAP) }
        ensures none_lost { option_to_list result ++ self.new ≡ self.old ++ job ∷ [] }
    {
        self.waiting.push_back(job)
    }
}
