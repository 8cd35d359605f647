//! A limiter: at most `CAP` requests within a span of time.
//!
//! It uses `arraydeque` under `Saturating`, and is proved over the deque's public contract alone: a
//! request is admitted exactly if fewer than `CAP` of those admitted before are recent.
ghost use Rattle.std.specs.Prelude.{◌≡◌, ◌<◌, ◌++◌, ◌∷◌, [], ◌↔◌, length, IsTrue, IfOk, OnErr};
ghost use Rattle.std.specs.List.Sorted.{IsNonDecreasing};
ghost use Rattle.uses.specs.Limiter.{recent};

use arraydeque::{ArrayDeque, Saturating};
use std::alloc::{AllocError, Global};
use std::marker::Model;

/// The times at which the last requests were admitted, oldest first.
#[derive(Drop)]
pub struct Limiter<const CAP: usize> {
    span: u64,
    admitted: ArrayDeque<u64, CAP, Saturating>,
}

impl<const CAP: usize> Model for Limiter<CAP> {
    ghost use Rattle.uses.specs.Limiter.{Admitted};

    ghost Value = { Admitted };

    ghost view = { λ limiter. record { span = limiter.span; times = limiter.admitted.items } };
}

impl<const CAP: usize> Limiter<CAP> {
    /// A limiter that has admitted no request yet.
    pub fn new(alloc: Global, span: u64) -> Result<Self, AllocError>
        ensures fresh { IfOk result (λ limiter. limiter ≡ record { span = span; times = [] }) }
        ensures refused { OnErr result (0 < CAP) }
    {
        let admitted = ArrayDeque::new(alloc)?;
        Ok(Limiter { span, admitted })
    }

    /// Admits a request at a time, or returns `false` if `CAP` requests were admitted within the
    /// span before it.
    pub fn admit(&mut self, now: u64) -> bool
        // If fewer than `CAP` requests are recent, this one is admitted.
        ensures possible { IsTrue result
            ↔ (length (recent self.old.span now self.old.times) < CAP) }
        ensures admitted { IsTrue result →
            self.new.times ≡ recent self.old.span now self.old.times ++ now ∷ [] }

        // If not, it is refused. Either way only recent ones are remembered.
        ensures refused { ¬ IsTrue result →
            self.new.times ≡ recent self.old.span now self.old.times }
        ensures span { self.new.span ≡ self.old.span }
    {
        let span = self.span;
        self.admitted
            .retain(|time| now.saturating_sub(*time) < span);
        self.admitted.push_back(now).is_ok()
    }

    /// As `admit`, at a time that isn't before those admitted: only the requests that are no longer
    /// recent are asked about, and the first that is.
    pub fn admit_in_turn(&mut self, now: u64) -> bool
        requires in_turn { IsNonDecreasing (self.old.times ++ now ∷ []) }

        // If fewer than `CAP` requests are recent, this one is admitted.
        ensures possible { IsTrue result
            ↔ (length (recent self.old.span now self.old.times) < CAP) }
        ensures admitted { IsTrue result →
            self.new.times ≡ recent self.old.span now self.old.times ++ now ∷ [] }

        // If not, it is refused. Either way only recent ones are remembered.
        ensures refused { ¬ IsTrue result →
            self.new.times ≡ recent self.old.span now self.old.times }
        ensures span { self.new.span ≡ self.old.span }
    {
        let span = self.span;
        while self
            .admitted
            .pop_front_if(|time| span <= now.saturating_sub(*time))
            .is_some()
        {}
        self.admitted.push_back(now).is_ok()
    }
}
