//! A sliding window over the last `CAP` samples, with their sum.
//!
//! It uses `arraydeque` under `Wrapping`, and is proved over the deque's public contract alone: the
//! window is the last `CAP` of all samples pushed, and the sum is theirs.
ghost use Rattle.std.specs.Prelude.{◌≡◌, ◌≤◌, ◌^◌, ◌++◌, ◌∷◌, [], length, sum, IfOk, OnErr, ◌<◌};
ghost use Rattle.arraydeque.specs.Deque.{keep_last};

use arraydeque::{ArrayDeque, Wrapping};
use std::alloc::{AllocError, Global};
use std::marker::Model;

/// The last `CAP` samples, oldest first.
#[derive(Drop)]
pub struct Window<const CAP: usize> {
    recent: ArrayDeque<u32, CAP, Wrapping>,
    total: u64,
}

impl<const CAP: usize> Model for Window<CAP> {
    ghost use Rattle.std.specs.Prelude.{ℕ, List};
    ghost use Rattle.uses.specs.Window.{Totals};

    ghost Value = { List ℕ };

    ghost view = { λ w. w.recent.items };

    ghost invariant = { λ w. Totals CAP w.recent.items w.total };
}

impl<const CAP: usize> Window<CAP> {
    /// A window that has seen no sample. It requires a `CAP` small enough for the sum to fit.
    pub fn new(alloc: Global) -> Result<Self, AllocError>
        requires fits { CAP ≤ 2 ^ 32 }
        ensures empty { IfOk result (λ window. window ≡ []) }
        ensures refused { OnErr result (0 < CAP) }
    {
        let recent = ArrayDeque::new(alloc)?;
        Ok(Window { recent, total: 0 })
    }

    /// How many samples are in the window.
    pub fn count(&self) -> usize
        ensures { result ≡ length self.now }
    {
        self.recent.len()
    }

    /// The sum of the samples in the window.
    pub fn sum(&self) -> u64
        ensures { result ≡ sum self.now }
    {
        self.total
    }

    /// Pushes a sample. The oldest one leaves a full window.
    pub fn push(&mut self, sample: u32)
        ensures { self.new ≡ keep_last CAP (self.old ++ sample ∷ []) }
    {
        let left = self.recent.push_back(sample).unwrap_or(0);
        self.total = self.total + sample as u64 - left as u64;
    }

    /// Pushes samples in their order.
    pub fn push_all(&mut self, samples: &[u32])
        ensures { self.new ≡ keep_last CAP (self.old ++ samples.now) }
    {
        // This borrow makes it known that the samples fit the capacity.
        let _recent = &self.recent;
        for &sample in samples {
            self.push(sample);
        }
    }
}
