//! A filter over signed samples: each output is a sum of the last ones, weighted by coefficients.
//!
//! It uses `arraydeque` under `Wrapping`, and is proved over the deque's public contract alone.
//! Each output is exact, because no product and no sum overflows.
ghost use Rattle.std.specs.Prelude.{◌≡◌, ◌≤◌, ◌<◌, ◌^◌, ◌∷◌, [], take, IfOk, OnErr};
ghost use Rattle.uses.specs.Filter.{dot};

use arraydeque::{ArrayDeque, Wrapping};
use std::alloc::{AllocError, Global};

/// The coefficients, and the last `TAPS` samples, newest first.
#[derive(Drop)]
pub struct Filter<const TAPS: usize> {
    pub coefficients: [i16; TAPS],
    pub recent: ArrayDeque<i16, TAPS, Wrapping>,
    ghost few: { TAPS ≤ 2 ^ 32 },
}

impl<const TAPS: usize> Filter<TAPS> {
    /// A filter that has heard no sample. It requires so few coefficients that each sum fits.
    pub fn new(alloc: Global, coefficients: [i16; TAPS]) -> Result<Self, AllocError>
        requires few { TAPS ≤ 2 ^ 32 }
        ensures coefficients { IfOk result (λ filter.
            filter.coefficients ≡ coefficients.entry) }
        ensures silent { IfOk result (λ filter. filter.recent.items ≡ []) }
        ensures refused { OnErr result (0 < TAPS) }
    {
        let recent = ArrayDeque::<i16, TAPS, Wrapping>::new(alloc)?;
        Ok(Filter {
            coefficients,
            recent,
        })
    }

    /// Hears a sample, and returns the output then.
    pub fn next(&mut self, sample: i16) -> i64
        ensures heard { self.new.recent.items ≡ take TAPS (sample ∷ self.old.recent.items) }
        ensures output { result ≡ dot self.new.coefficients self.new.recent.items }
        ensures coefficients { self.new.coefficients ≡ self.old.coefficients }
    {
        self.recent.push_front(sample);
        self.output()
    }

    /// The first coefficient times the newest sample, the second times the one before, and so on,
    /// added up.
    pub fn output(&self) -> i64
        ensures { result ≡ dot self.now.coefficients self.now.recent.items }
    {
        let mut output = 0;
        for age in 0..self.recent.len() {
            output += self.coefficients[age] as i64 * self.recent[age] as i64;
        }
        output
    }
}
