//! A window's maximum, by the peaks of its samples: those that no later one exceeds.
//!
//! It uses `arraydeque` under `Saturating`, and is proved over the deque's public contract alone:
//! whatever samples are in the window, the first peak is the largest.
ghost use Rattle.std.specs.Prelude.{◌≡◌, ◌<◌, ◌++◌, ◌∷◌, [], ℕ, List, length, IfOk, IfErr, IsOk, OnOk, OnErr};
ghost use Rattle.uses.specs.Peaks.{largest, peaks_of};

use arraydeque::{ArrayDeque, CapacityError, Saturating};
use std::alloc::{AllocError, Global};
use std::marker::Model;

/// The peaks of the samples in a window, oldest first.
#[derive(Drop)]
pub struct Peaks<const CAP: usize> {
    peaks: ArrayDeque<u32, CAP, Saturating>,
}

impl<const CAP: usize> Model for Peaks<CAP> {
    ghost use Rattle.std.specs.Prelude.{ℕ, List};

    ghost Value = { List ℕ };

    ghost view = { λ peaks. peaks.peaks.items };
}

impl<const CAP: usize> Peaks<CAP> {
    /// The peaks of no samples.
    pub fn new(alloc: Global) -> Result<Self, AllocError>
        ensures empty { IfOk result (λ peaks. peaks ≡ peaks_of []) }
        ensures refused { OnErr result (0 < CAP) }
    {
        let peaks = ArrayDeque::new(alloc)?;
        Ok(Peaks { peaks })
    }

    /// The largest sample in the window.
    pub fn largest(&self) -> Option<u32>
        // Of whichever `samples` these are the peaks, it is the largest.
        ensures { (samples : List ℕ) → self.now ≡ peaks_of samples → result ≡ largest samples }
    {
        self.peaks.front().copied()
    }

    /// A sample comes into the window, behind the others. It is refused only if there are `CAP`
    /// peaks, which it takes a window of as many samples for; then nothing has changed.
    pub fn enter(&mut self, sample: u32) -> Result<(), CapacityError<u32>>
        // If there is room, it comes in: the peaks are those of the `samples` before, and of it.
        ensures room { length self.old < CAP → IsOk result }
        ensures peaks { OnOk result ((samples : List ℕ) → self.old ≡ peaks_of samples →
            self.new ≡ peaks_of (samples ++ sample ∷ [])) }

        // If it is refused, it comes back, and nothing changes.
        ensures full { IfErr result (λ refusal. refusal.element ≡ sample) }
        ensures unchanged { OnErr result (self.new ≡ self.old) }
    {
        // This call makes it known that the peaks fit the capacity.
        let _len = self.peaks.len();
        while self.peaks.pop_back_if(|peak| *peak < sample).is_some() {}
        self.peaks.push_back(sample)
    }

    /// The oldest sample leaves the window.
    pub fn leave(&mut self, sample: u32)
        // Whichever `samples` are left, the new peaks are theirs.
        ensures { (samples : List ℕ) → self.old ≡ peaks_of (sample ∷ samples) →
            self.new ≡ peaks_of samples }
    {
        let _left = self.peaks.pop_front_if(|peak| *peak == sample);
    }
}
