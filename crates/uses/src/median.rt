//! The running median of the last `CAP` samples.
//!
//! It uses `arraydeque` twice: under `Wrapping` for the samples as they came, and under
//! `Saturating` for the same in order. It is proved over the deque's public contract alone: the
//! median is the middle of the window's samples in order.
ghost use Rattle.std.specs.Prelude.{◌≡◌, ◌<◌, ◌++◌, ◌∷◌, [], length, option_to_list, IfOk, IfSome};
ghost use Rattle.std.specs.List.{Contains};
ghost use Rattle.std.specs.List.Sorted.{IsNonDecreasing, IsPermutation};
ghost use Rattle.arraydeque.specs.Deque.{keep_last};
ghost use Rattle.uses.specs.Median.{IsMedian};

use arraydeque::{ArrayDeque, Saturating, Wrapping};
use std::alloc::{AllocError, Global};
use std::marker::Model;

/// The last `CAP` samples, oldest first, and beside them the same in order.
#[derive(Drop)]
pub struct Median<const CAP: usize> {
    recent: ArrayDeque<u32, CAP, Wrapping>,
    ordered: ArrayDeque<u32, CAP, Saturating>,
}

impl<const CAP: usize> Model for Median<CAP> {
    ghost use Rattle.std.specs.Prelude.{ℕ, List};
    ghost use Rattle.uses.specs.Median.{Ordered};

    ghost Value = { List ℕ };

    ghost view = { λ m. m.recent.items };

    ghost invariant = { λ m. Ordered CAP m.recent.items m.ordered.items };
}

impl<const CAP: usize> Median<CAP> {
    /// A window that has seen no sample. It requires room for one.
    pub fn new(alloc: Global) -> Result<Self, AllocError>
        requires room { 0 < CAP }
        ensures empty { IfOk result (λ median. median ≡ []) }
    {
        let recent = ArrayDeque::new(alloc)?;
        let ordered = ArrayDeque::new(alloc)?;
        Ok(Median { recent, ordered })
    }

    /// Adds a sample. The oldest one leaves a full window.
    pub fn push(&mut self, sample: u32)
        ensures { self.new ≡ keep_last CAP (self.old ++ sample ∷ []) }
    {
        let oldest = self.recent.push_back(sample);
        take_out_given(&mut self.ordered, oldest);
        put_in(&mut self.ordered, sample);
    }

    /// The middle of the window's samples in order, or `None` of none.
    pub fn median(&self) -> Option<u32>
        ensures { IsMedian self.now result }
    {
        self.ordered.get(self.ordered.len() / 2).copied()
    }
}

/// Takes a sample out, if one is given. It requires that it is there.
fn take_out_given<const CAP: usize>(
    ordered: &mut ArrayDeque<u32, CAP, Saturating>,
    sample: Option<u32>,
)
    requires rises { IsNonDecreasing ordered.old.items }
    requires there { IfSome sample (Contains ordered.old.items) }
    ensures none_lost { IsPermutation ordered.old.items
        (option_to_list sample ++ ordered.new.items) }
    ensures rises { IsNonDecreasing ordered.new.items }
{
    if let Some(sample) = sample {
        take_out(ordered, sample);
    }
}

/// Takes out one sample that equals `sample`. It requires that there is one.
fn take_out<const CAP: usize>(ordered: &mut ArrayDeque<u32, CAP, Saturating>, sample: u32)
    requires rises { IsNonDecreasing ordered.old.items }
    requires there { Contains ordered.old.items sample }
    ensures none_lost { IsPermutation ordered.old.items (sample ∷ ordered.new.items) }
    ensures rises { IsNonDecreasing ordered.new.items }
{
    let index = ordered.partition_point(|other| *other < sample);
    ordered.remove(index);
}

/// Puts a sample behind those that equal it. It requires room for it.
#[tactic(auto, using(arraydeque::proofs::SortedInsert::insert_rules))]
fn put_in<const CAP: usize>(ordered: &mut ArrayDeque<u32, CAP, Saturating>, sample: u32)
    requires rises { IsNonDecreasing ordered.old.items }
    requires room { length ordered.old.items < CAP }
    ensures none_lost { IsPermutation (sample ∷ ordered.old.items) ordered.new.items }
    ensures rises { IsNonDecreasing ordered.new.items }
{
    let behind = ordered.partition_point(|other| *other <= sample);
    match ordered.insert(behind, sample) {
        Ok(()) => {}
        Err(_) => unreachable!(),
    }
}
