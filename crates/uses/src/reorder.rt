//! A reorder buffer of at most `CAP` pieces: they come in any order, and go out by their numbers.
//!
//! It uses `arraydeque` under `Saturating`, and is proved over the deque's public contract alone:
//! no piece is lost, and none waits behind one of a greater number.
ghost use Rattle.std.specs.Prelude.{◌≡◌, ◌<◌, ◌++◌, ◌∷◌, [], ◌↔◌, ℕ, length, slice_get, option_to_list, IfOk, IfErr, IsOk, OnOk, OnErr};
ghost use Rattle.std.specs.List.Sorted.{IsNonDecreasingBy, IsPermutation};

use arraydeque::{ArrayDeque, Saturating};
use std::alloc::{AllocError, Global};
use std::marker::Model;

/// Pieces that wait, each with its number, the least first.
#[derive(Drop)]
pub struct Reorder<T, const CAP: usize> {
    waiting: ArrayDeque<(u64, T), CAP, Saturating>,
}

impl<T, const CAP: usize> Model for Reorder<T, CAP> {
    ghost use Rattle.std.specs.Prelude.{ℕ, List};
    ghost use Rattle.std.specs.List.Sorted.{IsNonDecreasingBy};

    ghost Value = { List (ℕ × T) };

    ghost view = { λ reorder. reorder.waiting.items };

    ghost invariant = { λ reorder. IsNonDecreasingBy (λ piece. piece.0) reorder.waiting.items };
}

impl<T, const CAP: usize> Reorder<T, CAP> {
    /// A buffer in which no piece waits.
    pub fn new(alloc: Global) -> Result<Self, AllocError>
        ensures empty { IfOk result (λ reorder. reorder ≡ []) }
        ensures refused { OnErr result (0 < CAP) }
    {
        let waiting = ArrayDeque::new(alloc)?;
        Ok(Reorder { waiting })
    }

    /// Has a piece wait behind those of its number and of lesser ones. A full buffer hands it back.
    #[tactic(auto, using(arraydeque::proofs::SortedInsert::insert_rules))]
    pub fn put(&mut self, number: u64, piece: T) -> Result<(), T>
        // If there is room, the piece waits with the others, in order.
        ensures room { IsOk result ↔ (length self.old < CAP) }
        ensures none_lost { OnOk result (IsPermutation ((number, piece) ∷ self.old) self.new) }
        ensures in_order { IsNonDecreasingBy (λ (waiting : ℕ × T). waiting.0) self.new }

        // If the buffer is full, the piece comes back, and nothing changes.
        ensures full { IfErr result (λ back. back ≡ piece) }
        ensures unchanged { OnErr result (self.new ≡ self.old) }
    {
        let behind = self.waiting.partition_point(|other| other.0 <= number);
        match self.waiting.insert(behind, (number, piece)) {
            Ok(()) => Ok(()),
            Err(refusal) => Err(refusal.element.1),
        }
    }

    /// Takes the piece of the least number, if one waits.
    pub fn take(&mut self) -> Option<(u64, T)>
        ensures value { result ≡ slice_get self.old 0 }
        ensures none_lost { option_to_list result ++ self.new ≡ self.old }
    {
        self.waiting.pop_front()
    }
}
