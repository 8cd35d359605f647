//! A history of states with at most `CAP` steps to undo.
//!
//! It uses `arraydeque` under `Wrapping`, and is proved over the deque's public contract alone:
//! with `CAP` above 0 an undo after a step gives the state before it back, and no state is lost by
//! an undo or a redo.
ghost use Rattle.std.specs.Prelude.{◌≡◌, ◌<◌, ◌++◌, ◌∷◌, [], ◌↔◌, length, IsTrue, IfOk, OnErr, ◌*◌};
ghost use Rattle.std.specs.Mem.{type_size};
ghost use Rattle.arraydeque.specs.Deque.{keep_last};

use arraydeque::{ArrayDeque, Wrapping};
use std::alloc::{AllocError, Global};
use std::marker::Model;
use std::mem;

/// The present state, those before it, and those that were undone.
#[derive(Drop)]
pub struct History<T, const CAP: usize> {
    past: ArrayDeque<T, CAP, Wrapping>,
    present: T,
    undone: ArrayDeque<T, CAP, Wrapping>,
}

impl<T, const CAP: usize> Model for History<T, CAP> {
    ghost use Rattle.std.specs.Prelude.{◌≤◌, ◌+◌, length};
    ghost use Rattle.uses.specs.History.{Timeline};

    ghost Value = { Timeline T };

    ghost view = { λ h. record {
      past = h.past.items;
      present = h.present;
      undone = h.undone.items;
    } };

    ghost invariant = { λ h. length h.past.items + length h.undone.items ≤ CAP };
}

impl<T: Drop, const CAP: usize> History<T, CAP> {
    /// A history of one state.
    pub fn new(alloc: Global, present: T) -> Result<Self, AllocError>
        ensures fresh { IfOk result (λ history. history ≡
            record { past = []; present = present; undone = [] }) }
        ensures refused { OnErr result (0 < CAP * type_size T.row) }
    {
        let past = ArrayDeque::new(alloc)?;
        let undone = ArrayDeque::new(alloc)?;
        Ok(History {
            past,
            present,
            undone,
        })
    }

    /// The present state.
    pub fn present(&self) -> &T
        ensures { result.now ≡ self.now.present }
    {
        &self.present
    }

    /// Goes on to a new state. What was undone is gone, and of the past the last `CAP` states stay.
    pub fn step(&mut self, state: T)
        ensures present { self.new.present ≡ state }
        ensures past { self.new.past ≡ keep_last CAP (self.old.past ++ self.old.present ∷ []) }
        ensures undone { self.new.undone ≡ [] }
    {
        self.undone.clear();
        let before = mem::replace(&mut self.present, state);
        drop(self.past.push_back(before));
    }
}

impl<T, const CAP: usize> History<T, CAP> {
    /// Goes one state back, and returns whether there was one.
    pub fn undo(&mut self) -> bool
        // If there is a past state, the last one is the present one then, and this one is undone.
        ensures possible { IsTrue result ↔ (0 < length self.old.past) }
        ensures back { IsTrue result → self.old.past ≡ self.new.past ++ self.new.present ∷ [] }
        ensures kept { IsTrue result → self.new.undone ≡ self.old.present ∷ self.old.undone }

        // If there is none, nothing changes.
        ensures unchanged { ¬ IsTrue result → self.new ≡ self.old }
    {
        let Some(state) = self.past.pop_back() else {
            return false;
        };
        let undone = mem::replace(&mut self.present, state);
        match self.undone.push_front(undone) {
            None => true,
            Some(_) => unreachable!(),
        }
    }

    /// Goes one state on again, and returns whether one was undone.
    pub fn redo(&mut self) -> bool
        // If a state was undone, it is the present one then, and this one is the last past one.
        ensures possible { IsTrue result ↔ (0 < length self.old.undone) }
        ensures on { IsTrue result → self.old.undone ≡ self.new.present ∷ self.new.undone }
        ensures kept { IsTrue result → self.new.past ≡ self.old.past ++ self.old.present ∷ [] }

        // If none was, nothing changes.
        ensures unchanged { ¬ IsTrue result → self.new ≡ self.old }
    {
        let Some(state) = self.undone.pop_front() else {
            return false;
        };
        let before = mem::replace(&mut self.present, state);
        match self.past.push_back(before) {
            None => true,
            Some(_) => unreachable!(),
        }
    }
}
