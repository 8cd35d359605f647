//! A tree in which a fork has at most four branches.
//!
//! It is a type that holds deques of itself, and is proved over the deque's public contract alone:
//! a tree's nodes are counted, and a branch that finds no room comes back.
ghost use Rattle.std.specs.Prelude.{◌≡◌, ◌+◌, ◌++◌, ◌∷◌, [], ◌^◌, ◌<◌, length, Some, IsOk, IsSomeAnd, IfSome, IfOk, IfErr, OnErr, OnOk, ◌↔◌};
ghost use Rattle.uses.specs.Tree.{branches_of, node_count};

use arraydeque::{ArrayDeque, Saturating};
use std::alloc::{AllocError, Global};

/// A leaf, or a fork with its branches.
#[derive(Drop)]
pub enum Tree {
    Leaf(u32),
    Fork(ArrayDeque<Tree, 4, Saturating>),
}

impl Tree {
    /// A fork without branches.
    pub fn fork(alloc: Global) -> Result<Tree, AllocError>
        ensures nodes { IfOk result (λ tree. node_count tree ≡ 1) }
        ensures branches { IfOk result (λ tree. branches_of tree ≡ Some []) }
    {
        let branches = ArrayDeque::new(alloc)?;
        Ok(Tree::Fork(branches))
    }

    /// Puts a branch behind the others. A full fork hands it back, and so does a leaf.
    pub fn graft(&mut self, branch: Tree) -> Result<(), Tree>
        // If the fork has room, the branch is its last one.
        ensures room { IsOk result ↔ IsSomeAnd (branches_of self.old) (λ branches.
            length branches < 4) }
        ensures branches { OnOk result (IfSome (branches_of self.old) (λ branches.
            branches_of self.new ≡ Some (branches ++ branch ∷ []))) }
        ensures nodes { OnOk result
            (node_count self.new ≡ node_count self.old + node_count branch) }

        // If it is refused, it comes back, and nothing changes.
        ensures full { IfErr result (λ back. back ≡ branch) }
        ensures unchanged { OnErr result (self.new ≡ self.old) }
    {
        match self {
            Tree::Leaf(_) => Err(branch),
            Tree::Fork(branches) => match branches.push_back(branch) {
                Ok(()) => Ok(()),
                Err(refusal) => Err(refusal.element),
            },
        }
    }

    /// How many nodes there are, leaves and forks.
    pub fn count_nodes(&self) -> usize
        requires fits { node_count self.now < 2 ^ 64 }
        ensures { result ≡ node_count self.now }
    {
        let mut count = 1;
        if let Tree::Fork(branches) = self {
            for branch in branches {
                count += branch.count_nodes();
            }
        }
        count
    }
}
