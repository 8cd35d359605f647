//! A tree of a few nodes, and a fork that is full.
use std::alloc::Global;
use std::test::Fail;
use uses::tree::Tree;

/// A fork of as many leaves, up to four.
fn fork_of(alloc: Global, leaves: u32) -> Result<Tree, Fail> {
    let mut fork = Tree::fork(alloc)?;
    for label in 0..leaves {
        if fork.graft(Tree::Leaf(label)).is_err() {
            return Ok(fork);
        }
    }
    Ok(fork)
}

#[test]
fn a_full_fork_and_a_leaf_hand_the_branch_back(rt: HostRuntime) -> Result<(), Fail> {
    let mut fork = fork_of(rt.alloc(), 4)?;
    assert!(rt; matches!(fork.graft(Tree::Leaf(7)), Err(Tree::Leaf(7))));
    let mut leaf = Tree::Leaf(1);
    assert!(rt; matches!(leaf.graft(Tree::Leaf(7)), Err(Tree::Leaf(7))));
    Ok(())
}

#[test]
fn nodes_are_counted(rt: HostRuntime) -> Result<(), Fail> {
    let alloc = rt.alloc();
    let mut tree = Tree::fork(alloc)?;
    let mut branch = Tree::fork(alloc)?;
    assert!(rt; branch.graft(Tree::Leaf(1)).is_ok() && branch.graft(Tree::Leaf(2)).is_ok());
    assert!(rt; tree.graft(branch).is_ok() && tree.graft(Tree::Leaf(3)).is_ok());
    assert!(rt; tree.count_nodes() == 5);
    Ok(())
}
