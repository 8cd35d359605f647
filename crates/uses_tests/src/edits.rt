//! Runs of edits, with a look-ahead of one edit and of several.
use arraydeque::lookahead::Scanner;
use std::alloc::Global;
use std::test::Fail;
use uses::edits::Edit::{Delete, Insert, Keep};
use uses::edits::{Edit, Run, merge};

const EDITS: [Edit; 7] = [Keep, Delete, Delete, Insert, Insert, Insert, Keep];

/// Whether the edits are merged into these runs.
fn are_merged<const AHEAD: usize>(alloc: Global, runs: &[(Edit, usize)]) -> Result<bool, Fail> {
    if AHEAD == 0 {
        return Ok(false);
    }
    let mut edits = Scanner::<_, AHEAD>::new(alloc, EDITS.iter().copied())?;
    let merged = merge(alloc, &mut edits)?;
    let runs = runs.iter().map(|run| Run {
        edit: run.0,
        count: run.1,
    });
    Ok(merged.iter().copied().eq(runs))
}

#[test]
fn edits_of_one_kind_are_merged(rt: HostRuntime) -> Result<(), Fail> {
    let whole = [(Keep, 1), (Delete, 2), (Insert, 3), (Keep, 1)];
    let by_two = [(Keep, 1), (Delete, 2), (Insert, 2), (Insert, 1), (Keep, 1)];
    assert!(rt; are_merged::<4>(rt.alloc(), &whole)? && are_merged::<2>(rt.alloc(), &by_two)?);
    Ok(())
}
