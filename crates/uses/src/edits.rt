//! Edits of a text, of which those of one kind in a row become one.
//!
//! It uses `arraydeque::lookahead::Scanner`, and is proved over the scanner's public contract
//! alone: the runs, written out, are the edits, so none is lost, and no two side by side could be
//! one.
ghost use Rattle.std.specs.Prelude.{◌≡◌, ◌≢◌, ◌<◌, ◌≤◌, [], length, take, drop, slice_get, replicate, All, IfOk, IfErr, IfSome, IfNone, ⊤};
ghost use Rattle.std.specs.Iterator.{IsFinite, MakesProgress};
ghost use Rattle.std.specs.Option.{option_to_list};
ghost use Rattle.arraydeque.specs.Lookahead.{HasRest, TakesOff, NextIs};
ghost use Rattle.uses.specs.Edits.{written_out, AreMerged};

use arraydeque::lookahead::Scanner;
use arraydeque::{Iter, MakeError};
use std::alloc::Global;

/// What becomes of the next line of a text.
#[derive(Clone, Copy, Debug, PartialEq, Eq)]
pub enum Edit {
    /// It stays.
    Keep,
    /// It goes.
    Delete,
    /// Another one comes before it.
    Insert,
}

/// Edits of one kind in a row.
#[derive(Clone, Copy, Debug, PartialEq, Eq)]
pub struct Run {
    /// Their kind.
    pub edit: Edit,
    /// Their number.
    pub count: usize,
}

/// Merges all edits that a scanner has left into runs, none longer than it can look ahead. If
/// memory is refused, the edits taken so far come back in the error, as runs, and the scanner has
/// the others.
///
/// It requires a scanner that can look at least one edit ahead.
pub fn merge<I: Iterator<Item = Edit>, const AHEAD: usize>(
    alloc: Global,
    edits: &mut Scanner<I, AHEAD>,
) -> Result<Vec<Run>, MakeError<Vec<Run>>>
    requires ahead { 0 < AHEAD }
    requires ends { IsFinite edits.old.left }

    // If memory is granted, all are merged, as far as can be.
    ensures none_lost { IfOk result (λ runs.
        HasRest I.next_gives edits.old (written_out runs.items)) }
    ensures within { IfOk result (λ runs. All (λ run. run.count ≤ AHEAD) runs.items) }
    ensures merged { IfOk result (λ runs. AreMerged AHEAD runs.items) }

    // If memory is refused, the edits taken come back.
    ensures source { IfErr result (λ refusal.
        TakesOff I.next_gives edits.old (written_out refusal.source.items) edits.new) }

    // The input still ends.
    ensures ends { IsFinite edits.new.left }
{
    let mut runs = Vec::new(alloc);
    while runs.reserve(1).is_ok() {
        let Some(run) = next_run(edits) else {
            return Ok(runs);
        };
        runs.push_reserved(run);
    }
    Err(MakeError { source: runs })
}

/// Takes the edits of one kind that come next, or returns `None` at the end.
pub fn next_run<I: Iterator<Item = Edit>, const AHEAD: usize>(
    edits: &mut Scanner<I, AHEAD>,
) -> Option<Run>
    requires ahead { 0 < AHEAD }

    // If edits are left, the next ones of one kind are taken, up to `AHEAD` of them.
    ensures taken { let runs = option_to_list result in
        TakesOff I.next_gives edits.old (written_out runs) edits.new }
    ensures some { IfSome result (λ run. 0 < run.count) }
    ensures within { IfSome result (λ run. run.count ≤ AHEAD) }
    ensures longest { IfSome result (λ run. run.count < AHEAD →
        NextIs I.next_gives (λ edit. edit ≢ run.edit) edits.new) }

    // If none comes, none was left.
    ensures over { IfNone result (HasRest I.next_gives edits.old []) }

    // A loop over it ends: each run leaves fewer edits.
    ensures goes { MakesProgress (λ _. ⊤) (λ s. s.left) edits.old result edits.new }
{
    let there = edits.read_ahead(AHEAD);
    let edit = *edits.ahead(there).next()?;
    let count = count_equal(edits.ahead(there), edit);
    edits.advance(count);
    Some(Run { edit, count })
}

/// How many edits equal `edit`, before the first that doesn't.
fn count_equal(edits: Iter<'_, Edit>, edit: Edit) -> usize
    ensures bound { result ≤ length edits.entry }
    ensures equal { take result edits.entry ≡ replicate result edit }
    ensures other { IfSome (slice_get (drop result edits.entry) 0) (λ other. other ≢ edit) }
{
    // This call makes it known that their number fits a `usize`.
    let _len = edits.len();
    let mut count = 0;
    for other in edits {
        if *other != edit {
            break;
        }
        count += 1;
    }
    count
}
