//! Logs: of the last states, where none stands twice in a row, and of the last lines.
//!
//! They use `arraydeque` under `Wrapping`, and are proved over the deque's public contract alone:
//! what was logged last is the last item.
ghost use Rattle.std.specs.Prelude.{◌≡◌, ◌≢◌, ◌<◌, ◌++◌, ◌∷◌, [], Some, map, OnOk, OnErr};
ghost use Rattle.arraydeque.specs.Deque.{keep_last, last_item};

use arraydeque::{ArrayDeque, Wrapping};
use std::alloc::{AllocError, Global};

/// Logs a state, unless it is the last one logged. Either way it is the last one then.
#[tactic(auto, using(arraydeque::proofs::LastItem::last_item_rules))]
pub fn log<const CAP: usize>(states: &mut ArrayDeque<i64, CAP, Wrapping>, state: i64)
    requires room { 0 < CAP }
    ensures last { last_item states.new.items ≡ Some state }
    ensures again { last_item states.old.items ≡ Some state → states.new ≡ states.old }
    ensures logged { last_item states.old.items ≢ Some state →
        states.new.items ≡ keep_last CAP (states.old.items ++ state ∷ []) }
{
    if states.back() != Some(&state) {
        states.push_back(state);
    }
}

/// Logs a copy of a line's bytes. If memory is refused nothing changes.
#[tactic(auto, using(arraydeque::proofs::KeepLast::keep_last_rules))]
pub fn log_line<const CAP: usize>(
    alloc: Global,
    lines: &mut ArrayDeque<Vec<u8>, CAP, Wrapping>,
    line: &[u8],
) -> Result<(), AllocError>
    ensures logged { OnOk result (map (λ l. l.items) lines.new.items ≡
        keep_last CAP (map (λ l. l.items) lines.old.items ++ line.now ∷ [])) }
    ensures unchanged { OnErr result (lines.new ≡ lines.old) }
{
    let mut copy = Vec::new(alloc);
    copy.extend_from_slice(line)?;
    lines.push_back(copy);
    Ok(())
}
