//! Entries that age, and go when their time is over.
//!
//! It uses `arraydeque` under either policy, and is proved over the deque's public contract alone:
//! each entry that stays has just so much less time left, and each that has none goes.
ghost use Rattle.std.specs.Prelude.{◌≡◌, ◌≤◌, length};
ghost use Rattle.uses.specs.Ageing.{aged};

use arraydeque::ArrayDeque;
use arraydeque::behavior::Behavior;

/// A value, and for how long it still counts.
#[derive(Drop)]
pub struct Entry<T> {
    /// The value.
    pub value: T,
    /// The time that it has left.
    pub left: u64,
}

/// Lets time go by. Entries with no time left then are dropped, and the others keep their order.
pub fn age<T: Drop, const CAP: usize, B: Behavior>(
    entries: &mut ArrayDeque<Entry<T>, CAP, B>,
    elapsed: u64,
)
    ensures aged { entries.new.items ≡ aged elapsed entries.old.items }
    ensures no_longer { length entries.new.items ≤ length entries.old.items }
{
    entries.retain_mut(|entry| {
        entry.left = entry.left.saturating_sub(elapsed);
        entry.left > 0
    });
}
