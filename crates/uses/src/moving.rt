//! Items that go from one deque to another, a few at a time.
//!
//! It uses `arraydeque` under `Saturating`, and is proved over the deque's public contract alone:
//! no item is lost, and it stops early only if there is no room or no item.
ghost use Rattle.std.specs.Prelude.{◌≡◌, ◌++◌, ◌+◌, ◌≤◌, ◌<◌, ◌⊎◌, [], length};

use arraydeque::{ArrayDeque, Saturating};

/// Moves up to `count` items from the front of one deque to the back of another, as long as there
/// is room, and returns how many.
pub fn move_some<T, const CAP: usize, const ROOM: usize>(
    from: &mut ArrayDeque<T, CAP, Saturating>,
    to: &mut ArrayDeque<T, ROOM, Saturating>,
    count: usize,
) -> usize
    ensures most { result ≤ count }
    ensures none_lost { to.new.items ++ from.new.items ≡ to.old.items ++ from.old.items }
    ensures moved { length to.new.items ≡ length to.old.items + result }
    ensures as_many { result < count →
        (length to.new.items ≡ ROOM) ⊎ (from.new.items ≡ []) }
{
    let mut moved = 0;
    while moved < count && !to.is_full() {
        match from.pop_front() {
            Some(item) => match to.push_back(item) {
                Ok(()) => moved += 1,
                Err(_) => unreachable!(),
            },
            None => break,
        }
    }
    moved
}
