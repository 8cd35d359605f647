//! Bytes copied out of a deque, and into one, all of them or a line.
//!
//! It uses `arraydeque` as a reader and a writer, and is proved over the deque's public contract
//! alone: what was copied is all that was there, or the line. When a copy fails, std's `copy`
//! doesn't say.
ghost use Rattle.std.specs.Prelude.{◌≡◌, ◌++◌, [], length, OnOk, IfOk};
ghost use Rattle.std.specs.Io.BufRead.{take_through, drop_through};

use arraydeque::behavior::Behavior;
use arraydeque::{ArrayDeque, Saturating};
use std::io::{self, BufRead};

/// Moves all bytes behind those of a vector, and returns their number.
pub fn pour<const CAP: usize, B: Behavior>(
    from: &mut ArrayDeque<u8, CAP, B>,
    into: &mut Vec<u8>,
) -> io::Result<u64>
    ensures bytes { OnOk result (into.new.items ≡ into.old.items ++ from.old.items) }
    ensures emptied { OnOk result (from.new.items ≡ []) }
    ensures count { IfOk result (λ count. count ≡ length from.old.items) }
{
    // This call makes it known that the number of bytes fits a `u64`.
    let _len = from.len();
    io::copy(from, into)
}

/// Moves all bytes behind those of another deque, and returns their number. If that one has too
/// little room it fails, full, and the other bytes are lost.
pub fn pour_over<const CAP: usize, const N: usize, B: Behavior>(
    from: &mut ArrayDeque<u8, CAP, B>,
    into: &mut ArrayDeque<u8, N, Saturating>,
) -> io::Result<u64>
    ensures bytes { OnOk result (into.new.items ≡ into.old.items ++ from.old.items) }
    ensures emptied { OnOk result (from.new.items ≡ []) }
    ensures count { IfOk result (λ count. count ≡ length from.old.items) }
{
    // This call makes it known that the number of bytes fits a `u64`.
    let _len = from.len();
    io::copy(from, into)
}

/// Takes the first line out, with its line feed (10), or all if there is none, and puts it behind
/// the bytes of a vector. Returns how many bytes these were.
pub fn take_line<const CAP: usize, B: Behavior>(
    from: &mut ArrayDeque<u8, CAP, B>,
    into: &mut Vec<u8>,
) -> io::Result<usize>
    ensures taken { OnOk result
        (into.new.items ≡ into.old.items ++ take_through 10 from.old.items) }
    ensures left { OnOk result (from.new.items ≡ drop_through 10 from.old.items) }
    ensures count { IfOk result (λ count. count ≡ length (take_through 10 from.old.items)) }
{
    from.read_until(b'\n', into)
}
