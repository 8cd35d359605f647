//! Places that are counted round the end of a region.
ghost use Rattle.std.specs.Prelude.{◌≡◌, ◌+◌, ◌%◌, ◌<◌, ◌≤◌};
ghost use Rattle.arraydeque_ring.specs.Loans.{place_from};

/// Returns the place `offset` places after `place`, round the end of a region of `capacity` places.
/// If the capacity is a power of two, the place is found by a mask, otherwise by a branch, which a
/// processor predicts if places come in a row. Each of the two makes the workload `queue` faster.
#[inline(always)] // So a caller's constant capacity chooses mask or branch.
pub(crate) fn wrap_add(place: usize, offset: usize, capacity: usize) -> usize
    requires in_region { place < capacity }
    requires in_reach { offset ≤ capacity }
    ensures { result ≡ (place + offset) % capacity }
{
    if capacity & (capacity - 1) == 0 {
        return (place + offset) & (capacity - 1);
    }
    let to_end = capacity - place;
    if offset < to_end {
        place + offset
    } else {
        offset - to_end
    }
}

/// Returns where the places from the index `from` on begin, if they are read from `start` on. That
/// is the place of the index, or the region's end instead of the first place.
#[inline]
pub(crate) fn place_from(start: usize, from: usize, capacity: usize) -> usize
    requires in_region { start ≤ capacity }
    requires in_reach { from ≤ capacity }
    ensures { result ≡ place_from start from capacity }
{
    let to_end = capacity - start;
    if from <= to_end {
        start + from
    } else {
        from - to_end
    }
}
