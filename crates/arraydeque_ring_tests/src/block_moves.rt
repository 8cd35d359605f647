//! Runs of values that move in a region, beside what each place is to hold afterwards.
ghost use Rattle.std.specs.Prelude.{◌≡◌, ◌<◌, ◌⊎◌, length, true, IfOk};
ghost use Rattle.arraydeque_ring.specs.Moved.{MeetAtOneEndAtMost, IsFilledRound, IsFreeRound, distance, held_after};
ghost use Rattle.arraydeque_ring.specs.Places.{IsFilled, IsEmpty};

use arraydeque_ring::slots::Slots;
use std::alloc::{AllocError, Global};
use std::process::Abort;
use std::test::Fail;

/// A region whose places hold what the row has.
fn region_of(alloc: Global, row: &[Option<u8>]) -> Result<Slots<u8>, AllocError>
    ensures { IfOk result (λ slots. slots.places ≡ row.now) }
{
    let mut slots = Slots::<u8>::new(alloc, row.len())?;
    for place in 0..row.len() {
        if let Some(value) = row[place] {
            slots.put(place, value);
        }
    }
    Ok(slots)
}

/// How many places on from one place another is, round the end.
fn places_between(row: &[Option<u8>], from: usize, to: usize) -> usize
    requires from { from < length row.now }
    requires to { to < length row.now }
    ensures { result ≡ distance from to (length row.now) }
{
    (to + (row.len() - from)) % row.len()
}

/// What a place holds once a run of the row has moved.
fn held_then(row: &[Option<u8>], dst: usize, src: usize, len: usize, place: usize) -> Option<u8>
    requires dst { dst < length row.now }
    requires src { src < length row.now }
    requires place { place < length row.now }
    ensures { result ≡ held_after dst src len row.now place }
{
    let offset = places_between(row, dst, place);
    if offset < len {
        return row[(src + offset) % row.len()];
    }
    if places_between(row, src, place) < len {
        return None;
    }
    row[place]
}

/// Whether a place holds a value.
fn is_filled(row: &[Option<u8>], place: usize) -> bool
    requires { place < length row.now }
    ensures { result ≡ true → IsFilled row.now place }
{
    match row[place] {
        Some(_) => true,
        None => false,
    }
}

/// Whether a place is a source or holds nothing.
fn is_free(row: &[Option<u8>], src: usize, len: usize, place: usize) -> bool
    requires src { src < length row.now }
    requires place { place < length row.now }
    ensures { result ≡ true → (distance src place (length row.now) < len) ⊎ IsEmpty row.now place }
{
    if places_between(row, src, place) < len {
        return true;
    }
    match row[place] {
        Some(_) => false,
        None => true,
    }
}

/// Ends the test unless the run may move.
fn assert_movable(rt: &impl Abort, row: &[Option<u8>], dst: usize, src: usize, len: usize)
    requires dst { dst < length row.now }
    requires src { src < length row.now }
    ensures apart { MeetAtOneEndAtMost dst src len (length row.now) }
    ensures filled { IsFilledRound src len row.now }
    ensures free { IsFreeRound dst src len row.now }
{
    let distance = places_between(row, src, dst);
    assert!(rt; len <= row.len());
    assert!(rt; len <= distance || distance + len <= row.len());
    for k in 0..len {
        let filled = is_filled(row, (src + k) % row.len());
        let free = is_free(row, src, len, (dst + k) % row.len());
        assert!(rt; filled);
        assert!(rt; free);
    }
}

/// Moves a run in a region that holds what the row has, and compares each place that holds a value
/// then.
fn move_beside(
    rt: &impl Abort,
    alloc: Global,
    row: &[Option<u8>],
    dst: usize,
    src: usize,
    len: usize,
) -> Result<(), Fail> {
    assert!(rt; dst < row.len() && src < row.len());
    assert_movable(rt, row, dst, src, len);
    let mut slots = region_of(alloc, row)?;
    slots.wrap_move(dst, src, len);
    for place in 0..row.len() {
        if let Some(value) = held_then(row, dst, src, len, place) {
            assert_eq!(rt;
                slots.take(place),
                value,
                "{dst} {src} {len}: place {place}"
            );
        }
    }
    Ok(())
}

/// Whether the place is one of the `len` from `from` on, round the end.
fn is_among(capacity: usize, from: usize, len: usize, place: usize) -> bool {
    if from >= capacity || place >= capacity || capacity > 6 {
        return false;
    }
    (place + (capacity - from)) % capacity < len
}

/// A region of `capacity` places: each source holds its own number, the other targets nothing, and
/// each place outside source and target nothing, or a number of its own where these are filled.
fn row_of(
    capacity: usize,
    dst: usize,
    src: usize,
    len: usize,
    are_filled: bool,
) -> [Option<u8>; 6] {
    let mut row = [None; 6];
    for place in 0..6 {
        if is_among(capacity, src, len, place) {
            row[place] = Some(place as u8);
        } else if are_filled && !is_among(capacity, dst, len, place) {
            row[place] = Some(place as u8 + 10);
        }
    }
    row
}

/// Every move that may be made in a region of 1 to 6 places, with the places outside source and
/// target once all empty and once all filled.
#[test]
fn every_move_in_small_regions(rt: HostRuntime) -> Result<(), Fail> {
    for capacity in 1..=6usize {
        for dst in 0..capacity {
            for src in 0..capacity {
                let distance = (dst + (capacity - src)) % capacity;
                for len in 0..=capacity {
                    if len <= distance || distance + len <= capacity {
                        for are_filled in [false, true] {
                            let row = row_of(capacity, dst, src, len, are_filled);
                            move_beside(&rt, rt.alloc(), &row[..capacity], dst, src, len)?;
                        }
                    }
                }
            }
        }
    }
    Ok(())
}

/// A row of eight places, a move by its three numbers, and the row that it leaves.
type Case = ([Option<u8>; 8], (usize, usize, usize), [Option<u8>; 8]);

const E: Option<u8> = None;

const A: Option<u8> = Some(b'a');

const B: Option<u8> = Some(b'b');

const C: Option<u8> = Some(b'c');

const D: Option<u8> = Some(b'd');

#[test]
fn moves_in_eight_places(rt: HostRuntime) -> Result<(), Fail> {
    let cases: [Case; 6] = [
        (
            [C, E, E, E, E, E, A, B],
            (7, 6, 3),
            [B, C, E, E, E, E, E, A],
        ),
        (
            [E, A, B, C, E, E, E, E],
            (7, 1, 3),
            [B, C, E, E, E, E, E, A],
        ),
        (
            [B, C, D, E, E, E, E, A],
            (6, 7, 4),
            [C, D, E, E, E, E, A, B],
        ),
        (
            [E, E, A, B, E, E, E, E],
            (5, 2, 2),
            [E, E, E, E, E, A, B, E],
        ),
        (
            [E, E, E, E, E, A, E, E],
            (5, 5, 1),
            [E, E, E, E, E, A, E, E],
        ),
        (
            [E, E, E, E, A, B, E, E],
            (0, 4, 0),
            [E, E, E, E, A, B, E, E],
        ),
    ];
    for (before, (dst, src, len), after) in cases {
        assert!(rt; dst < 8 && src < 8);
        for place in 0..8 {
            assert_eq!(rt; held_then(&before, dst, src, len, place), after[place]);
        }
        move_beside(&rt, rt.alloc(), &before, dst, src, len)?;
    }
    Ok(())
}
