//! Which items are dropped, and in which order.
mod handed_out;
mod long;

use crate::build::made;
use arraydeque::lookahead::Scanner;
use arraydeque::{ArrayDeque, Saturating, Wrapping};
use std::alloc::{AllocError, Global};
use std::cell::Cell;
use std::test::Fail;

/// The names of the items that were dropped, in order, as the digits of a number.
#[derive(Drop)]
struct Drops(Cell<u64>);

/// An item that notes its drop. Its name is a digit.
struct Noted<'a> {
    name: u64,
    drops: &'a Drops,
}

impl Drops {
    fn new() -> Drops {
        Drops(Cell::new(0))
    }

    fn item(&self, name: u64) -> Noted<'_> {
        Noted { name, drops: self }
    }

    /// What was dropped since the last look.
    fn since(&self) -> u64 {
        self.0.replace(0)
    }

    /// What was dropped since the last look once a value is dropped too.
    fn with<T: Drop>(&self, value: T) -> u64 {
        drop(value);
        self.since()
    }
}

impl Drop for Noted<'_> {
    fn drop(self) {
        let Noted { name, drops } = self;
        let names = drops.0.get();
        drops.0.set(names.wrapping_mul(10).wrapping_add(name));
    }
}

/// A deque of the items 1 to `len`, the first of which stands at the place `start`.
fn deque_at<'a, const CAP: usize>(
    alloc: Global,
    drops: &'a Drops,
    start: usize,
    len: u64,
) -> Result<ArrayDeque<Noted<'a>, CAP, Saturating>, AllocError> {
    let mut deque = ArrayDeque::<Noted<'a>, CAP, Saturating>::new(alloc)?;
    for _ in 0..start {
        deque.extend_back([drops.item(0)]);
        deque.pop_front();
    }
    for name in 1..=len {
        deque.extend_back([drops.item(name)]);
    }
    Ok(deque)
}

/// A vector of items of these names.
fn vector_of<'a>(
    alloc: Global,
    drops: &'a Drops,
    names: &[u64],
) -> Result<Vec<Noted<'a>>, AllocError> {
    let mut items = Vec::new(alloc);
    for name in names {
        items.push(drops.item(*name))?;
    }
    Ok(items)
}

/// Whether the name of an item is even.
fn is_even(item: &Noted<'_>) -> bool {
    item.name % 2 == 0
}

#[test]
fn whole_deques_drop_front_to_back(rt: HostRuntime) -> Result<(), Fail> {
    let drops = Drops::new();
    for start in 0..5 {
        let of_two = drops.with(deque_at::<128>(rt.alloc(), &drops, 0, 2)?);
        let of_four = drops.with(deque_at::<4>(rt.alloc(), &drops, start, 4)?);
        let mut deque = deque_at::<5>(rt.alloc(), &drops, start, 5)?;
        deque.clear();
        let seen = [of_two, of_four, drops.since(), drops.with(deque)];
        assert!(rt; seen == [12, 1234, 12345, 0], "start {start}");
        let mut deque = deque_at::<5>(rt.alloc(), &drops, start, 5)?;
        deque.retain(is_even);
        let (gone, left) = (drops.since(), drops.with(deque));
        let is_each_once = [135, 153, 315, 351, 513, 531].contains(&gone);
        assert!(rt; is_each_once && left == 24, "{gone}, start {start}");
    }
    Ok(())
}

#[test]
fn each_written_item_that_goes_drops_once(rt: HostRuntime) -> Result<(), Fail> {
    let drops = Drops::new();
    for start in 0..5 {
        let mut deque = deque_at::<5>(rt.alloc(), &drops, start, 5)?;
        drops.since();
        deque.retain_mut(|item| {
            let stays = is_even(item);
            item.name = item.name.wrapping_add(4);
            stays
        });
        let (gone, left) = (drops.since(), drops.with(deque));
        let is_each_once = [579, 597, 759, 795, 957, 975].contains(&gone);
        assert!(rt; is_each_once && left == 68, "{gone}, start {start}");
    }
    Ok(())
}

/// What a truncate to the first two of 1 to 5 drops, one to the last two, and the deques left.
#[test]
fn truncates_drop_front_to_back(rt: HostRuntime) -> Result<(), Fail> {
    let drops = Drops::new();
    for start in 0..5 {
        let mut first = deque_at::<5>(rt.alloc(), &drops, start, 5)?;
        let mut last = deque_at::<5>(rt.alloc(), &drops, start, 5)?;
        drops.since();
        first.truncate(2);
        let of_first = [drops.since(), drops.with(first)];
        last.truncate_front(2);
        let of_last = [drops.since(), drops.with(last)];
        assert!(rt;
            [of_first, of_last] == [[345, 12], [123, 45]],
            "start {start}"
        );
    }
    Ok(())
}

/// What a range of the items 1 to 5 drops when it is removed, and the deque that is left.
#[test]
fn a_removed_range_drops_front_to_back(rt: HostRuntime) -> Result<(), Fail> {
    let drops = Drops::new();
    for start in 0..5 {
        let mut deque = deque_at::<5>(rt.alloc(), &drops, start, 5)?;
        drops.since();
        assert!(rt; deque.len() == 5);
        deque.remove_range(1..4);
        let gone = drops.since();
        assert!(rt; [gone, drops.with(deque)] == [234, 15], "start {start}");
    }
    Ok(())
}

/// What an append of the items 1 to 5 to a deque of the items 8 and 9 drops, and what the deque and
/// the other drop then.
fn append_to<const CAP: usize>(
    alloc: Global,
    drops: &Drops,
    start: usize,
) -> Result<[u64; 3], AllocError> {
    let mut other = deque_at::<5>(alloc, drops, start, 5)?;
    let mut deque = ArrayDeque::<Noted<'_>, CAP, Wrapping>::new(alloc)?;
    deque.extend_back([drops.item(8), drops.item(9)]);
    drops.since();
    deque.append(&mut other);
    Ok([drops.since(), drops.with(deque), drops.with(other)])
}

#[test]
fn appends_drop_what_is_displaced(rt: HostRuntime) -> Result<(), Fail> {
    let drops = Drops::new();
    for start in 0..5 {
        let of_eight = append_to::<8>(rt.alloc(), &drops, start)?;
        let of_six = append_to::<6>(rt.alloc(), &drops, start)?;
        let of_three = append_to::<3>(rt.alloc(), &drops, start)?;
        let of_none = append_to::<0>(rt.alloc(), &drops, start)?;
        assert!(rt;
            [of_eight, of_six, of_three, of_none]
                == [
                    [0, 8912345, 0],
                    [8, 912345, 0],
                    [8912, 345, 0],
                    [12345, 0, 0]
                ],
            "start {start}"
        );
    }
    Ok(())
}

/// The item 1 goes to a deque with room for one, and the others stay.
#[test]
fn an_append_with_little_room_drops_nothing(rt: HostRuntime) -> Result<(), Fail> {
    let drops = Drops::new();
    for start in 0..5 {
        let mut other = deque_at::<5>(rt.alloc(), &drops, start, 5)?;
        let mut deque = ArrayDeque::<Noted<'_>, 3, Saturating>::new(rt.alloc())?;
        deque.extend_back([drops.item(8), drops.item(9)]);
        drops.since();
        deque.append(&mut other);
        let seen = [drops.since(), drops.with(deque), drops.with(other)];
        assert!(rt; seen == [0, 891, 2345], "start {start}");
    }
    Ok(())
}

#[test]
fn pops_and_refused_pushes_drop_nothing(rt: HostRuntime) -> Result<(), Fail> {
    let drops = Drops::new();
    let mut deque = deque_at::<3>(rt.alloc(), &drops, 0, 3)?;
    let refused_back = deque.push_back(drops.item(4));
    let refused_front = deque.push_front(drops.item(5));
    let popped_front = deque.pop_front();
    let popped_back = deque.pop_back();
    let before = drops.since();
    drop(refused_front);
    drop(refused_back);
    drop(popped_back);
    drop(popped_front);
    assert!(rt; [before, drops.with(deque)] == [0, 54312]);
    Ok(())
}

#[test]
fn pops_that_ask_first_drop_nothing(rt: HostRuntime) -> Result<(), Fail> {
    let drops = Drops::new();
    for start in 0..3 {
        let mut deque = deque_at::<3>(rt.alloc(), &drops, start, 3)?;
        drops.since();
        let kept = deque.pop_front_if(|item| is_even(item));
        let popped = deque.pop_back_if(|item| !is_even(item));
        let before = drops.since();
        let seen = [
            before,
            drops.with(kept),
            drops.with(popped),
            drops.with(deque),
        ];
        assert!(rt; seen == [0, 0, 3, 12], "start {start}");
    }
    Ok(())
}

#[test]
fn surplus_and_displaced_items_are_dropped(rt: HostRuntime) -> Result<(), Fail> {
    let drops = Drops::new();
    let mut deque: ArrayDeque<_, 3, Wrapping> = deque_at::<3>(rt.alloc(), &drops, 0, 3)?.into();
    deque.extend_back([drops.item(4), drops.item(5)]);
    let first = drops.since();
    deque.extend_front([drops.item(6), drops.item(7)]);
    let displaced = [first, drops.since(), drops.with(deque)];
    let mut deque = deque_at::<3>(rt.alloc(), &drops, 0, 2)?;
    let extended = deque.extend([drops.item(3), drops.item(4), drops.item(5)]);
    let surplus = drops.since();
    let mut deque: ArrayDeque<_, 3, Wrapping> = deque.into();
    let extended_again = deque.extend([drops.item(6), drops.item(7)]);
    let first = drops.since();
    let mut deque: ArrayDeque<_, 3, Saturating> = deque.into();
    deque.extend_back([drops.item(8)]);
    deque.extend_front([drops.item(9)]);
    let seen = [surplus, first, drops.since(), drops.with(deque)];
    assert!(rt;
        extended.is_ok()
            && extended_again.is_ok()
            && displaced == [12, 54, 763]
            && seen == [45, 12, 89, 367]
    );
    Ok(())
}

#[test]
fn a_drain_drops_what_is_left(rt: HostRuntime) -> Result<(), Fail> {
    let drops = Drops::new();
    let mut deque = deque_at::<5>(rt.alloc(), &drops, 0, 4)?;
    assert!(rt; deque.len() == 4);
    let drain = deque.drain(1..3);
    let seen = [drops.since(), drops.with(drain), drops.with(deque)];
    let mut deque = deque_at::<5>(rt.alloc(), &drops, 0, 5)?;
    assert!(rt; seen == [0, 23, 14] && deque.len() == 5);
    let mut drain = deque.drain(1..4)?;
    let last = drain.next_back();
    let left = drops.with(drain);
    drop(last);
    assert!(rt; [left, drops.with(deque)] == [23, 415]);
    Ok(())
}

#[test]
fn an_advance_drops_what_goes(rt: HostRuntime) -> Result<(), Fail> {
    let drops = Drops::new();
    let items = vector_of(rt.alloc(), &drops, &[1, 2, 3, 4, 5])?;
    let mut scanner = made(Scanner::<_, 2>::new(rt.alloc(), items.into_iter()))?;
    let there = scanner.read_ahead(2);
    let gone = scanner.advance(3);
    let seen = [drops.since(), drops.with(scanner)];
    assert!(rt; (there, gone) == (2, 3) && seen == [123, 45]);
    Ok(())
}

#[test]
fn vectors_and_boxes_drop_their_items(rt: HostRuntime) -> Result<(), Fail> {
    let drops = Drops::new();
    let items = vector_of(rt.alloc(), &drops, &[1, 2, 3, 4, 5])?;
    let deque = ArrayDeque::<Noted<'_>, 3, Saturating>::from_vec(rt.alloc(), items);
    let refusing = [drops.since(), drops.with(deque)];
    let items = vector_of(rt.alloc(), &drops, &[1, 2, 3, 4, 5])?;
    let deque = ArrayDeque::<Noted<'_>, 3, Wrapping>::from_vec(rt.alloc(), items);
    let displacing = [drops.since(), drops.with(deque)];
    assert!(rt; refusing == [45, 123] && displacing == [12, 345]);
    let mut deque = ArrayDeque::<Vec<Noted<'_>>, 3, Saturating>::new(rt.alloc())?;
    let rows: [(&[u64], bool, u64); 4] = [
        (&[1], false, 0),
        (&[2, 3], false, 0),
        (&[], false, 0),
        (&[4], true, 4),
    ];
    for (names, is_refused, dropped) in rows {
        let refused = deque
            .push_back(vector_of(rt.alloc(), &drops, names)?)
            .is_err();
        assert!(rt;
            refused == is_refused && drops.since() == dropped,
            "{names:?}"
        );
    }
    let last = drops.with(deque.pop_back());
    let seen = [last, drops.with(deque.pop_back()), drops.with(deque)];
    let boxes = Some(ArrayDeque::<Box<()>, 100, Saturating>::new(rt.alloc())?);
    assert!(rt; seen == [0, 23, 1] && boxes.is_some());
    Ok(())
}
