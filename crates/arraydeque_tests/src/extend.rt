//! Extends at both ends, how often they ask, and what they make of hints that aren't to be trusted.
ghost use Rattle.std.specs.Prelude.{◌+◌, ◌^◌, length};
ghost use Rattle.std.specs.Iterator.{at_most};

use crate::asked::{Count, Script};
use crate::build::{deque_at, holds, made, numbers, wrapping_at};
use arraydeque::{ArrayDeque, Saturating, Wrapping};
use std::alloc::Global;
use std::test::Fail;

/// How items are added: by an extend at an end, or by the trait's.
#[derive(Clone, Copy)]
enum Way {
    Back,
    Front,
    Trait,
}

/// A list that is added, and what it leaves in a deque that refuses and in one that displaces.
type Row<'a> = (&'a [i64], &'a [i64], &'a [i64]);

/// Whether lists that are added in turn leave what they should under either policy.
fn extends<const CAP: usize>(
    alloc: Global,
    start: usize,
    items: &[i64],
    way: Way,
    rows: &[Row<'_>],
) -> Result<bool, Fail> {
    let mut saturating = deque_at::<CAP>(alloc, start, items)?;
    let mut wrapping = wrapping_at::<CAP>(alloc, start, items)?;
    let mut are_left = true;
    for &(list, kept, displaced) in rows {
        let (added, pushed) = (list.iter().copied(), list.iter().copied());
        match way {
            Way::Back => {
                saturating.extend_back(added);
                wrapping.extend_back(pushed);
            }
            Way::Front => {
                saturating.extend_front(added);
                wrapping.extend_front(pushed);
            }
            Way::Trait => {
                saturating.extend(added)?;
                wrapping.extend(pushed)?;
            }
        }
        are_left &= holds(&saturating, kept) && holds(&wrapping, displaced);
    }
    Ok(are_left)
}

#[test]
fn three_by_three_into_seven_places(rt: HostRuntime) -> Result<(), Fail> {
    let back: [Row<'_>; 3] = [
        (&[1, 2, 3], &[1, 2, 3], &[1, 2, 3]),
        (&[4, 5, 6], &[1, 2, 3, 4, 5, 6], &[1, 2, 3, 4, 5, 6]),
        (&[7, 8, 9], &[1, 2, 3, 4, 5, 6, 7], &[3, 4, 5, 6, 7, 8, 9]),
    ];
    let front: [Row<'_>; 3] = [
        (&[9, 8, 7], &[7, 8, 9], &[7, 8, 9]),
        (&[6, 5, 4], &[4, 5, 6, 7, 8, 9], &[4, 5, 6, 7, 8, 9]),
        (&[3, 2, 1], &[3, 4, 5, 6, 7, 8, 9], &[1, 2, 3, 4, 5, 6, 7]),
    ];
    assert!(rt;
        extends::<7>(rt.alloc(), 0, &[], Way::Back, &back)?
            && extends::<7>(rt.alloc(), 0, &[], Way::Front, &front)?
    );
    Ok(())
}

#[test]
fn extends_into_three_places(rt: HostRuntime) -> Result<(), Fail> {
    let front: [Row<'_>; 2] = [
        (&[1, 2, 3], &[3, 2, 1], &[3, 2, 1]),
        (&[4, 5], &[3, 2, 1], &[5, 4, 3]),
    ];
    let back: [Row<'_>; 2] = [
        (&[1, 2, 3], &[1, 2, 3], &[1, 2, 3]),
        (&[4, 5], &[1, 2, 3], &[3, 4, 5]),
    ];
    let by_the_trait: [Row<'_>; 2] = [
        (&[], &[1, 2], &[1, 2]),
        (&[3, 4, 5], &[1, 2, 3], &[3, 4, 5]),
    ];
    for start in 0..3 {
        assert!(rt;
            extends::<3>(rt.alloc(), start, &[], Way::Front, &front)?
                && extends::<3>(rt.alloc(), start, &[], Way::Back, &back)?
                && extends::<3>(rt.alloc(), start, &[1, 2], Way::Trait, &by_the_trait)?,
            "start {start}"
        );
    }
    Ok(())
}

/// Whether an endless count is asked once for each free place, and not at all once there is none.
fn asks_for_room(alloc: Global, start: usize, len: usize, way: Way) -> Result<bool, Fail> {
    let mut deque = deque_at::<4>(alloc, start, &numbers(alloc, len)?)?;
    let mut count = Count::from(10);
    for _ in 0..2 {
        match way {
            Way::Front => deque.extend_front(&mut count),
            _ => deque.extend_back(&mut count),
        }
        if !deque.is_full() || count.asked != 4_usize.saturating_sub(len) {
            return Ok(false);
        }
    }
    Ok(true)
}

#[test]
fn an_extend_asks_for_what_it_has_room_for(rt: HostRuntime) -> Result<(), Fail> {
    for start in 0..4 {
        for len in 0..=4 {
            assert!(rt;
                asks_for_room(rt.alloc(), start, len, Way::Back)?
                    && asks_for_room(rt.alloc(), start, len, Way::Front)?,
                "start {start}, length {len}"
            );
        }
    }
    let mut front = deque_at::<3>(rt.alloc(), 0, &[1])?;
    front.extend_front(Count::from(10));
    let mut count = Count::from(10);
    let deque = made(ArrayDeque::<i64, 3, Saturating>::from_iter(rt.alloc(), &mut count))?;
    assert!(rt; holds(&front, &[11, 10, 1]) && count.asked == 3 && holds(&deque, &[10, 11, 12]));
    Ok(())
}

/// An endless count is asked once, for the one free place, and then not at all.
#[test]
fn asks_no_more(rt: HostRuntime) -> Result<(), Fail> {
    let mut deque = deque_at::<3>(rt.alloc(), 0, &[1, 2])?;
    let mut count = Count::from(10);
    for _ in 0..2 {
        deque.extend_back(&mut count);
        assert!(rt; count.asked == 1 && holds(&deque, &[1, 2, 10]));
    }
    Ok(())
}

/// A source that ends early is asked for what it gives, and once more.
#[test]
fn asks_to_an_early_end(rt: HostRuntime) -> Result<(), Fail> {
    for (way, list) in [(Way::Back, [1, 7]), (Way::Front, [7, 1])] {
        let mut deque = deque_at::<4>(rt.alloc(), 0, &[1])?;
        let mut script = Script::of(&[Some(7)]);
        match way {
            Way::Front => deque.extend_front(&mut script),
            _ => deque.extend_back(&mut script),
        }
        assert!(rt; script.asked == 2 && holds(&deque, &list), "{list:?}");
    }
    Ok(())
}

/// Whether the trait's extend under either policy, and the others under the one that displaces, ask
/// so often.
fn asks_to_the_end<const CAP: usize>(
    alloc: Global,
    items: &[i64],
    answers: &[Option<i64>],
    asked: usize,
) -> Result<bool, Fail> {
    let mut saturating = deque_at::<CAP>(alloc, 0, items)?;
    let mut wrapping = wrapping_at::<CAP>(alloc, 0, items)?;
    let mut added = Script::of(answers);
    let mut displacing = Script::of(answers);
    let mut back = Script::of(answers);
    let mut front = Script::of(answers);
    saturating.extend(&mut added)?;
    wrapping.extend(&mut displacing)?;
    wrapping.extend_back(&mut back);
    wrapping.extend_front(&mut front);
    Ok((added.asked, displacing.asked, back.asked, front.asked) == (asked, asked, asked, asked))
}

/// Each item is asked for, and then the end, also where the deque is full.
#[test]
fn an_iterator_is_asked_to_its_end(rt: HostRuntime) -> Result<(), Fail> {
    let rows: [(&[i64], &[Option<i64>], usize); 6] = [
        (&[], &[], 1),
        (&[1, 2, 3], &[], 1),
        (&[1], &[Some(5)], 2),
        (&[1, 2, 3], &[Some(5)], 2),
        (&[1, 2], &[Some(5), Some(6), Some(7), Some(8)], 5),
        (&[1, 2, 3], &[Some(5), Some(6), Some(7), Some(8)], 5),
    ];
    for (items, answers, asked) in rows {
        assert!(rt;
            asks_to_the_end::<3>(rt.alloc(), items, answers, asked)?
                && asks_to_the_end::<0>(rt.alloc(), &[], answers, asked)?,
            "{items:?}, {asked}"
        );
    }
    Ok(())
}

/// Whether makers and extends, under either policy, take what comes before the first `None`.
fn ends_at_none(alloc: Global, answers: &[Option<i64>]) -> Result<bool, Fail> {
    let mut saturating = made(ArrayDeque::<i64, 5, Saturating>::from_iter(
        alloc,
        Script::of(answers),
    ))?;
    let mut wrapping = made(ArrayDeque::<i64, 5, Wrapping>::from_iter(alloc, Script::of(answers)))?;
    let are_made = holds(&saturating, &[1]) && holds(&wrapping, &[1]);
    saturating.clear();
    wrapping.clear();
    saturating.extend_back(Script::of(answers));
    wrapping.extend_back(Script::of(answers));
    let are_extended_back = holds(&saturating, &[1]) && holds(&wrapping, &[1]);
    saturating.clear();
    wrapping.clear();
    saturating.extend_front(Script::of(answers));
    wrapping.extend_front(Script::of(answers));
    let are_extended_front = holds(&saturating, &[1]) && holds(&wrapping, &[1]);
    Ok(are_made && are_extended_back && are_extended_front)
}

#[test]
fn an_iterator_ends_at_its_first_none(rt: HostRuntime) -> Result<(), Fail> {
    let is_ended = ends_at_none(rt.alloc(), &[Some(1), None, Some(2)])?;
    let mut five = ArrayDeque::<i64, 5, Saturating>::new(rt.alloc())?;
    five.extend_back(Script::of(&[Some(1), None, Some(2)]));
    let mut three = deque_at::<3>(rt.alloc(), 0, &[1])?;
    let mut script = Script::of(&[Some(7)]);
    three.extend_back(&mut script);
    assert!(rt; is_ended && holds(&five, &[1]) && script.asked == 2 && holds(&three, &[1, 7]));
    Ok(())
}

/// Gives the items of a slice, and hints that at least so many come.
#[derive(Drop)]
struct Boast<'a> {
    rest: &'a [i64],
    told: usize,
}

impl Boast<'_> {
    /// The items 1 and 2, and the hint that at least so many come.
    fn of_two(told: usize) -> Boast<'static> {
        Boast {
            rest: &[1, 2],
            told,
        }
    }
}

impl Iterator for Boast<'_> {
    type Item = i64;

    ghost remaining = { λ s. at_most (length s.rest.now + 2 ^ 64) };

    fn next(&mut self) -> Option<i64> {
        let (item, rest) = self.rest.split_first()?;
        self.rest = rest;
        Some(*item)
    }

    fn size_hint(&self) -> (usize, Option<usize>) {
        (self.told, None)
    }
}

/// Whether the extends at both ends take what comes, and no hint.
fn extends_alike(alloc: Global, told: usize) -> Result<bool, Fail> {
    let mut deque = deque_at::<3>(alloc, 2, &[0])?;
    deque.extend_back(Boast::of_two(told));
    let mut front = deque_at::<3>(alloc, 2, &[0])?;
    front.extend_front(Boast::of_two(told));
    let mut wrapping = wrapping_at::<3>(alloc, 2, &[8, 9])?;
    wrapping.extend_back(Boast::of_two(told));
    let mut by_trait = deque_at::<3>(alloc, 2, &[8, 9])?;
    by_trait.extend(Boast::of_two(told))?;
    Ok(
        holds(&deque, &[0, 1, 2])
            && holds(&front, &[2, 1, 0])
            && holds(&wrapping, &[9, 1, 2])
            && holds(&by_trait, &[8, 9, 1]),
    )
}

/// Whether the makers of an iterator do.
fn makers_alike(alloc: Global, told: usize) -> Result<bool, Fail> {
    let first = made(ArrayDeque::<i64, 3, Saturating>::from_iter(alloc, Boast::of_two(told)))?;
    let last = made(ArrayDeque::<i64, 1, Wrapping>::from_iter(alloc, Boast::of_two(told)))?;
    Ok(holds(&first, &[1, 2]) && holds(&last, &[2]))
}

#[test]
fn a_hint_has_no_say(rt: HostRuntime) -> Result<(), Fail> {
    for told in [0, 1, 2, 3, 1000, usize::MAX] {
        let are_alike = extends_alike(rt.alloc(), told)? && makers_alike(rt.alloc(), told)?;
        assert!(rt; are_alike, "{told}");
    }
    Ok(())
}
