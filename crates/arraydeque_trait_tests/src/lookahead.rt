//! A scanner's answers, and how often it asks its iterator.
use arraydeque::lookahead::Scanner;
use arraydeque_samples::asked::{Count, Script};
use arraydeque_samples::build::made;
use std::alloc::Global;
use std::cell::Cell;
use std::test::Fail;

/// An iterator that notes, for others to see, how often it is asked.
#[derive(Drop)]
struct Watched<'a, I> {
    iter: I,
    asked: &'a Cell<usize>,
}

impl<'a, I> Watched<'a, I> {
    fn by(asked: &'a Cell<usize>, iter: I) -> Watched<'a, I> {
        Watched { iter, asked }
    }
}

impl<I: Iterator> Iterator for Watched<'_, I> {
    type Item = I::Item;

    ghost can_next = { λ s. I.can_next s.iter };

    fn next(&mut self) -> Option<I::Item> {
        self.asked.set(self.asked.get().wrapping_add(1));
        self.iter.next()
    }
}

/// A call of a scanner.
#[derive(Clone, Copy)]
enum Call {
    Peek(usize),
    /// The next items, up to so many, as the digits of a number.
    Ahead(usize),
    Next,
    /// How many of the next items, up to so many, went.
    Advance(usize),
    /// The next item, if it is below this.
    NextBelow(i64),
    Unread(i64),
}

/// Whether a scanner answers the calls so. With each stand its answer, which is what comes back of
/// an `unread`, and how often the iterator was asked by then.
fn scans<I: Iterator<Item = i64>, const CAP: usize>(
    scanner: &mut Scanner<I, CAP>,
    asked: &Cell<usize>,
    calls: &[(Call, Option<i64>, usize)],
) -> bool {
    if asked.get() != 0 {
        return false;
    }
    for &(call, answer, times) in calls {
        let got = match call {
            Call::Peek(k) if k < CAP => scanner.peek(k).copied(),
            Call::Peek(_) => return false,
            Call::Ahead(count) if count <= CAP => {
                let there = scanner.read_ahead(count);
                let number_of = |number: i64, item: &i64| {
                    number.saturating_mul(10).saturating_add(*item)
                };
                Some(scanner.ahead(there).fold(0, number_of))
            }
            Call::Ahead(_) => return false,
            Call::Next => scanner.next(),
            Call::Advance(count) => i64::try_from(scanner.advance(count)).ok(),
            Call::NextBelow(limit) if 0 < CAP => scanner.next_if(|item| *item < limit),
            Call::NextBelow(_) => return false,
            Call::Unread(item) => match scanner.unread(item) {
                Ok(()) => None,
                Err(refusal) => Some(refusal.element),
            },
        };
        if (got, asked.get()) != (answer, times) {
            return false;
        }
    }
    true
}

/// Whether a scanner gives the input, and what was put back.
fn gives_the_input_and_what_was_put_back(alloc: Global) -> Result<bool, Fail> {
    let calls = [
        (Call::Peek(1), Some(2), 2),
        (Call::Next, Some(1), 2),
        (Call::Unread(9), None, 2),
        (Call::Unread(8), Some(8), 2),
        (Call::Next, Some(9), 2),
        (Call::Next, Some(2), 2),
        (Call::Next, Some(3), 3),
        (Call::Next, None, 4),
    ];
    let asked = Cell::new(0);
    let iter = Watched::by(&asked, Script::of(&[Some(1), Some(2), Some(3)]));
    let mut scanner = made(Scanner::<_, 2>::new(alloc, iter))?;
    Ok(scans(&mut scanner, &asked, &calls))
}

/// Whether one of no capacity hands back each item.
fn hands_back_each_item(alloc: Global) -> Result<bool, Fail> {
    let calls = [
        (Call::Next, Some(1), 1),
        (Call::Unread(9), Some(9), 1),
        (Call::Next, Some(2), 2),
        (Call::Next, None, 3),
    ];
    let asked = Cell::new(0);
    let iter = Watched::by(&asked, Script::of(&[Some(1), Some(2)]));
    let mut scanner = made(Scanner::<_, 0>::new(alloc, iter))?;
    Ok(scans(&mut scanner, &asked, &calls))
}

/// Whether one asks no more after the first `None`.
fn asks_no_more_after_the_first_none(alloc: Global) -> Result<bool, Fail> {
    let calls = [
        (Call::Peek(2), None, 2),
        (Call::Peek(0), Some(1), 2),
        (Call::Next, Some(1), 2),
        (Call::Next, None, 2),
        (Call::Unread(7), None, 2),
        (Call::Next, Some(7), 2),
        (Call::Next, None, 2),
    ];
    let asked = Cell::new(0);
    let iter = Watched::by(&asked, Script::of(&[Some(1), None, Some(2)]));
    let mut scanner = made(Scanner::<_, 3>::new(alloc, iter))?;
    Ok(scans(&mut scanner, &asked, &calls))
}

/// Whether one asks for no more than it wants.
fn asks_for_no_more_than_it_wants(alloc: Global) -> Result<bool, Fail> {
    let calls = [
        (Call::Peek(1), Some(11), 2),
        (Call::Peek(0), Some(10), 2),
        (Call::Next, Some(10), 2),
        (Call::Peek(1), Some(12), 3),
    ];
    let asked = Cell::new(0);
    let iter = Watched::by(&asked, Count::from(10));
    let mut scanner = made(Scanner::<_, 2>::new(alloc, iter))?;
    Ok(scans(&mut scanner, &asked, &calls))
}

/// Whether an item that isn't accepted stays the next one, and is asked for once.
fn leaves_what_is_not_accepted(alloc: Global) -> Result<bool, Fail> {
    let calls = [
        (Call::NextBelow(5), Some(1), 1),
        (Call::NextBelow(5), None, 2),
        (Call::NextBelow(5), None, 2),
        (Call::NextBelow(10), Some(9), 2),
        (Call::Unread(3), None, 2),
        (Call::NextBelow(3), None, 2),
        (Call::Next, Some(3), 2),
        (Call::NextBelow(5), None, 3),
        (Call::NextBelow(5), None, 3),
        (Call::Next, None, 3),
    ];
    let asked = Cell::new(0);
    let iter = Watched::by(&asked, Script::of(&[Some(1), Some(9), None, Some(2)]));
    let mut scanner = made(Scanner::<_, 1>::new(alloc, iter))?;
    Ok(scans(&mut scanner, &asked, &calls))
}

/// Whether several items are looked at and dropped together, and no more are asked for.
fn looks_at_several_and_drops_several(alloc: Global) -> Result<bool, Fail> {
    let calls = [
        (Call::Ahead(0), Some(0), 0),
        (Call::Ahead(2), Some(12), 2),
        (Call::Ahead(1), Some(1), 2),
        (Call::Advance(1), Some(1), 2),
        (Call::Unread(9), None, 2),
        (Call::Ahead(3), Some(923), 3),
        (Call::Advance(0), Some(0), 3),
        (Call::Advance(5), Some(5), 5),
        (Call::Ahead(2), Some(6), 7),
        (Call::Ahead(3), Some(6), 7),
        (Call::Advance(2), Some(1), 7),
        (Call::Advance(2), Some(0), 7),
        (Call::Next, None, 7),
    ];
    let asked = Cell::new(0);
    let input = [
        Some(1),
        Some(2),
        Some(3),
        Some(4),
        Some(5),
        Some(6),
        None,
        Some(7),
    ];
    let iter = Watched::by(&asked, Script::of(&input));
    let mut scanner = made(Scanner::<_, 3>::new(alloc, iter))?;
    Ok(scans(&mut scanner, &asked, &calls))
}

#[test]
fn scanners_answer_and_ask_as_they_should(rt: HostRuntime) -> Result<(), Fail> {
    assert!(rt; gives_the_input_and_what_was_put_back(rt.alloc())?);
    assert!(rt; hands_back_each_item(rt.alloc())?);
    assert!(rt; asks_no_more_after_the_first_none(rt.alloc())?);
    assert!(rt; asks_for_no_more_than_it_wants(rt.alloc())?);
    assert!(rt; leaves_what_is_not_accepted(rt.alloc())?);
    assert!(rt; looks_at_several_and_drops_several(rt.alloc())?);
    Ok(())
}
