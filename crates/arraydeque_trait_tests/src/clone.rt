//! Clones of deques, and of items that refuse theirs.
ghost use Rattle.std.specs.Prelude.{◌≡◌};

use arraydeque::{ArrayDeque, Saturating};
use arraydeque_samples::build::{deque_at, holds, is_cut, made, numbers, wrapping_at};
use std::alloc::{AllocError, Global};
use std::cell::{Cell, RefCell};
use std::process::Abort;
use std::test::Fail;

/// The names of the items that were dropped, in order, and how many clones may be made yet.
#[derive(Drop)]
struct Ledger {
    drops: RefCell<Vec<u8>>,
    clones_left: Cell<usize>,
}

impl Ledger {
    fn new(alloc: Global) -> Ledger {
        Ledger {
            drops: RefCell::new(Vec::new(alloc)),
            clones_left: Cell::new(0),
        }
    }

    /// What was dropped since the last look.
    fn since(&self, alloc: Global) -> Result<Vec<u8>, Fail> {
        Ok(self.drops.try_replace(Vec::new(alloc))?)
    }
}

/// An item that notes its drop, and whose clone is refused once no more may be made.
struct Item<'a> {
    name: u8,
    ledger: &'a Ledger,
}

impl Clone for Item<'_> {
    ghost is_clone = { λ item clone. clone ≡ item };

    fn clone(&self) -> Result<Self, AllocError> {
        let left = self.ledger.clones_left.get();
        if left == 0 {
            return Err(AllocError);
        }
        self.ledger.clones_left.set(left - 1);
        Ok(Item {
            name: self.name,
            ledger: self.ledger,
        })
    }
}

impl Drop for Item<'_> {
    fn drop(self) {
        let Item { name, ledger } = self;
        if let Ok(mut names) = ledger.drops.try_borrow_mut() {
            let _ = names.push(name);
        }
    }
}

type Items<'a> = ArrayDeque<Item<'a>, 3, Saturating>;

/// The items 1, 2, 3, the first at the place `start`.
fn three_items<'a>(alloc: Global, ledger: &'a Ledger, start: usize) -> Result<Items<'a>, Fail> {
    let mut deque = Items::<'a>::new(alloc)?;
    for _ in 0..start {
        deque.extend_back([Item { name: 0, ledger }]);
        deque.pop_front();
    }
    deque.extend_back([
        Item { name: 1, ledger },
        Item { name: 2, ledger },
        Item { name: 3, ledger },
    ]);
    Ok(deque)
}

/// Whether the items are 1, 2, 3, front to back.
fn has_three(deque: &Items<'_>) -> bool {
    deque.len() == 3 && (deque[0].name, deque[1].name, deque[2].name) == (1, 2, 3)
}

/// Whether a deque has the items 1, 2, 3, and drops just these.
fn drops_three(alloc: Global, deque: Items<'_>, ledger: &Ledger) -> Result<bool, Fail> {
    let has_three = has_three(&deque) && ledger.since(alloc)?.is_empty();
    drop(deque);
    Ok(ledger.since(alloc)?.as_slice() == [1, 2, 3].as_slice() && has_three)
}

/// Whether a clone ends at the first of its items whose own clone isn't granted, and drops those
/// that it has made.
fn clones_what_is_granted(
    alloc: Global,
    ledger: &Ledger,
    start: usize,
    granted: usize,
) -> Result<bool, Fail> {
    let deque = three_items(alloc, ledger, start)?;
    ledger.since(alloc)?;
    ledger.clones_left.set(granted);
    let is_cloned = match deque.clone() {
        Ok(clones) => granted == 3 && drops_three(alloc, clones, ledger)?,
        Err(_) => Some(ledger.since(alloc)?.as_slice()) == [1, 2, 3].get(..granted),
    };
    Ok(drops_three(alloc, deque, ledger)? && is_cloned)
}

#[test]
fn a_refused_item_ends_the_clone(rt: HostRuntime) -> Result<(), Fail> {
    for start in 0..3 {
        for granted in 0..4 {
            let ledger = Ledger::new(rt.alloc());
            assert!(rt;
                clones_what_is_granted(rt.alloc(), &ledger, start, granted)?,
                "start {start}, {granted} granted"
            );
        }
    }
    Ok(())
}

/// Whether a clone is equal to its deque, and then changes without it.
fn is_of_its_own(alloc: Global, start: usize) -> Result<bool, Fail> {
    let deque = deque_at::<4>(alloc, start, &[1, 2, 3])?;
    let mut clone = deque.clone()?;
    Ok(
        clone == deque
            && clone.push_back(4).is_ok()
            && is_cut(&clone, &[1, 2, 3, 4], &[])
            && holds(&deque, &[1, 2, 3]),
    )
}

#[test]
fn a_clone_is_a_deque_of_its_own(rt: HostRuntime) -> Result<(), Fail> {
    for start in 0..4 {
        assert!(rt; is_of_its_own(rt.alloc(), start)?, "start {start}");
    }
    let deque = made(ArrayDeque::<i64, 16, Saturating>::from_iter(rt.alloc(), 0..16))?;
    assert!(rt; deque.clone()? == deque);
    Ok(())
}

/// Whether the deques of a list from that start have clones of it under either policy.
fn are_cloned<const CAP: usize>(alloc: Global, start: usize, list: &[i64]) -> Result<bool, Fail> {
    let refusing = deque_at::<CAP>(alloc, start, list)?;
    let displacing = wrapping_at::<CAP>(alloc, start, list)?;
    Ok(
        holds(&refusing.clone()?, list)
            && holds(&displacing.clone()?, list)
            && holds(&refusing, list)
            && holds(&displacing, list),
    )
}

/// Clones of each start and length.
fn clone_all<const CAP: usize>(rt: &impl Abort, alloc: Global) -> Result<(), Fail> {
    for start in 0..CAP {
        for len in 0..=CAP {
            let list = numbers(alloc, len)?;
            assert!(rt;
                are_cloned::<CAP>(alloc, start, &list)?,
                "{len} of {CAP}, start {start}"
            );
        }
    }
    Ok(())
}

#[test]
fn clones_of_every_start_and_length(rt: HostRuntime) -> Result<(), Fail> {
    clone_all::<1>(&rt, rt.alloc())?;
    clone_all::<2>(&rt, rt.alloc())?;
    clone_all::<3>(&rt, rt.alloc())?;
    clone_all::<4>(&rt, rt.alloc())?;
    clone_all::<5>(&rt, rt.alloc())?;
    clone_all::<6>(&rt, rt.alloc())?;
    clone_all::<7>(&rt, rt.alloc())?;
    clone_all::<8>(&rt, rt.alloc())
}
