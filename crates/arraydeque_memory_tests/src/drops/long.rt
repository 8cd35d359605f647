//! A thousand items whose list wraps: each is dropped once, in the order in which its call drops.
use arraydeque::{ArrayDeque, Saturating, Wrapping};
use std::alloc::{AllocError, Global};
use std::cell::Cell;
use std::test::Fail;

type Refusing<'a> = ArrayDeque<Numbered<'a>, 1000, Saturating>;

type Displacing<'a> = ArrayDeque<Numbered<'a>, 1000, Wrapping>;

/// What was dropped: how many items, the sum of their numbers, and a sum that their order changes.
#[derive(Drop)]
struct Drops(Cell<(u64, u64, u64)>);

/// An item that notes its drop.
struct Numbered<'a> {
    number: u64,
    drops: &'a Drops,
}

impl Drop for Numbered<'_> {
    fn drop(self) {
        let Numbered { number, drops } = self;
        drops.note(number);
    }
}

impl Drops {
    fn new() -> Drops {
        Drops(Cell::new((0, 0, 0)))
    }

    fn item(&self, number: u64) -> Numbered<'_> {
        Numbered {
            number,
            drops: self,
        }
    }

    fn note(&self, number: u64) {
        let (count, sum, in_order) = self.0.get();
        self.0.set((
            count.wrapping_add(1),
            sum.wrapping_add(number),
            in_order.wrapping_mul(31).wrapping_add(number),
        ));
    }

    /// What was dropped since the last look.
    fn since(&self) -> (u64, u64, u64) {
        self.0.replace((0, 0, 0))
    }

    /// What was dropped since the last look once a value is dropped too.
    fn with<T: Drop>(&self, value: T) -> (u64, u64, u64) {
        drop(value);
        self.since()
    }
}

/// What is noted where the items from one number up to another are dropped in order.
fn up(from: u64, to: u64) -> (u64, u64, u64) {
    let drops = Drops::new();
    for number in from..to {
        drops.note(number);
    }
    drops.since()
}

/// The same from the last to the first.
fn down(from: u64, to: u64) -> (u64, u64, u64) {
    let drops = Drops::new();
    for number in (from..to).rev() {
        drops.note(number);
    }
    drops.since()
}

/// A deque of the items from 0 up to `len`, the first of which stands at the place 600.
fn deque_of(alloc: Global, drops: &Drops, len: u64) -> Result<Refusing<'_>, AllocError> {
    let mut deque = Refusing::new(alloc)?;
    for _ in 0..600 {
        deque.extend_back([drops.item(0)]);
        deque.pop_front();
    }
    deque.extend_back((0..len).map(|number| drops.item(number)));
    drops.since();
    Ok(deque)
}

#[test]
fn a_thousand_drop_front_to_back(rt: HostRuntime) -> Result<(), Fail> {
    let drops = Drops::new();
    assert!(rt; drops.with(deque_of(rt.alloc(), &drops, 1000)?) == up(0, 1000));
    let mut deque = deque_of(rt.alloc(), &drops, 1000)?;
    deque.clear();
    assert!(rt; [drops.since(), drops.with(deque)] == [up(0, 1000), up(0, 0)]);
    let mut deque = deque_of(rt.alloc(), &drops, 1000)?;
    deque.truncate(300);
    assert!(rt; [drops.since(), drops.with(deque)] == [up(300, 1000), up(0, 300)]);
    let mut deque = deque_of(rt.alloc(), &drops, 1000)?;
    deque.truncate_front(300);
    assert!(rt; [drops.since(), drops.with(deque)] == [up(0, 700), up(700, 1000)]);
    let mut deque = deque_of(rt.alloc(), &drops, 1000)?;
    assert!(rt; deque.len() == 1000);
    deque.remove_range(300..900);
    assert!(rt; drops.since() == up(300, 900) && drops.with(deque).0 == 400);
    let mut deque = deque_of(rt.alloc(), &drops, 1000)?;
    deque.retain(|item| item.number < 300 || 900 <= item.number);
    let ((count, sum, _), (left, left_sum, _)) = (drops.since(), drops.with(deque));
    assert!(rt; (count, sum, left, left_sum) == (600, 359_700, 400, 139_800));
    Ok(())
}

#[test]
fn a_thousand_are_displaced_in_turn(rt: HostRuntime) -> Result<(), Fail> {
    let drops = Drops::new();
    let mut deque: Displacing<'_> = deque_of(rt.alloc(), &drops, 1000)?.into();
    deque.extend_back((1000..1700).map(|number| drops.item(number)));
    assert!(rt; [drops.since(), drops.with(deque)] == [up(0, 700), up(700, 1700)]);
    let mut deque: Displacing<'_> = deque_of(rt.alloc(), &drops, 1000)?.into();
    deque.extend_front((1000..1700).map(|number| drops.item(number)));
    let displaced = drops.since();
    deque.truncate(700);
    let (kept, pushed) = (drops.since(), drops.with(deque));
    assert!(rt; [displaced, kept, pushed] == [down(300, 1000), up(0, 300), down(1000, 1700)]);
    let mut other = deque_of(rt.alloc(), &drops, 800)?;
    let mut deque = Displacing::new(rt.alloc())?;
    deque.extend_back((1000..1500).map(|number| drops.item(number)));
    deque.append(&mut other);
    let displaced = drops.since();
    deque.truncate_front(800);
    let kept = drops.since();
    let seen = [displaced, kept, drops.with(deque), drops.with(other)];
    assert!(rt; seen == [up(1000, 1300), up(1300, 1500), up(0, 800), up(0, 0)]);
    Ok(())
}

#[test]
fn what_is_left_of_a_thousand_drops_front_to_back(rt: HostRuntime) -> Result<(), Fail> {
    let drops = Drops::new();
    let mut deque = deque_of(rt.alloc(), &drops, 1000)?;
    assert!(rt; deque.len() == 1000);
    let mut drain = deque.drain(100..900)?;
    let (first, last) = (drain.next(), drain.next_back());
    let left = drops.with(drain);
    let taken = [drops.with(first), drops.with(last)];
    deque.truncate_front(100);
    assert!(rt;
        left == up(101, 899)
            && taken == [up(100, 101), up(899, 900)]
            && [drops.since(), drops.with(deque)] == [up(0, 100), up(900, 1000)]
    );
    let mut items = deque_of(rt.alloc(), &drops, 1000)?.into_iter();
    let (first, last) = (items.next(), items.next_back());
    let left = drops.with(items);
    assert!(rt;
        [left, drops.with(first), drops.with(last)] == [up(1, 999), up(0, 1), up(999, 1000)]
    );
    let mut items = deque_of(rt.alloc(), &drops, 1000)?.into_iter();
    for _ in 0..700 {
        drop(items.next_back());
    }
    assert!(rt; [drops.since(), drops.with(items)] == [down(300, 1000), up(0, 300)]);
    Ok(())
}
