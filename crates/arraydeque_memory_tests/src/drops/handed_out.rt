//! What an owned iterator, a run, and a refusal that becomes another error drop, and what moves or
//! changes places without a drop.
use super::{Drops, deque_at};
use arraydeque::run::Call;
use arraydeque::{ArrayDeque, MakeError, Wrapping};
use std::alloc::AllocError;
use std::io;
use std::test::Fail;

#[test]
fn iterators_and_splits_drop_what_is_left(rt: HostRuntime) -> Result<(), Fail> {
    let drops = Drops::new();
    for start in 0..5 {
        let mut items = deque_at::<5>(rt.alloc(), &drops, start, 5)?.into_iter();
        let (first, last) = (items.next(), items.next_back());
        let before = drops.since();
        let left = drops.with(items);
        drop(last);
        let ends = drops.with(first);
        let mut items = deque_at::<4>(rt.alloc(), &drops, start, 4)?.into_iter();
        drop(items.next());
        let seen = [
            before,
            left,
            ends,
            drops.with(items.next_back()),
            drops.with(items),
        ];
        let mut deque = deque_at::<4>(rt.alloc(), &drops, start, 4)?;
        assert!(rt;
            seen == [0, 234, 51, 14, 23] && deque.len() == 4,
            "start {start}"
        );
        let rest = deque.split_off(1);
        let seen = [drops.since(), drops.with(deque), drops.with(rest)];
        assert!(rt; seen == [0, 1, 234], "start {start}");
    }
    Ok(())
}

#[test]
fn edits_drop_nothing(rt: HostRuntime) -> Result<(), Fail> {
    let drops = Drops::new();
    let mut deque = deque_at::<5>(rt.alloc(), &drops, 3, 4)?;
    assert!(rt; deque.len() == 4);
    let inserted = deque.insert(1, drops.item(5)).is_ok();
    deque.linearize();
    assert!(rt; deque.len() == 5);
    deque.swap(0, 4);
    let by_the_back = deque.swap_remove_back(0);
    let by_the_front = deque.swap_remove_front(1);
    let before = drops.since();
    drop(by_the_back);
    let seen = [before, drops.with(by_the_front), drops.with(deque)];
    assert!(rt; inserted && seen == [0, 45, 123]);
    Ok(())
}

#[test]
fn rotations_drop_nothing(rt: HostRuntime) -> Result<(), Fail> {
    let drops = Drops::new();
    for start in 0..5 {
        let mut full = deque_at::<4>(rt.alloc(), &drops, start, 4)?;
        let mut with_room = deque_at::<5>(rt.alloc(), &drops, start, 4)?;
        drops.since();
        assert!(rt; full.len() == 4 && with_room.len() == 4);
        full.rotate_left(1);
        full.rotate_right(2);
        with_room.rotate_left(1);
        with_room.rotate_right(2);
        let seen = [drops.since(), drops.with(full), drops.with(with_room)];
        assert!(rt; seen == [0, 4123, 4123], "start {start}");
    }
    Ok(())
}

#[test]
fn what_is_handed_out_is_not_dropped(rt: HostRuntime) -> Result<(), Fail> {
    let drops = Drops::new();
    let calls = vec![in rt.alloc(); Call::Replace(0, drops.item(4))]?;
    let mut deque = deque_at::<3>(rt.alloc(), &drops, 0, 3)?;
    let removed = deque.remove(1);
    let replies = deque.run(calls);
    let wrapping: ArrayDeque<_, 3, Wrapping> = deque.into();
    let list = wrapping.into_vec();
    let before = drops.since();
    let is_granted = replies.is_ok() && list.is_ok();
    drop(removed);
    drop(replies);
    let seen = [before, drops.with(list)];
    assert!(rt; is_granted && seen == [0, 2143]);
    let calls = vec![in rt.alloc(); Call::Insert(0, drops.item(6))]?;
    let mut deque: ArrayDeque<_, 3, Wrapping> = deque_at::<3>(rt.alloc(), &drops, 1, 3)?.into();
    let first = deque.push_back(drops.item(4));
    let last = deque.push_front(drops.item(5));
    let before = drops.since();
    drop(first);
    let displaced = drops.with(last);
    let replies = deque.run(calls);
    let is_granted = replies.is_ok();
    let answered = drops.since();
    drop(replies);
    let seen = [before, displaced, answered, drops.with(deque)];
    assert!(rt; is_granted && seen == [0, 14, 0, 6523]);
    Ok(())
}

#[test]
fn a_run_drops_what_no_reply_hands_out(rt: HostRuntime) -> Result<(), Fail> {
    let drops = Drops::new();
    for start in 0..5 {
        let mut deque = deque_at::<5>(rt.alloc(), &drops, start, 5)?;
        let replies = deque.run(vec![in rt.alloc(); Call::Clear]?);
        let cleared = drops.since();
        let surplus = vec![in rt.alloc(); drops.item(6), drops.item(7)]?;
        let mut deque = deque_at::<1>(rt.alloc(), &drops, 0, 0)?;
        let added = deque.run(vec![in rt.alloc(); Call::ExtendBack(surplus)]?);
        let seen = [cleared, drops.since(), drops.with(deque)];
        assert!(rt;
            seen == [12345, 7, 6] && replies.is_ok() && added.is_ok(),
            "start {start}"
        );
    }
    Ok(())
}

/// What a refusal hands back goes once the refusal becomes an error that has no room for it.
#[test]
fn a_source_is_dropped_with_its_refusal(rt: HostRuntime) -> Result<(), Fail> {
    let drops = Drops::new();
    let refusal = MakeError {
        source: vec![in rt.alloc(); drops.item(1), drops.item(2)]?,
    };
    let other = MakeError {
        source: drops.item(3),
    };
    let before = drops.since();
    let error: AllocError = refusal.into();
    let first = drops.since();
    let io_error: io::Error = other.into();
    let second = drops.since();
    let is_told = error == AllocError && io_error.kind() == io::ErrorKind::OutOfMemory;
    drop(io_error);
    assert!(rt; is_told && [before, first, second, drops.since()] == [0, 12, 3, 0]);
    let mut deque = deque_at::<1>(rt.alloc(), &drops, 0, 1)?;
    let refused = deque.push_back(drops.item(2)).map_err(io::Error::from);
    let seen = [drops.since(), drops.with(refused), drops.with(deque)];
    assert!(rt; seen == [2, 0, 1]);
    Ok(())
}
