//! What may cross threads: a deque, its iterators and the errors, where their items may.
use crate::build::holds;
use arraydeque::behavior::Behavior;
use arraydeque::{
    ArrayDeque, CapacityError, Drain, IntoIter, Iter, IterMut, MakeError, Saturating, Wrapping,
};
use std::marker::{Send, Sync};
use std::test::Fail;

/// Takes what may go to another thread.
fn send<T: Send>(value: T) -> T {
    value
}

/// Takes what several threads may read.
fn share<T: Sync>(value: &T) -> &T {
    value
}

fn deque_sent<T: Send, const CAP: usize, B: Behavior + Send>(
    deque: ArrayDeque<T, CAP, B>,
) -> ArrayDeque<T, CAP, B> {
    send(deque)
}

fn deque_shared<T: Sync, const CAP: usize, B: Behavior + Sync>(
    deque: &ArrayDeque<T, CAP, B>,
) -> &ArrayDeque<T, CAP, B> {
    send(share(deque))
}

fn drain_sent<T: Send>(drain: Drain<T>) -> Drain<T> {
    send(drain)
}

fn drain_shared<T: Sync>(drain: &Drain<T>) -> &Drain<T> {
    send(share(drain))
}

fn iter_sent<'a, T: Sync>(items: Iter<'a, T>) -> Iter<'a, T> {
    send(items)
}

fn iter_shared<'a, 'b, T: Sync>(items: &'b Iter<'a, T>) -> &'b Iter<'a, T> {
    send(share(items))
}

fn iter_mut_sent<'a, T: Send>(items: IterMut<'a, T>) -> IterMut<'a, T> {
    send(items)
}

fn iter_mut_shared<'a, 'b, T: Sync>(items: &'b IterMut<'a, T>) -> &'b IterMut<'a, T> {
    send(share(items))
}

fn into_iter_sent<T: Send, const CAP: usize, B: Behavior + Send>(
    items: IntoIter<T, CAP, B>,
) -> IntoIter<T, CAP, B> {
    send(items)
}

fn into_iter_shared<T: Sync, const CAP: usize, B: Behavior + Sync>(
    items: &IntoIter<T, CAP, B>,
) -> &IntoIter<T, CAP, B> {
    send(share(items))
}

fn errors_sent<T: Send>(
    full: CapacityError<T>,
    refused: MakeError<T>,
) -> (CapacityError<T>, MakeError<T>) {
    (send(full), send(refused))
}

fn errors_shared<'a, T: Sync>(
    full: &'a CapacityError<T>,
    refused: &'a MakeError<T>,
) -> (&'a CapacityError<T>, &'a MakeError<T>) {
    (send(share(full)), send(share(refused)))
}

#[test]
fn deques_iterators_and_errors_cross_threads(rt: HostRuntime) -> Result<(), Fail> {
    let mut deque: ArrayDeque<u64, 2, Saturating> = ArrayDeque::new(rt.alloc())?;
    let has_room = deque.push_back(1).is_ok();
    let mut deque = deque_sent(deque);
    assert!(rt;
        has_room
            && holds(deque_shared(&deque), &[1])
            && iter_shared(&iter_sent(deque.iter())).len() == 1
            && iter_mut_shared(&iter_mut_sent(deque.iter_mut())).len() == 1
    );
    let mut deque: ArrayDeque<u64, 2, Wrapping> = deque_sent(deque.into());
    deque.push_back(2);
    let are_shared = holds(deque_shared(&deque), &[1, 2]);
    let drain = drain_sent(deque.drain(1..)?);
    let one: ArrayDeque<u64, 2, Saturating> = deque.into();
    let items = into_iter_sent(one.into_iter());
    let (full, refused) = errors_sent(CapacityError { element: 1_u64 }, MakeError { source: 2 });
    let (full, refused) = errors_shared(&full, &refused);
    assert!(rt;
        are_shared
            && drain_shared(&drain).len() == 1
            && into_iter_shared(&items).len() == 1
            && full.element == 1
            && refused.source == 2
    );
    Ok(())
}
