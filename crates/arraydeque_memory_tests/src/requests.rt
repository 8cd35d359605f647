//! Calls that take memory: how often they ask, and for how much. The name of each test ends in the
//! requests that it makes and the bytes that it takes; it gives all of them back.
use crate::build::{deque_at, holds, made, wrapping_at};
use crate::in_place::refill;
use arraydeque::run::Call;
use arraydeque::{ArrayDeque, Saturating, Wrapping};
use std::alloc::{AllocError, Global};
use std::test::Fail;

type Deque = ArrayDeque<i64, 4, Saturating>;

/// A region of three places for each.
#[test]
fn new_deques_2_requests_48_bytes(rt: HostRuntime) -> Result<(), Fail> {
    let refusing = ArrayDeque::<i64, 3, Saturating>::new(rt.alloc())?;
    let displacing = ArrayDeque::<i64, 3, Wrapping>::new(rt.alloc())?;
    assert!(rt; refusing.is_empty() && displacing.is_empty());
    Ok(())
}

/// Four deques of an iterator or an array, and one of a vector, whose bytes are counted too.
#[test]
fn makers_6_requests_200_bytes(rt: HostRuntime) -> Result<(), Fail> {
    let list = vec![in rt.alloc(); 1, 2, 3, 4, 5]?;
    assert!(rt;
        holds(
            &made(ArrayDeque::<i64, 4, Saturating>::from_vec(rt.alloc(), list))?,
            &[1, 2, 3, 4]
        ) && holds(
            &made(ArrayDeque::<i64, 4, Saturating>::from_iter(rt.alloc(), 1..9))?,
            &[1, 2, 3, 4]
        ) && holds(
            &made(ArrayDeque::<i64, 4, Wrapping>::from_iter(rt.alloc(), 1..9))?,
            &[5, 6, 7, 8]
        ) && holds(
            &made(ArrayDeque::<i64, 4, Saturating>::from_array(rt.alloc(), [1, 2]))?,
            &[1, 2]
        ) && holds(
            &made(ArrayDeque::<i64, 4, Wrapping>::from_array(rt.alloc(), [1, 2]))?,
            &[1, 2]
        )
    );
    Ok(())
}

/// Beside the region: the two items that a drain takes out, the region of a split, of the same
/// capacity, and a vector without room to spare.
#[test]
fn parts_4_requests_104_bytes(rt: HostRuntime) -> Result<(), Fail> {
    let mut deque = deque_at::<4>(rt.alloc(), 2, &[0, 1, 2, 3])?;
    let is_drained = deque.len() == 4 && deque.drain(1..3)?.len() == 2 && holds(&deque, &[0, 3]);
    refill(&mut deque, &[0, 1, 2]);
    let is_split = deque.len() == 3 && holds(&deque.split_off(1)?, &[1, 2]) && holds(&deque, &[0]);
    refill(&mut deque, &[1, 2, 3]);
    let list = made(deque.into_vec())?;
    assert!(rt; is_drained && is_split && list.as_slice() == [1, 2, 3].as_slice());
    Ok(())
}

/// Whether a clone has the list, in a second region.
fn is_cloned(alloc: Global) -> Result<bool, Fail> {
    let deque = deque_at::<4>(alloc, 3, &[1, 2, 3])?;
    Ok(holds(&deque.clone()?, &[1, 2, 3]))
}

/// Whether nothing is split off, into a second region though nothing goes to it.
fn splits_nothing_off(alloc: Global) -> Result<bool, Fail> {
    let mut deque = deque_at::<4>(alloc, 2, &[0, 1, 2])?;
    Ok(deque.len() == 3 && deque.split_off(3)?.is_empty() && holds(&deque, &[0, 1, 2]))
}

/// Whether a vector has the items of size zero.
fn gives_items_of_size_zero(alloc: Global) -> Result<bool, Fail> {
    let mut deque = ArrayDeque::<(), 3, Saturating>::new(alloc)?;
    deque.extend_back([(), ()]);
    Ok(made(deque.into_vec())?.len() == 2)
}

/// Two regions each for the clone and the split. The one byte more is what a vector of any number
/// of items of size zero takes.
#[test]
fn copies_5_requests_129_bytes(rt: HostRuntime) -> Result<(), Fail> {
    assert!(rt;
        is_cloned(rt.alloc())?
            && splits_nothing_off(rt.alloc())?
            && gives_items_of_size_zero(rt.alloc())?
    );
    Ok(())
}

/// Whether all items go, for which a drain asks for the region's bytes again.
fn drains_all(mut deque: Deque) -> Result<bool, Fail> {
    let mut drain = deque.drain(..)?;
    Ok(
        (drain.len(), drain.size_hint()) == (4, (4, Some(4)))
            && (drain.next(), drain.next_back()) == (Some(0), Some(3))
            && (drain.next(), drain.next_back()) == (Some(1), Some(2))
            && (drain.next(), drain.next_back()) == (None, None)
            && deque.is_empty(),
    )
}

/// Whether one item goes at either end, for which each drain asks for the bytes of one item.
fn drains_one_by_one(mut deque: Deque) -> Result<bool, Fail> {
    Ok(
        deque.len() == 4
            && deque.drain(..1)?.next() == Some(0)
            && deque.len() == 3
            && deque.drain(2..)?.next_back() == Some(3)
            && holds(&deque, &[1, 2]),
    )
}

/// Whether three of five bytes go: eight bytes of a region, and three.
fn drains_bytes(alloc: Global) -> Result<bool, Fail> {
    let mut deque = ArrayDeque::<u8, 8, Wrapping>::new(alloc)?;
    deque.extend(&[1, 2, 3, 4, 5])?;
    Ok(
        deque.len() == 5
            && deque.drain(1..4)?.len() == 3
            && holds(&deque, &[1, 5])
            && deque.drain(..)?.len() == 2,
    )
}

/// A region of 32 bytes and as many again, one of 32 with twice 8, and one of 8 with 3 and 2.
#[test]
fn drains_8_requests_125_bytes(rt: HostRuntime) -> Result<(), Fail> {
    assert!(rt;
        drains_all(deque_at::<4>(rt.alloc(), 2, &[0, 1, 2, 3])?)?
            && drains_one_by_one(deque_at::<4>(rt.alloc(), 2, &[0, 1, 2, 3])?)?
            && drains_bytes(rt.alloc())?
    );
    Ok(())
}

/// The deque's region, the list of four calls of 32 bytes each, and room for four replies of 48.
#[test]
fn a_run_3_requests_352_bytes(rt: HostRuntime) -> Result<(), Fail> {
    let mut deque = deque_at::<4>(rt.alloc(), 2, &[0, 1, 2])?;
    let calls = vec![in rt.alloc();
        Call::PushBack(3),
        Call::Linearize,
        Call::Remove(1),
        Call::Len,
    ]?;
    let replies = made(deque.run(calls))?;
    assert!(rt; replies.len() == 4 && holds(&deque, &[0, 2, 3]));
    Ok(())
}

/// The calls that ask for no memory, also where they are refused, but an `Insert` that succeeds,
/// which only one policy offers. They leave no item.
fn calls_in_place(alloc: Global) -> Result<Vec<Call<i64>>, AllocError> {
    Ok(vec![in alloc;
        Call::Len,
        Call::Capacity,
        Call::IsEmpty,
        Call::IsFull,
        Call::Swap(0, 2),
        Call::Replace(1, 7),
        Call::Swap(0, 3),
        Call::Replace(3, 7),
        Call::Remove(3),
        Call::SwapRemoveBack(3),
        Call::SwapRemoveFront(3),
        Call::Drain(2, 4),
        Call::Drain(2, 1),
        Call::SplitOff(4),
        Call::Insert(4, 7),
        Call::Linearize,
        Call::Drain(1, 1),
        Call::PushFront(8),
        Call::PushBack(9),
        Call::PopFront,
        Call::PopBack,
        Call::PushFront(6),
        Call::SwapRemoveBack(0),
        Call::SwapRemoveFront(1),
        Call::Remove(0),
        Call::Remove(0),
        Call::Clear,
    ]?)
}

/// Whether each call that asks for no memory is answered on either policy.
fn answers_in_place(alloc: Global) -> Result<bool, Fail> {
    let mut refusing = deque_at::<4>(alloc, 2, &[0, 1, 2])?;
    let mut displacing = wrapping_at::<4>(alloc, 2, &[0, 1, 2])?;
    let replies = made(refusing.run(calls_in_place(alloc)?))?.len();
    let other = made(displacing.run(calls_in_place(alloc)?))?.len();
    let inserted = made(refusing.run(vec![in alloc; Call::Insert(0, 5)]?))?.len();
    Ok((replies, other, inserted) == (27, 27, 1) && holds(&refusing, &[5]) && displacing.is_empty())
}

/// The two regions of 32 bytes, two lists of 27 calls of 32 bytes and one of one, and room for as
/// many replies of 48.
#[test]
fn calls_in_place_by_run_8_requests_4464_bytes(rt: HostRuntime) -> Result<(), Fail> {
    assert!(rt; answers_in_place(rt.alloc())?);
    Ok(())
}

/// A list of calls that bring memory with them or ask for it.
fn calls_with_memory(alloc: Global) -> Result<Vec<Call<i64>>, AllocError> {
    Ok(vec![in alloc;
        Call::ExtendBack(vec![in alloc; 1, 2]?),
        Call::ExtendFront(vec![in alloc; 3]?),
        Call::Extend(vec![in alloc; 4, 5, 6]?),
        Call::Drain(0, 3),
        Call::SplitOff(0),
    ]?)
}

/// Beside the two regions of 32 bytes, for each of them: five calls of 32 bytes with vectors of 16,
/// 8 and 24, room for five replies of 48, three items for the drain and a region for the split.
#[test]
fn calls_with_memory_by_run_16_requests_1072_bytes(rt: HostRuntime) -> Result<(), Fail> {
    let mut refusing = deque_at::<4>(rt.alloc(), 2, &[0])?;
    let mut displacing = wrapping_at::<4>(rt.alloc(), 2, &[0])?;
    let replies = made(refusing.run(calls_with_memory(rt.alloc())?))?;
    let other = made(displacing.run(calls_with_memory(rt.alloc())?))?;
    assert!(rt; (replies.len(), other.len()) == (5, 5) && refusing.is_empty());
    Ok(())
}
