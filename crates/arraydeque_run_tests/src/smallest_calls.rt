//! Calls at the capacities 0 and 1, under either policy: all that the Rust crate has too, except
//! iterators (`smallest_iterators`), extends at either end, which a run makes (`smallest`), and
//! texts (`arraydeque_trait_tests`).
use arraydeque::behavior::Behavior;
use arraydeque::{ArrayDeque, CapacityError, Saturating, Wrapping};
use arraydeque_samples::build::{deque_at, holds, is_cut, made, wrapping_at};
use std::alloc::Global;
use std::cmp::Ordering;
use std::hash::{DefaultHasher, Hash, Hasher};
use std::test::Fail;

/// Whether a deque of no items shows none.
fn reads_nothing<const CAP: usize, B: Behavior>(deque: &mut ArrayDeque<i64, CAP, B>) -> bool {
    (deque.len(), deque.capacity()) == (0, CAP)
        && (deque.is_empty(), deque.is_full()) == (true, CAP == 0)
        && is_cut(deque, &[], &[])
        && !deque.contains(&6)
        && (deque.front(), deque.back(), deque.get(0)) == (None, None, None)
        && deque.front_mut().is_none()
        && deque.back_mut().is_none()
        && deque.get_mut(0).is_none()
}

/// Whether nothing is lent or found in it.
fn finds_nothing<const CAP: usize, B: Behavior>(deque: &mut ArrayDeque<i64, CAP, B>) -> bool {
    deque.linearize();
    deque.as_slice().is_empty()
        && deque.range(..).next().is_none()
        && deque.partition_point(|_| true) == 0
        && deque.binary_search(&6) == Err(0)
        && deque.binary_search_by(|item| item.cmp(&6)) == Err(0)
        && deque.binary_search_by_key(&6, |item| *item) == Err(0)
}

/// Whether nothing can be taken out of it, and nothing is there to be moved.
fn takes_nothing_out<const CAP: usize, B: Behavior>(deque: &mut ArrayDeque<i64, CAP, B>) -> bool {
    deque.retain(|_| true);
    deque.retain_mut(|_| true);
    deque.truncate(0);
    deque.truncate_front(0);
    deque.resize(0, 7);
    deque.remove_range(..);
    deque.clear();
    deque.rotate_left(0);
    deque.rotate_right(0);
    deque.linearize();
    (deque.pop_front(), deque.pop_back()) == (None, None)
        && (deque.pop_front_if(|_| true), deque.pop_back_if(|_| true)) == (None, None)
        && (deque.remove(0), deque.swap_remove_back(0)) == (None, None)
        && deque.swap_remove_front(0).is_none()
        && is_cut(deque, &[], &[])
}

/// Whether it is parted into nothing and nothing.
fn has_no_parts<const CAP: usize, B: Behavior>(
    deque: &mut ArrayDeque<i64, CAP, B>,
) -> Result<bool, Fail> {
    deque.clear();
    let mut drain = deque.drain(..)?;
    let is_drained = (drain.len(), drain.size_hint()) == (0, (0, Some(0)))
        && (drain.next(), drain.next_back()) == (None, None);
    Ok(is_drained && deque.len() == 0 && deque.split_off(0)?.is_empty() && deque.is_empty())
}

/// The hash of a list of at most one item, the length first.
fn hash_of_list(items: &[i64]) -> u64 {
    let mut state = DefaultHasher::new();
    items.len().hash(&mut state);
    for item in items {
        item.hash(&mut state);
    }
    state.finish()
}

/// Whether a deque is equal to its clone in every way, and has the hash of this list.
fn compares_as<const CAP: usize, B: Behavior>(
    deque: &ArrayDeque<i64, CAP, B>,
    items: &[i64],
) -> Result<bool, Fail> {
    let clone = deque.clone()?;
    let mut state = DefaultHasher::new();
    deque.hash(&mut state);
    Ok(
        clone == *deque
            && clone.cmp(deque) == Ordering::Equal
            && clone.partial_cmp(deque) == Some(Ordering::Equal)
            && holds(&clone, items)
            && state.finish() == hash_of_list(items),
    )
}

/// Whether a new deque is empty in every way.
fn is_nothing<const CAP: usize, B: Behavior>(alloc: Global) -> Result<bool, Fail> {
    let mut deque = ArrayDeque::<i64, CAP, B>::new(alloc)?;
    Ok(
        finds_nothing(&mut deque)
            && reads_nothing(&mut deque)
            && takes_nothing_out(&mut deque)
            && has_no_parts(&mut deque)?
            && compares_as(&deque, &[])?,
    )
}

/// No region is taken at capacity 0, for a clone and what is split off neither.
#[test]
fn no_items_of_no_places_0_requests_0_bytes(rt: HostRuntime) -> Result<(), Fail> {
    assert!(rt; is_nothing::<0, Saturating>(rt.alloc())? && is_nothing::<0, Wrapping>(rt.alloc())?);
    Ok(())
}

/// Whether the one item is read.
fn reads_one<B: Behavior>(deque: &mut ArrayDeque<i64, 1, B>) -> bool {
    deque.linearize();
    (deque.len(), deque.capacity()) == (1, 1)
        && (deque.is_empty(), deque.is_full()) == (false, true)
        && is_cut(deque, &[6], &[])
        && (deque.contains(&6), deque.contains(&7)) == (true, false)
        && (deque.front(), deque.back()) == (Some(&6), Some(&6))
        && (deque.get(0), deque.get(1)) == (Some(&6), None)
        && (deque.len() == 1 && deque[0] == 6)
}

/// Whether the one item is written over where it stands, and is 6 again.
fn writes_one<B: Behavior>(deque: &mut ArrayDeque<i64, 1, B>) -> bool {
    if let Some(item) = deque.front_mut() {
        *item = 7;
    }
    let by_the_front = holds(deque, &[7]);
    if let Some(item) = deque.back_mut() {
        *item = 8;
    }
    let by_the_back = holds(deque, &[8]);
    if let Some(item) = deque.get_mut(0) {
        *item = 9;
    }
    let by_get = holds(deque, &[9]);
    if deque.len() == 1 {
        deque[0] = 6;
        deque.swap(0, 0);
    }
    by_the_front && by_the_back && by_get && deque.get_mut(1).is_none() && holds(deque, &[6])
}

/// Whether a drain gives the one item.
fn drains_one<B: Behavior>(mut deque: ArrayDeque<i64, 1, B>) -> Result<bool, Fail> {
    if deque.len() != 1 {
        return Ok(false);
    }
    let mut drain = deque.drain(0..1)?;
    Ok(
        (drain.len(), drain.size_hint()) == (1, (1, Some(1)))
            && (drain.next_back(), drain.next(), drain.len()) == (Some(6), None, 0)
            && deque.is_empty(),
    )
}

/// Whether an index cuts off the part behind it, and leaves the other.
fn has_two_parts<B: Behavior>(mut deque: ArrayDeque<i64, 1, B>) -> Result<bool, Fail> {
    Ok(
        deque.len() == 1
            && deque.split_off(1)?.is_empty()
            && deque.len() == 1
            && drains_one(deque.split_off(0)?)?
            && deque.is_empty(),
    )
}

/// Whether one item is there in every way, and is parted at last.
fn is_one<B: Behavior>(mut deque: ArrayDeque<i64, 1, B>) -> Result<bool, Fail> {
    Ok(
        reads_one(&mut deque)
            && writes_one(&mut deque)
            && compares_as(&deque, &[6])?
            && has_two_parts(deque)?,
    )
}

#[test]
fn no_items_and_one_item_of_one_place(rt: HostRuntime) -> Result<(), Fail> {
    assert!(rt; is_nothing::<1, Saturating>(rt.alloc())? && is_nothing::<1, Wrapping>(rt.alloc())?);
    assert!(rt;
        is_one(deque_at::<1>(rt.alloc(), 0, &[6])?)?
            && is_one(wrapping_at::<1>(rt.alloc(), 0, &[6])?)?
    );
    Ok(())
}

/// A call that takes the one item out.
#[derive(Clone, Copy, Debug)]
enum Out {
    Front,
    Back,
    Remove,
    SwapBack,
    SwapFront,
    Clear,
    Retain,
}

/// Takes the item at index 0 out in that way. Returns it, or 6 where the call returns nothing.
fn take_out<B: Behavior>(deque: &mut ArrayDeque<i64, 1, B>, out: Out) -> Option<i64> {
    match out {
        Out::Front => deque.pop_front(),
        Out::Back => deque.pop_back(),
        Out::Remove => deque.remove(0),
        Out::SwapBack => deque.swap_remove_back(0),
        Out::SwapFront => deque.swap_remove_front(0),
        Out::Clear => {
            deque.clear();
            Some(6)
        }
        Out::Retain => {
            deque.retain(|item| *item != 6);
            Some(6)
        }
    }
}

/// Whether another item comes once the one has gone in that way.
fn is_free_after(alloc: Global, out: Out) -> Result<bool, Fail> {
    let mut deque = deque_at::<1>(alloc, 0, &[6])?;
    let mut wrapping = wrapping_at::<1>(alloc, 0, &[6])?;
    Ok(
        take_out(&mut deque, out) == Some(6)
            && deque.len() == 0
            && deque.insert(0, 7).is_ok()
            && holds(&deque, &[7])
            && take_out(&mut wrapping, out) == Some(6)
            && wrapping.is_empty()
            && wrapping.push_front(7).is_none()
            && holds(&wrapping, &[7]),
    )
}

#[test]
fn one_place_is_free_once_its_item_goes(rt: HostRuntime) -> Result<(), Fail> {
    let ways = [
        Out::Front,
        Out::Back,
        Out::Remove,
        Out::SwapBack,
        Out::SwapFront,
        Out::Clear,
        Out::Retain,
    ];
    for out in ways {
        assert!(rt; is_free_after(rt.alloc(), out)?, "{out:?}");
    }
    Ok(())
}

type Refusing<const CAP: usize> = ArrayDeque<i64, CAP, Saturating>;

type Displacing<const CAP: usize> = ArrayDeque<i64, CAP, Wrapping>;

/// Whether a deque of no places, which has just been pushed to, stays empty until it is dropped.
fn stays_empty<B: Behavior>(mut deque: ArrayDeque<i64, 0, B>) -> bool {
    deque.clear();
    let is_cleared = is_cut(&deque, &[], &[]);
    deque.linearize();
    let is_empty = is_cut(&deque, &[], &[]) && deque.len() == 0;
    drop(deque);
    is_cleared && is_empty
}

/// Whether a deque of no places hands each element back.
fn refuses_all(alloc: Global) -> Result<bool, Fail> {
    let mut deque = Refusing::<0>::new(alloc)?;
    let is_refused = deque.push_back(5) == Err(CapacityError { element: 5 });
    let mut other = Refusing::<0>::new(alloc)?;
    Ok(
        is_refused
            && stays_empty(deque)
            && other.push_front(6) == Err(CapacityError { element: 6 })
            && other.len() == 0
            && other.insert(0, 7) == Err(CapacityError { element: 7 })
            && stays_empty(other),
    )
}

/// Whether a deque of no places gives each item up.
fn displaces_all(alloc: Global) -> Result<bool, Fail> {
    let mut deque = Displacing::<0>::new(alloc)?;
    let is_given_up = deque.push_back(5) == Some(5);
    let mut other = Displacing::<0>::new(alloc)?;
    Ok(is_given_up && stays_empty(deque) && other.push_front(6) == Some(6) && stays_empty(other))
}

/// Whether one place takes one item, and hands back what comes then.
fn refuses_at_one(alloc: Global) -> Result<bool, Fail> {
    let mut deque = Refusing::<1>::new(alloc)?;
    let mut front = Refusing::<1>::new(alloc)?;
    Ok(
        deque.push_back(6) == Ok(())
            && deque.push_back(7) == Err(CapacityError { element: 7 })
            && deque.push_front(7) == Err(CapacityError { element: 7 })
            && deque.len() == 1
            && deque.insert(1, 8) == Err(CapacityError { element: 8 })
            && deque.insert(0, 9) == Err(CapacityError { element: 9 })
            && holds(&deque, &[6])
            && front.push_front(6) == Ok(())
            && holds(&front, &[6]),
    )
}

/// Whether one place takes one item, and gives it up for what comes then.
fn displaces_at_one(alloc: Global) -> Result<bool, Fail> {
    let mut deque = Displacing::<1>::new(alloc)?;
    let mut front = Displacing::<1>::new(alloc)?;
    Ok(
        (deque.push_back(6), deque.push_back(7), deque.push_front(8)) == (None, Some(6), Some(7))
            && holds(&deque, &[8])
            && front.push_front(6).is_none()
            && holds(&front, &[6]),
    )
}

/// Whether 3 and 4, added by the trait to a deque of these items, leave the list.
fn refusing_extends<const CAP: usize>(
    alloc: Global,
    items: &[i64],
    left: &[i64],
) -> Result<bool, Fail> {
    let mut deque = deque_at::<CAP>(alloc, 0, items)?;
    deque.extend([3, 4])?;
    Ok(holds(&deque, left))
}

/// The same under the policy that displaces.
fn displacing_extends<const CAP: usize>(
    alloc: Global,
    items: &[i64],
    left: &[i64],
) -> Result<bool, Fail> {
    let mut deque = wrapping_at::<CAP>(alloc, 0, items)?;
    deque.extend([3, 4])?;
    Ok(holds(&deque, left))
}

/// Whether the deques of 1 and 2 keep these items, and that of a vector keeps those.
fn refusing_makers<const CAP: usize>(
    alloc: Global,
    kept: &[i64],
    list: Vec<i64>,
    kept_of_list: &[i64],
) -> Result<bool, Fail> {
    Ok(
        holds(&made(Refusing::<CAP>::from_iter(alloc, 1..3))?, kept)
            && holds(&made(Refusing::<CAP>::from_array(alloc, [1, 2]))?, kept)
            && holds(&made(Refusing::<CAP>::from_vec(alloc, list))?, kept_of_list),
    )
}

/// The same under the policy that displaces.
fn displacing_makers<const CAP: usize>(
    alloc: Global,
    kept: &[i64],
    list: Vec<i64>,
    kept_of_list: &[i64],
) -> Result<bool, Fail> {
    Ok(
        holds(&made(Displacing::<CAP>::from_iter(alloc, 1..3))?, kept)
            && holds(&made(Displacing::<CAP>::from_array(alloc, [1, 2]))?, kept)
            && holds(
                &made(Displacing::<CAP>::from_vec(alloc, list))?,
                kept_of_list,
            ),
    )
}

/// Whether a deque of these items keeps them under the other policy, and under the first again.
fn are_converted<const CAP: usize>(alloc: Global, items: &[i64]) -> Result<bool, Fail> {
    let wrapping: Displacing<CAP> = deque_at::<CAP>(alloc, 0, items)?.into();
    let is_wrapping = is_cut(&wrapping, items, &[]);
    let saturating: Refusing<CAP> = wrapping.into();
    Ok(is_wrapping && is_cut(&saturating, items, &[]))
}

#[test]
fn no_places_0_requests_0_bytes(rt: HostRuntime) -> Result<(), Fail> {
    let alloc = rt.alloc();
    assert!(rt;
        refuses_all(alloc)?
            && displaces_all(alloc)?
            && refusing_extends::<0>(alloc, &[], &[])?
            && displacing_extends::<0>(alloc, &[], &[])?
            && refusing_makers::<0>(alloc, &[], Vec::new(alloc), &[])?
            && displacing_makers::<0>(alloc, &[], Vec::new(alloc), &[])?
            && are_converted::<0>(alloc, &[])?
    );
    Ok(())
}

#[test]
fn a_vector_and_a_deque_into_no_places(rt: HostRuntime) -> Result<(), Fail> {
    let (list, other) = (vec![in rt.alloc(); 1, 2]?, vec![in rt.alloc(); 1, 2]?);
    let mut none = deque_at::<0>(rt.alloc(), 0, &[])?;
    let mut two = wrapping_at::<2>(rt.alloc(), 0, &[3, 4])?;
    none.append(&mut two);
    assert!(rt;
        refusing_makers::<0>(rt.alloc(), &[], list, &[])?
            && displacing_makers::<0>(rt.alloc(), &[], other, &[])?
            && none.is_empty()
            && holds(&two, &[3, 4])
    );
    Ok(())
}

#[test]
fn one_place(rt: HostRuntime) -> Result<(), Fail> {
    let alloc = rt.alloc();
    let (list, other) = (vec![in alloc; 1, 2]?, vec![in alloc; 1, 2]?);
    assert!(rt;
        refuses_at_one(alloc)?
            && displaces_at_one(alloc)?
            && refusing_extends::<1>(alloc, &[], &[3])?
            && refusing_extends::<1>(alloc, &[1], &[1])?
            && displacing_extends::<1>(alloc, &[], &[4])?
            && displacing_extends::<1>(alloc, &[1], &[4])?
    );
    assert!(rt;
        refusing_makers::<1>(alloc, &[1], list, &[1])?
            && displacing_makers::<1>(alloc, &[2], other, &[2])?
            && are_converted::<1>(alloc, &[])?
            && are_converted::<1>(alloc, &[6])?
    );
    Ok(())
}
